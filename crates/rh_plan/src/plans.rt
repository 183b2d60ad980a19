//! A plan.

ghost use Rattle.std.specs.Prelude.{◌≡◌, ◌<◌, Some, IfOk, length, slice_get};
ghost use Rattle.rh_rules.specs.Kept.{planned_checks};
ghost use Rattle.rh_rules.specs.Bodies.{shapes_of};
ghost use Rattle.rh_rules.specs.Lawful.{AreLawful, putter_of};

use crate::attempt_limit::attempts_of;
use crate::blaming::blamed;
use crate::edge::Edge;
use crate::grouping::group_of;
use crate::outcome::Cause;
use crate::references::is_shown;
use crate::tables::{Tables, edges_and_tables};
use rh_check::Matrices;
use rh_rules::{Body, Kind, Node, PlannedCheck, PlannedPromise, Scheme};
use rh_words::{Name, OutOfMemory};
use std::alloc::Global;
use std::marker::Model;

/// What is run: nodes (tasks, groups and finish scopes), promises, edges and matrices, each named by its number from 0.
#[derive(Drop)]
pub struct Plan {
    nodes: Vec<Node>,
    promises: Vec<PlannedPromise>,
    edges: Vec<Edge>,
    matrices: Matrices,
    tables: Tables,
}

impl Model for Plan {
    ghost use Rattle.rh_plan.specs.Plans.{PlanData, plan_data};
    ghost use Rattle.rh_plan.specs.Tables.{IsPlanWith};

    ghost Value = { PlanData };

    ghost view = { λ p. plan_data p.nodes.items p.promises.items p.edges.items p.matrices };

    ghost invariant = { λ p. IsPlanWith (plan_data p.nodes.items p.promises.items p.edges.items p.matrices) p.tables };
}

impl Plan {
    ghost use Rattle.rh_plan.specs.Plans.{OfNode, OfPromise, plan_data, edges_from};
    ghost use Rattle.rh_plan.specs.Derived.{attempts_of_kind, edges_in, edges_out, is_shown, levels, need, references};
    ghost use Rattle.rh_plan.specs.Lawful.{IsLawfulPlan};
    ghost use Rattle.rh_plan.specs.Results.{blamed};

    /// The plan of these nodes, promises and matrices.
    pub fn of(
        alloc: Global,
        nodes: Vec<Node>,
        promises: Vec<PlannedPromise>,
        matrices: Matrices,
    ) -> Result<Plan, OutOfMemory>
        requires { AreLawful (shapes_of matrices) nodes.items promises.items }
        ensures { IfOk result (λ plan. plan ≡ plan_data nodes.items promises.items (edges_from promises.items 0 nodes.items) matrices) }
    {
        let (edges, tables) = edges_and_tables(alloc, &promises, &nodes)?;
        Ok(Plan {
            nodes,
            promises,
            edges,
            matrices,
            tables,
        })
    }

    /// How many nodes there are. Every plan is lawful.
    pub fn nodes(&self) -> u32
        ensures count { result ≡ length self.now.nodes }
        ensures lawful { IsLawfulPlan self.now }
    {
        self.nodes.len() as u32
    }

    /// How many promises there are, scopes' own among them. Every plan is lawful.
    pub fn promises(&self) -> u32
        ensures count { result ≡ length self.now.promises }
        ensures lawful { IsLawfulPlan self.now }
    {
        self.promises.len() as u32
    }

    /// How many edges there are. Every plan is lawful.
    pub fn edges(&self) -> u32
        ensures count { result ≡ length self.now.edges }
        ensures lawful { IsLawfulPlan self.now }
    {
        self.edges.len() as u32
    }

    /// The nodes, by their numbers. Every plan is lawful.
    pub(crate) fn node_list(&self) -> &[Node]
        ensures value { result.now ≡ self.now.nodes }
        ensures lawful { IsLawfulPlan self.now }
    {
        self.nodes.as_slice()
    }

    /// The promises, by their numbers.
    pub(crate) fn promise_list(&self) -> &[PlannedPromise]
        ensures { result.now ≡ self.now.promises }
    {
        self.promises.as_slice()
    }

    /// The name of a node.
    pub fn name(&self, node: u32) -> Name
        requires { node < length self.now.nodes }
        ensures { OfNode self.now node (λ n. result ≡ n.name) }
    {
        self.nodes[node as usize].name
    }

    /// Whether a node is a task, a group or a scope.
    pub fn kind(&self, node: u32) -> Kind
        requires { node < length self.now.nodes }
        ensures { OfNode self.now node (λ n. result ≡ n.kind) }
    {
        self.nodes[node as usize].kind
    }

    /// The scheme of a task. A group and a scope answer `Plain`.
    pub fn scheme(&self, node: u32) -> Scheme
        requires { node < length self.now.nodes }
        ensures { OfNode self.now node (λ n. result ≡ n.scheme) }
    {
        self.nodes[node as usize].scheme
    }

    /// The greatest number of attempts of a task. It is 0 for a group and a scope.
    pub fn attempts(&self, node: u32) -> u32
        requires { node < length self.now.nodes }
        ensures { OfNode self.now node (λ n. result ≡ attempts_of_kind n n.kind) }
    {
        attempts_of(&self.nodes[node as usize])
    }

    /// The promises that a node awaits, in await order. A scope awaits none.
    pub fn awaits(&self, node: u32) -> &[u32]
        requires { node < length self.now.nodes }
        ensures { OfNode self.now node (λ n. result.now ≡ n.awaits) }
    {
        self.nodes[node as usize].awaits.as_slice()
    }

    /// The innermost group in whose lines a node stands.
    pub fn group_of(&self, node: u32) -> Option<u32>
        requires { node < length self.now.nodes }
        ensures { OfNode self.now node (λ n. result ≡ n.group) }
    {
        self.nodes[node as usize].group
    }

    /// The nodes inside a scope at any depth, in ascending order. Other nodes have none.
    pub fn members(&self, scope: u32) -> &[u32]
        requires { scope < length self.now.nodes }
        ensures { OfNode self.now scope (λ n. result.now ≡ n.members) }
    {
        self.nodes[scope as usize].members.as_slice()
    }

    /// The promises that a node may put, in body order. A scope puts its own, a group none.
    pub fn puts(&self, node: u32) -> &[u32]
        requires { node < length self.now.nodes }
        ensures { OfNode self.now node (λ n. result.now ≡ n.puts) }
    {
        self.nodes[node as usize].puts.as_slice()
    }

    /// The steps of a task. A group and a scope have none.
    pub fn body(&self, node: u32) -> &Body
        requires { node < length self.now.nodes }
        ensures { OfNode self.now node (λ n. result.now ≡ n.body) }
    {
        &self.nodes[node as usize].body
    }

    /// The checks of a task, in order. A group and a scope have none.
    pub fn checks_of(&self, node: u32) -> &[PlannedCheck]
        requires { node < length self.now.nodes }
        ensures { OfNode self.now node (λ n. result.now ≡ planned_checks n.checks) }
    {
        self.nodes[node as usize].checks.as_slice()
    }

    /// The names of the results of a task's `let` lines, in order: its locals behind its awaits. A group and a scope have none.
    pub fn lets(&self, node: u32) -> &[Name]
        requires { node < length self.now.nodes }
        ensures { OfNode self.now node (λ n. result.now ≡ n.lets) }
    {
        self.nodes[node as usize].lets.as_slice()
    }

    /// The node that may put a promise, where there is one.
    pub fn putter(&self, promise: u32) -> Option<u32>
        requires { promise < length self.now.promises }
        ensures { result ≡ putter_of self.now.promises promise }
    {
        self.promises[promise as usize].putter
    }

    /// The name of a promise. A scope's own has the scope's.
    pub fn promise_name(&self, promise: u32) -> Name
        requires { promise < length self.now.promises }
        ensures { OfPromise self.now promise (λ p. result ≡ p.name) }
    {
        self.promises[promise as usize].name
    }

    /// How many words a promise has.
    pub fn promise_len(&self, promise: u32) -> u32
        requires { promise < length self.now.promises }
        ensures { OfPromise self.now promise (λ p. result ≡ p.len) }
    {
        self.promises[promise as usize].len
    }

    /// Whether a promise was declared with `temp`.
    pub fn is_temp(&self, promise: u32) -> bool
        requires { promise < length self.now.promises }
        ensures { OfPromise self.now promise (λ p. result ≡ p.temp) }
    {
        self.promises[promise as usize].temp
    }

    /// Whether the report tells the words of a promise: it is neither `temp` nor a scope's own.
    pub fn is_shown(&self, promise: u32) -> bool
        requires { promise < length self.now.promises }
        ensures { OfPromise self.now promise (λ p. result ≡ is_shown p) }
    {
        is_shown(&self.promises[promise as usize])
    }

    /// The matrices that its steps and checks name by their numbers.
    pub fn matrices(&self) -> &Matrices
        ensures { result.now ≡ self.now.matrices }
    {
        &self.matrices
    }

    /// How many references a promise has: its putter's, one for each node that awaits it, and the report's where it is shown.
    pub fn references(&self, promise: u32) -> u64
        requires { promise < length self.now.promises }
        ensures { OfPromise self.now promise (λ p. result ≡ references self.now promise p) }
    {
        self.tables.references[promise as usize]
    }

    /// The edge of a number.
    pub fn edge(&self, at: u32) -> Edge
        requires { at < length self.now.edges }
        ensures { slice_get self.now.edges at ≡ Some result }
    {
        self.edges[at as usize]
    }

    /// The numbers of the edges into a node, in ascending order: its awaits in await order, then its innermost enclosing group, or the
    /// members of a scope.
    pub fn edges_in(&self, node: u32) -> &[u32]
        requires { node < length self.now.nodes }
        ensures { result.now ≡ edges_in self.now node }
    {
        group_of(&self.tables.into, node as usize)
    }

    /// The numbers of the edges out of a node, in ascending order.
    pub fn edges_out(&self, node: u32) -> &[u32]
        requires { node < length self.now.nodes }
        ensures { result.now ≡ edges_out self.now node }
    {
        group_of(&self.tables.out_of, node as usize)
    }

    /// The level of a node: 0 without edges into it, else one more than the greatest level of their sources.
    pub fn level(&self, node: u32) -> u32
        requires { node < length self.now.nodes }
        ensures { slice_get (levels self.now (length self.now.nodes)) node ≡ Some result }
    {
        let levels = self.tables.levels.as_slice();
        levels[node as usize]
    }

    /// How many journal entries a node may need.
    pub fn need(&self, node: u32) -> u64
        requires { node < length self.now.nodes }
        ensures { OfNode self.now node (λ n. result ≡ need n) }
    {
        let node = &self.nodes[node as usize];
        let attempts = attempts_of(node) as u64;
        let puts = node.puts.as_slice().len() as u64;
        let awaits = node.awaits.as_slice().len() as u64;
        2 + attempts + puts + 2 * (awaits + puts)
    }

    /// Why a task is skipped or a group stays closed, where it is: its innermost enclosing group where that did not open, else the first
    /// promise that it awaits, in await order, that is not there. `present` says of each awaited promise whether it is there.
    pub fn blame(&self, node: u32, group_opened: bool, present: &[bool]) -> Option<Cause>
        requires { node < length self.now.nodes }
        ensures { OfNode self.now node (λ n. result ≡ blamed n.group group_opened n.awaits present.now) }
    {
        blamed(&self.nodes[node as usize], group_opened, present)
    }
}
