//! The open task while its lines are planned.

ghost use Rattle.std.specs.Prelude.{◌≡◌, ◌++◌, ◌≤◌, ◌+◌, [], IfOk, None, Some, length, not, option_to_list, ◌&&◌};
ghost use Rattle.std.specs.List.{list_any};
ghost use Rattle.rh_words.specs.declared.limits.TheConstants.{MAX_AWAITS, MAX_LETS, MAX_MATRICES};
ghost use Rattle.rh_rules.specs.Facets.{facets};
ghost use Rattle.rh_rules.specs.Limits.{IsWithinLimits};
ghost use Rattle.rh_rules.specs.Above.{matrix_used, numbers_used, local_made};
ghost use Rattle.rh_rules.specs.Lawful.{has_product, is_product};
ghost use Rattle.rh_rules.specs.Rules.{is_corrected};
ghost use Rattle.rh_tables.specs.Making.{let_reason};

use crate::line_use::LineUse;
use rh_check::Spec;
use rh_rules::{Body, CheckList, Local, NamedShape, Numbers, PlannedCheck, Scheme};
use rh_task_text::Statement;
use rh_words::{Name, OutOfMemory, Reason};
use std::alloc::Global;

/// The open task, or an empty one where none is open. Its lists keep their room from task to task.
#[derive(Drop)]
pub struct OpenTask {
    /// The numbers of the promises that it awaits.
    pub inputs: Numbers,
    pub locals: Vec<Local>,
    /// The numbers of the locals that it drops.
    pub drops: Vec<u32>,
    pub body: Body,
    pub scheme: Scheme,
    pub checks: CheckList,
}

impl OpenTask {
    /// No task.
    pub fn none(alloc: Global) -> OpenTask
        ensures inputs { result.inputs ≡ [] }
        ensures locals { result.locals.items ≡ [] }
        ensures drops { result.drops.items ≡ [] }
        ensures body { result.body ≡ [] }
        ensures scheme { result.scheme ≡ Scheme.Plain }
        ensures checks { result.checks ≡ [] }
    {
        OpenTask {
            inputs: Numbers::new(alloc),
            locals: Vec::new(alloc),
            drops: Vec::new(alloc),
            body: Body::new(alloc),
            scheme: Scheme::Plain,
            checks: CheckList::new(alloc),
        }
    }

    /// Forgets the task.
    pub fn clear(&mut self, alloc: Global)
        ensures inputs { self.new.inputs ≡ [] }
        ensures locals { self.new.locals.items ≡ [] }
        ensures drops { self.new.drops.items ≡ [] }
        ensures body { self.new.body ≡ [] }
        ensures scheme { self.new.scheme ≡ Scheme.Plain }
        ensures checks { self.new.checks ≡ [] }
    {
        self.inputs = Numbers::new(alloc);
        self.locals.clear();
        self.drops.clear();
        self.body = Body::new(alloc);
        self.scheme = Scheme::Plain;
        self.checks = CheckList::new(alloc);
    }

    /// Plans a `let` that makes the local `x`, or names the rule that it breaks.
    pub fn make(
        &mut self,
        alloc: Global,
        line: &mut LineUse,
        matrices: &[NamedShape],
        x: Name,
        statement: &Statement,
    ) -> Result<Option<Reason>, OutOfMemory>
        requires few { length self.old.locals.items ≤ MAX_AWAITS + MAX_LETS }
        requires few_matrices { length matrices.now ≤ MAX_MATRICES }
        requires within { IsWithinLimits statement.now }
        requires makes { (facets statement.now).made ≡ Some x }
        ensures reason { IfOk result (λ answer. answer ≡ let_reason matrices.now self.old.locals.items self.old.drops.items x statement.now) }
        ensures inputs { self.new.inputs ≡ self.old.inputs }
        ensures drops { self.new.drops ≡ self.old.drops }
        ensures scheme { self.new.scheme ≡ self.old.scheme }
        ensures checks { self.new.checks ≡ self.old.checks }
        ensures locals { IfOk result (λ answer. answer ≡ None → self.new.locals.items ≡ self.old.locals.items ++ local_made matrices.now self.old.locals.items statement.now) }
        ensures steps { IfOk result (λ answer. answer ≡ None → self.new.body ≡ self.old.body ++ option_to_list ((facets statement.now).step (matrix_used matrices.now statement.now) (numbers_used self.old.locals.items statement.now))) }
    {
        if let Some(reason) = line.let_reason(self, matrices, &x, statement)? {
            return Ok(Some(reason));
        }
        let len = line.made_len(statement) as u32;
        line.add_step(alloc, statement, &mut self.body)?;
        self.locals.push(Local::new(x, len))?;
        Ok(None)
    }

    /// Whether it is a task with correction that has a check of a product.
    #[tactic(auto, using(crate::proofs::ProductChecks::has_planned_product))]
    pub fn has_product_check(&self) -> bool
        ensures { result ≡ (is_corrected self.now.scheme && has_product self.now.checks) }
    {
        is_corrected(self.scheme) && has_product(self.checks.as_slice())
    }

    /// Whether it is a task with correction that has no check of a product.
    #[tactic(auto, using(crate::proofs::ProductChecks::has_planned_product))]
    pub fn lacks_product_check(&self) -> bool
        ensures { result ≡ (is_corrected self.now.scheme && not (has_product self.now.checks)) }
    {
        is_corrected(self.scheme) && !has_product(self.checks.as_slice())
    }
}

/// Whether one of the checks is that of a product.
fn has_product(checks: &[PlannedCheck]) -> bool
    ensures { result ≡ list_any (λ c. is_product c.spec) checks.now }
{
    checks.iter().any(|check| is_product(&check.spec))
}

fn is_product(spec: &Spec) -> bool
    ensures { result ≡ is_product spec.now }
{
    match spec {
        Spec::Product { .. } => true,
        _ => false,
    }
}

/// Whether a task of this scheme has its product corrected.
fn is_corrected(scheme: Scheme) -> bool
    ensures { result ≡ is_corrected scheme }
{
    match scheme {
        Scheme::Abft => true,
        Scheme::Plain | Scheme::Replicate | Scheme::Replay { .. } => false,
    }
}
