//! Planning a text line by line: its names become numbers.

ghost use Rattle.std.specs.Prelude.{◌≡◌, ◌<◌, ◌≤◌, ◌++◌, ◌∷◌, [], IfOk, OnOk, Some, None, cond, length, map, true, false, ◌&&◌, nat_le, option_to_list, slice_get, slice_index};
ghost use Rattle.rh_words.specs.declared.limits.TheConstants.{MAX_PROMISE_WORDS, MAX_NODES, MAX_MATRIX_SIDE, MAX_CELL_VALUE};
ghost use Rattle.rh_task_text.specs.declared.statement.Statement.TheVariants as text;
ghost use Rattle.rh_rules.specs.Facets.{facets};
ghost use Rattle.rh_rules.specs.Limits.{IsWithinLimits};
ghost use Rattle.rh_rules.specs.declared.node.Scheme.TheVariants.{Plain};
ghost use Rattle.rh_rules.specs.Above.{facts_above, planned_scheme, asked_place, check_of, group_in, group_node, lets_of, task_node, scope_node, put_at_end};
ghost use Rattle.rh_rules.specs.Rules.{is_bad_scheme, is_node_line, is_unanswered};
ghost use Rattle.rh_rules.specs.Tables.{is_promise, promise_number, is_put, putting, put_all};
ghost use Rattle.rh_tables.specs.Declarations.{declarations};
ghost use Rattle.rh_tables.specs.Making.{start_reason, node_reason};
ghost use Rattle.rh_planner.specs.Planned.{look_above};
ghost use Rattle.std.specs.List.{AllByRecursion};
ghost use Rattle.rh_planner.specs.States.{HasFacts, HasRoom, IsClosable, Judges, TakesRow, nodes_ended};

use crate::planned::Drafts;
use rh_check::Matrices;
use rh_rules::{
    Body, CheckList, NamedShape, Node, Numbers, OpenBlock, PlannedCheck, SCOPE_WORDS, Scheme,
    Shape, Step, asked, made, place_of, spec_of,
};
use rh_sparse::{Cell, Matrix};
use rh_tables::{
    Blocks, Declared, Handed, LineUse, OpenTask, add_row, are_distinct, await_locals, await_reason,
    close_matrix, group_node, lets_of, scope_node, task_node,
};
use rh_task_text::{SchemeText, Statement};
use rh_words::limits::{MAX_MATRICES, MAX_NODES, MAX_REPLAYS};
use rh_words::{Name, NameList, OutOfMemory, Reason, Words};
use std::alloc::Global;
use std::mem;

/// What is planned of the statements so far.
#[derive(Drop)]
pub struct Planner {
    handed: Handed,
    declared: Declared,
    /// The matrices by their lines, those that are closed, and the one that is begun.
    matrices: Vec<NamedShape>,
    closed: Matrices,
    begun: Option<Matrix>,
    /// The cells of the last row.
    cells: Vec<Cell>,
    nodes: Vec<Node>,
    blocks: Blocks,
    task: OpenTask,
    /// What the last line uses.
    line: LineUse,
}

impl Planner {
    /// Nothing is planned yet, with these handed-in checks.
    pub fn new(alloc: Global, handed: Handed) -> Planner
        ensures tables { HasFacts result (facts_above (look_above handed) []) }
        ensures handed { result.handed ≡ handed }
    {
        Planner {
            handed,
            declared: Declared::new(alloc),
            matrices: Vec::new(alloc),
            closed: Matrices::new(alloc),
            begun: None,
            cells: Vec::new(alloc),
            nodes: Vec::new(alloc),
            blocks: Blocks::new(alloc),
            task: OpenTask::none(alloc),
            line: LineUse::none(alloc),
        }
    }

    /// The nodes, the promises, and the matrices that are closed.
    pub fn into_drafts(self) -> Drafts
        ensures nodes { result.nodes ≡ self.nodes }
        ensures promises { result.promises.items ≡ self.declared.promises }
        ensures matrices { result.matrices ≡ self.closed }
    {
        let Planner {
            handed: _,
            declared,
            matrices: _,
            closed,
            begun: _,
            cells: _,
            nodes,
            blocks: _,
            task: _,
            line: _,
        } = self;
        Drafts {
            nodes,
            promises: declared.into_promises(),
            matrices: closed,
        }
    }

    fn promise(&mut self, name: Name, len: u64, temp: bool) -> Result<Option<Reason>, OutOfMemory>
        requires { len ≤ MAX_PROMISE_WORDS }
        ensures { IfOk result (λ answer. Judges self.old (text.Promise name len temp) self.new answer) }
    {
        self.declared.add_promise(name, len as u32, temp, false)
    }

    #[tactic(auto, unfolding(rh_rules::specs::Facets::facets))]
    fn drop_await(&mut self, promise: &Name) -> Result<Option<Reason>, OutOfMemory>
        requires { HasRoom self.old }
        ensures { IfOk result (λ answer. Judges self.old (text.DropAwait promise.now) self.new answer) }
    {
        let Some(place) = place_of(&self.task.locals, promise) else {
            return Ok(Some(Reason::Dropped));
        };
        let inputs = self.task.inputs.as_slice();
        let number = place as u32;
        if place >= inputs.len() || self.task.drops.contains(&number) {
            return Ok(Some(Reason::Dropped));
        }
        let promise = inputs[place];
        self.task.body.push(Step::DropAwait { promise })?;
        self.task.drops.push(number)?;
        Ok(None)
    }

    fn make(
        &mut self,
        alloc: Global,
        x: Name,
        statement: &Statement,
    ) -> Result<Option<Reason>, OutOfMemory>
        requires room { HasRoom self.old }
        requires within { IsWithinLimits statement.now }
        requires makes { (facets statement.now).made ≡ Some x }
        ensures { IfOk result (λ answer. Judges self.old statement.now self.new answer) }
    {
        self.task
            .make(alloc, &mut self.line, &self.matrices, x, statement)
    }

    /// Opens a scope, whose own promise has three words.
    fn finish(&mut self, alloc: Global, name: Name) -> Result<Option<Reason>, OutOfMemory>
        requires { HasRoom self.old }
        ensures { IfOk result (λ answer. Judges self.old (text.Finish name) self.new answer) }
    {
        if let Some(reason) = self.declared.add_promise(name, SCOPE_WORDS, false, true)? {
            return Ok(Some(reason));
        }
        let first = self.nodes.len() as u32;
        self.begun = None;
        self.blocks.push(OpenBlock::ScopeBlock { name, first })?;
        self.task.clear(alloc);
        Ok(None)
    }

    /// Opens a matrix.
    #[tactic(auto, unfolding(rh_rules::specs::Facets::facets))]
    fn matrix(
        &mut self,
        alloc: Global,
        name: Name,
        rows: u64,
        cols: u64,
    ) -> Result<Option<Reason>, OutOfMemory>
        requires some { 1 ≤ cols }
        requires few { cols ≤ MAX_MATRIX_SIDE }
        requires low { rows ≤ MAX_MATRIX_SIDE }
        ensures { IfOk result (λ answer. Judges self.old (text.Matrix name rows cols) self.new answer) }
    {
        if !self.declared.add_name(name)? {
            return Ok(Some(Reason::Twice));
        }
        if self.matrices.len() >= MAX_MATRICES {
            return Ok(Some(Reason::PlanLimit));
        }
        let shape = Shape {
            rows: rows as u32,
            cols: cols as u32,
        };
        self.matrices.push(NamedShape { name, shape })?;
        self.begun = Some(Matrix::new(alloc, shape.cols));
        self.blocks.push(OpenBlock::MatrixBlock)?;
        self.task.clear(alloc);
        Ok(None)
    }

    /// Adds a row to the open matrix.
    #[tactic(auto, unfolding(rh_rules::specs::Facets::facets))]
    fn row(&mut self, columns: &Words, values: &Words) -> Result<Option<Reason>, OutOfMemory>
        requires pairs { length columns.now ≡ length values.now }
        requires values { AllByRecursion (λ v. v ≤ MAX_CELL_VALUE) values.now }
        requires row { TakesRow self.old.begun (text.Row columns.now values.now) }
        ensures { IfOk result (λ answer. Judges self.old (text.Row columns.now values.now) self.new answer) }
    {
        if let Some(matrix) = &mut self.begun {
            add_row(
                &mut self.cells,
                matrix,
                columns.as_slice(),
                values.as_slice(),
            )?;
        }
        Ok(None)
    }

    /// Opens a task, whose awaits look at what stands above.
    fn task(
        &mut self,
        alloc: Global,
        name: Name,
        scheme: SchemeText,
        awaits: &NameList,
    ) -> Result<Option<Reason>, OutOfMemory>
        ensures { IfOk result (λ answer. Judges self.old (text.Task name scheme awaits.now) self.new answer) }
    {
        self.task.clear(alloc);
        let names = awaits.as_slice();
        let count = self.nodes.len();
        let inputs = &mut self.task.inputs;
        if let Some(reason) = start(&mut self.declared, inputs, count, name, scheme, names)? {
            return Ok(Some(reason));
        }
        self.task.scheme = planned_scheme(scheme);
        let promises = self.declared.promises();
        let inputs = self.task.inputs.as_slice();
        await_locals(promises, names, inputs, &mut self.task.locals)?;
        self.begun = None;
        self.blocks.push(OpenBlock::TaskBlock(name))?;
        Ok(None)
    }

    /// Opens a group, whose awaits look at what stands above.
    fn group(
        &mut self,
        alloc: Global,
        name: Name,
        awaits: &NameList,
    ) -> Result<Option<Reason>, OutOfMemory>
        requires { HasRoom self.old }
        ensures { IfOk result (λ answer. Judges self.old (text.Group name awaits.now) self.new answer) }
    {
        self.task.clear(alloc);
        let names = awaits.as_slice();
        let count = self.nodes.len();
        let scheme = SchemeText::Plain;
        let inputs = &mut self.task.inputs;
        if let Some(reason) = start(&mut self.declared, inputs, count, name, scheme, names)? {
            return Ok(Some(reason));
        }
        let inputs = &mut self.task.inputs;
        open_group(alloc, &mut self.nodes, &mut self.blocks, inputs, name)?;
        self.begun = None;
        Ok(None)
    }

    /// Plans a `put` of the promise.
    fn put(&mut self, statement: &Statement, promise: &Name) -> Result<Option<Reason>, OutOfMemory>
        requires room { HasRoom self.old }
        requires puts { (facets statement.now).put_to ≡ Some promise.now }
        requires uses { 0 < length (facets statement.now).used }
        ensures { IfOk result (λ answer. Judges self.old statement.now self.new answer) }
    {
        let Some(number) = self.declared.promise(promise) else {
            return Ok(Some(Reason::Unknown));
        };
        let planned = &self.declared.promises()[number as usize];
        if let Some(reason) = self
            .line
            .put_reason(&self.task, &self.matrices, planned, statement)?
        {
            return Ok(Some(reason));
        }
        self.task.body.push(put_step(number, &self.line.numbers))?;
        self.declared.put(number, self.nodes.len() as u32);
        Ok(None)
    }

    /// Plans a check of the promise.
    fn check(
        &mut self,
        statement: &Statement,
        promise: &Name,
    ) -> Result<Option<Reason>, OutOfMemory>
        requires room { HasRoom self.old }
        requires within { IsWithinLimits statement.now }
        requires checks { (facets statement.now).checked ≡ Some promise.now }
        ensures { IfOk result (λ answer. Judges self.old statement.now self.new answer) }
    {
        let Some(number) = self.declared.promise(promise) else {
            return Ok(Some(Reason::Unknown));
        };
        let len = self.declared.promises()[number as usize].len;
        if let Some(reason) = self
            .line
            .check_reason(&self.task, &self.matrices, number, len, statement)?
        {
            return Ok(Some(reason));
        }
        let checks = &mut self.task.checks;
        add_check(&self.handed, &self.line, checks, number, len, statement)
    }

    /// Closes the innermost block. A task and a scope that end are nodes.
    fn end(&mut self, alloc: Global) -> Result<Option<Reason>, OutOfMemory>
        requires room { HasRoom self.old }
        requires closable { IsClosable self.old.declared.promises self.old.blocks }
        ensures { IfOk result (λ answer. Judges self.old text.End self.new answer) }
    {
        if self.task.lacks_product_check() {
            return Ok(Some(Reason::Scheme));
        }
        let block = self.blocks.pop();
        let group = self.blocks.group();
        let (nodes, declared) = (&mut self.nodes, &mut self.declared);
        if let Some(reason) = end_block(alloc, nodes, declared, &mut self.task, group, block)? {
            return Ok(Some(reason));
        }
        close_matrix(alloc, &mut self.closed, self.begun.take())?;
        self.task.clear(alloc);
        Ok(None)
    }
}

impl Planner {
    /// Plans one more statement, or names the first rule that it breaks.
    #[tactic(auto, unfolding(rh_rules::specs::Facets::facets))]
    pub fn statement(
        &mut self,
        alloc: Global,
        statement: &Statement,
    ) -> Result<Option<Reason>, OutOfMemory>
        requires room { HasRoom self.old }
        requires within { IsWithinLimits statement.now }
        requires closable { IsClosable self.old.declared.promises self.old.blocks }
        requires row { TakesRow self.old.begun statement.now }
        ensures { IfOk result (λ answer. Judges self.old statement.now self.new answer) }
    {
        if let Some(x) = made(statement) {
            return self.make(alloc, x, statement);
        }
        if let Some(promise) = checked(statement) {
            return self.check(statement, &promise);
        }
        match statement {
            Statement::Promise { name, len, temp } => self.promise(*name, *len, *temp),
            Statement::Matrix { name, rows, cols } => self.matrix(alloc, *name, *rows, *cols),
            Statement::Row { columns, values } => self.row(columns, values),
            Statement::Task {
                name,
                scheme,
                awaits,
            } => self.task(alloc, *name, *scheme, awaits),
            Statement::Finish { name } => self.finish(alloc, *name),
            Statement::Group { name, awaits } => self.group(alloc, *name, awaits),
            Statement::End => self.end(alloc),
            Statement::Put { promise, .. } => self.put(statement, promise),
            Statement::DropAwait { promise } => self.drop_await(promise),
            _ => unreachable!(),
        }
    }
}

/// Declares a task of this name and scheme, or a group as if it were plain, that awaits these, below so many nodes, or says why it is
/// refused. The inputs are then the numbers of what it awaits.
fn start(
    declared: &mut Declared,
    inputs: &mut Numbers,
    count: usize,
    name: Name,
    scheme: SchemeText,
    names: &[Name],
) -> Result<Option<Reason>, OutOfMemory>
    requires none { inputs.old ≡ [] }
    ensures reason { IfOk result (λ answer. answer ≡ start_reason declared.old.names declared.old.promises count name scheme names.now) }
    ensures inputs { IfOk result (λ answer. answer ≡ None → inputs.new ≡ map (promise_number declared.old.promises) names.now) }
    ensures declared { IfOk result (λ answer. answer ≡ None → declared.new ≡ declarations (declared.old.names ++ name ∷ []) declared.old.promises) }
{
    if !declared.add_name(name)? || !are_distinct(names) {
        return Ok(Some(Reason::Twice));
    }
    if let Some(reason) = await_reason(declared, inputs, names)? {
        return Ok(Some(reason));
    }
    Ok(node_reason(count, scheme))
}

/// Adds the node of a group that awaits the promises of these numbers, and opens its block. The list is then empty.
fn open_group(
    alloc: Global,
    nodes: &mut Vec<Node>,
    blocks: &mut Blocks,
    inputs: &mut Numbers,
    name: Name,
) -> Result<(), OutOfMemory>
    requires few { length nodes.old.items ≤ MAX_NODES }
    ensures nodes { OnOk result (nodes.new.items ≡ nodes.old.items ++ group_node name inputs.old (group_in blocks.old) ∷ []) }
    ensures blocks { OnOk result (blocks.new ≡ OpenBlock.GroupBlock (length nodes.old.items) ∷ blocks.old) }
    ensures inputs { inputs.new ≡ [] }
{
    let number = nodes.len() as u32;
    let awaits = mem::replace(inputs, Numbers::new(alloc));
    let node = group_node(alloc, name, awaits, blocks.group());
    nodes.push(node)?;
    blocks.push(OpenBlock::GroupBlock(number))
}

/// Why a node of this scheme is refused below so many nodes.
fn node_reason(count: usize, scheme: SchemeText) -> Option<Reason>
    ensures { result ≡ node_reason count scheme }
{
    if is_bad_scheme(scheme) {
        Some(Reason::Scheme)
    } else if count >= MAX_NODES {
        Some(Reason::PlanLimit)
    } else {
        None
    }
}

/// Adds the node of the block in this group, which ends, where it is a task or a scope. A scope is refused where its node finds no room.
fn end_block(
    alloc: Global,
    nodes: &mut Vec<Node>,
    declared: &mut Declared,
    task: &mut OpenTask,
    group: Option<u32>,
    block: Option<OpenBlock>,
) -> Result<Option<Reason>, OutOfMemory>
    requires few { length nodes.old.items ≤ MAX_NODES }
    requires closable { IsClosable declared.old.promises (option_to_list block) }
    ensures reason { IfOk result (λ answer. answer ≡ cond (is_node_line (option_to_list block) text.End && nat_le MAX_NODES (length nodes.old.items)) (Some Reason.PlanLimit) None) }
    ensures nodes { IfOk result (λ answer. answer ≡ None → nodes.new.items ≡ nodes.old.items ++ nodes_ended task.old declared.old.promises (length nodes.old.items) group block) }
    ensures declared { IfOk result (λ answer. answer ≡ None → declared.new ≡ declarations declared.old.names (put_all (put_at_end (length nodes.old.items) (option_to_list block)) declared.old.promises)) }
{
    match &block {
        Some(OpenBlock::TaskBlock(name)) => end_task(alloc, nodes, task, group, *name)?,
        Some(OpenBlock::ScopeBlock { name, first }) => {
            if nodes.len() >= MAX_NODES {
                return Ok(Some(Reason::PlanLimit));
            }
            end_scope(alloc, nodes, declared, group, *name, *first)?;
        }
        _ => {}
    }
    Ok(None)
}

/// Adds the node of the task in this group, which ends.
fn end_task(
    alloc: Global,
    nodes: &mut Vec<Node>,
    task: &mut OpenTask,
    group: Option<u32>,
    name: Name,
) -> Result<(), OutOfMemory>
    ensures { OnOk result (nodes.new.items ≡ nodes.old.items ++ task_node name task.old.scheme task.old.inputs (lets_of task.old.inputs task.old.locals.items) group task.old.body task.old.checks ∷ []) }
{
    let lets = lets_of(alloc, task.inputs.as_slice(), &task.locals)?;
    let inputs = mem::replace(&mut task.inputs, Numbers::new(alloc));
    let body = mem::replace(&mut task.body, Body::new(alloc));
    let checks = mem::replace(&mut task.checks, CheckList::new(alloc));
    let node = task_node(alloc, name, task.scheme, inputs, lets, group, body, checks)?;
    nodes.push(node)?;
    Ok(())
}

/// Adds the node of the scope in this group, which ends and puts its own promise.
fn end_scope(
    alloc: Global,
    nodes: &mut Vec<Node>,
    declared: &mut Declared,
    group: Option<u32>,
    name: Name,
    first: u32,
) -> Result<(), OutOfMemory>
    requires few { length nodes.old.items ≤ MAX_NODES }
    requires own { is_promise declared.old.promises name ≡ true }
    requires unput { is_put declared.old.promises name ≡ false }
    ensures nodes { OnOk result (nodes.new.items ≡ nodes.old.items ++ scope_node name (promise_number declared.old.promises name) group first (length nodes.old.items) ∷ []) }
    ensures declared { OnOk result (declared.new ≡ declarations declared.old.names (put_all (putting name (length nodes.old.items) ∷ []) declared.old.promises)) }
{
    let number = nodes.len() as u32;
    let own = declared.promise(&name).unwrap_or(0);
    declared.put(own, number);
    let node = scope_node(alloc, name, own, group, first, number)?;
    nodes.push(node)?;
    Ok(())
}

/// The name of the promise that the statement checks.
#[tactic(auto, unfolding(rh_rules::specs::Facets::facets))]
fn checked(statement: &Statement) -> Option<Name>
    ensures { result ≡ (facets statement.now).checked }
{
    match statement {
        Statement::CheckRange { promise, .. }
        | Statement::CheckTotal { promise, .. }
        | Statement::CheckLinear { promise, .. }
        | Statement::CheckConserve { promise, .. }
        | Statement::CheckConserve2 { promise, .. }
        | Statement::CheckProduct { promise, .. }
        | Statement::CheckUser { promise, .. } => Some(*promise),
        _ => None,
    }
}

/// Whether no task may have the scheme.
fn is_bad_scheme(scheme: SchemeText) -> bool
    ensures { result ≡ is_bad_scheme scheme }
{
    match scheme {
        SchemeText::Replay { limit } => limit == 0 || limit > MAX_REPLAYS,
        SchemeText::Plain | SchemeText::Replicate | SchemeText::Abft => false,
    }
}

/// The scheme of a task.
fn planned_scheme(scheme: SchemeText) -> Scheme
    requires { is_bad_scheme scheme ≡ false }
    ensures { result ≡ planned_scheme scheme }
{
    match scheme {
        SchemeText::Plain => Scheme::Plain,
        SchemeText::Replicate => Scheme::Replicate,
        SchemeText::Replay { limit } => Scheme::Replay {
            limit: limit as u32,
        },
        SchemeText::Abft => Scheme::Abft,
    }
}

/// Adds the check of the promise of this number and length, whose awaits are looked up, or says that no handed-in check has the name that
/// it asks.
fn add_check(
    handed: &Handed,
    line: &LineUse,
    checks: &mut CheckList,
    promise: u32,
    len: u32,
    statement: &Statement,
) -> Result<Option<Reason>, OutOfMemory>
    requires read { length line.now.numbers.items ≡ length (facets statement.now).inputs }
    requires lens { length line.now.lens.items ≡ length (facets statement.now).inputs }
    requires within { IsWithinLimits statement.now }
    requires suits { (facets statement.now).suits line.now.matrix.shape len line.now.lens.items ≡ true }
    ensures reason { IfOk result (λ answer. answer ≡ cond (is_unanswered handed.now statement.now) (Some Reason.NoCheck) None) }
    ensures added { IfOk result (λ answer. answer ≡ None → checks.new ≡ checks.old ++ check_of handed.now promise ((facets statement.now).spec (asked_place handed.now statement.now) line.now.matrix.number line.now.numbers.items) ∷ []) }
{
    let Some(place) = asked_place(handed, statement) else {
        return Ok(Some(Reason::NoCheck));
    };
    let matrix = line.matrix;
    let spec = spec_of(
        statement,
        place,
        matrix.number,
        &line.numbers,
        matrix.shape,
        len,
        &line.lens,
    );
    let user = handed.named(&spec);
    checks.push(PlannedCheck { promise, spec }, user)?;
    Ok(None)
}

/// The place of the handed-in check that the check names, or 0 where it names none. It is `None` where none has the name.
fn asked_place(handed: &Handed, statement: &Statement) -> Option<u32>
    ensures { result ≡ cond (is_unanswered handed.now statement.now) None (Some (asked_place handed.now statement.now)) }
{
    match asked(statement) {
        Some(name) => handed.place(&name),
        None => Some(0),
    }
}

/// The step that puts the first of these locals to the promise, on the second where there is one.
fn put_step(promise: u32, numbers: &[u32]) -> Step
    requires { 0 < length numbers.now }
    ensures { result ≡ Step.Put promise (slice_index numbers.now 0) (slice_get numbers.now 1) }
{
    Step::Put {
        promise,
        local: numbers[0],
        when: numbers.get(1).copied(),
    }
}
