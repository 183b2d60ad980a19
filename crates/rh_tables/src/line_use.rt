//! What a line uses: a matrix, and locals of the open task.

ghost use Rattle.std.specs.Prelude.{◌≡◌, ◌≤◌, ◌<◌, ◌+◌, IfOk, OnOk, None, length, map, ◌++◌, option_to_list, not, true, false, is_some, slice_index, ◌==◌, ◌||◌, nat_lt};
ghost use Rattle.std.specs.List.{list_any};
ghost use Rattle.rh_words.specs.declared.limits.TheConstants.{MAX_AWAITS, MAX_LETS, MAX_MATRICES, MAX_PROMISE_WORDS};
ghost use Rattle.rh_rules.specs.Tables.{is_in, number_of, lens_of};
ghost use Rattle.rh_rules.specs.Facets.{facets};
ghost use Rattle.rh_rules.specs.Limits.{IsWithinLimits};
ghost use Rattle.rh_rules.specs.Above.{numbers_used, lens_used, lens_read};
ghost use Rattle.rh_rules.specs.Bodies.{promises_put, put_at};
ghost use Rattle.rh_rules.specs.Rules.{may_check, is_among_first};
ghost use Rattle.rh_tables.specs.Making.{IsNamed, let_reason, put_reason, check_reason, let_use_reason, put_use_reason, check_use_reason, uses_unknown, reads_unknown, names_no_matrix, numbers_read};

use crate::matrices::{Named, find_matrix};
use crate::open_task::OpenTask;
use crate::used::{find_locals, list_lens};
use rh_rules::{
    Body, NamedShape, PlannedPromise, Scheme, Shape, Step, asks_product, fits, list_inputs,
    list_used, made_len, place_of, step_of, suits,
};
use rh_task_text::Statement;
use rh_words::limits::MAX_PROMISE_WORDS;
use rh_words::{Name, OutOfMemory, Reason};
use std::alloc::Global;

/// What the last line uses: the matrix that it names, and the names, the numbers and the lengths of locals. Its lists keep their room
/// from line to line.
#[derive(Drop)]
pub struct LineUse {
    pub matrix: Named,
    pub names: Vec<Name>,
    pub numbers: Vec<u32>,
    pub lens: Vec<u32>,
}

impl LineUse {
    /// Nothing is used yet.
    pub fn none(alloc: Global) -> LineUse {
        LineUse {
            matrix: Named {
                number: 0,
                shape: Shape { rows: 0, cols: 0 },
            },
            names: Vec::new(alloc),
            numbers: Vec::new(alloc),
            lens: Vec::new(alloc),
        }
    }

    /// Looks up the matrix that the statement names, and its names among so many first locals of the task. Whether all are there.
    fn find(
        &mut self,
        count: usize,
        task: &OpenTask,
        matrices: &[NamedShape],
        statement: &Statement,
    ) -> Result<bool, OutOfMemory>
        requires few { length task.now.locals.items ≤ MAX_AWAITS + MAX_LETS }
        requires few_matrices { length matrices.now ≤ MAX_MATRICES }
        ensures known { IfOk result (λ known. known ≡ not (list_any (λ q. not (is_among_first count task.now.locals.items q)) self.old.names.items || names_no_matrix matrices.now statement.now)) }
        ensures matrix { IfOk result (λ known. known ≡ true → IsNamed matrices.now statement.now self.new.matrix) }
        ensures numbers { IfOk result (λ known. known ≡ true → self.new.numbers.items ≡ map (number_of task.now.locals.items) self.old.names.items) }
        ensures lens { IfOk result (λ known. known ≡ true → self.new.lens.items ≡ map (λ i. slice_index (lens_of task.now.locals.items) i) (map (number_of task.now.locals.items) self.old.names.items)) }
    {
        if !find_locals(count, &task.locals, &self.names, &mut self.numbers)? {
            return Ok(false);
        }
        list_lens(&task.locals, &self.numbers, &mut self.lens)?;
        match find_matrix(matrices, statement) {
            Some(matrix) => {
                self.matrix = matrix;
                Ok(true)
            }
            None => Ok(false),
        }
    }

    /// Looks up the matrix that the statement names and the locals that it uses. Whether all are there.
    #[tactic(auto, using(crate::proofs::Using::among_all))]
    pub fn look_up(
        &mut self,
        task: &OpenTask,
        matrices: &[NamedShape],
        statement: &Statement,
    ) -> Result<bool, OutOfMemory>
        requires few { length task.now.locals.items ≤ MAX_AWAITS + MAX_LETS }
        requires few_matrices { length matrices.now ≤ MAX_MATRICES }
        ensures known { IfOk result (λ known. known ≡ not (uses_unknown matrices.now task.now.locals.items statement.now)) }
        ensures matrix { IfOk result (λ known. known ≡ true → IsNamed matrices.now statement.now self.new.matrix) }
        ensures numbers { IfOk result (λ known. known ≡ true → self.new.numbers.items ≡ numbers_used task.now.locals.items statement.now) }
        ensures lens { IfOk result (λ known. known ≡ true → self.new.lens.items ≡ lens_used task.now.locals.items statement.now) }
    {
        self.names.clear();
        list_used(statement, &mut self.names)?;
        self.find(task.locals.len(), task, matrices, statement)
    }

    /// Looks up the matrix that the check names and the awaits that it reads. Whether all are there.
    fn look_up_inputs(
        &mut self,
        task: &OpenTask,
        matrices: &[NamedShape],
        statement: &Statement,
    ) -> Result<bool, OutOfMemory>
        requires few { length task.now.locals.items ≤ MAX_AWAITS + MAX_LETS }
        requires few_matrices { length matrices.now ≤ MAX_MATRICES }
        ensures known { IfOk result (λ known. known ≡ not (reads_unknown (length task.now.inputs) task.now.locals.items statement.now || names_no_matrix matrices.now statement.now)) }
        ensures matrix { IfOk result (λ known. known ≡ true → IsNamed matrices.now statement.now self.new.matrix) }
        ensures numbers { IfOk result (λ known. known ≡ true → self.new.numbers.items ≡ numbers_read task.now.locals.items statement.now) }
        ensures lens { IfOk result (λ known. known ≡ true → self.new.lens.items ≡ lens_read task.now.locals.items statement.now) }
    {
        self.names.clear();
        list_inputs(statement, &mut self.names)?;
        self.find(task.inputs.as_slice().len(), task, matrices, statement)
    }

    /// Whether a local that was looked up is dropped above.
    pub fn is_any_dropped(&self, drops: &[u32]) -> bool
        ensures { result ≡ list_any (λ i. is_in i drops.now) self.now.numbers.items }
    {
        self.numbers.iter().any(|number| is_dropped(drops, *number))
    }

    /// Why a `let` is refused whose matrix and locals are looked up. Where it is not, they fit and what it makes is short.
    fn let_use_reason(&self, task: &OpenTask, statement: &Statement) -> Option<Reason>
        requires used { length self.now.lens.items ≡ length (facets statement.now).used }
        requires within { IsWithinLimits statement.now }
        ensures reason { result ≡ let_use_reason self.now.matrix self.now.numbers.items self.now.lens.items task.now.drops.items statement.now }
        ensures fits { result ≡ None → (facets statement.now).fits self.now.matrix.shape self.now.lens.items ≡ true }
        ensures short { result ≡ None → (facets statement.now).len self.now.matrix.shape self.now.lens.items ≤ MAX_PROMISE_WORDS }
    {
        if !fits(statement, self.matrix.shape, &self.lens) {
            Some(Reason::Length)
        } else if self.is_any_dropped(&task.drops) {
            Some(Reason::Dropped)
        } else if is_over_long(statement, self.matrix.shape, &self.lens) {
            Some(Reason::PlanLimit)
        } else {
            None
        }
    }

    /// Why a `let` that makes the local `x` is refused. Where it is not, what it uses is looked up, fits and is short.
    pub fn let_reason(
        &mut self,
        task: &OpenTask,
        matrices: &[NamedShape],
        x: &Name,
        statement: &Statement,
    ) -> Result<Option<Reason>, OutOfMemory>
        requires few { length task.now.locals.items ≤ MAX_AWAITS + MAX_LETS }
        requires few_matrices { length matrices.now ≤ MAX_MATRICES }
        requires within { IsWithinLimits statement.now }
        ensures reason { IfOk result (λ answer. answer ≡ let_reason matrices.now task.now.locals.items task.now.drops.items x.now statement.now) }
        ensures matrix { IfOk result (λ answer. answer ≡ None → IsNamed matrices.now statement.now self.new.matrix) }
        ensures numbers { IfOk result (λ answer. answer ≡ None → self.new.numbers.items ≡ numbers_used task.now.locals.items statement.now) }
        ensures lens { IfOk result (λ answer. answer ≡ None → self.new.lens.items ≡ lens_used task.now.locals.items statement.now) }
        ensures fits { IfOk result (λ answer. answer ≡ None → (facets statement.now).fits self.new.matrix.shape self.new.lens.items ≡ true) }
        ensures short { IfOk result (λ answer. answer ≡ None → (facets statement.now).len self.new.matrix.shape self.new.lens.items ≤ MAX_PROMISE_WORDS) }
    {
        if place_of(&task.locals, x).is_some() {
            return Ok(Some(Reason::Twice));
        }
        if !self.look_up(task, matrices, statement)? {
            return Ok(Some(Reason::Unknown));
        }
        Ok(self.let_use_reason(task, statement))
    }

    /// How many words the local has that a `let` makes of what is looked up.
    pub fn made_len(&self, statement: &Statement) -> u64
        requires used { length self.now.lens.items ≡ length (facets statement.now).used }
        requires within { IsWithinLimits statement.now }
        ensures { result ≡ (facets statement.now).len self.now.matrix.shape self.now.lens.items }
    {
        made_len(statement, self.matrix.shape, &self.lens)
    }

    /// Adds the step of a `let` to the body, where it has one, of what is looked up.
    pub fn add_step(
        &self,
        alloc: Global,
        statement: &Statement,
        body: &mut Body,
    ) -> Result<(), OutOfMemory>
        requires used { length self.now.numbers.items ≡ length (facets statement.now).used }
        requires lens { length self.now.lens.items ≡ length (facets statement.now).used }
        requires within { IsWithinLimits statement.now }
        requires fitting { (facets statement.now).fits self.now.matrix.shape self.now.lens.items ≡ true }
        requires short { (facets statement.now).len self.now.matrix.shape self.now.lens.items ≤ MAX_PROMISE_WORDS }
        ensures { OnOk result (body.new ≡ body.old ++ option_to_list ((facets statement.now).step self.now.matrix.number self.now.numbers.items)) }
    {
        let Named { number, shape } = self.matrix;
        if let Some(step) = step_of(alloc, statement, number, &self.numbers, shape, &self.lens)? {
            body.push(step)?;
        }
        Ok(())
    }

    /// Why a `put` to this promise is refused whose locals are looked up.
    fn put_use_reason(
        &self,
        task: &OpenTask,
        promise: &PlannedPromise,
        statement: &Statement,
    ) -> Option<Reason>
        requires uses { 0 < length self.now.lens.items }
        requires used { length self.now.lens.items ≡ length (facets statement.now).used }
        ensures reason { result ≡ put_use_reason promise.now self.now.matrix self.now.numbers.items self.now.lens.items task.now.drops.items statement.now }
        ensures unput { result ≡ None → is_some promise.now.putter ≡ false }
    {
        if is_owned(promise) {
            Some(Reason::Owner)
        } else if is_put_misfit(promise, statement, self.matrix.shape, &self.lens) {
            Some(Reason::Length)
        } else if self.is_any_dropped(&task.drops) {
            Some(Reason::Dropped)
        } else {
            None
        }
    }

    /// Why a `put` to this promise is refused. Where it is not, what it uses is looked up.
    pub fn put_reason(
        &mut self,
        task: &OpenTask,
        matrices: &[NamedShape],
        promise: &PlannedPromise,
        statement: &Statement,
    ) -> Result<Option<Reason>, OutOfMemory>
        requires few { length task.now.locals.items ≤ MAX_AWAITS + MAX_LETS }
        requires few_matrices { length matrices.now ≤ MAX_MATRICES }
        requires uses { 0 < length (facets statement.now).used }
        ensures reason { IfOk result (λ answer. answer ≡ put_reason promise.now matrices.now task.now.locals.items task.now.drops.items statement.now) }
        ensures numbers { IfOk result (λ answer. answer ≡ None → self.new.numbers.items ≡ numbers_used task.now.locals.items statement.now) }
        ensures unput { IfOk result (λ answer. answer ≡ None → is_some promise.now.putter ≡ false) }
    {
        if !self.look_up(task, matrices, statement)? {
            return Ok(Some(Reason::Unknown));
        }
        Ok(self.put_use_reason(task, promise, statement))
    }

    /// Why a check of a promise of this length is refused whose awaits are looked up. Where it is not, they suit it.
    fn check_use_reason(&self, task: &OpenTask, len: u32, statement: &Statement) -> Option<Reason>
        requires read { length self.now.lens.items ≡ length (facets statement.now).inputs }
        ensures reason { result ≡ check_use_reason len task.now.scheme task.now.checks self.now.matrix self.now.numbers.items self.now.lens.items task.now.drops.items statement.now }
        ensures suits { result ≡ None → (facets statement.now).suits self.now.matrix.shape len self.now.lens.items ≡ true }
    {
        if !suits(statement, self.matrix.shape, len, &self.lens) {
            Some(Reason::Length)
        } else if !may_check(task.scheme) || asks_product(statement) && task.has_product_check() {
            Some(Reason::Scheme)
        } else if self.is_any_dropped(&task.drops) {
            Some(Reason::Dropped)
        } else {
            None
        }
    }

    /// Why a check of the promise of this number and length is refused. Where it is not, what it reads is looked up and suits it.
    pub fn check_reason(
        &mut self,
        task: &OpenTask,
        matrices: &[NamedShape],
        promise: u32,
        len: u32,
        statement: &Statement,
    ) -> Result<Option<Reason>, OutOfMemory>
        requires few { length task.now.locals.items ≤ MAX_AWAITS + MAX_LETS }
        requires few_matrices { length matrices.now ≤ MAX_MATRICES }
        ensures reason { IfOk result (λ answer. answer ≡ check_reason promise len task.now.body task.now.scheme task.now.checks (length task.now.inputs) matrices.now task.now.locals.items task.now.drops.items statement.now) }
        ensures matrix { IfOk result (λ answer. answer ≡ None → IsNamed matrices.now statement.now self.new.matrix) }
        ensures numbers { IfOk result (λ answer. answer ≡ None → self.new.numbers.items ≡ numbers_read task.now.locals.items statement.now) }
        ensures lens { IfOk result (λ answer. answer ≡ None → self.new.lens.items ≡ lens_read task.now.locals.items statement.now) }
        ensures suits { IfOk result (λ answer. answer ≡ None → (facets statement.now).suits self.new.matrix.shape len self.new.lens.items ≡ true) }
    {
        if !is_put_in(task.body.steps(), promise)
            || !self.look_up_inputs(task, matrices, statement)?
        {
            return Ok(Some(Reason::Unknown));
        }
        Ok(self.check_use_reason(task, len, statement))
    }
}

/// Whether one of the steps puts the promise of this number.
fn is_put_in(steps: &[Step], promise: u32) -> bool
    ensures { result ≡ is_in promise (promises_put steps.now) }
{
    is_any_put(steps, promise)
}

fn is_any_put(steps: &[Step], promise: u32) -> bool
    ensures { result ≡ list_any (λ s. is_in promise (put_at s)) steps.now }
{
    steps.iter().any(|step| is_put_of(step, promise))
}

/// Whether the step puts the promise of this number.
fn is_put_of(step: &Step, promise: u32) -> bool
    ensures { result ≡ is_in promise (put_at step.now) }
{
    match step {
        Step::Put { promise: put, .. } => *put == promise,
        _ => false,
    }
}

/// Whether tasks of this scheme may have checks.
fn may_check(scheme: Scheme) -> bool
    ensures { result ≡ may_check scheme }
{
    match scheme {
        Scheme::Replay { .. } | Scheme::Abft => true,
        Scheme::Plain | Scheme::Replicate => false,
    }
}

/// Whether the promise is a scope's own or is put above.
fn is_owned(promise: &PlannedPromise) -> bool
    ensures { result ≡ (promise.now.scope || is_some promise.now.putter) }
{
    promise.scope || promise.putter.is_some()
}

/// Whether what a `put` uses, of these lengths, does not fit.
fn is_put_misfit(
    promise: &PlannedPromise,
    statement: &Statement,
    shape: Shape,
    lens: &[u32],
) -> bool
    requires uses { 0 < length lens.now }
    requires all { length lens.now ≡ length (facets statement.now).used }
    ensures { result ≡ (not (slice_index lens.now 0 == promise.now.len) || not ((facets statement.now).fits shape lens.now)) }
{
    lens[0] != promise.len || !fits(statement, shape, lens)
}

/// Whether the local of this number is among those that are dropped.
fn is_dropped(drops: &[u32], number: u32) -> bool
    ensures { result ≡ is_in number drops.now }
{
    drops.contains(&number)
}

/// Whether the local that the statement makes is longer than a promise may be.
fn is_over_long(statement: &Statement, shape: Shape, lens: &[u32]) -> bool
    requires used { length lens.now ≡ length (facets statement.now).used }
    requires within { IsWithinLimits statement.now }
    ensures { result ≡ nat_lt MAX_PROMISE_WORDS ((facets statement.now).len shape lens.now) }
{
    made_len(statement, shape, lens) > MAX_PROMISE_WORDS
}
