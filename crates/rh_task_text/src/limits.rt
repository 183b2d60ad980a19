//! The limits of statements.

ghost use Rattle.std.specs.Prelude.{◌≡◌, ◌&&◌, Option, nat_lt, nat_le};
ghost use Rattle.std.specs.List.{list_all};
ghost use Rattle.rh_task_text.specs.Limits.{own_limits, has_room, is_size, is_side, is_row, ascend, ascend_from, columns_here};
ghost use Rattle.rh_words.specs.declared.keyword.Keyword.TheVariants.{LetWord, CheckWord};
ghost use Rattle.rh_task_text.specs.declared.form.Block.{Block};
ghost use Rattle.rh_task_text.specs.Forms.{form};
ghost use Rattle.rh_task_text.specs.Statements.{kind_of};

use crate::form::Block;
use crate::statement::Statement;
use rh_words::Keyword;
use rh_words::limits::{
    MAX_AWAITS, MAX_CELL_VALUE, MAX_CHECKS, MAX_LETS, MAX_MATRIX_SIDE, MAX_NESTING, MAX_PARTS,
    MAX_PROMISE_WORDS, MAX_ROW_CELLS, MAX_SHIFT, MAX_TERMS,
};

/// Words of the longest line that is within its limits: `let X lit` and as many words as a promise may have.
pub const MAX_LINE_WORDS: usize = 4099;

/// Whether there is room for one more line that begins so.
pub fn has_room(depth: usize, lets: usize, checks: usize, first: Keyword) -> bool
    ensures { result ≡ has_room depth lets checks first }
{
    match first {
        Keyword::FinishWord | Keyword::GroupWord => depth < MAX_NESTING,
        Keyword::LetWord => lets < MAX_LETS,
        Keyword::CheckWord => checks < MAX_CHECKS,
        _ => true,
    }
}

/// Whether the statement's own numbers and lists are within their limits.
pub fn own_limits(here: Option<Block>, statement: &Statement) -> bool
    ensures { result ≡ own_limits here statement.now }
{
    match statement {
        Statement::Promise { len, .. } => is_size(*len),
        Statement::Matrix { rows, cols, .. } => is_side(*rows) && is_side(*cols),
        Statement::Row { columns, values } => {
            is_row(columns_here(here), columns.as_slice(), values.as_slice())
        }
        Statement::Task { awaits, .. } | Statement::Group { awaits, .. } => {
            awaits.len() <= MAX_AWAITS
        }
        Statement::LetLit { .. }
        | Statement::LetGen { .. }
        | Statement::LetAdd { .. }
        | Statement::LetSub { .. }
        | Statement::LetMul { .. }
        | Statement::LetScale { .. }
        | Statement::LetShift { .. }
        | Statement::LetCut { .. }
        | Statement::LetJoin { .. }
        | Statement::LetSum { .. }
        | Statement::LetCount { .. }
        | Statement::LetStencil1 { .. }
        | Statement::LetStencil2 { .. }
        | Statement::LetProduct { .. } => let_limits(statement),
        Statement::CheckRange { .. }
        | Statement::CheckTotal { .. }
        | Statement::CheckLinear { .. }
        | Statement::CheckConserve { .. }
        | Statement::CheckConserve2 { .. }
        | Statement::CheckProduct { .. }
        | Statement::CheckUser { .. } => check_limits(statement),
        Statement::Finish { .. }
        | Statement::End { .. }
        | Statement::Put { .. }
        | Statement::DropAwait { .. } => true,
    }
}

/// Whether the numbers and lists of a `let` are within their limits.
#[tactic(auto, using(crate::proofs::TaskForms::tasks_begin))]
fn let_limits(statement: &Statement) -> bool
    requires { (form (kind_of statement.now)).first ≡ LetWord }
    ensures { (here : Option Block) → result ≡ own_limits here statement.now }
{
    match statement {
        Statement::LetLit { words, .. } => words.as_slice().len() as u64 <= MAX_PROMISE_WORDS,
        Statement::LetGen { n, limit, .. } => is_size(*n) && 0 < *limit,
        Statement::LetCut { len, .. } => 0 < *len,
        Statement::LetJoin { parts, .. } => parts.len() <= MAX_PARTS,
        Statement::LetShift { s, .. } | Statement::LetStencil1 { s, .. } => *s <= MAX_SHIFT,
        Statement::LetStencil2 { cols, s, .. } => 0 < *cols && *s <= MAX_SHIFT,
        Statement::LetAdd { .. }
        | Statement::LetSub { .. }
        | Statement::LetMul { .. }
        | Statement::LetScale { .. }
        | Statement::LetSum { .. }
        | Statement::LetCount { .. }
        | Statement::LetProduct { .. } => true,
        _ => unreachable!(),
    }
}

/// Whether the numbers and lists of a check are within their limits.
#[tactic(auto, using(crate::proofs::TaskForms::tasks_begin))]
fn check_limits(statement: &Statement) -> bool
    requires { (form (kind_of statement.now)).first ≡ CheckWord }
    ensures { (here : Option Block) → result ≡ own_limits here statement.now }
{
    match statement {
        Statement::CheckLinear { inputs, .. } => inputs.len() <= MAX_TERMS,
        Statement::CheckConserve { s, .. } => *s <= MAX_SHIFT,
        Statement::CheckConserve2 { cols, s, .. } => 0 < *cols && *s <= MAX_SHIFT,
        Statement::CheckRange { .. }
        | Statement::CheckTotal { .. }
        | Statement::CheckProduct { .. }
        | Statement::CheckUser { .. } => true,
        _ => unreachable!(),
    }
}

/// Whether a promise or a local may have so many words.
fn is_size(n: u64) -> bool
    ensures { result ≡ is_size n }
{
    1 <= n && n <= MAX_PROMISE_WORDS
}

/// Whether a matrix may have so many rows or columns.
fn is_side(n: u64) -> bool
    ensures { result ≡ is_side n }
{
    1 <= n && n <= MAX_MATRIX_SIDE
}

/// How many columns the block has.
fn columns_here(here: Option<Block>) -> u64
    ensures { result ≡ columns_here here }
{
    match here {
        Some(Block::MatrixBlock { cols, .. }) => cols,
        _ => 0,
    }
}

/// Whether the items of a row are within their limits.
fn is_row(cols: u64, columns: &[u64], values: &[u64]) -> bool
    ensures { result ≡ is_row cols columns.now values.now }
{
    columns.len() <= MAX_ROW_CELLS
        && (ascend(columns) && (are_below(columns, cols) && are_at_most(values, MAX_CELL_VALUE)))
}

fn are_below(numbers: &[u64], limit: u64) -> bool
    ensures { result ≡ list_all (λ v. nat_lt v limit) numbers.now }
{
    numbers.iter().all(|v| *v < limit)
}

fn are_at_most(numbers: &[u64], limit: u64) -> bool
    ensures { result ≡ list_all (λ v. nat_le v limit) numbers.now }
{
    numbers.iter().all(|v| *v <= limit)
}

fn ascend(numbers: &[u64]) -> bool
    ensures { result ≡ ascend numbers.now }
{
    if numbers.is_empty() {
        return true;
    }
    ascend_from(numbers[0], &numbers[1..])
}

fn ascend_from(before: u64, numbers: &[u64]) -> bool
    ensures { result ≡ ascend_from before numbers.now }
{
    let mut last = before;
    for number in numbers {
        if *number <= last {
            return false;
        }
        last = *number;
    }
    true
}
