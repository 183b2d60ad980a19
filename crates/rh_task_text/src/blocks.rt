//! The open blocks.

ghost use Rattle.std.specs.Prelude.{◌≡◌, [], OnOk, OnErr, length};
ghost use Rattle.rh_task_text.specs.Blocks.{change_by, changed, innermost, may_stand, rows_fit, rows_wanted, ends_nothing};

use crate::form::{Block, Change, FormKind, Standing};
use crate::statement::Statement;
use rh_words::OutOfMemory;
use std::alloc::Global;
use std::marker::Model;

/// The open blocks, the innermost last.
#[derive(Drop)]
pub struct Blocks {
    stack: Vec<Block>,
}

impl Model for Blocks {
    ghost use Rattle.std.specs.Prelude.{List, reverse};
    ghost use Rattle.rh_task_text.specs.declared.form.Block.{Block};

    ghost Value = { List Block };

    ghost view = { λ b. reverse b.stack.items };
}

impl Blocks {
    /// No blocks.
    pub fn new(alloc: Global) -> Blocks
        ensures { result ≡ [] }
    {
        Blocks {
            stack: Vec::new(alloc),
        }
    }

    /// The innermost block.
    pub fn innermost(&self) -> Option<Block>
        ensures { result ≡ innermost self.now }
    {
        self.stack.last().copied()
    }

    /// How many blocks are open.
    pub fn depth(&self) -> usize
        ensures { result ≡ length self.now }
    {
        self.stack.len()
    }

    /// Opens or closes a block.
    pub fn change(&mut self, change: Change) -> Result<(), OutOfMemory>
        ensures ok { OnOk result (self.new ≡ changed change self.old) }
        ensures err { OnErr result (self.new ≡ self.old) }
    {
        match change {
            Change::Opens(block) => self.stack.push(block)?,
            Change::Closes => {
                let _closed = self.stack.pop();
            }
            Change::Stays => {}
        }
        Ok(())
    }
}

/// How the statement changes which blocks are open.
pub fn change_by(statement: &Statement) -> Change
    ensures { result ≡ change_by statement.now }
{
    match statement {
        Statement::Matrix { rows, cols, .. } => Change::Opens(Block::MatrixBlock {
            rows: *rows,
            cols: *cols,
        }),
        Statement::Task { .. } => Change::Opens(Block::TaskBlock),
        Statement::Finish { .. } | Statement::Group { .. } => Change::Opens(Block::ScopeBlock),
        Statement::End => Change::Closes,
        Statement::Promise { .. }
        | Statement::Row { .. }
        | Statement::LetLit { .. }
        | Statement::LetGen { .. }
        | Statement::LetAdd { .. }
        | Statement::LetSub { .. }
        | Statement::LetMul { .. }
        | Statement::LetScale { .. }
        | Statement::LetShift { .. }
        | Statement::LetCut { .. }
        | Statement::LetJoin { .. }
        | Statement::LetSum { .. }
        | Statement::LetCount { .. }
        | Statement::LetStencil1 { .. }
        | Statement::LetStencil2 { .. }
        | Statement::LetProduct { .. }
        | Statement::Put { .. }
        | Statement::DropAwait { .. }
        | Statement::CheckRange { .. }
        | Statement::CheckTotal { .. }
        | Statement::CheckLinear { .. }
        | Statement::CheckConserve { .. }
        | Statement::CheckConserve2 { .. }
        | Statement::CheckProduct { .. }
        | Statement::CheckUser { .. } => Change::Stays,
    }
}

/// Whether a statement that stands so has a place right in this block.
pub fn may_stand(standing: Standing, here: Option<Block>) -> bool
    ensures { result ≡ may_stand standing here }
{
    match standing {
        Standing::Anywhere => true,
        Standing::InTask => matches!(here, Some(Block::TaskBlock)),
        Standing::InMatrix => matches!(here, Some(Block::MatrixBlock { .. })),
        Standing::Outside => matches!(here, None | Some(Block::ScopeBlock)),
    }
}

/// Whether a statement of this form may come after so many rows of the block.
pub fn rows_fit(rows: u64, here: Option<Block>, kind: FormKind) -> bool
    ensures { result ≡ rows_fit rows here kind }
{
    match kind {
        FormKind::RowForm => rows < rows_wanted(here),
        FormKind::EndForm => rows_wanted(here) <= rows,
        _ => true,
    }
}

/// How many rows the block has at its end.
fn rows_wanted(here: Option<Block>) -> u64
    ensures { result ≡ rows_wanted here }
{
    match here {
        Some(Block::MatrixBlock { rows, .. }) => rows,
        _ => 0,
    }
}

/// Whether this is an end where no block is open.
pub fn ends_nothing(here: Option<Block>, kind: FormKind) -> bool
    ensures { result ≡ ends_nothing here kind }
{
    here.is_none() && matches!(kind, FormKind::EndForm)
}
