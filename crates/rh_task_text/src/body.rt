//! The items of a program text that is read, and what is open below them.

ghost use Rattle.std.specs.Prelude.{◌≡◌, ◌↔◌, ◌<◌, ◌≤◌, ◌-◌, ◌^◌, ℕ, List, [], Some, None, IsTrue, OnOk, OnErr, IfOk};
ghost use Rattle.rh_words.specs.declared.limits.TheConstants.{MAX_LETS, MAX_CHECKS};
ghost use Rattle.rh_words.specs.Refusals.{OnRefused};
ghost use Rattle.rh_task_text.specs.Forms.{form};
ghost use Rattle.rh_task_text.specs.FormRows.{IsHead};
ghost use Rattle.rh_task_text.specs.Statements.{kind_of, FitForm, States};
ghost use Rattle.rh_task_text.specs.LineReadings.{SaysForm};
ghost use Rattle.rh_task_text.specs.Blocks.{open_blocks, innermost, rows_here, is_let, is_check, is_row_form, change_by};
ghost use Rattle.rh_task_text.specs.Program.{IsLawfulText, version_text, upward};
ghost use Rattle.rh_task_text.specs.ReaderStates.{FollowsLine, AddsStatement, IsOverLimits, IsReasonBelow};

use crate::blocks::{Blocks, change_by, ends_nothing};
use crate::form::{Block, Change, FormKind, Standing};
use crate::limits::{has_room, own_limits};
use crate::line::Head;
use crate::statement::{Item, Statement};
use crate::statements::put_statement_of;
use crate::text::Text;
use rh_words::{Fault, Keyword, OutOfMemory, Reason, Value};
use std::alloc::Global;
use std::marker::Model;

/// The items of the lines so far, and what is open below them.
#[derive(Drop)]
pub struct Body {
    items: Vec<Item>,
    below: Below,
}

impl Model for Body {
    ghost use Rattle.std.specs.Prelude.{List};
    ghost use Rattle.rh_task_text.specs.declared.statement.Item.{Item};
    ghost use Rattle.rh_task_text.specs.ReaderStates.{IsStateBelow};

    ghost Value = { List Item };

    ghost view = { λ b. b.items.items };

    ghost invariant = { λ b. IsStateBelow b.items.items b.below.blocks b.below.rows b.below.lets b.below.checks };
}

impl Body {
    /// No items, with room for so many.
    pub fn with_capacity(alloc: Global, items: usize) -> Result<Body, OutOfMemory>
        ensures { IfOk result (λ body. body ≡ []) }
    {
        Ok(Body {
            items: Vec::with_capacity(alloc, items)?,
            below: Below {
                blocks: Blocks::new(alloc),
                rows: 0,
                lets: 0,
                checks: 0,
            },
        })
    }

    /// The innermost block that is open below the items.
    pub fn innermost(&self) -> Option<Block>
        ensures { result ≡ innermost (open_blocks (upward self.now)) }
    {
        self.below.blocks.innermost()
    }

    /// How many rows the open matrix has.
    pub fn rows(&self) -> u64
        ensures { result ≡ rows_here (upward self.now) }
    {
        self.below.rows
    }

    /// Whether no block is open below the items.
    pub fn is_closed(&self) -> bool
        ensures { IsTrue result ↔ (open_blocks (upward self.now) ≡ []) }
    {
        self.below.blocks.depth() == 0
    }

    /// The text of the items.
    pub fn into_text(self) -> Text
        requires { IsLawfulText (version_text 1 self) }
        ensures { result ≡ version_text 1 self }
    {
        Text::of(self.items)
    }

    /// Puts the statement of these values below the others, which words of this form say and this line has. The reason is
    /// the first of 8 and 9 that holds of it. It is made where it stays, since a statement is large.
    pub fn add(
        &mut self,
        alloc: Global,
        head: Head,
        line: u32,
        values: &[Value],
    ) -> Result<(), Fault<Reason>>
        requires head { IsHead head }
        requires says { (words : List (List ℕ)) × SaysForm (innermost (open_blocks (upward self.old))) (rows_here (upward self.old)) words head.kind values.now }
        ensures ok { OnOk result (AddsStatement self.old head.kind values.now line self.new) }
        ensures refused { OnRefused result (λ reason. IsOverLimits self.old head.kind values.now reason) }
        ensures err { OnErr result (self.new ≡ self.old) }
    {
        let at = self.items.len();
        self.items.push(Item {
            line,
            statement: Statement::End,
        })?;
        if let Err(fault) = self
            .below
            .add(alloc, head, values, &mut self.items[at].statement)
        {
            self.items.truncate(at);
            return Err(fault);
        }
        Ok(())
    }
}

/// What is open below the items: the blocks, the rows of the innermost, and the `let` and `check` lines of the open task.
#[derive(Drop)]
struct Below {
    blocks: Blocks,
    rows: u64,
    lets: usize,
    checks: usize,
}

impl Below {
    /// Makes the statement of these values in this place, and counts its line where it keeps its limits.
    fn add(
        &mut self,
        alloc: Global,
        head: Head,
        values: &[Value],
        place: &mut Statement,
    ) -> Result<(), Fault<Reason>>
        requires head { IsHead head }
        requires values { FitForm (form head.kind) values.now }
        requires rows { self.old.rows < 2 ^ 64 - 1 }
        requires lines { self.old.lets ≤ MAX_LETS × self.old.checks ≤ MAX_CHECKS }
        ensures states { OnOk result (States head.kind values.now place.new) }
        ensures within { OnOk result (IsReasonBelow self.old.blocks self.old.rows self.old.lets self.old.checks place.new None) }
        ensures follows { OnOk result (FollowsLine head (change_by place.new) self.old.blocks self.old.rows self.old.lets self.old.checks self.new.blocks self.new.rows self.new.lets self.new.checks) }
        ensures refused { OnRefused result (λ reason. States head.kind values.now place.new × IsReasonBelow self.old.blocks self.old.rows self.old.lets self.old.checks place.new (Some reason)) }
        ensures err { OnErr result (self.new ≡ self.old) }
    {
        put_statement_of(alloc, head.kind, values, place)?;
        if let Some(reason) = self.statement_reason(head, place) {
            return Err(Fault::Refused(reason));
        }
        self.follow(head, change_by(place))?;
        Ok(())
    }

    /// The first of the reasons 8 and 9 that holds of the statement, which has this form, below the items.
    fn statement_reason(&self, head: Head, statement: &Statement) -> Option<Reason>
        requires head { IsHead head }
        requires form { kind_of statement.now ≡ head.kind }
        ensures { IsReasonBelow self.now.blocks self.now.rows self.now.lets self.now.checks statement.now result }
    {
        let here = self.blocks.innermost();
        if ends_nothing(here, head.kind) {
            return Some(Reason::EndExtra);
        }
        if has_room(self.blocks.depth(), self.lets, self.checks, head.first)
            && own_limits(here, statement)
        {
            None
        } else {
            Some(Reason::Limit)
        }
    }

    /// Counts a line of this form, which changes the blocks so.
    fn follow(&mut self, head: Head, change: Change) -> Result<(), OutOfMemory>
        requires rows { self.old.rows < 2 ^ 64 - 1 }
        requires lines { self.old.lets ≤ MAX_LETS × self.old.checks ≤ MAX_CHECKS }
        ensures ok { OnOk result (FollowsLine head change self.old.blocks self.old.rows self.old.lets self.old.checks self.new.blocks self.new.rows self.new.lets self.new.checks) }
        ensures err { OnErr result (self.new ≡ self.old) }
    {
        self.blocks.change(change)?;
        self.rows = if is_row_form(head.kind) {
            self.rows + 1
        } else {
            0
        };
        if !matches!(head.standing, Standing::InTask) {
            self.lets = 0;
            self.checks = 0;
            return Ok(());
        }
        if is_let(head.first) {
            self.lets += 1;
        }
        if is_check(head.first) {
            self.checks += 1;
        }
        Ok(())
    }
}

fn is_row_form(kind: FormKind) -> bool
    ensures { result ≡ is_row_form kind }
{
    matches!(kind, FormKind::RowForm)
}

fn is_let(word: Keyword) -> bool
    ensures { result ≡ is_let word }
{
    matches!(word, Keyword::LetWord)
}

fn is_check(word: Keyword) -> bool
    ensures { result ≡ is_check word }
{
    matches!(word, Keyword::CheckWord)
}
