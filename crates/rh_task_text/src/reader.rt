//! Reading a program text line by line.

ghost use Rattle.std.specs.Prelude.{◌≡◌, ◌↔◌, [], true, IsTrue, OnOk, OnErr, IfOk};
ghost use Rattle.rh_words.specs.Text.{words_of, is_printable, SaysNothing};
ghost use Rattle.rh_task_text.specs.Blocks.{open_blocks};
ghost use Rattle.rh_task_text.specs.Program.{IsLawfulText, IsReason, version_text, upward};
ghost use Rattle.rh_task_text.specs.ReaderStates.{AddsLine};
ghost use Rattle.rh_words.specs.Refusals.{OnRefused};

use crate::body::Body;
use crate::line::read_words;
use crate::text::Text;
use rh_words::{Fault, Line, LineValues, OutOfMemory, Reason, says_nothing};
use std::alloc::Global;
use std::marker::Model;

/// The items of the lines so far, and memory that is used again for what the words of each line say.
#[derive(Drop)]
pub struct Reader {
    body: Body,
    values: LineValues,
}

impl Model for Reader {
    ghost use Rattle.std.specs.Prelude.{List};
    ghost use Rattle.rh_task_text.specs.declared.statement.Item.{Item};

    ghost Value = { List Item };

    ghost view = { λ r. r.body };
}

impl Reader {
    /// A reader below the first line, with room for the items of so many lines.
    pub fn with_capacity(alloc: Global, lines: usize) -> Result<Reader, OutOfMemory>
        ensures { IfOk result (λ reader. reader ≡ []) }
    {
        Ok(Reader {
            body: Body::with_capacity(alloc, lines)?,
            values: LineValues::new(alloc),
        })
    }

    /// Reads one more line.
    pub fn line(&mut self, alloc: Global, number: u32, line: Line<'_>) -> Result<(), Fault<Reason>>
        requires { line.is_printable ≡ is_printable line.bytes.now }
        ensures ok { OnOk result (AddsLine self.old number line.entry.bytes.now self.new) }
        ensures refused { OnRefused result (λ reason. IsReason (upward self.old) line.entry.bytes.now reason) }
        ensures err { OnErr result (self.new ≡ self.old) }
    {
        if !line.is_printable {
            return Err(Fault::Refused(Reason::Byte));
        }
        if says_nothing(line.bytes) {
            return Ok(());
        }
        self.statement(alloc, number, line.bytes)
    }

    /// Reads a line that says something.
    fn statement(&mut self, alloc: Global, number: u32, line: &[u8]) -> Result<(), Fault<Reason>>
        requires printable { is_printable line.now ≡ true }
        requires says { SaysNothing (words_of line.now) → ⊥ }
        ensures ok { OnOk result (AddsLine self.old number line.now self.new) }
        ensures refused { OnRefused result (λ reason. IsReason (upward self.old) line.now reason) }
        ensures err { OnErr result (self.new ≡ self.old) }
    {
        let here = self.body.innermost();
        match read_words(&mut self.values, here, self.body.rows(), line) {
            Ok(head) => self.body.add(alloc, head, number, self.values.as_slice()),
            Err(fault) => Err(fault),
        }
    }

    /// Whether no block is open below the items.
    pub fn is_closed(&self) -> bool
        ensures { IsTrue result ↔ (open_blocks (upward self.now) ≡ []) }
    {
        self.body.is_closed()
    }

    /// The text of the items.
    pub fn into_text(self) -> Text
        requires { IsLawfulText (version_text 1 self) }
        ensures { result ≡ version_text 1 self }
    {
        self.body.into_text()
    }
}
