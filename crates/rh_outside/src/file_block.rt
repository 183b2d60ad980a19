//! Files in one block of memory.

ghost use Rattle.std.specs.Prelude.{◌≡◌, ◌≢◌, ◌≤◌, ◌<◌, ◌+◌, ◌-◌, ◌++◌, ℕ, List, [], None, Some, length, OnOk, OnErr, IfOk, IfSome, MatchOption, vec_len, vec_capacity};
ghost use Rattle.std.specs.Option.{option_copied};
ghost use Rattle.rh_outside.specs.FileMap.{file_of, with_file, without_file, room_of, IsFileOf};
ghost use Rattle.rh_outside.specs.FileBlocks.{AreFiles, IsNewSpan, files_in};

use rh_words::OutOfMemory;
use std::alloc::Global;
use std::marker::Model;

/// Where a file stands in the block: its name from `start` to `middle`, and its bytes from there to `end`.
#[derive(Clone, Copy, Drop)]
pub(crate) struct FileSpan {
    start: usize,
    middle: usize,
    end: usize,
}

/// Files by name, with reserved room for more. A file that is replaced gives no room back.
#[derive(Drop)]
pub(crate) struct FileBlock {
    block: Vec<u8>,
    spans: Vec<FileSpan>,
    room: usize,
}

impl Model for FileBlock {
    ghost use Rattle.std.specs.Prelude.{◌≤◌, ◌+◌, vec_len, vec_capacity};
    ghost use Rattle.rh_outside.specs.FileMap.{Holding};

    ghost Value = { Holding };

    ghost use Rattle.rh_outside.specs.FileBlocks.{AreFiles, files_in};

    ghost view = { λ h. record { files = files_in h.block.items h.spans.items; room = h.room } };

    ghost invariant = { λ h. AreFiles h.block.items h.spans.items
        × (vec_len h.block + h.room ≤ vec_capacity h.block)
        × (vec_len h.spans + h.room ≤ vec_capacity h.spans) };
}

impl FileBlock {
    /// No files, and room for so many bytes. A file takes at least one, so that there are spans enough.
    pub(crate) fn new(alloc: Global, room: usize) -> Result<FileBlock, OutOfMemory>
        ensures { IfOk result (λ held. held ≡ record { files = []; room = room }) }
    {
        Ok(FileBlock {
            block: Vec::with_capacity(alloc, room)?,
            spans: Vec::with_capacity(alloc, room)?,
            room,
        })
    }

    /// No files, and no room.
    pub(crate) fn empty(alloc: Global) -> FileBlock
        ensures { result ≡ record { files = []; room = 0 } }
    {
        FileBlock {
            block: Vec::new(alloc),
            spans: Vec::new(alloc),
            room: 0,
        }
    }

    pub(crate) fn room(&self) -> usize
        ensures { result ≡ self.now.room }
    {
        self.room
    }

    pub(crate) fn get(&self, name: &[u8]) -> Option<&[u8]>
        ensures { option_copied result ≡ file_of name.now self.now.files }
    {
        let at = position_of(self.block.as_slice(), self.spans.as_slice(), name)?;
        let span = self.spans[at];
        Some(&self.block[span.middle..span.end])
    }

    /// Makes these bytes the file of a name. It takes the room that is reserved, and no memory.
    pub(crate) fn put(&mut self, name: &[u8], bytes: &[u8])
        requires { room_of name.now bytes.now ≤ self.old.room }
        ensures files { self.new.files ≡ with_file name.now bytes.now self.old.files }
        ensures room { self.new.room ≡ self.old.room - room_of name.now bytes.now }
        ensures stored { file_of name.now self.new.files ≡ Some bytes.now }
        ensures others { (n : List ℕ) → n ≢ name.now → file_of n self.new.files ≡ file_of n self.old.files }
    {
        set_file(&mut self.block, &mut self.spans, name, bytes);
        self.room -= name.len() + bytes.len() + 1;
    }

    /// Makes these bytes the file of a name. It takes memory of its own, and no room.
    pub(crate) fn hold(&mut self, name: &[u8], bytes: &[u8]) -> Result<(), OutOfMemory>
        ensures ok { OnOk result (self.new ≡ record self.old { files = with_file name.now bytes.now self.old.files }) }
        ensures err { OnErr result (self.new ≡ self.old) }
    {
        let len = name.len() + bytes.len();
        let Some(reserve) = len.checked_add(self.room) else {
            return Err(OutOfMemory);
        };
        self.block.reserve(reserve)?;
        self.spans.reserve(self.room + 1)?;
        set_file(&mut self.block, &mut self.spans, name, bytes);
        Ok(())
    }

    /// Gives up the file of a name, if one has it.
    pub(crate) fn remove(&mut self, name: &[u8])
        ensures exact { self.new ≡ record self.old { files = without_file name.now self.old.files } }
        ensures gone { file_of name.now self.new.files ≡ None }
        ensures others { (n : List ℕ) → n ≢ name.now → file_of n self.new.files ≡ file_of n self.old.files }
    {
        let found = position_of(self.block.as_slice(), self.spans.as_slice(), name);
        if let Some(at) = found {
            self.spans.remove(at);
        }
    }
}

/// Adds a file to the block, and its span to the spans, in place of the one that the name had.
fn set_file(block: &mut Vec<u8>, spans: &mut Vec<FileSpan>, name: &[u8], bytes: &[u8])
    requires sound { AreFiles block.old.items spans.old.items }
    requires block_room { vec_len block.old + length name.now + length bytes.now ≤ vec_capacity block.old }
    requires span_room { vec_len spans.old < vec_capacity spans.old }
    ensures files { files_in block.new.items spans.new.items ≡ with_file name.now bytes.now (files_in block.old.items spans.old.items) }
    ensures sound { AreFiles block.new.items spans.new.items }
    ensures block_len { vec_len block.new ≡ vec_len block.old + length name.now + length bytes.now }
    ensures spans_len { vec_len spans.new ≤ vec_len spans.old + 1 }
    ensures block_capacity { vec_capacity block.old ≤ vec_capacity block.new }
    ensures spans_capacity { vec_capacity spans.old ≤ vec_capacity spans.new }
{
    let found = position_of(block.as_slice(), spans.as_slice(), name);
    let span = append_file(block, name, bytes);
    match found {
        Some(at) => spans[at] = span,
        None => spans.push_reserved(span),
    }
}

/// Adds a file to the block, and answers its span.
fn append_file(block: &mut Vec<u8>, name: &[u8], bytes: &[u8]) -> FileSpan
    requires { vec_len block.old + length name.now + length bytes.now ≤ vec_capacity block.old }
    ensures items { block.new.items ≡ block.old.items ++ (name.now ++ bytes.now) }
    ensures len { vec_len block.new ≡ vec_len block.old + length name.now + length bytes.now }
    ensures span { IsNewSpan block.old.items name.now bytes.now result }
    ensures capacity { vec_capacity block.old ≤ vec_capacity block.new }
{
    let start = block.len();
    block.extend_from_slice(name).unwrap();
    let middle = block.len();
    block.extend_from_slice(bytes).unwrap();
    FileSpan {
        start,
        middle,
        end: block.len(),
    }
}

/// Which of the spans is that of a name. A store in memory holds few files, and a map would take memory at a write.
fn position_of(block: &[u8], spans: &[FileSpan], name: &[u8]) -> Option<usize>
    requires { AreFiles block.now spans.now }
    ensures found { let files = files_in block.now spans.now in
        MatchOption result (file_of name.now files ≡ None) (IsFileOf name.now files) }
    ensures within { IfSome result (λ at. at < length spans.now) }
{
    for (at, span) in spans.iter().enumerate() {
        if name == &block[span.start..span.middle] {
            return Some(at);
        }
    }
    None
}
