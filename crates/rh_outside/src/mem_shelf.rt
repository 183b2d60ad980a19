//! A file store in memory.

ghost use Rattle.std.specs.Prelude.{◌≡◌, ◌≢◌, ◌≤◌, ◌<◌, ℕ, List, Some, [], length, IfOk, OnOk, OnErr};
ghost use Rattle.std.specs.Option.{option_copied};
ghost use Rattle.rh_outside.specs.FileMap.{file_of, with_file};
ghost use Rattle.rh_outside.specs.Counts.{with_failing};
ghost use Rattle.rh_outside.specs.MemoryStores.{new_store, IsReadAnswer, length_answer, read_answer, after_read, write_answer, after_write};

use crate::count::Count;
use crate::failing_calls::FailingCalls;
use crate::file_block::FileBlock;
use crate::shelf::{ReadAnswer, Shelf};
use crate::sink::WriteAnswer;
use rh_words::{Bytes, OutOfMemory};
use std::alloc::Global;
use std::marker::Model;

/// A file store in memory, of which chosen calls fail. Its writes take no memory: they fill the room that `new` reserved.
#[derive(Drop)]
pub struct MemShelf {
    files: FileBlock,
    calls: FailingCalls,
    failed_reads: Count,
    failed_writes: Count,
}

impl Model for MemShelf {
    ghost use Rattle.rh_outside.specs.MemoryStores.{Store};

    ghost Value = { Store };

    ghost view = { λ s. record {
      files = s.files.files;
      room = s.files.room;
      calls = s.calls;
      failed_reads = s.failed_reads;
      failed_writes = s.failed_writes;
    } };
}

impl MemShelf {
    /// A store with room for so many bytes, of names and files together with one more byte for each write.
    pub fn new(alloc: Global, room: usize) -> Result<MemShelf, OutOfMemory>
        ensures { IfOk result (λ store. store ≡ new_store room) }
    {
        Ok(MemShelf {
            files: FileBlock::new(alloc, room)?,
            calls: FailingCalls::new(alloc),
            failed_reads: Count::new(),
            failed_writes: Count::new(),
        })
    }

    /// Makes these bytes the file of a name. It is no call that is numbered, and takes no room.
    pub fn hold(&mut self, name: &str, bytes: &[u8]) -> Result<(), OutOfMemory>
        ensures ok { OnOk result
            (self.new ≡ record self.old { files = with_file name.now bytes.now self.old.files }) }
        ensures err { OnErr result (self.new ≡ self.old) }
    {
        self.files.hold(name.as_bytes(), bytes)
    }

    /// Lets the call of this number fail. Reads and writes are numbered together, from 0.
    pub fn fail_call(&mut self, call: u32) -> Result<(), OutOfMemory>
        ensures ok { OnOk result
            (self.new ≡ record self.old { calls = with_failing self.old.calls call }) }
        ensures err { OnErr result (self.new ≡ self.old) }
    {
        self.calls.fail_call(call)
    }

    /// The file of a name.
    pub fn file(&self, name: &str) -> Option<&[u8]>
        ensures { option_copied result ≡ file_of name.now self.now.files }
    {
        self.files.get(name.as_bytes())
    }
}

impl Shelf for MemShelf {
    ghost state = { λ s. record { file = λ n. Some (file_of n s.files); failed_reads = λ _. s.failed_reads; failed_writes = λ _. s.failed_writes } };

    fn read(&mut self, name: &str, limit: usize, into: &mut Bytes) -> ReadAnswer
        ensures answer { IsReadAnswer result (read_answer self.old name.now limit) }
        ensures after { self.new ≡ after_read self.old result }
        ensures later { self.old.failed_reads ≤ self.new.failed_reads }
        ensures ok { result ≡ ReadAnswer.Ok → file_of name.now self.old.files ≡ Some into.new }
        ensures within { length into.new ≤ limit }
        ensures empty { result ≢ ReadAnswer.Ok → into.new ≡ [] }
    {
        into.clear();
        if self.calls.next_fails() {
            self.failed_reads.rise();
            return ReadAnswer::Failed;
        }
        let Some(bytes) = self.files.get(name.as_bytes()) else {
            self.failed_reads.rise();
            return ReadAnswer::Failed;
        };
        read_into(bytes, limit, into)
    }

    fn write(&mut self, name: &str, bytes: &[u8]) -> WriteAnswer
        ensures answer { result ≡ write_answer self.old name.now bytes.now }
        ensures after { self.new ≡ after_write self.old name.now bytes.now result }
        ensures ok { result ≡ WriteAnswer.Ok → file_of name.now self.new.files ≡ Some bytes.now }
        ensures others { (n : List ℕ) → n ≢ name.now → file_of n self.new.files ≡ file_of n self.old.files }
        ensures later { self.old.failed_writes ≤ self.new.failed_writes }
    {
        if self.calls.next_fails() {
            self.failed_writes.rise();
            return WriteAnswer::Failed;
        }
        if self.files.room() < name.len() + bytes.len() + 1 {
            self.failed_writes.rise();
            return WriteAnswer::Failed;
        }
        self.files.put(name.as_bytes(), bytes);
        WriteAnswer::Ok
    }
}

/// Puts a file into an empty buffer, where it has at most `limit` bytes.
pub(crate) fn read_into(bytes: &[u8], limit: usize, into: &mut Bytes) -> ReadAnswer
    requires { into.old ≡ [] }
    ensures answer { IsReadAnswer result (length_answer bytes.now limit) }
    ensures ok { result ≡ ReadAnswer.Ok → into.new ≡ bytes.now }
    ensures empty { result ≢ ReadAnswer.Ok → into.new ≡ [] }
    ensures within { length into.new ≤ limit }
{
    if bytes.len() > limit {
        return ReadAnswer::TooLong;
    }
    match into.append(bytes) {
        Ok(()) => ReadAnswer::Ok,
        Err(_) => ReadAnswer::OutOfMemory,
    }
}
