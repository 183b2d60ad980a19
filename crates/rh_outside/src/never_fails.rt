//! A file store and output that never fails.

ghost use Rattle.std.specs.Prelude.{◌≡◌, ◌≢◌, ◌≤◌, ◌<◌, ℕ, List, Some, None, [], length, unwrap_or, OnOk, OnErr};
ghost use Rattle.std.specs.Option.{option_map};
ghost use Rattle.rh_outside.specs.FileMap.{file_of, with_file, without_file};
ghost use Rattle.rh_outside.specs.MemoryStores.{IsReadAnswer, length_answer};

use crate::file_block::FileBlock;
use crate::mem_shelf::read_into;
use crate::shelf::{ReadAnswer, Shelf};
use crate::sink::{Sink, TookAnswer, WriteAnswer};
use rh_words::{Bytes, OutOfMemory};
use std::alloc::Global;
use std::marker::Model;

/// A file store and output that never fails, and keeps nothing that is written: a file that is written over is given up,
/// and a name that is not there reads as an empty file.
#[derive(Drop)]
pub struct NeverFails {
    files: FileBlock,
}

impl Model for NeverFails {
    ghost use Rattle.std.specs.Prelude.{List};
    ghost use Rattle.rh_outside.specs.FileMap.{NamedFile};

    ghost Value = { List NamedFile };

    ghost view = { λ s. s.files.files };
}

impl NeverFails {
    /// A store that holds no file.
    pub fn new(alloc: Global) -> NeverFails
        ensures { result ≡ [] }
    {
        NeverFails {
            files: FileBlock::empty(alloc),
        }
    }

    /// Makes these bytes the file of a name.
    pub fn hold(&mut self, name: &str, bytes: &[u8]) -> Result<(), OutOfMemory>
        ensures ok { OnOk result (self.new ≡ with_file name.now bytes.now self.old) }
        ensures err { OnErr result (self.new ≡ self.old) }
    {
        self.files.hold(name.as_bytes(), bytes)
    }
}

impl Shelf for NeverFails {
    ghost state = { λ s. record { file = λ n. option_map (λ bytes. Some bytes) (file_of n s); failed_reads = λ _. 0; failed_writes = λ _. 0 } };

    fn read(&mut self, name: &str, limit: usize, into: &mut Bytes) -> ReadAnswer
        ensures answer { IsReadAnswer result (length_answer (unwrap_or (file_of name.now self.old) []) limit) }
        ensures after { self.new ≡ self.old }
        ensures ok { result ≡ ReadAnswer.Ok → into.new ≡ unwrap_or (file_of name.now self.old) [] }
        ensures within { length into.new ≤ limit }
        ensures empty { result ≢ ReadAnswer.Ok → into.new ≡ [] }
    {
        into.clear();
        read_into(self.files.get(name.as_bytes()).unwrap_or(&[]), limit, into)
    }

    fn write(&mut self, name: &str, _bytes: &[u8]) -> WriteAnswer
        ensures ok { result ≡ WriteAnswer.Ok }
        ensures after { self.new ≡ without_file name.now self.old }
        ensures told { file_of name.now self.new ≡ None }
        ensures others { (n : List ℕ) → n ≢ name.now → file_of n self.new ≡ file_of n self.old }
    {
        self.files.remove(name.as_bytes());
        WriteAnswer::Ok
    }
}

impl Sink for NeverFails {
    ghost state = { λ _. record { taken = None; failed_writes = 0 } };

    fn write(&mut self, bytes: &[u8]) -> TookAnswer
        ensures took { result ≡ TookAnswer.Ok (length bytes.now) }
        ensures after { self.new ≡ self.old }
    {
        TookAnswer::Ok(bytes.len())
    }
}
