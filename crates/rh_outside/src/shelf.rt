//! Files by name.

ghost use Rattle.rh_outside.specs.States.{StoreState, KeepsFiles, KeepsCounts};
ghost use Rattle.rh_outside.specs.Shelves.{Reads, Writes, KeepsOthers};

use crate::sink::WriteAnswer;
use rh_words::Bytes;

/// What a read answered.
#[derive(Clone, Copy, PartialEq, Eq)]
pub enum ReadAnswer {
    /// The buffer holds the whole file.
    Ok,
    /// No file has the name, or the file could not be read.
    Failed,
    /// The file has more bytes than the limit.
    TooLong,
    /// There was no memory for the file's bytes.
    OutOfMemory,
}

/// Files by name. A generic caller cannot raise its counts but by its calls, so that each `Failed` that the caller
/// passes on has its cause in a count.
pub trait Shelf {
    /// What is told of each name, and how many reads and how many writes of each name failed.
    ghost state: { Self → StoreState };

    /// Reads the file of a name into `into`, in place of what it held, where the file has at most `limit` bytes. After
    /// any answer but `Ok` the buffer is empty.
    fn read(&mut self, name: &str, limit: usize, into: &mut Bytes) -> ReadAnswer
        ensures files { KeepsFiles (state self.old) (state self.new) }
        ensures counts { KeepsCounts (state self.old) (state self.new) }
        ensures answer { Reads (state self.old) (state self.new) name.now limit into.new result };

    /// Makes these bytes the file of a name, in place of the one that it had. After `Failed` nothing is said of that file.
    fn write(&mut self, name: &str, bytes: &[u8]) -> WriteAnswer
        ensures others { KeepsOthers (state self.old) (state self.new) name.now }
        ensures counts { KeepsCounts (state self.old) (state self.new) }
        ensures answer { Writes (state self.old) (state self.new) name.now bytes.now result };
}
