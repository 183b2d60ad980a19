//! An output over any writer.

ghost use Rattle.std.specs.Prelude.{◌≡◌, ◌≤◌};
ghost use Rattle.rh_outside.specs.Sinks.{TakesPiece, CountsFailure};

use crate::count::Count;
use crate::sink::{Sink, TookAnswer};
use std::io::Write;
use std::marker::Model;

/// What a writer takes, with a count of the writes that failed.
#[derive(Drop)]
pub struct StdSink<W: Write> {
    inner: W,
    failed_writes: Count,
}

impl<W: Write> Model for StdSink<W> {
    ghost use Rattle.rh_outside.specs.States.{OutputState};

    ghost Value = { OutputState };

    ghost view = { λ s. record { taken = W.contents s.inner; failed_writes = s.failed_writes } };
}

impl<W: Write> StdSink<W> {
    /// An output over this writer, of which no write failed yet.
    pub fn new(inner: W) -> StdSink<W>
        ensures taken { result.taken ≡ W.contents inner }
        ensures failed_writes { result.failed_writes ≡ 0 }
    {
        StdSink {
            inner,
            failed_writes: Count::new(),
        }
    }
}

impl<W: Write> Sink for StdSink<W> {
    ghost state = { λ s. s };

    /// A write that takes nothing of a piece that is not empty has failed, as one that the writer refuses.
    fn write(&mut self, bytes: &[u8]) -> TookAnswer
        ensures count { self.old.failed_writes ≤ self.new.failed_writes }
        ensures answer { TakesPiece self.old self.new bytes.now result }
        ensures exact { CountsFailure self.old self.new result }
    {
        match self.inner.write(bytes) {
            Ok(count) if count > 0 || bytes.is_empty() => TookAnswer::Ok(count),
            _ => {
                self.failed_writes.rise();
                TookAnswer::Failed
            }
        }
    }
}
