//! Places to write to.

ghost use Rattle.std.specs.Prelude.{◌≡◌, ◌≤◌};
ghost use Rattle.rh_outside.specs.States.{OutputState, Takes, BreaksOff};
ghost use Rattle.rh_outside.specs.Sinks.{TakesPiece};

/// What the write of a piece answered.
#[derive(Clone, Copy, PartialEq, Eq)]
pub enum TookAnswer {
    /// So many bytes were taken, from the front of the piece.
    Ok(usize),
    /// Nothing was taken.
    Failed,
}

/// What a whole write answered.
#[derive(Clone, Copy, PartialEq, Eq)]
pub enum WriteAnswer {
    /// All bytes were written.
    Ok,
    /// The write failed, at its begin or in the middle.
    Failed,
}

/// A place that takes bytes.
pub trait Sink {
    /// The bytes that were taken, where they are told, and how many writes failed.
    ghost state: { Self → OutputState };

    /// Takes bytes from the front of a piece, at least one where it has any.
    fn write(&mut self, bytes: &[u8]) -> TookAnswer
        ensures count { (state self.old).failed_writes ≤ (state self.new).failed_writes }
        ensures answer { TakesPiece (state self.old) (state self.new) bytes.now result };
}

/// Writes all the bytes, in as many pieces as the output asks for.
pub fn write_all<O: Sink>(out: &mut O, bytes: &[u8]) -> WriteAnswer
    ensures count { (O.state out.old).failed_writes ≤ (O.state out.new).failed_writes }
    ensures ok { result ≡ WriteAnswer.Ok → Takes (O.state out.old) (O.state out.new) bytes.now }
    ensures failed { result ≡ WriteAnswer.Failed
        → BreaksOff (O.state out.old) (O.state out.new) bytes.now }
{
    let mut at = 0;
    while at < bytes.len() {
        match out.write(&bytes[at..]) {
            TookAnswer::Ok(count) => at += count,
            TookAnswer::Failed => return WriteAnswer::Failed,
        }
    }
    WriteAnswer::Ok
}
