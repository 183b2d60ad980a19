//! How a call of the program ends.

ghost use Rattle.std.specs.Prelude.{◌≡◌};

/// How a call of the program ends.
#[derive(Clone, Copy)]
pub enum Status {
    /// All that was asked was written, and no task failed.
    Done,
    /// All that was asked was written, and a task failed.
    TaskFailed,
    /// The words are no command.
    BadWords,
    /// The program is over its limit, or a line of it is refused.
    ProgramRefused,
    /// The fault file is over its limit, or a line of it is refused.
    FaultsRefused,
    /// A file could not be read.
    StoreFailed,
    /// The output broke off.
    OutputFailed,
    /// Memory was wanting, before the first byte was written.
    OutOfMemory,
}

impl Status {
    ghost use Rattle.rh_top.specs.Promise.{status_number};

    /// The exit status of the process.
    pub fn number(self) -> u8
        ensures { result ≡ status_number self }
    {
        match self {
            Status::Done => 0,
            Status::TaskFailed => 1,
            Status::BadWords => 2,
            Status::ProgramRefused => 3,
            Status::FaultsRefused => 4,
            Status::StoreFailed => 5,
            Status::OutputFailed => 6,
            Status::OutOfMemory => 7,
        }
    }
}
