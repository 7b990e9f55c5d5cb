//! How the program ends.

ghost use Rattle.std.specs.Prelude.{◌≡◌};
ghost use Rattle.std.specs.Process.{exit_status};
ghost use Rattle.sift_reread.specs.Ending.{status_of};

use std::process::ExitCode;

/// How the program ends, and why.
#[derive(Clone, Copy)]
pub enum Ending {
    /// The input is a report, and was written again.
    Reread,
    /// A line of the input is none, and its number was written.
    NoLine,
    /// The input is no UTF-8.
    NoText,
    /// The input has more bytes than the program reads.
    TooLong,
    /// The source had a fault.
    ReadFault,
    /// The sink had a fault.
    WriteFault,
    /// There was no memory.
    NoMemory,
}

impl Ending {
    /// The exit code with its status.
    pub fn exit_code(self) -> ExitCode
        ensures { exit_status result ≡ status_of self }
    {
        ExitCode::from(self.status())
    }

    /// The status that says so.
    fn status(self) -> u8
        ensures { result ≡ status_of self }
    {
        match self {
            Ending::Reread => 0,
            Ending::NoLine => 1,
            Ending::NoText
            | Ending::TooLong
            | Ending::ReadFault
            | Ending::WriteFault
            | Ending::NoMemory => 2,
        }
    }
}
