//! How the program ends.

ghost use Rattle.std.specs.Prelude.{◌≡◌};
ghost use Rattle.dart_server.specs.Output.{status_for};
ghost use Rattle.dart_server.specs.Codes.{code_of};

use serve_loop::ServeEnd;

/// How the program ended; the process exits with its code.
#[derive(Clone, Copy, Debug, PartialEq, Eq)]
pub enum Status {
    /// The input is at its end, and what was asked is written.
    Done,
    /// A diagnostic was printed that is an error.
    Errors,
    /// The words or what they name were refused.
    Refused,
    /// The program that was run ended by an uncaught object.
    Threw,
    /// Want of memory.
    Memory,
    /// The program that was run did not end within its steps.
    StepsSpent,
    /// The input could not be read.
    ReadFault,
    /// The output could not be written.
    WriteFault,
    /// The store of files failed.
    FilesFault,
    /// The input has 2^40 bytes or more.
    InputSpent,
    /// The program that was to be run has parts that aren't built.
    Rejected,
}

impl Status {
    /// The exit code, 0 to 10.
    pub fn code(self) -> u8
        ensures { result ≡ code_of self }
    {
        match self {
            Status::Done => 0,
            Status::Errors => 1,
            Status::Refused => 2,
            Status::Threw => 3,
            Status::Memory => 4,
            Status::StepsSpent => 5,
            Status::ReadFault => 6,
            Status::WriteFault => 7,
            Status::FilesFault => 8,
            Status::InputSpent => 9,
            Status::Rejected => 10,
        }
    }
}

/// The status of an end of serving.
pub fn status_of(end: ServeEnd) -> Status
    ensures { result ≡ status_for end }
{
    match end {
        ServeEnd::Done => Status::Done,
        ServeEnd::InputSpent => Status::InputSpent,
        ServeEnd::ReadFault => Status::ReadFault,
        ServeEnd::WriteFault => Status::WriteFault,
        ServeEnd::Memory | ServeEnd::SinkMemory => Status::Memory,
    }
}
