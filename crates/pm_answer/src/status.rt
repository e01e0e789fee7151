//! The statuses of the program, and their exit codes.

ghost use Rattle.std.specs.Prelude.{◌≡◌};
ghost use Rattle.pm_answer.specs.Codes.{status_code};

/// How the work of the program ended.
#[derive(Clone, Copy, Debug, PartialEq, Eq)]
pub enum Status {
    /// The command was done, and its text is in the sink.
    Done,
    /// A trace is not valid, and the line that names its bad line is in the sink.
    Invalid,
    /// The arguments are no command, and the usage line is in the sink.
    Usage,
    /// The source failed.
    ReadFault,
    /// The input has too many bytes. The line that says so is in the sink, or for a service the answers so far.
    TooLong,
    /// The input is refused, and the line of the refusal is in the sink, or for a service the frame of the fault.
    Refused,
    /// The sink failed; a part of the text due is in it.
    WriteFault,
    /// An allocation failed.
    NoMemory,
}

impl Status {
    /// The exit code of the program: from 0 on, in the order of the statuses.
    pub fn code(self) -> u8
        ensures { result ≡ status_code self }
    {
        match self {
            Status::Done => 0,
            Status::Invalid => 1,
            Status::Usage => 2,
            Status::ReadFault => 3,
            Status::TooLong => 4,
            Status::Refused => 5,
            Status::WriteFault => 6,
            Status::NoMemory => 7,
        }
    }
}
