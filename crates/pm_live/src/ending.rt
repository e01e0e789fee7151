//! How the work of the program ended, and the exit codes.

ghost use Rattle.std.specs.Prelude.{◌≡◌};
ghost use Rattle.pm_live.specs.Endings.{ending_code};

use pm_wire::Served;

/// How the work of the program ended.
#[derive(Clone, Copy, Debug, PartialEq, Eq)]
pub enum Ending {
    /// A node's stream was served, and this is how that ended.
    Served(Served),
    /// The arguments name no node, and the usage line is in the sink.
    Usage,
    /// The arguments name no node, and the sink failed; a part of the usage line is in it.
    UsageCutShort,
}

impl Ending {
    /// The exit code of the program: as `market` has them.
    pub fn code(self) -> u8
        ensures { result ≡ ending_code self }
    {
        match self {
            Ending::Served(Served::Done) => 0,
            Ending::Usage => 2,
            Ending::Served(Served::ReadFault) => 3,
            Ending::Served(Served::TooLong) => 4,
            Ending::Served(Served::Refused) => 5,
            Ending::Served(Served::WriteFault) | Ending::UsageCutShort => 6,
            Ending::Served(Served::NoMemory) => 7,
        }
    }
}
