//! What the arguments of the command line say of a relay.

ghost use Rattle.std.specs.Prelude.{◌≡◌, ◌↔◌, IsTrue, Some};
ghost use Rattle.pm_frames.specs.Terms.{giver_number};

use pm_base::Limits;

/// What the arguments say of a relay, the same for each of its processes.
#[derive(Clone, Copy, Debug, PartialEq, Eq)]
pub struct RelayTerms {
    /// The limits on the power that it announces, in watts, until it is given others.
    pub limits: Limits,
    /// The place among its children, from 1 to 256, in which limits are given; no child has it. None where the limits are fixed.
    pub giver: Option<u16>,
}

impl RelayTerms {
    /// Whether limits are given in this place.
    pub(crate) fn is_giver(&self, child: u16) -> bool
        ensures { IsTrue result ↔ (self.now.giver ≡ Some child) }
    {
        match self.giver {
            Some(giver) => giver == child,
            None => false,
        }
    }

    /// The place in which limits are given, 0 where there is none.
    pub(crate) fn giver_number(&self) -> u16
        ensures { result ≡ giver_number self.now.giver }
    {
        match self.giver {
            Some(giver) => giver,
            None => 0,
        }
    }
}
