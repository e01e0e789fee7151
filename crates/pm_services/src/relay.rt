//! A relay as a service: it reads its children's bids and its parent's prices, and writes its own bids and the prices down.

ghost use Rattle.std.specs.Prelude.{◌≡◌, None};
ghost use Rattle.pm_frames.specs.Terms.{AreTerms};
ghost use Rattle.pm_services.specs.Limits.{relay_reply_limit};
ghost use Rattle.pm_services.specs.RelayAnswers.{AnswersRelay, IsRelayStart};
ghost use Rattle.pm_services.specs.SettingUp.{SetsUpRelay};

use crate::open_relay::OpenRelay;
use crate::setup::RelaySetup;
use pm_base::{MOST_NODES, MOST_STEPS};
use pm_frames::{RelayFrame, RelayTerms};
use pm_io::Memory;
use pm_wire::{Frame, Service};
use std::alloc::{AllocError, Global};
use std::marker::Model;

/// The most bytes of a relay's bid, with what is said behind it, of the prices for its children, and of what it keeps over a restart.
const BID_LIMIT: usize = 7 + 4 * MOST_STEPS + 5;

const PRICES_LIMIT: usize = 23 * MOST_NODES;

const RESUME_BYTES: usize = 41 + 4 * MOST_NODES;

/// The most bytes of the answers to a frame: a bid and prices, each with what the relay keeps over a restart.
const REPLY_LIMIT: usize = BID_LIMIT + PRICES_LIMIT + 2 * RESUME_BYTES;

/// A relay that takes the frames of its children and of its parent.
///
/// Contracts see its own number at its parent, what the arguments say of it, and the relay once there is a basis.
#[derive(Drop)]
pub struct RelayService {
    alloc: Global,
    child: u16,
    terms: RelayTerms,
    relay: Option<OpenRelay>,
}

impl Model for RelayService {
    ghost use Rattle.pm_services.specs.RelayAnswers.{RelayServiceValue};

    ghost Value = { RelayServiceValue };

    ghost use Rattle.pm_services.specs.RelayServiceFields.{relay_service_of, AreRelayServiceFields};

    ghost view = { relay_service_of };

    ghost invariant = { AreRelayServiceFields };
}

impl RelayService {
    /// The service of a relay that is this child of its parent, of which the arguments say this. It takes no memory.
    pub fn new(alloc: Global, child: u16, terms: RelayTerms) -> RelayService
        requires terms { AreTerms terms }
        ensures { result ≡ record { child = child; terms = terms; relay = None } }
    {
        RelayService {
            alloc,
            child,
            terms,
            relay: None,
        }
    }
}

impl Service<RelayFrame> for RelayService {
    ghost begins = { IsRelayStart };

    ghost answers = { AnswersRelay };

    ghost most_answers = { relay_reply_limit };

    ghost sets_up = { SetsUpRelay };

    fn answer<M: Memory>(
        &mut self,
        memory: &mut M,
        frame: &RelayFrame,
        out: &mut Vec<u8>,
    ) -> Result<(), AllocError> {
        // The room comes first, so that want of memory changes nothing.
        memory.reserve(out, REPLY_LIMIT)?;
        if let Some(relay) = &mut self.relay {
            return relay.take(self.alloc, frame, out);
        }
        if let RelayFrame::Child(Frame::Hello { basis }) = frame {
            let setup = RelaySetup {
                child: self.child,
                terms: self.terms,
                basis: *basis,
            };
            self.relay = Some(OpenRelay::new(self.alloc, setup)?);
        }
        Ok(())
    }
}
