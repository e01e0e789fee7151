//! An auctioneer that may restart as a service: it reads its children's bids, and writes the prices of each clearing.

ghost use Rattle.std.specs.Prelude.{◌≡◌, None};
ghost use Rattle.pm_services.specs.Limits.{root_reply_limit};
ghost use Rattle.pm_services.specs.RootAnswers.{AnswersRoot, IsRootStart};
ghost use Rattle.pm_services.specs.SettingUp.{SetsUpRoot};

use crate::open_root::OpenRoot;
use pm_base::MOST_NODES;
use pm_frames::RootFrame;
use pm_io::Memory;
use pm_wire::{Frame, Service};
use std::alloc::{AllocError, Global};
use std::marker::Model;

/// The most bytes of the answers to a frame: a receipt, what the auctioneer keeps over a restart, and a price for each child.
const REPLY_LIMIT: usize = 7 + (15 + 4 * MOST_NODES) + 23 * MOST_NODES;

/// An auctioneer that takes the frames of its children.
///
/// Contracts see the auctioneer once there is a basis.
#[derive(Drop)]
pub struct RootService {
    alloc: Global,
    root: Option<OpenRoot>,
}

impl Model for RootService {
    ghost use Rattle.std.specs.Prelude.{Option};
    ghost use Rattle.pm_services.specs.RootAnswers.{OpenRoot};

    ghost Value = { Option OpenRoot };

    ghost view = { λ service. service.root };
}

impl RootService {
    /// The service of an auctioneer that took no frame. It takes no memory.
    pub fn new(alloc: Global) -> RootService
        ensures { result ≡ None }
    {
        RootService { alloc, root: None }
    }
}

impl Service<RootFrame> for RootService {
    ghost begins = { IsRootStart };

    ghost answers = { AnswersRoot };

    ghost most_answers = { root_reply_limit };

    ghost sets_up = { SetsUpRoot };

    fn answer<M: Memory>(
        &mut self,
        memory: &mut M,
        frame: &RootFrame,
        out: &mut Vec<u8>,
    ) -> Result<(), AllocError> {
        // The room comes first, so that want of memory changes nothing.
        memory.reserve(out, REPLY_LIMIT)?;
        if let Some(root) = &mut self.root {
            return root.take(self.alloc, frame, out);
        }
        if let RootFrame::Market(Frame::Hello { basis }) = frame {
            self.root = Some(OpenRoot::new(self.alloc, basis)?);
        }
        Ok(())
    }
}
