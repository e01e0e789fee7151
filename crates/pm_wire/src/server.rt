//! The auctioneer over a list of frames.

ghost use Rattle.std.specs.Prelude.{◌≡◌, ◌+◌, ◌<◌, ◌≤◌, ◌++◌, ◌^◌, ◌⊎◌, length, vec_len, vec_capacity};
ghost use Rattle.std.specs.Prelude.{IfSome, OnOk, OnErr, None};
ghost use Rattle.pm_base.specs.Limits.{most_nodes};
ghost use Rattle.pm_wire.specs.Frames.{MayStand};
ghost use Rattle.pm_wire.specs.Answers.{market_after, answers_to, reply_bytes, place_known, AnswersFrame, IsAtStart};
ghost use Rattle.pm_wire.specs.Memory.{reply_limit};
ghost use Rattle.pm_wire.specs.SettingUp.{IsHello};

use crate::frame::Frame;
use crate::market::{OpenMarket, REPLY_LIMIT};
use crate::service::Service;
use pm_io::Memory;
use std::alloc::{AllocError, Global};
use std::marker::Model;

/// The auctioneer that takes frames and answers them.
///
/// Contracts see what it knows: nothing before Hello, and then the market.
#[derive(Drop)]
pub struct Server {
    alloc: Global,
    market: Option<OpenMarket>,
}

impl Model for Server {
    ghost use Rattle.std.specs.Prelude.{Option};
    ghost use Rattle.pm_wire.specs.Answers.{OpenMarket};

    ghost Value = { Option OpenMarket };

    ghost use Rattle.pm_wire.specs.ServerFields.{AreServerFields};

    ghost view = { λ server. server.market };

    ghost invariant = { AreServerFields };
}

impl Server {
    /// A server that took no frame. It takes no memory.
    pub fn new(alloc: Global) -> Server
        ensures { result ≡ None }
    {
        Server {
            alloc,
            market: None,
        }
    }

    /// Takes the next frame, and appends the bytes of the answers to it. The frame may stand where the frames taken end, and
    /// fewer than 2,147,483,648 clearings came before. Where an allocation fails nothing changes and nothing is appended.
    pub fn take(&mut self, frame: &Frame, out: &mut Vec<u8>) -> Result<(), AllocError>
        requires stands { MayStand (place_known self.old) frame.now }
        requires clearings { IfSome self.old (λ market. market.index < 2147483648) }
        ensures taken { OnOk result (self.new ≡ market_after self.old frame.now) }
        ensures answered { OnOk result (out.new.items ≡ out.old.items
            ++ reply_bytes (answers_to self.old frame.now)) }
        ensures unchanged { OnErr result (self.new ≡ self.old) }
        ensures nothing_appended { OnErr result (out.new.items ≡ out.old.items) }

        // Behind Hello it takes no memory where there is room for the answers, so none is refused.
        ensures full { OnErr result
            ((self.old ≡ None) ⊎ (vec_capacity out.old < vec_len out.old + reply_limit)) }

        // So it is refused only at Hello, or where there is no such room.
        ensures wants { OnErr result
            (IsHello frame.now ⊎ (vec_capacity out.old < vec_len out.old + reply_limit)) }

        // What is in memory: the answers to a frame are few bytes, and the market has an entry for each child.
        ensures few { length out.new.items ≤ length out.old.items + reply_limit }
        ensures children { IfSome self.new (λ market. length market.cache.heads ≡ most_nodes) }
    {
        if let Some(market) = &mut self.market {
            return market.take(frame, out);
        }
        if let Frame::Hello { basis } = frame {
            self.market = Some(OpenMarket::new(self.alloc, basis.steps())?);
        }
        Ok(())
    }
}

impl Service<Frame> for Server {
    ghost begins = { IsAtStart };

    ghost answers = { AnswersFrame };

    ghost most_answers = { reply_limit };

    ghost sets_up = { IsHello };

    fn answer<M: Memory>(
        &mut self,
        memory: &mut M,
        frame: &Frame,
        out: &mut Vec<u8>,
    ) -> Result<(), AllocError> {
        memory.reserve(out, REPLY_LIMIT)?;
        self.take(frame, out)
    }
}
