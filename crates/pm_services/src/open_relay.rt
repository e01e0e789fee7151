//! A relay after Hello: what it makes of each frame, and the bytes of its answers.

ghost use Rattle.std.specs.Prelude.{◌≡◌, ◌+◌, ◌<◌, ◌≤◌, length, vec_len, vec_capacity, IfOk, OnOk, OnErr, Some};
ghost use Rattle.pm_base.specs.Limits.{demand_limit, most_nodes};
ghost use Rattle.pm_bid.specs.Bids.{AllWithinLimit};
ghost use Rattle.pm_relay.specs.Relays.{AreRelayLimits};
ghost use Rattle.pm_services.specs.Limits.{relay_reply_limit};
ghost use Rattle.pm_services.specs.Receipts.{Appended};
ghost use Rattle.pm_services.specs.RelayWrites.{relay_bytes, WritesGiven, WritesTold, WritesKept, HasStored};
ghost use Rattle.pm_services.specs.RelayAnswers.{WritesOpenRelay, RelayComesUp, with_held, with_childs_bound};
ghost use Rattle.pm_services.specs.RelayStands.{MayStandWithSteps};
ghost use Rattle.pm_services.specs.SettingUp.{SetsUpRelay};
ghost use Rattle.pm_wire.specs.declared.frame.Frame.{Frame};
ghost use Rattle.pm_frames.specs.declared.relay.RelayFrame.{RelayFrame};

use crate::bounds::Bounds;
use crate::setup::RelaySetup;
use crate::waiting_relay::WaitingRelay;
use pm_base::Limits;
use pm_bid::ArrayBid;
use pm_frames::{
    NamedBasis, ParentFrame, RelayFrame, StoredRelay, write_other_basis, write_too_much,
};
use pm_session::PriceUpdate;
use pm_wire::Frame;
use std::alloc::{AllocError, Global};
use std::marker::Model;

/// A relay that has a basis, and the bounds of its children.
///
/// Contracts see its setup, the bounds, and the relay with the price that waits.
#[derive(Drop)]
pub(crate) struct OpenRelay {
    setup: RelaySetup,
    bounds: Bounds,
    held: WaitingRelay,
}

impl Model for OpenRelay {
    ghost use Rattle.pm_services.specs.RelayAnswers.{OpenRelay};

    ghost Value = { OpenRelay };

    ghost use Rattle.pm_services.specs.OpenRelayFields.{open_relay_of, AreOpenRelayFields};

    ghost view = { open_relay_of };

    ghost invariant = { AreOpenRelayFields };
}

/// The price that a frame of the parent tells.
fn price_update(number: u32, index: u32, step: u16) -> PriceUpdate
    ensures { result ≡ record { step = step; number = number; index = index } }
{
    PriceUpdate {
        step: u32::from(step),
        number,
        index,
    }
}

impl OpenRelay {
    /// A relay of this setup to which nothing was sent, and whose children have no bounds.
    pub(crate) fn new(alloc: Global, setup: RelaySetup) -> Result<OpenRelay, AllocError>
        ensures opens { IfOk result (λ r. RelayComesUp setup (Some r)) }
    {
        let bounds = Bounds::new(alloc)?;
        let held = WaitingRelay::new(alloc, setup.basis.steps(), setup.terms.limits)?;
        Ok(OpenRelay {
            setup,
            bounds,
            held,
        })
    }

    /// Takes a frame after Hello, and appends what is answered, for which there is room. Where an allocation fails nothing changes
    /// and nothing is appended.
    pub(crate) fn take(
        &mut self,
        alloc: Global,
        frame: &RelayFrame,
        out: &mut Vec<u8>,
    ) -> Result<(), AllocError>
        requires stands { MayStandWithSteps (Some self.old.setup.basis.steps) frame.now }
        requires room { vec_len out.old + relay_reply_limit ≤ vec_capacity out.old }
        ensures answered { OnOk result (Appended (relay_bytes self.old.setup)
            (WritesOpenRelay self.old frame.now self.new) relay_reply_limit out.old.items
            out.new.items) }
        ensures unchanged { OnErr result (self.new ≡ self.old) }
        ensures nothing_appended { OnErr result (out.new.items ≡ out.old.items) }
        ensures cause { OnErr result (SetsUpRelay frame.now) }
    {
        match frame {
            RelayFrame::Child(
                Frame::Bid {
                    child,
                    number,
                    demand,
                },
            ) => {
                self.take_bid(*child, *number, demand, out);
                Ok(())
            }
            RelayFrame::Child(Frame::Gone { child, number }) => {
                self.take_gone(*child, *number, out);
                Ok(())
            }
            RelayFrame::Parent(
                ParentFrame::Price {
                    number,
                    index,
                    step,
                    basis,
                    ..
                },
            ) => {
                self.take_price(price_update(*number, *index, *step), basis, out);
                Ok(())
            }
            RelayFrame::Send => {
                self.send(out);
                Ok(())
            }
            RelayFrame::Expire { child } => {
                self.take_expire(*child, out);
                Ok(())
            }
            RelayFrame::Limits { number, limits } => {
                self.take_limits(*number, *limits, out);
                Ok(())
            }
            RelayFrame::Bound { child, bound } => {
                self.set_bound(*child, *bound);
                Ok(())
            }
            RelayFrame::Resume(stored) => self.come_back(alloc, stored, out),
            // Hello stands first, and Clear is for the auctioneer.
            RelayFrame::Child(Frame::Hello { .. } | Frame::Clear) => Ok(()),
            RelayFrame::Parent(ParentFrame::Old { .. }) => Ok(()),
        }
    }

    /// Takes a Bid of a child, unless it is beyond the child's bound, and appends what is answered.
    fn take_bid(&mut self, sender: u16, number: u32, demand: &ArrayBid, out: &mut Vec<u8>)
        requires first { 1 ≤ sender }
        requires last { sender ≤ most_nodes }
        requires steps { length demand.now ≡ self.old.setup.basis.steps }
        requires small { AllWithinLimit demand_limit demand.now }
        requires room { vec_len out.old + relay_reply_limit ≤ vec_capacity out.old }
        ensures answered { Appended (relay_bytes self.old.setup) (WritesOpenRelay self.old
            (RelayFrame.Child (Frame.Bid sender number demand.now)) self.new) relay_reply_limit
            out.old.items out.new.items }
    {
        if !self.bounds.admit(sender, demand) {
            write_too_much(sender, number, out);
            return;
        }
        self.held
            .take_bid(&self.setup, sender, number, Some(demand), out);
    }

    /// Takes a price of the parent, unless it is of another basis, and appends what is answered.
    fn take_price(&mut self, price: PriceUpdate, basis: &NamedBasis, out: &mut Vec<u8>)
        requires step { price.step < basis.now.steps }
        requires room { vec_len out.old + relay_reply_limit ≤ vec_capacity out.old }
        ensures answered { Appended (relay_bytes self.old.setup) (WritesTold self.old.setup
            self.old.held price basis.now self.new.held) relay_reply_limit out.old.items
            out.new.items }
        ensures kept { self.new ≡ with_held self.old self.new.held }
    {
        if !self.setup.has_basis(basis) {
            write_other_basis(price.number, price.index, out);
            return;
        }
        self.held.take_price(&self.setup, price, out);
    }

    /// Takes limits, which are given in the place that the arguments name, and appends what is answered.
    fn take_limits(&mut self, number: u32, limits: Limits, out: &mut Vec<u8>)
        requires limits { AreRelayLimits limits }
        requires room { vec_len out.old + relay_reply_limit ≤ vec_capacity out.old }
        ensures answered { Appended (relay_bytes self.old.setup) (WritesGiven
            self.old.setup.terms.giver self.old.setup self.old.held number limits self.new.held)
            relay_reply_limit out.old.items out.new.items }
        ensures kept { self.new ≡ with_held self.old self.new.held }
    {
        let place = self.setup.giver();
        let Some(giver) = place else {
            return;
        };
        self.held
            .take_limits(&self.setup, giver, number, limits, out);
    }

    /// Takes a Gone of a child, and appends what is answered.
    fn take_gone(&mut self, sender: u16, number: u32, out: &mut Vec<u8>)
        requires first { 1 ≤ sender }
        requires last { sender ≤ most_nodes }
        requires room { vec_len out.old + relay_reply_limit ≤ vec_capacity out.old }
        ensures answered { Appended (relay_bytes self.old.setup) (WritesOpenRelay self.old
            (RelayFrame.Child (Frame.Gone sender number)) self.new) relay_reply_limit
            out.old.items out.new.items }
    {
        self.held.take_bid(&self.setup, sender, number, None, out);
    }

    /// Sends the relay's bid, or appends why there is none, and what is due for the price that waits.
    fn send(&mut self, out: &mut Vec<u8>)
        requires room { vec_len out.old + relay_reply_limit ≤ vec_capacity out.old }
        ensures answered { Appended (relay_bytes self.old.setup) (WritesOpenRelay self.old
            RelayFrame.Send self.new) relay_reply_limit out.old.items out.new.items }
    {
        self.held.send(&self.setup, out);
    }

    /// Lets a child go, and appends what is answered.
    fn take_expire(&mut self, sender: u16, out: &mut Vec<u8>)
        requires first { 1 ≤ sender }
        requires last { sender ≤ most_nodes }
        requires room { vec_len out.old + relay_reply_limit ≤ vec_capacity out.old }
        ensures answered { Appended (relay_bytes self.old.setup) (WritesOpenRelay self.old
            (RelayFrame.Expire sender) self.new) relay_reply_limit out.old.items out.new.items }
    {
        self.held.take_expire(&self.setup, sender, out);
    }

    /// Gives a child its bound.
    fn set_bound(&mut self, sender: u16, bound: Limits)
        requires first { 1 ≤ sender }
        requires last { sender ≤ most_nodes }
        ensures set { self.new ≡ with_childs_bound self.old sender bound }
    {
        self.bounds.set(sender, bound);
    }

    /// Comes back with what the relay gave before, and learns by itself the limits that it was given, if it was given any.
    fn come_back(
        &mut self,
        alloc: Global,
        stored: &StoredRelay,
        out: &mut Vec<u8>,
    ) -> Result<(), AllocError>
        requires stored { HasStored stored.now }
        requires room { vec_len out.old + relay_reply_limit ≤ vec_capacity out.old }
        ensures answered { OnOk result (Appended (relay_bytes self.old.setup)
            (WritesOpenRelay self.old (RelayFrame.Resume stored.now) self.new) relay_reply_limit
            out.old.items out.new.items) }
        ensures unchanged { OnErr result (self.new ≡ self.old) }
        ensures nothing_appended { OnErr result (out.new.items ≡ out.old.items) }
    {
        let back = WaitingRelay::resumed(alloc, &self.setup, stored)?;
        self.held = back;
        self.learn_kept(stored, out);
        Ok(())
    }

    /// Learns the limits that the relay was given before it came back, if it was given any, and appends what is answered.
    fn learn_kept(&mut self, stored: &StoredRelay, out: &mut Vec<u8>)
        requires stored { HasStored stored.now }
        requires room { vec_len out.old + relay_reply_limit ≤ vec_capacity out.old }
        ensures answered { Appended (relay_bytes self.old.setup) (WritesKept
            self.old.setup.terms.giver self.old.setup self.old.held stored.now self.new.held)
            relay_reply_limit out.old.items out.new.items }
        ensures kept { self.new ≡ with_held self.old self.new.held }
    {
        let place = self.setup.giver();
        let Some(giver) = place else {
            return;
        };
        let at = usize::from(giver) - 1;
        let number = stored.number_of(at);
        if number == 0 {
            return;
        }
        let resume = stored.resume();
        self.take_limits(number, resume.limits, out);
    }
}
