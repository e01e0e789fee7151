//! An auctioneer after Hello: what it makes of each frame, and the bytes of its answers.

ghost use Rattle.std.specs.Prelude.{◌≡◌, ◌+◌, ◌≤◌, length, vec_len, vec_capacity, IfOk, OnOk, OnErr, Some};
ghost use Rattle.pm_base.specs.Limits.{demand_limit, most_nodes};
ghost use Rattle.pm_bid.specs.Bids.{AllWithinLimit};
ghost use Rattle.pm_services.specs.Limits.{root_reply_limit};
ghost use Rattle.pm_services.specs.Receipts.{Appended};
ghost use Rattle.pm_services.specs.RootWrites.{root_bytes};
ghost use Rattle.pm_services.specs.RootAnswers.{WritesOpenRoot, RootComesUp};
ghost use Rattle.pm_services.specs.RootStands.{MayStandWithSteps};
ghost use Rattle.pm_services.specs.SettingUp.{SetsUpRoot};
ghost use Rattle.pm_wire.specs.declared.frame.Frame.{Frame};
ghost use Rattle.pm_frames.specs.declared.root.RootFrame.{RootFrame};

use crate::bounds::Bounds;
use crate::held_root::HeldRoot;
use pm_basis::Basis;
use pm_bid::ArrayBid;
use pm_frames::{RootFrame, StoredRoot, write_too_much};
use pm_wire::Frame;
use std::alloc::{AllocError, Global};
use std::marker::Model;

/// An auctioneer that has a basis, and the bounds of its children.
///
/// Contracts see these.
#[derive(Drop)]
pub(crate) struct OpenRoot {
    basis: Basis,
    bounds: Bounds,
    held: HeldRoot,
}

impl Model for OpenRoot {
    ghost use Rattle.pm_services.specs.RootAnswers.{OpenRoot};

    ghost Value = { OpenRoot };

    ghost use Rattle.pm_services.specs.OpenRootFields.{open_root_of, AreOpenRootFields};

    ghost view = { open_root_of };

    ghost invariant = { AreOpenRootFields };
}

impl OpenRoot {
    /// An auctioneer of this basis to which nothing was sent, and whose children have no bounds.
    pub(crate) fn new(alloc: Global, basis: &Basis) -> Result<OpenRoot, AllocError>
        ensures opens { IfOk result (λ r. RootComesUp basis.now (Some r)) }
    {
        let bounds = Bounds::new(alloc)?;
        let held = HeldRoot::new(alloc, basis.steps())?;
        Ok(OpenRoot {
            basis: *basis,
            bounds,
            held,
        })
    }

    /// Takes a frame after Hello, and appends the answers to it. Where an allocation fails nothing changes and nothing is
    /// appended.
    pub(crate) fn take(
        &mut self,
        alloc: Global,
        frame: &RootFrame,
        out: &mut Vec<u8>,
    ) -> Result<(), AllocError>
        requires stands { MayStandWithSteps (Some self.old.basis.steps) frame.now }
        requires room { vec_len out.old + root_reply_limit ≤ vec_capacity out.old }
        ensures answered { OnOk result (Appended (root_bytes self.old.basis)
            (WritesOpenRoot self.old frame.now self.new) root_reply_limit out.old.items
            out.new.items) }
        ensures unchanged { OnErr result (self.new ≡ self.old) }
        ensures nothing_appended { OnErr result (out.new.items ≡ out.old.items) }
        ensures cause { OnErr result (SetsUpRoot frame.now) }
    {
        match frame {
            RootFrame::Market(
                Frame::Bid {
                    child,
                    number,
                    demand,
                },
            ) => {
                self.take_bid(*child, *number, demand, out);
                Ok(())
            }
            RootFrame::Market(Frame::Gone { child, number }) => {
                self.take_gone(*child, *number, out);
                Ok(())
            }
            RootFrame::Market(Frame::Clear) => {
                self.clear(out);
                Ok(())
            }
            RootFrame::Expire { child } => {
                self.held.take_expire(&self.basis, *child, out);
                Ok(())
            }
            RootFrame::Bound { child, bound } => {
                self.bounds.set(*child, *bound);
                Ok(())
            }
            RootFrame::Resume(stored) => self.come_back(alloc, stored, out),
            // Hello stands first and only there.
            RootFrame::Market(Frame::Hello { .. }) => Ok(()),
        }
    }

    /// Takes a Bid of a child, unless it is beyond the child's bound, and appends what is answered.
    fn take_bid(&mut self, sender: u16, number: u32, demand: &ArrayBid, out: &mut Vec<u8>)
        requires first { 1 ≤ sender }
        requires last { sender ≤ most_nodes }
        requires steps { length demand.now ≡ self.old.basis.steps }
        requires small { AllWithinLimit demand_limit demand.now }
        requires room { vec_len out.old + root_reply_limit ≤ vec_capacity out.old }
        ensures answered { Appended (root_bytes self.old.basis) (WritesOpenRoot self.old
            (RootFrame.Market (Frame.Bid sender number demand.now)) self.new) root_reply_limit
            out.old.items out.new.items }
    {
        if !self.bounds.admit(sender, demand) {
            write_too_much(sender, number, out);
            return;
        }
        self.held
            .take_bid(&self.basis, sender, number, Some(demand), out);
    }

    /// Takes a Gone of a child, and appends what is answered.
    fn take_gone(&mut self, sender: u16, number: u32, out: &mut Vec<u8>)
        requires first { 1 ≤ sender }
        requires last { sender ≤ most_nodes }
        requires room { vec_len out.old + root_reply_limit ≤ vec_capacity out.old }
        ensures answered { Appended (root_bytes self.old.basis) (WritesOpenRoot self.old
            (RootFrame.Market (Frame.Gone sender number)) self.new) root_reply_limit
            out.old.items out.new.items }
    {
        self.held.take_bid(&self.basis, sender, number, None, out);
    }

    /// Clears the market, and appends what is answered.
    fn clear(&mut self, out: &mut Vec<u8>)
        requires room { vec_len out.old + root_reply_limit ≤ vec_capacity out.old }
        ensures answered { Appended (root_bytes self.old.basis) (WritesOpenRoot self.old
            (RootFrame.Market Frame.Clear) self.new) root_reply_limit out.old.items
            out.new.items }
    {
        self.held.clear(&self.basis, out);
    }

    /// Comes back with what the auctioneer gave before.
    fn come_back(
        &mut self,
        alloc: Global,
        stored: &StoredRoot,
        out: &mut Vec<u8>,
    ) -> Result<(), AllocError>
        requires children { length stored.now.numbers ≡ most_nodes }
        ensures answered { OnOk result (Appended (root_bytes self.old.basis)
            (WritesOpenRoot self.old (RootFrame.Resume stored.now) self.new) root_reply_limit
            out.old.items out.new.items) }
        ensures unchanged { OnErr result (self.new ≡ self.old) }
        ensures nothing_appended { out.new.items ≡ out.old.items }
    {
        let back = self.held.resumed(alloc, stored)?;
        self.held = back;
        Ok(())
    }
}
