//! A device's agent after Hello: what it makes of each frame, and the bytes of its answers.

ghost use Rattle.std.specs.Prelude.{◌≡◌, ◌⊎◌, ◌+◌, ◌<◌, ◌≤◌, ◌^◌, ◌++◌, length, vec_len, vec_capacity, IfOk};
ghost use Rattle.std.specs.Prelude.{ℕ, OnOk, OnErr, MatchOption};
ghost use Rattle.std.specs.Option.{option_copied};
ghost use Rattle.pm_io.specs.Causes.{HasCause, Rose};
ghost use Rattle.pm_base.specs.Limits.{demand_limit, most_steps};
ghost use Rattle.pm_bid.specs.Bids.{AllWithinLimit};
ghost use Rattle.pm_net.specs.Agents.{new_agent, after_price, setpoints_for};
ghost use Rattle.pm_control.specs.Control.{message_of, agent_stored, after_old, newest_demand};
ghost use Rattle.pm_wire.specs.Memory.{frame_limit};
ghost use Rattle.pm_frames.specs.Stored.{agent_resume_bytes};
ghost use Rattle.pm_frames.specs.DeviceFrames.{device_frame_limit};
ghost use Rattle.pm_services.specs.Limits.{device_reply_limit};
ghost use Rattle.pm_services.specs.DeviceWrites.{stored_agent, after_asking, after_asking_to_leave, after_price_of};
ghost use Rattle.pm_services.specs.DeviceWrites.{again_outs, offer_outs, leave_outs, price_outs_of, told_outs, old_outs, device_bytes};
ghost use Rattle.pm_services.specs.DeviceAnswers.{with_held_agent, open_device_after, device_reply};
ghost use Rattle.pm_services.specs.DeviceServiceFields.{HasSmallDemand, IsSmall};
ghost use Rattle.pm_services.specs.SettingUp.{SetsUpDevice};

use pm_basis::Basis;
use pm_bid::{ArrayBid, uncounted};
use pm_control::{ControlAgent, OfferFault};
use pm_frames::{
    DeviceFrame, NamedBasis, ParentFrame, StoredAgent, write_agent_resume, write_bid,
    write_dropped, write_gone, write_other_basis, write_out_of_numbers, write_setpoint,
    write_window_full,
};
use pm_io::Memory;
use pm_session::PriceUpdate;
use pm_wire::zero_bid;
use std::alloc::{AllocError, Global};
use std::marker::Model;

/// A device that has a basis.
///
/// Contracts see its agent and the basis. Each offer that the agent keeps fits a message.
#[derive(Drop)]
pub(crate) struct OpenDevice {
    agent: ControlAgent,
    basis: Basis,
}

impl Model for OpenDevice {
    ghost use Rattle.pm_services.specs.DeviceAnswers.{OpenDevice};

    ghost Value = { OpenDevice };

    ghost use Rattle.pm_services.specs.DeviceServiceFields.{open_device_of, AreOpenDeviceFields};

    ghost view = { open_device_of };

    ghost invariant = { AreOpenDeviceFields };
}

/// A copy of a bid, which has at most 1000 steps.
fn copy_of<M: Memory>(memory: &mut M, demand: &ArrayBid) -> Result<ArrayBid, AllocError>
    ensures copy { IfOk result (λ copy. copy ≡ demand.now) }
    ensures steps { length demand.now ≤ most_steps }
    ensures cause { HasCause (M.refusals memory.old) (M.refusals memory.new) result }
{
    let mut copy = zero_bid(memory, demand.steps())?;
    demand.copy_into(&mut copy, &mut uncounted());
    Ok(copy)
}

/// A copy of a bid, where there is one.
fn copy_if_some<M: Memory>(
    memory: &mut M,
    demand: Option<&ArrayBid>,
) -> Result<Option<ArrayBid>, AllocError>
    ensures copy { IfOk result (λ copy. copy ≡ option_copied demand.entry) }
    ensures cause { HasCause (M.refusals memory.old) (M.refusals memory.new) result }
{
    let Some(demand) = demand else {
        return Ok(None);
    };
    let copy = copy_of(memory, demand)?;
    Ok(Some(copy))
}

/// How many steps a bid has, at most 1000, and 0 where there is none.
fn steps_if_some(demand: Option<&ArrayBid>) -> usize
    ensures steps { MatchOption (option_copied demand.entry) (result ≡ 0)
        (λ bid. result ≡ length bid) }
    ensures few { result ≤ most_steps }
{
    match demand {
        Some(bid) => bid.steps(),
        None => 0,
    }
}

/// Appends the newest Bid of a device that comes back, or its Gone, unless it gave no number yet.
fn send_again(child: u16, stored: &StoredAgent, out: &mut Vec<u8>)
    requires small { IsSmall stored.now.newest }
    requires room { vec_len out.old + device_reply_limit ≤ vec_capacity out.old }
    ensures written { out.new.items ≡ out.old.items
        ++ device_bytes child stored.now.basis
        (again_outs stored.now.basis.steps stored.now.number stored.now.newest) }
    ensures few { length out.new.items ≤ length out.old.items + device_reply_limit }
{
    if let Some(demand) = &stored.newest {
        // The call tells a fact of the type: a bid has at most 1000 steps.
        let _steps = demand.steps();
        write_bid(child, stored.number, demand, out);
    } else if stored.number != 0 {
        write_gone(child, stored.number, out);
    }
}

impl OpenDevice {
    /// A device whose control made no offer.
    pub(crate) fn new(alloc: Global, basis: &Basis) -> Result<OpenDevice, AllocError>
        ensures { IfOk result (λ device. device ≡ record { agent = new_agent; basis = basis.now }) }
    {
        let agent = ControlAgent::new(alloc)?;
        Ok(OpenDevice {
            agent,
            basis: *basis,
        })
    }

    /// Takes a frame after Hello, and appends the answers to it. Where an allocation fails nothing changes and nothing is
    /// appended.
    pub(crate) fn take<M: Memory>(
        &mut self,
        alloc: Global,
        memory: &mut M,
        child: u16,
        frame: &DeviceFrame,
        out: &mut Vec<u8>,
    ) -> Result<(), AllocError>
        requires small { HasSmallDemand frame.now }
        requires room { vec_len out.old + device_reply_limit ≤ vec_capacity out.old }
        ensures taken { OnOk result (self.new ≡ open_device_after self.old frame.now) }
        ensures answered { OnOk result (out.new.items ≡ out.old.items
            ++ device_reply child self.old frame.now) }
        ensures unchanged { OnErr result ((self.new ≡ self.old) × (out.new.items ≡ out.old.items)) }
        ensures few { length out.new.items ≤ length out.old.items + device_reply_limit }
        ensures cause { OnErr result (SetsUpDevice frame.now
            ⊎ Rose (M.refusals memory.old) (M.refusals memory.new)) }
        ensures count { M.refusals memory.old ≤ M.refusals memory.new }
    {
        match frame {
            DeviceFrame::Offer { demand, .. } => self.offer(memory, child, demand, out),
            DeviceFrame::Leave => {
                self.leave(child, out);
                Ok(())
            }
            DeviceFrame::Parent(
                ParentFrame::Price {
                    number,
                    index,
                    step,
                    basis,
                    ..
                },
            ) => {
                let price = PriceUpdate {
                    step: u32::from(*step),
                    number: *number,
                    index: *index,
                };
                self.take_price_of(price, basis, out);
                Ok(())
            }
            DeviceFrame::Resume(stored) => self.come_back(alloc, memory, child, stored, out),
            DeviceFrame::Parent(ParentFrame::Old { kept, .. }) => {
                self.take_old(child, *kept, out);
                Ok(())
            }
            // Hello stands first and only there. A kind is for the reader of states.
            DeviceFrame::Hello { .. } | DeviceFrame::Kind(_) => Ok(()),
        }
    }

    /// Appends what the agent keeps over a restart.
    fn write_resume(&self, out: &mut Vec<u8>)
        requires room { vec_len out.old + device_frame_limit ≤ vec_capacity out.old }
        ensures written { out.new.items ≡ out.old.items
            ++ agent_resume_bytes (stored_agent self.now.basis self.now.agent) }
        ensures few { length out.new.items ≤ length out.old.items + device_frame_limit }
        ensures capacity { vec_capacity out.old ≤ vec_capacity out.new }
    {
        let resume = self.agent.resume();
        // The call tells a fact of the type: a bid has at most 1000 steps.
        let _steps = steps_if_some(resume.newest);
        write_agent_resume(&resume, &self.basis, out);
    }

    /// Makes an offer, and appends its Bid with what the agent keeps over a restart before it, or why there is none.
    fn offer<M: Memory>(
        &mut self,
        memory: &mut M,
        child: u16,
        demand: &ArrayBid,
        out: &mut Vec<u8>,
    ) -> Result<(), AllocError>
        requires small { AllWithinLimit demand_limit demand.now }
        requires room { vec_len out.old + device_reply_limit ≤ vec_capacity out.old }
        ensures offered { OnOk result
            (self.new ≡ with_held_agent self.old (after_asking self.old.agent demand.now)) }
        ensures answered { OnOk result (out.new.items ≡ out.old.items
            ++ device_bytes child self.old.basis (offer_outs self.old.basis.steps self.old.basis
            self.old.agent demand.now)) }
        ensures unchanged { OnErr result ((self.new ≡ self.old) × (out.new.items ≡ out.old.items)) }
        ensures few { length out.new.items ≤ length out.old.items + device_reply_limit }
        ensures cause { HasCause (M.refusals memory.old) (M.refusals memory.new) result }
    {
        let kept = copy_of(memory, demand)?;
        self.send_offer(child, kept, demand, out);
        Ok(())
    }

    /// Gives an offer the next number and keeps it, and appends what is answered. The offer is a copy of the demand.
    fn send_offer(&mut self, child: u16, kept: ArrayBid, demand: &ArrayBid, out: &mut Vec<u8>)
        requires copy { kept ≡ demand.now }
        requires small { AllWithinLimit demand_limit demand.now }
        requires steps { length demand.now ≤ most_steps }
        requires room { vec_len out.old + device_reply_limit ≤ vec_capacity out.old }
        ensures offered { self.new
            ≡ with_held_agent self.old (after_asking self.old.agent demand.now) }
        ensures answered { out.new.items ≡ out.old.items
            ++ device_bytes child self.old.basis (offer_outs self.old.basis.steps self.old.basis
            self.old.agent demand.now) }
        ensures few { length out.new.items ≤ length out.old.items + device_reply_limit }
    {
        match self.agent.offer(kept) {
            Ok(number) => {
                self.write_resume(out);
                write_bid(child, number, demand, out);
            }
            Err(OfferFault::WindowFull) => write_window_full(out),
            Err(OfferFault::OutOfNumbers) => write_out_of_numbers(out),
        }
    }

    /// Leaves the market, and appends the Gone with what the agent keeps over a restart before it, or that no number is left.
    fn leave(&mut self, child: u16, out: &mut Vec<u8>)
        requires room { vec_len out.old + device_reply_limit ≤ vec_capacity out.old }
        ensures left { self.new ≡ with_held_agent self.old (after_asking_to_leave self.old.agent) }
        ensures answered { out.new.items ≡ out.old.items
            ++ device_bytes child self.old.basis (leave_outs self.old.basis.steps self.old.basis
            self.old.agent) }
        ensures few { length out.new.items ≤ length out.old.items + device_reply_limit }
    {
        let Some(number) = self.agent.leave() else {
            write_out_of_numbers(out);
            return;
        };
        self.write_resume(out);
        write_gone(child, number, out);
    }

    /// Takes a price of the parent, unless it is of another basis, and appends what is answered.
    fn take_price_of(&mut self, price: PriceUpdate, basis: &NamedBasis, out: &mut Vec<u8>)
        requires step { price.step < 2 ^ 16 }
        requires room { vec_len out.old + device_reply_limit ≤ vec_capacity out.old }
        ensures taken { self.new ≡ with_held_agent self.old
            (after_price_of self.old.basis self.old.agent (message_of price) basis.now) }
        ensures answered { (child : ℕ) → out.new.items ≡ out.old.items
            ++ device_bytes child self.old.basis (price_outs_of self.old.basis self.old.agent
            (message_of price) basis.now) }
        ensures few { length out.new.items ≤ length out.old.items + device_reply_limit }
    {
        if basis.is(&self.basis) {
            self.take_price(price, out);
        } else {
            write_other_basis(price.number, price.index, out);
        }
    }

    /// Takes a price of the parent, and appends the setpoint with what the agent keeps over a restart after it, or that the
    /// price was dropped.
    fn take_price(&mut self, price: PriceUpdate, out: &mut Vec<u8>)
        requires step { price.step < 2 ^ 16 }
        requires room { vec_len out.old + device_reply_limit ≤ vec_capacity out.old }
        ensures taken { self.new
            ≡ with_held_agent self.old (after_price self.old.agent (message_of price)) }
        ensures answered { (child : ℕ) → out.new.items ≡ out.old.items
            ++ device_bytes child self.old.basis (told_outs self.old.basis
            (after_price self.old.agent (message_of price)) (message_of price)
            (setpoints_for self.old.agent (message_of price))) }
        ensures few { length out.new.items ≤ length out.old.items + device_reply_limit }
    {
        let Some(setpoint) = self.agent.take_price(price) else {
            write_dropped(price.number, price.index, out);
            return;
        };
        write_setpoint(setpoint, out);
        self.write_resume(out);
    }

    /// Takes it that the parent keeps this number of the device. Where the parent let the device go, its newest offer is made
    /// anew: appends the Bid with what the agent keeps over a restart before it.
    fn take_old(&mut self, child: u16, kept: u32, out: &mut Vec<u8>)
        requires room { vec_len out.old + device_reply_limit ≤ vec_capacity out.old }
        ensures taken { self.new ≡ with_held_agent self.old (after_old self.old.agent kept) }
        ensures answered { out.new.items ≡ out.old.items
            ++ device_bytes child self.old.basis (old_outs self.old.basis.steps self.old.basis
            self.old.agent (after_old self.old.agent kept)) }
        ensures few { length out.new.items ≤ length out.old.items + device_reply_limit }
    {
        if self.agent.take_old(kept).is_none() {
            return;
        }
        self.write_resume(out);
        self.send_newest(child, out);
    }

    /// Appends the newest Bid of the device again, or its Gone, unless it gave no number yet.
    fn send_newest(&self, child: u16, out: &mut Vec<u8>)
        requires room { vec_len out.old + frame_limit ≤ vec_capacity out.old }
        ensures written { out.new.items ≡ out.old.items
            ++ device_bytes child self.now.basis (again_outs self.now.basis.steps
            self.now.agent.number (newest_demand self.now.agent)) }
        ensures few { length out.new.items ≤ length out.old.items + frame_limit }
    {
        let resume = self.agent.resume();
        if let Some(demand) = resume.newest {
            // The call tells a fact of the type: a bid has at most 1000 steps.
            let _steps = demand.steps();
            write_bid(child, resume.number, demand, out);
        } else if resume.number != 0 {
            write_gone(child, resume.number, out);
        }
    }

    /// Comes back with what an agent gave before a restart, and appends its newest Bid or Gone again.
    fn come_back<M: Memory>(
        &mut self,
        alloc: Global,
        memory: &mut M,
        child: u16,
        stored: &StoredAgent,
        out: &mut Vec<u8>,
    ) -> Result<(), AllocError>
        requires small { IsSmall stored.now.newest }
        requires room { vec_len out.old + device_reply_limit ≤ vec_capacity out.old }
        ensures back { OnOk result (self.new ≡ with_held_agent self.old
            (agent_stored stored.now.number stored.now.newest stored.now.index)) }
        ensures answered { OnOk result (out.new.items ≡ out.old.items
            ++ device_bytes child self.old.basis (again_outs self.old.basis.steps stored.now.number
            stored.now.newest)) }
        ensures unchanged { OnErr result ((self.new ≡ self.old) × (out.new.items ≡ out.old.items)) }
        ensures few { length out.new.items ≤ length out.old.items + device_reply_limit }
        ensures count { M.refusals memory.old ≤ M.refusals memory.new }
    {
        let newest = copy_if_some(memory, stored.newest.as_ref())?;
        self.agent = ControlAgent::resumed(alloc, stored.number, newest, stored.index)?;
        send_again(child, stored, out);
        Ok(())
    }
}
