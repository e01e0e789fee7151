//! A device's agent: it numbers the offers of the device's control, and turns prices into setpoints.

ghost use Rattle.std.specs.Prelude.{◌≡◌, ℕ, ◌+◌, ◌<◌, true, IfOk, IfErr, OnErr, MatchOption, vec_capacity};
ghost use Rattle.std.specs.Option.{option_copied};
ghost use Rattle.pm_net.specs.Agents.{DeviceAgent, new_agent, may_offer, after_offer, after_leaving, setpoints_for, after_price};
ghost use Rattle.pm_net.specs.Agents.{after_coming_back, kept_offer, offers_from};
ghost use Rattle.pm_net.specs.Devices.{IsOfferWindow};
ghost use Rattle.pm_control.specs.Control.{HasNumber, HasNumbers, NotOffered, message_of, told_setpoints, newest_demand, agent_stored, after_old};

use crate::fault::OfferFault;
use crate::offer::Offer;
use crate::resume::AgentResume;
use crate::setpoint::Setpoint;
use pm_base::WINDOW_SIZE;
use pm_bid::ArrayBid;
use pm_session::PriceUpdate;
use std::alloc::{AllocError, Global};
use std::marker::Model;

/// How many offers are kept: the one answered last, and each that may be unanswered.
const PLACES: usize = WINDOW_SIZE as usize + 1;

/// The agent of a device.
///
/// It gives every second number. The number after each is its parent's: under it the parent counts the device as gone.
///
/// Contracts see the number given last, the number answered last, the offers that are kept, and the index of the last price.
#[derive(Drop)]
pub struct ControlAgent {
    number: u32,
    answered: u32,
    offers: Vec<Offer>,
    index: u32,
}

impl Model for ControlAgent {
    ghost use Rattle.pm_net.specs.Agents.{DeviceAgent};

    ghost Value = { DeviceAgent };

    ghost use Rattle.pm_control.specs.AgentFields.{agent_of, AreAgentFields};

    ghost view = { agent_of };

    ghost invariant = { AreAgentFields };
}

/// Lets go of the offers below a number.
fn drop_offers(offers: &mut Vec<Offer>, number: u32)
    ensures offers { offers.new.items ≡ offers_from number offers.old.items }
    ensures capacity { vec_capacity offers.new ≡ vec_capacity offers.old }
{
    offers.retain(|offer| number <= offer.number());
}

impl ControlAgent {
    /// An agent whose control made no offer. The memory for its list of offers is taken here.
    pub fn new(alloc: Global) -> Result<ControlAgent, AllocError>
        ensures new { IfOk result (λ agent. agent ≡ new_agent) }
    {
        ControlAgent::resumed(alloc, 0, None, 0)
    }

    /// An agent that comes back after a restart with what it gave before (see [`ControlAgent::resume`]).
    pub fn resumed(
        alloc: Global,
        number: u32,
        newest: Option<ArrayBid>,
        index: u32,
    ) -> Result<ControlAgent, AllocError>
        ensures back { IfOk result (λ agent. agent ≡ agent_stored number newest index) }
    {
        let mut offers = Vec::with_capacity(alloc, PLACES)?;
        if let Some(demand) = newest {
            offers.push(Offer::new(number, demand))?;
        }
        Ok(ControlAgent {
            number,
            answered: number,
            offers,
            index,
        })
    }

    /// What the agent comes back with if it restarts now.
    pub fn resume(&self) -> AgentResume<'_>
        ensures number { result.number ≡ self.now.number }
        ensures newest { option_copied result.newest ≡ newest_demand self.now }
        ensures index { result.index ≡ self.now.index }
    {
        AgentResume {
            number: self.number,
            newest: self.kept(self.number).map(Offer::demand),
            index: self.index,
        }
    }

    /// Keeps an offer of this demand under the second number after the last, which is the answer. A fault comes exactly for its
    /// cause, and nothing changes then.
    pub fn offer(&mut self, demand: ArrayBid) -> Result<u32, OfferFault>
        ensures may { IfOk result (λ _. (may_offer self.old ≡ true) × HasNumbers self.old) }
        ensures number { IfOk result (λ number. number ≡ self.old.number + 2) }
        ensures offered { IfOk result (λ _. self.new ≡ after_offer self.old demand) }
        ensures refused { IfErr result (λ fault. NotOffered self.old fault) }
        ensures unchanged { OnErr result (self.new ≡ self.old) }
    {
        if self.number - self.answered >= 2 * WINDOW_SIZE {
            return Err(OfferFault::WindowFull);
        }
        if self.number >= u32::MAX - 4 {
            return Err(OfferFault::OutOfNumbers);
        }
        let number = self.number + 2;
        let Ok(()) = self.offers.push(Offer::new(number, demand)) else {
            unreachable!()
        };
        self.number = number;
        Ok(number)
    }

    /// Leaves under the second number after the last, which is the answer. No offer before it counts any more. None comes exactly
    /// if no such number is left with one for the parent after it. No offer takes the last one, so a device can always leave once.
    pub fn leave(&mut self) -> Option<u32>
        ensures answer { MatchOption result (HasNumber self.old → ⊥)
            (λ number. HasNumber self.old × (number ≡ self.old.number + 2)) }
        ensures left { MatchOption result (self.new ≡ self.old)
            (λ _. self.new ≡ after_leaving self.old) }
    {
        if self.number >= u32::MAX - 2 {
            return None;
        }
        self.number += 2;
        self.answered = self.number;
        self.offers.clear();
        Some(self.number)
    }

    /// Hears that the parent keeps this number of the device. If it is above the last one that the agent gave, the parent let the
    /// device go. Then the agent leaves without sending that, and makes its newest offer anew, whose number is the answer. None
    /// comes if the number is not above the last one, if the device offers nothing, or if no numbers are left; nothing changes
    /// then.
    pub fn take_old(&mut self, kept: u32) -> Option<u32>
        ensures after { self.new ≡ after_old self.old kept }
        ensures answer { MatchOption result (self.new ≡ self.old)
            (λ number. (number ≡ self.new.number) × (number ≡ self.old.number + 4)) }
    {
        if kept <= self.number || self.number > u32::MAX - 7 {
            return None;
        }
        let offers = &mut self.offers;
        let newest = offers.pop()?;
        offers.clear();
        let number = self.number + 4;
        let Ok(()) = offers.push(newest.renumbered(number)) else {
            unreachable!()
        };
        self.answered = self.number + 2;
        self.number = number;
        Some(number)
    }

    /// Takes a price of the parent. A setpoint comes exactly where the price's index is above the last and the offer that it
    /// names is kept.
    pub fn take_price(&mut self, price: PriceUpdate) -> Option<Setpoint>
        ensures setpoint { told_setpoints result ≡ setpoints_for self.old (message_of price) }
        ensures after { self.new ≡ after_price self.old (message_of price) }
    {
        if price.index <= self.index {
            return None;
        }
        self.index = price.index;
        let power = self.kept(price.number)?.power(price.step);
        self.answered = price.number;
        drop_offers(&mut self.offers, price.number);
        Some(Setpoint {
            number: price.number,
            index: price.index,
            step: price.step,
            power,
        })
    }

    /// The offer that is kept under a number.
    fn kept(&self, number: u32) -> Option<&Offer>
        ensures { option_copied result ≡ kept_offer self.now number }
    {
        self.offers.iter().find(|offer| offer.number() == number)
    }
}

/// A law: an agent that comes back with what an agent gave is that agent after a restart in the network.
pub fn agents_come_back()
    ensures { (agent : DeviceAgent) (index : ℕ) → IsOfferWindow agent →
        agent_stored agent.number (newest_demand agent) index ≡ after_coming_back agent index }
{}
