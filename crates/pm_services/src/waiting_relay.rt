//! A relay with the price that waits until the relay has its record again.

ghost use Rattle.std.specs.Prelude.{◌≡◌, ◌+◌, ◌≤◌, ◌<◌, ◌++◌, [], length, replicate, vec_len, vec_capacity, IfOk};
ghost use Rattle.std.specs.Prelude.{OnOk, OnErr, Some, None};
ghost use Rattle.std.specs.Prelude.{if◌then◌else◌};
ghost use Rattle.std.specs.Option.{option_copied};
ghost use Rattle.pm_base.specs.Limits.{AreSteps, demand_limit, most_nodes};
ghost use Rattle.pm_bid.specs.Bids.{AllWithinLimit};
ghost use Rattle.pm_cache.specs.Cache.{kept_number};
ghost use Rattle.pm_cache.specs.Learning.{demand_of_offer};
ghost use Rattle.pm_relay.specs.Relays.{AreRelayLimits, with_child_bid, with_new_limits, LooksForRecord};
ghost use Rattle.pm_frames.specs.Stored.{relay_resume_size};
ghost use Rattle.pm_services.specs.Limits.{relay_reply_limit, price_reply_limit, own_bid_limit};
ghost use Rattle.pm_services.specs.Receipts.{Appended, sender_place, receipt_bytes};
ghost use Rattle.pm_relay.specs.Numbers.{known_number, parents_number};
ghost use Rattle.pm_services.specs.RelayWrites.{WritesPrice, WritesExpire, WritesLimits, WritesBid, WritesAsked, WritesSend, Opens};
ghost use Rattle.pm_services.specs.RelayWrites.{WritesWaiting, relay_bytes, kept_bid_outs, dropped_with, waiting_with};

use crate::relay_bytes::{write_down, write_own_bid, write_resume, write_sent};
use crate::setup::RelaySetup;
use pm_base::Limits;
use pm_bid::ArrayBid;
use pm_cache::CacheFault;
use pm_frames::{
    StoredRelay, write_dropped, write_not_caught_up, write_out_of_numbers, write_reply,
    write_window_full,
};
use pm_relay::{PriceOutcome, Relay, SendFault};
use pm_session::PriceUpdate;
use pm_wire::Reply;
use std::alloc::{AllocError, Global};
use std::marker::Model;

/// A relay, and the price that waits.
///
/// Contracts see these.
#[derive(Drop)]
pub(crate) struct WaitingRelay {
    relay: Relay,
    waiting: Option<PriceUpdate>,
}

impl Model for WaitingRelay {
    ghost use Rattle.pm_services.specs.RelayWrites.{WaitingRelay};

    ghost Value = { WaitingRelay };

    ghost use Rattle.pm_services.specs.WaitingRelayFields.{waiting_relay_of, AreWaitingRelayFields};

    ghost view = { waiting_relay_of };

    ghost invariant = { AreWaitingRelayFields };
}

/// The price that a frame of the parent tells.
fn price_update(number: u32, index: u32, step: u16) -> PriceUpdate
    ensures { result ≡ record { step = step; number = number; index = index } }
{
    PriceUpdate {
        step: u32::from(step),
        number,
        index,
    }
}

impl WaitingRelay {
    /// A relay to which nothing was sent, over a basis of so many steps.
    pub(crate) fn new(
        alloc: Global,
        steps: usize,
        limits: Limits,
    ) -> Result<WaitingRelay, AllocError>
        requires steps { AreSteps steps }
        requires limits { AreRelayLimits limits }
        ensures opens { IfOk result (λ r.
            Opens limits steps 0 0 0 (replicate most_nodes 0) limits r) }
    {
        let relay = Relay::new(alloc, steps, limits)?;
        Ok(WaitingRelay {
            relay,
            waiting: None,
        })
    }

    /// The relay of this setup that comes back with what it gave before.
    pub(crate) fn resumed(
        alloc: Global,
        own: &RelaySetup,
        stored: &StoredRelay,
    ) -> Result<WaitingRelay, AllocError>
        requires children { length stored.now.numbers ≡ most_nodes }
        requires answered { stored.now.answered ≤ stored.now.last }
        requires under { AreRelayLimits stored.now.limits }
        ensures opens { IfOk result (λ r. Opens own.now.terms.limits own.now.basis.steps
            stored.now.last stored.now.answered stored.now.index stored.now.numbers
            stored.now.limits r) }
    {
        let relay = Relay::resumed(alloc, own.basis.steps(), own.terms.limits, &stored.resume())?;
        Ok(WaitingRelay {
            relay,
            waiting: None,
        })
    }

    /// Takes a Bid of a child, or its Gone where there is no demand, and appends what is answered: its receipt, the relay's own
    /// bid where it has its record again, and what is due for the price that waits.
    pub(crate) fn take_bid(
        &mut self,
        own: &RelaySetup,
        sender: u16,
        number: u32,
        demand: Option<&ArrayBid>,
        out: &mut Vec<u8>,
    )
        requires first { 1 ≤ sender }
        requires last { sender ≤ most_nodes }
        requires steps { length (demand_of_offer self.old.relay.gathered.cache
            (option_copied demand)) ≡ self.old.relay.gathered.cache.steps }
        requires small { AllWithinLimit demand_limit
            (demand_of_offer self.old.relay.gathered.cache (option_copied demand)) }
        requires room { vec_len out.old + relay_reply_limit ≤ vec_capacity out.old }
        ensures answered { Appended (relay_bytes own.now) (WritesBid own.now self.old sender number
            (option_copied demand.entry) self.new) relay_reply_limit out.old.items out.new.items }
    {
        let had_record = self.relay.resend().is_some();
        self.learn(sender, number, demand, out);
        self.send_again(own, had_record, out);
        self.try_waiting(own, out);
    }

    /// Takes limits that are given in the place of a child, and appends what is answered: their receipt, the relay's own bid where
    /// it has its record again, and what is due for the price that waits.
    pub(crate) fn take_limits(
        &mut self,
        own: &RelaySetup,
        sender: u16,
        number: u32,
        limits: Limits,
        out: &mut Vec<u8>,
    )
        requires first { 1 ≤ sender }
        requires last { sender ≤ most_nodes }
        requires limits { AreRelayLimits limits }
        requires room { vec_len out.old + relay_reply_limit ≤ vec_capacity out.old }
        ensures answered { Appended (relay_bytes own.now)
            (WritesLimits own.now self.old sender number limits self.new) relay_reply_limit
            out.old.items out.new.items }
    {
        let had_record = self.relay.resend().is_some();
        self.learn_limits(sender, number, limits, out);
        self.send_again(own, had_record, out);
        self.try_waiting(own, out);
    }

    /// Learns limits, and appends their receipt.
    fn learn_limits(&mut self, sender: u16, number: u32, limits: Limits, out: &mut Vec<u8>)
        requires first { 1 ≤ sender }
        requires last { sender ≤ most_nodes }
        requires limits { AreRelayLimits limits }
        requires room { vec_len out.old + 7 ≤ vec_capacity out.old }
        ensures learnt { LooksForRecord (with_new_limits self.old.relay (sender_place sender) number
            limits) self.new.relay }
        ensures waits { self.new.waiting ≡ self.old.waiting }
        ensures written { out.new.items ≡ out.old.items ++ receipt_bytes
            (kept_number self.old.relay.gathered.cache (sender_place sender)) sender number }
        ensures few { vec_len out.new ≤ vec_len out.old + 7 }
        ensures capacity { vec_capacity out.old ≤ vec_capacity out.new }
    {
        let place = usize::from(sender) - 1;
        if let Err(CacheFault::Old { kept }) = self.relay.set_limits(place, number, limits) {
            let receipt = Reply::Old {
                child: sender,
                kept,
            };
            write_reply(receipt, out);
        }
    }

    /// Lets a child go, and appends what is answered: the relay's own bid where it has its record again, and what is due for the
    /// price that waits.
    pub(crate) fn take_expire(&mut self, own: &RelaySetup, sender: u16, out: &mut Vec<u8>)
        requires first { 1 ≤ sender }
        requires last { sender ≤ most_nodes }
        requires room { vec_len out.old + relay_reply_limit ≤ vec_capacity out.old }
        ensures answered { Appended (relay_bytes own.now) (WritesExpire own.now self.old sender
            self.new) relay_reply_limit out.old.items out.new.items }
    {
        let had_record = self.relay.resend().is_some();
        self.expire(sender);
        self.send_again(own, had_record, out);
        self.try_waiting(own, out);
    }

    /// Lets a child go.
    fn expire(&mut self, sender: u16)
        requires first { 1 ≤ sender }
        requires last { sender ≤ most_nodes }
        ensures learnt { LooksForRecord (with_child_bid self.old.relay (sender_place sender)
            (parents_number (known_number self.old.relay.recorded
            self.old.relay.gathered.cache.heads (sender_place sender))) None) self.new.relay }
        ensures waits { self.new.waiting ≡ self.old.waiting }
    {
        let place = usize::from(sender) - 1;
        let _number = self.relay.expire(place);
    }

    /// Learns a child's Bid or Gone, and appends its receipt.
    fn learn(&mut self, sender: u16, number: u32, demand: Option<&ArrayBid>, out: &mut Vec<u8>)
        requires first { 1 ≤ sender }
        requires last { sender ≤ most_nodes }
        requires steps { length (demand_of_offer self.old.relay.gathered.cache
            (option_copied demand)) ≡ self.old.relay.gathered.cache.steps }
        requires small { AllWithinLimit demand_limit
            (demand_of_offer self.old.relay.gathered.cache (option_copied demand)) }
        requires room { vec_len out.old + 7 ≤ vec_capacity out.old }
        ensures learnt { LooksForRecord (with_child_bid self.old.relay (sender_place sender) number
            (option_copied demand.entry)) self.new.relay }
        ensures waits { self.new.waiting ≡ self.old.waiting }
        ensures written { out.new.items ≡ out.old.items ++ receipt_bytes
            (kept_number self.old.relay.gathered.cache (sender_place sender)) sender number }
        ensures few { vec_len out.new ≤ vec_len out.old + 7 }
        ensures capacity { vec_capacity out.old ≤ vec_capacity out.new }
    {
        let place = usize::from(sender) - 1;
        if let Err(CacheFault::Old { kept }) = self.relay.learn(place, number, demand) {
            let receipt = Reply::Old {
                child: sender,
                kept,
            };
            write_reply(receipt, out);
        }
    }

    /// Appends the relay's newest bid, if the relay has the record of it and had not before.
    fn send_again(&self, own: &RelaySetup, had_record: bool, out: &mut Vec<u8>)
        requires room { vec_len out.old + own_bid_limit ≤ vec_capacity out.old }
        ensures written { out.new.items ≡ out.old.items
            ++ relay_bytes own.now (if had_record then [] else kept_bid_outs self.now.relay) }
        ensures few { vec_len out.new ≤ vec_len out.old + own_bid_limit }
        ensures capacity { vec_capacity out.old ≤ vec_capacity out.new }
    {
        if !had_record && self.relay.resend().is_some() {
            write_own_bid(&self.relay, own, out);
        }
    }

    /// Sends the relay's bid, or appends why there is none, and then tries the price that waits again.
    pub(crate) fn send(&mut self, own: &RelaySetup, out: &mut Vec<u8>)
        requires room { vec_len out.old + relay_reply_limit ≤ vec_capacity out.old }
        ensures answered { Appended (relay_bytes own.now) (WritesSend own.now self.old self.new)
            relay_reply_limit out.old.items out.new.items }
    {
        self.send_bid(own, out);
        self.try_waiting(own, out);
    }

    /// Sends the relay's bid, and appends it with what the relay keeps over a restart before it, or why there is none.
    fn send_bid(&mut self, own: &RelaySetup, out: &mut Vec<u8>)
        requires room { vec_len out.old + (relay_resume_size + own_bid_limit)
            ≤ vec_capacity out.old }
        ensures answered { Appended (relay_bytes own.now) (WritesAsked own.now self.old.relay
            self.new.relay) (relay_resume_size + own_bid_limit) out.old.items out.new.items }
        ensures waits { self.new.waiting ≡ self.old.waiting }
        ensures few { vec_len out.new ≤ vec_len out.old + (relay_resume_size + own_bid_limit) }
        ensures capacity { vec_capacity out.old ≤ vec_capacity out.new }
    {
        match self.relay.send() {
            Ok(_number) => write_sent(&self.relay, own, out),
            Err(SendFault::NotCaughtUp) => write_not_caught_up(out),
            Err(SendFault::NotChanged) => write_reply(Reply::NotChanged, out),
            Err(SendFault::WindowFull) => write_window_full(out),
            Err(SendFault::OutOfNumbers) => write_out_of_numbers(out),
        }
    }

    /// Takes a price of the parent, and appends the prices for the children with what the relay keeps over a restart after them,
    /// or that the price was dropped. A price whose record the relay may have again waits.
    pub(crate) fn take_price(&mut self, own: &RelaySetup, price: PriceUpdate, out: &mut Vec<u8>)
        requires step { price.step < self.old.relay.gathered.cache.steps }
        requires room { vec_len out.old + price_reply_limit ≤ vec_capacity out.old }
        ensures answered { Appended (relay_bytes own.now)
            (WritesPrice own.now self.old price self.new) price_reply_limit out.old.items
            out.new.items }
    {
        match self.relay.take_price(price) {
            PriceOutcome::PassedOn => {
                write_down(&self.relay, own, price, out);
                write_resume(&self.relay, own, out);
            }
            PriceOutcome::Alone => write_resume(&self.relay, own, out),
            PriceOutcome::Waits => self.wait_with(price, out),
            PriceOutcome::Dropped => write_dropped(price.number, price.index, out),
        }
    }

    /// Keeps the price, or the one that waits already: the one with the greater index, and of two with one index the first. Appends
    /// that the other was dropped.
    fn wait_with(&mut self, price: PriceUpdate, out: &mut Vec<u8>)
        requires step { price.step < self.old.relay.gathered.cache.steps }
        requires room { vec_len out.old + 9 ≤ vec_capacity out.old }
        ensures waits { self.new.waiting ≡ waiting_with self.old.waiting price }
        ensures relay { self.new.relay ≡ self.old.relay }
        ensures written { out.new.items ≡ out.old.items ++ dropped_with self.old.waiting price }
        ensures capacity { vec_capacity out.old ≤ vec_capacity out.new }
    {
        let Some(first) = self.waiting else {
            self.waiting = Some(price);
            return;
        };
        if first.index < price.index {
            self.waiting = Some(price);
            write_dropped(first.number, first.index, out);
        } else {
            write_dropped(price.number, price.index, out);
        }
    }

    /// Takes the price that waits, if there is one, as if it came now.
    fn try_waiting(&mut self, own: &RelaySetup, out: &mut Vec<u8>)
        requires room { vec_len out.old + price_reply_limit ≤ vec_capacity out.old }
        ensures answered { Appended (relay_bytes own.now) (WritesWaiting own.now self.old.waiting
            self.old.relay self.new) price_reply_limit out.old.items out.new.items }
    {
        if let Some(price) = self.waiting {
            self.waiting = None;
            self.take_price(own, price, out);
        }
    }
}
