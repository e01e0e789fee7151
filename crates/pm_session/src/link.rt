//! The link of a child to its parent, with at most one bid and one price waiting on it.

ghost use Rattle.std.specs.Prelude.{◌≡◌, ◌<◌, length, Some, None, IfOk, MatchOption, IsFalse, ◌↔◌};
ghost use Rattle.std.specs.Option.{option_copied};
ghost use Rattle.pm_base.specs.Limits.{AreSteps};
ghost use Rattle.pm_session.specs.Links.{UpBid, new_session, bid_offered, demand_offered, IsSession};
ghost use Rattle.pm_session.specs.Links.{BidOffered, BidTaken, PriceOffered, PriceTaken, NothingWaited, IsTaken};
ghost use Rattle.pm_session.specs.Ways.{Waits};

use crate::price::PriceUpdate;
use pm_bid::{ArrayBid, BidHead, uncounted};
use std::alloc::{AllocError, Global};
use std::marker::Model;
use std::mem;

/// The session between a child and its parent: the child offers bids, which the parent takes, and
/// the parent offers prices, which the child takes.
///
/// At most one bid and one price wait at a time: a newer one takes the place of an older one.
/// Contracts see for each way what waits and what was offered and taken last, of bids by their
/// numbers and of prices by their indices. A call on bids leaves the way of the prices as it was,
/// and a call on prices that of the bids.
#[derive(Drop)]
pub struct Link {
    bid: Option<BidHead>,
    demand: ArrayBid,
    bid_offered: u32,
    bid_taken: u32,
    price: Option<PriceUpdate>,
    price_offered: u32,
    price_taken: u32,
}

impl Model for Link {
    ghost use Rattle.pm_session.specs.Links.{Session, IsSession};

    ghost Value = { Session };

    ghost use Rattle.pm_session.specs.LinkFields.{session_of};

    ghost view = { session_of };

    ghost invariant = { λ inside. IsSession (session_of inside) };
}

impl Link {
    /// A link for bids of so many steps, on which nothing was offered. All memory of the link is
    /// taken here.
    pub fn new(alloc: Global, steps: usize) -> Result<Link, AllocError>
        requires { AreSteps steps }
        ensures new { IfOk result (λ link. link ≡ new_session steps) }
    {
        let demand = ArrayBid::zero(alloc, steps, &mut uncounted())?;
        Ok(Link {
            bid: None,
            demand,
            bid_offered: 0,
            bid_taken: 0,
            price: None,
            price_offered: 0,
            price_taken: 0,
        })
    }

    /// Offers a bid under a number that is above all offered before. None is a bid that is gone:
    /// the child is no member. The bid takes the place of one that still waits.
    pub fn offer_bid(&mut self, number: u32, demand: Option<&ArrayBid>) -> Result<(), AllocError>
        requires number { self.old.up.offered < number }
        requires steps { length (demand_offered self.old.steps (option_copied demand))
            ≡ self.old.steps }
        ensures ok { result ≡ Ok tt }
        ensures offered { BidOffered self.old self.new
            (bid_offered self.old.steps number (option_copied demand.entry)) }
    {
        let mut counter = uncounted();
        let gone = match demand {
            Some(bid) => {
                bid.copy_into(&mut self.demand, &mut counter);
                false
            }
            None => {
                self.demand.set_zero(&mut counter);
                true
            }
        };
        self.bid = Some(BidHead { number, gone });
        self.bid_offered = number;
        Ok(())
    }

    /// Offers a bid as [`Link::offer_bid`] does, and copies nothing: the link keeps the demand, and
    /// the caller has another bid of as many steps in its place. It is that of an older bid, if one
    /// still waited. Otherwise it is left open what it is.
    pub fn exchange_bid(&mut self, number: u32, demand: &mut ArrayBid)
        requires number { self.old.up.offered < number }
        requires steps { length demand.old ≡ self.old.steps }
        ensures offered { BidOffered self.old self.new
            (bid_offered self.old.steps number (Some demand.old)) }
        ensures older { (bid : UpBid) → Waits self.old.up bid → demand.new ≡ bid.demand }
        ensures same_length { length demand.new ≡ length demand.old }
    {
        mem::swap(&mut self.demand, demand);
        self.bid = Some(BidHead {
            number,
            gone: false,
        });
        self.bid_offered = number;
    }

    /// Takes the bid that waits: its head is the answer, and `into` becomes its demand, zeros if it
    /// is gone. None comes exactly if nothing waits; `into` stays as it was then.
    pub fn take_bid(&mut self, into: &mut ArrayBid) -> Option<BidHead>
        requires steps { length into.old ≡ self.old.steps }
        ensures taken { MatchOption result
            (NothingWaited self.old.up self.old self.new × into.new ≡ into.old) (λ head.
            BidTaken self.old self.new
            (record { number = head.number; gone = head.gone; demand = into.new })) }
        ensures same_length { length into.new ≡ length into.old }
    {
        match self.bid {
            None => None,
            Some(head) => {
                mem::swap(&mut self.demand, into);
                self.bid_taken = head.number;
                self.bid = None;
                Some(head)
            }
        }
    }

    /// Offers a price whose index is above all offered before. It takes the place of one that still
    /// waits.
    pub fn offer_price(&mut self, price: PriceUpdate) -> Result<(), AllocError>
        requires index { self.old.down.offered < price.index }
        ensures ok { result ≡ Ok tt }
        ensures offered { PriceOffered self.old self.new price }
    {
        self.price = Some(price);
        self.price_offered = price.index;
        Ok(())
    }

    /// Takes the price that waits. None comes exactly if nothing waits.
    pub fn take_price(&mut self) -> Option<PriceUpdate>
        ensures taken { MatchOption result (NothingWaited self.old.down self.old self.new)
            (λ price. PriceTaken self.old self.new price) }
    {
        let price = self.price?;
        self.price_taken = price.index;
        self.price = None;
        Some(price)
    }

    /// Whether a bid waits: false exactly if [`Link::take_bid`] would answer None.
    pub fn bids_waiting(&self) -> bool
        ensures waiting { IsFalse result ↔ (self.now.up.waiting ≡ None) }
        ensures sound { IsSession self.now }
    {
        self.bid.is_some()
    }

    /// Whether a price waits: false exactly if [`Link::take_price`] would answer None.
    pub fn prices_waiting(&self) -> bool
        ensures waiting { IsFalse result ↔ (self.now.down.waiting ≡ None) }
        ensures sound { IsSession self.now }
    {
        self.price.is_some()
    }

    /// Whether a bid or a price waits. Nothing waits exactly if the bid and the price offered last were taken.
    pub fn waits(&self) -> bool
        ensures none { IsFalse result ↔ IsTaken self.now }
    {
        self.bids_waiting() || self.prices_waiting()
    }
}
