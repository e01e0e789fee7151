//! An auctioneer that may restart: it learns its children's bids, clears the market, and tells its newest price again.

ghost use Rattle.std.specs.Prelude.{◌≡◌, ◌⊎◌, ◌<◌, length, replicate, true, false, IfOk, IfErr, OnErr, IsTrue, ◌↔◌, MatchOption, None};
ghost use Rattle.std.specs.Option.{option_copied};
ghost use Rattle.pm_base.specs.Limits.{AreSteps, demand_limit, most_nodes};
ghost use Rattle.pm_bid.specs.Bids.{AllWithinLimit};
ghost use Rattle.pm_cache.specs.Cache.{kept_number, answer_to};
ghost use Rattle.pm_cache.specs.Learning.{demand_of_offer};
ghost use Rattle.pm_relay.specs.Roots.{RootComesBack, newest_index, with_root_bid, LooksForClearing};
ghost use Rattle.pm_relay.specs.Numbers.{IsCaughtUp, HearsNothingNewer, known_number, parents_number};
ghost use Rattle.pm_relay.specs.Roots.{RootCleared, NotCleared};

use crate::fault::RootFault;
use crate::numbers::{expiry_number, hears_nothing_newer, is_caught_up, note_numbers};
use pm_auctioneer::{Auctioneer, Cleared};
use pm_base::MOST_NODES;
use pm_bid::ArrayBid;
use pm_cache::CacheFault;
use pm_session::Prices;
use std::alloc::{AllocError, Global};
use std::marker::Model;

/// The root of a tree across machines, with places for 256 children, which count from 0.
///
/// Contracts see what its auctioneer learnt and cleared since it came up, by how much the root's indices are ahead of the
/// auctioneer's, and of each child the number in its newest clearing.
#[derive(Drop)]
pub struct Root {
    auctioneer: Auctioneer,
    base: u32,
    recorded: Vec<u32>,
}

impl Model for Root {
    ghost use Rattle.pm_relay.specs.Roots.{RootValue};

    ghost Value = { RootValue };

    ghost use Rattle.pm_relay.specs.RootFields.{root_of, AreRootFields};

    ghost view = { root_of };

    ghost invariant = { AreRootFields };
}

impl Root {
    /// A root to which nothing was sent. All its memory is taken here.
    pub fn new(alloc: Global, steps: usize) -> Result<Root, AllocError>
        requires steps { AreSteps steps }
        ensures new { IfOk result (λ r. RootComesBack steps 0 (replicate most_nodes 0) r) }
    {
        let numbers = [0; MOST_NODES];
        Root::resumed(alloc, steps, 0, &numbers)
    }

    /// A root that comes back after a restart with the index of its newest clearing and the children's numbers in it. It has
    /// heard nothing yet. All its memory is taken here.
    pub fn resumed(
        alloc: Global,
        steps: usize,
        last: u32,
        numbers: &[u32],
    ) -> Result<Root, AllocError>
        requires steps { AreSteps steps }
        requires numbers { length numbers.now ≡ most_nodes }
        ensures back { IfOk result (λ r. RootComesBack steps last numbers.now r) }
    {
        let auctioneer = Auctioneer::new(alloc, MOST_NODES, steps)?;
        let recorded = Vec::from_slice(alloc, numbers)?;
        Ok(Root {
            auctioneer,
            base: last,
            recorded,
        })
    }

    /// The index of the newest clearing, 0 where there is none. It is stored, with [`Root::numbers`], before a price of that
    /// clearing is sent.
    pub fn last(&self) -> u32
        ensures { result ≡ newest_index self.now }
    {
        self.base + self.auctioneer.index()
    }

    /// For each child the number that went into the newest clearing.
    pub fn numbers(&self) -> &[u32]
        ensures numbers { result.now ≡ self.now.recorded }
        ensures children { length result.now ≡ most_nodes }
    {
        &self.recorded
    }

    /// Learns a child's bid with its number; None is a bid that is gone. `Old` comes exactly where the number is at most the
    /// kept one. With the bid the root may have heard again the clearing that it lost in a restart, and has it then.
    pub fn learn(
        &mut self,
        child: usize,
        number: u32,
        demand: Option<&ArrayBid>,
    ) -> Result<(), CacheFault>
        requires child { child < most_nodes }
        requires steps { length (demand_of_offer self.old.auction.cache (option_copied demand))
            ≡ self.old.auction.cache.steps }
        requires small { AllWithinLimit demand_limit
            (demand_of_offer self.old.auction.cache (option_copied demand)) }
        ensures answer { result ≡ answer_to (kept_number self.old.auction.cache child) number }
        ensures learnt { LooksForClearing (with_root_bid self.old child number
            (option_copied demand.entry)) self.new }
        ensures steps { self.new.auction.cache.steps ≡ self.old.auction.cache.steps }
    {
        let answer = self.enter(child, number, demand);
        self.look_for_clearing();
        answer
    }

    /// Lets a child go that is a device: it counts as gone from now on, under the number that is the answer (see
    /// [`crate::Relay::expire`]).
    pub fn expire(&mut self, child: usize) -> u32
        requires child { child < most_nodes }
        ensures number { result ≡ parents_number (known_number self.old.recorded
            self.old.auction.cache.heads child) }
        ensures gone { LooksForClearing (with_root_bid self.old child result None) self.new }
        ensures steps { self.new.auction.cache.steps ≡ self.old.auction.cache.steps }
    {
        let number = expiry_number(&self.recorded, self.auctioneer.cache().heads(), child);
        let _old = self.learn(child, number, None);
        number
    }

    /// Enters a child's bid.
    fn enter(
        &mut self,
        child: usize,
        number: u32,
        demand: Option<&ArrayBid>,
    ) -> Result<(), CacheFault>
        requires child { child < most_nodes }
        requires steps { length (demand_of_offer self.old.auction.cache (option_copied demand))
            ≡ self.old.auction.cache.steps }
        requires small { AllWithinLimit demand_limit
            (demand_of_offer self.old.auction.cache (option_copied demand)) }
        ensures answer { result ≡ answer_to (kept_number self.old.auction.cache child) number }
        ensures entered { self.new ≡ with_root_bid self.old child number
            (option_copied demand.entry) }
    {
        // The call tells a fact of the type: the sum is that of the bids kept.
        let _heads = self.auctioneer.cache().heads();
        self.auctioneer.learn(child, number, demand)
    }

    /// Clears what was heard again under the newest index, where that clearing was lost and each child's number is the one in
    /// it.
    fn look_for_clearing(&mut self)
        ensures { LooksForClearing self.old self.new }
    {
        if self.base == 0 || self.auctioneer.index() > 0 {
            return;
        }
        if !self.is_caught_up() || !self.hears_nothing_newer() {
            return;
        }
        if self.auctioneer.next_clearing().is_err() {
            return;
        }
        self.base -= 1;
    }

    /// Whether the root heard of each child as much as its newest clearing had. This fails only after a restart.
    pub fn is_caught_up(&self) -> bool
        ensures { IsTrue result ↔ IsCaughtUp self.now.recorded self.now.auction.cache.heads }
    {
        is_caught_up(&self.recorded, self.auctioneer.cache().heads())
    }

    /// Whether the root heard of no child more than its newest clearing had.
    fn hears_nothing_newer(&self) -> bool
        ensures { IsTrue result
            ↔ HearsNothingNewer self.now.recorded self.now.auction.cache.heads }
    {
        hears_nothing_newer(&self.recorded, self.auctioneer.cache().heads())
    }

    /// Clears the market under the next index: the step is the clearing step of the children's sum. What goes to the children
    /// is [`Root::prices`]. A fault comes exactly for its cause, and nothing changes then.
    pub fn clear(&mut self) -> Result<Cleared, RootFault>
        ensures cleared { IfOk result (λ cleared. RootCleared self.old self.new cleared.index
            cleared.step) }
        ensures refused { IfErr result (λ fault. NotCleared self.old fault) }
        ensures unchanged { OnErr result (self.new ≡ self.old) }
    {
        if !self.is_caught_up() {
            return Err(RootFault::NotCaughtUp);
        }
        if !self.auctioneer.changed() {
            return Err(RootFault::NotChanged);
        }
        let last = self.last();
        if last == u32::MAX {
            return Err(RootFault::OutOfNumbers);
        }
        let Ok(cleared) = self.auctioneer.next_clearing() else {
            unreachable!()
        };
        note_numbers(self.auctioneer.cache().heads(), &mut self.recorded);
        Ok(Cleared {
            index: last + 1,
            step: cleared.step,
        })
    }

    /// The prices of the newest clearing, to send or to send again. None comes exactly where there is no clearing since the
    /// root came up, or something was learnt since.
    pub fn prices(&self) -> Option<Prices<'_>>
        ensures { MatchOption result
            ((self.now.auction.index ≡ 0) ⊎ (self.now.auction.changed ≡ true)) (λ prices.
            (0 < self.now.auction.index) × (self.now.auction.changed ≡ false)
            × (prices.heads.now ≡ self.now.auction.cache.heads)
            × (prices.step ≡ self.now.auction.step)
            × (prices.index ≡ newest_index self.now)) }
    {
        if self.auctioneer.index() == 0 || self.auctioneer.changed() {
            return None;
        }
        let prices = self.auctioneer.prices();
        Some(Prices {
            heads: prices.heads,
            step: prices.step,
            index: self.last(),
        })
    }
}
