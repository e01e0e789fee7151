//! An auctioneer after Hello, whatever its children may bid.

ghost use Rattle.std.specs.Prelude.{◌≡◌, ◌+◌, ◌≤◌, ◌++◌, length, replicate, vec_len, vec_capacity, IfOk, OnOk, OnErr};
ghost use Rattle.std.specs.Prelude.{Some, None, if◌then◌else◌, [], ◌∷◌};
ghost use Rattle.std.specs.Option.{option_copied};
ghost use Rattle.pm_base.specs.Limits.{AreSteps, demand_limit, most_nodes};
ghost use Rattle.pm_bid.specs.Bids.{AllWithinLimit};
ghost use Rattle.pm_cache.specs.Cache.{kept_number};
ghost use Rattle.pm_cache.specs.Learning.{demand_of_offer};
ghost use Rattle.pm_relay.specs.Roots.{RootComesBack, with_root_bid, LooksForClearing};
ghost use Rattle.pm_relay.specs.Numbers.{known_number, parents_number};
ghost use Rattle.pm_services.specs.Limits.{root_reply_limit, prices_limit};
ghost use Rattle.pm_services.specs.Receipts.{sender_place, receipt_bytes, Appended};
ghost use Rattle.pm_services.specs.Outputs.{Output};
ghost use Rattle.pm_services.specs.RootWrites.{WritesRootExpire, WritesRootBid, WritesClear, stored_root, not_cleared_reply, kept_prices_outs, root_bytes};
ghost use Rattle.pm_frames.specs.Stored.{root_resume_bytes, root_resume_size};

use pm_basis::Basis;
use pm_bid::ArrayBid;
use pm_cache::CacheFault;
use pm_frames::{
    StoredRoot, write_not_caught_up, write_out_of_numbers, write_prices, write_reply,
    write_root_resume,
};
use pm_relay::{Root, RootFault};
use pm_wire::Reply;
use std::alloc::{AllocError, Global};
use std::marker::Model;

/// An auctioneer, and how many steps the basis has.
///
/// Contracts see the auctioneer.
#[derive(Drop)]
pub(crate) struct HeldRoot {
    root: Root,
    steps: usize,
}

impl Model for HeldRoot {
    ghost use Rattle.pm_relay.specs.Roots.{RootValue};

    ghost Value = { RootValue };

    ghost use Rattle.pm_services.specs.HeldRootFields.{AreHeldRootFields};

    ghost view = { λ it. it.root };

    ghost invariant = { AreHeldRootFields };
}

/// Appends why the market is not cleared.
fn write_refusal(fault: RootFault, out: &mut Vec<u8>)
    requires room { vec_len out.old + 1 ≤ vec_capacity out.old }
    ensures written { out.new.items ≡ out.old.items ++ not_cleared_reply fault }
    ensures few { length out.new.items ≤ length out.old.items + 1 }
{
    match fault {
        RootFault::NotCaughtUp => write_not_caught_up(out),
        RootFault::NotChanged => write_reply(Reply::NotChanged, out),
        RootFault::OutOfNumbers => write_out_of_numbers(out),
    }
}

impl HeldRoot {
    /// An auctioneer over a basis of so many steps, to which nothing was sent.
    pub(crate) fn new(alloc: Global, steps: usize) -> Result<HeldRoot, AllocError>
        requires { AreSteps steps }
        ensures { IfOk result (λ root. RootComesBack steps 0 (replicate most_nodes 0) root) }
    {
        let root = Root::new(alloc, steps)?;
        Ok(HeldRoot { root, steps })
    }

    /// The auctioneer over the same basis that comes back with what one gave before a restart.
    pub(crate) fn resumed(&self, alloc: Global, stored: &StoredRoot) -> Result<HeldRoot, AllocError>
        requires { length stored.now.numbers ≡ most_nodes }
        ensures { IfOk result (λ root. RootComesBack self.now.auction.cache.steps stored.now.last
            stored.now.numbers root) }
    {
        let root = Root::resumed(alloc, self.steps, stored.last(), stored.numbers())?;
        Ok(HeldRoot {
            root,
            steps: self.steps,
        })
    }

    /// Takes a child's Bid, or its Gone where there is no demand, and appends its receipt. If the auctioneer has its newest
    /// clearing again with it, the prices of that clearing are appended again.
    pub(crate) fn take_bid(
        &mut self,
        basis: &Basis,
        sender: u16,
        number: u32,
        demand: Option<&ArrayBid>,
        out: &mut Vec<u8>,
    )
        requires first { 1 ≤ sender }
        requires last { sender ≤ most_nodes }
        requires steps { length (demand_of_offer self.old.auction.cache (option_copied demand))
            ≡ self.old.auction.cache.steps }
        requires small { AllWithinLimit demand_limit
            (demand_of_offer self.old.auction.cache (option_copied demand)) }
        requires room { vec_len out.old + (7 + prices_limit) ≤ vec_capacity out.old }
        ensures answered { Appended (root_bytes basis.now) (WritesRootBid self.old sender number
            (option_copied demand.entry) self.new) (7 + prices_limit) out.old.items out.new.items }
    {
        let had_prices = self.root.prices().is_some();
        self.learn(sender, number, demand, out);
        self.send_again(basis, had_prices, out);
    }

    /// Lets a child go. If the auctioneer has its newest clearing again with it, the prices of that clearing are appended again.
    pub(crate) fn take_expire(&mut self, basis: &Basis, sender: u16, out: &mut Vec<u8>)
        requires first { 1 ≤ sender }
        requires last { sender ≤ most_nodes }
        requires room { vec_len out.old + prices_limit ≤ vec_capacity out.old }
        ensures answered { Appended (root_bytes basis.now)
            (WritesRootExpire self.old sender self.new) prices_limit out.old.items
            out.new.items }
    {
        let had_prices = self.root.prices().is_some();
        self.expire(sender);
        self.send_again(basis, had_prices, out);
    }

    /// Lets a child go.
    fn expire(&mut self, sender: u16)
        requires first { 1 ≤ sender }
        requires last { sender ≤ most_nodes }
        ensures learnt { LooksForClearing (with_root_bid self.old (sender_place sender)
            (parents_number (known_number self.old.recorded self.old.auction.cache.heads
            (sender_place sender))) None) self.new }
    {
        let place = usize::from(sender) - 1;
        let _number = self.root.expire(place);
    }

    /// Learns a child's Bid, or its Gone where there is no demand, and appends its receipt.
    fn learn(&mut self, sender: u16, number: u32, demand: Option<&ArrayBid>, out: &mut Vec<u8>)
        requires first { 1 ≤ sender }
        requires last { sender ≤ most_nodes }
        requires steps { length (demand_of_offer self.old.auction.cache (option_copied demand))
            ≡ self.old.auction.cache.steps }
        requires small { AllWithinLimit demand_limit
            (demand_of_offer self.old.auction.cache (option_copied demand)) }
        requires room { vec_len out.old + 7 ≤ vec_capacity out.old }
        ensures learnt { LooksForClearing (with_root_bid self.old (sender_place sender) number
            (option_copied demand.entry)) self.new }
        ensures answered { out.new.items ≡ out.old.items ++ receipt_bytes
            (kept_number self.old.auction.cache (sender_place sender)) sender number }
        ensures few { length out.new.items ≤ length out.old.items + 7 }
        ensures capacity { vec_capacity out.old ≤ vec_capacity out.new }
    {
        let place = usize::from(sender) - 1;
        if let Err(CacheFault::Old { kept }) = self.root.learn(place, number, demand) {
            let receipt = Reply::Old {
                child: sender,
                kept,
            };
            write_reply(receipt, out);
        }
    }

    /// Appends the prices of the newest clearing, if the auctioneer has them and had not before.
    fn send_again(&self, basis: &Basis, had_prices: bool, out: &mut Vec<u8>)
        requires room { vec_len out.old + prices_limit ≤ vec_capacity out.old }
        ensures written { out.new.items ≡ out.old.items
            ++ root_bytes basis.now (if had_prices then [] else kept_prices_outs self.now) }
        ensures few { length out.new.items ≤ length out.old.items + prices_limit }
    {
        if !had_prices {
            self.write_prices(basis, out);
        }
    }

    /// Appends the prices of the newest clearing, if the auctioneer has them.
    fn write_prices(&self, basis: &Basis, out: &mut Vec<u8>)
        requires room { vec_len out.old + prices_limit ≤ vec_capacity out.old }
        ensures written { out.new.items ≡ out.old.items
            ++ root_bytes basis.now (kept_prices_outs self.now) }
        ensures few { length out.new.items ≤ length out.old.items + prices_limit }
    {
        if let Some(clearing) = self.root.prices() {
            write_prices(&clearing, basis, out);
        }
    }

    /// Clears the market, and appends the prices with what the auctioneer keeps over a restart before them, or why the market is
    /// not cleared.
    pub(crate) fn clear(&mut self, basis: &Basis, out: &mut Vec<u8>)
        requires room { vec_len out.old + root_reply_limit ≤ vec_capacity out.old }
        ensures answered { Appended (root_bytes basis.now) (WritesClear basis.now self.old self.new)
            root_reply_limit out.old.items out.new.items }
    {
        match self.root.clear() {
            Ok(_cleared) => self.write_cleared(basis, out),
            Err(fault) => write_refusal(fault, out),
        }
    }

    /// Appends what the auctioneer keeps over a restart, and after it the prices of its newest clearing, if it has them.
    fn write_cleared(&self, basis: &Basis, out: &mut Vec<u8>)
        requires room { vec_len out.old + (root_resume_size + prices_limit) ≤ vec_capacity out.old }
        ensures written { out.new.items ≡ out.old.items
            ++ root_bytes basis.now (Output.Keeps (stored_root basis.now self.now)
            ∷ kept_prices_outs self.now) }
        ensures few { length out.new.items
            ≤ length out.old.items + (root_resume_size + prices_limit) }
    {
        self.write_resume(basis, out);
        self.write_prices(basis, out);
    }

    /// Appends what the auctioneer keeps over a restart.
    fn write_resume(&self, basis: &Basis, out: &mut Vec<u8>)
        requires room { vec_len out.old + root_resume_size ≤ vec_capacity out.old }
        ensures written { out.new.items ≡ out.old.items
            ++ root_resume_bytes (stored_root basis.now self.now) }
        ensures size { vec_len out.new ≡ vec_len out.old + root_resume_size }
        ensures capacity { vec_capacity out.old ≤ vec_capacity out.new }
    {
        write_root_resume(self.root.last(), basis, self.root.numbers(), out);
    }
}
