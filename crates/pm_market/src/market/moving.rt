//! Makes the moves of the market of cuts on its lists.

use super::Market;
use crate::moves::Move;
use crate::rows::{empty_rows, item_at, marked_parents, push_at};
use std::alloc::{AllocError, Global};

/// Making moves.
impl Market {
    ghost use Rattle.std.specs.Prelude.{◌≡◌, ◌≢◌, ◌≤◌, ℕ, true, vec_len, IfOk, OnOk, OnErr};
    ghost use Rattle.pm_market.specs.Lists.{nodes, parent, IsNode};
    ghost use Rattle.pm_market.specs.State.{start, knowledge, update, clearings};
    ghost use Rattle.pm_market.specs.Moves.{step};
    ghost use Rattle.pm_market.specs.Legality.{is_legal};
    ghost use Rattle.pm_market.specs.Market.{Publishes, Passes, market_lists, market_state};
    ghost use Rattle.pm_base.specs.Cuts.{cut_of};
    ghost use Rattle.pm_base.specs.Rows.{rows_of};

    /// A market at its start, over these lists: the parent of each node, and which nodes are devices. For each node they
    /// say whether it is a member after each change, and for each phase how many changes each node has made at its end.
    pub fn new(
        alloc: Global,
        parents: Vec<u32>,
        leaves: Vec<bool>,
        members: Vec<Vec<bool>>,
        ends: Vec<Vec<u32>>,
    ) -> Result<Market, AllocError>
        requires { vec_len leaves ≡ vec_len parents }
        ensures lists { IfOk result (λ market. market_lists market ≡ record {
          parents = parents.items;
          leaves = leaves.items;
          members = rows_of members.items;
          ends = rows_of ends.items;
        }) }
        ensures start { IfOk result (λ market. market_state market ≡ start) }
    {
        let places = parents.len() + 1;
        Ok(Market {
            counts: vec![in alloc; 0; places]?,
            published: empty_rows(alloc, places)?,
            learnt: vec![in alloc; 0; places]?,
            passed: empty_rows(alloc, places)?,
            due: vec![in alloc; 0; places]?,
            has_child: marked_parents(alloc, &parents, places)?,
            closed: 0,
            alloc,
            parents,
            leaves,
            members,
            ends,
        })
    }

    /// What a node knows, a number for each node from the auctioneer's on.
    fn known_row(&self, node: usize) -> Result<Vec<u32>, AllocError>
        ensures { IfOk result (λ row. cut_of row.items
            ≡ knowledge (market_lists self.now) (market_state self.now) node) }
    {
        let mut row = Vec::with_capacity(self.alloc, self.counts.len())?;
        for device in 0..self.counts.len() {
            row.push(self.known_number(node, device))?;
        }
        Ok(row)
    }

    /// A device has so many changes.
    fn count(&mut self, device: usize, number: u32)
        requires { device ≤ nodes (market_lists self.old) }
        ensures lists { market_lists self.new ≡ market_lists self.old }
        ensures state { market_state self.new ≡ record (market_state self.old)
            { counts = update (market_state self.old).counts device number } }
    {
        self.counts[device] = number;
    }

    /// The parent of a node learnt a number of it.
    fn learn(&mut self, child: usize, number: u32)
        requires { IsNode (market_lists self.old) child }
        ensures lists { market_lists self.new ≡ market_lists self.old }
        ensures state { market_state self.new ≡ record (market_state self.old)
            { learnt = update (market_state self.old).learnt child number } }
    {
        self.learnt[child] = number;
    }

    /// What a concentrator knows joins the cuts that it published.
    fn publish(&mut self, node: usize) -> Result<(), AllocError>
        requires { IsNode (market_lists self.old) node }
        ensures lists { market_lists self.new ≡ market_lists self.old }
        ensures ok { OnOk result (Publishes (market_lists self.old) (market_state self.old)
            (market_state self.new) node) }
        ensures err { OnErr result (market_state self.new ≡ market_state self.old) }
    {
        let row = self.known_row(node)?;
        push_at(&mut self.published, node, row)
    }

    /// What the auctioneer knows joins the cuts that it cleared, and is due to its children that it addresses.
    fn clear(&mut self) -> Result<(), AllocError>
        ensures lists { market_lists self.new ≡ market_lists self.old }
        ensures ok { OnOk result (Publishes (market_lists self.old) (market_state self.old)
            (market_state self.new) 0) }
        ensures err { OnErr result (market_state self.new ≡ market_state self.old) }
    {
        let row = self.known_row(0)?;
        let due = self.due_row(0, self.next_index(), &row)?;
        push_at(&mut self.published, 0, row)?;
        self.due = due;
        Ok(())
    }

    /// A clearing was passed to a node without children.
    fn pass_to_last(&mut self, node: usize, index: usize) -> Result<(), AllocError>
        requires node { node ≤ nodes (market_lists self.old) }
        requires made { index ≤ clearings (market_state self.old) }
        requires childless { (x : ℕ) → IsNode (market_lists self.old) x →
            parent (market_lists self.old) x ≢ node }
        ensures lists { market_lists self.new ≡ market_lists self.old }
        ensures ok { OnOk result (Passes (market_state self.old)
            (market_state self.new) node index) }
        ensures err { OnErr result (market_state self.new ≡ market_state self.old) }
    {
        push_at(&mut self.passed, node, index)
    }

    /// A clearing was passed to a node, and is due to its children that it addresses.
    fn pass(&mut self, node: usize, index: usize) -> Result<(), AllocError>
        requires node { node ≤ nodes (market_lists self.old) }
        requires made { index ≤ clearings (market_state self.old) }
        ensures lists { market_lists self.new ≡ market_lists self.old }
        ensures ok { OnOk result (Passes (market_state self.old)
            (market_state self.new) node index) }
        ensures err { OnErr result (market_state self.new ≡ market_state self.old) }
    {
        if !item_at(&self.has_child, node, true) {
            return self.pass_to_last(node, index);
        }
        let due = self.due_row(node, index, self.cut_row(0, index))?;
        push_at(&mut self.passed, node, index)?;
        self.due = due;
        Ok(())
    }

    /// Makes a legal move. On an error all is as before.
    pub fn apply(&mut self, what: Move) -> Result<(), AllocError>
        requires { is_legal (market_lists self.old) (market_state self.old) what ≡ true }
        ensures lists { market_lists self.new ≡ market_lists self.old }
        ensures ok { OnOk result (market_state self.new
            ≡ step (market_lists self.old) (market_state self.old) what) }
        ensures err { OnErr result (market_state self.new ≡ market_state self.old) }
    {
        match what {
            Move::Change { device, number } => {
                self.count(device as usize, number);
                Ok(())
            }
            Move::Learn { child, number } => {
                self.learn(child as usize, number);
                Ok(())
            }
            Move::Publish { node, .. } => self.publish(node as usize),
            Move::Clear { .. } => self.clear(),
            Move::Pass { node, index } => self.pass(node as usize, index as usize),
            Move::Close { phase } => {
                self.closed = phase;
                Ok(())
            }
        }
    }
}
