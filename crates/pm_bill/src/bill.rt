//! The bill of a run: an account for each device and one for the grid, tick by tick.

ghost use Rattle.std.specs.Prelude.{◌≡◌, ℕ, ◌+◌, ◌<◌, ◌+ℤ◌, true, length, IfOk, IsTrue};
ghost use Rattle.pm_base.specs.Limits.{most_phases};
ghost use Rattle.pm_tree.specs.Entries.{leaves_of};
ghost use Rattle.pm_tree.specs.Shape.{leaf_at};
ghost use Rattle.pm_plan.specs.Kept.{are_minutes};
ghost use Rattle.pm_bill.specs.Accounts.{account_at, account_sum};
ghost use Rattle.pm_bill.specs.Shares.{AreShares, AreGroups, ComeToTheSame, shares_of, account_of_shares, account_of_grid};
ghost use Rattle.pm_bill.specs.Bills.{new_bill, AddsUp};
ghost use Rattle.pm_bill.specs.Text.{bill_text};

use crate::account::Account;
use crate::share::{GroupSum, Share};
use crate::sums::{add_shares, sums_of_groups};
use crate::text::{push_accounts, push_grid, push_ticks};
use pm_plan::Plan;
use pm_tree::{NodeId, Tree};
use std::alloc::{AllocError, Global};
use std::marker::Model;

/// The accounts of the devices of a plan and of the grid, over the ticks so far.
///
/// Contracts see it as the accounts by node, the grid's account, the number of ticks and the sum of their minutes. Its
/// type keeps that the amounts of all devices and of the grid add up to 0, and so do all taken less all given.
#[derive(Drop)]
pub struct Bill {
    leaves: Vec<bool>,
    accounts: Vec<Account>,
    grid: Account,
    ticks: u32,
    minutes: i64,
}

impl Model for Bill {
    ghost use Rattle.pm_bill.specs.Bills.{BillData, IsBill};

    ghost Value = { BillData };

    ghost view = { λ b. record {
      leaves = b.leaves.items;
      accounts = b.accounts.items;
      grid = b.grid;
      ticks = b.ticks;
      minutes = b.minutes;
    } };

    ghost invariant = { λ b. IsBill (record {
      leaves = b.leaves.items;
      accounts = b.accounts.items;
      grid = b.grid;
      ticks = b.ticks;
      minutes = b.minutes;
    }) };
}

impl Bill {
    /// The bill of a plan before its first tick. The answer is an error only for want of memory.
    pub fn open(alloc: Global, plan: &Plan) -> Result<Bill, AllocError>
        ensures { IfOk result (λ bill. bill ≡ new_bill (leaves_of plan.now.entries)) }
    {
        let leaves = find_leaves(alloc, plan.tree())?;
        let accounts = vec![in alloc; Account::new(); leaves.len() + 1]?;
        Ok(Bill {
            leaves,
            accounts,
            grid: Account::new(),
            ticks: 0,
            minutes: 0,
        })
    }

    /// Adds a tick of so many minutes. Each share goes to the account of its device. What the groups' power costs and what
    /// the devices leave over goes to the grid's account. It takes no memory.
    ///
    /// A bill takes up to 1,000 ticks, each of one minute to one day. The shares are of different devices, and shares and
    /// groups come to the same power and cost the same.
    pub fn tick(&mut self, shares: &[Share], groups: &[GroupSum], minutes: i64)
        requires ticks { self.old.ticks < most_phases }
        requires minutes { IsTrue (are_minutes minutes) }
        requires shares { AreShares self.old.leaves shares.now }
        requires groups { AreGroups groups.now }
        requires same { ComeToTheSame shares.now groups.now }

        // Each node's account gained the sum of its shares, and the grid's what it is due.
        ensures accounts { (node : ℕ) → account_at self.new.accounts node ≡
            account_sum (account_at self.old.accounts node)
            (account_of_shares minutes (shares_of node shares.now)) }
        ensures grid { self.new.grid ≡ account_sum self.old.grid
            (account_of_grid minutes shares.now groups.now) }

        ensures one_each { length self.new.accounts ≡ length self.old.accounts }
        ensures leaves { self.new.leaves ≡ self.old.leaves }
        ensures ticks { self.new.ticks ≡ self.old.ticks + 1 }
        ensures minutes { self.new.minutes ≡ self.old.minutes +ℤ minutes }
    {
        add_shares(&mut self.accounts, shares, minutes);
        let (cost, power) = sums_of_groups(groups);
        self.grid.add(-cost, -power, minutes);
        self.ticks += 1;
        self.minutes += minutes;
    }

    /// The account of a device.
    pub fn account(&self, device: NodeId) -> Account
        requires { leaf_at self.now.leaves device.0 ≡ true }
        ensures account { result ≡ account_at self.now.accounts device.0 }
        ensures adds_up { AddsUp self.now }
    {
        self.accounts[device.0 as usize]
    }

    /// The account of the grid: what the devices leave over.
    pub fn grid(&self) -> Account
        ensures account { result ≡ self.now.grid }
        ensures adds_up { AddsUp self.now }
    {
        self.grid
    }

    /// The text of the bill of its plan. It has a line for each device in file order, one for the grid, and one of
    /// the ticks with their minutes.
    ///
    /// ```text
    /// account NAME amount A taken T given G
    /// grid amount A taken T given G
    /// ticks N minutes M
    /// ```
    ///
    /// The answer is an error only for want of memory.
    #[tactic(auto, unfolding(crate::specs::Text::bill_text))]
    pub fn text(&self, plan: &Plan) -> Result<Vec<u8>, AllocError>
        // The devices of the plan are those of the plan that the bill was opened with.
        requires { self.now.leaves ≡ leaves_of plan.now.entries }
        ensures { IfOk result (λ text. text.items ≡ bill_text plan.now self.now) }
    {
        let mut text = String::new(*self.accounts.allocator());
        push_accounts(&mut text, plan, &self.leaves, &self.accounts)?;
        push_grid(&mut text, &self.grid)?;
        push_ticks(&mut text, self.ticks, self.minutes)?;
        Ok(text.into_bytes())
    }
}

/// Whether node 1, 2, .. of a tree is a device.
fn find_leaves(alloc: Global, tree: &Tree) -> Result<Vec<bool>, AllocError>
    ensures { IfOk result (λ leaves. leaves.items ≡ leaves_of tree.now) }
{
    let mut leaves = Vec::new(alloc);
    for before in 0..tree.len() {
        leaves.push(tree.is_leaf(NodeId(before + 1)))?;
    }
    Ok(leaves)
}
