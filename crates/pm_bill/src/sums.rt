//! Adds the shares of a tick to the accounts, and sums the groups.

ghost use Rattle.std.specs.Prelude.{◌≡◌, ◌≢◌, ◌*◌, ◌<◌, length, All, IsTrue};
ghost use Rattle.std.specs.List.{AllPairs};
ghost use Rattle.pm_base.specs.Limits.{IsWithin, most_phases, price_limit, demand_limit};
ghost use Rattle.pm_plan.specs.Kept.{are_minutes};
ghost use Rattle.pm_bill.specs.Accounts.{IsAccountWithin, cost_limit, tick_limit};
ghost use Rattle.pm_bill.specs.Shares.{sum_each, group_cost, AreGroups, AreAdded};

use crate::account::{Account, cost_of};
use crate::share::{GroupSum, Share};

/// Adds shares over so many minutes to the accounts of node 0, 1, 2, ...
pub(crate) fn add_shares(accounts: &mut [Account], shares: &[Share], minutes: i64)
    requires inside { All (λ share. share.node < length accounts.old) shares.now }
    requires different { AllPairs (λ one other. one.node ≢ other.node) shares.now }
    requires prices { All (λ share. IsWithin price_limit share.price) shares.now }
    requires powers { All (λ share. IsWithin demand_limit share.power) shares.now }
    requires minutes { IsTrue (are_minutes minutes) }
    requires within { All (IsAccountWithin (most_phases * tick_limit)) accounts.old }
    ensures { AreAdded minutes shares.now accounts.old accounts.new }
{
    for share in shares {
        let cost = cost_of(share.price, share.power);
        let account = &mut accounts[share.node as usize];
        account.add(cost, i128::from(share.power), minutes);
    }
}

/// What the power of groups costs a minute, and how much it is in watts.
pub(crate) fn sums_of_groups(groups: &[GroupSum]) -> (i128, i128)
    requires { AreGroups groups.now }
    ensures cost { result.0 ≡ sum_each group_cost groups.now }
    ensures power { result.1 ≡ sum_each (λ group. group.power) groups.now }
    ensures cost_within { IsWithin cost_limit result.0 }
    ensures power_within { IsWithin cost_limit result.1 }
{
    let mut cost = 0;
    let mut power = 0;
    for group in groups {
        cost += cost_of(group.price, group.power);
        power += i128::from(group.power);
    }
    (cost, power)
}
