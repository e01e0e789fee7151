//! The account of one device or of the grid: its amount, and what it took and gave.

ghost use Rattle.std.specs.Prelude.{◌≡◌, ◌*◌, ◌*ℤ◌, IsTrue};
ghost use Rattle.pm_base.specs.Limits.{IsWithin, most_phases, price_limit, sum_limit};
ghost use Rattle.pm_plan.specs.Kept.{are_minutes};
ghost use Rattle.pm_bill.specs.Accounts.{account_sum, account_of, positive_part, IsAccountWithin, no_account, cost_limit, tick_limit};

/// What power came to over some ticks.
#[derive(Clone, Copy, Debug, PartialEq, Eq)]
pub struct Account {
    /// What was paid for it, in price units times watts times minutes: negative if more was earned than paid.
    pub amount: i128,
    /// The power taken, in watts times minutes.
    pub taken: i128,
    /// The power given, in watts times minutes.
    pub given: i128,
}

impl Account {
    /// An account without anything.
    pub(crate) fn new() -> Account
        ensures { result ≡ no_account }
    {
        Account {
            amount: 0,
            taken: 0,
            given: 0,
        }
    }

    /// Adds a power in watts over so many minutes, each of which costs so much.
    pub(crate) fn add(&mut self, cost: i128, power: i128, minutes: i64)
        requires old { IsAccountWithin (most_phases * tick_limit) self.old }
        requires cost { IsWithin cost_limit cost }
        requires power { IsWithin cost_limit power }
        requires minutes { IsTrue (are_minutes minutes) }
        ensures { self.new ≡ account_sum self.old (account_of minutes cost power) }
    {
        self.amount += over(cost, minutes);
        self.taken += over(positive_part(power), minutes);
        self.given += over(positive_part(-power), minutes);
    }
}

/// What a price and a power come to a minute.
pub(crate) fn cost_of(price: i64, power: i64) -> i128
    requires price { IsWithin price_limit price }
    requires power { IsWithin sum_limit power }
    ensures { result ≡ price *ℤ power }
{
    i128::from(price) * i128::from(power)
}

/// What so much a minute comes to in so many minutes.
fn over(rate: i128, minutes: i64) -> i128
    requires rate { IsWithin cost_limit rate }
    requires minutes { IsTrue (are_minutes minutes) }
    ensures product { result ≡ rate *ℤ minutes }
    ensures within { IsWithin tick_limit result }
{
    rate * i128::from(minutes)
}

/// A power if it is positive, otherwise 0.
fn positive_part(power: i128) -> i128
    requires { IsWithin cost_limit power }
    ensures part { result ≡ positive_part power }
    ensures within { IsWithin cost_limit result }
{
    if power > 0 { power } else { 0 }
}
