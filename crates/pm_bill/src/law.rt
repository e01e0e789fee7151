//! Laws: accounts are the sums of their ticks, and all amounts of a bill add up to 0.

ghost use Rattle.std.specs.Prelude.{◌≡◌, ℕ, Bool, true, List, length, map};
ghost use Rattle.pm_plan.specs.Plans.{PlanData, is_leaf};
ghost use Rattle.pm_plan.specs.Kept.{IsPlan};
ghost use Rattle.pm_bill.specs.Accounts.{account_at, account_total};
ghost use Rattle.pm_bill.specs.Shares.{shares_of, sum_each, account_of_shares, account_of_grid};
ghost use Rattle.pm_bill.specs.Bills.{BillData, AddsUp};
ghost use Rattle.pm_bill.specs.Runs.{tick_phases, device_gain, plan_bill};
ghost use Rattle.pm_bill.specs.Ticks.{TickData, IsAfterTicks};

/// A law about any list of ticks, each of which does to the bill what [`crate::Bill::tick`] does. The account of each node
/// is then the sum of its shares, and that of the grid the sum of what it is due. The bill tells how many ticks and how
/// many minutes there were.
#[tactic(auto, using(crate::proofs::TickSums::tick_sums))]
pub fn accounts_are_sums()
    ensures account { (leaves : List Bool) (ticks : List TickData) (bill : BillData) (node : ℕ) →
        IsAfterTicks leaves ticks bill →
        account_at bill.accounts node ≡ account_total
        (map (λ tick. account_of_shares tick.minutes (shares_of node tick.shares)) ticks) }
    ensures grid { (leaves : List Bool) (ticks : List TickData) (bill : BillData) →
        IsAfterTicks leaves ticks bill →
        bill.grid ≡ account_total
        (map (λ tick. account_of_grid tick.minutes tick.shares tick.groups) ticks) }
    ensures count { (leaves : List Bool) (ticks : List TickData) (bill : BillData) →
        IsAfterTicks leaves ticks bill →
        bill.ticks ≡ length ticks }
    ensures minutes { (leaves : List Bool) (ticks : List TickData) (bill : BillData) →
        IsAfterTicks leaves ticks bill →
        bill.minutes ≡ sum_each (λ tick. tick.minutes) ticks }
{}

/// A law: the bill of the run of a plan adds up. What all devices and the grid pay comes to 0, and so does what they take less
/// what they give. No node except a device has an account. The account of a device is the sum of what it gains in the ticks.
pub fn bills_of_plans_add_up()
    ensures adds_up { (plan : PlanData) → IsPlan plan → AddsUp (plan_bill plan) }
    ensures device { (plan : PlanData) (d : ℕ) → IsPlan plan → is_leaf plan d ≡ true →
        account_at (plan_bill plan).accounts d ≡ account_total
        (map (device_gain plan d) (tick_phases plan)) }
{}
