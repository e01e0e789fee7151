//! Tests of bills: two small clusters billed by hand, and accounts at their limits.

ghost use Rattle.std.specs.Prelude.{◌≡◌, true};
ghost use Rattle.pm_tree.specs.Entries.{leaves_of};
ghost use Rattle.pm_tree.specs.Shape.{leaf_at};

use crate::plans::{NodeLine, Role, basis_of, joins, plan_of_parts};
use crate::same::same;
use crate::shared::may_be_shared;
use pm_bill::{Account, Bill, GroupSum, Share, bill_of_run};
use pm_plan::{PhaseSpec, Plan};
use pm_tree::NodeId;
use pm_walk::all_ends;
use std::alloc::Global;
use std::process::Abort;

/// A load and a generator under the auctioneer: they clear at step 4, with 50 watts too many.
const UNLIMITED: [NodeLine; 2] = [
    ("load1", "auctioneer", Role::Manual([100; 10])),
    (
        "gen1",
        "auctioneer",
        Role::Manual([0, 0, 0, 0, -150, -150, -150, -150, -150, -150]),
    ),
];

/// A device under a limited concentrator, and a generator: they clear at step 0, and below the limit at step 3.
const LIMITED: [NodeLine; 3] = [
    ("c1", "auctioneer", Role::Limited(-100, 150)),
    (
        "flex1",
        "c1",
        Role::Manual([300, 250, 200, 150, 100, 50, 0, -50, -100, -150]),
    ),
    ("gen", "auctioneer", Role::Manual([-150; 10])),
];

/// The plan of these nodes over the prices 0 to 9: all devices join, and then so many minutes go by.
fn plan_of<R: Abort>(rt: &R, alloc: Global, lines: &[NodeLine], minutes: i64) -> Plan {
    let mut phases = Vec::new(alloc);
    phases.push(joins(rt, alloc, lines)).expect(rt, "memory");
    phases
        .push(PhaseSpec::Tick { minutes })
        .expect(rt, "memory");
    plan_of_parts(rt, alloc, basis_of(rt, 0, 9, 10), lines, phases)
}

/// The bill of a plan's run.
fn billed<R: Abort>(rt: &R, alloc: Global, plan: &Plan) -> Bill
    ensures { result.leaves ≡ leaves_of plan.now.entries }
{
    let ends = all_ends(alloc, plan).expect(rt, "ends");
    bill_of_run(alloc, plan, &ends).expect(rt, "a bill")
}

/// A plan's run has a bill with this text.
fn bill_is<R: Abort>(rt: &R, alloc: Global, plan: &Plan, due: &str) {
    let text = billed(rt, alloc, plan).text(plan).expect(rt, "a text");
    same(rt, due, text.as_slice(), due.as_bytes());
}

const UNLIMITED_BILL: &str = "\
account load1 amount 24000 taken 6000 given 0
account gen1 amount -36000 taken 0 given 9000
grid amount 12000 taken 3000 given 0
ticks 1 minutes 60
";

const LIMITED_BILL: &str = "\
account flex1 amount 4500 taken 1500 given 0
account gen amount 0 taken 0 given 1500
grid amount -4500 taken 0 given 0
ticks 1 minutes 10
";

#[test]
fn an_hour_without_limits_is_billed(rt: HostRuntime) {
    let plan = plan_of(&rt, rt.alloc(), &UNLIMITED, 60);
    bill_is(&rt, rt.alloc(), &plan, UNLIMITED_BILL);
}

#[test]
fn ten_minutes_within_limits_are_billed(rt: HostRuntime) {
    let plan = plan_of(&rt, rt.alloc(), &LIMITED, 10);
    bill_is(&rt, rt.alloc(), &plan, LIMITED_BILL);
}

/// Whether a node of the plan is a device.
fn has_device(plan: &Plan, node: u32) -> bool
    ensures { result ≡ true → leaf_at (leaves_of plan.now.entries) node ≡ true }
{
    node <= plan.tree().len() && plan.tree().is_leaf(NodeId(node))
}

/// An hour in which node 1 takes 100 watts and node 2 gives 150, both at price 4.
fn add_hour(bill: &mut Bill)
    requires first { bill.old.ticks ≡ 0 }
    requires load { leaf_at bill.old.leaves 1 ≡ true }
    requires generator { leaf_at bill.old.leaves 2 ≡ true }
    ensures leaves { bill.new.leaves ≡ bill.old.leaves }
{
    let load = Share {
        node: 1,
        price: 4,
        power: 100,
    };
    let generator = Share {
        node: 2,
        price: 4,
        power: -150,
    };
    let all = GroupSum {
        price: 4,
        power: -50,
    };
    bill.tick(&[load, generator], &[all], 60);
}

/// An account of these numbers.
fn account(amount: i128, taken: i128, given: i128) -> Account {
    Account {
        amount,
        taken,
        given,
    }
}

/// The grid before that hour, and the accounts and the grid after it.
fn hour_is_billed<R: Abort>(rt: &R, bill: &mut Bill)
    requires first { bill.old.ticks ≡ 0 }
    requires load { leaf_at bill.old.leaves 1 ≡ true }
    requires generator { leaf_at bill.old.leaves 2 ≡ true }
{
    let at_first = bill.grid();
    add_hour(bill);
    let load = account(24_000, 6000, 0);
    let generator = account(-36_000, 0, 9000);
    let grid = account(12_000, 3000, 0);
    let have = (
        at_first,
        bill.account(NodeId(1)),
        bill.account(NodeId(2)),
        bill.grid(),
    );
    same(rt, "hour", have, (account(0, 0, 0), load, generator, grid));
}

/// The bill of a plan with these two devices before and after that hour.
fn bill_takes_an_hour<R: Abort>(rt: &R, alloc: Global, plan: &Plan) {
    assert!(rt; has_device(plan, 1) && has_device(plan, 2));
    hour_is_billed(rt, &mut Bill::open(alloc, plan).expect(rt, "a bill"));
}

#[test]
fn the_grid_takes_what_is_left_over(rt: HostRuntime) {
    let plan = plan_of(&rt, rt.alloc(), &UNLIMITED, 60);
    bill_takes_an_hour(&rt, rt.alloc(), &plan);
}

/// Bills, accounts, shares and groups may be sent to threads and shared by them: it is proved here.
#[test]
fn bills_may_be_shared() {
    may_be_shared::<(Bill, Account, Share, GroupSum)>();
}
