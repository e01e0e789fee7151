//! The bill of a run, from the ends of its phases.

ghost use Rattle.std.specs.Prelude.{◌≡◌, IfOk};
ghost use Rattle.pm_tree.specs.Entries.{leaves_of};
ghost use Rattle.pm_plan.specs.States.{all_ends};
ghost use Rattle.pm_report.specs.Report.{ends_of};
ghost use Rattle.pm_bill.specs.Runs.{plan_bill};

use crate::bill::Bill;
use crate::charges::Charges;
use pm_plan::{PhaseEnd, Plan};
use std::alloc::{AllocError, Global};

/// The bill of the run of a plan, from the ends of all its phases. Over the minutes of each tick phase the devices take
/// and give what they do at the end of the phase before. The answer is an error only if an allocation fails.
pub fn bill_of_run(alloc: Global, plan: &Plan, ends: &[PhaseEnd]) -> Result<Bill, AllocError>
    requires { ends_of ends.now ≡ all_ends plan.now }
    ensures bill { IfOk result (λ bill. bill ≡ plan_bill plan.now) }
    // Its devices are the plan's, as its text asks for.
    ensures leaves { IfOk result (λ bill. bill.leaves ≡ leaves_of plan.now.entries) }
{
    let mut bill = Bill::open(alloc, plan)?;
    for phase in 1..plan.phases() + 1 {
        if let Some(minutes) = plan.minutes(phase) {
            let charges = Charges::before(alloc, plan, ends, phase)?;
            bill.tick(&charges.shares, &charges.groups, minutes);
        }
    }
    Ok(bill)
}
