//! Writes the summary of a demo.

ghost use Rattle.std.specs.Prelude.{◌≡◌, ◌≤◌, ◌++◌, length, IfOk, OnOk, string_bytes};
ghost use Rattle.pm_base.specs.Limits.{most_phases};
ghost use Rattle.pm_report.specs.Report.{ends_of};
ghost use Rattle.pm_report.specs.Summary.{sum_over, last_end, demo_line, sums_line, last_line, summary_text};

use pm_plan::{PhaseEnd, Plan};
use std::alloc::{AllocError, Global};

/// The sum of the prices of ends, in price units, and that of their totals, in watts.
fn sums_of_ends(ends: &[PhaseEnd]) -> (i128, i128)
    requires { length ends.now ≤ most_phases }
    ensures prices { result.0 ≡ sum_over (λ end. end.price) (ends_of ends.now) }
    ensures totals { result.1 ≡ sum_over (λ end. end.total) (ends_of ends.now) }
{
    let mut prices = 0;
    let mut totals = 0;
    for end in ends {
        prices += i128::from(end.price());
        totals += i128::from(end.total());
    }
    (prices, totals)
}

/// Writes the line of the demo and its plan.
fn push_demo_line(text: &mut String, size: u32, number: u32, plan: &Plan) -> Result<(), AllocError>
    ensures { OnOk result (string_bytes text.new ≡ string_bytes text.old
        ++ demo_line size number plan.now) }
{
    let nodes = plan.tree().len();
    let phases = plan.phases();
    let changes = plan.changes();
    writeln!(
        text,
        "demo size {size} number {number} nodes {nodes} phases {phases} changes {changes}"
    )
}

/// Writes the line of the sums.
fn push_sums_line(text: &mut String, ends: &[PhaseEnd]) -> Result<(), AllocError>
    requires { length ends.now ≤ most_phases }
    ensures { OnOk result (string_bytes text.new ≡ string_bytes text.old
        ++ sums_line (ends_of ends.now)) }
{
    let (prices, totals) = sums_of_ends(ends);
    writeln!(text, "prices {prices} totals {totals}")
}

/// The last of the ends.
fn last_end(ends: &[PhaseEnd]) -> &PhaseEnd
    requires { 1 ≤ length ends.now }
    ensures { result.now.end ≡ last_end (ends_of ends.now) }
{
    &ends[ends.len() - 1]
}

/// Writes the line of the last end.
fn push_last_line(text: &mut String, last: &PhaseEnd) -> Result<(), AllocError>
    ensures { OnOk result (string_bytes text.new ≡ string_bytes text.old
        ++ last_line last.now.end) }
{
    let price = last.price();
    let total = last.total();
    let members = last.members().len();
    writeln!(text, "last price {price} total {total} members {members}")
}

/// The summary of the demo of this size and number. It tells the number of nodes, phases and changes of its plan. It also
/// tells the sum of the prices and of the totals over all ends, and the last end.
///
/// ```text
/// demo size S number R nodes N phases P changes C
/// prices A totals B
/// last price X total T members M
/// ```
#[tactic(auto, unfolding(crate::specs::Summary::summary_text))]
pub fn summary_text(
    alloc: Global,
    size: u32,
    number: u32,
    plan: &Plan,
    ends: &[PhaseEnd],
) -> Result<Vec<u8>, AllocError>
    requires some { 1 ≤ length ends.now }
    requires few { length ends.now ≤ most_phases }
    ensures { IfOk result (λ text. text.items ≡ summary_text size number plan.now
        (ends_of ends.now)) }
{
    let mut text = String::new(alloc);
    push_demo_line(&mut text, size, number, plan)?;
    push_sums_line(&mut text, ends)?;
    push_last_line(&mut text, last_end(ends))?;
    Ok(text.into_bytes())
}
