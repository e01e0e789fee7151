//! The node of a plan that a word names.

ghost use Rattle.std.specs.Prelude.{◌≤◌, length};
ghost use Rattle.pm_plan.specs.Kept.{IsPlan};
ghost use Rattle.pm_report.specs.Words.{name};
ghost use Rattle.pm_check.specs.MoveReading.{Reads};

use crate::reading::words::word_text;
use pm_plan::Plan;

/// The node of the plan whose name a word is; node 0 is the auctioneer.
pub(crate) fn node_named(plan: &Plan, word: &[u8]) -> Option<u32>
    requires { IsPlan plan.now }
    ensures { Reads (λ node. node ≤ length plan.now.nodes) (name plan.now) word.now result }
{
    let text = word_text(word)?;
    let node = plan.tree().find(text)?;
    Some(node.0)
}
