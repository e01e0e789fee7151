//! The name of a node as texts write it.

ghost use Rattle.std.specs.Prelude.{◌≡◌, ◌≤◌, length};
ghost use Rattle.pm_report.specs.Words.{name};

use pm_plan::Plan;
use pm_tree::NodeId;

/// The name of a node of the plan, and of node 0 `auctioneer`.
pub(crate) fn name(plan: &Plan, node: u32) -> &str
    requires { node ≤ length plan.now.nodes }
    ensures { result.now ≡ name plan.now node }
{
    plan.tree().name(NodeId(node))
}
