//! Whether a number is that of a device of a plan.

ghost use Rattle.std.specs.Prelude.{◌≡◌};
ghost use Rattle.pm_market.specs.Lists.{is_leaf};
ghost use Rattle.pm_plan.specs.Market.{plan_lists};

use crate::plan::Plan;
use pm_tree::NodeId;

/// Whether a number is that of a device of a plan. A number behind the last node is that of no device.
#[tactic(auto, using(crate::proofs::LeafTests::leaf_is, crate::proofs::LeafTests::far_leaf))]
pub fn is_device(plan: &Plan, node: NodeId) -> bool
    ensures { result ≡ is_leaf (plan_lists plan.now) node.0 }
{
    node.0 <= plan.tree().len() && plan.tree().is_leaf(node)
}
