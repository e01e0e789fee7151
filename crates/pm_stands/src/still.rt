//! The law that a node is still exactly when no node move of it is legal.

ghost use Rattle.std.specs.Prelude.{ℕ, ◌≤◌, ◌↔◌};
ghost use Rattle.pm_market.specs.Lists.{nodes};
ghost use Rattle.pm_market.specs.State.{State};
ghost use Rattle.pm_plan.specs.Kept.{IsPlan};
ghost use Rattle.pm_plan.specs.Plans.{PlanData};
ghost use Rattle.pm_plan.specs.Market.{plan_lists};
ghost use Rattle.pm_stands.specs.Core.{Core};
ghost use Rattle.pm_stands.specs.Stands.{StandsFor};
ghost use Rattle.pm_stands.specs.Actors.{NoMoveOf};
ghost use Rattle.pm_stands.specs.Quiet.{IsQuiet};
ghost use Rattle.pm_stands.specs.Still.{IsStill};

/// A node is still exactly if no node move of it is legal in the state that the cluster stands for. All nodes are still
/// exactly if nothing is pending.
pub fn a_node_is_still_where_it_has_no_move()
    ensures node { (plan : PlanData) (c : Core) (s : State) (x : ℕ) → IsPlan plan →
        StandsFor plan c s → x ≤ nodes (plan_lists plan) →
        IsStill plan c x ↔ NoMoveOf (plan_lists plan) s x }
    ensures all { (plan : PlanData) (c : Core) → IsPlan plan →
        ((x : ℕ) → x ≤ nodes (plan_lists plan) → IsStill plan c x) ↔ IsQuiet plan c }
{}
