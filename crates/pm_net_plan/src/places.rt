//! Every tree with at most 256 children a node has places for them. A network over a plan's tree that adds bids up by
//! these places finds the plan's plain auction.
ghost use Rattle.std.specs.Prelude.{◌≡◌, ℕ, ◌<◌, ◌≤◌, length, Option};
ghost use Rattle.pm_base.specs.Cuts.{Cut};
ghost use Rattle.pm_base.specs.Limits.{most_nodes};
ghost use Rattle.pm_base.specs.declared.limits.Limits.{Limits};
ghost use Rattle.pm_market.specs.Lists.{Lists, nodes, IsNode};
ghost use Rattle.pm_market.specs.State.{State, cleared_cut};
ghost use Rattle.pm_plan.specs.Auction.{local_step_in};
ghost use Rattle.pm_plan.specs.Kept.{IsPlan};
ghost use Rattle.pm_plan.specs.Plans.{PlanData};
ghost use Rattle.pm_plan.specs.States.{state};
ghost use Rattle.pm_plan.specs.Market.{plan_lists};
ghost use Rattle.pm_net.specs.Pricing.{GoesByNodes};
ghost use Rattle.pm_net.specs.Network.{Network, sent_price};
ghost use Rattle.pm_net.specs.Agrees.{NetworkAgrees};
ghost use Rattle.pm_net.specs.TreeAuction.{AreAsGood, with_limits};
ghost use Rattle.pm_net_plan.specs.PlanPricing.{plan_pricing, LimitsNeverBind};
ghost use Rattle.pm_net_plan.specs.Places.{IsNumbering, places_in, HasFewChildren, added_by_places};

/// The places in the order of the nodes are a numbering in each tree in which no node has more than 256 children. So they
/// are in each tree of at most 256 nodes, and in that of each plan.
pub fn trees_have_places()
    ensures numbering { (lists : Lists) → HasFewChildren lists →
        IsNumbering lists (places_in lists) }
    ensures small { (lists : Lists) → nodes lists ≤ most_nodes → HasFewChildren lists }
    ensures plans { (plan : PlanData) → IsPlan plan →
        IsNumbering (plan_lists plan) (places_in (plan_lists plan)) }
{}

/// A network over the tree of a plan whose limits never bind finds the plan's plain auction. It also does so if it adds bids up by places, and if
/// its relays have limits other than the plan's that never bind. So each price that was ever sent in it has the step of
/// the node in the plain auction over the cut of its clearing. This is the step that `run` writes.
pub fn plans_price_networks()
    ensures goes { (plan : PlanData) (limits : ℕ → Cut → Option Limits) → IsPlan plan →
        LimitsNeverBind plan → AreAsGood (plan_lists plan) (plan_pricing plan) limits →
        GoesByNodes (plan_lists plan)
        (with_limits (added_by_places (plan_pricing plan) (places_in (plan_lists plan))) limits) }
    ensures prices { (plan : PlanData) (limits : ℕ → Cut → Option Limits) (net : Network)
        (s : State) (x k : ℕ) → IsPlan plan →
        NetworkAgrees (plan_lists plan)
        (with_limits (added_by_places (plan_pricing plan) (places_in (plan_lists plan))) limits) net
        s →
        IsNode (plan_lists plan) x → k < length (net.prices_sent x) →
        (sent_price net x k).step ≡ local_step_in plan (state plan)
        (cleared_cut s (sent_price net x k).index) x }
{}
