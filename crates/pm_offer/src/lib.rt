//! Laws of what each node offers to its parent, and of the steps that go down the tree. They hold over any cut of a plan.
//!
//! The plain auction of a plan adds up all devices at once. Here it goes from node to node. A device offers its demand, a
//! concentrator the sum of its children's offers within its limits. The auctioneer clears the sum of its children's offers.
//! Each concentrator hands on the step, moved if its limits ask for it. By these laws a tree of nodes which know only their
//! children finds the plain auction.
//!
//! Each law is the contract of a function with an empty body. A crate above cites the lemmas of `proofs/Laws.antt`.
#![tactic(auto)]

ghost use Rattle.std.specs.Prelude.{◌≡◌, ℕ, ◌+◌, ◌<◌, ◌≤◌, ◌+ℤ◌, length, Some};
ghost use Rattle.pm_base.specs.Cuts.{Cut};
ghost use Rattle.pm_base.specs.Limits.{sum_limit};
ghost use Rattle.pm_base.specs.declared.limits.Limits.{Limits};
ghost use Rattle.pm_bid.specs.Bids.{AllWithinLimit, NeverRises, demand_at};
ghost use Rattle.pm_bid.specs.Clearing.{clearing_step};
ghost use Rattle.pm_bid.specs.Limited.{within_limits, local_step};
ghost use Rattle.pm_market.specs.Lists.{parent, IsNode, IsLeaf, IsInner, IsConcentrator};
ghost use Rattle.pm_market.specs.State.{SameOn};
ghost use Rattle.pm_plan.specs.Plans.{PlanData, node, limits_of, end_cut};
ghost use Rattle.pm_plan.specs.Kept.{IsPlan, change_at};
ghost use Rattle.pm_plan.specs.Auction.{EndData, sum_in, total, plain_step, local_step_of_group};
ghost use Rattle.pm_plan.specs.States.{state, end_of};
ghost use Rattle.pm_plan.specs.Market.{plan_lists};
ghost use Rattle.pm_offer.specs.Offers.{device_demand, offer, children_sum, local_step_at};
ghost use Rattle.pm_offer.specs.Powers.{group_power, announced_power, KeepsLimits};
ghost use Rattle.pm_offer.specs.LocalSteps.{IsAuctionStep};
ghost use Rattle.pm_offer.specs.EndLines.{TellsEnd};

/// A law: the offer of a device is its demand. That of a concentrator is the sum of its children's offers, within its
/// limits if it has some. The total of the plain auction is the sum of the offers of the auctioneer's children. An offer
/// depends on the changes of the node's own leaves alone.
#[tactic(auto, using(crate::proofs::Laws::offer_device, crate::proofs::Laws::offer_alike, crate::proofs::Laws::offer_inner, crate::proofs::Laws::offer_total))]
pub fn offers_go_up()
    ensures device { (plan : PlanData) (d : ℕ) (cut : Cut) → IsPlan plan →
        IsLeaf (plan_lists plan) d →
        offer plan d cut ≡ device_demand plan d (cut d) }
    ensures leaves_alone { (plan : PlanData) (x : ℕ) (a b : Cut) → IsPlan plan →
        SameOn (plan_lists plan) x a b → offer plan x a ≡ offer plan x b }
    ensures concentrator { (plan : PlanData) (c : ℕ) (cut : Cut) → IsPlan plan →
        IsConcentrator (plan_lists plan) c →
        offer plan c cut ≡ within_limits (limits_of (node plan c)) (children_sum plan c cut) }
    ensures total { (plan : PlanData) (cut : Cut) → IsPlan plan →
        total plan (state plan) cut ≡ children_sum plan 0 cut }
{}

/// A law: a child of the auctioneer takes the step at which the sum of the auctioneer's children clears. A child of a
/// concentrator takes the step of the concentrator, moved if the sum of its children there breaks its limits. Each such
/// step is a step of the basis.
#[tactic(auto, using(crate::proofs::Laws::local_root, crate::proofs::Laws::local_below, crate::proofs::Laws::local_inside))]
pub fn steps_go_down()
    ensures root { (plan : PlanData) (x : ℕ) (cut : Cut) → IsPlan plan →
        IsNode (plan_lists plan) x → parent (plan_lists plan) x ≡ 0 →
        local_step_at plan cut x ≡ clearing_step (children_sum plan 0 cut) }
    ensures below { (plan : PlanData) (x : ℕ) (cut : Cut) → IsPlan plan →
        IsNode (plan_lists plan) x →
        IsConcentrator (plan_lists plan) (parent (plan_lists plan) x) →
        local_step_at plan cut x
        ≡ local_step (limits_of (node plan (parent (plan_lists plan) x)))
        (local_step_at plan cut (parent (plan_lists plan) x))
        (children_sum plan (parent (plan_lists plan) x) cut) }
    ensures inside { (plan : PlanData) (x : ℕ) (cut : Cut) → IsPlan plan →
        local_step_at plan cut x < plan.basis.steps }
{}

/// A law: an offer has a number for each step of the basis. The offers of a node's children add up to no more than the
/// limit of a sum. There are at most 256 nodes, no node demands more than 1,000,000,000 watts, and limits only bring a sum
/// nearer to 0. This holds in every cut, also in one with more changes than a device makes.
#[tactic(auto, using(crate::proofs::Laws::offer_steps, crate::proofs::Laws::children_within))]
pub fn offers_are_bounded()
    ensures steps { (plan : PlanData) (x : ℕ) (cut : Cut) → IsPlan plan →
        length (offer plan x cut) ≡ plan.basis.steps }
    ensures within { (plan : PlanData) (y : ℕ) (cut : Cut) → IsPlan plan →
        IsInner (plan_lists plan) y →
        AllWithinLimit sum_limit (children_sum plan y cut) }
{}

/// A law: the total of the plain auction never rises with the step, since no bid does and limits keep that. It depends on
/// the changes of the devices alone.
#[tactic(auto, using(crate::proofs::Laws::total_falls, crate::proofs::Laws::total_alike))]
pub fn totals_are_curves()
    ensures falls { (plan : PlanData) (cut : Cut) → IsPlan plan →
        NeverRises (total plan (state plan) cut) }
    ensures devices_alone { (plan : PlanData) (a b : Cut) → IsPlan plan →
        ((d : ℕ) → IsLeaf (plan_lists plan) d → a d ≡ b d) →
        total plan (state plan) a ≡ total plan (state plan) b }
{}

/// A law: the powers that the members of a group take add up to the demand of the group at its step. The total of the
/// plain auction at a step is what the devices below no limited concentrator demand there and what each limited one
/// announces. If some step of the basis keeps the limits of a group, the group's members keep them together.
#[tactic(auto, using(crate::proofs::Laws::powers_group, crate::proofs::Laws::powers_total, crate::proofs::Laws::powers_within))]
pub fn powers_add_up()
    // Group g: the devices below the limited concentrator g, and for 0 those below none. For any other node both are 0.
    ensures group { (plan : PlanData) (g : ℕ) (cut : Cut) → IsPlan plan →
        group_power plan cut g ≡ demand_at (sum_in plan (state plan) cut g)
        (local_step_of_group plan (state plan) cut (plain_step plan (state plan) cut) g) }
    ensures total { (plan : PlanData) (cut : Cut) (step : ℕ) → IsPlan plan →
        step < plan.basis.steps →
        demand_at (total plan (state plan) cut) step
        ≡ demand_at (sum_in plan (state plan) cut 0) step +ℤ announced_power plan cut step }
    ensures within { (plan : PlanData) (g : ℕ) (cut : Cut) (limits : Limits) (step : ℕ) →
        IsPlan plan → limits_of (node plan g) ≡ Some limits →
        step < plan.basis.steps → KeepsLimits limits
        (demand_at (sum_in plan (state plan) cut g) step) →
        KeepsLimits limits (group_power plan cut g) }
{}

/// A law: the changes of a device between the ends of two phases are of the later one.
#[tactic(auto, using(crate::proofs::Laws::phase_between))]
pub fn changes_are_of_their_phase()
    ensures { (plan : PlanData) (p d n : ℕ) → IsPlan plan → end_cut plan p d ≤ n →
        n < end_cut plan (p + 1) d →
        (change_at plan d n).phase ≡ p + 1 }
{}

/// A law: the end over a cut tells the plain auction over it, line by line, and no other end does. The local step of a node
/// is the step that the node goes by there, and no other step is. It is the clearing step or the nearest one at which the
/// sum of the node's group keeps its limits.
#[tactic(auto, using(crate::proofs::EndLines::tells_end, crate::proofs::EndLines::step_is))]
pub fn ends_tell_the_auction()
    ensures end { (plan : PlanData) (cut : Cut) → IsPlan plan →
        TellsEnd plan cut (end_of plan cut) }
    ensures only { (plan : PlanData) (cut : Cut) (end : EndData) → IsPlan plan →
        TellsEnd plan cut end → end ≡ end_of plan cut }
    ensures step { (plan : PlanData) (cut : Cut) (x : ℕ) → IsPlan plan →
        IsAuctionStep plan cut x (local_step_at plan cut x) }
    ensures only_step { (plan : PlanData) (cut : Cut) (x step : ℕ) → IsPlan plan →
        IsAuctionStep plan cut x step → step ≡ local_step_at plan cut x }
{}
