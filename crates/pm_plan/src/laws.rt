//! Laws of plans: their states fit, their lists are lawful, and their numbers keep the limits.

ghost use Rattle.std.specs.Prelude.{◌≡◌, ℕ, ◌≤◌, length, IsTrue, List, Ok};
ghost use Rattle.pm_basis.specs.Prices.{BasisValue, IsBasis};
ghost use Rattle.pm_tree.specs.Entries.{Entry, checked_tree, parents_of, leaves_of};
ghost use Rattle.pm_tree.specs.Shape.{IsTree};
ghost use Rattle.pm_plan.specs.Parts.{NodePart, PhasePart, AreNodesOf};
ghost use Rattle.pm_plan.specs.Building.{checked_plan};
ghost use Rattle.pm_bid.specs.Bids.{AllWithinLimit, NeverRises};
ghost use Rattle.pm_base.specs.Limits.{demand_limit, IsWithin};
ghost use Rattle.pm_device.specs.Kinds.{state_fits};
ghost use Rattle.pm_strategy.specs.Strategies.{bid_of};
ghost use Rattle.pm_market.specs.Lists.{Lawful, changes, end_count, is_leaf as market_leaf, is_member as market_member, parent as market_parent};
ghost use Rattle.pm_market.specs.Lists.{phases as market_phases};
ghost use Rattle.pm_market.specs.Bound.{bound as market_bound};
ghost use Rattle.pm_plan.specs.Devices.{DeviceData};
ghost use Rattle.pm_plan.specs.declared.node.Node.TheVariants.{Device};
ghost use Rattle.pm_plan.specs.Plans.{PlanData, node, parent, is_leaf, is_member, change_count, phases, end_cut, plan_bound};
ghost use Rattle.pm_plan.specs.Auction.{States, power};
ghost use Rattle.pm_base.specs.Cuts.{Cut};
ghost use Rattle.pm_plan.specs.States.{FollowChanges, state};
ghost use Rattle.pm_plan.specs.Kept.{IsPlan, InPhases};
ghost use Rattle.pm_plan.specs.Market.{plan_lists};

/// A law: the states of a plan follow its changes. Any states that follow them give each device the same after each
/// number of its changes.
#[tactic(auto, using(crate::proofs::PublicLaws::follows, crate::proofs::PublicLaws::only))]
pub fn states_follow_the_changes()
    ensures follow { (plan : PlanData) → InPhases plan → FollowChanges plan (state plan) }
    ensures only { (plan : PlanData) (states : States) (d n : ℕ) (planned : DeviceData) →
        InPhases plan → FollowChanges plan states →
        node plan d ≡ Device planned → n ≤ change_count plan d → states d n ≡ state plan d n }
{}

/// A law: each state that a device comes to fits its kind. Its bid has a demand for each step, which lies within
/// ±1,000,000,000 watts and never rises. Its power in each cut lies within the same.
#[tactic(auto, using(crate::proofs::PublicLaws::fits, crate::proofs::PublicLaws::steps, crate::proofs::PublicLaws::falls))]
pub fn states_fit()
    ensures fits { (plan : PlanData) (d n : ℕ) (planned : DeviceData) → IsPlan plan →
        node plan d ≡ Device planned → n ≤ change_count plan d →
        IsTrue (state_fits planned.kind (state plan d n)) }
    ensures steps { (plan : PlanData) (d n : ℕ) (planned : DeviceData) → IsPlan plan →
        node plan d ≡ Device planned →
        length (bid_of planned.kind (state plan d n) plan.arrays plan.basis.steps)
        ≡ plan.basis.steps }
    ensures within { (plan : PlanData) (d n : ℕ) (planned : DeviceData) → IsPlan plan →
        node plan d ≡ Device planned → n ≤ change_count plan d →
        AllWithinLimit demand_limit
        (bid_of planned.kind (state plan d n) plan.arrays plan.basis.steps) }
    ensures falls { (plan : PlanData) (d n : ℕ) (planned : DeviceData) → IsPlan plan →
        node plan d ≡ Device planned →
        NeverRises (bid_of planned.kind (state plan d n) plan.arrays plan.basis.steps) }
    ensures powers { (plan : PlanData) (cut : Cut) (d : ℕ) → IsPlan plan →
        cut d ≤ change_count plan d →
        IsWithin demand_limit (power plan (state plan) cut d) }
{}

/// A law: the lists that a plan stands for are lawful in the market of cuts, and have the plan's bound of moves. They
/// say what the plan does of parents, leaves, members, changes, phases and their ends.
#[tactic(auto, using(crate::proofs::PublicLaws::list_laws))]
pub fn lists_are_lawful()
    ensures lawful { (plan : PlanData) → IsPlan plan → Lawful (plan_lists plan) }
    ensures parents { (plan : PlanData) (x : ℕ) → market_parent (plan_lists plan) x
        ≡ parent plan x }
    ensures leaves { (plan : PlanData) (x : ℕ) → market_leaf (plan_lists plan) x ≡ is_leaf plan x }
    ensures members { (plan : PlanData) (d n : ℕ) → 1 ≤ d → d ≤ length plan.nodes →
        n ≤ change_count plan d →
        market_member (plan_lists plan) d n ≡ is_member plan d n }
    ensures changes { (plan : PlanData) (d : ℕ) → 1 ≤ d → d ≤ length plan.nodes →
        changes (plan_lists plan) d ≡ change_count plan d }
    ensures phases { (plan : PlanData) → market_phases (plan_lists plan) ≡ phases plan }
    ensures ends { (plan : PlanData) (p d : ℕ) → IsPlan plan → 1 ≤ d → d ≤ length plan.nodes →
        p ≤ phases plan →
        end_count (plan_lists plan) p d ≡ end_cut plan p d }
    ensures bounds { (plan : PlanData) → IsPlan plan →
        market_bound (plan_lists plan) ≡ plan_bound plan }
{}

/// A law: what the parts of a file give without a refusal is a plan that the type [`crate::Plan`] keeps.
pub fn plans_keep_the_limits()
    ensures { (basis : BasisValue) (entries : List Entry) (nodes : List NodePart)
        (phases : List PhasePart) (plan : PlanData) →
        IsBasis basis → checked_tree entries ≡ Ok entries →
        IsTree (parents_of entries) (leaves_of entries) → AreNodesOf entries nodes →
        checked_plan basis entries nodes phases ≡ Ok plan → IsPlan plan }
{}
