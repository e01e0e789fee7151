//! Laws: a concentrator's pass and a device's take keep the relation.

ghost use Rattle.std.specs.Prelude.{ℕ, List, Option};
ghost use Rattle.pm_tree.specs.Entries.{place_of};
ghost use Rattle.pm_market.specs.Lists.{parent, IsNode, IsLeaf, IsConcentrator};
ghost use Rattle.pm_market.specs.State.{State};
ghost use Rattle.pm_market.specs.Moves.{Legal};
ghost use Rattle.pm_session.specs.Links.{Session, PriceTaken, NothingWaited};
ghost use Rattle.pm_session.specs.Ports.{Seat};
ghost use Rattle.pm_session.specs.declared.price.PriceUpdate.{PriceUpdate};
ghost use Rattle.pm_concentrator.specs.Concentrators.{Gathered};
ghost use Rattle.pm_plan.specs.Kept.{IsPlan};
ghost use Rattle.pm_plan.specs.Plans.{PlanData};
ghost use Rattle.pm_plan.specs.Market.{plan_lists};
ghost use Rattle.pm_stands.specs.Core.{Core, row_at, link_at, uplink_of, concentrator_of};
ghost use Rattle.pm_stands.specs.Rows.{OneLink};
ghost use Rattle.pm_stands.specs.Stands.{StandsFor, MakesMove};
ghost use Rattle.pm_stands.specs.Made.{DidPass, DidTake, passed_core, taken_core};
ghost use Rattle.pm_stands.specs.Needs.{MayPass};

use pm_market::Move;

/// A concentrator that takes the price that waits on its link may pass it to its children, and makes a legal pass by it.
/// If no price waits, no pass to the node is legal, a device or a concentrator.
#[tactic(auto, using(crate::proofs::MayPass::pass_made))]
pub fn passing_keeps_the_market()
    ensures made { (plan : PlanData) (c : Core) (s : State) (x : ℕ)
        (between links : List (List Session)) (concentrators : List (Option Gathered))
        (price : PriceUpdate) →
        IsPlan plan → StandsFor plan c s → IsConcentrator (plan_lists plan) x →
        DidPass c x between links concentrators price (parent (plan_lists plan) x)
        (place_of plan.entries x) →
        MakesMove plan (passed_core c links concentrators) s (Move.Pass x price.index) }
    ensures condition { (plan : PlanData) (c : Core) (s : State) (x : ℕ)
        (between : List (List Session)) (price : PriceUpdate) →
        IsPlan plan → StandsFor plan c s → IsConcentrator (plan_lists plan) x →
        PriceTaken (uplink_of plan c x)
        (link_at between (parent (plan_lists plan) x) (place_of plan.entries x)) price →
        OneLink c.links between (parent (plan_lists plan) x) (place_of plan.entries x) →
        MayPass (concentrator_of c x) (row_at between x) price }
    ensures nothing { (plan : PlanData) (c : Core) (s : State) (x j : ℕ) (new : Session) →
        StandsFor plan c s → IsNode (plan_lists plan) x →
        NothingWaited (uplink_of plan c x).down (uplink_of plan c x) new →
        Legal (plan_lists plan) s (Move.Pass x j) → ⊥ }
{}

/// A device that takes the price that waits on its link makes a legal pass by it.
pub fn taking_keeps_the_market()
    ensures made { (plan : PlanData) (c : Core) (s : State) (x : ℕ) (links : List (List Session))
        (ports : List Seat) (price : PriceUpdate) →
        IsPlan plan → StandsFor plan c s → IsLeaf (plan_lists plan) x →
        DidTake c x links ports price (parent (plan_lists plan) x) (place_of plan.entries x) →
        MakesMove plan (taken_core c links ports) s (Move.Pass x price.index) }
{}
