//! Laws: opening a cluster, a device's change and a close keep the relation to the market of cuts.

ghost use Rattle.std.specs.Prelude.{ℕ, ℤ, List};
ghost use Rattle.pm_tree.specs.Entries.{place_of};
ghost use Rattle.pm_market.specs.Lists.{parent};
ghost use Rattle.pm_market.specs.State.{State, start};
ghost use Rattle.pm_market.specs.Moves.{Legal};
ghost use Rattle.pm_session.specs.Links.{Session};
ghost use Rattle.pm_session.specs.Ports.{Seat};
ghost use Rattle.pm_plan.specs.Kept.{IsPlan};
ghost use Rattle.pm_plan.specs.Plans.{PlanData};
ghost use Rattle.pm_plan.specs.Market.{plan_lists};
ghost use Rattle.pm_stands.specs.Core.{Core};
ghost use Rattle.pm_stands.specs.Stands.{StandsFor, MakesMove};
ghost use Rattle.pm_stands.specs.Made.{DidChange, DidClose, changed_core, closed_core};
ghost use Rattle.pm_stands.specs.Opened.{IsOpened};

use pm_market::Move;

/// A device that makes a change that is legal, and offers its bid, makes the move.
#[tactic(auto, using(crate::proofs::Changing::change_made))]
pub fn changing_keeps_the_market()
    ensures made { (plan : PlanData) (c : Core) (s : State) (x n : ℕ) (links : List (List Session))
        (counts : List ℕ)
        (states : List ℤ) (ports : List Seat) →
        IsPlan plan → StandsFor plan c s → Legal (plan_lists plan) s (Move.Change x n) →
        DidChange plan c x n links counts states ports (parent (plan_lists plan) x)
        (place_of plan.entries x) →
        MakesMove plan (changed_core c links counts states ports) s (Move.Change x n) }
{}

/// If the close of the open phase is legal, keeping the powers at its end makes the move.
pub fn closing_keeps_the_market()
    ensures made { (plan : PlanData) (c : Core) (s : State) (p : ℕ) (powers : List ℤ) →
        IsPlan plan → StandsFor plan c s → Legal (plan_lists plan) s (Move.Close p) →
        DidClose plan c powers p →
        MakesMove plan (closed_core c powers p) s (Move.Close p) }
{}

/// A cluster that was just opened stands for the start.
pub fn openings_stand()
    ensures { (plan : PlanData) (c : Core) → IsPlan plan → IsOpened plan c →
        StandsFor plan c start }
{}
