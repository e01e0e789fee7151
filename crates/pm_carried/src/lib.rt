//! The end of a phase over links, read of what its nodes hold.
//!
//! Nodes of a phase exchange bids and prices by links, in no order that anybody knows. By these laws the order does not matter:
//! where each message says what its number says, and the numbers agree, what the nodes hold is the plain auction.
#![tactic(auto)]

ghost use Rattle.std.specs.Prelude.{◌≡◌, ℕ};
ghost use Rattle.pm_base.specs.Cuts.{Cut};
ghost use Rattle.pm_plan.specs.Plans.{PlanData};
ghost use Rattle.pm_plan.specs.Kept.{IsPlan};
ghost use Rattle.pm_plan.specs.States.{end_of};
ghost use Rattle.pm_carried.specs.Carried.{Carried, carried_end};
ghost use Rattle.pm_carried.specs.Kept.{TellsByNumber};
ghost use Rattle.pm_carried.specs.Settled.{IsSettledOver};

/// A law: where the turns kept what they keep, and the numbers at the end agree, the end that is read of the nodes is that of
/// the plain auction over the changes made.
#[tactic(auto, using(crate::proofs::Ends::settled_end))]
pub fn settled_phases_end_plainly()
    ensures { (plan : PlanData) (cut : Cut) (c : Carried) → IsPlan plan → TellsByNumber plan c →
        IsSettledOver plan cut c → carried_end plan c ≡ end_of plan cut }
{}
