//! Laws of phases over links: in which order messages went does not matter.

ghost use Rattle.std.specs.Prelude.{ℕ, List, Vec};
ghost use Rattle.std.specs.declared.alloc.Global.{Global};
ghost use Rattle.pm_base.specs.Cuts.{cut_of};
ghost use Rattle.pm_device.specs.declared.state.Next.{Next};
ghost use Rattle.pm_plan.specs.Kept.{IsPlan};
ghost use Rattle.pm_plan.specs.Plans.{PlanData};
ghost use Rattle.pm_phase.specs.Nodes.{AreNewParts};
ghost use Rattle.pm_phase.specs.PartsEnd.{EndsPlainly};
ghost use Rattle.pm_phase.specs.Running.{HasRun};
ghost use Rattle.pm_phase.specs.SettledParts.{AreSettled, cut_after};
ghost use Rattle.pm_phase.specs.Standing.{PartsStand};
ghost use Rattle.pm_phase.specs.Telling.{AreChanges};
ghost use Rattle.pm_phase.specs.declared.node.NodePart.{NodePart};
ghost use Rattle.pm_phase.specs.declared.phase.PhaseRun.{PhaseRun};

/// A law: parts to which nobody sent anything hold the end over no changes, and stand before the first phase.
#[tactic(auto, using(crate::proofs::NewEnd::new_ends_plainly))]
pub fn new_parts_end_plainly()
    ensures { (plan : PlanData) → IsPlan plan → (parts : List NodePart) → AreNewParts plan parts →
        EndsPlainly plan parts (λ d. 0) }
{}

/// A law: if the parts stood before a phase, and the numbers after it are those of a settled phase, the end that the parts hold is
/// that of the plain auction over the changes made, and the parts stand again.
#[tactic(auto, using(crate::proofs::HeldEnd::ends_plainly))]
pub fn settled_parts_end_plainly()
    ensures { (plan : PlanData) → IsPlan plan → (before : List ℕ) →
        (changes : List (Vec Next Global)) → (parts : List NodePart) → (run : PhaseRun) →
        PartsStand plan parts (cut_of before) → AreChanges plan (cut_of before) changes →
        HasRun plan changes parts run →
        AreSettled plan run.parts.items before changes run.links.items →
        EndsPlainly plan run.parts.items (cut_after before changes) }
{}
