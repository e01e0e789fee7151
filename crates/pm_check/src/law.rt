//! The law that a trace has one judgement.

ghost use Rattle.std.specs.Prelude.{◌≡◌, ℕ, List};
ghost use Rattle.pm_plan.specs.Plans.{PlanData};
ghost use Rattle.pm_plan.specs.Kept.{IsPlan};
ghost use Rattle.pm_check.specs.Traces.{IsValidTrace, IsBadLine};

/// A law: a trace is valid with one number of moves at most, has one bad line at most, and never both.
pub fn traces_have_one_judgement()
    ensures moves { (plan : PlanData) (report trace : List ℕ) (moves other : ℕ) → IsPlan plan →
        IsValidTrace plan report trace moves → IsValidTrace plan report trace other →
        moves ≡ other }
    ensures line { (plan : PlanData) (report trace : List ℕ) (line other : ℕ) →
        IsBadLine plan report trace line → IsBadLine plan report trace other → line ≡ other }
    ensures apart { (plan : PlanData) (report trace : List ℕ) (moves line : ℕ) → IsPlan plan →
        IsValidTrace plan report trace moves → ¬ (IsBadLine plan report trace line) }
{}
