//! The law that the plan of a file keeps the limits of the market.

ghost use Rattle.std.specs.Prelude.{◌≡◌, ℕ, List, Ok};
ghost use Rattle.pm_plan.specs.Plans.{PlanData};
ghost use Rattle.pm_plan.specs.Kept.{IsPlan};
ghost use Rattle.pm_scene.specs.Scene.{scene};

/// A law: the plan of a file is one that the type `Plan` keeps. Its numbers lie within the limits of the market, its tree is
/// lawful, and its changes belong to its phases.
pub fn plans_of_files_keep_the_limits()
    ensures { (bytes : List ℕ) (plan : PlanData) → scene bytes ≡ Ok plan → IsPlan plan }
{}
