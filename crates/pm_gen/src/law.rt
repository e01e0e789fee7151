//! The law that the plan of a demo keeps the limits of the market.

ghost use Rattle.std.specs.Prelude.{◌≡◌, ℕ, true, Ok};
ghost use Rattle.pm_plan.specs.Plans.{PlanData};
ghost use Rattle.pm_plan.specs.Kept.{IsPlan};
ghost use Rattle.pm_gen.specs.Demo.{is_size, demo_plan};

/// A law: the plan of a demo is one that the type `Plan` keeps.
pub fn plans_of_demos_keep_the_limits()
    ensures { (size number : ℕ) (plan : PlanData) → is_size size ≡ true →
        demo_plan size number ≡ Ok plan → IsPlan plan }
{}
