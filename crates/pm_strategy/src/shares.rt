//! The step that divides a basis as a part divides a whole, rounded down or up.

ghost use Rattle.std.specs.Prelude.{◌≡◌, ◌≤◌, ◌*◌, pos, ◌≤ℤ◌, ◌<ℤ◌};
ghost use Rattle.pm_base.specs.Limits.{demand_limit};
ghost use Rattle.pm_strategy.specs.Steps.{share, share_up, last_limit};

/// The step that is as far between 0 and the last one as the part is between 0 and the whole, rounded down.
pub(crate) fn share(part: i64, whole: i64, last: usize) -> i64
    requires part_not_negative { pos 0 ≤ℤ part }
    requires part_small { part ≤ℤ pos demand_limit }
    requires whole_positive { pos 0 <ℤ whole }
    requires last_small { last ≤ last_limit }
    ensures step { result ≡ share part whole last }
    ensures not_negative { pos 0 ≤ℤ result }
    ensures small { result ≤ℤ pos (demand_limit * last_limit) }
{
    (part * last as i64).div_euclid(whole)
}

/// The same, rounded up.
pub(crate) fn share_up(part: i64, whole: i64, last: usize) -> i64
    requires part_not_negative { pos 0 ≤ℤ part }
    requires part_small { part ≤ℤ pos demand_limit }
    requires whole_positive { pos 0 <ℤ whole }
    requires last_small { last ≤ last_limit }
    ensures step { result ≡ share_up part whole last }
{
    -(-(part * last as i64)).div_euclid(whole)
}
