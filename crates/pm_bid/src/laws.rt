//! Laws of what a relay of the market across machines announces, and of the step that it passes down.

ghost use Rattle.std.specs.Prelude.{◌≡◌, ℕ, ◌+◌, ◌<◌, ◌≤◌, ℤ, ◌≤ℤ◌, ◌<ℤ◌, List, length};
ghost use Rattle.pm_base.specs.Limits.{IsWithin, demand_limit};
ghost use Rattle.pm_base.specs.declared.limits.Limits.{Limits};
ghost use Rattle.pm_bid.specs.Bids.{demand_at, NeverRises, AllWithinLimit};
ghost use Rattle.pm_bid.specs.Clearing.{first_at_most, last_at_least};
ghost use Rattle.pm_bid.specs.Limited.{NeverBind};
ghost use Rattle.pm_bid.specs.Taken.{IsWithinLimits, HasStepWithin, AreSmall, settled_in, announced_in};

/// A law: the step for which a relay settles is a step of the sum. It is no earlier for a later step above. It is that step
/// where the sum is within the limits. It is the first step at most the ceiling if the sum is above there, and the last step
/// at least the floor if it is below there and some step is within. So it keeps the limits if some step does, and the
/// ceiling if some step keeps that.
#[tactic(auto)]
pub fn relays_settle_within_limits()
    ensures inside { (limits : Limits) (k : ℕ) (sum : List ℤ) → 1 ≤ length sum →
        settled_in limits k sum < length sum }
    ensures rises { (limits : Limits) (j k : ℕ) (sum : List ℤ) → j ≤ k →
        settled_in limits j sum ≤ settled_in limits k sum }
    ensures kept { (limits : Limits) (k : ℕ) (sum : List ℤ) → NeverRises sum → k < length sum →
        IsWithinLimits limits (demand_at sum k) → settled_in limits k sum ≡ k }
    ensures above { (limits : Limits) (k : ℕ) (sum : List ℤ) → NeverRises sum → k < length sum →
        limits.ceiling <ℤ demand_at sum k →
        settled_in limits k sum ≡ first_at_most limits.ceiling sum }
    ensures below { (limits : Limits) (k : ℕ) (sum : List ℤ) → NeverRises sum → k < length sum →
        HasStepWithin limits sum → demand_at sum k <ℤ limits.floor →
        settled_in limits k sum ≡ last_at_least limits.floor sum }
    ensures within { (limits : Limits) (k : ℕ) (sum : List ℤ) → NeverRises sum →
        HasStepWithin limits sum →
        IsWithinLimits limits (demand_at sum (settled_in limits k sum)) }
    ensures ceiling { (limits : Limits) (k i : ℕ) (sum : List ℤ) → NeverRises sum →
        i < length sum → demand_at sum i ≤ℤ limits.ceiling →
        demand_at sum (settled_in limits k sum) ≤ℤ limits.ceiling }
{}

/// A law: what a relay announces at a step is what is taken at the step for which it settles, as far as a bid may say it. It
/// has as many steps as the sum, and is a demand that a bid may have. It never rises if the sum does not. It keeps limits
/// that a bid may say if some step of the sum does. A sum that never leaves such limits is announced as it is.
#[tactic(auto)]
pub fn relays_announce_what_is_taken()
    ensures steps { (limits : Limits) (sum : List ℤ) →
        length (announced_in limits sum) ≡ length sum }
    ensures taken { (limits : Limits) (sum : List ℤ) (k : ℕ) → k < length sum →
        IsWithin demand_limit (demand_at sum (settled_in limits k sum)) →
        demand_at (announced_in limits sum) k ≡ demand_at sum (settled_in limits k sum) }
    ensures small { (limits : Limits) (sum : List ℤ) →
        AllWithinLimit demand_limit (announced_in limits sum) }
    ensures falls { (limits : Limits) (sum : List ℤ) → NeverRises sum →
        NeverRises (announced_in limits sum) }
    ensures within { (limits : Limits) (sum : List ℤ) (k : ℕ) → AreSmall limits → NeverRises sum →
        HasStepWithin limits sum → k < length sum →
        IsWithinLimits limits (demand_at (announced_in limits sum) k) }
    ensures unbound { (limits : Limits) (sum : List ℤ) → AreSmall limits → NeverBind limits sum →
        announced_in limits sum ≡ sum }
{}
