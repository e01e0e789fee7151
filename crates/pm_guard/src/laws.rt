//! Laws of a guard.

ghost use Rattle.std.specs.Prelude.{◌≡◌, ◌++◌, ◌∷◌, [], ℕ, ◌+◌, ◌<◌, ◌≤◌, ℤ, pos, negsuc, ◌≤ℤ◌};
ghost use Rattle.std.specs.Prelude.{List, length, slice_get, Some, true, false, Contains};
ghost use Rattle.std.specs.Int.{int_max, int_min};
ghost use Rattle.pm_base.specs.declared.limits.Limits.{Limits};
ghost use Rattle.pm_base.specs.Limits.{demand_limit};
ghost use Rattle.pm_bid.specs.Bids.{demand_at, AllWithinLimit};
ghost use Rattle.pm_bid.specs.Taken.{IsWithinLimits};
ghost use Rattle.pm_guard.specs.Bands.{is_other_power, greatest_power, least_power, may_span};
ghost use Rattle.pm_guard.specs.Guards.{GuardData, bands_of, worst, best, is_inside, may_tell};
ghost use Rattle.pm_guard.specs.Guards.{told_in, promised_in, may_choose};
ghost use Rattle.pm_guard.specs.Feeders.{Feeder, FeederOf, RelayOf, Node, PlacedEvent, flow_in};
ghost use Rattle.pm_guard.specs.Feeders.{low_end, high_end, after_all, are_all_held, here_after};
ghost use Rattle.pm_guard.specs.Feeders.FeederEvent.{Tells, Takes, Limited, Restarts};
ghost use Rattle.pm_guard.specs.Histories.{KnowsAll, IsNewFeeder, guard_at, flow_at};
ghost use Rattle.pm_guard.specs.Histories.{highest_ceiling, lowest_floor, NeverStartsAnew, HasSameLimits};
ghost use Rattle.pm_guard.specs.Choosing.{HasMargin, IsChoice, IsTellRun, after_run, count_apart};
ghost use Rattle.pm_guard.specs.Choosing.{settled_guard, with_silent, limits_less, sum_of_powers};
ghost use Rattle.pm_guard.specs.Choosing.{FitsAtOnce, lower_of, within_watts};
ghost use Rattle.pm_guard.specs.Small.{two_devices, one_power, first_part, second_part, goes_back};
ghost use Rattle.pm_guard.specs.Small.{late_promises, starts_anew, relay_and_device, asks_for_80, gives_way};
ghost use Rattle.pm_guard.specs.Small.{takes_wider_limits, on_top};
ghost use Rattle.pm_guard.specs.declared.band.Band.{Band};

/// A law of guards one below another, to any depth. What the devices below any of them take together is within its limits at every
/// moment from one on at which the guard is inside them, whatever messages are lost, late or repeated, and whoever restarts. While
/// limits change it is at most the greatest ceiling, and at least the least floor, that was in force since. While a guard is
/// outside, nothing takes it further out.
///
/// A guard that starts anew knows its nodes again, and a history goes on from there: it has to be inside again.
pub fn guarded_feeders_stay_within()
    ensures known { (depth : ℕ) (feeder : Feeder depth) (events : List PlacedEvent) →
        IsNewFeeder depth feeder → KnowsAll depth (after_all depth feeder events) }
    ensures goes_on { (depth : ℕ) (feeder : Feeder depth) (events : List PlacedEvent) →
        KnowsAll depth feeder → KnowsAll depth (after_all depth feeder events) }
    ensures bounds { (depth : ℕ) (feeder : Feeder depth) (path : List ℕ) → KnowsAll depth feeder →
        (best (guard_at depth path feeder) ≤ℤ flow_at depth path feeder)
        × (flow_at depth path feeder ≤ℤ worst (guard_at depth path feeder)) }
    ensures never_further { (depth : ℕ) (feeder : Feeder depth) (path : List ℕ)
        (events : List PlacedEvent) → KnowsAll depth feeder → NeverStartsAnew path events →
        (int_min (best (guard_at depth path feeder)) (lowest_floor depth path feeder events)
        ≤ℤ flow_at depth path (after_all depth feeder events))
        × (flow_at depth path (after_all depth feeder events)
        ≤ℤ int_max (worst (guard_at depth path feeder))
        (highest_ceiling depth path feeder events)) }
    ensures within { (depth : ℕ) (feeder : Feeder depth) (path : List ℕ)
        (events : List PlacedEvent) → KnowsAll depth feeder → NeverStartsAnew path events →
        is_inside (guard_at depth path feeder) ≡ true →
        (lowest_floor depth path feeder events
        ≤ℤ flow_at depth path (after_all depth feeder events))
        × (flow_at depth path (after_all depth feeder events)
        ≤ℤ highest_ceiling depth path feeder events) }
    ensures steady { (depth : ℕ) (feeder : Feeder depth) (path : List ℕ)
        (events : List PlacedEvent) → KnowsAll depth feeder → NeverStartsAnew path events →
        HasSameLimits path events → is_inside (guard_at depth path feeder) ≡ true →
        IsWithinLimits (guard_at depth path feeder).limits
        (flow_at depth path (after_all depth feeder events)) }
    ensures fallback { (told : List Band) (promised : ℕ) (fallback : Band) →
        Contains told fallback → fallback.low ≡ fallback.high → promised ≤ fallback.index →
        may_span told promised fallback.high fallback.high ≡ true }
{}

/// A law: a guard that starts anew needs to have stored nothing. It holds of each child something that allows all that the child was
/// told, such as the bounds of its bids, and knows its children again. It may be outside its limits then, and is inside
/// again once they promised. So a guard that has to be inside at once stores what it holds before it tells.
///
/// A child may be told at once anything between the powers that are held of it, as the same power under a new index.
pub fn guards_restart()
    ensures known { (depth : ℕ) (feeder : Feeder depth) (held : List (List Band)) →
        KnowsAll depth feeder → are_all_held depth held feeder.nodes ≡ true →
        (here_after depth (Restarts held) feeder).guard.held ≡ held
        × KnowsAll depth (here_after depth (Restarts held) feeder) }
    ensures told { (guard : GuardData) (child : ℕ) (low high : ℤ) → child < length guard.held →
        least_power (bands_of guard child) ≤ℤ low → high ≤ℤ greatest_power (bands_of guard child) →
        may_tell guard child low high ≡ true }
{}

/// A law: a relay with a guard of its own is a device to the guard above it, if it is told limits in place of a power. The power that
/// flows through it is one that a device may take which was told and promised the same. Of what happens at its own guard only
/// limits and a start anew can be refused for it: what it tells and hears does not let more flow than before.
pub fn relays_are_devices()
    ensures takes { (depth : ℕ) (relay : RelayOf (Node depth)) → KnowsAll depth relay.feeder →
        may_span relay.told relay.promised (low_end relay.feeder.guard)
        (high_end relay.feeder.guard) ≡ true →
        may_span relay.told relay.promised (flow_in depth relay.feeder)
        (flow_in depth relay.feeder) ≡ true }
    ensures tells { (told : List Band) (promised : ℕ) (guard : GuardData) (child : ℕ)
        (band : Band) →
        may_span told promised (low_end guard) (high_end guard) ≡ true →
        may_span told promised (low_end (told_in guard child band))
        (high_end (told_in guard child band)) ≡ true }
    ensures hears { (told : List Band) (promised : ℕ) (guard : GuardData) (child index : ℕ) →
        may_span told promised (low_end guard) (high_end guard) ≡ true →
        may_span told promised (low_end (promised_in guard child index))
        (high_end (promised_in guard child index)) ≡ true }
    ensures promises { (told : List Band) (guard : GuardData) (band : Band) → Contains told band →
        guard.limits ≡ record { floor = band.low; ceiling = band.high } → is_inside guard ≡ true →
        may_span told band.index (low_end guard) (high_end guard) ≡ true }
{}

/// A law: if the sum of the targets is within the limits by the margin of the largest single move, then some child may be told its
/// target now, whenever all is promised and some target differs. However the children are chosen, each tell brings one more
/// to its target, so all are there after as many tells as there are children to move. Without the margin a guard may be stuck.
///
/// Children that do not promise stop no other one, if the targets of the others have the margin within the limits less what the
/// silent ones may be taking.
pub fn guards_do_not_get_stuck()
    ensures some { (limits : Limits) (m : ℤ) (taken targets : List ℤ) (child : ℕ) →
        HasMargin limits m taken targets → child < length taken →
        is_other_power (demand_at taken child) (demand_at targets child) ≡ true →
        (choice : ℕ) × IsChoice (settled_guard limits taken) targets choice }
    ensures run { (limits : Limits) (m : ℤ) (taken targets : List ℤ) (run : List ℕ) →
        HasMargin limits m taken targets → IsTellRun limits targets taken run →
        HasMargin limits m (after_run targets taken run) targets
        × (length run + count_apart (after_run targets taken run) targets
        ≡ count_apart taken targets) }
    ensures around_silent { (limits : Limits) (m : ℤ) (taken targets : List ℤ)
        (silent : List (List Band)) (child : ℕ) →
        HasMargin (limits_less limits silent) m taken targets → child < length taken →
        is_other_power (demand_at taken child) (demand_at targets child) ≡ true →
        (choice : ℕ) × (choice < length taken)
        × (may_choose (with_silent limits taken silent) targets choice ≡ true) }
    ensures there { (taken targets : List ℤ) → length targets ≡ length taken →
        count_apart taken targets ≡ 0 → taken ≡ targets }
{}

/// A law: if all that is held and all targets besides are within the limits together, then each child may be told its target now,
/// in any order, and none has to wait for a promise. So two rounds are enough, without any margin, if what
/// each takes and its target add up to no less than the floor at the lower of both: first all that fall are told, and then all
/// that rise.
pub fn targets_that_fit_are_told_at_once()
    ensures told { (guard : GuardData) (targets : List ℤ) (child : ℕ) →
        FitsAtOnce guard targets → child < length guard.held →
        may_tell guard child (demand_at targets child) (demand_at targets child) ≡ true }
    ensures kept { (guard : GuardData) (targets : List ℤ) (child : ℕ) (band : Band) →
        FitsAtOnce guard targets → band.low ≡ demand_at targets child →
        band.high ≡ demand_at targets child → child < length guard.held →
        FitsAtOnce (told_in guard child band) targets }
    ensures falling { (limits : Limits) (taken targets : List ℤ) → length targets ≡ length taken →
        AllWithinLimit demand_limit taken → sum_of_powers taken ≤ℤ limits.ceiling →
        limits.floor ≤ℤ sum_of_powers (lower_of taken targets) →
        FitsAtOnce (settled_guard limits taken) (lower_of taken targets) }
    ensures rising { (limits : Limits) (taken targets : List ℤ) → length targets ≡ length taken →
        AllWithinLimit demand_limit (lower_of taken targets) →
        sum_of_powers targets ≤ℤ limits.ceiling →
        limits.floor ≤ℤ sum_of_powers (lower_of taken targets) →
        FitsAtOnce (settled_guard limits (lower_of taken targets)) targets }
{}

/// Small guards worked out. Two children at 50 and -50 watts are to change places. Within ±50 watts neither may be told, though
/// what is taken and the targets add up to 0: the guard is stuck. Within ±100, the margin of the move, the first may be told, and
/// the second once it promised.
///
/// Two devices at 50 and 0 watts change places within ±50 watts, by events: the second is told only once the first promised, so 0 and
/// then 50 watts flow. With no limits that bind 100 watts flow on the way. The first may go back before it promised, as after a
/// restart, and not after. A promise that comes late says nothing new. A guard may start anew with what it stored, and not with less.
///
/// Below a relay that may let 60 of 100 watts flow, they are 50. A device beside it is told 80 only once the relay promised to keep
/// to 10, so at most 90 flow. The relay takes no limits beyond what it was told.
pub fn small_guards_are_as_worked_out()
    ensures stuck { (may_choose (settled_guard (within_watts 50) (pos 50 ∷ negsuc 49 ∷ []))
        (negsuc 49 ∷ pos 50 ∷ []) 0 ≡ false)
        × (may_choose (settled_guard (within_watts 50) (pos 50 ∷ negsuc 49 ∷ []))
        (negsuc 49 ∷ pos 50 ∷ []) 1 ≡ false) }
    ensures margin { (may_choose (settled_guard (within_watts 100) (pos 50 ∷ negsuc 49 ∷ []))
        (negsuc 49 ∷ pos 50 ∷ []) 0 ≡ true)
        × (may_choose (settled_guard (within_watts 100) (negsuc 49 ∷ negsuc 49 ∷ []))
        (negsuc 49 ∷ pos 50 ∷ []) 1 ≡ true) }
    ensures started { IsNewFeeder 0 (two_devices 50) × IsNewFeeder 1 relay_and_device }
    ensures held_back { flow_in 0 (after_all 0 (two_devices 50) first_part) ≡ pos 0 }
    ensures told { flow_in 0 (after_all 0 (two_devices 50) (first_part ++ second_part)) ≡ pos 50 }
    ensures unguarded { flow_in 0 (after_all 0 (two_devices 500)
        (on_top (Tells 1 (one_power 2 50)) ∷ on_top (Takes 1 (pos 50)) ∷ [])) ≡ pos 100 }
    ensures back { flow_in 0 (after_all 0 (two_devices 50) (first_part ++ goes_back)) ≡ pos 50 }
    ensures not_back { flow_in 0 (after_all 0 (two_devices 50)
        (first_part ++ second_part ++ goes_back)) ≡ pos 50 }
    ensures late { bands_of (after_all 0 (two_devices 500) late_promises).guard 1
        ≡ one_power 3 20 ∷ [] }
    ensures anew { (after_all 0 (two_devices 50)
        (first_part ++ starts_anew
        ((one_power 2 50 ∷ one_power 2 0 ∷ []) ∷ (one_power 1 0 ∷ []) ∷ []))).guard.held
        ≡ (one_power 2 50 ∷ one_power 2 0 ∷ []) ∷ (one_power 1 0 ∷ []) ∷ [] }
    ensures forgot { (after_all 0 (two_devices 50)
        (first_part ++ starts_anew ((one_power 2 0 ∷ []) ∷ (one_power 1 0 ∷ []) ∷ []))).guard.held
        ≡ (one_power 1 50 ∷ one_power 2 0 ∷ []) ∷ (one_power 1 0 ∷ []) ∷ [] }
    ensures beside { flow_in 1 (after_all 1 relay_and_device asks_for_80) ≡ pos 50 }
    ensures gave_way { flow_in 1
        (after_all 1 relay_and_device (gives_way ++ asks_for_80)) ≡ pos 90 }
    ensures wider { (guard_at 1 (0 ∷ [])
        (after_all 1 relay_and_device takes_wider_limits)).limits
        ≡ within_watts 50 }
{}
