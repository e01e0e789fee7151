//! The laws over all runs: each is the contract of a function with an empty body.

ghost use Rattle.std.specs.Prelude.{◌≡◌, ℕ, ◌+◌, ◌-◌, ◌*◌, ◌<◌, ◌≤◌, true, false, Option, Some};
ghost use Rattle.std.specs.Prelude.{List, [], ◌∷◌, ◌⊎◌, ℤ, pos};
ghost use Rattle.pm_silence.specs.Clocks.{Clocks, AreClocks, IsNotSlow, IsNotFast, IsEnough};
ghost use Rattle.pm_silence.specs.declared.placing.ChildPlace.{ChildPlace};
ghost use Rattle.pm_silence.specs.declared.beating.Beat.{Beat};
ghost use Rattle.pm_silence.specs.declared.beating.Beats.{Beats};
ghost use Rattle.pm_silence.specs.declared.beating.Listener.{Listener};
ghost use Rattle.pm_silence.specs.declared.silence.Silence.{Silence};
ghost use Rattle.pm_silence.specs.Beating.{is_newer, heard_beat, is_silent};
ghost use Rattle.pm_silence.specs.Beating.{start_learnt, beaten, beat_of};
ghost use Rattle.pm_silence.specs.Market.{MarketEvent, leases_after, watts_taken, sum_of_devices};
ghost use Rattle.pm_silence.specs.Market.{watts_consumed, watts_counted};
ghost use Rattle.pm_silence.specs.Holding.{lasts};
ghost use Rattle.pm_silence.specs.Placing.{is_overdue};
ghost use Rattle.pm_silence.specs.Timely.{IsRhythm, HoldsBy, IsRoom};
ghost use Rattle.pm_silence.specs.Silencing.{told_at, IsToldWithin};
ghost use Rattle.pm_silence.specs.Path.{IsLease, IsReach, IsStep, reach};
ghost use Rattle.pm_silence.specs.Leases.{LeaseEvent, first_state, states_after, is_holding};
ghost use Rattle.pm_silence.specs.Worked.{clocks_apart, right_clocks, sleeping_clocks, other_zero};
ghost use Rattle.pm_silence.specs.Worked.{later_zero, is_apart, looks_after, after_word};
ghost use Rattle.pm_silence.specs.Worked.{by_confirmation, by_coming, by_leaving, by_old_number};
ghost use Rattle.pm_silence.specs.Worked.{by_sleeping, by_stored_time, set_ahead, set_back};
ghost use Rattle.pm_silence.specs.Worked.{parent_ahead, after_pause, before_setting, after_setting};
ghost use Rattle.pm_silence.specs.Worked.{short_stop, long_stop, comes_again, wakes_up};

/// A law: if a parent does not count a child, because it let it go, heard that it left, or never heard it, then the child's control
/// has its fallback. It holds at each moment of each run, whatever is lost, late, repeated or replayed, and whoever restarts.
/// `validity` is the time from a word to the fallback, with what the control's machine takes to act. Both times are in ticks,
/// such as milliseconds, and `e` is how many ticks in a million a clock may be off.
pub fn let_go_means_fallen_back()
    ensures { (clocks : Clocks) (e validity grace : ℕ) (events : List LeaseEvent) →
        AreClocks e clocks → e < 1000000 → IsEnough e validity grace →
        (states_after clocks grace (first_state clocks) events).place.counts ≡ false →
        is_holding clocks validity (states_after clocks grace (first_state clocks) events) ≡ false }
{}

/// A law: so it is of all devices of a market at once, each with clocks of its own. Whom its parent does not count takes nothing,
/// whatever it was told. This is what the law of what flows asks of a device that was let go.
///
/// Devices that only take, and whose fallback is nothing, take together no more than their parents count, though some have fallen
/// back that still count. Of devices that give this is not so: what is counted on may end at any moment.
pub fn who_does_not_count_takes_nothing()
    ensures total { (clocks : ℕ → Clocks) (e validity grace : ℕ) (told : ℕ → ℕ)
        (events : List MarketEvent) (devices : List ℕ) →
        ((d : ℕ) → AreClocks e (clocks d)) → IsEnough e validity grace →
        let leases = leases_after clocks grace (λ d. first_state (clocks d)) events in
        sum_of_devices (watts_consumed clocks validity leases told) devices
        ≤ sum_of_devices (watts_counted leases told) devices }
    ensures each { (clocks : ℕ → Clocks) (e validity grace device : ℕ) (told : ℤ)
        (events : List MarketEvent) →
        ((d : ℕ) → AreClocks e (clocks d)) → IsEnough e validity grace →
        let w = leases_after clocks grace (λ d. first_state (clocks d)) events device in
        w.place.counts ≡ false → watts_taken (clocks device) validity w told ≡ pos 0 }
    ensures told { (clocks : ℕ → Clocks) (e validity grace device : ℕ) (told : ℤ)
        (events : List MarketEvent) →
        ((d : ℕ) → AreClocks e (clocks d)) → IsEnough e validity grace →
        let w = leases_after clocks grace (λ d. first_state (clocks d)) events device in
        (w.place.counts ≡ true → is_holding (clocks device) validity w ≡ true) →
        (watts_taken (clocks device) validity w told ≡ told)
        ⊎ ((w.place.counts ≡ false) × (watts_taken (clocks device) validity w told ≡ pos 0)) }
{}

/// A law: a control that is told to hold holds by its parent's answers too, and is told no longer than they last. So what is told by
/// heartbeats as well is a run of the first law in which the control takes its fallback earlier.
pub fn a_control_is_told_no_longer()
    ensures { (s : Silence) (validity now : ℕ) →
        IsToldWithin s validity now (told_at s validity now) }
{}

/// A law: a heartbeat of an auctioneer that comes back with a start that is not greater is no news until its count passes the old
/// one. All below fall silent, though it lives. Once it has learnt what any of them has, each of its heartbeats is news there.
pub fn a_lost_start_is_learnt()
    ensures silent { (begun old count now : ℕ) (l : Listener) →
        l.newest ≡ Some (record { start = begun; count = old }) → count ≤ old →
        heard_beat l (record { start = begun; count = count }) now ≡ l }
    ensures news { (beats : Beats) (known : Beat) →
        is_newer (beat_of (beaten (start_learnt beats known))) known ≡ true }
{}

/// A law: if the newest answer was made at some moment, whatever was under way then and whatever is kept and replayed, the control
/// has its fallback by `validity / (1 - e)` later: wherever the path is cut, and also if the parent is. No grace and no parent's
/// clock matters for this. So it is of heartbeats: a node that heard the newest at some moment knows by then that it is silent.
pub fn silence_is_told_in_time()
    ensures beats { (clock : ℕ → ℕ) (l : Listener) (e validity heard d : ℕ) →
        IsNotSlow e clock → l.heard ≡ clock heard →
        validity * 1000000 < d * (1000000 - e) → is_silent l validity (clock (heard + d)) ≡ true }
    ensures answers { (clocks : Clocks) (e validity grace d : ℕ) (events : List LeaseEvent) →
        AreClocks e clocks → e < 1000000 →
        let w = states_after clocks grace (first_state clocks) events in
        w.time ≡ w.answered_at + d → validity * 1000000 < d * (1000000 - e) →
        is_holding clocks validity w ≡ false }
{}

/// A law: no false alarm. Words are said at most `gap` apart, at the moments `S 0` to `S n`, and the answer to each has come `delay`
/// later. Then the control holds from `delay` after the first on. If the parent has heard each word `delay` after it was said,
/// it does not let the child go. `used` is how much of their own holds the relays above had used up.
pub fn nobody_falls_back_in_time()
    ensures holds { (clock S : ℕ → ℕ) (since : Option ℕ) (e validity gap delay used n t : ℕ) →
        IsNotFast e clock → IsRhythm gap S n →
        ((i : ℕ) → i ≤ n → S i + delay ≤ t → HoldsBy since used (clock (S i))) →
        S 0 + delay ≤ t → t < S n + delay + gap → IsRoom e validity used (gap + delay) →
        lasts since validity (clock t) ≡ true }
    ensures counts { (clock S : ℕ → ℕ) (place : ChildPlace) (e grace gap delay n t : ℕ) →
        IsNotFast e clock → IsRhythm gap S n →
        ((i : ℕ) → i ≤ n → S i + delay ≤ t → clock (S i) ≤ place.heard) →
        S 0 + delay ≤ t → t < S n + delay + gap → IsRoom e grace 0 (gap + delay) →
        is_overdue place grace (clock t) ≡ false }
{}

/// A law: however deep a path is, if some node makes no answer from `cut` on, each node below it has its fallback by `reach` later,
/// which is little more for each relay between. At clocks within 1 % and a validity of 120 s that is 121.213 s, and 2.450 s for
/// each relay.
pub fn a_cut_is_told_at_any_depth()
    ensures each { (clocks : ℕ → ℕ → ℕ) (e validity cut first step n until : ℕ) →
        ((i : ℕ) → IsNotSlow e (clocks i)) → ((i : ℕ) → IsNotFast e (clocks i)) → e < 1000000 →
        IsReach e validity first → IsStep e validity step →
        IsLease clocks validity cut n until → until ≤ clocks n (cut + reach first step n) }
    ensures numbers { IsReach 10000 120000 121213 × IsStep 10000 120000 2450 }
{}

/// Less is not enough. For clocks that are off by 1 % and a validity of 120 s a grace of 122.426 s is enough; with
/// one of 122.425 s a control holds that was let go. So it does, with right clocks and a grace of 150 s, by each of the rules named.
pub fn less_is_not_enough()
    ensures clocks { AreClocks 10000 clocks_apart × AreClocks 0 right_clocks }
    ensures lives { (is_holding right_clocks 120000 (after_word right_clocks) ≡ true)
        × ((after_word right_clocks).place.counts ≡ true) }
    ensures enough { IsEnough 10000 120000 122426 }
    ensures tight { is_apart clocks_apart 120000
        (looks_after clocks_apart 122425 121212 (after_word clocks_apart)) ≡ true }
    ensures just { is_apart clocks_apart 120000
        (looks_after clocks_apart 122426 121212 (after_word clocks_apart)) ≡ false }
    ensures confirmed { is_apart right_clocks 120000 by_confirmation ≡ true }
    ensures coming { is_apart right_clocks 120000 by_coming ≡ true }
    ensures leaving { is_apart right_clocks 120000 by_leaving ≡ true }
    ensures old_number { is_apart other_zero 120000 by_old_number ≡ true }
    ensures sleeping { is_apart sleeping_clocks 120000 by_sleeping ≡ true }
    ensures stored_time { is_apart later_zero 120000 by_stored_time ≡ true }
{}

/// What happens to a lease is worked out, at a validity of 120 s and a grace of 150 s.
///
/// - A laptop sleeps for 200 s. If its clock counts on while it sleeps, it has no hold when it wakes up, and its parent has let it
///   go; the answer that waited for it changes nothing. A clock that stands still while the laptop sleeps is not one that the law
///   takes.
/// - A broker stops for 60 s, and the control's next word comes in time: it holds on. It stops for 200 s: the control has its
///   fallback, and is let go. Then the broker sends again all that it kept, to both sides, and neither changes.
/// - A word and its answer are replayed 100 s later: they are no news. The control falls back 120 s after it said the word.
/// - The control's clock is set ahead by an hour: it falls back at once, and the law takes such a clock. If it is set back, or the
///   parent's is set ahead, a control holds that was let go: the law takes neither, so a clock that can be set is not used.
pub fn histories_of_a_lease_are_worked_out()
    ensures asleep { (wakes_up.place.counts ≡ false)
        × (is_holding right_clocks 120000 wakes_up ≡ false) }
    ensures stands_still { (e : ℕ) → e ≤ 10000 → AreClocks e sleeping_clocks → ⊥ }
    ensures short { (short_stop.place.counts ≡ true)
        × (is_holding right_clocks 120000 short_stop ≡ true) }
    ensures long { (long_stop.place.counts ≡ false)
        × (is_holding right_clocks 120000 long_stop ≡ false) }
    ensures paused { (after_pause 19999).place.counts ≡ true }
    ensures replay { (comes_again.place.heard ≡ 0) × (comes_again.hold.since ≡ Some 0)
        × (is_holding right_clocks 120000 comes_again ≡ false) }
    ensures ahead { AreClocks 0 set_ahead
        × (is_holding set_ahead 120000 (before_setting set_ahead) ≡ true)
        × (is_holding set_ahead 120000 (after_setting set_ahead) ≡ false) }
    ensures back { is_apart set_back 120000
        (looks_after set_back 150000 150000 (before_setting set_back)) ≡ true }
    ensures parent_ahead { is_apart parent_ahead 120000
        (looks_after parent_ahead 150000 500 (before_setting parent_ahead)) ≡ true }
{}
