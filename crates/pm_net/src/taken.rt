//! Laws of the flow: what devices take together is what their relay announced, and what the auctioneer cleared.
ghost use Rattle.std.specs.Prelude.{◌≡◌, ℕ, ◌+◌, ◌<◌, ◌≤◌, pos, ◌≤ℤ◌, length, Some};
ghost use Rattle.pm_base.specs.Cuts.{Cut};
ghost use Rattle.pm_base.specs.declared.limits.Limits.{Limits};
ghost use Rattle.pm_bid.specs.Bids.{demand_at, NeverRises};
ghost use Rattle.pm_bid.specs.Clearing.{clearing_step};
ghost use Rattle.pm_bid.specs.Taken.{settled_step, IsWithinLimits, HasStepWithin};
ghost use Rattle.pm_market.specs.Lists.{Lists, IsNode, IsLeaf, IsConcentrator, Lawful};
ghost use Rattle.pm_net.specs.Pricing.{Pricing, GoesByNodes};
ghost use Rattle.pm_net.specs.Flow.{power_below, sum_of_offers, AddsAtEachStep, SaysBelow};
ghost use Rattle.pm_net.specs.TreeAuction.{TreeDemand, add_below, tree_pricing};

/// A law: over any cut, the powers of all devices below a relay, each that of the device's own bid at its own local step, add
/// up to what the relay announced at the relay's own local step. That is what its sum has at the step for which it settles, and
/// is within its limits if some step of the sum is. The powers of all devices add up to the auctioneer's total at the
/// clearing step; so they take at most 0 together, unless the last step cleared. For this each relay there can say in a bid what
/// is taken where it settles.
pub fn devices_take_what_is_announced()
    ensures node { (lists : Lists) (p : Pricing) (cut : Cut) (x : ℕ) → Lawful lists →
        GoesByNodes lists p → AddsAtEachStep lists p → IsNode lists x → SaysBelow lists p cut x →
        power_below lists p cut x ≡ demand_at (p.offer x cut) (p.local cut x) }
    ensures settled { (lists : Lists) (p : Pricing) (cut : Cut) (c : ℕ) → Lawful lists →
        GoesByNodes lists p → AddsAtEachStep lists p → IsConcentrator lists c →
        SaysBelow lists p cut c →
        power_below lists p cut c ≡ demand_at (sum_of_offers p cut c)
        (settled_step (p.limits c cut) (p.local cut c) (sum_of_offers p cut c)) }
    ensures within { (lists : Lists) (p : Pricing) (cut : Cut) (c : ℕ) (limits : Limits) →
        Lawful lists → GoesByNodes lists p → AddsAtEachStep lists p → IsConcentrator lists c →
        SaysBelow lists p cut c → p.limits c cut ≡ Some limits →
        NeverRises (sum_of_offers p cut c) →
        HasStepWithin limits (sum_of_offers p cut c) →
        IsWithinLimits limits (power_below lists p cut c) }
    ensures root { (lists : Lists) (p : Pricing) (cut : Cut) → Lawful lists → GoesByNodes lists p →
        AddsAtEachStep lists p → SaysBelow lists p cut 0 →
        power_below lists p cut 0
        ≡ demand_at (sum_of_offers p cut 0) (clearing_step (sum_of_offers p cut 0)) }
    ensures balanced { (lists : Lists) (p : Pricing) (cut : Cut) → Lawful lists →
        GoesByNodes lists p → AddsAtEachStep lists p → SaysBelow lists p cut 0 →
        clearing_step (sum_of_offers p cut 0) + 1 < p.steps → power_below lists p cut 0 ≤ℤ pos 0 }
    ensures in_node_order { (lists : Lists) (a : TreeDemand) → a.add ≡ add_below lists a.steps →
        1 ≤ a.steps → ((d n : ℕ) → IsLeaf lists d → length (a.demand d n) ≡ a.steps) →
        AddsAtEachStep lists (tree_pricing lists a) }
{}
