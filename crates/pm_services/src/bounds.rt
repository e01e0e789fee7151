//! The bounds of the children: what each may bid.

ghost use Rattle.std.specs.Prelude.{◌≡◌, ◌≤◌, ◌↔◌, IsTrue, IfOk};
ghost use Rattle.pm_base.specs.Limits.{most_nodes};
ghost use Rattle.pm_relay.specs.Relays.{AreRelayLimits};
ghost use Rattle.pm_services.specs.Bounds.{KeepsBound, no_bounds, with_bound};

use pm_base::{DEMAND_LIMIT, Limits, MOST_NODES};
use pm_bid::{ArrayBid, uncounted};
use std::alloc::{AllocError, Global};
use std::marker::Model;

/// For each child the least and the greatest power that it may bid, in watts.
///
/// Contracts see them by the places of the children.
#[derive(Drop)]
pub(crate) struct Bounds {
    bounds: Vec<Limits>,
}

impl Model for Bounds {
    ghost use Rattle.std.specs.Prelude.{List};
    ghost use Rattle.pm_base.specs.declared.limits.Limits.{Limits};

    ghost Value = { List Limits };

    ghost use Rattle.pm_services.specs.BoundsFields.{AreBoundsFields};

    ghost view = { λ b. b.bounds.items };

    ghost invariant = { AreBoundsFields };
}

impl Bounds {
    /// Each child may bid what any bid may have.
    pub(crate) fn new(alloc: Global) -> Result<Bounds, AllocError>
        ensures { IfOk result (λ bounds. bounds ≡ no_bounds) }
    {
        let widest = Limits {
            floor: -DEMAND_LIMIT,
            ceiling: DEMAND_LIMIT,
        };
        let bounds = vec![in alloc; widest; MOST_NODES]?;
        Ok(Bounds { bounds })
    }

    /// Whether a child may bid this.
    pub(crate) fn admit(&self, sender: u16, demand: &ArrayBid) -> bool
        requires first { 1 ≤ sender }
        requires last { sender ≤ most_nodes }
        ensures { IsTrue result ↔ KeepsBound self.now sender demand.now }
    {
        let bound = &self.bounds[usize::from(sender) - 1];
        demand.stays_within(bound, &mut uncounted())
    }

    /// Gives a child its bound.
    pub(crate) fn set(&mut self, sender: u16, bound: Limits)
        requires first { 1 ≤ sender }
        requires last { sender ≤ most_nodes }
        ensures { self.new ≡ with_bound self.old sender bound }
    {
        self.bounds[usize::from(sender) - 1] = bound;
    }
}
