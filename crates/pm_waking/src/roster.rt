//! The nodes of a run with what is pending at each, where each sleeps, and how many have work.

ghost use Rattle.std.specs.Prelude.{◌≡◌, ℕ, ◌+◌, ◌⊎◌, ◌<◌, ◌==◌, ◌&&◌};
ghost use Rattle.std.specs.Prelude.{length, List, [], IfOk, OnOk, Some, None, slice_get};
ghost use Rattle.pm_waking.specs.Work.{has_work, has_change, has_unsent};
ghost use Rattle.pm_waking.specs.Sleeping.{Roll, IsKept, SleepsIdle, IsRung, KeepsRings, WakesEntry, ForgetsNobody, OthersStay};
ghost use Rattle.pm_waking.specs.Sleeping.{asleep_at, pending_at, count, is_offered, one_if, MayRecount, TotalsMayFollow, TotalsFollow};

use crate::node::NodePending;
use crate::rings::Rings;
use std::alloc::{AllocError, Global};
use std::marker::Model;
use std::mem;

/// A node with what is pending at it, and the bell at which it sleeps.
#[derive(Clone, Copy)]
pub struct Entry {
    pub node: NodePending,
    pub asleep: Option<u32>,
}

/// How many nodes have work, a change to make, a number that waits to be learnt, or something unsent.
#[derive(Clone, Copy)]
pub struct Totals {
    pub working: usize,
    pub changing: usize,
    pub offered: usize,
    pub unsent: usize,
}

/// The nodes of a run by their numbers, with what is pending at each, where each sleeps, and which bells are to be rung.
///
/// No node that sleeps has work: whatever gives it work wakes it, and its bell is to be rung.
#[derive(Drop)]
pub struct Roster {
    entries: Vec<Entry>,
    totals: Totals,
    rings: Rings,
}

impl Model for Roster {
    ghost Value = { Roll };

    ghost view = { λ r. record { entries = r.entries.items; rings = r.rings } };

    ghost invariant = { λ r. IsKept r.entries.items r.totals };
}

impl Roster {
    /// No node yet, with room for so many nodes and bells.
    pub fn with_capacity(alloc: Global, nodes: usize, bells: u32) -> Result<Roster, AllocError>
        ensures empty { IfOk result (λ roster. length roster.entries ≡ 0) }
    {
        Ok(Roster {
            entries: Vec::with_capacity(alloc, nodes)?,
            totals: Totals::none(),
            rings: Rings::with_capacity(alloc, bells)?,
        })
    }

    /// Adds a node before the first move, awake and without work: a device, or a node with children.
    pub fn add(&mut self, parent: u32, device: bool) -> Result<(), AllocError>
        ensures many { OnOk result (length self.new.entries ≡ length self.old.entries + 1) }
    {
        let node = NodePending::new(parent, device);
        let asleep = None;
        Ok(self.entries.push(Entry { node, asleep })?)
    }

    /// How many nodes there are.
    pub fn len(&self) -> usize
        ensures { result ≡ length self.now.entries }
    {
        self.entries.len()
    }

    /// What is pending at a node; none if there is no such node.
    pub fn get(&self, node: u32) -> Option<NodePending>
        ensures { result ≡ pending_at self.now.entries node }
    {
        let entry = self.entries.get(node as usize)?;
        Some(entry.node)
    }

    /// Whether no node has work.
    pub fn is_quiet(&self) -> bool
        ensures { result ≡ (count has_work self.now.entries == 0) }
    {
        self.totals.working == 0
    }

    /// Whether no change is left in the open phase, no number waits to be learnt, and nothing learnt is unsent.
    pub fn is_settled(&self) -> bool
        ensures { result ≡ ((count has_change self.now.entries == 0) &&
            (count is_offered self.now.entries == 0) && (count has_unsent self.now.entries == 0)) }
    {
        self.totals.changing == 0 && self.totals.offered == 0 && self.totals.unsent == 0
    }

    /// How many devices have a change to make in the open phase.
    pub fn changing(&self) -> usize
        ensures { result ≡ count has_change self.now.entries }
    {
        self.totals.changing
    }

    /// Replaces what is pending at a node. If the node slept and has work now, it is awake, and its bell is to be rung.
    pub fn set(&mut self, number: u32, node: NodePending)
        ensures node { number < length self.old.entries →
            pending_at self.new.entries number ≡ Some node }
        ensures others { OthersStay number self.old.entries self.new.entries }
        ensures wakes { ForgetsNobody self.old self.new }
    {
        let Some(entry) = self.entries.get_mut(number as usize) else {
            return;
        };
        self.totals.follow(&entry.node, &node);
        entry.put(node, &mut self.rings);
    }

    /// A node sleeps at a bell. If it has work the bell is to be rung, and the node is awake.
    pub fn sleep(&mut self, number: u32, bell: u32)
        ensures sleeps { number < length self.old.entries →
            (asleep_at self.new.entries number ≡ Some bell) ⊎ IsRung self.new.rings bell }
        ensures nodes { pending_at self.new.entries number ≡ pending_at self.old.entries number }
        ensures others { OthersStay number self.old.entries self.new.entries }
        ensures kept { KeepsRings self.old.rings self.new.rings }
    {
        let Some(entry) = self.entries.get_mut(number as usize) else {
            return;
        };
        entry.lay(bell, &mut self.rings);
    }

    /// A node is awake, by itself.
    pub fn rise(&mut self, number: u32)
        ensures awake { asleep_at self.new.entries number ≡ None }
        ensures nodes { pending_at self.new.entries number ≡ pending_at self.old.entries number }
        ensures others { OthersStay number self.old.entries self.new.entries }
        ensures kept { self.new.rings ≡ self.old.rings }
    {
        let Some(entry) = self.entries.get_mut(number as usize) else {
            return;
        };
        entry.rise();
    }

    /// All nodes are awake, and the bells of those that slept are to be rung.
    pub fn wake_all(&mut self)
        ensures awake { (x : ℕ) → asleep_at self.new.entries x ≡ None }
        ensures wakes { ForgetsNobody self.old self.new }
    {
        for place in 0..self.len() {
            self.wake(place);
        }
    }

    /// A node is awake, and its bell is to be rung if it slept.
    fn wake(&mut self, place: usize)
        ensures awake { asleep_at self.new.entries place ≡ None }
        ensures others { OthersStay place self.old.entries self.new.entries }
        ensures wakes { ForgetsNobody self.old self.new }
    {
        let Some(entry) = self.entries.get_mut(place) else {
            return;
        };
        entry.wake(&mut self.rings);
    }

    /// Hands out the bells that are to be rung, and takes the caller's list in exchange, which should have none.
    pub fn hand_out(&mut self, rings: &mut Rings)
        ensures given { rings.new ≡ self.old.rings }
        ensures taken { self.new.rings ≡ rings.old }
        ensures entries { self.new.entries ≡ self.old.entries }
    {
        mem::swap(&mut self.rings, rings);
    }
}

impl Totals {
    /// The totals of no node.
    fn none() -> Totals
        ensures { IsKept [] result }
    {
        Totals {
            working: 0,
            changing: 0,
            offered: 0,
            unsent: 0,
        }
    }

    /// Counts a node as it is now, in place of what it was.
    fn follow(&mut self, before: &NodePending, after: &NodePending)
        requires room { TotalsMayFollow self.old before.now }
        ensures counted { TotalsFollow self.old self.new before.now after.now }
    {
        self.working = recounted(self.working, before.has_work(), after.has_work());
        self.changing = recounted(self.changing, before.has_change(), after.has_change());
        self.offered = recounted(self.offered, before.offered, after.offered);
        self.unsent = recounted(self.unsent, before.has_unsent(), after.has_unsent());
    }
}

/// A number of nodes that have something, once one of them has it or not.
fn recounted(total: usize, before: bool, after: bool) -> usize
    requires room { MayRecount total before }
    ensures { result + one_if before ≡ total + one_if after }
{
    if before == after {
        total
    } else if after {
        total + 1
    } else {
        total - 1
    }
}

impl Entry {
    /// Puts another node in its place. If it slept and has work now, it is awake, and its bell is to be rung.
    fn put(&mut self, node: NodePending, rings: &mut Rings)
        ensures node { self.new.node ≡ node }
        ensures calm { SleepsIdle self.new }
        ensures woken { WakesEntry self.old self.new rings.new }
        ensures kept { KeepsRings rings.old rings.new }
    {
        self.node = node;
        if !node.has_work() {
            return;
        }
        if let Some(bell) = self.asleep.take() {
            rings.add(bell);
        }
    }

    /// It sleeps at a bell. If it has work it is awake, and the bell is to be rung.
    fn lay(&mut self, bell: u32, rings: &mut Rings)
        ensures node { self.new.node ≡ self.old.node }
        ensures calm { SleepsIdle self.new }
        ensures sleeps { (self.new.asleep ≡ Some bell) ⊎ IsRung rings.new bell }
        ensures kept { KeepsRings rings.old rings.new }
    {
        if self.node.has_work() {
            self.asleep = None;
            rings.add(bell);
        } else {
            self.asleep = Some(bell);
        }
    }

    /// It is awake, and its bell is to be rung if it slept.
    fn wake(&mut self, rings: &mut Rings)
        ensures node { self.new.node ≡ self.old.node }
        ensures calm { SleepsIdle self.new }
        ensures awake { self.new.asleep ≡ None }
        ensures woken { WakesEntry self.old self.new rings.new }
        ensures kept { KeepsRings rings.old rings.new }
    {
        if let Some(bell) = self.asleep.take() {
            rings.add(bell);
        }
    }

    /// It is awake.
    fn rise(&mut self)
        ensures node { self.new.node ≡ self.old.node }
        ensures calm { SleepsIdle self.new }
        ensures awake { self.new.asleep ≡ None }
    {
        self.asleep = None;
    }
}
