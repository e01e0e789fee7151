//! The plan of a run, as the crates above read it: basis, tree, kinds, limits, phases and changes.

ghost use Rattle.std.specs.Prelude.{◌≡◌, ℕ, ◌≤◌, ◌<◌, ◌-◌, ◌^◌, length, Some, option_map, slice_index_or, true};
ghost use Rattle.std.specs.List.{prefix_len};
ghost use Rattle.pm_plan.specs.Plans.{node as planned_node, kind_of, start_of, limits_of, phases};
ghost use Rattle.pm_plan.specs.Plans.{is_leaf, minutes_of, planned_change, planned_change_at, is_up_to};
ghost use Rattle.pm_plan.specs.Plans.{all_changes, group_above, phase_changes, plan_bound};
ghost use Rattle.pm_plan.specs.Kept.{IsPlan, no_change};
ghost use Rattle.pm_base.specs.Limits.{most_changes};

use crate::draft::Draft;
use crate::node::{Device, Node};
use crate::planned::{Change, Planned};
use pm_basis::Basis;
use pm_bid::ArrayBid;
use pm_device::{DeviceState, Kind};
use pm_tree::{NodeId, Tree};
use std::marker::Model;

/// A plan: the market basis, the tree, what is planned for each node, the bids of the manual devices, and the phases.
///
/// Its type keeps that every number lies within the limits of the market, that the tree is lawful, and that the devices are
/// its leaves. It also keeps that each change belongs to a phase, and that no limited concentrator is above a limited one.
#[derive(Drop)]
pub struct Plan {
    pub(crate) draft: Draft,
}

impl Model for Plan {
    ghost use Rattle.pm_plan.specs.Plans.{PlanData};
    ghost use Rattle.pm_plan.specs.Kept.{IsPlan};

    ghost Value = { PlanData };

    ghost view = { λ p. p.draft };

    ghost invariant = { λ p. IsPlan p.draft };
}

impl Plan {
    /// The market basis.
    pub fn basis(&self) -> &Basis
        ensures basis { result.now ≡ self.now.basis }
        ensures sound { IsPlan self.now }
    {
        &self.draft.basis
    }

    /// The tree of names.
    pub fn tree(&self) -> &Tree
        ensures tree { result.now ≡ self.now.entries }
        ensures sound { IsPlan self.now }
    {
        &self.draft.tree
    }

    /// The bids of the manual devices: a manual device's state is the number of its bid here, from 0.
    pub fn arrays(&self) -> &[ArrayBid]
        ensures arrays { result.now ≡ self.now.arrays }
        ensures sound { IsPlan self.now }
    {
        &self.draft.arrays
    }

    /// How many phases the plan has.
    pub fn phases(&self) -> u32
        ensures phases { result ≡ phases self.now }
        ensures sound { IsPlan self.now }
    {
        self.draft.minutes.len() as u32
    }

    /// What is planned for a device.
    #[tactic(auto, using(crate::proofs::Leaves::first_of, crate::proofs::Leaves::last_of))]
    fn device(&self, device: NodeId) -> &Device
        requires { is_leaf self.now device.0 ≡ true }
        ensures node { planned_node self.now device.0 ≡ Node.Device result.now }
        ensures sound { IsPlan self.now }
    {
        self.draft.node(device).device()
    }

    /// The kind of a device.
    pub fn kind(&self, device: NodeId) -> Kind
        requires { is_leaf self.now device.0 ≡ true }
        ensures kind { kind_of (planned_node self.now device.0) ≡ Some result }
        ensures sound { IsPlan self.now }
    {
        self.device(device).kind()
    }

    /// The state of a device before its first change.
    pub fn start(&self, device: NodeId) -> DeviceState
        requires { is_leaf self.now device.0 ≡ true }
        ensures { start_of (planned_node self.now device.0) ≡ Some result.0 }
    {
        self.device(device).start()
    }

    /// Floor and ceiling of a node in watts; None exactly if it is no limited concentrator.
    pub fn limits(&self, node: NodeId) -> Option<(i64, i64)>
        requires { node.0 ≤ length self.now.nodes }
        ensures { result ≡ option_map (λ limits. (limits.floor, limits.ceiling))
            (limits_of (planned_node self.now node.0)) }
    {
        if node.0 == 0 {
            return None;
        }
        let limits = self.draft.node(node).limits()?;
        Some((limits.floor, limits.ceiling))
    }

    /// The minutes of a phase that is a tick; None exactly if it has events. Phases count from 1.
    pub fn minutes(&self, phase: u32) -> Option<i64>
        requires first { 1 ≤ phase }
        requires last { phase ≤ phases self.now }
        ensures { result ≡ minutes_of self.now phase }
    {
        self.draft.minutes[phase as usize - 1]
    }

    /// A change of a device by its number, counted from 1; None exactly if the number is 0 or above the device's
    /// changes.
    pub fn planned(&self, device: NodeId, number: u32) -> Option<Planned>
        requires { is_leaf self.now device.0 ≡ true }
        ensures { result ≡ planned_change self.now device.0 number }
    {
        if number == 0 {
            return None;
        }
        planned_at(self.device(device).changes(), number as usize - 1)
    }

    /// How many changes of a device belong to a phase. Phases count from 1.
    pub fn changes_of(&self, phase: u32, device: NodeId) -> u32
        requires first { 1 ≤ phase }
        requires last { phase ≤ phases self.now }
        requires leaf { is_leaf self.now device.0 ≡ true }
        ensures { result ≡ phase_changes self.now phase device.0 }
    {
        let changes = self.device(device).changes();
        count_up_to(changes, phase) - count_up_to(changes, phase - 1)
    }

    /// The limited concentrator above a node; None exactly if there is no such one.
    pub fn group(&self, node: NodeId) -> Option<NodeId>
        requires { node.0 ≤ length self.now.nodes }
        ensures group { option_map (λ g. g.0) result ≡ group_above self.now node.0 }
        ensures sound { IsPlan self.now }
    {
        let mut here = node;
        while here.0 > 0 {
            here = self.draft.parent(here);
            if self.limits(here).is_some() {
                return Some(here);
            }
        }
        None
    }

    /// How many changes all devices make.
    pub fn changes(&self) -> u64
        ensures { result ≡ all_changes self.now.nodes }
    {
        count_changes(&self.draft.nodes)
    }

    /// How many moves a run has at most: for each change as many as there are nodes and 15, and one for each phase.
    pub fn bound(&self) -> u64
        ensures { result ≡ plan_bound self.now }
    {
        self.changes() * (self.draft.node_count() as u64 + 15) + self.draft.phase_count() as u64
    }
}

/// The change at a place, counted from 0.
fn planned_at(changes: &[Change], at: usize) -> Option<Planned>
    ensures { result ≡ planned_change_at changes.now at }
{
    match changes.get(at) {
        Some(change) => Some(change.what),
        None => None,
    }
}

/// How many changes belong to the phases up to this one.
fn count_up_to(changes: &[Change], phase: u32) -> u32
    requires few { length changes.now ≤ most_changes }
    requires rise { (m n : ℕ) → m ≤ n → n < length changes.now →
        (slice_index_or changes.now m no_change).phase
        ≤ (slice_index_or changes.now n no_change).phase }
    ensures { result ≡ prefix_len (is_up_to phase) changes.now }
{
    changes.partition_point(|change| change.phase <= phase) as u32
}

/// How many changes these nodes have.
pub(crate) fn count_changes(nodes: &[Node]) -> u64
    requires { all_changes nodes.now < 2 ^ 63 }
    ensures { result ≡ all_changes nodes.now }
{
    let mut count = 0;
    for node in nodes {
        count += node.changes().len() as u64;
    }
    count
}
