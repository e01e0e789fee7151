//! Tests of demo clusters: their counts, and the devices that are drawn.

use crate::kinds::cogeneration;
use crate::same::same;
use crate::shared::may_be_shared;
use pm_device::{DeviceState, Kind};
use pm_gen::{GenFault, make_plan};
use pm_plan::Plan;
use pm_tree::NodeId;
use std::alloc::Global;
use std::process::Abort;

/// Nodes without the auctioneer, phases and changes of a plan.
type Counts = (u32, u32, u64);

/// The counts of the plan of so many devices.
fn count(alloc: Global, size: u32, number: u32) -> Result<Counts, GenFault> {
    let plan = make_plan(alloc, size, number)?;
    Ok((plan.tree().len(), plan.phases(), plan.changes()))
}

/// A size and a number, and the counts of their plan or the fault.
const SIZES: &[(u32, u32, Result<Counts, GenFault>)] = &[
    (0, 7, Err(GenFault::BadSize)),
    (201, 7, Err(GenFault::BadSize)),
    (1, 7, Ok((2, 21, 11))),
    (1, 65543, Ok((2, 21, 11))),
    (2, 7, Ok((3, 21, 18))),
    (20, 0, Ok((21, 21, 164))),
    (21, 7, Ok((23, 21, 136))),
    (200, 7, Ok((210, 21, 1442))),
    (200, 65535, Ok((210, 21, 1403))),
];

#[test]
fn a_size_has_its_counts_or_is_refused(rt: HostRuntime) {
    for row in SIZES {
        same(&rt, (row.0, row.1), count(rt.alloc(), row.0, row.1), row.2);
    }
}

/// What a device is at first: its kind and its state, if the node is a device.
fn device(plan: &Plan, node: NodeId) -> Option<(Kind, DeviceState)> {
    if plan.tree().len() < node.0 || !plan.tree().is_leaf(node) {
        return None;
    }
    Some((plan.kind(node), plan.start(node)))
}

/// Nodes of the plan of size 21 and number 7, and what each device is at first.
const DEVICES: &[(u32, Option<(Kind, DeviceState)>)] = &[
    (2, None),
    (3, Some((Kind::Load, DeviceState(2000)))),
    (
        4,
        Some((cogeneration!(5000, 8000, 600, 100, 300), DeviceState(6058))),
    ),
    (5, Some((Kind::Solar, DeviceState(1900)))),
];

fn devices_are<R: Abort>(rt: &R, plan: &Plan) {
    for row in DEVICES {
        same(rt, row.0, device(plan, NodeId(row.0)), row.1);
    }
}

#[test]
fn the_devices_have_the_drawn_kinds_and_starts(rt: HostRuntime) {
    devices_are(&rt, &make_plan(rt.alloc(), 21, 7).expect(&rt, "a plan"));
}

/// Faults may be sent to threads and shared by them: it is proved here.
#[test]
fn faults_may_be_shared() {
    may_be_shared::<GenFault>();
}
