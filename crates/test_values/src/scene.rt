//! Tests of reading: a file gives the plan of its parts, and a cut file is refused.

use crate::plans::{LONE, basis_of, joined_plan};
use crate::same::same;
use crate::shared::may_be_shared;
use pm_plan::{Cause, PhaseEnd, Place, Plan, Refusal};
use pm_scene::{SceneFault, read_scene};
use std::alloc::Global;
use std::process::Abort;

/// One load, which is joined.
const LONE_LOAD: &str =
    r#"{"version":1,"basis":{"min":0,"max":9,"steps":10},"nodes":[{"name":"load1","kind":"load","parent":"auctioneer","start":100}],"phases":[{"events":[{"join":"load1"}]}]}"#;

/// The plan is that of the lone load's parts.
fn plan_is_of_parts<R: Abort>(rt: &R, alloc: Global, plan: &Plan) {
    let parts = joined_plan(rt, alloc, basis_of(rt, 0, 9, 10), &LONE);
    same(rt, "plan", plan.same(&parts), true);
}

fn vacant_end_has_no_members<R: Abort>(rt: &R, alloc: Global, plan: &Plan) {
    let end = PhaseEnd::vacant(alloc, plan).expect(rt, "memory");
    same(rt, "members", end.members().len(), 0);
}

/// A file's plan is that of its parts.
#[test]
fn a_file_has_the_plan_of_its_parts(rt: HostRuntime) {
    let plan = read_scene(rt.alloc(), LONE_LOAD.as_bytes()).expect(&rt, "a plan");
    plan_is_of_parts(&rt, rt.alloc(), &plan);
    vacant_end_has_no_members(&rt, rt.alloc(), &plan);
}

/// A file that is cut off has no reading.
#[test]
fn a_cut_file_is_refused(rt: HostRuntime) {
    let refused = SceneFault::Refused(Refusal::at(Cause::Unreadable, Place::Document));
    let read = read_scene(rt.alloc(), b"{").err();
    same(&rt, "read", read, Some(refused));
}

/// Faults may be sent to threads and shared by them: it is proved here.
#[test]
fn faults_may_be_shared() {
    may_be_shared::<SceneFault>();
}
