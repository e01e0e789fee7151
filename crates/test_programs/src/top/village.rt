//! A village under gates that hold some of its nodes back.

use super::meeting::LOOKS;
use super::{PIECES, called};
use crate::holds::holds;
use pm_gates::{HoldingGate, MeetingGate, Moment};
use pm_nodes::{Gate, OpenGate};
use pm_top::Status;
use std::alloc::Global;
use std::process::Abort;
use std::sync::Wait;
use std::thread::Threads;

/// Eight devices of all kinds below two concentrators, over five phases.
pub(super) const VILLAGE: &str = r#"{"version":1,"basis":{"min":0,"max":99,"steps":100},
"nodes":[
{"name":"c1","kind":"concentrator","parent":"auctioneer"},
{"name":"c2","kind":"concentrator","parent":"c1"},
{"name":"freezer1","kind":"freezer","parent":"c2","low":-2200,"high":-1800,"power":200,"warm":30,"cool":80,"start":-2000},
{"name":"heat1","kind":"heat_pump","parent":"c2","low":1900,"high":2200,"power":1500,"loss":20,"gain":60,"start":2080},
{"name":"bat1","kind":"battery","parent":"c1","capacity":5000,"charge":1000,"discharge":1000,"spread":5,"start":2500},
{"name":"chp1","kind":"cogeneration","parent":"c1","low":5000,"high":8000,"power":2000,"loss":200,"gain":500,"start":6000},
{"name":"solar1","kind":"solar","parent":"c2","start":800},
{"name":"load1","kind":"load","parent":"c1","start":1200},
{"name":"flex","kind":"manual","parent":"auctioneer","points":[[20,600],[80,0]]},
{"name":"goal","kind":"objective","start":-1000}],
"phases":[
{"events":[{"join":"freezer1"},{"join":"heat1"},{"join":"bat1"},{"join":"chp1"},{"join":"solar1"},{"join":"load1"},{"join":"flex"}]},
{"tick":15},
{"events":[{"state":"solar1","value":300},{"join":"goal"}]},
{"tick":30},
{"events":[{"leave":"load1"},{"leave":"goal"},{"state":"flex","points":[[0,500],[99,-490]]}]}]}"#;

const VILLAGE_TEXT: &str = "\
    phase 1 price 40 step 40 total 0 members 7\n\
    member freezer1 power 200 bid 1\n\
    member heat1 power 0 bid 1\n\
    member bat1 power 1000 bid 1\n\
    member chp1 power -2000 bid 1\n\
    member solar1 power -800 bid 1\n\
    member load1 power 1200 bid 1\n\
    member flex power 400 bid 1\n\
    phase 2 price 47 step 47 total -1270 members 7\n\
    member freezer1 power 0 bid 2\n\
    member heat1 power 0 bid 2\n\
    member bat1 power 0 bid 2\n\
    member chp1 power -2000 bid 2\n\
    member solar1 power -800 bid 1\n\
    member load1 power 1200 bid 1\n\
    member flex power 330 bid 1\n\
    phase 3 price 50 step 50 total -800 members 8\n\
    member freezer1 power 0 bid 2\n\
    member heat1 power 0 bid 2\n\
    member bat1 power -1000 bid 2\n\
    member chp1 power -2000 bid 2\n\
    member solar1 power -300 bid 2\n\
    member load1 power 1200 bid 1\n\
    member flex power 300 bid 1\n\
    member goal power 1000 bid 1\n\
    phase 4 price 60 step 60 total -900 members 8\n\
    member freezer1 power 0 bid 3\n\
    member heat1 power 0 bid 3\n\
    member bat1 power -1000 bid 3\n\
    member chp1 power -2000 bid 3\n\
    member solar1 power -300 bid 2\n\
    member load1 power 1200 bid 1\n\
    member flex power 200 bid 1\n\
    member goal power 1000 bid 1\n\
    phase 5 price 53 step 53 total -2330 members 6\n\
    member freezer1 power 0 bid 3\n\
    member heat1 power 0 bid 3\n\
    member bat1 power 0 bid 3\n\
    member chp1 power -2000 bid 3\n\
    member solar1 power -300 bid 2\n\
    member flex power -30 bid 2\n\
    end phases 5 changes 20\n";

/// How often the nodes 0 to 10 yield the processor: some of them are held back.
const EVEN: &[u32] = &[100, 0, 100, 0, 100, 0, 100, 0, 100, 0, 100];

const LOAD1: &[u32] = &[0, 0, 0, 0, 0, 0, 0, 0, 1000, 0, 0];

const BOTH_CONCENTRATORS: &[u32] = &[0, 1000, 1000, 0, 0, 0, 0, 0, 0, 0, 0];

/// The village has its text under this gate.
fn must_run<R: Threads + Wait + Sync + Abort, G: Gate>(rt: &R, alloc: Global, gate: &G) {
    let outcome = called(rt, alloc, "run", VILLAGE.as_bytes(), PIECES, gate);
    let due = (Status::Done, VILLAGE_TEXT.as_bytes());
    assert_eq!(rt; (outcome.status, outcome.text.as_slice()), due);
}

fn must_run_slowly<R: Threads + Wait + Sync + Abort>(rt: &R, alloc: Global, yields: &[u32]) {
    let gate = HoldingGate::new(yields.to_vec(alloc).expect(rt, "memory"));
    must_run(rt, alloc, &gate);
}

/// Whichever nodes are slow, the text is the same.
#[test]
fn slow_nodes_change_no_text(rt: HostRuntime) {
    must_run_slowly(&rt, rt.alloc(), EVEN);
    must_run_slowly(&rt, rt.alloc(), LOAD1);
    must_run_slowly(&rt, rt.alloc(), BOTH_CONCENTRATORS);
}

/// The lower concentrator and a device beside it meet, and the text is that of a run that nothing holds back.
#[test]
fn a_concentrator_and_a_device_meet(rt: HostRuntime) {
    let gate = MeetingGate::new((2, 6), Moment::Line, LOOKS);
    must_run(&rt, rt.alloc(), &gate);
    holds(&rt, gate.met(), gate.met() == 2);
    must_run(&rt, rt.alloc(), &OpenGate);
}
