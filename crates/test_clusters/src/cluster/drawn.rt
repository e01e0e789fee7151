//! Clusters that are driven by drawn acts, against the plain program.

use super::hand::{act_at, act_count, make, open};
use crate::same::same;
use pm_cluster::Cluster;
use pm_gen::make_plan;
use pm_market::Act;
use pm_plan::{PhaseEnd, Plan};
use pm_walk::all_ends;
use std::alloc::Global;
use std::process::Abort;

/// A linear congruential generator.
#[derive(Drop)]
struct Draws {
    state: u32,
}

impl Draws {
    /// A number below the limit, which is no more than 65536; 0 if the limit is 0.
    fn below(&mut self, limit: u32) -> u32 {
        self.state = self
            .state
            .wrapping_mul(1_664_525)
            .wrapping_add(1_013_904_223);
        (self.state >> 16).checked_rem(limit).unwrap_or(0)
    }
}

/// Makes the first of many drawn acts that is legal; whether one was.
fn make_drawn<R: Abort>(rt: &R, cluster: &mut Cluster, draws: &mut Draws) -> bool {
    let many = act_count(cluster);
    for _try in 0..many {
        if make(rt, cluster, act_at(draws.below(many))).is_some() {
            return true;
        }
    }
    false
}

/// Makes the first of all acts that is legal; whether one was.
fn make_any<R: Abort>(rt: &R, cluster: &mut Cluster) -> bool {
    for place in 0..act_count(cluster) {
        if make(rt, cluster, act_at(place)).is_some() {
            return true;
        }
    }
    false
}

/// Makes acts until no act is legal.
fn settle<R: Abort>(rt: &R, cluster: &mut Cluster, draws: &mut Draws) {
    for _act in 0..1_000_000u32 {
        if !make_drawn(rt, cluster, draws) && !make_any(rt, cluster) {
            return;
        }
    }
    panic!(rt; "there is always an act");
}

fn are_alike(one: &PhaseEnd, other: &PhaseEnd) -> bool {
    one.step() == other.step()
        && one.price() == other.price()
        && one.total() == other.total()
        && one.members() == other.members()
        && one.limited() == other.limited()
}

/// Whether the cluster is idle and its end is this.
fn rests_at<R: Abort>(rt: &R, alloc: Global, cluster: &Cluster, due: &PhaseEnd) -> bool {
    cluster.idle() && are_alike(&cluster.phase_end(alloc).expect(rt, "memory"), due)
}

/// Whether a phase settles to this end, and can then be closed.
fn ends_so<R: Abort>(
    rt: &R,
    alloc: Global,
    cluster: &mut Cluster,
    due: &PhaseEnd,
    draws: &mut Draws,
) -> bool {
    settle(rt, cluster, draws);
    rests_at(rt, alloc, cluster, due) && make(rt, cluster, Act::Close).is_some()
}

/// How many phases end as they should, up to the first that does not.
fn count_right<R: Abort>(
    rt: &R,
    alloc: Global,
    cluster: &mut Cluster,
    ends: &[PhaseEnd],
    draws: &mut Draws,
) -> usize {
    for (place, due) in ends.iter().enumerate() {
        if !ends_so(rt, alloc, cluster, due, draws) {
            return place;
        }
    }
    ends.len()
}

/// How many phases of a plan end as those of the plain program, up to the first that does not.
fn count_alike<R: Abort>(rt: &R, alloc: Global, plan: &Plan, state: u32) -> usize {
    let ends = all_ends(alloc, plan).expect(rt, "ends");
    count_right(
        rt,
        alloc,
        &mut open(rt, alloc, plan),
        &ends,
        &mut Draws { state },
    )
}

/// All phases of a demo cluster end as those of the plain program.
fn demo_is_alike<R: Abort>(rt: &R, alloc: Global, demo: (u32, u32)) {
    let plan = make_plan(alloc, demo.0, demo.1).expect(rt, "a plan");
    same(rt, demo, count_alike(rt, alloc, &plan, demo.1), 21);
}

/// Sizes and numbers of demo clusters, each of which has 21 phases.
const DEMOS: &[(u32, u32)] = &[
    (1, 0),
    (1, 7),
    (1, 65535),
    (7, 0),
    (7, 7),
    (7, 65535),
    (40, 0),
    (40, 7),
    (40, 65535),
];

#[test]
fn drawn_acts_come_to_the_plain_ends(rt: HostRuntime) {
    for demo in DEMOS {
        demo_is_alike(&rt, rt.alloc(), *demo);
    }
}
