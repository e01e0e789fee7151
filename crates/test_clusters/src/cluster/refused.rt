//! What a cluster refuses: changes that are not its next ones, and acts that are not legal. It is then as before.

use super::files::{LONE, UNDER, plan_of};
use super::hand::{
    End, act_at, act_count, changes, close, ends_so, held, line_of, make, next_node, open, rest,
    step,
};
use crate::same::same;
use crate::shared::may_be_shared;
use pm_agent::DeviceAgent;
use pm_cluster::{ActFault, ApplyFault, ChangeFault, Cluster};
use pm_device::{DeviceState, Kind, Next};
use pm_market::{Act, Move};
use pm_plan::Plan;
use pm_session::Held;
use std::alloc::Global;
use std::process::Abort;

/// What is seen of a cluster and one of its devices. It is the price that the device holds, how many changes it made and the
/// next, and the node that moves next.
type View = (Option<Held>, (u32, Option<Next>), Option<u32>);

fn view<R: Abort>(rt: &R, cluster: &Cluster, device: u32) -> View {
    (
        held(rt, cluster, device),
        changes(rt, cluster, device),
        next_node(cluster),
    )
}

/// Makes the change that an agent of this kind made.
fn post<R: Abort>(
    rt: &R,
    alloc: Global,
    cluster: &mut Cluster,
    kind: Kind,
    next: Next,
) -> Result<Move, ChangeFault> {
    assert!(rt; kind.valid() && kind.fits(next.state));
    let plan = cluster.plan();
    let steps = plan.basis().steps();
    let mut agent = DeviceAgent::new(alloc, kind, next.device, steps).expect(rt, "memory");
    cluster.change(agent.work(next, plan.arrays()))
}

/// A change that an agent of this kind made: device, number, whether it is a member, and its state.
type Post = (Kind, (u32, u32, bool, i64));

fn next_of(post: Post) -> Next {
    let (_kind, (device, number, member, power)) = post;
    Next {
        device,
        number,
        member,
        state: DeviceState(power),
    }
}

/// A change is refused, after which device 1 is seen as before. The refusal has the next change of device 1, or no change if it
/// is of another device.
fn is_refused<R: Abort>(
    rt: &R,
    alloc: Global,
    cluster: &mut Cluster,
    made: Post,
    due: Option<Next>,
) {
    let before = view(rt, cluster, 1);
    let next = next_of(made);
    let due = if next.device == 1 { due } else { None };
    let refused = Err(ChangeFault::NotNext { next: due });
    same(rt, next, post(rt, alloc, cluster, made.0, next), refused);
    same(rt, next, view(rt, cluster, 1), before);
}

/// The next change of the lone load.
const FIRST: Post = (Kind::Load, (1, 1, true, 100));

/// Those of other plans: a later number, another state, a leave, another kind, and devices that this plan has not.
const OTHERS: &[Post] = &[
    (Kind::Load, (1, 2, true, 100)),
    (Kind::Load, (1, 1, true, 200)),
    (Kind::Load, (1, 1, false, 100)),
    (Kind::Solar, (1, 1, true, 100)),
    (Kind::Load, (0, 1, true, 100)),
    (Kind::Load, (2, 1, true, 100)),
];

const NOBODY: End = End {
    at: (0, 0, 0),
    members: &[],
    limited: &[],
};

const ONE_MEMBER: End = End {
    at: (9, 9, 100),
    members: members![(1, 100, 1)],
    limited: &[],
};

/// All of these are refused, and leave the cluster as it was.
fn others_are_refused<R: Abort>(
    rt: &R,
    alloc: Global,
    cluster: &mut Cluster,
    due: Option<Next>,
    end: End,
) {
    for other in OTHERS {
        is_refused(rt, alloc, cluster, *other, due);
    }
    same(rt, "end", ends_so(rt, alloc, cluster, end), true);
}

/// The load's change is made, once.
fn is_made_once<R: Abort>(rt: &R, alloc: Global, cluster: &mut Cluster) {
    let (device, number) = (1, 1);
    let made = post(rt, alloc, cluster, Kind::Load, next_of(FIRST));
    same(rt, "made", made, Ok(Move::Change { device, number }));
    is_refused(rt, alloc, cluster, FIRST, None);
}

fn makes_only_the_next<R: Abort>(rt: &R, alloc: Global, cluster: &mut Cluster) {
    others_are_refused(rt, alloc, cluster, Some(next_of(FIRST)), NOBODY);
    is_made_once(rt, alloc, cluster);
    same(rt, "rest", rest(rt, cluster), true);
    others_are_refused(rt, alloc, cluster, None, ONE_MEMBER);
}

fn next_alone_is_made<R: Abort>(rt: &R, alloc: Global, plan: &Plan) {
    makes_only_the_next(rt, alloc, &mut open(rt, alloc, plan));
}

#[test]
fn only_the_next_change_is_made(rt: HostRuntime) {
    next_alone_is_made(&rt, rt.alloc(), &plan_of(&rt, rt.alloc(), LONE));
}

/// The only journal of a load under a concentrator: act, number or index, and what the device then holds.
const ONLY_JOURNAL: &[(Act, u32, Option<(u32, u32)>)] = &[
    (Act::Change { device: 2 }, 1, None),
    (Act::Learn { child: 2 }, 1, None),
    (Act::Publish { node: 1 }, 1, None),
    (Act::Learn { child: 1 }, 1, None),
    (Act::Clear, 1, None),
    (Act::Pass { node: 1 }, 1, None),
    (Act::Pass { node: 2 }, 1, Some((9, 1))),
    (Act::Close, 1, None),
];

/// Whether each act in each form is illegal except this one, also those of a node that the plan has not.
fn others_are_illegal<R: Abort>(rt: &R, cluster: &mut Cluster, but: Act) -> bool {
    for place in 0..act_count(cluster).saturating_add(4) {
        let act = act_at(place);
        if act != but && make(rt, cluster, act).is_some() {
            return false;
        }
    }
    but == Act::Close || make(rt, cluster, Act::Close).is_none()
}

/// Whether no node has a move.
fn no_steps<R: Abort>(rt: &R, cluster: &mut Cluster) -> bool {
    for node in 0..act_count(cluster) / 5 {
        if step(rt, cluster, node).is_some() {
            return false;
        }
    }
    next_node(cluster).is_none()
}

/// An act has this line, and no other act is legal beside it.
fn alone_is_legal<R: Abort>(rt: &R, cluster: &mut Cluster, row: (Act, u32, Option<(u32, u32)>)) {
    let (act, number, held) = row;
    same(rt, row, others_are_illegal(rt, cluster, act), true);
    let have = make(rt, cluster, act);
    same(rt, row, have, Some(line_of(act, number, held)));
}

/// All is closed, and no call has anything to do.
fn is_over<R: Abort>(rt: &R, cluster: &mut Cluster) {
    same(rt, "closes", close(cluster), false);
    same(rt, "no steps", no_steps(rt, cluster), true);
    same(rt, "changes", changes(rt, cluster, 2), (1, None));
    same(rt, "closed", cluster.closed(), 1);
}

fn makes_the_journal<R: Abort>(rt: &R, cluster: &mut Cluster) {
    same(rt, "before", no_steps(rt, cluster), true);
    for row in ONLY_JOURNAL {
        alone_is_legal(rt, cluster, *row);
    }
    let have = others_are_illegal(rt, cluster, Act::Close);
    same(rt, "after", have, true);
    is_over(rt, cluster);
}

fn has_one_journal<R: Abort>(rt: &R, alloc: Global, plan: &Plan) {
    makes_the_journal(rt, &mut open(rt, alloc, plan));
}

#[test]
fn every_other_act_is_illegal(rt: HostRuntime) {
    has_one_journal(&rt, rt.alloc(), &plan_of(&rt, rt.alloc(), UNDER));
}

/// Clusters and faults may be sent to threads and shared by them: it is proved here.
#[test]
fn clusters_may_be_shared() {
    may_be_shared::<Cluster>();
    may_be_shared::<(ActFault, ApplyFault, ChangeFault)>();
}
