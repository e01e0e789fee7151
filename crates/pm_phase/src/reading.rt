//! The end of a phase, read of what its nodes hold, and of nothing else.

ghost use Rattle.std.specs.Prelude.{◌≡◌, ◌≤◌, IfOk, IfSome, Some, true, length, map, filter};
ghost use Rattle.std.specs.Option.{option_copied};
ghost use Rattle.pm_bid.specs.Bids.{demand_at};
ghost use Rattle.pm_base.specs.Limits.{sum_limit, IsWithin};
ghost use Rattle.pm_cache.specs.Cache.{aggregate_of, child_head, child_demand};
ghost use Rattle.pm_plan.specs.Auction.{limited_nodes};
ghost use Rattle.pm_plan.specs.Plans.{node as planned_node, limits_of, is_limited, node_numbers};
ghost use Rattle.pm_session.specs.Ports.{held_by};
ghost use Rattle.pm_carried.specs.Carried.{cache_at, carried_power, carried_member, carried_limited};
ghost use Rattle.pm_phase.specs.PartsEnd.{held_of_parts, is_member_in, parts_end, AddsLineIf};

use crate::matcher::Matcher;
use crate::node::{Duty, NodePart};
use pm_auctioneer::Auctioneer;
use pm_base::Limits;
use pm_bid::uncounted;
use pm_cache::BidCache;
use pm_concentrator::Concentrator;
use pm_plan::{LimitedLine, MemberLine, PhaseEnd, Plan};
use pm_session::Held;
use pm_tree::NodeId;
use std::alloc::{AllocError, Global};

/// The auctioneer, if node 0 is one.
fn auctioneer_of(parts: &[NodePart]) -> Option<&Auctioneer>
    ensures { IfSome (option_copied result)
        (λ auctioneer. auctioneer ≡ (held_of_parts parts.now).auctioneer) }
{
    let part = parts.get(0)?;
    let Duty::Parent(parent) = &part.duty else {
        return None;
    };
    let Matcher::Auctioneer(auctioneer) = &parent.matcher else {
        return None;
    };
    Some(auctioneer)
}

/// The concentrator that a node is, if it is one.
fn concentrator_of(parts: &[NodePart], node: u32) -> Option<&Concentrator>
    ensures { IfSome (option_copied result)
        (λ concentrator. concentrator ≡ (held_of_parts parts.now).concentrators node) }
{
    let part = parts.get(node as usize)?;
    let Duty::Parent(parent) = &part.duty else {
        return None;
    };
    let Matcher::Concentrator(concentrator) = &parent.matcher else {
        return None;
    };
    Some(concentrator)
}

/// The newest bids of the children of a node, if it has children.
fn cache_of(parts: &[NodePart], node: u32) -> Option<&BidCache>
    ensures { IfSome (option_copied result)
        (λ cache. cache ≡ cache_at (held_of_parts parts.now) node) }
{
    if node == 0 {
        return Some(auctioneer_of(parts)?.cache());
    }
    Some(concentrator_of(parts, node)?.cache())
}

/// The price that a node holds; none if it is no device.
fn held_of(parts: &[NodePart], node: u32) -> Option<Held>
    ensures { result ≡ held_by ((held_of_parts parts.now).seats node) }
{
    let part = parts.get(node as usize)?;
    part.held()
}

/// Whether a node is a device that is a member, by the changes that it made.
fn is_member(parts: &[NodePart], node: u32) -> bool
    ensures { result ≡ is_member_in parts.now node }
{
    let Some(part) = parts.get(node as usize) else {
        return false;
    };
    match &part.duty {
        Duty::Device(device) => device.member,
        Duty::Parent(_) => false,
    }
}

/// The sum of these bids at a step in watts; None if the step is none of theirs.
fn sum_at(cache: &BidCache, step: u32) -> Option<i64>
    ensures total { IfSome result (λ total. total ≡ demand_at (aggregate_of cache.now) step) }
    ensures within { IfSome result (IsWithin sum_limit) }
{
    let sum = cache.aggregate();
    if step as usize >= sum.steps() {
        return None;
    }
    Some(sum.at(step as usize, &mut uncounted()))
}

/// The power in watts of the child in a place that holds this price, and 0 if it holds none; None if there is no such child, or the
/// step is none of its bid's.
fn power_of(cache: &BidCache, place: usize, held: Option<Held>) -> Option<i64>
    ensures power { IfSome result
        (λ power. power ≡ carried_power held (child_demand cache.now place)) }
    ensures within { IfSome result (IsWithin sum_limit) }
{
    let Some(price) = held else {
        return Some(0);
    };
    if place >= cache.heads().len() || price.step as usize >= cache.aggregate().steps() {
        return None;
    }
    Some(cache.demand(place, price.step as usize, &mut uncounted()))
}

/// The number of the newest bid of the child in a place; None if there is no such child.
fn number_of(cache: &BidCache, place: usize) -> Option<u32>
    ensures { IfSome result (λ number. number ≡ (child_head cache.now place).number) }
{
    let head = cache.heads().get(place)?;
    Some(head.number)
}

/// The line of a member, by the price that it holds and the entry that its parent has of it.
fn read_member(plan: &Plan, parts: &[NodePart], node: u32) -> Option<MemberLine>
    requires first { 1 ≤ node }
    requires last { node ≤ length plan.now.entries }
    ensures { IfSome result
        (λ line. line ≡ carried_member plan.now (held_of_parts parts.now) node) }
{
    let tree = plan.tree();
    let place = tree.place(NodeId(node));
    let cache = cache_of(parts, tree.parent(NodeId(node)).0)?;
    let power = power_of(cache, place, held_of(parts, node))?;
    let number = number_of(cache, place)?;
    Some(MemberLine {
        node,
        power,
        number,
    })
}

/// The line of a concentrator with these limits, if this is the auctioneer's step: its own step, and its sum there.
fn read_limited(
    plan: &Plan,
    parts: &[NodePart],
    node: u32,
    limits: &Limits,
    step: u32,
) -> Option<LimitedLine>
    requires limits { limits_of (planned_node plan.now node) ≡ Some limits.now }
    requires step { step ≡ (held_of_parts parts.now).auctioneer.step }
    ensures { IfSome result
        (λ line. line ≡ carried_limited plan.now (held_of_parts parts.now) node) }
{
    let sum = concentrator_of(parts, node)?.cache().aggregate();
    if step as usize >= sum.steps() {
        return None;
    }
    let mut counter = uncounted();
    let local = sum.step_within(limits, step as usize, &mut counter);
    let total = sum.at(local, &mut counter);
    Some(LimitedLine {
        node,
        step: local as u32,
        total,
    })
}

/// Adds the line of a node that is a member; false if it has none that can be read.
fn add_member(
    plan: &Plan,
    parts: &[NodePart],
    node: u32,
    lines: &mut Vec<MemberLine>,
) -> Result<bool, AllocError>
    requires first { 1 ≤ node }
    requires last { node ≤ length plan.now.entries }
    ensures { IfOk result (λ added. added ≡ true →
        AddsLineIf (carried_member plan.now (held_of_parts parts.now))
        (is_member_in parts.now) node lines.old.items lines.new.items) }
{
    if !is_member(parts, node) {
        return Ok(true);
    }
    let Some(line) = read_member(plan, parts, node) else {
        return Ok(false);
    };
    lines.push(line)?;
    Ok(true)
}

/// Adds the line of a node that is a limited concentrator; false if it has none that can be read.
fn add_limited(
    plan: &Plan,
    parts: &[NodePart],
    node: u32,
    step: u32,
    lines: &mut Vec<LimitedLine>,
) -> Result<bool, AllocError>
    requires last { node ≤ length plan.now.nodes }
    requires step { step ≡ (held_of_parts parts.now).auctioneer.step }
    ensures { IfOk result (λ added. added ≡ true →
        AddsLineIf (carried_limited plan.now (held_of_parts parts.now))
        (is_limited plan.now) node lines.old.items lines.new.items) }
{
    let Some((floor, ceiling)) = plan.limits(NodeId(node)) else {
        return Ok(true);
    };
    let limits = Limits { floor, ceiling };
    let Some(line) = read_limited(plan, parts, node, &limits, step) else {
        return Ok(false);
    };
    lines.push(line)?;
    Ok(true)
}

/// The lines of the members in file order; None if one cannot be read.
fn read_members(
    alloc: Global,
    plan: &Plan,
    parts: &[NodePart],
) -> Result<Option<Vec<MemberLine>>, AllocError>
    ensures { IfOk result (λ read. IfSome read (λ lines. lines.items
        ≡ map (carried_member plan.now (held_of_parts parts.now))
        (filter (is_member_in parts.now) (node_numbers plan.now)))) }
{
    let mut lines = Vec::new(alloc);
    for node in 1..plan.tree().len() + 1 {
        if !add_member(plan, parts, node, &mut lines)? {
            return Ok(None);
        }
    }
    Ok(Some(lines))
}

/// The lines of the limited concentrators in file order, if this is the auctioneer's step; None if one cannot be read.
fn read_all_limited(
    alloc: Global,
    plan: &Plan,
    parts: &[NodePart],
    step: u32,
) -> Result<Option<Vec<LimitedLine>>, AllocError>
    requires step { step ≡ (held_of_parts parts.now).auctioneer.step }
    ensures { IfOk result (λ read. IfSome read (λ lines. lines.items
        ≡ map (carried_limited plan.now (held_of_parts parts.now)) (limited_nodes plan.now))) }
{
    let mut lines = Vec::new(alloc);
    for node in 1..plan.tree().len() + 1 {
        if !add_limited(plan, parts, node, step, &mut lines)? {
            return Ok(None);
        }
    }
    Ok(Some(lines))
}

/// The end that the nodes hold, by their parts alone. It has the auctioneer's step with its price, and its sum there. Each
/// member has its power by the price that it holds and by the entry that its parent has of it. Each limited concentrator has its
/// own step, and its own sum there.
///
/// None if the parts hold no end: node 0 is no auctioneer, the node above a member or a limited node is no matcher, or a step is
/// none of the bids it is asked of. An error comes only for want of memory.
pub fn read_end(
    alloc: Global,
    plan: &Plan,
    parts: &[NodePart],
) -> Result<Option<PhaseEnd>, AllocError>
    ensures end { IfOk result (λ read. IfSome read
        (λ end. end.end ≡ parts_end plan.now parts.now)) }
{
    let Some(auctioneer) = auctioneer_of(parts) else {
        return Ok(None);
    };
    let step = auctioneer.step();
    if step as usize >= plan.basis().steps() {
        return Ok(None);
    }
    let Some(total) = sum_at(auctioneer.cache(), step) else {
        return Ok(None);
    };
    let Some(members) = read_members(alloc, plan, parts)? else {
        return Ok(None);
    };
    let Some(limited) = read_all_limited(alloc, plan, parts, step)? else {
        return Ok(None);
    };
    Ok(Some(PhaseEnd::new(plan.basis(), step, total, members, limited)))
}
