//! Closes the links of a phase once their ends are back: what each node owns, and what each link did.

ghost use Rattle.std.specs.Prelude.{◌≡◌, All, IfOk, IfSome, Some, None, length};
ghost use Rattle.pm_phase.specs.Ends.{AreOf, IsUpOf, IsDownOf, IsPlaced, ArePlaced};
ghost use Rattle.pm_cells.specs.Ends.{LinkEnd};
ghost use Rattle.std.specs.Prelude.{ℕ, List, Contains};
ghost use Rattle.pm_phase.specs.Closing.{ChildFrom, ParentFrom, IsReturned, AreReturned, IsEmptyPlace, ClosedLink, AreClosed, parts_of_nodes};
ghost use Rattle.pm_phase.specs.declared.node.FreeNode.{FreeNode as Node};
ghost use Rattle.pm_phase.specs.Logs.{IsLogOfLink};
ghost use Rattle.pm_phase.specs.Nodes.{numbers_of_parts, numbers_of_nodes};

use crate::ends::{DownEnd, UpEnd};
use crate::node::{FreeNode, NodePart};
use crate::phase::PhaseRun;
use pm_cells::{ChildEnd, FreeLink, LinkLog, ParentEnd, close_link};
use std::alloc::{AllocError, Global};

/// The ends of one link that came back.
#[derive(Drop)]
pub(crate) struct Places {
    pub(crate) up: Option<ChildEnd>,
    pub(crate) down: Option<ParentEnd>,
}

/// Closes the links of a phase once the nodes are back. The parts of the nodes stay in their order, and the logs are those of
/// the links in theirs.
pub(crate) fn close_links(
    alloc: Global,
    links: Vec<FreeLink>,
    places: Vec<Places>,
    nodes: Vec<FreeNode>,
) -> Result<PhaseRun, AllocError>
    requires nodes { All (AreOf links.items) nodes.items }
    requires places { ArePlaced links.items places.items }
    requires empty { All IsEmptyPlace places.items }
    ensures parts { IfOk result (λ run.
        numbers_of_parts run.parts.items ≡ numbers_of_nodes nodes.items) }
    ensures same { IfOk result (λ run. run.parts.items ≡ parts_of_nodes nodes.items) }
    ensures closed { IfOk result (λ run. AreClosed nodes.items run.links.items) }
    ensures each { IfOk result (λ run. length run.links.items ≡ length links.items) }
    ensures logs { IfOk result (λ run. All (λ log. IfSome log IsLogOfLink) run.links.items) }
{
    let mut places = places;
    let mut parts = Vec::with_capacity(alloc, nodes.len())?;
    for node in nodes {
        parts.push(take_ends(&links, &mut places, node))?;
    }
    let links = close_all(alloc, links, places)?;
    Ok(PhaseRun { parts, links })
}

/// Puts the ends of a node into their places.
fn take_ends(links: &[FreeLink], places: &mut Vec<Places>, node: FreeNode) -> NodePart
    requires node { AreOf links.now node }
    requires places { ArePlaced links.now places.old.items }
    ensures part { result ≡ node.part }
    ensures places { ArePlaced links.now places.new.items }
    ensures from { (nodes : List Node) → Contains nodes node → AreReturned nodes places.old.items →
        AreReturned nodes places.new.items }
{
    let FreeNode { part, up, downs } = node;
    put_up_end(links, places, up);
    put_down_ends(links, places, downs);
    part
}

/// Puts the end of a node's link to its parent into its place, if the node has one.
fn put_up_end(links: &[FreeLink], places: &mut Vec<Places>, up: Option<UpEnd>)
    requires up { IfSome up (IsUpOf links.now) }
    requires places { ArePlaced links.now places.old.items }
    ensures places { ArePlaced links.now places.new.items }
    ensures from { (nodes : List Node) → (node : Node) → Contains nodes node → node.up ≡ up →
        AreReturned nodes places.old.items → AreReturned nodes places.new.items }
{
    if let Some(up) = up {
        put_up(links, places, up);
    }
}

/// Puts the ends of a node's links to its children into their places.
fn put_down_ends(links: &[FreeLink], places: &mut Vec<Places>, downs: Vec<DownEnd>)
    requires downs { All (IsDownOf links.now) downs.items }
    requires places { ArePlaced links.now places.old.items }
    ensures places { ArePlaced links.now places.new.items }
    ensures from { (nodes : List Node) → (node : Node) → Contains nodes node →
        node.downs.items ≡ downs.items → AreReturned nodes places.old.items →
        AreReturned nodes places.new.items }
{
    for down in downs {
        put_down(links, places, down);
    }
}

/// Puts an end that came back into its place.
fn put_up(links: &[FreeLink], places: &mut Vec<Places>, up: UpEnd)
    requires up { IsUpOf links.now up }
    requires places { ArePlaced links.now places.old.items }
    ensures places { ArePlaced links.now places.new.items }
    ensures from { (nodes : List Node) → ChildFrom nodes up.at up.end →
        AreReturned nodes places.old.items → AreReturned nodes places.new.items }
{
    let UpEnd { at, end } = up;
    places[at].up = Some(end);
}

/// Puts an end that came back into its place.
fn put_down(links: &[FreeLink], places: &mut Vec<Places>, down: DownEnd)
    requires down { IsDownOf links.now down }
    requires places { ArePlaced links.now places.old.items }
    ensures places { ArePlaced links.now places.new.items }
    ensures from { (nodes : List Node) → ParentFrom nodes down.at down.end →
        AreReturned nodes places.old.items → AreReturned nodes places.new.items }
{
    let DownEnd { at, end } = down;
    places[at].down = Some(end);
}

/// Closes each link whose two ends came back, and gives the logs of the links in their order.
fn close_all(
    alloc: Global,
    links: Vec<FreeLink>,
    places: Vec<Places>,
) -> Result<Vec<Option<LinkLog>>, AllocError>
    requires { ArePlaced links.items places.items }
    ensures each { IfOk result (λ logs. length logs.items ≡ length links.items) }
    ensures closed { (nodes : List Node) → AreReturned nodes places.items →
        IfOk result (λ logs. AreClosed nodes logs.items) }
    ensures logs { IfOk result (λ logs. All (λ log. IfSome log IsLogOfLink) logs.items) }
{
    let mut links = links;
    let mut places = places;
    let mut logs = Vec::with_capacity(alloc, links.len())?;
    while let Some(link) = links.pop() {
        let Some(ends) = places.pop() else {
            unreachable!()
        };
        logs.push(close_one(link, ends))?;
    }
    logs.reverse();
    Ok(logs)
}

/// Closes a link, if its two ends came back.
fn close_one(link: FreeLink, ends: Places) -> Option<LinkLog>
    requires { IsPlaced link ends }
    ensures log { IfSome result IsLogOfLink }
    ensures closed { (nodes : List Node) → (place : ℕ) →
        IsReturned nodes place ends → IfSome result (ClosedLink nodes place) }
    ensures both { (child : LinkEnd) (parent : LinkEnd) →
        ends.up ≡ Some child → ends.down ≡ Some parent → result ≡ None → ⊥ }
{
    let Places { up, down } = ends;
    let child = up?;
    let parent = down?;
    let mut log = close_link(link, child, parent);
    give_room_back(&mut log);
    Some(log)
}

/// Gives back the room that the numbers of a log leave: a link has room for more than it takes, and logs are kept for all phases.
fn give_room_back(log: &mut LinkLog)
    ensures bid_puts { log.new.bid_puts.items ≡ log.old.bid_puts.items }
    ensures bid_takes { log.new.bid_takes.items ≡ log.old.bid_takes.items }
    ensures price_puts { log.new.price_puts.items ≡ log.old.price_puts.items }
    ensures price_takes { log.new.price_takes.items ≡ log.old.price_takes.items }
{
    log.bid_puts.shrink_to_fit();
    log.bid_takes.shrink_to_fit();
    log.price_puts.shrink_to_fit();
    log.price_takes.shrink_to_fit();
}
