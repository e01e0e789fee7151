//! Opens the links of a phase, and hands their ends to the nodes.

ghost use Rattle.std.specs.Prelude.{◌≡◌, All, IfOk, [], ◌∷◌, ◌++◌, length};
ghost use Rattle.pm_cells.specs.Ends.{TableId};
ghost use Rattle.pm_phase.specs.Ends.{AreOf, IsUpOf, IsDownOf, ArePlaced};
ghost use Rattle.pm_phase.specs.Nodes.{numbers_of_parts, numbers_of_nodes};
ghost use Rattle.pm_phase.specs.Opening.{PutsAgain};
ghost use Rattle.pm_phase.specs.Closing.{IsEmptyPlace};
ghost use Rattle.pm_phase.specs.Beginning.{StartsFrom, IsOpenedNode, OpenUp, IsFreshUp, IsFreshDown, LearntAgain, IsLinkOf};
ghost use Rattle.std.specs.Prelude.{ℕ, List};
ghost use Rattle.pm_plan.specs.Plans.{PlanData};
ghost use Rattle.pm_phase.specs.declared.node.NodePart.{NodePart};

use crate::closing::Places;
use crate::ends::{DownEnd, UpEnd, put_waiting_bid, take_bid_from_child};
use crate::node::{Duty, FreeNode, NodePart};
use crate::parent::ParentPart;
use pm_cells::{FreeLink, UpMessage, open_link};
use pm_plan::Plan;
use pm_tree::NodeId;
use std::alloc::{AllocError, Global};

/// The links of a phase, one above each node of the file; the places to which their ends are to come back; and the nodes, with
/// the ends.
///
/// On each link the newest bid that the parent learnt from the child, where there is one, is put again and taken at once, so
/// that a price of the phase may name it.
pub(crate) fn open_links(
    alloc: Global,
    plan: &Plan,
    parts: Vec<NodePart>,
    room: usize,
) -> Result<(Vec<FreeLink>, Vec<Places>, Vec<FreeNode>), AllocError>
    ensures nodes { IfOk result (λ opened. All (AreOf opened.0.items) opened.2.items) }
    ensures places { IfOk result (λ opened. ArePlaced opened.0.items opened.1.items) }
    ensures empty { IfOk result (λ opened. All IsEmptyPlace opened.1.items) }
    ensures opened { IfOk result (λ opened.
        All (IsOpenedNode plan.now parts.items) opened.2.items) }
    ensures numbers { IfOk result (λ opened.
        numbers_of_nodes opened.2.items ≡ numbers_of_parts parts.items) }
    ensures each { IfOk result (λ opened. length opened.0.items ≡ length plan.now.entries) }
{
    let mut nodes = without_ends(alloc, parts)?;
    let mut links = Vec::with_capacity(alloc, nodes.len())?;
    let mut places = Vec::with_capacity(alloc, nodes.len())?;
    for number in 1..plan.tree().len() + 1 {
        let (up, down) = add_link(alloc, room, &mut links, &mut places)?;
        let above = plan.tree().parent(NodeId(number)).0;
        let place = plan.tree().place(NodeId(number));
        hand_out(&links, &mut nodes, number, above, place, up, down)?;
    }
    Ok((links, places, nodes))
}

/// Adds a new link, with empty places for its ends; the two ends.
fn add_link(
    alloc: Global,
    room: usize,
    links: &mut Vec<FreeLink>,
    places: &mut Vec<Places>,
) -> Result<(UpEnd, DownEnd), AllocError>
    requires places { ArePlaced links.old.items places.old.items }
    ensures up { IfOk result (λ ends. IsUpOf links.new.items ends.0) }
    ensures down { IfOk result (λ ends. IsDownOf links.new.items ends.1) }
    ensures fresh_up { IfOk result (λ ends. IsFreshUp ends.0) }
    ensures fresh_down { IfOk result (λ ends. IsFreshDown ends.1) }
    ensures up_at { IfOk result (λ ends. ends.0.at ≡ length links.old.items) }
    ensures down_at { IfOk result (λ ends. ends.1.at ≡ length links.old.items) }
    ensures one_more { IfOk result (λ _. (link : TableId)
        × (links.new.items ≡ links.old.items ++ link ∷ [])) }
    ensures places { IfOk result (λ _. ArePlaced links.new.items places.new.items) }
    ensures empty { All IsEmptyPlace places.old.items →
        IfOk result (λ _. All IsEmptyPlace places.new.items) }
{
    let (link, child, parent) = open_link(alloc, room)?;
    let at = links.len();
    links.push(link)?;
    places.push(Places {
        up: None,
        down: None,
    })?;
    Ok((UpEnd { at, end: child }, DownEnd { at, end: parent }))
}

/// The nodes before they have ends.
fn without_ends(alloc: Global, parts: Vec<NodePart>) -> Result<Vec<FreeNode>, AllocError>
    ensures links { IfOk result (λ nodes. All (AreOf []) nodes.items) }
    ensures starts { IfOk result (λ nodes. All (StartsFrom parts.items) nodes.items) }
    ensures numbers { IfOk result (λ nodes.
        numbers_of_nodes nodes.items ≡ numbers_of_parts parts.items) }
{
    let mut nodes = Vec::with_capacity(alloc, parts.len())?;
    for part in parts {
        let mut part = part;
        part.begin();
        nodes.push(FreeNode {
            part,
            up: None,
            downs: Vec::new(alloc),
        })?;
    }
    Ok(nodes)
}

/// Hands the two ends of a link to a node and to the one above it.
fn hand_out(
    links: &[FreeLink],
    nodes: &mut Vec<FreeNode>,
    number: u32,
    above: u32,
    place: usize,
    up: UpEnd,
    down: DownEnd,
) -> Result<(), AllocError>
    requires up { IsUpOf links.now up }
    requires down { IsDownOf links.now down }
    requires nodes { All (AreOf links.now) nodes.old.items }
    ensures nodes { IfOk result (λ _. All (AreOf links.now) nodes.new.items) }
    ensures numbers { numbers_of_nodes nodes.new.items ≡ numbers_of_nodes nodes.old.items }
    ensures opened { (plan : PlanData) → (parts : List NodePart) →
        IsLinkOf plan number above place up.at down.at →
        IsFreshUp up → IsFreshDown down → All (IsOpenedNode plan parts) nodes.old.items →
        IfOk result (λ _. All (IsOpenedNode plan parts) nodes.new.items) }
{
    let mut up = up;
    hand_down(links, nodes, above, place, &mut up, down)?;
    hand_up(links, nodes, number, up);
    Ok(())
}

/// Hands the upper end of a link to a node.
fn hand_down(
    links: &[FreeLink],
    nodes: &mut Vec<FreeNode>,
    above: u32,
    place: usize,
    up: &mut UpEnd,
    down: DownEnd,
) -> Result<(), AllocError>
    requires up { IsUpOf links.now up.old }
    requires down { IsDownOf links.now down }
    requires nodes { All (AreOf links.now) nodes.old.items }
    ensures up { IsUpOf links.now up.new }
    ensures nodes { All (AreOf links.now) nodes.new.items }
    ensures numbers { numbers_of_nodes nodes.new.items ≡ numbers_of_nodes nodes.old.items }
    ensures opened { (plan : PlanData) → (parts : List NodePart) → (node : ℕ) →
        IsLinkOf plan node above place up.old.at down.at →
        IsFreshUp up.old → IsFreshDown down → All (IsOpenedNode plan parts) nodes.old.items →
        IfOk result (λ _. All (IsOpenedNode plan parts) nodes.new.items
        × OpenUp plan parts node up.new) }
{
    if above as usize >= nodes.len() {
        return Ok(());
    }
    add_down(links, &mut nodes[above as usize], above, place, up, down)
}

/// Hands the lower end of a link to a node.
fn hand_up(links: &[FreeLink], nodes: &mut Vec<FreeNode>, number: u32, up: UpEnd)
    requires up { IsUpOf links.now up }
    requires nodes { All (AreOf links.now) nodes.old.items }
    ensures nodes { All (AreOf links.now) nodes.new.items }
    ensures numbers { numbers_of_nodes nodes.new.items ≡ numbers_of_nodes nodes.old.items }
    ensures opened { (plan : PlanData) → (parts : List NodePart) → OpenUp plan parts number up →
        All (IsOpenedNode plan parts) nodes.old.items →
        All (IsOpenedNode plan parts) nodes.new.items }
{
    if number as usize >= nodes.len() {
        return;
    }
    add_up(links, &mut nodes[number as usize], number, up);
}

/// Gives a node of this number its end of the link to its parent.
fn add_up(links: &[FreeLink], node: &mut FreeNode, number: u32, up: UpEnd)
    requires up { IsUpOf links.now up }
    requires node { AreOf links.now node.old }
    ensures node { AreOf links.now node.new }
    ensures part { node.new.part ≡ node.old.part }
    ensures opened { (plan : PlanData) → (parts : List NodePart) → OpenUp plan parts number up →
        IsOpenedNode plan parts node.old → IsOpenedNode plan parts node.new }
{
    if node.part.number == number {
        node.up = Some(up);
    }
}

/// Gives a node of this number its end of the link to the child in a place, if that is the next, over which the newest bid that it
/// learnt from that child was taken.
fn add_down(
    links: &[FreeLink],
    node: &mut FreeNode,
    above: u32,
    place: usize,
    up: &mut UpEnd,
    down: DownEnd,
) -> Result<(), AllocError>
    requires up { IsUpOf links.now up.old }
    requires down { IsDownOf links.now down }
    requires node { AreOf links.now node.old }
    ensures up { IsUpOf links.now up.new }
    ensures node { AreOf links.now node.new }
    ensures number { node.new.part.number ≡ node.old.part.number }
    ensures opened { (plan : PlanData) → (parts : List NodePart) → (child : ℕ) →
        IsLinkOf plan child above place up.old.at down.at →
        IsFreshUp up.old → IsFreshDown down → IsOpenedNode plan parts node.old →
        IfOk result (λ _. IsOpenedNode plan parts node.new × OpenUp plan parts child up.new) }
{
    if node.part.number != above || node.downs.len() != place {
        return Ok(());
    }
    let mut down = down;
    let Duty::Parent(parent) = &mut node.part.duty else {
        return Ok(());
    };
    put_learnt_again(links, parent, place, up, &mut down);
    node.downs.push(down)?;
    Ok(())
}

/// Puts the newest bid that a node learnt from the child in a place again on their new link, and keeps what it has then.
fn put_learnt_again(
    links: &[FreeLink],
    parent: &mut ParentPart,
    place: usize,
    up: &mut UpEnd,
    down: &mut DownEnd,
)
    requires up { IsUpOf links.now up.old }
    requires down { IsDownOf links.now down.old }
    ensures up { IsUpOf links.now up.new }
    ensures down { IsDownOf links.now down.new }
    ensures up_at { up.new.at ≡ up.old.at }
    ensures down_at { down.new.at ≡ down.old.at }
    ensures again { LearntAgain place up.old.end up.new.end down.old.end down.new.end
        parent.old parent.new }
{
    let Some(newest) = parent.learnt.get_mut(place) else {
        return;
    };
    let bid = newest.take();
    *newest = put_again(links, up, down, bid);
}

/// Puts the newest bid that a parent learnt from a child again on their new link, and takes it at once, so that a price of the
/// phase may name it. The answer is the bid that the parent has then.
fn put_again(
    links: &[FreeLink],
    up: &mut UpEnd,
    down: &mut DownEnd,
    bid: Option<UpMessage>,
) -> Option<UpMessage>
    requires up { IsUpOf links.now up.old }
    requires down { IsDownOf links.now down.old }
    ensures up { IsUpOf links.now up.new }
    ensures down { IsDownOf links.now down.new }
    ensures up_at { up.new.at ≡ up.old.at }
    ensures down_at { down.new.at ≡ down.old.at }
    ensures again { PutsAgain up.old.end up.new.end down.old.end down.new.end bid result }
{
    let mut bid = bid;
    if put_waiting_bid(links, up, &mut bid) {
        return take_bid_from_child(links, down);
    }
    bid
}
