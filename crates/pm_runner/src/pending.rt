//! Who has work, told by the moves alone. All of it is kept behind the lock, beside the board.
//!
//! # Who has work after which line
//!
//! | After | What is noted | Who may have work from it |
//! |---|---|---|
//! | the opening of a phase | which devices change in it, and who owes whom | those devices |
//! | `Change` | its number waits to be learnt; after its last change it owes no more | that device; its parent |
//! | `Learn` | one number fewer waits; the parent has something to send; whether a price may come to the child | that parent |
//! | `Publish` | all is sent; the number waits to be learnt; it owes no more | the parent above |
//! | `Clear` | all is sent; a price waits for each child that may be addressed | those children |
//! | `Pass` to a concentrator | its price is taken; one waits for each child that may be addressed | those children |
//! | `Pass` to a device | its price is taken | nobody |
//! | a turn without a move | the node is stuck until a bid or a price comes to it | nobody |
//!
//! A node has work if a price waits for it, if it is a device with a change to make, or if it is a parent that has something
//! to learn or to send and **no child owes it anything**. Each device that changes in the open phase owes its parent, and so
//! does each concentrator with such a device below it. So a parent learns and sends once a phase, whatever the order in which
//! its children were served, and its thread is woken once for it.
//!
//! A clearing may be passed to a concentrator from which its parent learnt a bid, and to a device whose bid, as its parent learnt
//! it last, is not gone: a parent learns all that waits before it sends, so a clearing has what each parent below it learnt last.
//! Where one does not, as it is of an earlier cut, the turn of a node may find no move. Then `found_nothing` takes the work away,
//! so that no thread turns in vain twice.
//!
//! # Why nothing is missed
//!
//! **No wake-up is lost.** A node that is noted as sleeping has no work: that is what the type of the roster keeps (`pm_waking`). Its
//! thread notes the bell in the same hold in which it finds no work. Whatever gives the node work takes the note away, and lists the
//! bell. Whoever lets the lock go takes that list and rings its bells. A bell that rings between the unlocking and the sleeping of a
//! thread keeps it from sleeping, so it is enough to ring afterwards. A thread that wakes at a bell that rang for others finds no
//! work, notes its bell and sleeps again.
//!
//! **Nothing stalls.** Suppose no node has work. Then no device has a change left, and no price waits. Take a lowest one of the
//! parents that are owed something. Its children owe it changes, of which none is left, or publishings of concentrators that
//! are owed nothing. Such a concentrator learnt something, or its children's numbers wait, so it has work unless its last turn
//! found no move. Except in that case all is learnt and sent, and the phase can be closed. A turn finds no move, though one was
//! expected, if a window is full: a publishing waits for the price that answers an older number, and that price ends the case
//! when it comes. The thread whose move left no node with work comes back for its next turn and closes the phase, as does any
//! other that looks. If the board refuses the closing all the same, the run is halted, and the caller makes the moves that are
//! left. So no contract rests on this page: whoever is woken too often finds nothing to do, and what is left over is finished.

use crate::bells::Bells;
use pm_board::Board;
use pm_device::Next;
use pm_market::Move;
use pm_plan::{Plan, is_device};
use pm_tree::NodeId;
use pm_turns::next_of;
use pm_waking::{DevicePending, NodePending, NodeSort, ParentPending, Rings, Roster};
use std::alloc::{AllocError, Global};

/// From so many devices on that change in a phase, those that wait for its end yield before they sleep.
const CROWD: usize = 64;

/// What is pending at each node.
#[derive(Drop)]
pub(crate) struct Pending {
    /// The nodes by their numbers, the auctioneer first, and where each sleeps.
    roster: Roster,
    pub(crate) bells: Bells,
    /// Whether the open phase has changes.
    pub(crate) active: bool,
    /// Whether many devices change in the open phase.
    pub(crate) crowded: bool,
    /// Whether the open phase is the last.
    last: bool,
}

impl Pending {
    /// Nothing is pending, and all nodes are awake.
    pub(crate) fn new(alloc: Global, plan: &Plan, bells: Bells) -> Result<Pending, AllocError> {
        let count = plan.tree().len() as usize + 1;
        let mut roster = Roster::with_capacity(alloc, count, bells.count())?;
        roster.add(0, false)?;
        for number in 1..plan.tree().len() + 1 {
            let node = NodeId(number);
            let parent = plan.tree().parent(node);
            roster.add(parent.0, plan.tree().is_leaf(node))?;
        }
        Ok(Pending {
            roster,
            bells,
            active: false,
            crowded: false,
            last: false,
        })
    }

    /// What is pending at a node; none if there is no such node.
    pub(crate) fn at(&self, node: u32) -> Option<NodePending> {
        self.roster.get(node)
    }

    /// Whether a node may have a move to make.
    pub(crate) fn has_work(&self, node: u32) -> bool {
        match self.at(node) {
            Some(pending) => pending.has_work(),
            None => false,
        }
    }

    /// Whether a device has a change to make, and no price is to be taken first.
    pub(crate) fn may_change(&self, node: u32) -> bool {
        match self.at(node) {
            Some(pending) => pending.has_change() && !pending.price,
            None => false,
        }
    }

    /// Whether a node is a device without work that may be given some in the run.
    pub(crate) fn is_resting(&self, node: u32) -> bool {
        let Some(pending) = self.at(node) else {
            return false;
        };
        pending.device().is_some() && !pending.has_work() && !self.is_finished(node)
    }

    /// Whether no node has work.
    pub(crate) fn is_quiet(&self) -> bool {
        self.roster.is_quiet()
    }

    /// Whether nothing will come to a node any more: the open phase is the last, all of it is cleared, and no clearing
    /// waits on the way to the node.
    pub(crate) fn is_finished(&self, node: u32) -> bool {
        self.last && self.roster.is_settled() && !self.awaits_price(node)
    }

    /// Whether a clearing waits at a node or at one above it.
    fn awaits_price(&self, node: u32) -> bool {
        let mut here = node;
        for _ in 0..self.roster.len() {
            let Some(pending) = self.at(here) else {
                return true;
            };
            if pending.price {
                return true;
            }
            if here == 0 {
                return false;
            }
            here = pending.parent;
        }
        true
    }

    /// Wakes all that sleep.
    pub(crate) fn wake_all(&mut self) {
        self.roster.wake_all();
    }

    /// A node sleeps at a bell.
    pub(crate) fn sleep(&mut self, node: u32, bell: u32) {
        self.roster.sleep(node, bell);
    }

    /// A node is awake.
    pub(crate) fn rise(&mut self, node: u32) {
        self.roster.rise(node);
    }

    /// Hands out the bells that are to be rung, for a list without any.
    pub(crate) fn hand_out(&mut self, rings: &mut Rings) {
        self.roster.hand_out(rings);
    }

    /// A phase was opened: which devices change in it, and who owes whom.
    pub(crate) fn open_phase(&mut self, board: &Board) {
        let plan = board.plan();
        self.last = board.ends().len() + 1 == plan.phases() as usize;
        self.active = false;
        for number in 1..plan.tree().len() + 1 {
            if is_device(plan, NodeId(number)) {
                let changes = next_of(board, number).is_some();
                self.begin(number, changes);
            }
        }
        self.crowded = self.roster.changing() >= CROWD;
    }

    /// A phase begins for a device, with changes of it or without.
    fn begin(&mut self, number: u32, changes: bool) {
        let Some((node, device)) = self.device_at(number) else {
            return;
        };
        let device = DevicePending {
            changes,
            active: changes,
            passed: false,
            ..device
        };
        self.set_device(number, node, device);
        if changes {
            self.active = true;
            self.owe(number);
        }
    }

    /// A node owes its parent, and the parent, if it is a concentrator to which nothing was owed before, its own.
    fn owe(&mut self, number: u32) {
        let mut here = number;
        for _ in 0..self.roster.len() {
            let Some(pending) = self.at(here) else {
                return;
            };
            let above = pending.parent;
            let Some((node, parent)) = self.parent_at(above) else {
                return;
            };
            let goes_on = parent.below == 0 && above != 0;
            let below = parent.below.saturating_add(1);
            let owes = parent.owes || goes_on;
            self.set_parent(
                above,
                node,
                ParentPending {
                    below,
                    owes,
                    ..parent
                },
            );
            if !goes_on {
                return;
            }
            here = above;
        }
    }

    /// A device made a change; whether it has another one in the open phase.
    pub(crate) fn changed(&mut self, made: Next, more: bool) {
        let Some((node, device)) = self.device_at(made.device) else {
            return;
        };
        let device = DevicePending {
            member: made.member,
            changes: more,
            ..device
        };
        self.set_device(made.device, node, device);
        self.offer(made.device, !more);
    }

    /// A number of a node waits to be learnt, and the node owes its parent no more, if `paid`.
    fn offer(&mut self, number: u32, paid: bool) {
        let Some(node) = self.at(number) else {
            return;
        };
        let newly = !node.offered;
        self.roster.set(
            number,
            NodePending {
                offered: true,
                ..node
            },
        );
        let Some((above, parent)) = self.parent_at(node.parent) else {
            return;
        };
        let parent = ParentPending {
            bids: parent.bids.saturating_add(newly as u32),
            below: parent.below.saturating_sub(paid as u32),
            stuck: false,
            ..parent
        };
        self.set_parent(node.parent, above, parent);
    }

    /// A node made a move.
    pub(crate) fn moved(&mut self, plan: &Plan, what: Move) {
        match what {
            Move::Learn { child, .. } => self.learnt(child),
            Move::Publish { node, .. } => self.published(node),
            Move::Clear { .. } => self.cleared(plan),
            Move::Pass { node, .. } => self.passed(plan, node),
            Move::Change { .. } | Move::Close { .. } => {}
        }
    }

    /// A parent learnt a number of a child: a clearing may be passed to the child, unless it is a device whose bid is gone.
    fn learnt(&mut self, child: u32) {
        let Some(node) = self.at(child) else {
            return;
        };
        let addressed = match node.device() {
            Some(device) => device.member,
            None => true,
        };
        let offered = false;
        self.roster.set(
            child,
            NodePending {
                offered,
                addressed,
                ..node
            },
        );
        let Some((above, parent)) = self.parent_at(node.parent) else {
            return;
        };
        let bids = parent.bids.saturating_sub(1);
        let learnt = true;
        self.set_parent(
            node.parent,
            above,
            ParentPending {
                bids,
                learnt,
                ..parent
            },
        );
    }

    /// A concentrator published all that it learnt, and owes its parent no more.
    fn published(&mut self, number: u32) {
        let Some((node, parent)) = self.parent_at(number) else {
            return;
        };
        let paid = parent.owes;
        let (owes, learnt) = (false, false);
        self.set_parent(
            number,
            node,
            ParentPending {
                owes,
                learnt,
                ..parent
            },
        );
        self.offer(number, paid);
    }

    /// The auctioneer cleared all that it learnt.
    fn cleared(&mut self, plan: &Plan) {
        if let Some((node, parent)) = self.parent_at(0) {
            let learnt = false;
            self.set_parent(0, node, ParentPending { learnt, ..parent });
        }
        self.price_children(plan, 0);
    }

    /// A clearing was passed to a node, and may be passed on to its children.
    fn passed(&mut self, plan: &Plan, number: u32) {
        let Some(node) = self.at(number) else {
            return;
        };
        let price = false;
        let sort = match node.sort {
            NodeSort::Device(device) => NodeSort::Device(DevicePending {
                passed: true,
                ..device
            }),
            NodeSort::Parent(parent) => NodeSort::Parent(ParentPending {
                stuck: false,
                ..parent
            }),
        };
        self.roster.set(
            number,
            NodePending {
                price,
                sort,
                ..node
            },
        );
        if node.device().is_none() {
            self.price_children(plan, number);
        }
    }

    /// A clearing reached a parent, and each of its children that may be addressed can be passed it.
    fn price_children(&mut self, plan: &Plan, parent: u32) {
        if parent > plan.tree().len() {
            return;
        }
        for child in plan.tree().children(NodeId(parent)) {
            self.price(child.0);
        }
    }

    /// A clearing may be passed to a node, if it is addressed.
    fn price(&mut self, number: u32) {
        let Some(node) = self.at(number) else {
            return;
        };
        if node.addressed {
            let price = true;
            let sort = with_stuck(node.sort, false);
            self.roster.set(
                number,
                NodePending {
                    price,
                    sort,
                    ..node
                },
            );
        }
    }

    /// A turn of a node found no move. Nothing but a bid or a price that comes to it gives it work again.
    pub(crate) fn found_nothing(&mut self, number: u32) {
        let Some(node) = self.at(number) else {
            return;
        };
        let price = false;
        let sort = with_stuck(node.sort, true);
        self.roster.set(
            number,
            NodePending {
                price,
                sort,
                ..node
            },
        );
    }

    /// A node that is a device, with what is pending at the device.
    fn device_at(&self, number: u32) -> Option<(NodePending, DevicePending)> {
        let node = self.at(number)?;
        match node.sort {
            NodeSort::Device(device) => Some((node, device)),
            NodeSort::Parent(_) => None,
        }
    }

    /// A node with children, with what is pending at it as such.
    fn parent_at(&self, number: u32) -> Option<(NodePending, ParentPending)> {
        let node = self.at(number)?;
        match node.sort {
            NodeSort::Device(_) => None,
            NodeSort::Parent(parent) => Some((node, parent)),
        }
    }

    fn set_device(&mut self, number: u32, node: NodePending, device: DevicePending) {
        let sort = NodeSort::Device(device);
        self.roster.set(number, NodePending { sort, ..node });
    }

    fn set_parent(&mut self, number: u32, node: NodePending, parent: ParentPending) {
        let sort = NodeSort::Parent(parent);
        self.roster.set(number, NodePending { sort, ..node });
    }
}

/// The sort of a node whose last turn found no move, or to which something came since; a device has no such note.
fn with_stuck(sort: NodeSort, stuck: bool) -> NodeSort {
    match sort {
        NodeSort::Device(device) => NodeSort::Device(device),
        NodeSort::Parent(parent) => NodeSort::Parent(ParentPending { stuck, ..parent }),
    }
}
