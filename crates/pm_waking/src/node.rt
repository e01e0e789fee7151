//! What is pending at one node, and whether the node has work.

ghost use Rattle.std.specs.Prelude.{◌≡◌, false};
ghost use Rattle.pm_waking.specs.Work.{parent_has_news, sort_has_work, has_work, has_change, has_unsent};

/// What is pending at one node.
#[derive(Clone, Copy)]
pub struct NodePending {
    /// The number of its parent's node.
    pub parent: u32,
    /// A clearing may be passed to it: its parent learnt a bid of it, and of a device the newest one that it learnt is not gone.
    pub addressed: bool,
    /// A clearing may wait to be passed to it.
    pub price: bool,
    /// Its newest number waits to be learnt.
    pub offered: bool,
    /// What is pending by the sort of the node.
    pub sort: NodeSort,
}

/// What is pending at a device, or at a node with children.
#[derive(Clone, Copy)]
pub enum NodeSort {
    Device(DevicePending),
    Parent(ParentPending),
}

/// What is pending at a device.
#[derive(Clone, Copy)]
pub struct DevicePending {
    /// It has a change to make in the open phase.
    pub changes: bool,
    /// It changes in the open phase.
    pub active: bool,
    /// Its newest change left it a member.
    pub member: bool,
    /// It was passed a clearing since the last closing.
    pub passed: bool,
}

/// What is pending at a node with children.
#[derive(Clone, Copy)]
pub struct ParentPending {
    /// How many of its children's numbers wait to be learnt.
    pub bids: u32,
    /// It learnt something that it has not published or cleared since.
    pub learnt: bool,
    /// How many of its children still owe it a change or a publishing in the open phase.
    pub below: u32,
    /// It owes its parent a publishing in the open phase.
    pub owes: bool,
    /// Its last turn found no move, and nothing came to it since.
    pub stuck: bool,
}

impl NodePending {
    /// A node before the first move, without work: a device, or a node with children.
    pub fn new(parent: u32, device: bool) -> NodePending
        ensures idle { has_work result ≡ false }
        ensures no_change { has_change result ≡ false }
        ensures not_offered { result.offered ≡ false }
        ensures sent { has_unsent result ≡ false }
        ensures parent { result.parent ≡ parent }
    {
        NodePending {
            parent,
            addressed: false,
            price: false,
            offered: false,
            sort: if device {
                NodeSort::Device(DevicePending::new())
            } else {
                NodeSort::Parent(ParentPending::new())
            },
        }
    }

    /// Whether it may make a move: a clearing waits; a device has a change; or a node with children has something to learn or to
    /// send, no child owes it anything, and its last turn found a move.
    pub fn has_work(&self) -> bool
        ensures { result ≡ has_work self.now }
    {
        self.price || self.sort.has_work()
    }

    /// Whether it is a device with a change to make in the open phase.
    pub fn has_change(&self) -> bool
        ensures { result ≡ has_change self.now }
    {
        match self.sort {
            NodeSort::Device(device) => device.changes,
            NodeSort::Parent(_) => false,
        }
    }

    /// Whether it is a node with children that learnt something that it has not sent.
    pub fn has_unsent(&self) -> bool
        ensures { result ≡ has_unsent self.now }
    {
        match self.sort {
            NodeSort::Device(_) => false,
            NodeSort::Parent(parent) => parent.learnt,
        }
    }

    /// What is pending at the device that it is; none of a node with children.
    pub fn device(&self) -> Option<DevicePending> {
        match self.sort {
            NodeSort::Device(device) => Some(device),
            NodeSort::Parent(_) => None,
        }
    }
}

impl NodeSort {
    /// Whether it gives the node work without a clearing that waits.
    fn has_work(&self) -> bool
        ensures { result ≡ sort_has_work self.now }
    {
        match self {
            NodeSort::Device(device) => device.changes,
            NodeSort::Parent(parent) => parent.below == 0 && !parent.stuck && parent.has_news(),
        }
    }
}

impl DevicePending {
    /// A device before the first move.
    fn new() -> DevicePending
        ensures { result.changes ≡ false }
    {
        DevicePending {
            changes: false,
            active: false,
            member: false,
            passed: false,
        }
    }
}

impl ParentPending {
    /// A node with children before the first move.
    fn new() -> ParentPending
        ensures news { parent_has_news result ≡ false }
        ensures sent { result.learnt ≡ false }
    {
        ParentPending {
            bids: 0,
            learnt: false,
            below: 0,
            owes: false,
            stuck: false,
        }
    }

    /// Whether it has something to learn or to send.
    fn has_news(&self) -> bool
        ensures { result ≡ parent_has_news self.now }
    {
        self.bids > 0 || self.learnt
    }
}
