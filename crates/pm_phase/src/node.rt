//! A node of a phase: its part of the market, and its ends of the links.

ghost use Rattle.std.specs.Prelude.{◌≡◌, IfOk};
ghost use Rattle.pm_phase.specs.Beginning.{BegunDuty};
ghost use Rattle.pm_phase.specs.Nodes.{IsNewDuty, held_by_node};

use crate::device::DevicePart;
use crate::ends::{DownEnd, UpEnd};
use crate::parent::ParentPart;
use pm_nodes::agent_of;
use pm_plan::Plan;
use pm_session::Held;
use std::alloc::{AllocError, Global};

/// A node, with all that its turns need.
#[derive(Drop)]
pub(crate) struct FreeNode {
    pub(crate) part: NodePart,
    /// Its end of the link to its parent; the auctioneer has none.
    pub(crate) up: Option<UpEnd>,
    /// Its ends of the links to its children, by their places.
    pub(crate) downs: Vec<DownEnd>,
}

/// What a node owns in every phase.
pub struct NodePart {
    pub(crate) number: u32,
    pub(crate) duty: Duty,
}

/// Its owner lets go of it in one step, where a derived drop would be one for each part.
impl Drop for NodePart {
    fn drop(self) {
        let NodePart { number: _, duty: _ } = self;
    }
}

/// What a node does.
#[derive(Drop)]
pub(crate) enum Duty {
    Device(DevicePart),
    Parent(ParentPart),
}

impl NodePart {
    /// A node before the first phase.
    pub fn new(alloc: Global, plan: &Plan, number: u32) -> Result<NodePart, AllocError>
        ensures number { IfOk result (λ part. part.number ≡ number) }
        ensures duty { IfOk result (λ part. IsNewDuty plan.now number part.duty) }
    {
        let duty = new_duty(alloc, plan, number)?;
        Ok(NodePart { number, duty })
    }

    /// The price that a device holds; none of another node.
    pub fn held(&self) -> Option<Held>
        ensures { result ≡ held_by_node self.now }
    {
        match &self.duty {
            Duty::Device(device) => device.held(),
            Duty::Parent(_) => None,
        }
    }

    /// A phase begins.
    pub(crate) fn begin(&mut self)
        ensures number { self.new.number ≡ self.old.number }
        ensures begun { BegunDuty self.old.duty self.new.duty }
    {
        match &mut self.duty {
            Duty::Device(device) => device.begin(),
            Duty::Parent(parent) => parent.begin(),
        }
    }
}

/// What a node does, before the first phase.
#[tactic(auto, using(pm_plan::proofs::LeafTests::leaf_is))]
fn new_duty(alloc: Global, plan: &Plan, node: u32) -> Result<Duty, AllocError>
    ensures new { IfOk result (IsNewDuty plan.now node) }
{
    let Some(agent) = agent_of(alloc, plan, node)? else {
        return Ok(Duty::Parent(ParentPart::new(alloc, plan, node)?));
    };
    Ok(Duty::Device(DevicePart::new(agent)))
}
