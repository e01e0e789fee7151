//! The cluster: the parts of all nodes over a plan, with what contracts see of them.

ghost use Rattle.std.specs.Prelude.{◌≡◌, ℕ, ◌≤◌, true};
ghost use Rattle.pm_market.specs.Lists.{nodes, IsLeaf};
ghost use Rattle.pm_plan.specs.Market.{plan_lists};
ghost use Rattle.pm_cluster.specs.Next.{count_of};

use pm_auctioneer::Auctioneer;
use pm_bid::ArrayBid;
use pm_concentrator::Concentrator;
use pm_device::DeviceState;
use pm_plan::Plan;
use pm_session::{Link, Port};
use pm_tree::NodeId;
use std::marker::Model;

/// A cluster that runs a plan.
///
/// Its type keeps that there is a state of the market of cuts that it stands for.
pub struct Cluster<'p> {
    pub(crate) plan: &'p Plan,
    /// By the node: of a device how many changes it made, its state, and whether it is a member.
    pub(crate) counts: Vec<u32>,
    pub(crate) states: Vec<DeviceState>,
    pub(crate) members: Vec<bool>,
    /// How many changes a device has made once those of the open phase are made.
    pub(crate) due: Vec<u32>,
    /// The power of a device in watts at the end of the phase closed last.
    pub(crate) powers: Vec<i64>,
    pub(crate) closed: u32,
    /// The links of each node to its children, by their places.
    pub(crate) links: Vec<Vec<Link>>,
    pub(crate) concentrators: Vec<Option<Concentrator>>,
    pub(crate) auctioneer: Auctioneer,
    pub(crate) ports: Vec<Port>,
    /// A bid to write in.
    pub(crate) spare: ArrayBid,
}

impl<'p> Model for Cluster<'p> {
    ghost use Rattle.pm_cluster.specs.Clusters.{ClusterValue};

    ghost Value = { ClusterValue };

    ghost use Rattle.pm_cluster.specs.ClusterFields.{cluster_of, AreClusterFields};

    ghost view = { cluster_of };

    ghost invariant = { AreClusterFields };
}

/// Its owner lets go of it in one step; a derived drop would be one for each part.
impl Drop for Cluster<'_> {
    fn drop(self) {
        let Cluster {
            plan: _,
            counts: _,
            states: _,
            members: _,
            due: _,
            powers: _,
            closed: _,
            links: _,
            concentrators: _,
            auctioneer: _,
            ports: _,
            spare: _,
        } = self;
    }
}

impl<'p> Cluster<'p> {
    /// The plan that it runs.
    pub fn plan(&self) -> &'p Plan
        ensures plan { result.now ≡ self.now.plan }
    {
        self.plan
    }

    /// How many phases are closed.
    pub fn closed(&self) -> u32
        ensures closed { result ≡ self.now.core.closed }
    {
        self.closed
    }

    /// How many changes a device made.
    pub fn count(&self, device: NodeId) -> u32
        requires leaf { IsLeaf (plan_lists self.now.plan) device.0 }
        ensures count { result ≡ count_of self.now.core device.0 }
    {
        self.counts[device.0 as usize]
    }
}
