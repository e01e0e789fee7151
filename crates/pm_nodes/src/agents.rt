//! Makes the agents of a plan's devices, and tests that a change suits its agent.

ghost use Rattle.std.specs.Prelude.{◌≡◌, ◌+◌, length, true, false, Some, None, IfOk, IfErr, IfSome, IsTrue};
ghost use Rattle.pm_bid.specs.Bids.{HaveSteps};
ghost use Rattle.pm_device.specs.Kinds.{state_fits};
ghost use Rattle.pm_device.specs.declared.kind.Kind.{Kind};
ghost use Rattle.pm_agent.specs.MadeBids.{demand_after_change};
ghost use Rattle.pm_market.specs.Lists.{nodes, IsLeaf};
ghost use Rattle.pm_plan.specs.Market.{plan_lists};
ghost use Rattle.pm_plan.specs.Plans.{node, kind_of};
ghost use Rattle.pm_nodes.specs.DeviceAgents.{AreAgents, AreOnlyAgents, IsAgentOf};

use pm_agent::{DeviceAgent, Made};
use pm_bid::ArrayBid;
use pm_device::Next;
use pm_plan::{Plan, is_device};
use pm_tree::NodeId;
use std::alloc::{AllocError, Global};

/// The agents of the devices of a plan, each in the place of its node; none elsewhere.
#[tactic(auto, using(crate::proofs::DeviceAgents::no_agents, crate::proofs::DeviceAgents::all_agents, pm_plan::proofs::MarketLists::nodes_are))]
pub fn make_agents(alloc: Global, plan: &Plan) -> Result<Vec<Option<DeviceAgent>>, AllocError>
    ensures places { IfOk result (λ agents. length agents.items ≡ nodes (plan_lists plan.now) + 1) }
    ensures each { IfOk result (λ agents. AreAgents plan.now agents.items) }
    ensures only { IfOk result (λ agents. AreOnlyAgents plan.now agents.items) }
{
    let nodes = plan.tree().len();
    let mut agents = Vec::with_capacity(alloc, nodes as usize + 1)?;
    for number in 0..nodes + 1 {
        agents.push(agent_of(alloc, plan, number)?)?;
    }
    Ok(agents)
}

/// The agent of a device; none of another node.
#[tactic(auto, using(pm_plan::proofs::MarketLists::leaf_of_plan, pm_plan::proofs::Fits::kind_valid, crate::proofs::DeviceAgents::agent_is))]
pub fn agent_of(alloc: Global, plan: &Plan, number: u32) -> Result<Option<DeviceAgent>, AllocError>
    ensures agent { IfOk result (λ agent. IfSome agent (IsAgentOf plan.now number)) }
    ensures none { IfOk result (λ agent. agent ≡ None → IsLeaf (plan_lists plan.now) number → ⊥) }
{
    let node = NodeId(number);
    if !is_device(plan, node) {
        return Ok(None);
    }
    let kind = plan.kind(node);
    let agent = DeviceAgent::new(alloc, kind, number, plan.basis().steps())?;
    Ok(Some(agent))
}

/// Whether a change is one of the agent's device, in a state of its kind, and of its steps.
#[tactic(auto, using(crate::proofs::DeviceAgents::plan_arrays))]
pub fn can_work(agent: &DeviceAgent, next: Next, plan: &Plan) -> bool
    ensures device { result ≡ true → next.device ≡ agent.now.device }
    ensures fits { result ≡ true → IsTrue (state_fits agent.now.kind next.state.0) }
    ensures steps { result ≡ true → agent.now.steps ≡ plan.now.basis.steps }
    ensures arrays { result ≡ true → HaveSteps agent.now.steps plan.now.arrays }
    ensures refused { result ≡ false → next.device ≡ agent.now.device →
        agent.now.steps ≡ plan.now.basis.steps →
        IsTrue (state_fits agent.now.kind next.state.0) → ⊥ }
{
    if next.device != agent.device() {
        return false;
    }
    if agent.steps() != plan.basis().steps() {
        return false;
    }
    agent.kind().fits(next.state)
}

/// What the next change of a device of the plan makes of it, with its demand in a bid that is handed over. The bid comes back if
/// the change is of no device of the plan, its state is none of the device's kind, or the bid has not the plan's steps.
#[tactic(auto, using(pm_plan::proofs::MarketLists::leaf_of_plan, pm_plan::proofs::Fits::kind_valid, crate::proofs::DeviceAgents::plan_arrays))]
pub fn make_bid(plan: &Plan, next: Next, bid: ArrayBid) -> Result<Made, ArrayBid>
    ensures next { IfOk result (λ made. made.next ≡ next) }
    ensures kind { IfOk result (λ made. kind_of (node plan.now next.device) ≡ Some made.kind) }
    ensures demand { IfOk result (λ made. made.demand
        ≡ demand_after_change made.kind next plan.now.arrays plan.now.basis.steps) }
    ensures steps { IfOk result (λ made. length made.demand ≡ plan.now.basis.steps) }
    ensures back { IfErr result (λ other. other ≡ bid) }
    ensures refused { IfErr result (λ _. (kind : Kind) →
        IsLeaf (plan_lists plan.now) next.device →
        kind_of (node plan.now next.device) ≡ Some kind → IsTrue (state_fits kind next.state.0) →
        length bid ≡ plan.now.basis.steps → ⊥) }
{
    let device = NodeId(next.device);
    if !is_device(plan, device) {
        return Err(bid);
    }
    if bid.steps() != plan.basis().steps() {
        return Err(bid);
    }
    let kind = plan.kind(device);
    if !kind.fits(next.state) {
        return Err(bid);
    }
    Ok(Made::new(kind, next, plan.arrays(), bid))
}
