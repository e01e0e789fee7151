//! Makes a plan of the parts of a file, or gives the first refusal.

ghost use Rattle.std.specs.Prelude.{◌≡◌, ◌≤◌, Ok, map, length, OnOk, IfOk};
ghost use Rattle.pm_plan.specs.Plans.{phases as phase_count};
ghost use Rattle.pm_basis.specs.Prices.{IsBasis};
ghost use Rattle.pm_tree.specs.Entries.{checked_tree, parents_of, leaves_of};
ghost use Rattle.pm_tree.specs.Shape.{IsTree};
ghost use Rattle.pm_plan.specs.Parts.{AreNodesOf, node_part, phase_part};
ghost use Rattle.pm_plan.specs.Building.{checked_plan, nodes_and_phases};
ghost use Rattle.pm_base.specs.Limits.{most_nodes, most_phases};
ghost use Rattle.pm_base.specs.Outcomes.{Gives};
ghost use Rattle.pm_plan.specs.Refusals.{Makes, refusal_in};

use crate::building::nodes::add_nodes;
use crate::building::phases::add_phases;
use crate::draft::Draft;
use crate::parts::{NodeSpec, PhaseSpec};
use crate::plan::Plan;
use crate::refusal::{Cause, Place, PlanFault, Refusal};
use pm_base::MOST_PHASES;
use pm_basis::Basis;
use pm_tree::Tree;
use std::alloc::Global;

impl Plan {
    /// The plan of a market basis, a tree, what a file says of the tree's nodes in their order, and its phases.
    /// Otherwise the first refusal.
    ///
    /// More than 1000 phases are refused first, with code 20 at the document. Then come the nodes in order:
    ///
    /// - 13 if the floor of a limited concentrator lies outside -256,000,000,000..=0, or its ceiling outside
    ///   0..=256,000,000,000, or a parameter of a device's kind outside its limits;
    /// - 22 if a limited concentrator is above a limited one;
    /// - 17 and 18 if a manual device's demands or points are no bid, with the item at fault, and 19 if a start does
    ///   not fit its kind.
    ///
    /// Then the phases in order:
    ///
    /// - 13 if a tick's minutes lie outside 1..=1440, and 20 if a phase has more than 4096 events;
    /// - of each event 14 if no device has its name, 15 if a member joins, and 16 if a device that is no member
    ///   leaves or is set. For its state 17, 18 and 19 come as above;
    /// - 20 if all changes up to the phase's end are more than 20,000.
    ///
    /// An allocation failure may be answered at any parts.
    pub fn new(
        alloc: Global,
        basis: Basis,
        tree: Tree,
        nodes: Vec<NodeSpec>,
        phases: Vec<PhaseSpec>,
    ) -> Result<Plan, PlanFault>
        requires nodes { AreNodesOf tree (map node_part nodes.items) }
        ensures plan { Gives refusal_in (λ p. p) result
            (checked_plan basis tree (map node_part nodes.items) (map phase_part phases.items)) }
        ensures phases { IfOk result (λ p. phase_count p ≡ length phases.items) }
    {
        let draft = build(alloc, basis, tree, &nodes, &phases)?;
        Ok(Plan { draft })
    }
}

/// Takes all parts in order.
#[tactic(auto, unfolding(crate::specs::Building::checked_plan))]
fn build(
    alloc: Global,
    basis: Basis,
    tree: Tree,
    nodes: &[NodeSpec],
    phases: &[PhaseSpec],
) -> Result<Draft, PlanFault>
    requires nodes { AreNodesOf tree (map node_part nodes.now) }
    ensures draft { Gives refusal_in (λ draft. draft) result
        (checked_plan basis tree (map node_part nodes.now) (map phase_part phases.now)) }
    ensures sound { OnOk result (IsBasis basis) }
    ensures accepted { OnOk result (checked_tree tree ≡ Ok tree) }
    ensures lawful { OnOk result (IsTree (parents_of tree) (leaves_of tree)) }
{
    if MOST_PHASES < phases.len() {
        return Err(PlanFault::Refused(Refusal::at(Cause::RunTooLarge, Place::Document)));
    }
    let mut draft = Draft::new(alloc, basis, tree)?;
    add_parts(alloc, &mut draft, nodes, phases)?;
    Ok(draft)
}

/// Takes the nodes in order, and then the phases.
fn add_parts(
    alloc: Global,
    draft: &mut Draft,
    nodes: &[NodeSpec],
    phases: &[PhaseSpec],
) -> Result<(), PlanFault>
    requires lawful { IsTree (parents_of draft.old.entries) (leaves_of draft.old.entries) }
    requires first { length draft.old.nodes ≡ 0 }
    requires one_each { length nodes.now ≡ length draft.old.entries }
    requires few_nodes { length nodes.now ≤ most_nodes }
    requires few_phases { length phases.now ≤ most_phases }
    requires arrays { length draft.old.arrays ≡ 0 }
    ensures { Makes result draft.new
        (nodes_and_phases draft.old (map node_part nodes.now) (map phase_part phases.now)) }
{
    add_nodes(alloc, draft, nodes)?;
    add_phases(alloc, draft, phases)
}
