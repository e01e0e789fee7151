//! Makes the tree of names from the nodes of a file.

ghost use Rattle.std.specs.Prelude.{◌≡◌, map, IfOk};
ghost use Rattle.pm_tree.specs.Entries.{entries_of};
ghost use Rattle.pm_plan.specs.Parts.{is_device, node_part};
ghost use Rattle.pm_base.specs.Outcomes.{Gives};
ghost use Rattle.pm_plan.specs.Refusals.{refusal_in};
ghost use Rattle.pm_scene.specs.Nodes.{named_part};
ghost use Rattle.pm_scene.specs.Trees.{entries_in, parts_in, tree_of};

use crate::shape::NamedNode;
use pm_plan::{Cause, NodeSpec, Place, PlanFault, Refusal};
use pm_tree::{Tree, TreeEntry, TreeFault};
use std::alloc::{AllocError, Global};

/// The entries of the tree and what its nodes are, both in file order.
#[derive(Drop)]
pub(crate) struct Parts {
    pub(crate) entries: Vec<TreeEntry>,
    pub(crate) specs: Vec<NodeSpec>,
}

/// Whether a node of the file declares a device.
fn declares_device(spec: &NodeSpec) -> bool
    ensures { result ≡ is_device (node_part spec.now) }
{
    match spec {
        NodeSpec::Concentrator => false,
        NodeSpec::Limited { .. } => false,
        NodeSpec::Device { .. } => true,
    }
}

/// The nodes without their names, and the entries of their names.
pub(crate) fn parts_of(alloc: Global, nodes: Vec<NamedNode>) -> Result<Parts, AllocError>
    ensures entries { IfOk result (λ p. entries_of p.entries.items
        ≡ entries_in (map named_part nodes.items)) }
    ensures parts { IfOk result (λ p. map node_part p.specs.items
        ≡ parts_in (map named_part nodes.items)) }
{
    let mut entries = Vec::new(alloc);
    let mut specs = Vec::new(alloc);
    for node in nodes {
        let NamedNode { name, parent, spec } = node;
        let leaf = declares_device(&spec);
        entries.push(TreeEntry { name, parent, leaf })?;
        specs.push(spec)?;
    }
    Ok(Parts { entries, specs })
}

/// The tree of the entries.
pub(crate) fn read_tree(alloc: Global, entries: Vec<TreeEntry>) -> Result<Tree, PlanFault>
    ensures { Gives refusal_in (λ t. t) result (tree_of (entries_of entries.items)) }
{
    let refusal = match Tree::new(alloc, entries) {
        Ok(tree) => return Ok(tree),
        Err(TreeFault::NoMemory) => return Err(PlanFault::NoMemory),
        Err(TreeFault::TooMany { .. }) => Refusal::at(Cause::TooManyNodes, Place::Document),
        Err(TreeFault::BadName { at }) => Refusal::at(Cause::BadName, Place::Node { number: at }),
        Err(TreeFault::Twice { at }) => Refusal::at(Cause::NameTwice, Place::Node { number: at }),
        Err(TreeFault::NoParent { at }) => Refusal::at(
            Cause::UnknownParent,
            Place::Node { number: at },
        ),
        Err(TreeFault::TooDeep { at }) => Refusal::at(Cause::TooDeep, Place::Node { number: at }),
    };
    Err(PlanFault::Refused(refusal))
}
