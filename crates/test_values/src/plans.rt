//! Plans by their parts: nodes in a table, and devices that join.

ghost use Rattle.std.specs.Prelude.{◌≡◌, map};
ghost use Rattle.pm_tree.specs.Entries.{entries_of, leaves_of};
ghost use Rattle.pm_plan.specs.Parts.{is_device, node_part};

use pm_basis::Basis;
use pm_device::Kind;
use pm_plan::{EventSpec, NodeSpec, PhaseSpec, Plan, StateSpec};
use pm_tree::{Tree, TreeEntry};
use std::alloc::Global;
use std::process::Abort;

/// What a node is.
#[derive(Clone, Copy)]
pub enum Role {
    Concentrator,
    /// A concentrator with its floor and its ceiling.
    Limited(i64, i64),
    /// A device of a kind, with the number of its state at the start.
    Device(Kind, i64),
    /// A manual device, with its demand at each step.
    Manual([i64; 10]),
}

/// A node: its name, its parent's name, and what it is.
pub type NodeLine = (&'static str, &'static str, Role);

/// A lone load of 100 watts.
pub const LONE: [NodeLine; 1] = [("load1", "auctioneer", Role::Device(Kind::Load, 100))];

/// A load of 100 watts under a concentrator.
pub const CHAIN: [NodeLine; 2] = [
    ("c1", "auctioneer", Role::Concentrator),
    ("load1", "c1", Role::Device(Kind::Load, 100)),
];

/// What a plan takes of a node.
fn spec_of<R: Abort>(rt: &R, alloc: Global, role: Role) -> NodeSpec {
    match role {
        Role::Concentrator => NodeSpec::Concentrator,
        Role::Limited(floor, ceiling) => NodeSpec::Limited { floor, ceiling },
        Role::Device(kind, number) => NodeSpec::Device {
            kind,
            start: StateSpec::Number(number),
        },
        Role::Manual(demands) => NodeSpec::Device {
            kind: Kind::Manual,
            start: StateSpec::Array(Vec::from_array(alloc, demands).expect(rt, "memory")),
        },
    }
}

/// Whether a node is a device.
fn is_leaf(spec: &NodeSpec) -> bool
    ensures { result ≡ is_device (node_part spec.now) }
{
    matches!(spec, NodeSpec::Device { .. })
}

/// A name in memory.
pub fn string_of<R: Abort>(rt: &R, alloc: Global, name: &str) -> String {
    String::from_str(alloc, name).expect(rt, "memory")
}

/// What a tree takes of a node, which is a device or not.
fn entry_of<R: Abort>(rt: &R, alloc: Global, line: &NodeLine, leaf: bool) -> TreeEntry
    ensures { result.leaf ≡ leaf }
{
    TreeEntry {
        name: string_of(rt, alloc, line.0),
        parent: string_of(rt, alloc, line.1),
        leaf,
    }
}

/// The entries of a tree, and what a plan takes of them.
fn parts_of<R: Abort>(rt: &R, alloc: Global, lines: &[NodeLine]) -> (Vec<TreeEntry>, Vec<NodeSpec>)
    ensures { map is_device (map node_part result.1.items) ≡ leaves_of (entries_of result.0.items) }
{
    let mut entries = Vec::new(alloc);
    let mut nodes = Vec::new(alloc);
    for line in lines {
        let spec = spec_of(rt, alloc, line.2);
        let entry = entry_of(rt, alloc, line, is_leaf(&spec));
        entries.push(entry).expect(rt, "memory");
        nodes.push(spec).expect(rt, "memory");
    }
    (entries, nodes)
}

/// Whether devices of a role join.
fn may_join(role: &Role) -> bool {
    matches!(*role, Role::Device(_, _) | Role::Manual(_))
}

/// The join of a device.
fn join_of<R: Abort>(rt: &R, alloc: Global, name: &str) -> EventSpec {
    EventSpec::Join {
        device: string_of(rt, alloc, name),
    }
}

/// A phase in which all devices join.
pub fn joins<R: Abort>(rt: &R, alloc: Global, lines: &[NodeLine]) -> PhaseSpec {
    let mut events = Vec::new(alloc);
    for line in lines {
        if may_join(&line.2) {
            events.push(join_of(rt, alloc, line.0)).expect(rt, "memory");
        }
    }
    PhaseSpec::Events(events)
}

/// The basis of these prices.
pub fn basis_of<R: Abort>(rt: &R, min: i64, max: i64, steps: i64) -> Basis {
    Basis::new(min, max, steps).expect(rt, "a basis")
}

/// The plan of these nodes and phases over these prices.
pub fn plan_of_parts<R: Abort>(
    rt: &R,
    alloc: Global,
    basis: Basis,
    lines: &[NodeLine],
    phases: Vec<PhaseSpec>,
) -> Plan {
    let (entries, nodes) = parts_of(rt, alloc, lines);
    let tree = Tree::new(alloc, entries).expect(rt, "a tree");
    Plan::new(alloc, basis, tree, nodes, phases).expect(rt, "a plan")
}

/// The plan of these nodes over these prices, of one phase in which all devices join.
pub fn joined_plan<R: Abort>(rt: &R, alloc: Global, basis: Basis, lines: &[NodeLine]) -> Plan {
    let mut phases = Vec::new(alloc);
    phases.push(joins(rt, alloc, lines)).expect(rt, "memory");
    plan_of_parts(rt, alloc, basis, lines, phases)
}
