//! Draws the devices of a demo cluster: their kinds, powers and starts.

ghost use Rattle.std.specs.Prelude.{◌≡◌, ◌<◌, ◌≤◌, ◌+◌, ◌*◌, ◌++◌, ◌≤ℤ◌, pos, neg_ℤ, IfOk, OnOk, map, replicate};
ghost use Rattle.pm_plan.specs.Parts.{node_part, concentrator, device as device_part, number as number_part};
ghost use Rattle.pm_gen.specs.Draws.{next};
ghost use Rattle.pm_gen.specs.Nodes.{device_of, drawn_power, drawn_device, drawn_devices, demo_nodes, with_start};

use crate::draws::Draws;
use crate::tree::count_concentrators;
use pm_device::Kind;
use pm_plan::{NodeSpec, StateSpec};
use std::alloc::{AllocError, Global};

/// A device of a kind, with a start.
fn device(kind: Kind, start: i64) -> NodeSpec
    ensures { node_part result ≡ device_part kind (number_part start) }
{
    NodeSpec::Device {
        kind,
        start: StateSpec::Number(start),
    }
}

/// A device whose start is drawn: one of so many numbers, from the least on.
fn with_start(draws: &mut Draws, kind: Kind, least: i64, count: u32) -> NodeSpec
    requires some { 0 < count }
    requires few { count ≤ 10000 }
    requires low { neg_ℤ (pos 10000) ≤ℤ least }
    requires high { least ≤ℤ pos 10000 }
    ensures device { node_part result ≡ (with_start kind least count draws.old.seed).0 }
    ensures seed { draws.new.seed ≡ next draws.old.seed }
{
    device(kind, least + draws.draw(count) as i64)
}

/// The device of a drawn kind and a power in watts.
#[tactic(auto, unfolding(crate::specs::Nodes::device_of))]
fn device_of(draws: &mut Draws, kind: u32, power: i64) -> NodeSpec
    ensures device { node_part result ≡ (device_of kind power draws.old.seed).0 }
    ensures seed { draws.new.seed ≡ (device_of kind power draws.old.seed).1 }
{
    match kind {
        0 => with_start(
            draws,
            Kind::Freezer {
                low: -2200,
                high: -1800,
                power,
                warm: 20,
                cool: 60,
            },
            -2200,
            401,
        ),
        1 => with_start(
            draws,
            Kind::HeatPump {
                low: 1900,
                high: 2200,
                power,
                loss: 10,
                gain: 30,
            },
            1900,
            301,
        ),
        2 => with_start(
            draws,
            Kind::Cogeneration {
                low: 5000,
                high: 8000,
                power,
                loss: 100,
                gain: 300,
            },
            5000,
            3001,
        ),
        3 => with_start(
            draws,
            Kind::Battery {
                capacity: 1000,
                charge: power,
                discharge: power,
                spread: 5,
            },
            0,
            1001,
        ),
        4 => device(Kind::Solar, power),
        _ => device(Kind::Load, power),
    }
}

/// Draws a device: its kind, then its power, then its start.
#[tactic(auto, unfolding(crate::specs::Nodes::drawn_device))]
fn draw_device(draws: &mut Draws) -> NodeSpec
    ensures device { node_part result ≡ (drawn_device draws.old.seed).0 }
    ensures seed { draws.new.seed ≡ (drawn_device draws.old.seed).1 }
{
    let kind = draws.draw(6);
    let power = draw_power(draws);
    device_of(draws, kind, power)
}

/// Draws a power in watts: 100, 200, .. or 2000.
fn draw_power(draws: &mut Draws) -> i64
    ensures power { result ≡ drawn_power draws.old.seed }
    ensures seed { draws.new.seed ≡ next draws.old.seed }
{
    100 * (1 + draws.draw(20) as i64)
}

/// Adds so many concentrators.
fn push_concentrators(count: u32, nodes: &mut Vec<NodeSpec>) -> Result<(), AllocError>
    ensures { OnOk result (map node_part nodes.new.items ≡ map node_part nodes.old.items
        ++ replicate count concentrator) }
{
    for _ in 0..count {
        nodes.push(NodeSpec::Concentrator)?;
    }
    Ok(())
}

/// Draws so many devices, one after another, and adds them.
fn push_devices(draws: &mut Draws, size: u32, nodes: &mut Vec<NodeSpec>) -> Result<(), AllocError>
    ensures devices { OnOk result (map node_part nodes.new.items ≡ map node_part nodes.old.items
        ++ (drawn_devices size draws.old.seed).0) }
    ensures seed { OnOk result (draws.new.seed ≡ (drawn_devices size draws.old.seed).1) }
{
    for _ in 0..size {
        nodes.push(draw_device(draws))?;
    }
    Ok(())
}

/// The nodes of a cluster of so many devices, in the order of its tree.
#[tactic(auto, unfolding(crate::specs::Nodes::demo_nodes))]
pub(crate) fn make_nodes(
    alloc: Global,
    draws: &mut Draws,
    size: u32,
) -> Result<Vec<NodeSpec>, AllocError>
    requires { size ≤ 200 }
    ensures nodes { IfOk result (λ nodes. map node_part nodes.items
        ≡ demo_nodes size draws.old.seed) }
    ensures seed { OnOk result (draws.new.seed ≡ (drawn_devices size draws.old.seed).1) }
{
    let mut nodes = Vec::new(alloc);
    push_concentrators(count_concentrators(size), &mut nodes)?;
    push_devices(draws, size, &mut nodes)?;
    Ok(nodes)
}
