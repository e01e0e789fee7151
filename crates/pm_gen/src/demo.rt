//! Makes the plan of a demo cluster from its size and number.

ghost use Rattle.std.specs.Prelude.{◌≡◌, ◌<◌, ◌≤◌, true, false, Ok, Err, IfOk, IfErr, IsOk, OnOk};
ghost use Rattle.pm_plan.specs.Plans.{phases};
ghost use Rattle.pm_gen.specs.Demo.{is_size, demo_basis, demo_plan_from, demo_plan};

use crate::devices::make_nodes;
use crate::draws::Draws;
use crate::fault::GenFault;
use crate::rounds::make_phases;
use crate::tree::make_tree;
use pm_basis::Basis;
use pm_plan::{Plan, PlanFault};
use std::alloc::Global;

/// The most devices of a demo cluster.
const MAX_SIZE: u32 = 200;

/// The plan of the demo cluster of so many devices, 1 to 200, whose draws a number starts; numbers count modulo 65536.
///
/// Any other size is refused. A size within these limits has a plan, so that only an allocation can fail.
#[tactic(auto, using(crate::proofs::Plans::size_has_plan))]
pub fn make_plan(alloc: Global, size: u32, number: u32) -> Result<Plan, GenFault>
    ensures plan { IfOk result (λ plan. demo_plan size number ≡ Ok plan) }
    ensures accepted { is_size size ≡ true → IsOk (demo_plan size number) }
    ensures phases { IfOk result (λ plan. phases plan ≡ 21) }
    ensures size { OnOk result (is_size size ≡ true) }
    ensures bad_size { result ≡ Err GenFault.BadSize → is_size size ≡ false }
    ensures refused { is_size size ≡ false → result ≡ Err GenFault.BadSize }
{
    if size == 0 || MAX_SIZE < size {
        return Err(GenFault::BadSize);
    }
    make_sized(alloc, size, Draws::of_number(number))
}

/// The prices of the market: 0 to 99 in 100 steps.
fn make_basis() -> Basis
    ensures { result ≡ demo_basis }
{
    Basis::new(0, 99, 100).unwrap()
}

/// The plan of so many devices, from the first draw on.
fn make_sized(alloc: Global, size: u32, first: Draws) -> Result<Plan, GenFault>
    requires some { 0 < size }
    requires few { size ≤ 200 }
    ensures plan { IfOk result (λ plan. demo_plan_from size first.seed ≡ Ok plan) }
    ensures phases { IfOk result (λ plan. phases plan ≡ 21) }
    ensures memory { IfErr result (λ fault. fault ≡ GenFault.NoMemory) }
{
    let mut draws = first;
    let tree = make_tree(alloc, size)?;
    let nodes = make_nodes(alloc, &mut draws, size)?;
    let phases = make_phases(alloc, &mut draws, size)?;
    match Plan::new(alloc, make_basis(), tree, nodes, phases) {
        Ok(plan) => Ok(plan),
        Err(fault) => Err(allocation_failure(fault)),
    }
}

/// The only fault that the parts of a demo cluster can have: that an allocation failed.
fn allocation_failure(fault: PlanFault) -> GenFault
    requires { fault ≡ PlanFault.NoMemory }
    ensures { result ≡ GenFault.NoMemory }
{
    let is_memory = fault == PlanFault::NoMemory;
    prove!(is_memory);
    GenFault::NoMemory
}
