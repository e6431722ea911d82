//! Runs the machines of two cores over one lock, in your own order of turns.
ghost use Rattle.std.specs.Prelude.{◌≡◌, ◌≢◌};
ghost use Rattle.msrp_core.specs.Machine.{MachineModel};
ghost use Rattle.msrp_examples.specs.Lock.{CanGoOn};

use crate::simulate::bus_plan;
use msrp_core::Machine;
use msrp_levels::Levels;
use msrp_plan::{CoreId, Memory, Plan};
use msrp_sim::FifoPort;
use std::alloc::Global;
use std::io::Print;

/// The core of each turn: in the third tick core 1 has the first one.
const TURNS: [u32; 12] = [0, 1, 0, 1, 1, 0, 0, 1, 0, 1, 0, 1];

/// The next turn of one core, if it has one left. The other cores' machines are unaffected.
fn turn(plan: &Plan, machine: &mut Machine<'_>, port: &mut FifoPort)
    requires plan { machine.old.plan ≡ plan.now }
    requires goes { CanGoOn machine.old port.old }
    ensures plan { machine.new.plan ≡ plan.now }
    ensures core { machine.new.core ≡ machine.old.core }
    ensures own { CanGoOn machine.new port.new }
    ensures others { (other : MachineModel) → other.core ≢ machine.old.core → CanGoOn other port.old → CanGoOn other port.new }
{
    if machine.tick() >= plan.ticks() {
        return;
    }
    machine.turn(port);
}

/// The lock of two cores of a plan after these turns.
fn served(alloc: Global, plan: &Plan) -> Result<FifoPort, Memory> {
    let levels = Levels::of(alloc, plan)?;
    let mut port = FifoPort::with_room(alloc, plan)?;
    if plan.cores() == 2 {
        let mut first = Machine::with_room(alloc, plan, &levels, CoreId(0))?;
        let mut second = Machine::with_room(alloc, plan, &levels, CoreId(1))?;
        for core in TURNS {
            if core == 0 {
                turn(plan, &mut first, &mut port);
            } else {
                turn(plan, &mut second, &mut port);
            }
        }
    }
    Ok(port)
}

/// Prints the two cores' calls of the lock, with its answers.
pub fn handed_over(rt: &impl Print, alloc: Global) -> Result<(), &'static str> {
    let plan = bus_plan(alloc).map_err(|_| "the plan is refused")?;
    let port = served(alloc, &plan).map_err(|_| "memory")?;
    for call in port.calls() {
        println!(rt; "core {}: {:?}", call.core.0, call.call).map_err(|_| "write fault")?;
    }
    Ok(())
}
