//! Makes a plan, simulates it, and writes the trace.

use msrp_plan::bytes::Sink;
use msrp_plan::{CoreId, Plan, PlanBuilder, PlanFault, Step, TextVersion};
use msrp_sim::{Order, simulate};
use msrp_trace::{are_named, write_trace};
use std::alloc::Global;
use std::io::Write;

/// Two cores share a bus for 8 ticks. Each has a task that holds the bus for a unit of work.
pub fn bus_plan(alloc: Global) -> Result<Plan, PlanFault> {
    let mut builder = PlanBuilder::new(alloc, 2, 8)?;
    let bus = builder.resource("bus")?;
    for (name, core) in [("sensor", CoreId(0)), ("motor", CoreId(1))] {
        builder.task(name, core, 8, 8, 0)?;
        builder.op(Step::Lock(bus))?;
        builder.op(Step::Run(1))?;
        builder.op(Step::Unlock(bus))?;
    }
    builder.finish().map_err(|refused| refused.1)
}

/// Simulates the plan, core 1 first in each tick, and writes its trace with the queue lengths.
pub fn simulated<W: Write>(alloc: Global, out: &mut W) -> Result<(), &'static str> {
    let plan = bus_plan(alloc).map_err(|_| "the plan is refused")?;
    let trace = simulate(alloc, &plan, &Order::Desc).map_err(|_| "memory")?;
    if !are_named(&plan, &trace) || !trace.carries_ahead() {
        return Err("a row names what the plan hasn't");
    }
    let mut out = Sink::new(out);
    write_trace(&mut out, &plan, &trace, TextVersion::V2).map_err(|_| "write fault")
}
