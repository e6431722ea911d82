//! The plans that the tests run.

use msrp_plan::{CoreId, Plan, PlanBuilder, PlanFault, ResId, Step};
use std::alloc::Global;
use std::test::Fail;

pub(super) const G: ResId = ResId(0);

// One more task: it locks the resource, works for a tick, and unlocks it.
fn add_task(builder: &mut PlanBuilder, name: &str, core: u32) -> Result<(), PlanFault> {
    builder.task(name, CoreId(core), 20, 8, 0)?;
    for step in [Step::Lock(G), Step::Run(1), Step::Unlock(G)] {
        if builder.tasks() > 0 {
            builder.op(step)?;
        }
    }
    Ok(())
}

// Two cores and one resource, which task 0 of core 0 and task 1 of core 1 request in tick 0.
pub(super) fn two_sections(alloc: Global) -> Result<Plan, PlanFault> {
    let mut builder = PlanBuilder::new(alloc, 2, 6)?;
    builder.resource("g")?;
    add_task(&mut builder, "a", 0)?;
    add_task(&mut builder, "b", 1)?;
    match builder.finish() {
        Ok(plan) => Ok(plan),
        Err((_, fault)) => Err(fault),
    }
}

// Sections on two resources, on all cores, nearly all of the time.
pub(super) fn hot(alloc: Global, cores: u32, ticks: u32) -> Result<Plan, Fail> {
    let mut builder = PlanBuilder::new(alloc, cores, ticks)?;
    builder.resource("g")?;
    builder.resource("h")?;
    for core in 0..cores {
        let name = format!(in alloc; "t{core}")?;
        builder.task(name.as_str(), CoreId(core), 40, 40, core)?;
        for g in [G, ResId(1)] {
            for step in [Step::Lock(g), Step::Run(2), Step::Unlock(g)] {
                if builder.tasks() > 0 {
                    builder.op(step)?;
                }
            }
        }
    }
    match builder.finish() {
        Ok(plan) => Ok(plan),
        Err((_, fault)) => Err(Fail::from(fault)),
    }
}
