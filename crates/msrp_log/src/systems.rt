//! The system that a log is judged against: from its own text, or from a plan in ticks.
ghost use Rattle.std.specs.Prelude.{◌<◌};
ghost use Rattle.msrp_plan.specs.Common.{length};

use crate::answers::Refused;
use msrp_event_text::read_system;
use msrp_plan::bytes::Source;
use msrp_plan::{Op, Plan, ResId, TaskId};
use msrp_system::{System, SystemFault, Task};
use msrp_text::read_plan;
use std::alloc::Global;
use std::io::Read;

/// The system of a text `msrp-system,1`.
pub fn system_of_text<R: Read + Drop>(alloc: Global, text: R) -> Result<System, Refused> {
    Ok(read_system(alloc, text)?)
}

// The locks and unlocks of a plan's task.
fn steps_of(alloc: Global, plan: &Plan, task: TaskId) -> Result<Vec<Op>, Refused>
    requires { task.0 < length plan.now.tasks }
{
    let mut steps = Vec::new(alloc);
    for u in 0..plan.units(task) {
        let unit = plan.unit(task, u);
        if unit != Op::Run {
            steps.push(unit)?;
        }
    }
    Ok(steps)
}

// A task of a plan whose ticks last this many ns. Both factors are below 2^32, so no deadline is
// cut.
fn task_of(alloc: Global, plan: &Plan, task: TaskId, tick: u32) -> Result<Task, Refused>
    requires { task.0 < length plan.now.tasks }
{
    Ok(Task {
        name: String::from_str(alloc, plan.task_name(task))?,
        core: plan.core_of(task),
        deadline: u64::from(plan.deadline(task)).saturating_mul(u64::from(tick)),
        steps: steps_of(alloc, plan, task)?,
    })
}

fn resources_of(alloc: Global, plan: &Plan) -> Result<Vec<String>, Refused> {
    let mut resources = Vec::new(alloc);
    for r in 0..plan.resources() {
        resources.push(String::from_str(alloc, plan.res_name(ResId(r)))?)?;
    }
    Ok(resources)
}

fn tasks_of(alloc: Global, plan: &Plan, tick: u32) -> Result<Vec<Task>, Refused> {
    let mut tasks = Vec::new(alloc);
    for t in 0..plan.tasks() {
        tasks.push(task_of(alloc, plan, TaskId(t), tick)?)?;
    }
    Ok(tasks)
}

/// The system of a plan's text, whose ticks last this many ns.
pub fn system_of_plan<R: Read + Drop>(
    alloc: Global,
    text: R,
    tick: u32,
) -> Result<System, Refused> {
    let plan = read_plan(alloc, &mut Source::new(text))?;
    let resources = resources_of(alloc, &plan)?;
    let tasks = tasks_of(alloc, &plan, tick)?;
    match System::of(alloc, plan.cores(), resources, tasks) {
        Ok(system) => Ok(system),
        Err(SystemFault::Memory) => Err(Refused::Memory),
        Err(_) => Err(Refused::Limit),
    }
}
