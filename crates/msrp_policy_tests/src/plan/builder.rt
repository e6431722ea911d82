//! Calls of a builder: the plan has what was declared, and a builder that refused a call goes on.

use msrp_plan::{
    CoreId, JobId, JobKey, Op, Plan, PlanBuilder, PlanFault, ResId, Step, TaskId, Times,
};
use std::alloc::Global;
use std::test::Fail;

// The calls without their contracts: a test relies on what it sees. Functions that own a builder or
// a plan are short, since each of their exits drops it and must be proved.

fn resource(builder: &mut PlanBuilder, name: &str) -> Result<ResId, PlanFault> {
    builder.resource(name)
}

fn task(
    builder: &mut PlanBuilder,
    name: &str,
    core: u32,
    times: [u32; 3],
) -> Result<TaskId, PlanFault> {
    let [period, deadline, offset] = times;
    builder.task(name, CoreId(core), period, deadline, offset)
}

// Adds the steps to a builder, up to the first refused one.
fn told(builder: &mut PlanBuilder, steps: &[Step]) -> Result<(), PlanFault> {
    for step in steps {
        if builder.tasks() > 0 {
            builder.op(*step)?;
        }
    }
    Ok(())
}

// Declares the resources g and h and the task a, with these units.
fn begun(builder: &mut PlanBuilder, steps: &[Step]) -> Result<(), PlanFault> {
    resource(builder, "g")?;
    resource(builder, "h")?;
    task(builder, "a", 0, [4, 5, 1])?;
    told(builder, steps)
}

fn another(builder: &mut PlanBuilder) -> Result<(), PlanFault> {
    task(builder, "b", 1, [7, 3, 2])?;
    told(builder, &[Step::Run(1)])
}

const UNITS: [Step; 3] = [Step::Lock(ResId(1)), Step::Run(2), Step::Unlock(ResId(1))];

// A builder of two cores and ten ticks, with the resources g and h and the task a with these units.
fn started(alloc: Global, steps: &[Step]) -> Result<PlanBuilder, PlanFault> {
    let mut builder = PlanBuilder::new(alloc, 2, 10)?;
    begun(&mut builder, steps)?;
    Ok(builder)
}

// A builder of two tasks.
fn two_tasks(alloc: Global) -> Result<PlanBuilder, PlanFault> {
    let mut builder = started(alloc, &UNITS)?;
    another(&mut builder)?;
    Ok(builder)
}

// The plan of a builder.
fn finished(builder: PlanBuilder) -> Result<Plan, Fail> {
    match builder.finish() {
        Ok(plan) => Ok(plan),
        Err(_) => Err(Fail::from("the plan is refused")),
    }
}

// The builder and the fault, if its end is refused.
fn unfinished(builder: PlanBuilder) -> Result<(PlanBuilder, PlanFault), Fail> {
    match builder.finish() {
        Ok(_) => Err(Fail::from("the plan is accepted")),
        Err(refused) => Ok(refused),
    }
}

// The resources of two names, the number of tasks, and the number of one more.
type Read = ([Option<ResId>; 2], u32, Option<u32>);

fn read(builder: &mut PlanBuilder) -> Read {
    let found = [builder.res_of("h"), builder.res_of("a")];
    let tasks = builder.tasks();
    let newest = task(builder, "c", 1, [7, 3, 2]);
    (found, tasks, newest.ok().map(|task| task.0))
}

#[test]
fn a_builder_is_read(rt: HostRuntime) -> Result<(), Fail> {
    let mut builder = two_tasks(rt.alloc())?;
    let due = ([Some(ResId(1)), None], 2, Some(2));
    assert!(rt; read(&mut builder) == due);
    Ok(())
}

// A plan's cores and ticks, the second task's core and deadline, and each task's number of jobs.
fn numbers_of(plan: &Plan) -> Option<[u32; 6]> {
    if plan.tasks() != 2 {
        return None;
    }
    let (a, b) = (TaskId(0), TaskId(1));
    Some([
        plan.cores(),
        plan.ticks(),
        plan.core_of(b).0,
        plan.deadline(b),
        plan.jobs(a),
        plan.jobs(b),
    ])
}

// When the last task is released.
fn times_of(plan: &Plan) -> Option<Times> {
    let last = plan.tasks().checked_sub(1)?;
    Some(plan.times(TaskId(last)))
}

// Whether a plan's two resources have these names and numbers.
fn is_named(plan: &Plan) -> bool {
    if plan.tasks() == 0 || plan.resources() != 2 {
        return false;
    }
    plan.task_name(TaskId(0)) == "a"
        && plan.res_name(ResId(1)) == "h"
        && plan.task_of("a") == Some(TaskId(0))
        && plan.task_of("g").is_none()
        && plan.res_of("h") == Some(ResId(1))
}

// The first, third and last unit of the first task, if it has four.
fn units_of(plan: &Plan) -> Option<[Op; 3]> {
    let task = TaskId(0);
    if plan.tasks() == 0 || plan.units(task) != 4 {
        return None;
    }
    Some([plan.unit(task, 0), plan.unit(task, 2), plan.unit(task, 3)])
}

// The third release of the first task, and that job's key.
fn job_of(plan: &Plan) -> Option<(u64, JobKey)> {
    let job = JobId {
        task: TaskId(0),
        k: 2,
    };
    if plan.tasks() == 0 || plan.jobs(job.task) != 3 {
        return None;
    }
    Some((plan.release(job), plan.job_key(job)))
}

// All that is read of the plan of two tasks.
#[derive(Clone, Copy)]
struct ReadBack {
    numbers: Option<[u32; 6]>,
    times: Option<Times>,
    named: bool,
    units: Option<[Op; 3]>,
    job: Option<(u64, JobKey)>,
}

fn read_back(plan: &Plan) -> ReadBack {
    ReadBack {
        numbers: numbers_of(plan),
        times: times_of(plan),
        named: is_named(plan),
        units: units_of(plan),
        job: job_of(plan),
    }
}

fn all_read_back(alloc: Global) -> Result<ReadBack, Fail> {
    let plan = finished(two_tasks(alloc)?)?;
    Ok(read_back(&plan))
}

#[test]
fn a_plan_is_read_back(rt: HostRuntime) -> Result<(), Fail> {
    let found = all_read_back(rt.alloc())?;
    let times = Times::Every {
        period: 7,
        offset: 2,
    };
    let units = [Op::Lock(ResId(1)), Op::Run, Op::Unlock(ResId(1))];
    let key = JobKey {
        deadline: 14,
        release: 9,
        task: 0,
        k: 2,
    };
    assert_eq!(rt; found.numbers, Some([2, 10, 1, 3, 3, 2]));
    assert_eq!(rt; found.times, Some(times));
    assert!(rt; found.named);
    assert_eq!(rt; found.units, Some(units));
    assert_eq!(rt; found.job, Some((9, key)));
    Ok(())
}

// Declares a listed task with these ticks.
fn listed(builder: &mut PlanBuilder, ticks: &[u32]) -> Result<(), PlanFault> {
    builder.listed("a", CoreId(0), 4)?;
    for tick in ticks {
        if builder.takes_releases() {
            builder.release(*tick)?;
        }
    }
    Ok(())
}

// Declares a listed task of one unit.
fn listing(builder: &mut PlanBuilder) -> Result<(), PlanFault> {
    listed(builder, &[1, 4, 1_000_000])?;
    told(builder, &[Step::Run(1)])
}

// The tick of each release of the only task, if it has three.
fn releases(plan: &Plan) -> Option<[u64; 3]> {
    let task = TaskId(0);
    if plan.tasks() != 1 || plan.times(task) != (Times::Listed { count: 3 }) {
        return None;
    }
    let job = |k| JobId { task, k };
    Some([
        plan.release(job(0)),
        plan.release(job(1)),
        plan.release(job(2)),
    ])
}

#[test]
fn listed_releases_are_read_back(rt: HostRuntime) -> Result<(), Fail> {
    let mut builder = PlanBuilder::new(rt.alloc(), 1, 5)?;
    listing(&mut builder)?;
    let plan = finished(builder)?;
    assert_eq!(rt; releases(&plan), Some([1, 4, 1_000_000]));
    Ok(())
}

// Whether a listed task takes releases, before its first unit and after it.
fn takes(builder: &mut PlanBuilder) -> Result<[bool; 2], PlanFault> {
    listed(builder, &[1])?;
    let before = builder.takes_releases();
    told(builder, &[Step::Run(1)])?;
    Ok([before, builder.takes_releases()])
}

#[test]
fn releases_end_with_the_first_unit(rt: HostRuntime) -> Result<(), Fail> {
    let mut builder = PlanBuilder::new(rt.alloc(), 1, 5)?;
    assert_eq!(rt; takes(&mut builder), Ok([true, false]));
    Ok(())
}

// The fault of a step after the task a with these units.
fn step_fault(alloc: Global, steps: &[Step], step: Step) -> Option<PlanFault> {
    match started(alloc, steps) {
        Ok(mut builder) => told(&mut builder, &[step]).err(),
        Err(fault) => Some(fault),
    }
}

// Numbers that no text has.
#[test]
fn strange_numbers_are_refused(rt: HostRuntime) {
    for (step, fault) in [
        (Step::Lock(ResId(2)), PlanFault::Undeclared),
        (Step::Unlock(ResId(u32::MAX)), PlanFault::Undeclared),
        (Step::Run(u32::MAX), PlanFault::Limit),
    ] {
        let found = step_fault(rt.alloc(), &[], step);
        assert_eq!(rt; found, Some(fault));
    }
}

// A builder's refusals while it holds g: g once more, and an unlock of h.
fn refused(builder: &mut PlanBuilder) -> [Option<PlanFault>; 2] {
    let taken = resource(builder, "g").err();
    let nesting = told(builder, &[Step::Unlock(ResId(1))]).err();
    [taken, nesting]
}

// Adds one more resource, and the missing unlock of g.
fn mended(builder: &mut PlanBuilder) -> Result<ResId, PlanFault> {
    let added = resource(builder, "i")?;
    told(builder, &[Step::Unlock(ResId(0))])?;
    Ok(added)
}

// The number of a plan's resources, and of its only task's units.
fn sizes(plan: &Plan) -> Option<[u32; 2]> {
    if plan.tasks() != 1 {
        return None;
    }
    Some([plan.resources(), plan.units(TaskId(0))])
}

// The added resource, and the sizes of the finished plan.
fn gone_to_the_end(mut builder: PlanBuilder) -> Result<(ResId, Option<[u32; 2]>), Fail> {
    let added = mended(&mut builder)?;
    let plan = finished(builder)?;
    Ok((added, sizes(&plan)))
}

// The refusals of a builder that holds g, its end's too, and what it then makes.
type GoneOn = ([Option<PlanFault>; 3], ResId, Option<[u32; 2]>);

fn gone_on(alloc: Global) -> Result<GoneOn, Fail> {
    let mut builder = started(alloc, &[Step::Lock(ResId(0))])?;
    let [taken, nesting] = refused(&mut builder);
    let (builder, fault) = unfinished(builder)?;
    let (added, made) = gone_to_the_end(builder)?;
    Ok(([taken, nesting, Some(fault)], added, made))
}

#[test]
fn a_refused_builder_goes_on(rt: HostRuntime) -> Result<(), Fail> {
    let (faults, added, made) = gone_on(rt.alloc())?;
    let due = [PlanFault::Taken, PlanFault::Nesting, PlanFault::Nesting].map(Some);
    assert_eq!(rt; faults, due);
    assert_eq!(rt; added, ResId(2));
    assert_eq!(rt; made, Some([3, 2]));
    Ok(())
}
