//! What is odd in an accepted plan.
ghost use Rattle.std.specs.Prelude.{◌≡◌, ◌==◌, ◌<◌, if◌then◌else◌};
ghost use Rattle.msrp_plan.specs.Common.{length, list_any, range_with_len, task_at, IfOk, OnOk};
ghost use Rattle.msrp_advice.specs.Warnings.{core_units, has_deadline, units_of, is_odd};
ghost use Rattle.std.specs.List.{AllPass};

use crate::shown::{Count, res_name, task_name};
use msrp_levels::Levels;
use msrp_plan::{CoreId, JobId, Plan, ResId, TaskId};
use std::alloc::{AllocError, Global};
use std::fmt::{self, Formatter, Write};

/// Something in an accepted plan that is rarely meant so.
#[derive(Clone, Copy, Debug, PartialEq, Eq)]
pub enum Warning {
    /// A task releases no job within the ticks.
    NoJob(TaskId),
    /// A task has more units than its relative deadline has ticks; with both numbers.
    ShortDeadline(TaskId, u32, u32),
    /// No task locks a resource.
    UnusedResource(ResId),
    /// A core has no task.
    IdleCore(CoreId),
    /// The jobs of a core have so many units, more than the plan has ticks.
    Overload(CoreId, u128),
    /// No job has its absolute deadline within the ticks.
    NoDeadline,
}

// A warning was added where there was reason for it, or memory ran out.
type Made = Result<(), AllocError>;

// How many units the jobs of a task have, if it is a task of that core.
fn units_of(plan: &Plan, core: CoreId, task: TaskId) -> u64
    requires { task.0 < length plan.now.tasks }
    ensures { result ≡ if (task_at plan.now task.0).core == core.0 then units_of plan.now task.0 else 0 }
{
    if plan.core_of(task) == core {
        u64::from(plan.jobs(task)) * u64::from(plan.units(task))
    } else {
        0
    }
}

fn core_units(plan: &Plan, core: CoreId) -> u128
    ensures { result ≡ core_units plan.now core.0 }
{
    let mut sum = 0u128;
    for task in 0..plan.tasks() {
        sum += u128::from(units_of(plan, core, TaskId(task)));
    }
    sum
}

// Whether a task has a job whose absolute deadline is within the ticks: then its first job is one.
fn has_deadline(plan: &Plan, task: TaskId) -> bool
    requires { task.0 < length plan.now.tasks }
    ensures { result ≡ has_deadline plan.now task.0 }
{
    0 < plan.jobs(task) && plan.job_key(JobId { task, k: 0 }).deadline <= u64::from(plan.ticks())
}

fn any_has_deadline(plan: &Plan) -> bool
    ensures { result ≡ list_any (has_deadline plan.now) (range_with_len 0 (length plan.now.tasks)) }
{
    (0..plan.tasks()).any(|task| has_deadline(plan, TaskId(task)))
}

fn warn_if(reason: bool, plan: &Plan, warnings: &mut Vec<Warning>, warning: Warning) -> Made
    requires fact { reason ≡ is_odd plan.now warning }
    requires facts { AllPass (is_odd plan.now) warnings.old.items }
    ensures { OnOk result (AllPass (is_odd plan.now) warnings.new.items) }
{
    if reason {
        warnings.push(warning)?;
    }
    Ok(())
}

fn warn_of_tasks(plan: &Plan, warnings: &mut Vec<Warning>) -> Made
    requires { AllPass (is_odd plan.now) warnings.old.items }
    ensures { OnOk result (AllPass (is_odd plan.now) warnings.new.items) }
{
    for task in 0..plan.tasks() {
        let task = TaskId(task);
        warn_if(plan.jobs(task) == 0, plan, warnings, Warning::NoJob(task))?;
        let (units, deadline) = (plan.units(task), plan.deadline(task));
        let short = Warning::ShortDeadline(task, units, deadline);
        warn_if(deadline < units, plan, warnings, short)?;
    }
    Ok(())
}

fn warn_of_resources(plan: &Plan, levels: &Levels<'_>, warnings: &mut Vec<Warning>) -> Made
    requires levels { levels.now ≡ plan.now }
    requires facts { AllPass (is_odd plan.now) warnings.old.items }
    ensures { OnOk result (AllPass (is_odd plan.now) warnings.new.items) }
{
    for res in 0..plan.resources() {
        let res = ResId(res);
        let is_unused = levels.users(res).len() == 0;
        warn_if(is_unused, plan, warnings, Warning::UnusedResource(res))?;
    }
    Ok(())
}

fn warn_of_cores(plan: &Plan, levels: &Levels<'_>, warnings: &mut Vec<Warning>) -> Made
    requires levels { levels.now ≡ plan.now }
    requires facts { AllPass (is_odd plan.now) warnings.old.items }
    ensures { OnOk result (AllPass (is_odd plan.now) warnings.new.items) }
{
    for core in 0..plan.cores() {
        let core = CoreId(core);
        let is_idle = levels.top(core) == 0;
        warn_if(is_idle, plan, warnings, Warning::IdleCore(core))?;
        let units = core_units(plan, core);
        let is_more = u128::from(plan.ticks()) < units;
        warn_if(is_more, plan, warnings, Warning::Overload(core, units))?;
    }
    Ok(())
}

/// The warnings on a plan: on its tasks, its resources, its cores and its ticks, in this order.
pub fn warnings_of(
    alloc: Global,
    plan: &Plan,
    levels: &Levels<'_>,
) -> Result<Vec<Warning>, AllocError>
    requires { levels.now ≡ plan.now }
    ensures { IfOk result (λ warnings. AllPass (is_odd plan.now) warnings.items) }
{
    let mut warnings = Vec::new(alloc);
    warn_of_tasks(plan, &mut warnings)?;
    warn_of_resources(plan, levels, &mut warnings)?;
    warn_of_cores(plan, levels, &mut warnings)?;
    let is_late = !any_has_deadline(plan);
    warn_if(is_late, plan, &mut warnings, Warning::NoDeadline)?;
    Ok(warnings)
}

/// What is said of an accepted plan: that it is good, and then the warnings on it, a line each.
#[derive(Clone, Copy)]
pub struct AcceptedPlan<'a> {
    pub plan: &'a Plan,
    pub warnings: &'a [Warning],
}

fn write_warning<W: Write>(f: &mut Formatter<W>, plan: &Plan, warning: Warning) -> fmt::Result {
    let ticks = Count(u128::from(plan.ticks()), "tick");
    match warning {
        Warning::NoJob(task) => {
            let name = task_name(plan, task);
            write!(f, "task {name} releases no job within the plan ({ticks})")
        }
        Warning::ShortDeadline(task, units, deadline) => {
            let name = task_name(plan, task);
            write!(f, "task {name} can't meet its deadline: ")?;
            write!(f, "needs {units} ticks, has {deadline}")
        }
        Warning::UnusedResource(res) => {
            write!(f, "resource {} is locked by no task", res_name(plan, res))
        }
        Warning::IdleCore(core) => write!(f, "core {} has no task", core.0),
        Warning::Overload(core, units) => {
            let (work, percent) = (Count(units, "tick"), units.saturating_mul(100) / ticks.0);
            write!(f, "core {} is overloaded: ", core.0)?;
            write!(f, "{work} of work in {ticks} ({percent} %)")
        }
        Warning::NoDeadline => write!(f, "no job has its deadline within the plan ({ticks})"),
    }
}

impl fmt::Display for AcceptedPlan<'_> {
    fn fmt<W: Write>(&self, f: &mut Formatter<W>) -> fmt::Result {
        f.write_str("good\n")?;
        for warning in self.warnings {
            f.write_str("warning: ")?;
            write_warning(f, self.plan, *warning)?;
            f.write_char('\n')?;
        }
        Ok(())
    }
}
