//! The counts before the first row.

ghost use Rattle.std.specs.Prelude.{◌≡◌, ◌<◌, ◌≤◌};
ghost use Rattle.msrp_plan.specs.Common.{[], List, IfOk, length, IsPlan};
ghost use Rattle.msrp_report.specs.Inside.Tallies.{AreReleases, AreTallies, HasTallied, IsTaskTally};
ghost use Rattle.msrp_report.specs.declared.tallies.TaskTally.{TaskTally};

use super::active::none_active;
use super::releasing::release_or_end;
use super::{Blocking, JobTally, NextRelease, Tallies, TaskTally};
use crate::counts::JobCount;
use msrp_plan::{JobId, Memory, Plan, TaskId};
use std::alloc::Global;

// A job that isn't released.
const UNTOLD: JobTally = JobTally {
    count: JobCount::NONE,
    blocking: Blocking::Over(0),
};

// The jobs of a task, none of them released.
fn untold(alloc: Global, plan: &Plan, task: TaskId) -> Result<TaskTally, Memory>
    requires plan { IsPlan plan.now }
    requires task { task.0 < length plan.now.tasks }
    ensures { IfOk result (λ tally. IsTaskTally plan.now [] 0 task.0 tally) }
{
    let count = plan.jobs(task);
    let mut jobs = Vec::with_capacity(alloc, count as usize)?;
    for _ in 0..count {
        jobs.push_reserved(UNTOLD);
    }
    Ok(TaskTally {
        jobs,
        units: plan.units(task),
        released: 0,
    })
}

// The first release of each task, the earliest first.
fn first_releases(alloc: Global, plan: &Plan) -> Result<Vec<NextRelease>, Memory>
    ensures { IfOk result (λ releases. (tasks : List TaskTally) → AreTallies plan.now [] (λ _. 0) tasks → AreReleases plan.now tasks releases.items) }
{
    let mut releases = Vec::with_capacity(alloc, plan.tasks() as usize)?;
    for task in 0..plan.tasks() {
        let task = TaskId(task);
        let tick = release_or_end(plan, JobId { task, k: 0 }, plan.jobs(task) as usize);
        releases.push_reserved(NextRelease { tick, task });
    }
    releases.sort_unstable_by_key(|release| release.tick);
    Ok(releases)
}

impl Tallies {
    /// No row yet, with all the memory that it will ever need.
    pub(crate) fn with_room(alloc: Global, plan: &Plan) -> Result<Tallies, Memory>
        ensures { IfOk result (HasTallied plan.now []) }
    {
        let mut tasks = Vec::with_capacity(alloc, plan.tasks() as usize)?;
        for task in 0..plan.tasks() {
            tasks.push_reserved(untold(alloc, plan, TaskId(task))?);
        }
        Ok(Tallies {
            tasks,
            active: none_active(alloc, plan)?,
            begun: 0,
            releases: first_releases(alloc, plan)?,
        })
    }
}
