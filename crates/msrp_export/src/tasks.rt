//! What a task does in a tick.
ghost use Rattle.std.specs.Prelude.{◌≡◌, ◌<◌, ◌≤◌, ◌^◌, ◌*◌, if◌then◌else◌};
ghost use Rattle.msrp_plan.specs.Common.{List, length, release, IsPlan};
ghost use Rattle.msrp_plan.specs.Limits.{longest_time};
ghost use Rattle.msrp_export.specs.Signals.{Row as TraceRow, Summarizes, job_after, released_state, row_in, task_status, work};
ghost use Rattle.msrp_export.specs.declared.tasks.TaskState.TheVariants.{Unreleased};

use crate::summary::{Summary, waits};
use msrp_plan::{JobId, Plan, Row, TaskId, Times};

/// The state of the job that a task is at when a tick begins: its first job that isn't finished.
#[derive(Clone, Copy, Debug, PartialEq, Eq)]
pub(crate) enum TaskState {
    /// The job isn't released, or the task has no more jobs.
    Unreleased,
    /// The job is released, and another one runs.
    Ready,
    /// The job runs, and holds nothing.
    Running,
    /// The job holds a resource, whether or not it runs.
    Holding,
    /// The job waits for a global resource.
    Spinning,
}

/// All that a task does in a tick.
#[derive(Clone, Copy)]
pub(crate) struct TaskStatus {
    pub(crate) state: TaskState,
    /// The job that the task is at when the tick begins.
    pub(crate) job: JobId,
    /// Whether the job isn't finished by its absolute deadline.
    pub(crate) late: bool,
    /// The task's row in the tick, if it has one.
    pub(crate) row: Option<Row>,
    /// The units that the task's jobs had done before the tick.
    pub(crate) work: u32,
}

// The tick in which a job is released; the plan's ticks where there is no such job.
fn release_of(plan: &Plan, job: JobId) -> u64
    requires { job.task.0 < length plan.now.tasks }
    ensures value { result ≡ release plan.now job }
    ensures bound { result ≤ longest_time * 2 ^ 32 }
{
    match plan.times(job.task) {
        Times::Listed { count } if count <= job.k => u64::from(plan.ticks()),
        _ => plan.release(job),
    }
}

// The job that a task is at.
fn job_after(plan: &Plan, task: TaskId, done: u32) -> JobId
    requires plan { IsPlan plan.now }
    requires task { task.0 < length plan.now.tasks }
    ensures task { result.task ≡ task }
    ensures job { (rows : List TraceRow) → done ≡ work task.0 rows → result ≡ job_after plan.now rows task.0 }
{
    JobId {
        task,
        k: done / plan.units(task),
    }
}

// The last row of a core, if it is one of the task in this tick.
fn row_in(tick: u32, task: TaskId, last_row: Option<Row>) -> Option<Row>
    ensures { result ≡ row_in tick task.0 last_row }
{
    let row = last_row?;
    let job = row.job?;
    (row.tick == tick && job.task == task).then_some(row)
}

// The state of a job, by its row in the tick.
fn state_of(released: bool, holds: bool, row: Option<Row>) -> TaskState
    ensures { result ≡ if released then released_state holds row else Unreleased }
{
    match row {
        _ if !released => TaskState::Unreleased,
        Some(row) if waits(row.kind) => TaskState::Spinning,
        _ if holds => TaskState::Holding,
        Some(_) => TaskState::Running,
        None => TaskState::Ready,
    }
}

/// What a task does in a tick, by the rows before the tick and those up to its end.
pub(crate) fn task_status(
    plan: &Plan,
    before: &Summary,
    now: &Summary,
    tick: u32,
    task: TaskId,
) -> TaskStatus
    requires plan { IsPlan plan.now }
    requires task { task.0 < length plan.now.tasks }
    ensures { (earlier rows : List TraceRow) → Summarizes before.now earlier → Summarizes now.now rows → result ≡ task_status plan.now earlier rows tick task.0 }
{
    let work = before.counts_of(task).work;
    let job = job_after(plan, task, work);
    let release = release_of(plan, job);
    let counts = now.counts_of(task);
    let row = row_in(tick, task, now.last_row(plan.core_of(task)));
    let released = release <= u64::from(tick);
    TaskStatus {
        state: state_of(released, counts.given_up < counts.acquired, row),
        job,
        late: release + u64::from(plan.deadline(task)) <= u64::from(tick),
        row,
        work,
    }
}
