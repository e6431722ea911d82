//! The counts of all jobs over the rows so far; no row is stored.

ghost use Rattle.std.specs.Prelude.{◌≡◌};
ghost use Rattle.msrp_plan.specs.Common.{ℕ, List, Contains, PlanModel, jobs, blocked, IsPlan};
ghost use Rattle.msrp_plan.specs.declared.rows.Row.{Row as TraceRow};
ghost use Rattle.msrp_report.specs.Inside.Counts.{count_of};
ghost use Rattle.msrp_report.specs.Inside.Tallies.{AreTallies, IsTallyOf, ToldOf};

use crate::counts::JobCount;
use active::CoreJobs;
use msrp_plan::{JobId, TaskId};

mod active;
mod feeding;
mod releasing;
mod starting;

/// How long a job is blocked, as far as the rows say. Its blocker is known at its release, and it
/// is blocked until it starts.
#[derive(Clone, Copy)]
pub(crate) enum Blocking {
    /// By this many rows, final: it is started, or nobody blocks it, or it isn't released yet.
    Over(u32),
    /// It waits, and each row of this job blocks it, except the `before` rows before the release.
    By { job: JobId, before: u32 },
}

/// One job's counts over the rows so far.
#[derive(Clone, Copy)]
pub(crate) struct JobTally {
    pub(crate) count: JobCount,
    pub(crate) blocking: Blocking,
}

/// The counts of one task's jobs.
#[derive(Drop)]
pub(crate) struct TaskTally {
    pub(crate) jobs: Vec<JobTally>,
    /// The units of each job.
    pub(crate) units: u32,
    /// The number of released jobs.
    pub(crate) released: u32,
}

/// The next release of a task, or the plan's end if none is left.
#[derive(Clone, Copy)]
pub(crate) struct NextRelease {
    pub(crate) tick: u32,
    pub(crate) task: TaskId,
}

/// The counts of all jobs of a plan, task by task.
#[derive(Drop)]
pub(crate) struct Tallies {
    pub(crate) tasks: Vec<TaskTally>,
    /// By core: the started, unfinished jobs.
    pub(crate) active: Vec<CoreJobs>,
    /// The number of ticks begun.
    pub(crate) begun: u32,
    /// The next release of each task, the earliest first.
    pub(crate) releases: Vec<NextRelease>,
}

impl Tallies {
    #[inline(always)]
    fn tally_of(&self, job: JobId) -> JobTally
        requires { ToldOf self.now.tasks.items job }
        ensures { IsTallyOf self.now.tasks.items job result }
    {
        self.tasks[job.task.0 as usize].jobs[job.k as usize]
    }

    /// The counts of the job's own rows.
    #[inline(always)]
    pub(crate) fn count_of(&self, job: JobId) -> JobCount
        requires { ToldOf self.now.tasks.items job }
        ensures { (plan : PlanModel) (rows : List TraceRow) (begun : ℕ → ℕ) → AreTallies plan rows begun self.now.tasks.items → result ≡ count_of rows job }
    {
        self.tally_of(job).count
    }

    /// The number of rows that have blocked a job.
    pub(crate) fn blocked(&self, job: JobId) -> u32
        requires { ToldOf self.now.tasks.items job }
        ensures { (plan : PlanModel) (rows : List TraceRow) (begun : ℕ → ℕ) → IsPlan plan → AreTallies plan rows begun self.now.tasks.items → Contains (jobs plan) job → result ≡ blocked plan rows job }
    {
        match self.tally_of(job).blocking {
            Blocking::Over(rows) => rows,
            Blocking::By { job: other, before } => self.count_of(other).rows - before,
        }
    }
}
