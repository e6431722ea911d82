//! The started, unfinished jobs of each core: they can block the jobs that are released next.

ghost use Rattle.msrp_plan.specs.Common.{[], cond, not, List, IfOk, IfSome, Some, length, vec_capacity, AllByRecursion, first_later, comes_first, is_before, same_job, core_of};
ghost use Rattle.std.specs.Prelude.{◌≡◌, ◌<◌, ◌++◌, ◌∷◌, ◌&&◌, filter};
ghost use Rattle.msrp_plan.specs.declared.rows.Row.{Row as TraceRow};
ghost use Rattle.msrp_report.specs.Inside.Tallies.{AreActive, AreActiveOf, IsKnown};

use msrp_plan::{JobId, Memory, Plan};
use std::alloc::Global;

fn is_first(plan: &Plan, job: JobId, other: Option<JobId>) -> bool
    requires job { IsKnown plan.now job }
    requires other { IfSome other (IsKnown plan.now) }
    ensures { result ≡ comes_first plan.now job other }
{
    match other {
        None => true,
        Some(other) => plan.job_key(job).is_before(&plan.job_key(other)),
    }
}

// The first of two later jobs: the first so far, if any, and another, if it is later than the job.
fn first_with(plan: &Plan, job: JobId, other: JobId, first: Option<JobId>) -> Option<JobId>
    requires job { IsKnown plan.now job }
    requires other { IsKnown plan.now other }
    requires first { IfSome first (IsKnown plan.now) }
    ensures known { IfSome result (IsKnown plan.now) }
    ensures first { result ≡ cond (is_before plan.now job other && comes_first plan.now other first) (Some other) first }
{
    if is_first(plan, job, Some(other)) && is_first(plan, other, first) {
        Some(other)
    } else {
        first
    }
}

/// The started, unfinished jobs of one core: at most one of each task.
#[derive(Drop)]
pub(crate) struct CoreJobs {
    pub(crate) jobs: Vec<JobId>,
}

impl CoreJobs {
    /// Adds a started job.
    #[inline(always)]
    pub(super) fn start(&mut self, job: JobId)
        requires { length self.old.jobs.items < vec_capacity self.old.jobs }
        ensures jobs { self.new.jobs.items ≡ self.old.jobs.items ++ job ∷ [] }
        ensures room { vec_capacity self.new.jobs ≡ vec_capacity self.old.jobs }
    {
        self.jobs.push_reserved(job);
    }

    /// Removes a finished job.
    pub(super) fn finish(&mut self, job: JobId)
        ensures jobs { self.new.jobs.items ≡ filter (λ other. not (same_job other job)) self.old.jobs.items }
        ensures room { vec_capacity self.new.jobs ≡ vec_capacity self.old.jobs }
    {
        self.jobs.retain(|other| *other != job);
    }

    /// The first started, unfinished job of a job's core that is later than the job.
    pub(super) fn first_later(&self, plan: &Plan, job: JobId) -> Option<JobId>
        requires known { AllByRecursion (IsKnown plan.now) self.now.jobs.items }
        requires job { IsKnown plan.now job }
        ensures { (rows : List TraceRow) → AreActiveOf plan.now rows (core_of plan.now job) self.now → result ≡ first_later plan.now rows job }
    {
        let mut first = None;
        for other in &self.jobs {
            first = first_with(plan, job, *other, first);
        }
        first
    }
}

/// No job is started; room for one of each task on each core.
pub(super) fn none_active(alloc: Global, plan: &Plan) -> Result<Vec<CoreJobs>, Memory>
    ensures { IfOk result (λ active. AreActive plan.now [] active.items) }
{
    let mut active = Vec::with_capacity(alloc, plan.cores() as usize)?;
    for _ in 0..plan.cores() {
        let jobs = Vec::with_capacity(alloc, plan.tasks() as usize)?;
        active.push_reserved(CoreJobs { jobs });
    }
    Ok(active)
}
