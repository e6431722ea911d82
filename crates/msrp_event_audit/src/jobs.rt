//! Jobs that are released and have not ended: their places, and what they hold and await.
ghost use Rattle.std.specs.Prelude.{◌≡◌, ◌<◌};
ghost use Rattle.msrp_plan.specs.Common.{ForSome, IfSome, Option, Some, None, length, is_some, list_any, slice_index_or, All, PlanModel, same_job, is_lock_of, is_unlock_of};
ghost use Rattle.msrp_events.specs.LiveJobs.{holds, awaits, next_unit, locks_next, unlocks_next, is_held, is_awaited, place_of, live as live_with};
ghost use Rattle.msrp_events.specs.Rules.{first_waiting};
ghost use Rattle.msrp_event_audit.specs.LogJobs.{IsKnown};

use msrp_events::LiveJob;
use msrp_plan::{JobId, Op, ResId};
use msrp_system::System;

fn is_same_job(a: JobId, b: JobId) -> bool
    ensures { result ≡ same_job a b }
{
    a.task.0 == b.task.0 && a.k == b.k
}

// The place of a job among the jobs.
fn find(jobs: &[LiveJob], job: JobId) -> Option<usize>
    ensures { result ≡ place_of jobs.now job }
{
    jobs.iter().position(|live| is_same_job(live.job, job))
}

/// The place of a job among the jobs, which is within them.
pub(crate) fn place_of(jobs: &[LiveJob], job: JobId) -> Option<usize>
    ensures value { result ≡ place_of jobs.now job }
    ensures within { IfSome result (λ place. place < length jobs.now) }
{
    find(jobs, job)
}

/// The job with what is known of it, if it is released and has not ended.
pub fn live_job(jobs: &[LiveJob], job: JobId) -> Option<LiveJob>
    ensures value { result ≡ live_with jobs.now job }
    ensures known { (system : PlanModel) → All (IsKnown system) jobs.now → ForSome result (IsKnown system) }
{
    let place = place_of(jobs, job)?;
    Some(jobs[place])
}

/// Whether the job has locked the resource and not yet unlocked it.
pub fn holds(system: &System, res: ResId, live: LiveJob) -> bool
    requires { IsKnown system.now live }
    ensures { result ≡ holds system.now res.0 live }
{
    system.holds_after(live.job.task, live.step, res)
}

/// The next lock or unlock of the job.
pub fn next_unit(system: &System, live: LiveJob) -> Option<Op>
    requires { IsKnown system.now live }
    ensures { result ≡ next_unit system.now live }
{
    system.steps(live.job.task).get(live.step as usize).copied()
}

pub(crate) fn locks_next(system: &System, res: ResId, live: LiveJob) -> bool
    requires { IsKnown system.now live }
    ensures { result ≡ locks_next res.0 (next_unit system.now live) }
{
    match next_unit(system, live) {
        Some(Op::Lock(other)) => other.0 == res.0,
        _ => false,
    }
}

pub(crate) fn unlocks_next(system: &System, res: ResId, live: LiveJob) -> bool
    requires { IsKnown system.now live }
    ensures { result ≡ unlocks_next res.0 (next_unit system.now live) }
{
    match next_unit(system, live) {
        Some(Op::Unlock(other)) => other.0 == res.0,
        _ => false,
    }
}

/// Whether the job has requested the resource and not yet acquired it.
pub fn awaits(system: &System, res: ResId, live: LiveJob) -> bool
    requires { IsKnown system.now live }
    ensures { result ≡ awaits system.now res.0 live }
{
    live.waits && locks_next(system, res, live)
}

/// Whether some job holds the resource.
pub(crate) fn is_held(system: &System, jobs: &[LiveJob], res: ResId) -> bool
    requires { All (IsKnown system.now) jobs.now }
    ensures { result ≡ is_held system.now jobs.now res.0 }
{
    for live in jobs {
        if holds(system, res, *live) {
            return true;
        }
    }
    false
}

/// Whether some job awaits the resource.
pub(crate) fn is_awaited(system: &System, jobs: &[LiveJob], res: ResId) -> bool
    requires { All (IsKnown system.now) jobs.now }
    ensures { result ≡ is_awaited system.now jobs.now res.0 }
{
    for live in jobs {
        if awaits(system, res, *live) {
            return true;
        }
    }
    false
}

/// The first job that awaits the resource.
pub(crate) fn first_waiting(system: &System, jobs: &[LiveJob], res: ResId) -> Option<JobId>
    requires { All (IsKnown system.now) jobs.now }
    ensures { result ≡ first_waiting system.now jobs.now res.0 }
{
    for live in jobs {
        if awaits(system, res, *live) {
            return Some(live.job);
        }
    }
    None
}
