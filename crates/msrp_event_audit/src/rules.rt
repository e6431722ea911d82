//! The rules of a legal log, each as a test of one event.
ghost use Rattle.std.specs.Prelude.{◌≡◌, ◌<◌, ◌+◌, ◌^◌};
ghost use Rattle.msrp_plan.specs.Common.{All};
ghost use Rattle.msrp_events.specs.Rules.{is_past, is_reached, is_overdue, allowance, any_overdue, is_late, any_late, acts_late, is_next_step, is_first, has_outcome, is_done};
ghost use Rattle.msrp_event_audit.specs.LogJobs.{IsKnown};

use crate::jobs::{awaits, first_waiting, is_held, locks_next, unlocks_next};
use msrp_events::{CoreLog, LiveJob, LockAction, Tolerances};
use msrp_plan::{JobId, ResId};
use msrp_system::System;

// Whether more than so long has passed since then.
#[tactic(auto, using(crate::proofs::Times::past_is))]
fn is_past(clock: Option<u64>, wait: u64, now: u64) -> bool
    ensures { result ≡ is_past clock wait now }
{
    match clock {
        Some(time) => wait < now.saturating_sub(time),
        None => true,
    }
}

// Whether so long has passed since then.
#[tactic(auto, using(crate::proofs::Times::reached_is))]
fn is_reached(clock: Option<u64>, wait: u64, now: u64) -> bool
    ensures { result ≡ is_reached clock wait now }
{
    match clock {
        Some(time) => time <= now && wait <= now.saturating_sub(time),
        None => true,
    }
}

// How long the kernel may take to react, by clocks that may differ.
fn allowance(tolerances: Tolerances) -> u64
    ensures value { result ≡ allowance tolerances }
    ensures most { result < 2 ^ 34 }
{
    u64::from(tolerances.slack) + u64::from(tolerances.skew)
}

/// Whether the core has not run the job that it should for longer than this.
pub(crate) fn is_overdue(tolerances: Tolerances, now: u64, core: CoreLog) -> bool
    ensures { result ≡ is_overdue tolerances now core }
{
    let wait = allowance(tolerances);
    core.since.is_some()
        && is_past(core.since, wait, now)
        && is_past(core.acted, u64::from(tolerances.operation) + wait, now)
}

/// Whether a core has not run the job that it should for longer than the slack.
pub(crate) fn any_overdue(tolerances: Tolerances, cores: &[CoreLog], now: u64) -> bool
    ensures { result ≡ any_overdue tolerances cores.now now }
{
    cores.iter().any(|core| is_overdue(tolerances, now, *core))
}

pub(crate) fn is_late(wait: u64, now: u64, clock: Option<u64>) -> bool
    ensures { result ≡ is_late wait now clock }
{
    clock.is_some() && is_past(clock, wait, now)
}

/// How long a resource may be free while a job awaits it.
pub(crate) fn late_wait(tolerances: Tolerances) -> u64
    ensures { result ≡ tolerances.operation + tolerances.slack + tolerances.skew }
{
    u64::from(tolerances.operation) + u64::from(tolerances.slack) + u64::from(tolerances.skew)
}

/// Whether a resource has been free for longer than the slack while a job awaits it.
pub(crate) fn any_late(tolerances: Tolerances, free: &[Option<u64>], now: u64) -> bool
    ensures { result ≡ any_late tolerances free.now now }
{
    let wait = late_wait(tolerances);
    free.iter().any(|clock| is_late(wait, now, *clock))
}

/// Whether the core has not run the job that it should for as long as it may.
pub(crate) fn acts_late(tolerances: Tolerances, now: u64, core: CoreLog) -> bool
    ensures { result ≡ acts_late tolerances now core }
{
    let wait = allowance(tolerances);
    core.since.is_some()
        && is_reached(core.since, wait, now)
        && is_reached(core.acted, u64::from(tolerances.operation) + wait, now)
}

/// Whether the step is the job's next one.
pub(crate) fn is_next_step(system: &System, kind: LockAction, res: ResId, live: LiveJob) -> bool
    requires { IsKnown system.now live }
    ensures { result ≡ is_next_step system.now kind res.0 live }
{
    match kind {
        LockAction::Lock => {
            !live.waits && locks_next(system, res, live) && !system.is_global(res)
        }
        LockAction::Unlock => {
            !live.waits && unlocks_next(system, res, live) && !system.is_global(res)
        }
        LockAction::Request => {
            !live.waits && locks_next(system, res, live) && system.is_global(res)
        }
        LockAction::Freed => {
            !live.waits && unlocks_next(system, res, live) && system.is_global(res)
        }
        LockAction::Acquire | LockAction::Poll => awaits(system, res, live),
    }
}

// Whether the job asked first, of those that await the resource.
fn is_first(system: &System, jobs: &[LiveJob], res: ResId, job: JobId) -> bool
    requires { All (IsKnown system.now) jobs.now }
    ensures { result ≡ is_first system.now jobs.now res.0 job }
{
    match first_waiting(system, jobs, res) {
        Some(first) => first.task.0 == job.task.0 && first.k == job.k,
        None => false,
    }
}

/// Whether the lock answers the step as it must.
pub(crate) fn has_outcome(
    system: &System,
    jobs: &[LiveJob],
    kind: LockAction,
    res: ResId,
    job: JobId,
) -> bool
    requires { All (IsKnown system.now) jobs.now }
    ensures { result ≡ has_outcome system.now jobs.now kind res.0 job }
{
    match kind {
        LockAction::Lock => !is_held(system, jobs, res),
        LockAction::Acquire => !is_held(system, jobs, res) && is_first(system, jobs, res, job),
        LockAction::Poll => is_held(system, jobs, res) || !is_first(system, jobs, res, job),
        LockAction::Unlock | LockAction::Request | LockAction::Freed => true,
    }
}

/// Whether no lock or unlock of the job is left.
pub(crate) fn is_done(system: &System, live: LiveJob) -> bool
    requires { IsKnown system.now live }
    ensures { result ≡ is_done system.now live }
{
    let steps = system.steps(live.job.task).len();
    !live.waits && live.step as usize == steps
}
