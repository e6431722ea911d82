//! The job that a core should run: earliest deadline first under the Stack Resource Policy.
ghost use Rattle.std.specs.Prelude.{◌≡◌, ◌<◌, ◌==◌};
ghost use Rattle.msrp_plan.specs.Common.{IfSome, All, length, core_of, ForSome};
ghost use Rattle.msrp_events.specs.LiveJobs.{live_key, is_on};
ghost use Rattle.msrp_events.specs.Choices.{is_before, is_among, first_of, ceiling, comes_first, chosen, choice};
ghost use Rattle.msrp_event_audit.specs.LogJobs.{IsKnown, earlier};

use msrp_events::LiveJob;
use msrp_plan::{CoreId, JobId, JobKey};
use msrp_system::System;

fn live_key(system: &System, live: LiveJob) -> JobKey
    requires { IsKnown system.now live }
    ensures { result ≡ live_key system.now live }
{
    let relative = system.deadline(live.job.task);
    JobKey {
        deadline: live.deadline,
        release: live.deadline.saturating_sub(relative),
        task: live.job.task.0,
        k: live.job.k,
    }
}

fn is_before(system: &System, a: LiveJob, b: LiveJob) -> bool
    requires a { IsKnown system.now a }
    requires b { IsKnown system.now b }
    ensures { result ≡ is_before system.now a b }
{
    let first = live_key(system, a);
    let second = live_key(system, b);
    first.is_before(&second)
}

fn is_on(system: &System, core: CoreId, live: LiveJob) -> bool
    requires { IsKnown system.now live }
    ensures { result ≡ is_on system.now core.0 live }
{
    system.core_of(live.job.task).0 == core.0
}

fn is_among(system: &System, core: CoreId, started: bool, live: LiveJob) -> bool
    requires { IsKnown system.now live }
    ensures { result ≡ is_among system.now core.0 started live }
{
    is_on(system, core, live) && if started { live.started } else { !live.started }
}

// The earlier of two jobs, of which the first may be missing.
fn earlier(system: &System, first: Option<LiveJob>, live: LiveJob) -> LiveJob
    requires first { ForSome first (IsKnown system.now) }
    requires live { IsKnown system.now live }
    ensures value { result ≡ earlier system.now first live }
    ensures known { IsKnown system.now result }
{
    match first {
        Some(best) => {
            if is_before(system, live, best) {
                live
            } else {
                best
            }
        }
        None => live,
    }
}

/// The first job of the core among those that are started, or among those that aren't.
pub fn first_of(system: &System, jobs: &[LiveJob], core: CoreId, started: bool) -> Option<LiveJob>
    requires { All (IsKnown system.now) jobs.now }
    ensures value { result ≡ first_of system.now jobs.now core.0 started }
    ensures known { ForSome result (IsKnown system.now) }
{
    let mut first: Option<LiveJob> = None;
    for live in jobs {
        if is_among(system, core, started, *live) {
            first = Some(earlier(system, first, *live));
        }
    }
    first
}

/// The current ceiling of the core.
pub fn ceiling(system: &System, jobs: &[LiveJob], core: CoreId) -> u32
    requires { All (IsKnown system.now) jobs.now }
    ensures { result ≡ ceiling system.now jobs.now core.0 }
{
    let mut highest = 0;
    for live in jobs {
        if is_on(system, core, *live) {
            highest = system
                .ceiling_after(live.job.task, live.step, live.waits)
                .max(highest);
        }
    }
    highest
}

fn comes_first(system: &System, head: LiveJob, running: Option<LiveJob>) -> bool
    requires head { IsKnown system.now head }
    requires running { ForSome running (IsKnown system.now) }
    ensures { result ≡ comes_first system.now head running }
{
    match running {
        Some(running) => is_before(system, head, running),
        None => true,
    }
}

// The head where its level is above the ceiling and it comes before who is started; else who is
// started.
fn chosen(
    system: &System,
    above: u32,
    head: Option<LiveJob>,
    running: Option<LiveJob>,
) -> Option<LiveJob>
    requires head { ForSome head (IsKnown system.now) }
    requires running { ForSome running (IsKnown system.now) }
    ensures { result ≡ chosen system.now above head running }
{
    match head {
        Some(head) => {
            if above < system.level(head.job.task) && comes_first(system, head, running) {
                Some(head)
            } else {
                running
            }
        }
        None => running,
    }
}

/// The job that the core should run, or none.
pub fn choice(system: &System, jobs: &[LiveJob], core: CoreId) -> Option<JobId>
    requires { All (IsKnown system.now) jobs.now }
    ensures { result ≡ choice system.now jobs.now core.0 }
{
    let above = ceiling(system, jobs, core);
    let head = first_of(system, jobs, core, false);
    let running = first_of(system, jobs, core, true);
    match chosen(system, above, head, running) {
        Some(live) => Some(live.job),
        None => None,
    }
}
