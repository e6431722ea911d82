//! What an event changes, where it shows nothing.
ghost use Rattle.std.specs.Prelude.{◌≡◌, ◌≤◌, ◌<◌, ◌+◌, ◌^◌};
ghost use Rattle.msrp_plan.specs.Common.{All, IsSome, IfSome, length, vec_len, vec_capacity, slice_index_or, Option, Some, None, false};
ghost use Rattle.msrp_events.specs.Changes.{no_job, changed_at, without_at, last_at, as_started, as_waiting, as_stepped, jobs_stepped, jobs_with, next_with, acts, core_with, clock_after, cores_acted, cores_timed, free_timed, differs, is_ungranted, since_with, core_touched, resource_touched, state_with, stopped_with};
ghost use Rattle.msrp_events.specs.LiveJobs.{place_of, is_awaited, is_held};
ghost use Rattle.msrp_event_audit.specs.LogJobs.{IsKnown};
ghost use Rattle.msrp_event_audit.specs.States.{state_of, Fits, CanStep, CanChange, CanCount};

use crate::choices::choice;
use crate::findings::is_same_choice;
use crate::jobs::{is_awaited, is_held, place_of};
use crate::states::State;
use msrp_events::{Action, CoreLog, Event, LiveJob, LockAction};
use msrp_plan::{CoreId, JobId, ResId};
use msrp_system::System;

fn start(jobs: &mut Vec<LiveJob>, job: JobId)
    ensures jobs { jobs.new.items ≡ changed_at (place_of jobs.old.items job) as_started jobs.old.items }
    ensures room { vec_capacity jobs.new ≡ vec_capacity jobs.old }
{
    match place_of(jobs, job) {
        Some(place) => {
            let live = jobs[place];
            jobs[place] = LiveJob {
                started: true,
                ..live
            };
        }
        None => {}
    }
}

fn advance(jobs: &mut Vec<LiveJob>, job: JobId)
    requires { CanStep jobs.old.items job }
    ensures jobs { jobs.new.items ≡ changed_at (place_of jobs.old.items job) as_stepped jobs.old.items }
    ensures room { vec_capacity jobs.new ≡ vec_capacity jobs.old }
{
    match place_of(jobs, job) {
        Some(place) => {
            let live = jobs[place];
            jobs[place] = LiveJob {
                waits: false,
                step: live.step + 1,
                ..live
            };
        }
        None => {}
    }
}

fn remove(jobs: &mut Vec<LiveJob>, job: JobId)
    ensures jobs { jobs.new.items ≡ without_at (place_of jobs.old.items job) jobs.old.items }
    ensures room { vec_capacity jobs.new ≡ vec_capacity jobs.old }
{
    match place_of(jobs, job) {
        Some(place) => {
            jobs.remove(place);
        }
        None => {}
    }
}

fn await_resource(jobs: &mut Vec<LiveJob>, job: JobId)
    ensures jobs { jobs.new.items ≡ last_at (place_of jobs.old.items job) as_waiting jobs.old.items }
    ensures room { vec_capacity jobs.new ≡ vec_capacity jobs.old }
{
    match place_of(jobs, job) {
        Some(place) => {
            let live = jobs.remove(place);
            jobs.push_reserved(LiveJob {
                waits: true,
                ..live
            });
        }
        None => {}
    }
}

fn step(jobs: &mut Vec<LiveJob>, kind: LockAction, job: JobId)
    requires { CanStep jobs.old.items job }
    ensures jobs { jobs.new.items ≡ jobs_stepped kind job jobs.old.items }
    ensures room { vec_capacity jobs.new ≡ vec_capacity jobs.old }
{
    match kind {
        LockAction::Request => await_resource(jobs, job),
        LockAction::Poll => {}
        LockAction::Lock | LockAction::Unlock | LockAction::Acquire | LockAction::Freed => {
            advance(jobs, job)
        }
    }
}

fn change_jobs(jobs: &mut Vec<LiveJob>, action: Action)
    requires { CanChange action jobs.old.items (vec_capacity jobs.old) }
    ensures jobs { jobs.new.items ≡ jobs_with action jobs.old.items }
    ensures room { vec_capacity jobs.new ≡ vec_capacity jobs.old }
{
    match action {
        Action::Release(job, deadline) => jobs.push_reserved(LiveJob {
            job,
            deadline,
            started: false,
            waits: false,
            step: 0,
        }),
        Action::Switch(Some(job)) => start(jobs, job),
        Action::Step(kind, job, _) => step(jobs, kind, job),
        Action::End(job) => remove(jobs, job),
        Action::Switch(None) | Action::Boot | Action::Stop | Action::Lost => {}
    }
}

fn change_next(next: &mut Vec<u64>, action: Action)
    requires { CanCount action next.old.items }
    ensures { next.new.items ≡ next_with action next.old.items }
{
    if let Action::Release(job, _) = action {
        next[job.task.0 as usize] = u64::from(job.k) + 1;
    }
}

fn core_with(event: Event, core: CoreLog) -> CoreLog
    ensures { result ≡ core_with event core }
{
    let core = CoreLog {
        time: event.time,
        number: event.number,
        ..core
    };
    match event.action {
        Action::Boot => CoreLog {
            booted: true,
            ..core
        },
        Action::Switch(job) => CoreLog { run: job, ..core },
        Action::Step(_, _, _) => CoreLog {
            acted: Some(event.time),
            ..core
        },
        Action::End(_) => CoreLog { run: None, ..core },
        Action::Release(_, _) | Action::Stop | Action::Lost => core,
    }
}

fn change_core(cores: &mut Vec<CoreLog>, event: Event)
    requires { event.core.0 < length cores.old.items }
    ensures { cores.new.items ≡ cores_acted event cores.old.items }
{
    let place = event.core.0 as usize;
    cores[place] = core_with(event, cores[place]);
}

// A clock runs while its condition holds.
fn clock_after(holds: bool, clock: Option<u64>, now: u64) -> Option<u64>
    ensures { result ≡ clock_after holds clock now }
{
    if holds {
        Some(clock.unwrap_or(now))
    } else {
        None
    }
}

// Since when the core should run another job than it does.
fn time_core(system: &System, jobs: &[LiveJob], cores: &mut Vec<CoreLog>, core: CoreId, now: u64)
    requires jobs { All (IsKnown system.now) jobs.now }
    requires core { core.0 < length cores.old.items }
    ensures { cores.new.items ≡ cores_timed system.now jobs.now core.0 now cores.old.items }
{
    let place = core.0 as usize;
    let before = cores[place];
    let expected = choice(system, jobs, core);
    let differs = before.booted && !is_same_choice(expected, before.run);
    cores[place] = CoreLog {
        since: clock_after(differs, before.since, now),
        ..before
    };
}

// Since when the resource has been free while a job awaits it.
fn time_resource(
    system: &System,
    jobs: &[LiveJob],
    free: &mut Vec<Option<u64>>,
    res: ResId,
    now: u64,
)
    requires { All (IsKnown system.now) jobs.now }
    ensures { free.new.items ≡ free_timed system.now jobs.now (Some res.0) now free.old.items }
{
    let place = res.0 as usize;
    if place < free.len() {
        let ungranted = is_awaited(system, jobs, res) && !is_held(system, jobs, res);
        free[place] = clock_after(ungranted, free[place], now);
    }
}

// Since when the resource that the event is on, if it is on one, has been free while a job awaits
// it.
fn time_touched(system: &System, jobs: &[LiveJob], free: &mut Vec<Option<u64>>, event: Event)
    requires { All (IsKnown system.now) jobs.now }
    ensures { free.new.items ≡ free_timed system.now jobs.now (resource_touched event.action) event.time free.old.items }
{
    if let Action::Step(_, _, res) = event.action {
        time_resource(system, jobs, free, res, event.time);
    }
}

// Whether the log stops.
fn stops(action: Action) -> bool
    ensures { result ≡ stopped_with action }
{
    matches!(action, Action::Stop)
}

// The core whose choice the event may change.
fn core_touched(system: &System, event: Event) -> CoreId
    requires task { CanCount event.action system.now.tasks }
    requires core { event.core.0 < system.now.cores }
    ensures value { result.0 ≡ core_touched system.now event }
    ensures core { result.0 < system.now.cores }
{
    match event.action {
        Action::Release(job, _) => system.core_of(job.task),
        _ => event.core,
    }
}

/// The state after one event more, which shows nothing.
pub(crate) fn apply(system: &System, state: &mut State, event: Event)
    requires fits { Fits system.now (state_of state.old) }
    requires runs { state.old.stopped ≡ false }
    requires core { event.core.0 < length state.old.cores.items }
    requires task { CanCount event.action system.now.tasks }
    requires jobs { CanChange event.action state.old.jobs.items (vec_capacity state.old.jobs) }
    ensures state { state_of state.new ≡ state_with system.now (state_of state.old) event }
    ensures fits { Fits system.now (state_of state.new) }
    ensures room { vec_capacity state.new.jobs ≡ vec_capacity state.old.jobs }
{
    change_jobs(&mut state.jobs, event.action);
    change_next(&mut state.next, event.action);
    change_core(&mut state.cores, event);
    let core = core_touched(system, event);
    time_core(system, &state.jobs, &mut state.cores, core, event.time);
    time_touched(system, &state.jobs, &mut state.free, event);
    state.stopped = stops(event.action);
}
