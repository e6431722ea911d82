//! What one event shows, in the order of judging.
ghost use Rattle.std.specs.Prelude.{◌≡◌, ◌<◌};
ghost use Rattle.std.specs.Option.{option_or};
ghost use Rattle.msrp_plan.specs.Common.{length, is_job, same_choice};
ghost use Rattle.msrp_events.specs.LiveJobs.{live};
ghost use Rattle.msrp_events.specs.Changes.{next_at};
ghost use Rattle.msrp_events.specs.Findings.{fault_if, lacks_if, is_gap, record_finding, continuity, time_finding, absent, job_finding, release_finding, choice_finding, switch_finding, order_finding, step_of_finding, step_finding, end_of_finding, end_finding, action_finding, finding_of};
ghost use Rattle.msrp_event_audit.specs.States.{state_of, Fits};

use crate::choices::choice;
use crate::jobs::live_job;
use crate::rules::{acts_late, any_late, any_overdue, has_outcome, is_done, is_next_step};
use crate::states::State;
use msrp_events::{Action, CoreLog, Event, Finding, LockAction, LogRule, Missing, Tolerances};
use msrp_plan::{CoreId, JobId, ResId};
use msrp_system::System;

fn fault_if(test: bool, rule: LogRule, rest: Option<Finding>) -> Option<Finding>
    ensures { result ≡ fault_if test rule rest }
{
    if test {
        Some(Finding::Fault(rule))
    } else {
        rest
    }
}

fn lacks_if(test: bool, what: Missing, rest: Option<Finding>) -> Option<Finding>
    ensures { result ≡ lacks_if test what rest }
{
    if test {
        Some(Finding::Incomplete(what))
    } else {
        rest
    }
}

// Whether the numbers of two records of a core don't follow each other, where both have one.
fn is_gap(last: Option<u64>, number: Option<u64>) -> bool
    ensures { result ≡ is_gap last number }
{
    match (last, number) {
        (Some(last), Some(number)) => number == 0 || number - 1 != last,
        _ => false,
    }
}

fn record_finding(core: CoreLog, event: Event) -> Option<Finding>
    ensures { result ≡ record_finding core event event.action }
{
    match event.action {
        Action::Boot => lacks_if(core.booted, Missing::Restart, None),
        Action::Lost => Some(Finding::Incomplete(Missing::Records)),
        _ => {
            let clock = lacks_if(event.time < core.time, Missing::Clock, None);
            let gap = lacks_if(is_gap(core.number, event.number), Missing::Records, clock);
            lacks_if(!core.booted, Missing::Start, gap)
        }
    }
}

// What the log lacks at the event.
fn continuity(state: &State, event: Event) -> Option<Finding>
    requires { event.core.0 < length state.now.cores.items }
    ensures { result ≡ continuity (state_of state.now) event }
{
    record_finding(state.cores[event.core.0 as usize], event)
}

// What the times show.
fn time_finding(tolerances: Tolerances, state: &State, event: Event) -> Option<Finding>
    ensures { result ≡ time_finding tolerances (state_of state.now) event }
{
    let late = any_late(tolerances, &state.free, event.time);
    let overdue = any_overdue(tolerances, &state.cores, event.time);
    fault_if(overdue, LogRule::E1, fault_if(late, LogRule::E2, None))
}

// Whether the job isn't released yet, or has ended.
fn absent(state: &State, job: JobId) -> Option<Finding>
    requires { job.task.0 < length state.now.next.items }
    ensures { result ≡ absent (next_at state.now.next.items job.task.0) job.k (live state.now.jobs.items job) }
{
    if live_job(&state.jobs, job).is_some() {
        return None;
    }
    if state.next[job.task.0 as usize] <= u64::from(job.k) {
        Some(Finding::Fault(LogRule::E5))
    } else {
        Some(Finding::Fault(LogRule::E6))
    }
}

// Whether the job is one of the core, is released and has not ended.
fn job_finding(system: &System, state: &State, core: CoreId, job: JobId) -> Option<Finding>
    requires { Fits system.now (state_of state.now) }
    ensures { result ≡ job_finding system.now (state_of state.now) core.0 job }
{
    if job.task.0 >= system.tasks() {
        return Some(Finding::Fault(LogRule::E3));
    }
    let elsewhere = system.core_of(job.task).0 != core.0;
    fault_if(elsewhere, LogRule::E4, absent(state, job))
}

fn release_finding(
    system: &System,
    tolerances: Tolerances,
    state: &State,
    job: JobId,
) -> Option<Finding>
    requires { Fits system.now (state_of state.now) }
    ensures { result ≡ release_finding system.now tolerances (state_of state.now) job }
{
    if job.task.0 >= system.tasks() {
        return Some(Finding::Fault(LogRule::E3));
    }
    let next = state.next[job.task.0 as usize];
    let k = u64::from(job.k);
    let full = lacks_if(
        tolerances.backlog as usize <= state.jobs.len(),
        Missing::Room,
        None,
    );
    fault_if(
        k < next,
        LogRule::E7,
        lacks_if(next < k, Missing::Release, full),
    )
}

/// Whether two are the same job, or both none.
pub(crate) fn is_same_choice(a: Option<JobId>, b: Option<JobId>) -> bool
    ensures { result ≡ same_choice a b }
{
    match (a, b) {
        (None, None) => true,
        (Some(a), Some(b)) => a.task.0 == b.task.0 && a.k == b.k,
        _ => false,
    }
}

// Whether the core switches to the job that it should run.
fn choice_finding(
    system: &System,
    state: &State,
    core: CoreId,
    job: Option<JobId>,
) -> Option<Finding>
    requires { Fits system.now (state_of state.now) }
    ensures { result ≡ choice_finding system.now (state_of state.now) core.0 job }
{
    let expected = choice(system, &state.jobs, core);
    fault_if(!is_same_choice(job, expected), LogRule::E8, None)
}

fn switch_finding(
    system: &System,
    state: &State,
    core: CoreId,
    job: Option<JobId>,
) -> Option<Finding>
    requires { Fits system.now (state_of state.now) }
    ensures { result ≡ switch_finding system.now (state_of state.now) core.0 job }
{
    let chosen = choice_finding(system, state, core, job);
    match job {
        Some(job) => job_finding(system, state, core, job).or(chosen),
        None => chosen,
    }
}

fn is_running(core: CoreLog, job: JobId) -> bool
    ensures { result ≡ is_job core.run job }
{
    match core.run {
        Some(run) => run.task.0 == job.task.0 && run.k == job.k,
        None => false,
    }
}

// An acquisition out of order lacks its request; every other step out of order is a fault.
fn order_finding(in_order: bool, kind: LockAction, rest: Option<Finding>) -> Option<Finding>
    ensures { result ≡ order_finding in_order kind rest }
{
    if in_order {
        return rest;
    }
    match kind {
        LockAction::Acquire => Some(Finding::Incomplete(Missing::Request)),
        _ => Some(Finding::Fault(LogRule::E9)),
    }
}

// What the step shows, where its job is known to be live, to run and to be in time.
fn step_of_finding(
    system: &System,
    state: &State,
    kind: LockAction,
    job: JobId,
    res: ResId,
) -> Option<Finding>
    requires { Fits system.now (state_of state.now) }
    ensures { result ≡ step_of_finding system.now (state_of state.now) kind job res.0 (live state.now.jobs.items job) }
{
    let live = live_job(&state.jobs, job)?;
    let in_order = is_next_step(system, kind, res, live);
    let served = has_outcome(system, &state.jobs, kind, res, job);
    order_finding(in_order, kind, fault_if(!served, LogRule::E10, None))
}

fn step_finding(
    system: &System,
    tolerances: Tolerances,
    state: &State,
    event: Event,
    kind: LockAction,
    job: JobId,
    res: ResId,
) -> Option<Finding>
    requires fits { Fits system.now (state_of state.now) }
    requires core { event.core.0 < length state.now.cores.items }
    ensures { result ≡ step_finding system.now tolerances (state_of state.now) event kind job res.0 }
{
    let core = state.cores[event.core.0 as usize];
    let step = step_of_finding(system, state, kind, job, res);
    let late = fault_if(acts_late(tolerances, event.time, core), LogRule::E8, step);
    let runs = fault_if(!is_running(core, job), LogRule::E8, late);
    job_finding(system, state, event.core, job).or(runs)
}

// What the end shows, where its job is known to be live and to run.
fn end_of_finding(system: &System, state: &State, job: JobId) -> Option<Finding>
    requires { Fits system.now (state_of state.now) }
    ensures { result ≡ end_of_finding system.now (live state.now.jobs.items job) }
{
    let live = live_job(&state.jobs, job)?;
    fault_if(!is_done(system, live), LogRule::E9, None)
}

fn end_finding(system: &System, state: &State, core: CoreId, job: JobId) -> Option<Finding>
    requires fits { Fits system.now (state_of state.now) }
    requires core { core.0 < length state.now.cores.items }
    ensures { result ≡ end_finding system.now (state_of state.now) core.0 job }
{
    let running = is_running(state.cores[core.0 as usize], job);
    let ends = end_of_finding(system, state, job);
    job_finding(system, state, core, job).or(fault_if(!running, LogRule::E8, ends))
}

fn action_finding(
    system: &System,
    tolerances: Tolerances,
    state: &State,
    event: Event,
) -> Option<Finding>
    requires fits { Fits system.now (state_of state.now) }
    requires core { event.core.0 < length state.now.cores.items }
    ensures { result ≡ action_finding system.now tolerances (state_of state.now) event event.action }
{
    match event.action {
        Action::Release(job, _) => release_finding(system, tolerances, state, job),
        Action::Switch(job) => switch_finding(system, state, event.core, job),
        Action::Step(kind, job, res) => {
            step_finding(system, tolerances, state, event, kind, job, res)
        }
        Action::End(job) => end_finding(system, state, event.core, job),
        Action::Boot | Action::Stop | Action::Lost => None,
    }
}

// What the event of a core of the system shows.
fn core_finding(
    system: &System,
    tolerances: Tolerances,
    state: &State,
    event: Event,
) -> Option<Finding>
    requires fits { Fits system.now (state_of state.now) }
    requires core { event.core.0 < length state.now.cores.items }
    ensures { result ≡ option_or (continuity (state_of state.now) event) (option_or (time_finding tolerances (state_of state.now) event) (action_finding system.now tolerances (state_of state.now) event event.action)) }
{
    let action = action_finding(system, tolerances, state, event);
    let time = time_finding(tolerances, state, event);
    continuity(state, event).or(time.or(action))
}

/// What the event shows after the others: the first rule that it violates, or the first thing that
/// the log lacks.
pub(crate) fn finding_of(
    system: &System,
    tolerances: Tolerances,
    state: &State,
    event: Event,
) -> Option<Finding>
    requires { Fits system.now (state_of state.now) }
    ensures { result ≡ finding_of system.now tolerances (state_of state.now) event }
{
    if state.stopped {
        return None;
    }
    if event.core.0 as usize >= state.cores.len() {
        return Some(Finding::Incomplete(Missing::Core));
    }
    core_finding(system, tolerances, state, event)
}
