//! What a start state says, one fact after another, and why no state has a fact.
ghost use Rattle.std.specs.Prelude.{◌≡◌, ◌<◌};
ghost use Rattle.msrp_plan.specs.Common.{All, None, PlanModel, length, vec_capacity};
ghost use Rattle.msrp_event_audit.specs.LogJobs.{IsKnown};
ghost use Rattle.msrp_event_audit.specs.StartStates.{CanStore, IsFactOf, with_fact};
ghost use Rattle.msrp_event_audit.specs.States.{Fits, state_of};

use crate::choices::choice;
use crate::findings::is_same_choice;
use crate::jobs::{awaits, holds, is_awaited, is_held, live_job};
use crate::states::State;
use msrp_events::{CoreLog, LiveJob, Tolerances};
use msrp_plan::{CoreId, JobId, ResId, TaskId};
use msrp_system::System;
use thiserror::Error;

/// One fact of a start state.
#[derive(Clone, Copy, Debug, PartialEq, Eq)]
pub enum Fact {
    /// The number of a task's next job.
    Next(TaskId, u64),
    /// A job that is released and has not ended, and the resource that it waits for.
    Job(LiveJob, Option<ResId>),
    /// A core whose log has begun.
    Core(CoreId, CoreLog),
    /// Since when a resource has been free while a job awaits it.
    Free(ResId, u64),
    /// The log has stopped.
    Stopped,
}

/// Why no state has a fact, after the facts before it.
#[derive(Clone, Copy, Debug, Error, PartialEq, Eq)]
pub enum Impossible {
    #[error("the system has no such task")]
    Task,
    #[error("the system has no such resource")]
    Resource,
    #[error("the system has no such core")]
    Core,
    #[error("an earlier record says this already")]
    Twice,
    #[error("the job's number must be below that of its task's next job")]
    Number,
    #[error("more jobs have not ended than --backlog allows")]
    Room,
    #[error("the jobs of a core come before the core")]
    Order,
    #[error("the task has fewer locks and unlocks")]
    Step,
    #[error("a job that has not started has no locks and unlocks behind it")]
    Unstarted,
    #[error("the job's next step is not a request of this resource")]
    Request,
    #[error("the job holds a resource that another job holds")]
    Held,
    #[error("a core runs a job of its own that has started, and if one waits, this one")]
    Run,
    #[error("field 7: a core has a time exactly if it should run another job")]
    Since,
    #[error("a core with a job that has started has a record")]
    Begin,
    #[error("a resource has a time exactly if it is free while a job awaits it")]
    Free,
}

fn next_problem(state: &State, task: TaskId) -> Option<Impossible>
    ensures { result ≡ None → task.0 < length state.now.next.items }
{
    match state.next.get(task.0 as usize).copied() {
        None => Some(Impossible::Task),
        Some(0) => None,
        Some(_) => Some(Impossible::Twice),
    }
}

// Whether the job holds a resource that one of the jobs holds.
fn shares(system: &System, jobs: &[LiveJob], live: LiveJob) -> bool
    requires jobs { All (IsKnown system.now) jobs.now }
    requires live { IsKnown system.now live }
{
    for r in 0..system.resources() {
        if holds(system, ResId(r), live) && is_held(system, jobs, ResId(r)) {
            return true;
        }
    }
    false
}

// Whether the job waits for the global resource that it locks next, or for none.
fn waits_for(system: &System, live: LiveJob, res: Option<ResId>) -> bool
    requires { IsKnown system.now live }
{
    match res {
        Some(res) => awaits(system, res, live) && system.is_global(res),
        None => !live.waits,
    }
}

// Why no state has the job, whose task is one of the system.
fn known_job_problem(
    system: &System,
    state: &State,
    live: LiveJob,
    res: Option<ResId>,
) -> Option<Impossible>
    requires fits { Fits system.now (state_of state.now) }
    requires known { IsKnown system.now live }
{
    let (task, core) = (live.job.task, system.core_of(live.job.task));
    if state.next[task.0 as usize] <= u64::from(live.job.k) {
        Some(Impossible::Number)
    } else if live_job(&state.jobs, live.job).is_some() {
        Some(Impossible::Twice)
    } else if state.cores[core.0 as usize].booted {
        Some(Impossible::Order)
    } else if live.step as usize > system.steps(task).len() {
        Some(Impossible::Step)
    } else if !live.started && live.step > 0 {
        Some(Impossible::Unstarted)
    } else if !waits_for(system, live, res) {
        Some(Impossible::Request)
    } else if shares(system, &state.jobs, live) {
        Some(Impossible::Held)
    } else {
        None
    }
}

fn job_problem(
    system: &System,
    tolerances: Tolerances,
    state: &State,
    live: LiveJob,
    res: Option<ResId>,
) -> Option<Impossible>
    requires { Fits system.now (state_of state.now) }
    ensures known { result ≡ None → IsKnown system.now live }
    ensures room { result ≡ None → length state.now.jobs.items < tolerances.backlog }
{
    if live.job.task.0 >= system.tasks() {
        return Some(Impossible::Task);
    }
    if state.jobs.len() >= tolerances.backlog as usize {
        return Some(Impossible::Room);
    }
    known_job_problem(system, state, live, res)
}

// Whether the core may run this job, or none: a started one of its own, and that which waits.
fn can_run(system: &System, jobs: &[LiveJob], core: CoreId, run: Option<JobId>) -> bool
    requires { All (IsKnown system.now) jobs.now }
{
    let mut found = run.is_none();
    for live in jobs {
        let runs = Some(live.job) == run;
        if system.core_of(live.job.task) == core && live.waits && !runs {
            return false;
        }
        found = found || runs && live.started && system.core_of(live.job.task) == core;
    }
    found
}

fn core_problem(system: &System, state: &State, core: CoreId, log: CoreLog) -> Option<Impossible>
    requires { Fits system.now (state_of state.now) }
    ensures { result ≡ None → core.0 < length state.now.cores.items }
{
    if core.0 as usize >= state.cores.len() {
        Some(Impossible::Core)
    } else if state.cores[core.0 as usize].booted {
        Some(Impossible::Twice)
    } else if !can_run(system, &state.jobs, core, log.run) {
        Some(Impossible::Run)
    } else if is_same_choice(choice(system, &state.jobs, core), log.run) == log.since.is_some() {
        Some(Impossible::Since)
    } else {
        None
    }
}

// Whether a resource is free while a job awaits it.
fn is_ungranted(system: &System, jobs: &[LiveJob], res: ResId) -> bool
    requires { All (IsKnown system.now) jobs.now }
{
    is_awaited(system, jobs, res) && !is_held(system, jobs, res)
}

fn free_problem(system: &System, state: &State, res: ResId) -> Option<Impossible>
    requires { Fits system.now (state_of state.now) }
    ensures { result ≡ None → res.0 < length state.now.free.items }
{
    match state.free.get(res.0 as usize).copied() {
        None => Some(Impossible::Resource),
        Some(Some(_)) => Some(Impossible::Twice),
        Some(None) if !is_ungranted(system, &state.jobs, res) => Some(Impossible::Free),
        Some(None) => None,
    }
}

/// Why no state has the fact after those before, if none has.
pub(crate) fn problem_of(
    system: &System,
    tolerances: Tolerances,
    state: &State,
    fact: Fact,
) -> Option<Impossible>
    requires { Fits system.now (state_of state.now) }
    ensures can { result ≡ None → CanStore fact (state_of state.now) tolerances.backlog }
    ensures known { result ≡ None → IsFactOf system.now fact }
{
    match fact {
        Fact::Next(task, _) => next_problem(state, task),
        Fact::Job(live, res) => job_problem(system, tolerances, state, live, res),
        Fact::Core(core, log) => core_problem(system, state, core, log),
        Fact::Free(res, _) => free_problem(system, state, res),
        Fact::Stopped => None,
    }
}

// Whether a job has started on a core whose log has not begun.
fn starts_early(system: &System, state: &State) -> bool
    requires { Fits system.now (state_of state.now) }
{
    for live in state.jobs.as_slice() {
        let core = system.core_of(live.job.task);
        if live.started && !state.cores[core.0 as usize].booted {
            return true;
        }
    }
    false
}

/// Why the facts so far describe no state: a job has started on a core whose log has not begun, or
/// a resource is free while a job awaits it, and no fact says since when.
pub(crate) fn lacking(system: &System, state: &State) -> Option<Impossible>
    requires { Fits system.now (state_of state.now) }
{
    if starts_early(system, state) {
        return Some(Impossible::Begin);
    }
    for r in 0..system.resources() {
        let timed = matches!(state.free.get(r as usize).copied(), Some(Some(_)));
        if timed != is_ungranted(system, &state.jobs, ResId(r)) {
            return Some(Impossible::Free);
        }
    }
    None
}

/// Stores a fact.
pub(crate) fn store(state: &mut State, fact: Fact)
    requires { CanStore fact (state_of state.old) (vec_capacity state.old.jobs) }
    ensures state { state_of state.new ≡ with_fact (state_of state.old) fact }
    ensures fits { (system : PlanModel) → IsFactOf system fact → Fits system (state_of state.old) → Fits system (state_of state.new) }
    ensures room { vec_capacity state.new.jobs ≡ vec_capacity state.old.jobs }
{
    match fact {
        Fact::Next(task, number) => state.next[task.0 as usize] = number,
        Fact::Job(live, _) => state.jobs.push_reserved(live),
        Fact::Core(core, log) => state.cores[core.0 as usize] = log,
        Fact::Free(res, since) => state.free[res.0 as usize] = Some(since),
        Fact::Stopped => state.stopped = true,
    }
}
