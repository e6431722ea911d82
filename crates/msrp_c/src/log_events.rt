//! Events of a kernel's log as numbers, for C.
ghost use Rattle.std.specs.Prelude.{◌≡◌};
ghost use Rattle.msrp_c.specs.LogEvents.{action_of, action_of_job, action_with, event_of, seq_numbered, step_numbered};

use crate::turns::{job_numbered, numbered};
use msrp_events::{Action, Event, LockAction};
use msrp_plan::{CoreId, JobId, ResId};

/// An event as numbers; 4294967295 is used for a missing task, job or resource. A field that an
/// event of its kind doesn't have isn't read.
#[repr(C)]
#[derive(Clone, Copy, Debug, PartialEq, Eq)]
pub struct MsrpLogEvent {
    /// The time by the core's clock.
    pub ns: u64,
    /// The absolute deadline of a release, in ns.
    pub deadline: u64,
    /// The number among the core's records; 18446744073709551615 if they aren't numbered.
    pub seq: u64,
    pub core: u32,
    /// 0 for boot, 1 release, 2 switch, 3 lock, 4 unlock, 5 request, 6 acquire, 7 freed, 8 end,
    /// 9 stop, 10 lost, 11 poll.
    pub kind: u32,
    /// Tasks are numbered from 0 in the order of declaration.
    pub task: u32,
    /// The number of the task's job, from 0.
    pub job: u32,
    /// Resources are numbered from 0 in the order of declaration.
    pub resource: u32,
}

// What a job does with a resource, by the number of its kind.
fn step_numbered(kind: u32) -> Option<LockAction>
    ensures { result ≡ step_numbered kind }
{
    match kind {
        3 => Some(LockAction::Lock),
        4 => Some(LockAction::Unlock),
        5 => Some(LockAction::Request),
        6 => Some(LockAction::Acquire),
        7 => Some(LockAction::Freed),
        11 => Some(LockAction::Poll),
        _ => None,
    }
}

// What an event with a job reports, if it is no switch.
fn action_of_job(numbers: &MsrpLogEvent, job: JobId) -> Option<Action>
    ensures { result ≡ action_of_job numbers.now job }
{
    match numbers.kind {
        1 => Some(Action::Release(job, numbers.deadline)),
        8 => Some(Action::End(job)),
        kind => match (step_numbered(kind), numbered(numbers.resource)) {
            (Some(step), Some(res)) => Some(Action::Step(step, job, ResId(res))),
            _ => None,
        },
    }
}

// What an event with a job, or with none, reports: only a switch may have none.
fn action_with(numbers: &MsrpLogEvent, job: Option<JobId>) -> Option<Action>
    ensures { result ≡ action_with numbers.now job }
{
    if numbers.kind == 2 {
        return Some(Action::Switch(job));
    }
    match job {
        Some(job) => action_of_job(numbers, job),
        None => None,
    }
}

// What the numbers report, if they are an event's.
fn action_of(numbers: &MsrpLogEvent) -> Option<Action>
    ensures { result ≡ action_of numbers.now }
{
    match numbers.kind {
        0 => Some(Action::Boot),
        9 => Some(Action::Stop),
        10 => Some(Action::Lost),
        _ => match job_numbered(numbered(numbers.task), numbered(numbers.job)) {
            Some(job) => action_with(numbers, job),
            None => None,
        },
    }
}

// The number of a core's record, if it has one.
fn seq_numbered(seq: u64) -> Option<u64>
    ensures { result ≡ seq_numbered seq }
{
    if seq == u64::MAX { None } else { Some(seq) }
}

/// The event of these numbers, if they are one's.
pub(crate) fn event_of(numbers: &MsrpLogEvent) -> Option<Event>
    ensures { result ≡ event_of numbers.now }
{
    match action_of(numbers) {
        Some(action) => Some(Event {
            time: numbers.ns,
            core: CoreId(numbers.core),
            number: seq_numbered(numbers.seq),
            action,
        }),
        None => None,
    }
}
