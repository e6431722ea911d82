//! What a record of a log reports.
ghost use Rattle.std.specs.Prelude.{◌≡◌};
ghost use Rattle.csv.specs.Records.{fields_of};
ghost use Rattle.msrp_event_text.specs.LogEvents.{task_named, res_named, job_of, is_idle, release_of, switch_of, end_of, lock_action_of, step_of, action_of, is_event_alone, is_event_of_job, is_event};

use crate::numbers::long_number_at;
use csv::ByteRecord;
use msrp_events::{Action, LockAction};
use msrp_plan::{JobId, ResId, TaskId};
use msrp_system::System;
use msrp_text::fields::{has_word, name_at, number_at};

// The number of a task or resource that the system lacks.
const UNKNOWN: u32 = u32::MAX;

/// The task that a record names.
pub(crate) fn task_named(system: &System, fields: &ByteRecord) -> TaskId
    ensures { result ≡ task_named system.now (fields_of fields.now) }
{
    match system.task_of(name_at(fields, 3)) {
        Some(task) => task,
        None => TaskId(UNKNOWN),
    }
}

/// The resource that a record names.
pub(crate) fn res_named(system: &System, fields: &ByteRecord) -> ResId
    ensures { result ≡ res_named system.now (fields_of fields.now) }
{
    match system.res_of(name_at(fields, 5)) {
        Some(res) => res,
        None => ResId(UNKNOWN),
    }
}

/// The job that a record names.
pub(crate) fn job_of(system: &System, fields: &ByteRecord) -> Option<JobId>
    ensures { result ≡ job_of system.now (fields_of fields.now) }
{
    match number_at(fields, 4) {
        Some(k) => Some(JobId {
            task: task_named(system, fields),
            k,
        }),
        None => None,
    }
}

/// Whether a record names no job.
pub(crate) fn is_idle(fields: &ByteRecord) -> bool
    ensures { result ≡ is_idle (fields_of fields.now) }
{
    has_word(fields, 3, b"") && has_word(fields, 4, b"")
}

fn release_of(system: &System, fields: &ByteRecord) -> Option<Action>
    ensures { result ≡ release_of system.now (fields_of fields.now) }
{
    match (job_of(system, fields), long_number_at(fields, 6)) {
        (Some(job), Some(deadline)) => Some(Action::Release(job, deadline)),
        _ => None,
    }
}

fn switch_of(system: &System, fields: &ByteRecord) -> Option<Action>
    ensures { result ≡ switch_of system.now (fields_of fields.now) }
{
    if is_idle(fields) {
        return Some(Action::Switch(None));
    }
    match job_of(system, fields) {
        Some(job) => Some(Action::Switch(Some(job))),
        None => None,
    }
}

fn end_of(system: &System, fields: &ByteRecord) -> Option<Action>
    ensures { result ≡ end_of system.now (fields_of fields.now) }
{
    match job_of(system, fields) {
        Some(job) => Some(Action::End(job)),
        None => None,
    }
}

// What the running job does with a resource.
fn lock_action_of(fields: &ByteRecord) -> Option<LockAction>
    ensures { result ≡ lock_action_of (fields_of fields.now) }
{
    if has_word(fields, 2, b"lock") {
        Some(LockAction::Lock)
    } else if has_word(fields, 2, b"unlock") {
        Some(LockAction::Unlock)
    } else if has_word(fields, 2, b"request") {
        Some(LockAction::Request)
    } else if has_word(fields, 2, b"acquire") {
        Some(LockAction::Acquire)
    } else if has_word(fields, 2, b"poll") {
        Some(LockAction::Poll)
    } else if has_word(fields, 2, b"freed") {
        Some(LockAction::Freed)
    } else {
        None
    }
}

fn step_of(system: &System, fields: &ByteRecord) -> Option<Action>
    ensures { result ≡ step_of system.now (fields_of fields.now) }
{
    match (lock_action_of(fields), job_of(system, fields)) {
        (Some(kind), Some(job)) => Some(Action::Step(kind, job, res_named(system, fields))),
        _ => None,
    }
}

/// What a record reports, if it is one of a log.
pub(crate) fn action_of(system: &System, fields: &ByteRecord) -> Option<Action>
    ensures { result ≡ action_of system.now (fields_of fields.now) }
{
    if has_word(fields, 2, b"release") {
        release_of(system, fields)
    } else if has_word(fields, 2, b"switch") {
        switch_of(system, fields)
    } else if has_word(fields, 2, b"end") {
        end_of(system, fields)
    } else if has_word(fields, 2, b"boot") {
        Some(Action::Boot)
    } else if has_word(fields, 2, b"stop") {
        Some(Action::Stop)
    } else if has_word(fields, 2, b"lost") {
        Some(Action::Lost)
    } else {
        step_of(system, fields)
    }
}

fn is_event_alone(fields: &ByteRecord) -> bool
    ensures { result ≡ is_event_alone (fields_of fields.now) }
{
    has_word(fields, 2, b"boot") || has_word(fields, 2, b"stop") || has_word(fields, 2, b"lost")
}

fn is_event_of_job(fields: &ByteRecord) -> bool
    ensures { result ≡ is_event_of_job (fields_of fields.now) }
{
    has_word(fields, 2, b"release")
        || has_word(fields, 2, b"switch")
        || has_word(fields, 2, b"end")
        || lock_action_of(fields).is_some()
}

/// Whether the third field is the word of an event.
pub(crate) fn is_event(fields: &ByteRecord) -> bool
    ensures { result ≡ is_event (fields_of fields.now) }
{
    is_event_alone(fields) || is_event_of_job(fields)
}
