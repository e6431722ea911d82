//! The fact of a start state that a record has.
ghost use Rattle.std.specs.Prelude.{◌≡◌};
ghost use Rattle.csv.specs.Records.{fields_of};
ghost use Rattle.msrp_event_text.specs.StateTexts.{core_fact, fact_of, free_fact, job_fact, live_of, log_of, next_fact, run_of, fact_by_word, waiting_fact};

use crate::actions::{is_idle, job_of, res_named, task_named};
use crate::numbers::{long_number_at, optional_number_at};
use csv::ByteRecord;
use msrp_event_audit::Fact;
use msrp_events::{CoreLog, LiveJob};
use msrp_plan::{CoreId, JobId};
use msrp_system::System;
use msrp_text::fields::{has_word, number_at};

fn next_fact(system: &System, fields: &ByteRecord) -> Option<Fact>
    ensures { result ≡ next_fact system.now (fields_of fields.now) }
{
    let number = long_number_at(fields, 6)?;
    Some(Fact::Next(task_named(system, fields), number))
}

fn live_of(system: &System, fields: &ByteRecord, started: bool, waits: bool) -> Option<LiveJob>
    ensures { result ≡ live_of system.now (fields_of fields.now) started waits }
{
    Some(LiveJob {
        job: job_of(system, fields)?,
        deadline: long_number_at(fields, 6)?,
        started,
        waits,
        step: number_at(fields, 7)?,
    })
}

fn job_fact(system: &System, fields: &ByteRecord, started: bool) -> Option<Fact>
    ensures { result ≡ job_fact system.now (fields_of fields.now) started }
{
    Some(Fact::Job(live_of(system, fields, started, false)?, None))
}

fn waiting_fact(system: &System, fields: &ByteRecord) -> Option<Fact>
    ensures { result ≡ waiting_fact system.now (fields_of fields.now) }
{
    let live = live_of(system, fields, true, true)?;
    Some(Fact::Job(live, Some(res_named(system, fields))))
}

// Who runs: a job or nobody.
fn run_of(system: &System, fields: &ByteRecord) -> Option<Option<JobId>>
    ensures { result ≡ run_of system.now (fields_of fields.now) }
{
    if is_idle(fields) {
        return Some(None);
    }
    match job_of(system, fields) {
        Some(job) => Some(Some(job)),
        None => None,
    }
}

fn log_of(system: &System, fields: &ByteRecord) -> Option<CoreLog>
    ensures { result ≡ log_of system.now (fields_of fields.now) }
{
    Some(CoreLog {
        booted: true,
        time: long_number_at(fields, 0)?,
        number: optional_number_at(fields, 7)?,
        run: run_of(system, fields)?,
        since: optional_number_at(fields, 6)?,
        acted: optional_number_at(fields, 5)?,
    })
}

fn core_fact(system: &System, fields: &ByteRecord) -> Option<Fact>
    ensures { result ≡ core_fact system.now (fields_of fields.now) }
{
    let core = number_at(fields, 1)?;
    Some(Fact::Core(CoreId(core), log_of(system, fields)?))
}

fn free_fact(system: &System, fields: &ByteRecord) -> Option<Fact>
    ensures { result ≡ free_fact system.now (fields_of fields.now) }
{
    let since = long_number_at(fields, 0)?;
    Some(Fact::Free(res_named(system, fields), since))
}

fn fact_by_word(system: &System, fields: &ByteRecord) -> Option<Fact>
    ensures { result ≡ fact_by_word system.now (fields_of fields.now) }
{
    if has_word(fields, 2, b"next") {
        next_fact(system, fields)
    } else if has_word(fields, 2, b"ready") {
        job_fact(system, fields, false)
    } else if has_word(fields, 2, b"started") {
        job_fact(system, fields, true)
    } else if has_word(fields, 2, b"waiting") {
        waiting_fact(system, fields)
    } else if has_word(fields, 2, b"core") {
        core_fact(system, fields)
    } else if has_word(fields, 2, b"free") {
        free_fact(system, fields)
    } else if has_word(fields, 2, b"stopped") {
        Some(Fact::Stopped)
    } else {
        None
    }
}

/// The fact of a record `ns,core,what,task,job,res,num,seq`, if it is one of a start state.
pub(crate) fn fact_of(system: &System, fields: &ByteRecord) -> Option<Fact>
    ensures { result ≡ fact_of system.now (fields_of fields.now) }
{
    if fields.len() == 8 {
        fact_by_word(system, fields)
    } else {
        None
    }
}
