//! The event of a record, or why it has none.
ghost use Rattle.std.specs.Prelude.{◌≡◌};
ghost use Rattle.csv.specs.Records.{fields_of};
ghost use Rattle.msrp_event_text.specs.LogEvents.{event_with, event_of, refusal_of};

use crate::actions::{action_of, is_event};
use crate::numbers::{long_number_at, optional_number_at};
use csv::ByteRecord;
use msrp_events::Event;
use msrp_plan::CoreId;
use msrp_system::System;
use msrp_text::fields::number_at;
use thiserror::Error;

/// What is wrong with a record that is no event.
#[derive(Clone, Copy, Debug, Error, PartialEq, Eq)]
pub enum Refusal {
    #[error("a record must have 8 fields: ns,core,event,task,job,res,num,seq")]
    Fields,
    #[error("field 1: the time must be a number of ns, of 19 digits at most")]
    Time,
    #[error("field 2: the core must be a number of 9 digits at most")]
    Core,
    #[error("field 8: the record's number must be empty or have 19 digits at most")]
    Number,
    #[error("field 3: there is no such event")]
    Event,
    #[error("field 5: the job must be a number of 9 digits at most")]
    Job,
    #[error("field 7: a release's absolute deadline must be a number of ns, of 19 digits at most")]
    Deadline,
}

// The event of a record of eight fields.
fn event_with(system: &System, fields: &ByteRecord) -> Option<Event>
    ensures { result ≡ event_with system.now (fields_of fields.now) }
{
    Some(Event {
        time: long_number_at(fields, 0)?,
        core: CoreId(number_at(fields, 1)?),
        number: optional_number_at(fields, 7)?,
        action: action_of(system, fields)?,
    })
}

/// The event of a record `ns,core,event,task,job,res,num,seq`, if it is one of a log.
pub fn event_of(system: &System, fields: &ByteRecord) -> Option<Event>
    ensures { result ≡ event_of system.now (fields_of fields.now) }
{
    if fields.len() == 8 {
        event_with(system, fields)
    } else {
        None
    }
}

/// What is wrong with a record that is no event.
pub(crate) fn refusal_of(fields: &ByteRecord) -> Refusal
    ensures { result ≡ refusal_of (fields_of fields.now) }
{
    if fields.len() != 8 {
        Refusal::Fields
    } else if long_number_at(fields, 0).is_none() {
        Refusal::Time
    } else if number_at(fields, 1).is_none() {
        Refusal::Core
    } else if optional_number_at(fields, 7).is_none() {
        Refusal::Number
    } else if !is_event(fields) {
        Refusal::Event
    } else if number_at(fields, 4).is_none() {
        Refusal::Job
    } else {
        Refusal::Deadline
    }
}
