//! The text of a start state: the state in the middle of a log, with which the rest is judged.
ghost use Rattle.std.specs.Prelude.{◌≡◌};
ghost use Rattle.msrp_plan.specs.Common.{ℕ, List, Ok, None, Some, drop};
ghost use Rattle.csv.specs.Records.{fields_of};
ghost use Rattle.msrp_text.specs.Records.{csv_records, records_left};
ghost use Rattle.msrp_event_audit.specs.Auditors.{HasFed};
ghost use Rattle.msrp_events.specs.Laws.{IsLegalLog, state_after};
ghost use Rattle.msrp_events.specs.declared.events.Event.{Event as LogEvent};
ghost use Rattle.msrp_event_text.specs.StateTexts.{is_state_head, state_described, state_with_record};

use crate::auditing::is_number;
use crate::facts::fact_of;
use csv::ByteRecord;
use msrp_event_audit::{Impossible, LogAuditor};
use msrp_system::System;
use msrp_text::fields::has_word;
use msrp_text::records::{RecordReader, Stopped};
use std::alloc::Global;
use std::io::Read;
use thiserror::Error;

/// Why a record of a start state is refused.
#[derive(Clone, Copy, Debug, Error, PartialEq, Eq)]
pub enum StateRefusal {
    #[error("it must be msrp-log-state,1 and the number of cores of the system")]
    Head,
    #[error("it is no record of a start state, or lacks a number")]
    Record,
    #[error("{0}")]
    Impossible(Impossible),
}

/// Why a text gives no start state. The end of the text counts as one more record.
#[derive(Clone, Copy, Debug, Error, PartialEq, Eq)]
pub enum StateError {
    #[error("record {number}: {refusal}")]
    At { refusal: StateRefusal, number: u64 },
    #[error("a read failed")]
    Read,
    #[error("memory was refused")]
    Memory,
}

impl From<Stopped> for StateError {
    fn from(why: Stopped) -> StateError {
        match why {
            Stopped::Read => StateError::Read,
            Stopped::Memory => StateError::Memory,
        }
    }
}

// Whether a record begins a start state of the system.
fn is_state_head(system: &System, fields: &ByteRecord) -> bool
    ensures { result ≡ is_state_head system.now (fields_of fields.now) }
{
    fields.len() == 3
        && has_word(fields, 0, b"msrp-log-state")
        && has_word(fields, 1, b"1")
        && is_number(fields, 2, system.cores())
}

// One record more.
fn assume(auditor: &mut LogAuditor, fields: &ByteRecord, number: u64) -> Result<(), StateError>
    ensures system { auditor.new.system ≡ auditor.old.system }
    ensures tolerances { auditor.new.tolerances ≡ auditor.old.tolerances }
    ensures finding { auditor.new.finding ≡ auditor.old.finding }
    ensures state { result ≡ Ok tt → state_with_record auditor.old.system (Some auditor.old.state) (fields_of fields.now) ≡ Some auditor.new.state }
{
    let Some(fact) = fact_of(auditor.system(), fields) else {
        return Err(StateError::At {
            refusal: StateRefusal::Record,
            number,
        });
    };
    match auditor.assume(fact) {
        Ok(()) => Ok(()),
        Err(why) => Err(StateError::At {
            refusal: StateRefusal::Impossible(why),
            number,
        }),
    }
}

// Whether the facts so far describe a state.
fn ended(auditor: &LogAuditor, number: u64) -> Result<(), StateError> {
    match auditor.lacking() {
        None => Ok(()),
        Some(why) => Err(StateError::At {
            refusal: StateRefusal::Impossible(why),
            number,
        }),
    }
}

// The records after the first one.
fn assume_all<R: Read>(
    auditor: &mut LogAuditor,
    records: &mut RecordReader<R>,
    fields: &mut ByteRecord,
) -> Result<(), StateError>
    ensures system { auditor.new.system ≡ auditor.old.system }
    ensures tolerances { auditor.new.tolerances ≡ auditor.old.tolerances }
    ensures finding { auditor.new.finding ≡ auditor.old.finding }
    ensures state { (left : List (List (List ℕ))) → records_left R.remaining records.old ≡ Some left → result ≡ Ok tt → state_described auditor.old.system auditor.old.state left ≡ Some auditor.new.state }
{
    for number in 2..u64::MAX {
        if !records.read(fields)? {
            return ended(auditor, number);
        }
        assume(auditor, fields, number)?;
    }
    Err(StateError::Memory)
}

/// Gives an auditor the state of a text before any event. The first record that is no fact is
/// refused, and so is the first one that no state has after those before. If a legal log leads to
/// this state, the auditor then judges as if it had been fed this log.
pub fn read_state<R: Read + Drop>(
    alloc: Global,
    text: R,
    auditor: &mut LogAuditor,
) -> Result<(), StateError>
    ensures system { auditor.new.system ≡ auditor.old.system }
    ensures tolerances { auditor.new.tolerances ≡ auditor.old.tolerances }
    ensures finding { auditor.new.finding ≡ auditor.old.finding }
    ensures state { (bytes : List ℕ) → R.remaining text ≡ Some bytes → result ≡ Ok tt → state_described auditor.old.system auditor.old.state (drop 1 (csv_records bytes)) ≡ Some auditor.new.state }
    ensures fed { (bytes : List ℕ) (start : List LogEvent) → R.remaining text ≡ Some bytes → result ≡ Ok tt → auditor.old.finding ≡ None → state_described auditor.old.system auditor.old.state (drop 1 (csv_records bytes)) ≡ Some (state_after auditor.old.system start) → IsLegalLog auditor.old.system auditor.old.tolerances start → HasFed auditor.new start }
{
    let mut records = RecordReader::new(alloc, text);
    let mut fields = ByteRecord::new(alloc);
    if !records.read(&mut fields)? || !is_state_head(auditor.system(), &fields) {
        return Err(StateError::At {
            refusal: StateRefusal::Head,
            number: 1,
        });
    }
    assume_all(auditor, &mut records, &mut fields)
}
