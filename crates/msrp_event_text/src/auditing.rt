//! The events of a text, judged as they are read.
ghost use Rattle.std.specs.Prelude.{◌≡◌, ◌++◌, ◌∷◌, ◌<◌, ◌+◌, ◌^◌};
ghost use Rattle.msrp_plan.specs.Common.{ℕ, List, [], Ok, None, Some, IfOk, drop, option_map};
ghost use Rattle.csv.specs.Records.{fields_of};
ghost use Rattle.msrp_text.specs.Fields.{number_at};
ghost use Rattle.msrp_text.specs.Records.{csv_records, records_left};
ghost use Rattle.msrp_event_audit.specs.Auditors.{HasFed};
ghost use Rattle.msrp_events.specs.declared.events.Event.{Event as LogEvent};
ghost use Rattle.msrp_events.specs.declared.findings.Finding.{Finding as Found};
ghost use Rattle.msrp_event_text.specs.LogEvents.{event_of};
ghost use Rattle.msrp_event_text.specs.LogVerdicts.{Answers, awaited_in, is_head, is_number, numbers_by, record_shows, settled, told_by, verdict_after, verdict_from, verdict_of};
ghost use Rattle.msrp_event_text.specs.Decisions.{IsDecidedBy, shown_at, verdict_in};

use crate::confirming::{Awaited, awaited_in, confirm, note, tell};
use crate::events::{event_of, refusal_of};
use crate::verdicts::{Judged, LogError, LogVerdict, Shown};
use csv::ByteRecord;
use msrp_event_audit::LogAuditor;
use msrp_events::{Event, Finding, Tolerances};
use msrp_system::System;
use msrp_text::fields::{has_word, number_at};
use msrp_text::records::RecordReader;
use std::alloc::Global;
use std::io::Read;

/// Whether the field at a place is that number.
pub(crate) fn is_number(fields: &ByteRecord, i: usize, number: u32) -> bool
    ensures { result ≡ is_number number (number_at (fields_of fields.now) i) }
{
    match number_at(fields, i) {
        Some(told) => told == number,
        None => false,
    }
}

// Whether a record begins a log of the system.
fn is_head(system: &System, fields: &ByteRecord) -> bool
    ensures { result ≡ is_head system.now (fields_of fields.now) }
{
    fields.len() == 3
        && has_word(fields, 0, b"msrp-log")
        && has_word(fields, 1, b"1")
        && is_number(fields, 2, system.cores())
}

/// Is shown each event with the auditor before it.
pub trait Watch {
    fn note(&mut self, auditor: &LogAuditor<'_>, event: Event);
}

/// Notes nothing.
#[derive(Clone, Copy, Debug, Drop)]
pub struct Unwatched;

impl Watch for Unwatched {
    fn note(&mut self, _auditor: &LogAuditor<'_>, _event: Event) {}
}

// What a record shows after the others, if it shows something.
fn judge_record<W: Watch>(
    watch: &mut W,
    auditor: &mut LogAuditor,
    numbers: &mut Vec<Awaited>,
    system: &System,
    fields: &ByteRecord,
    number: u64,
) -> Result<Option<Finding>, LogError>
    requires { auditor.old.system ≡ system.now }
    ensures system { auditor.new.system ≡ auditor.old.system }
    ensures tolerances { auditor.new.tolerances ≡ auditor.old.tolerances }
    ensures noted { result ≡ Ok None → numbers.new.items ≡ numbers_by numbers.old.items (event_of system.now (fields_of fields.now)) }
    ensures told { (found : Found) → result ≡ Ok (Some found) → numbers.new.items ≡ told_by numbers.old.items (event_of system.now (fields_of fields.now)) }
    ensures shown { (events : List LogEvent) → HasFed auditor.old events → result ≡ record_shows system.now auditor.old.tolerances number events (fields_of fields.now) (event_of system.now (fields_of fields.now)) }
    ensures kept { (found : Found) → result ≡ Ok (Some found) → auditor.new.state ≡ auditor.old.state }
    ensures none { result ≡ Ok None → auditor.new.finding ≡ None }
    ensures fed { (events : List LogEvent) (event : LogEvent) → HasFed auditor.old events → event_of system.now (fields_of fields.now) ≡ Some event → HasFed auditor.new (events ++ event ∷ []) }
{
    match event_of(system, fields) {
        None => Err(LogError::Record {
            refusal: refusal_of(fields),
            number,
        }),
        Some(event) => {
            watch.note(auditor, event);
            match auditor.feed(event) {
                Ok(()) => {
                    note(numbers, event);
                    Ok(None)
                }
                Err(finding) => {
                    tell(numbers, event);
                    Ok(Some(finding))
                }
            }
        }
    }
}

// The verdict where the record of that number has a finding, by the records after it.
fn settle<R: Read>(
    alloc: Global,
    numbers: &mut Vec<Awaited>,
    system: &System,
    records: &mut RecordReader<R>,
    finding: Finding,
    number: u64,
) -> Result<LogVerdict, LogError>
    requires { number + 1 < 2 ^ 64 }
    ensures { (left : List (List (List ℕ))) → records_left R.remaining records.old ≡ Some left → Answers result (settled system.now number numbers.old.items left finding) }
{
    match finding {
        Finding::Incomplete(missing) => Ok(LogVerdict::Incomplete { missing, number }),
        Finding::Fault(rule) => {
            let mut fields = ByteRecord::new(alloc);
            confirm(numbers, system, records, &mut fields, rule, number)
        }
    }
}

// What decides, where a record of that number has this finding.
fn shown_by(system: &System, fields: &ByteRecord, finding: Finding, number: u64) -> Option<Shown>
    ensures { result ≡ option_map (shown_at finding number) (event_of system.now (fields_of fields.now)) }
{
    Some(Shown {
        finding,
        event: event_of(system, fields)?,
        number,
    })
}

// The verdict on the records after the first one, and what decides it.
fn judge_records<R: Read, W: Watch>(
    alloc: Global,
    watch: &mut W,
    auditor: &mut LogAuditor,
    numbers: &mut Vec<Awaited>,
    system: &System,
    records: &mut RecordReader<R>,
    fields: &mut ByteRecord,
) -> Result<Judged, LogError>
    requires system { auditor.old.system ≡ system.now }
    requires none { auditor.old.finding ≡ None }
    ensures system { auditor.new.system ≡ auditor.old.system }
    ensures verdict { (start : List LogEvent) (left : List (List (List ℕ))) → HasFed auditor.old start → records_left R.remaining records.old ≡ Some left → Answers (verdict_in result) (verdict_from system.now auditor.old.tolerances 2 start numbers.old.items left) }
    ensures shown { (start : List LogEvent) (left : List (List (List ℕ))) → HasFed auditor.old start → records_left R.remaining records.old ≡ Some left → IfOk result (λ judged. IsDecidedBy system.now auditor.old.tolerances start left (fields_of fields.new) auditor.new.state judged) }
{
    for number in 2..u64::MAX {
        if !records.read(fields)? {
            return Ok(Judged {
                verdict: LogVerdict::Good,
                shown: None,
            });
        }
        if let Some(finding) = judge_record(watch, auditor, numbers, system, fields, number)? {
            let shown = shown_by(system, fields, finding, number);
            let verdict = settle(alloc, numbers, system, records, finding, number)?;
            return Ok(Judged { verdict, shown });
        }
    }
    Err(LogError::Memory)
}

/// The verdict on the events of a text, after those that the auditor was fed, and what decides it:
/// the first record with which the events so far have a finding. `fields` are left as this record's,
/// and the auditor as it was before it. The first record that is no event is refused. A fault is
/// certain once the log of each core has begun, and each other core that numbers its records has
/// shown one more, without a gap. Memory is taken for a few records alone, however long the text is.
pub fn judge_log<R: Read + Drop, W: Watch>(
    alloc: Global,
    text: R,
    system: &System,
    watch: &mut W,
    auditor: &mut LogAuditor,
    fields: &mut ByteRecord,
) -> Result<Judged, LogError>
    requires system { auditor.old.system ≡ system.now }
    requires none { auditor.old.finding ≡ None }
    ensures system { auditor.new.system ≡ auditor.old.system }
    ensures verdict { (start : List LogEvent) (bytes : List ℕ) → HasFed auditor.old start → R.remaining text ≡ Some bytes → Answers (verdict_in result) (verdict_after system.now auditor.old.tolerances start (awaited_in auditor.old.state) (csv_records bytes)) }
    ensures shown { (start : List LogEvent) (bytes : List ℕ) → HasFed auditor.old start → R.remaining text ≡ Some bytes → IfOk result (λ judged. IsDecidedBy system.now auditor.old.tolerances start (drop 1 (csv_records bytes)) (fields_of fields.new) auditor.new.state judged) }
{
    let mut numbers = awaited_in(alloc, auditor)?;
    let mut records = RecordReader::new(alloc, text);
    if !records.read(fields)? || !is_head(system, fields) {
        return Err(LogError::Head);
    }
    judge_records(
        alloc,
        watch,
        auditor,
        &mut numbers,
        system,
        &mut records,
        fields,
    )
}

/// The verdict on the events of a text, as of [`judge_log`]. Memory is taken for the auditor and a
/// few records alone.
pub fn audit_log<R: Read + Drop>(
    alloc: Global,
    text: R,
    system: &System,
    tolerances: Tolerances,
) -> Result<LogVerdict, LogError>
    ensures { (bytes : List ℕ) → R.remaining text ≡ Some bytes → Answers result (verdict_of system.now tolerances (csv_records bytes)) }
{
    let mut auditor = LogAuditor::with_room(alloc, system, tolerances)?;
    let mut fields = ByteRecord::new(alloc);
    Ok(
        judge_log(
            alloc,
            text,
            system,
            &mut Unwatched,
            &mut auditor,
            &mut fields,
        )?
        .verdict,
    )
}
