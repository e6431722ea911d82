//! Whether a fault is certain: records that were lost before it may explain it, which the next
//! record of each core shows.
ghost use Rattle.std.specs.Prelude.{◌≡◌, ◌<◌, ◌+◌, ◌^◌, ◌==◌};
ghost use Rattle.msrp_plan.specs.Common.{ℕ, List, Some, IfOk, set};
ghost use Rattle.csv.specs.Records.{fields_of};
ghost use Rattle.msrp_text.specs.Records.{records_left};
ghost use Rattle.msrp_event_text.specs.LogEvents.{event_of};
ghost use Rattle.msrp_event_text.specs.LogVerdicts.{Answers, awaited_in, awaited_of, confirmed_from, is_boot, is_certain, is_loss, is_lost, is_lost_since, is_told, next_of, numbers_with, record_loses, told, told_by};

use crate::events::{event_of, refusal_of};
use crate::verdicts::{LogError, LogVerdict};
use csv::ByteRecord;
use msrp_event_audit::LogAuditor;
use msrp_events::{Action, CoreLog, Event, LogRule, Missing};
use msrp_plan::Memory;
use msrp_system::System;
use msrp_text::records::RecordReader;
use std::alloc::Global;
use std::io::Read;

/// What is awaited of a core before a fault is certain.
#[derive(Clone, Copy, Debug, PartialEq, Eq)]
pub(crate) enum Awaited {
    Nothing,
    /// Its log's first record.
    Boot,
    /// The record after the one of this number.
    After(u64),
}

fn next_of(number: Option<u64>) -> Awaited
    ensures { result ≡ next_of number }
{
    match number {
        Some(number) => Awaited::After(number),
        None => Awaited::Nothing,
    }
}

// What is awaited of a core: its next record, or its boot.
fn awaited_of(core: CoreLog) -> Awaited
    ensures { result ≡ awaited_of core }
{
    if core.booted {
        next_of(core.number)
    } else {
        Awaited::Boot
    }
}

/// What is awaited of each core by what an auditor knows.
pub(crate) fn awaited_in(alloc: Global, auditor: &LogAuditor) -> Result<Vec<Awaited>, Memory>
    ensures { IfOk result (λ awaited. awaited.items ≡ awaited_in auditor.now.state) }
{
    let cores = auditor.cores();
    let mut awaited = Vec::with_capacity(alloc, cores.len())?;
    for core in cores {
        awaited.push_reserved(awaited_of(*core));
    }
    Ok(awaited)
}

// Stores what is awaited of a core, if the core is one of the system.
fn put(numbers: &mut Vec<Awaited>, place: usize, awaited: Awaited)
    ensures { numbers.new.items ≡ set numbers.old.items place awaited }
{
    if place < numbers.len() {
        numbers[place] = awaited;
    }
}

/// Stores that the record after an event's is awaited of its core.
pub(crate) fn note(numbers: &mut Vec<Awaited>, event: Event)
    ensures { numbers.new.items ≡ numbers_with numbers.old.items event }
{
    put(numbers, event.core.0 as usize, next_of(event.number));
}

/// Stores that nothing is awaited of an event's core: its record follows the one before.
pub(crate) fn tell(numbers: &mut Vec<Awaited>, event: Event)
    ensures { numbers.new.items ≡ told numbers.old.items event }
{
    put(numbers, event.core.0 as usize, Awaited::Nothing);
}

fn is_told(awaited: Awaited) -> bool
    ensures { result ≡ is_told awaited }
{
    matches!(awaited, Awaited::Nothing)
}

fn is_certain(cores: &[Awaited]) -> bool
    ensures { result ≡ is_certain cores.now }
{
    cores.iter().all(|awaited| is_told(*awaited))
}

fn is_boot(action: Action) -> bool
    ensures { result ≡ is_boot action }
{
    matches!(action, Action::Boot)
}

fn is_loss(action: Action) -> bool
    ensures { result ≡ is_loss action }
{
    matches!(action, Action::Lost)
}

// Whether a record shows that others of its core were lost before it.
fn is_lost_since(awaited: Awaited, event: Event) -> bool
    ensures { result ≡ is_lost_since awaited event }
{
    match (awaited, event.number) {
        (Awaited::Nothing, _) => false,
        (Awaited::Boot, _) => !is_boot(event.action),
        (Awaited::After(last), Some(number)) => is_loss(event.action) || !follows(last, number),
        (Awaited::After(_), None) => is_loss(event.action),
    }
}

fn follows(last: u64, number: u64) -> bool
    ensures { result ≡ (number == last + 1) }
{
    last < number && number - last == 1
}

fn is_lost(cores: &[Awaited], event: Event) -> bool
    ensures { result ≡ is_lost cores.now event }
{
    match cores.get(event.core.0 as usize) {
        Some(awaited) => is_lost_since(*awaited, event),
        None => false,
    }
}

// Whether a record shows a loss. If it doesn't, its core has told that there was none.
fn record_loses(
    awaited: &mut Vec<Awaited>,
    system: &System,
    fields: &ByteRecord,
    number: u64,
) -> Result<bool, LogError>
    ensures loses { result ≡ record_loses awaited.old.items number (fields_of fields.now) (event_of system.now (fields_of fields.now)) }
    ensures told { awaited.new.items ≡ told_by awaited.old.items (event_of system.now (fields_of fields.now)) }
{
    match event_of(system, fields) {
        None => Err(LogError::Record {
            refusal: refusal_of(fields),
            number,
        }),
        Some(event) => {
            let lost = is_lost(awaited, event);
            tell(awaited, event);
            Ok(lost)
        }
    }
}

/// The verdict where the record of that number violates a rule, by the records after it.
pub(crate) fn confirm<R: Read>(
    awaited: &mut Vec<Awaited>,
    system: &System,
    records: &mut RecordReader<R>,
    fields: &mut ByteRecord,
    rule: LogRule,
    number: u64,
) -> Result<LogVerdict, LogError>
    requires { number + 1 < 2 ^ 64 }
    ensures { (left : List (List (List ℕ))) → records_left R.remaining records.old ≡ Some left → Answers result (confirmed_from system.now rule number (number + 1) awaited.old.items left) }
{
    for at in number + 1..u64::MAX {
        if is_certain(awaited) {
            return Ok(LogVerdict::Fault { rule, number });
        }
        if !records.read(fields)? {
            return Ok(LogVerdict::Unconfirmed { rule, number });
        }
        if record_loses(awaited, system, fields, at)? {
            return Ok(LogVerdict::Incomplete {
                missing: Missing::Records,
                number: at,
            });
        }
    }
    Err(LogError::Memory)
}
