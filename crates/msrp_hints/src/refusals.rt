//! Why a text is refused, in words. If it isn't refused any more, it has changed since.

use csv::ByteRecord;
use msrp_advice::RefusedPlan;
use msrp_faults::CliFault;
use msrp_plan::bytes::Source;
use msrp_plan::{Plan, PlanFault};
use msrp_text::records::RecordReader;
use msrp_text::{TextError, read_plan};
use msrp_trace::{TraceError, TraceReader};
use msrp_why::RefusedRecord;
use std::alloc::{AllocError, Global};
use std::io::Read;

// The first records of a text, `most` at most.
fn first_records(alloc: Global, text: &[u8], most: u32) -> Result<Vec<ByteRecord>, CliFault> {
    let mut reader = RecordReader::new(alloc, text);
    let mut records = Vec::new(alloc);
    for _record in 0..most {
        let mut row = ByteRecord::new(alloc);
        match reader.read(&mut row) {
            Ok(true) => records.push(row)?,
            Ok(false) => break,
            Err(_) => return Err(CliFault::Memory),
        }
    }
    Ok(records)
}

// Why a record that follows these is refused in the plan of that name.
fn plan_words(
    alloc: Global,
    name: &str,
    text: &[u8],
    fault: PlanFault,
    number: u32,
    before: &[ByteRecord],
    row: &ByteRecord,
) -> Result<String, AllocError> {
    let words = RefusedPlan {
        name,
        text,
        fault,
        number,
        before,
        row,
    };
    format!(in alloc; "{words}")
}

/// Why the plan of that name is refused.
pub(crate) fn plan_reason<P: Read>(
    alloc: Global,
    name: &str,
    plan: &mut Source<P>,
) -> Result<Option<String>, CliFault> {
    let mut text = Vec::new(alloc);
    if plan.read_to_end(&mut text).is_err() {
        return Ok(None);
    }
    let text = text.as_slice();
    let Err(TextError::At { fault, number }) = read_plan(alloc, &mut Source::new(text)) else {
        return Ok(None);
    };
    let records = first_records(alloc, text, number)?;
    let none = ByteRecord::new(alloc);
    let place = number.saturating_sub(1) as usize;
    let before = records.get(..place).unwrap_or(records.as_slice());
    let row = records.get(place).unwrap_or(&none);
    Ok(Some(plan_words(alloc, name, text, fault, number, before, row)?))
}

// Why a record is refused that begins in that line, if the line is known.
fn record_reason(
    alloc: Global,
    name: &str,
    plan: &Plan,
    error: TraceError,
    line: Option<u64>,
    row: &ByteRecord,
) -> Result<Option<String>, CliFault> {
    let TraceError::At { fault, number } = error else {
        return Ok(None);
    };
    let words = RefusedRecord {
        plan,
        fault,
        number,
        line,
        row,
    };
    Ok(Some(format!(in alloc; "{name}: {words}")?))
}

// Why the first refused record that a reader has left is refused.
fn rows_reason<T: Read>(
    alloc: Global,
    name: &str,
    plan: &Plan,
    rows: &mut TraceReader<'_, T>,
) -> Result<Option<String>, CliFault> {
    for _row in 0..u32::MAX {
        match rows.next_row() {
            Ok(Some(_)) => {}
            Ok(None) => break,
            Err(error) => {
                let line = match error {
                    TraceError::At { number, .. } => rows.line_of(number),
                    _ => None,
                };
                return record_reason(alloc, name, plan, error, line, rows.refused_record());
            }
        }
    }
    Ok(None)
}

/// Why the trace of that name is refused.
pub(crate) fn trace_reason<T: Read>(
    alloc: Global,
    name: &str,
    plan: &Plan,
    trace: &mut Source<T>,
) -> Result<Option<String>, CliFault> {
    let mut rows = match TraceReader::open(alloc, trace, plan) {
        Ok(rows) => rows,
        Err(it) => return record_reason(alloc, name, plan, it.error, it.line, &it.first),
    };
    let reason = rows_reason(alloc, name, plan, &mut rows);
    drop(rows);
    reason
}
