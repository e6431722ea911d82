//! Plan text, read: each record is checked by itself, then by the builder.
ghost use Rattle.std.specs.Prelude.{◌≡◌, ◌↔◌};
ghost use Rattle.msrp_plan.specs.Common.{ℕ, List, Some, None, Ok, Err, true, source_failed, source_remaining};
ghost use Rattle.std.specs.Result.{result_and};
ghost use Rattle.csv.specs.Records.{fields_of};
ghost use Rattle.msrp_text.specs.Reading.{Answers, csv_records, plan_of};
ghost use Rattle.msrp_text.specs.Records.{records_left};
ghost use Rattle.msrp_text.specs.Positions.{IsTakenAt, ReadsAs, refusal, position_fault, position_plan, position_with};
ghost use Rattle.msrp_text.specs.Usual.{MayTake};

use crate::positions::{Position, advance, plan_at_end};
use crate::records::{RecordReader, Stopped};
use crate::usual::add_ahead;
use csv::ByteRecord;
use msrp_plan::bytes::Source;
use msrp_plan::{Plan, PlanFault};
use std::alloc::Global;
use std::io::Read;
use thiserror::Error;

/// Why a text gave no plan.
#[derive(Clone, Copy, Debug, Error, PartialEq, Eq)]
pub enum TextError {
    /// A record is refused, by its number, counted from 1; the end counts as one more record.
    #[error("record {number}: {fault}")]
    At { fault: PlanFault, number: u32 },
    /// A read of the source failed.
    #[error("a read failed")]
    Read,
    /// Out of memory.
    #[error("memory was refused")]
    Memory,
}

// The most records that can be numbered, the end among them.
const MOST_RECORDS: u32 = 4_294_967_294;

// Why the records of a text gave no plan.
#[derive(Clone, Copy)]
enum Unread {
    // A record is refused, a read failed, or memory ran out.
    Told(TextError),
    // More records than can be numbered. A source has far fewer bytes than these would take.
    TooMany,
}

impl From<TextError> for Unread {
    ghost use Rattle.msrp_text.specs.declared.reading.Unread.{Unread};

    ghost from_gives = { λ error unread. unread ≡ Unread.Told error };

    fn from(error: TextError) -> Unread {
        Unread::Told(error)
    }
}

impl From<Stopped> for Unread {
    ghost use Rattle.msrp_text.specs.Positions.{unread_at};

    ghost from_gives = { λ why unread. unread ≡ unread_at why };

    fn from(why: Stopped) -> Unread {
        match why {
            Stopped::Read => Unread::Told(TextError::Read),
            Stopped::Memory => Unread::Told(TextError::Memory),
        }
    }
}

// The refusal of a record by its number. Lack of memory isn't a refusal.
fn refused(fault: PlanFault, number: u32) -> TextError
    ensures { result ≡ refusal fault number }
{
    match fault {
        PlanFault::Memory => TextError::Memory,
        fault => TextError::At { fault, number },
    }
}

// One more record, by its number.
#[inline(never)]
fn step(
    alloc: Global,
    position: &mut Position,
    row: &ByteRecord,
    number: u32,
) -> Result<(), TextError>
    ensures { IsTakenAt (position_fault position.old (Some (fields_of row.now))) number (position_with position.old (fields_of row.now)) (result_and result (Ok position.new)) }
{
    match advance(alloc, position, row) {
        Ok(()) => Ok(()),
        Err(fault) => Err(refused(fault, number)),
    }
}

// The end of the records, which counts as one more.
fn end(position: Position, number: u32) -> Result<Plan, TextError>
    ensures { IsTakenAt (position_fault position None) number (position_plan position) result }
{
    match plan_at_end(position) {
        Ok(plan) => Ok(plan),
        Err(fault) => Err(refused(fault, number)),
    }
}

// Reads one more record if it is a usual line, read ahead, in its place; whether it did.
fn take_usual<R: Read>(
    position: &mut Position,
    records: &mut RecordReader<R>,
    number: u32,
) -> Result<bool, TextError>
    ensures { MayTake (records_left R.remaining records.old) position.old number result position.new (records_left R.remaining records.new) }
{
    let Position::Body(version, builder) = position else {
        return Ok(false);
    };
    let Some((judged, taken)) = add_ahead(*version, builder, records.ahead()) else {
        return Ok(false);
    };
    records.take_line(taken);
    match judged {
        Ok(()) => Ok(true),
        Err(fault) => Err(refused(fault, number)),
    }
}

// The plan of the records that are left, from the first position on.
fn read_positions<R: Read>(
    alloc: Global,
    records: &mut RecordReader<R>,
    row: &mut ByteRecord,
) -> Result<Plan, Unread>
    ensures { (left : List (List (List ℕ))) → records_left R.remaining records.old ≡ Some left → ReadsAs left result }
{
    let mut position = Position::Version;
    for number in 1..=MOST_RECORDS {
        if take_usual(&mut position, records, number)? {
            continue;
        }
        if !records.read(row)? {
            return Ok(end(position, number)?);
        }
        step(alloc, &mut position, row, number)?;
    }
    Err(Unread::TooMany)
}

// The plan of a text.
fn read_records<R: Read>(alloc: Global, source: &mut Source<R>) -> Result<Plan, Unread>
    ensures { (bytes : List ℕ) → source_remaining R.remaining source.old ≡ Some bytes → ReadsAs (csv_records bytes) result }
{
    let mut records = RecordReader::new(alloc, source);
    let mut row = ByteRecord::new(alloc);
    read_positions(alloc, &mut records, &mut row)
}

/// The plan of a text, or its first refusal.
///
/// A text is records of comma-separated fields: `msrp,1`, then `cores,M`, then `ticks,H`, then
/// `resource,NAME` for each resource, then for each task `task,NAME,CORE,PERIOD,DEADLINE,OFFSET`
/// and its units: `op,run,N` for N units of work, `op,lock,NAME` and `op,unlock,NAME`. After
/// `msrp,2` there may also be tasks with listed releases: `listed,NAME,CORE,DEADLINE`, then
/// `release,TICK` for each release, then the units.
///
/// A record is checked by itself first: whether it is known and in place (P2), its number of fields
/// (P3), its numbers (P4); then by the builder. Records before a failed read come first.
///
/// Once a read of the source has failed, the answer is [`TextError::Read`] and no other.
pub fn read_plan<R: Read>(alloc: Global, source: &mut Source<R>) -> Result<Plan, TextError>
    ensures answer { (bytes : List ℕ) → source_remaining R.remaining source.old ≡ Some bytes → Answers result (plan_of (csv_records bytes)) }
    ensures read { (result ≡ Err TextError.Read) ↔ (source_failed source.new ≡ true) }
{
    let answer = read_records(alloc, source);
    if source.failed() {
        return Err(TextError::Read);
    }
    match answer {
        Ok(plan) => Ok(plan),
        Err(Unread::Told(TextError::At { fault, number })) => Err(TextError::At { fault, number }),
        Err(_) => Err(TextError::Memory),
    }
}
