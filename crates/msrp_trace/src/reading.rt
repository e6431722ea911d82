//! Trace text, read: rows one by one, by fields or by comparison with an expected text.
ghost use Rattle.std.specs.Prelude.{◌+◌, ◌^◌, ◌<◌, ◌≤◌, ◌≡◌, ◌⊎◌, ◌↔◌};
ghost use Rattle.msrp_plan.specs.Common.{[], length, IsSome, decimal, ℕ, List, Some, None, Ok, Err, IfOk, IfErr, OnOk, OnErr, true, false, source_failed, source_remaining};
ghost use Rattle.std.specs.Option.{IfSome};
ghost use Rattle.csv.specs.Records.{fields_of};
ghost use Rattle.msrp_text.specs.Plain.{BeginsWithDigit};
ghost use Rattle.msrp_text.specs.Lines.{BeginsIn, HasRead};
ghost use Rattle.msrp_text.specs.Records.{bytes_ahead, csv_records, reader_under, reads_csv};
ghost use Rattle.msrp_trace.specs.Laws.{as_read};
ghost use Rattle.msrp_trace.specs.Reading.{Told};
ghost use Rattle.msrp_trace.specs.RowParts.{ReadsAt};
ghost use Rattle.msrp_trace.specs.Rows.{row_fault, row_told};
ghost use Rattle.msrp_trace.specs.Texts.{text_of_core};

use crate::faults::{TraceError, TraceFault};
use crate::guesses::Guesses;
use crate::rows::{read_row, version_told};
use crate::texts::{RowTexts, text_of};
use crate::tick::Tick;
use csv::ByteRecord;
use msrp_plan::bytes::Source;
use msrp_plan::limits::MOST_CORES;
use msrp_plan::{CoreId, Plan, Row, TextVersion};
use msrp_text::records::RecordReader;
use std::alloc::Global;
use std::io::Read;

// What a reader expects.
#[derive(Clone, Copy, Debug, PartialEq, Eq)]
enum ReaderState {
    // More rows may follow.
    Rows,
    // The text has ended.
    Ended,
    // A record was refused, a read failed, or memory ran out.
    Failed,
}

/// The rows of a trace's text, one by one; one record's memory serves all rows.
///
/// A text is records of comma-separated fields: `msrp-trace,1,M,H` or `msrp-trace,2,M,H`, with the
/// plan's numbers of cores and ticks, then for each row `tick,core,kind,task,job,resource`, in
/// version 2 with a seventh field `ahead`; `-` is a field without a value.
///
/// Row i is record i + 1. A record is checked for its number of fields (R2), numbers (R3), kind
/// (R4), shape (R6) and names (R5), in this order, not for legality or the number of rows.
#[derive(Drop)]
pub struct TraceReader<'a, R> {
    plan: &'a Plan,
    records: RecordReader<&'a mut Source<R>>,
    fields: ByteRecord,
    guesses: Guesses,
    // The last tick compared, as text.
    tick: Tick,
    version: TextVersion,
    number: u32,
    state: ReaderState,
}

/// Why a reader couldn't be opened; its first record, if read, and that record's line, if known.
#[derive(Drop)]
pub struct Unopened {
    pub error: TraceError,
    pub first: ByteRecord,
    pub line: Option<u64>,
}

// The refusal of the first record.
fn no_head(first: ByteRecord, line: Option<u64>) -> Unopened
    ensures error { result.error ≡ TraceError.At TraceFault.Head 1 }
    ensures first { result.first ≡ first }
    ensures line { result.line ≡ line }
{
    Unopened {
        error: TraceError::At {
            fault: TraceFault::Head,
            number: 1,
        },
        first,
        line,
    }
}

// The line of the record of that number, if that many were read and it is known.
fn line_in<R: Read>(records: &RecordReader<R>, number: u32) -> Option<u64>
    requires { 1 ≤ number }
    ensures line { (text : List ℕ) → HasRead R.remaining text number records.now → IfSome result (BeginsIn text number) }
    ensures known { (text : List ℕ) → HasRead R.remaining text number records.now → length text < 2 ^ 32 → reads_csv records.now ≡ false → IsSome result }
{
    let empty = records.empty_lines()?;
    Some(u64::from(number) + u64::from(empty))
}

// Why no more records can be read: a failed read, otherwise memory.
fn stopped<R: Read>(records: &RecordReader<&mut Source<R>>) -> TraceError
    ensures stopped { (result ≡ TraceError.Read) ⊎ (result ≡ TraceError.Memory) }
    ensures read { (result ≡ TraceError.Read) ↔ (source_failed (reader_under records.now).now ≡ true) }
{
    if records.reader().failed() {
        TraceError::Read
    } else {
        TraceError::Memory
    }
}

impl ReaderState {
    ghost use Rattle.msrp_trace.specs.Readers.{state_after};

    // The state after an answer.
    fn after(answer: &Result<Option<Row>, TraceError>) -> ReaderState
        ensures { result ≡ state_after answer.now }
    {
        match answer {
            Ok(Some(_)) => ReaderState::Rows,
            Ok(None) => ReaderState::Ended,
            Err(_) => ReaderState::Failed,
        }
    }
}

// The row of the record of that number, or its refusal.
fn numbered_row(
    plan: &Plan,
    version: TextVersion,
    guesses: &mut Guesses,
    fields: &ByteRecord,
    number: u32,
) -> Result<Row, TraceError>
    ensures { ReadsAt number (row_fault version plan.now (fields_of fields.now)) (row_told version plan.now (fields_of fields.now)) result }
{
    match read_row(plan, version, guesses, fields) {
        Ok(row) => {
            guesses.keep(&row);
            Ok(row)
        }
        Err(fault) => Err(TraceError::At { fault, number }),
    }
}

impl<'a, R: Read> TraceReader<'a, R> {
    ghost use Rattle.msrp_trace.specs.Readers.{BeginsAt, CanMeet, GivesFirstOr, GivesNext, HasReadBehind, HasReadIn, HasReadTo, HoldsUnlessFailed, IsAtTick, IsOfTrace, IsRecordOf, IsTextOf, Opens, StandsBehind, StandsIn, TakesNothing, error_of, has_failed, record_read, source_of, told_left};

    /// The rows of the rest of a source, for a trace of the plan. Refuses a first record by R1.
    #[inline(always)]
    pub fn new(
        alloc: Global,
        source: &'a mut Source<R>,
        plan: &'a Plan,
    ) -> Result<TraceReader<'a, R>, TraceError>
        ensures opens { (bytes : List ℕ) → source_remaining R.remaining source.old ≡ Some bytes → Opens R.remaining plan.now (csv_records bytes) result }
        ensures goes { IfOk result (λ reader. has_failed reader ≡ false) }
        ensures plan { IfOk result (λ reader. reader.plan.now ≡ plan.now) }
    {
        match TraceReader::open(alloc, source, plan) {
            Ok(reader) => Ok(reader),
            Err(unopened) => Err(unopened.error),
        }
    }

    /// A reader as by `new`; a refused first record is given back.
    pub fn open(
        alloc: Global,
        source: &'a mut Source<R>,
        plan: &'a Plan,
    ) -> Result<TraceReader<'a, R>, Unopened>
        ensures opens { (bytes : List ℕ) → source_remaining R.remaining source.old ≡ Some bytes → Opens R.remaining plan.now (csv_records bytes) (error_of result) }
        ensures goes { IfOk result (λ reader. has_failed reader ≡ false) }
        ensures plan { IfOk result (λ reader. reader.plan.now ≡ plan.now) }
        ensures stands { (bytes : List ℕ) → source_remaining R.remaining source.old ≡ Some bytes → IfOk result (StandsIn R.remaining (csv_records bytes)) }
        ensures lines { (bytes : List ℕ) → source_remaining R.remaining source.old ≡ Some bytes → IfOk result (HasReadIn R.remaining bytes) }
        ensures refused { (bytes : List ℕ) → source_remaining R.remaining source.old ≡ Some bytes → IfErr result (λ unopened. IsRecordOf (csv_records bytes) unopened.error (fields_of unopened.first)) }
        ensures refused_line { (bytes : List ℕ) → source_remaining R.remaining source.old ≡ Some bytes → IfErr result (λ unopened. IfSome unopened.line (BeginsIn bytes 1)) }
    {
        let mut records = RecordReader::new(alloc, source);
        let mut fields = ByteRecord::new(alloc);
        match records.read(&mut fields) {
            Ok(true) => {}
            Ok(false) => return Err(no_head(ByteRecord::new(alloc), None)),
            Err(_) => {
                return Err(Unopened {
                    error: stopped(&records),
                    first: fields,
                    line: None,
                });
            }
        }
        match version_told(plan, &fields) {
            Some(version) => Ok(TraceReader {
                plan,
                records,
                fields,
                guesses: Guesses::new(),
                tick: Tick::new(),
                version,
                number: 1,
                state: ReaderState::Rows,
            }),
            None => Err(no_head(fields, line_in(&records, 1))),
        }
    }

    /// After a refusal the refused record, field by field; after a row any earlier one.
    pub fn refused_record(&self) -> &ByteRecord
        ensures { fields_of result.now ≡ record_read self.now }
    {
        &self.fields
    }

    /// The line, from 1, of the record of that number, if it is the last one read (after a refusal
    /// the refused one) and its line is known, as [`RecordReader::empty_lines`] says.
    pub fn line_of(&self, number: u32) -> Option<u64>
        ensures line { (text : List ℕ) → HasReadIn R.remaining text self.now → IfSome result (BeginsIn text number) }
        ensures known { (text : List ℕ) → HasReadTo R.remaining text number self.now → 1 ≤ number → length text < 2 ^ 32 → reads_csv self.now.records ≡ false → IsSome result }
    {
        if number != self.number || number == 0 {
            return None;
        }
        line_in(&self.records, number)
    }

    /// The next row, none at the end of the text; after a refusal [`TraceError::Failed`].
    pub fn next_row(&mut self) -> Result<Option<Row>, TraceError>
        ensures next { (told : Told) → told_left R.remaining self.old ≡ Some told → GivesNext told result (told_left R.remaining self.new) }
        ensures goes { OnOk result (has_failed self.new ≡ false) }
        ensures fails { OnErr result (has_failed self.new ≡ true) }
        ensures failed { has_failed self.old ≡ true → result ≡ Err TraceError.Failed }
        ensures going { has_failed self.old ≡ false → ¬ (result ≡ Err TraceError.Failed) }
        ensures read { result ≡ Err TraceError.Read → source_failed (source_of self.new) ≡ true }
        ensures memory { result ≡ Err TraceError.Memory → source_failed (source_of self.new) ≡ false }
        ensures trace { IsOfTrace self.old self.new }
        ensures stands { (records : List (List (List ℕ))) → StandsIn R.remaining records self.old → StandsBehind R.remaining records result self.new }
        ensures lines { (text : List ℕ) → HasReadIn R.remaining text self.old → HasReadBehind R.remaining text result self.new }
    {
        let answer = match self.state {
            ReaderState::Rows => self.read_next(),
            ReaderState::Ended => Ok(None),
            ReaderState::Failed => Err(TraceError::Failed),
        };
        self.state = ReaderState::after(&answer);
        answer
    }

    /// The version in the first record.
    pub fn version(&self) -> TextVersion
        ensures { result ≡ self.now.version }
    {
        self.version
    }

    /// A row as the trace has it: version 1 omits the ahead.
    #[inline(always)]
    pub fn as_read(&self, row: Row) -> Row
        ensures { result ≡ as_read self.now.version row }
    {
        match self.version {
            TextVersion::V1 => row.without_ahead(),
            TextVersion::V2 => row,
        }
    }

    /// Whether the next row has that tick and the core's stored text, once
    /// [`TraceReader::core_ahead`] has found a core in that tick: the tick isn't compared again,
    /// and nothing is read. False without a stored text.
    #[inline(always)]
    pub fn comes_behind(&mut self, tick: u32, texts: &RowTexts<'_>, core: CoreId) -> bool
        requires { IsAtTick tick self.old }
        ensures some { result ≡ true → ¬ (text_of_core texts.now core.0 ≡ []) }
        ensures taken { result ≡ true → (row : Row) (told : Told) → IsTextOf self.old texts.now tick core.0 row → told_left R.remaining self.old ≡ Some told → GivesNext told (Ok (Some row)) (told_left R.remaining self.new) }
        ensures nothing { result ≡ false → TakesNothing R.remaining tick self.old self.new }
        ensures same { has_failed self.new ≡ has_failed self.old }
        ensures trace { IsOfTrace self.old self.new }
        ensures finds { (row : Row) → IsTextOf self.old texts.now tick core.0 row → CanMeet self.old row → result ≡ true }
        ensures stands { (row : Row) (records : List (List (List ℕ))) → IsTextOf self.old texts.now tick core.0 row → StandsIn R.remaining records self.old → StandsIn R.remaining records self.new }
        ensures lines { (row : Row) (text : List ℕ) → IsTextOf self.old texts.now tick core.0 row → HasReadIn R.remaining text self.old → HasReadIn R.remaining text self.new }
    {
        let Some(after) = self.number.checked_add(1) else {
            return false;
        };
        // This read proves that the plan is an accepted one.
        let _accepted = self.plan.tasks();
        let line = text_of(&texts.lines, (core.0 % MOST_CORES) as usize);
        let met = self
            .records
            .meets_behind(self.tick.bytes(), line.as_bytes());
        if met {
            self.number = after;
        }
        met
    }

    /// The core of the next row, if its text begins with this tick and a core of one digit, as rows
    /// are written; otherwise none, and nothing is known. Takes nothing.
    #[inline(always)]
    pub fn core_ahead(&mut self, tick: u32) -> Option<CoreId>
        ensures next { (told : Told) → told_left R.remaining self.old ≡ Some told → IfSome result (λ core. BeginsAt tick core told) }
        ensures kept { (told : Told) → told_left R.remaining self.old ≡ Some told → told_left R.remaining self.new ≡ Some told }
        ensures same { has_failed self.new ≡ has_failed self.old }
        ensures going { ¬ (result ≡ None) → has_failed self.old ≡ false }
        ensures trace { IsOfTrace self.old self.new }
        ensures stands { (records : List (List (List ℕ))) → StandsIn R.remaining records self.old → StandsIn R.remaining records self.new }
        ensures lines { (text : List ℕ) → HasReadIn R.remaining text self.old → HasReadIn R.remaining text self.new }
        ensures here { ¬ (result ≡ None) → IsAtTick tick self.new }
        ensures finds { self.old.state ≡ ReaderState.Rows → (core : CoreId) → BeginsWithDigit (decimal tick) (48 + core.0) (bytes_ahead self.new.records) → result ≡ Some core }
    {
        let ReaderState::Rows = self.state else {
            return None;
        };
        self.tick.show(tick);
        match self.records.digit_after(self.tick.bytes()) {
            Some(digit) => Some(CoreId(u32::from(digit - b'0'))),
            None => None,
        }
    }

    // The next row, while more may follow.
    fn read_next(&mut self) -> Result<Option<Row>, TraceError>
        requires { self.old.state ≡ ReaderState.Rows }
        ensures next { (told : Told) → told_left R.remaining self.old ≡ Some told → HoldsUnlessFailed result (GivesFirstOr told.rows told.refusal result (told_left R.remaining self.new)) }
        ensures state { self.new.state ≡ ReaderState.Rows }
        ensures going { ¬ (result ≡ Err TraceError.Failed) }
        ensures read { result ≡ Err TraceError.Read → source_failed (source_of self.new) ≡ true }
        ensures memory { result ≡ Err TraceError.Memory → source_failed (source_of self.new) ≡ false }
        ensures trace { IsOfTrace self.old self.new }
        ensures stands { (records : List (List (List ℕ))) → StandsIn R.remaining records self.old → StandsBehind R.remaining records result self.new }
        ensures lines { (text : List ℕ) → HasReadIn R.remaining text self.old → HasReadBehind R.remaining text result self.new }
    {
        let Some(number) = self.number.checked_add(1) else {
            // A source has far fewer bytes than these records would take.
            return Err(stopped(&self.records));
        };
        match self.records.read(&mut self.fields) {
            Ok(true) => {}
            Ok(false) => return Ok(None),
            Err(_) => return Err(stopped(&self.records)),
        }
        self.number = number;
        let row = numbered_row(
            self.plan,
            self.version,
            &mut self.guesses,
            &self.fields,
            number,
        )?;
        Ok(Some(row))
    }
}
