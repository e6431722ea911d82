//! The row of a record, or the first rule that the record violates.
ghost use Rattle.std.specs.Prelude.{◌≡◌};
ghost use Rattle.msrp_plan.specs.Common.{true, has_shape, may_carry};
ghost use Rattle.csv.specs.Records.{fields_of};
ghost use Rattle.msrp_text.specs.Fields.{number_at, number_of};
ghost use Rattle.msrp_trace.specs.RowParts.{Reads, names_told, numbers_told};
ghost use Rattle.msrp_trace.specs.Rows.{ahead_told, field_count, has_its_ahead, has_parts, is_dash, is_head, is_number, is_shaped, job_with, kind_told, res_named, res_told, row_fault, row_told, task_named, task_told, told_at, version_told};

use crate::faults::TraceFault;
use crate::guesses::{Guess, Guesses};
use crate::words::{DASH, TRACE_WORD, kind_named, version_word};
use csv::ByteRecord;
use msrp_plan::{CoreId, JobId, Kind, Plan, ResId, Row, TaskId, TextVersion};
use msrp_text::fields::{has_word, number_at, number_of};
use std::str;

// Whether a field is that number.
fn tells_number(fields: &ByteRecord, i: usize, number: u32) -> bool
    ensures { result ≡ is_number number (number_at (fields_of fields.now) i) }
{
    match number_at(fields, i) {
        Some(told) => told == number,
        None => false,
    }
}

// Whether a record is the first one of a trace of the plan, of either version.
#[tactic(auto, unfolding(crate::specs::TraceText::trace_word))]
fn is_head(plan: &Plan, fields: &ByteRecord) -> bool
    ensures { result ≡ is_head plan.now (fields_of fields.now) }
{
    fields.len() == 4
        && has_word(fields, 0, TRACE_WORD)
        && tells_number(fields, 2, plan.cores())
        && tells_number(fields, 3, plan.ticks())
}

/// The version in a first record, if it is that of a trace of the plan.
pub(crate) fn version_told(plan: &Plan, fields: &ByteRecord) -> Option<TextVersion>
    ensures { result ≡ version_told plan.now (fields_of fields.now) }
{
    if !is_head(plan, fields) {
        None
    } else if has_word(fields, 1, version_word(TextVersion::V1)) {
        Some(TextVersion::V1)
    } else if has_word(fields, 1, version_word(TextVersion::V2)) {
        Some(TextVersion::V2)
    } else {
        None
    }
}

// The number of fields of a row.
fn field_count(version: TextVersion) -> usize
    ensures { result ≡ field_count version }
{
    match version {
        TextVersion::V1 => 6,
        TextVersion::V2 => 7,
    }
}

// The kind in a record.
fn kind_told(fields: &ByteRecord) -> Option<Kind>
    ensures { result ≡ kind_told (fields_of fields.now) }
{
    match fields.get(2) {
        Some(word) => kind_named(word),
        None => None,
    }
}

// Whether a field is the dash, for no value.
#[tactic(auto, unfolding(crate::specs::TraceText::dash))]
fn is_dash(fields: &ByteRecord, i: usize) -> bool
    ensures { result ≡ is_dash (fields_of fields.now) i }
{
    has_word(fields, i, DASH)
}

// ---- numbers

// The numbers of a row.
#[derive(Clone, Copy)]
struct Numbers {
    tick: u32,
    core: u32,
    job: Option<u32>,
    ahead: Option<u32>,
}

// The number in a field, or none for a dash.
fn number_or_dash(fields: &ByteRecord, i: usize) -> Option<Option<u32>>
    ensures { result ≡ told_at number_of (fields_of fields.now) i }
{
    if is_dash(fields, i) {
        return Some(None);
    }
    match number_at(fields, i) {
        Some(number) => Some(Some(number)),
        None => None,
    }
}

// The ahead of a row, or none.
fn ahead_told(version: TextVersion, fields: &ByteRecord) -> Option<Option<u32>>
    ensures { result ≡ ahead_told version (fields_of fields.now) }
{
    match version {
        TextVersion::V1 => Some(None),
        TextVersion::V2 => number_or_dash(fields, 6),
    }
}

// The numbers of a row, if all required ones are there.
fn numbers_told(version: TextVersion, fields: &ByteRecord) -> Option<Numbers>
    ensures { result ≡ numbers_told version (fields_of fields.now) }
{
    match (
        number_at(fields, 0),
        number_at(fields, 1),
        number_or_dash(fields, 4),
        ahead_told(version, fields),
    ) {
        (Some(tick), Some(core), Some(job), Some(ahead)) => Some(Numbers {
            tick,
            core,
            job,
            ahead,
        }),
        _ => None,
    }
}

// ---- shape

// Whether a row has exactly the task, job and resource of its kind.
fn has_parts(kind: Kind, task: bool, job: bool, res: bool) -> bool
    ensures { result ≡ has_parts kind task job res }
{
    match kind {
        Kind::Idle => !task && !job && !res,
        Kind::Run => task && job && !res,
        _ => task && job && res,
    }
}

// Whether in version 2 exactly a queue row has an ahead.
fn has_its_ahead(version: TextVersion, kind: Kind, ahead: bool) -> bool
    ensures { result ≡ has_its_ahead version kind ahead }
{
    match version {
        TextVersion::V1 => true,
        TextVersion::V2 if kind == Kind::Queue => ahead,
        TextVersion::V2 => !ahead,
    }
}

// Whether a row has exactly the parts of its kind.
fn is_shaped(version: TextVersion, fields: &ByteRecord, kind: Kind) -> bool
    ensures { result ≡ is_shaped version (fields_of fields.now) kind }
{
    has_parts(
        kind,
        !is_dash(fields, 3),
        !is_dash(fields, 4),
        !is_dash(fields, 5),
    ) && has_its_ahead(version, kind, !is_dash(fields, 6))
}

// ---- names

// The task and the resource of a row.
#[derive(Clone, Copy)]
struct Names {
    task: Option<TaskId>,
    res: Option<ResId>,
}

// The plan's task of a name; the guess is compared first.
fn task_named(plan: &Plan, guess: TaskId, name: &[u8]) -> Option<TaskId>
    ensures { result ≡ task_named plan.now name.now }
{
    if guess.0 < plan.tasks() && plan.task_name(guess).as_bytes() == name {
        return Some(guess);
    }
    match str::from_utf8(name) {
        Ok(text) => plan.task_of(text),
        Err(_) => None,
    }
}

// The plan's resource of a name; the guess is compared first.
fn res_named(plan: &Plan, guess: ResId, name: &[u8]) -> Option<ResId>
    ensures { result ≡ res_named plan.now name.now }
{
    if guess.0 < plan.resources() && plan.res_name(guess).as_bytes() == name {
        return Some(guess);
    }
    match str::from_utf8(name) {
        Ok(text) => plan.res_of(text),
        Err(_) => None,
    }
}

// The task of a row, or none for a dash.
fn task_told(plan: &Plan, guess: TaskId, fields: &ByteRecord) -> Option<Option<TaskId>>
    ensures { result ≡ task_told plan.now (fields_of fields.now) }
{
    if is_dash(fields, 3) {
        return Some(None);
    }
    match fields.get(3) {
        Some(name) => match task_named(plan, guess, name) {
            Some(task) => Some(Some(task)),
            None => None,
        },
        None => None,
    }
}

// The resource of a row, or none for a dash.
fn res_told(plan: &Plan, guess: ResId, fields: &ByteRecord) -> Option<Option<ResId>>
    ensures { result ≡ res_told plan.now (fields_of fields.now) }
{
    if is_dash(fields, 5) {
        return Some(None);
    }
    match fields.get(5) {
        Some(name) => match res_named(plan, guess, name) {
            Some(res) => Some(Some(res)),
            None => None,
        },
        None => None,
    }
}

// The task and the resource of a row, if they are the plan's.
fn names_told(plan: &Plan, guess: Guess, fields: &ByteRecord) -> Option<Names>
    ensures { result ≡ names_told plan.now (fields_of fields.now) }
{
    match (
        task_told(plan, guess.task, fields),
        res_told(plan, guess.res, fields),
    ) {
        (Some(task), Some(res)) => Some(Names { task, res }),
        _ => None,
    }
}

// ---- rows

// The job of a task and a number.
fn job_with(task: Option<TaskId>, k: Option<u32>) -> Option<JobId>
    ensures { result ≡ job_with task k }
{
    match (task, k) {
        (Some(task), Some(k)) => Some(JobId { task, k }),
        _ => None,
    }
}

// The row of these parts.
fn row_with(numbers: Numbers, kind: Kind, names: Names) -> Row
    requires shape { has_shape kind (job_with names.task numbers.job) names.res ≡ true }
    requires carrier { may_carry kind numbers.ahead ≡ true }
    ensures tick { result.tick ≡ numbers.tick }
    ensures core { result.core.0 ≡ numbers.core }
    ensures kind { result.kind ≡ kind }
    ensures job { result.job ≡ job_with names.task numbers.job }
    ensures res { result.res ≡ names.res }
    ensures ahead { result.ahead ≡ numbers.ahead }
{
    let job = job_with(names.task, numbers.job);
    Row {
        tick: numbers.tick,
        core: CoreId(numbers.core),
        kind,
        job,
        res: names.res,
        ahead: numbers.ahead,
    }
}

/// The row of a record, or the first rule that the record violates. Its names are first compared
/// with those of the core's last row.
pub(crate) fn read_row(
    plan: &Plan,
    version: TextVersion,
    guesses: &Guesses,
    fields: &ByteRecord,
) -> Result<Row, TraceFault>
    ensures { Reads (row_fault version plan.now (fields_of fields.now)) (row_told version plan.now (fields_of fields.now)) result }
{
    if fields.len() != field_count(version) {
        return Err(TraceFault::FieldCount);
    }
    let Some(numbers) = numbers_told(version, fields) else {
        return Err(TraceFault::Number);
    };
    let Some(kind) = kind_told(fields) else {
        return Err(TraceFault::Kind);
    };
    if !is_shaped(version, fields, kind) {
        return Err(TraceFault::Shape);
    }
    let Some(names) = names_told(plan, guesses.of(numbers.core), fields) else {
        return Err(TraceFault::Name);
    };
    Ok(row_with(numbers, kind, names))
}
