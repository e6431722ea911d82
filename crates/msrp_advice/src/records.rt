//! The records of a plan's text: what each is, what it shares with another, and the earlier one
//! that a refusal concerns.
ghost use Rattle.std.specs.Prelude.{◌≡◌, ◌<◌};
ghost use Rattle.msrp_plan.specs.Common.{codes, drop, length, list_any, map};
ghost use Rattle.csv.specs.Records.{fields_of};
ghost use Rattle.msrp_text.specs.Reading.{number_told};
ghost use Rattle.msrp_advice.specs.Records as spec;

use csv::ByteRecord;
use msrp_plan::PlanFault;
use msrp_text::fields::{has_word, name_at, number_at};

/// Whether a record begins a task.
pub(crate) fn is_task(row: &ByteRecord) -> bool
    ensures { result ≡ spec.is_task (fields_of row.now) }
{
    has_word(row, 0, b"task") || has_word(row, 0, b"listed")
}

/// Whether a record is an operation of that word.
pub(crate) fn is_op(word: &[u8], row: &ByteRecord) -> bool
    ensures { result ≡ spec.is_op word.now (fields_of row.now) }
{
    has_word(row, 0, b"op") && has_word(row, 1, word)
}

/// Whether both have one name at a place.
pub(crate) fn is_same(i: usize, row: &ByteRecord, other: &ByteRecord) -> bool
    ensures { result ≡ spec.is_same i (fields_of row.now) (fields_of other.now) }
{
    has_word(other, i, name_at(row, i).as_bytes())
}

/// Whether both declare a resource, or both a task, of one name.
pub(crate) fn declares_same(row: &ByteRecord, other: &ByteRecord) -> bool
    ensures { result ≡ spec.declares_same (fields_of row.now) (fields_of other.now) }
{
    let are_tasks = is_task(row) && is_task(other);
    let are_resources = has_word(row, 0, b"resource") && has_word(other, 0, b"resource");
    (are_tasks || are_resources) && is_same(1, row, other)
}

/// The number that a record has at a place; 0 where there is none.
pub(crate) fn number_told(row: &ByteRecord, i: usize) -> u32
    ensures { result ≡ number_told (fields_of row.now) i }
{
    number_at(row, i).unwrap_or(0)
}

/// A field of a record, empty where there is none.
pub fn field(row: &ByteRecord, i: usize) -> &[u8] {
    row.get(i).unwrap_or(b"")
}

/// Whether a record is an operation of that word on the resource of a lock.
pub(crate) fn is_op_on(word: &[u8], lock: &ByteRecord, row: &ByteRecord) -> bool
    ensures { result ≡ spec.is_op_on word.now (fields_of lock.now) (fields_of row.now) }
{
    is_op(word, row) && is_same(2, lock, row)
}

// Whether a record from that place on unlocks what a lock locks.
fn is_let_go(lock: &ByteRecord, rows: &[ByteRecord], from: usize) -> bool
    ensures { result ≡ list_any (λ row. spec.is_op_on (codes "unlock") (fields_of lock.now) (fields_of row)) (drop from rows.now) }
{
    let mut later = rows.iter().skip(from);
    later.any(|row| is_op_on(b"unlock", lock, row))
}

/// Whether the record at a place is a lock, and none after it unlocks its resource.
pub(crate) fn is_open(before: &[ByteRecord], i: usize) -> bool
    requires { i < length before.now }
    ensures { result ≡ spec.is_open (map fields_of before.now) i }
{
    let lock = &before[i];
    is_op(b"lock", lock) && !is_let_go(lock, before, i + 1)
}

// Whether the record at a place is one that the refusal of a later one may concern.
fn is_sought(fault: PlanFault, before: &[ByteRecord], row: &ByteRecord, i: usize) -> bool
    requires { i < length before.now }
    ensures { result ≡ spec.is_sought fault (map fields_of before.now) (fields_of row.now) i }
{
    let earlier = &before[i];
    match fault {
        PlanFault::Taken => declares_same(row, earlier),
        PlanFault::OutOfPlace => has_word(row, 0, b"resource") && is_task(earlier),
        PlanFault::Nesting if is_op(b"lock", row) => is_open(before, i) && is_same(2, row, earlier),
        PlanFault::Nesting => is_open(before, i),
        PlanFault::Releases if has_word(row, 0, b"release") => has_word(earlier, 0, b"release"),
        PlanFault::NoUnit | PlanFault::Releases => is_task(earlier),
        _ => false,
    }
}

/// The place among the records before a refused one, counted from 0, of the one that the refusal
/// concerns: the declaration of a name that is taken, the lock that is open, the release or the
/// task before.
pub fn earlier_record(fault: PlanFault, before: &[ByteRecord], row: &ByteRecord) -> Option<usize>
    ensures { result ≡ spec.earlier_record fault (map fields_of before.now) (fields_of row.now) }
{
    let mut last = None;
    for i in 0..before.len() {
        if is_sought(fault, before, row, i) {
            last = Some(i);
        }
    }
    last
}

/// How many jobs the task at a place releases within the ticks, which the third record has.
pub(crate) fn jobs_of(records: &[ByteRecord], place: usize) -> usize {
    let ticks = records.get(2).map_or(0, |row| number_told(row, 1));
    let Some(task) = records.get(place) else {
        return 0;
    };
    if has_word(task, 0, b"task") {
        let (period, offset) = (number_told(task, 3), number_told(task, 5));
        return ticks.saturating_sub(offset).div_ceil(period.max(1)) as usize;
    }
    let behind = records.iter().skip(place.saturating_add(1));
    let releases = behind.take_while(|row| has_word(row, 0, b"release"));
    releases.filter(|row| number_told(row, 1) < ticks).count()
}

/// The place of a task that releases the most jobs.
pub(crate) fn busiest_task(records: &[ByteRecord]) -> Option<usize> {
    let tasks = records.iter().enumerate().filter(|(_, row)| is_task(row));
    let busiest = tasks.max_by_key(|(place, _)| jobs_of(records, *place));
    busiest.map(|(place, _)| place)
}
