//! A lock of a global resource while a global one is held.
ghost use Rattle.std.specs.Prelude.{◌≡◌, ◌<◌, ◌≤◌};
ghost use Rattle.msrp_plan.specs.Common.{length, true, IfSome};
ghost use Rattle.csv.specs.Records.{fields_of};
ghost use Rattle.msrp_advice.specs.Records.{AreNested, IsShared};
ghost use Rattle.msrp_advice.specs.Records as spec;

use crate::records::{is_op, is_op_on, is_open, is_same, is_task, number_told};
use csv::ByteRecord;
use msrp_plan::limits::{MOST_CORES, MOST_RESOURCES};
use msrp_text::fields::{has_word, name_at};
use std::fmt::{self, Formatter, Write};

/// Where a task locks a global resource while it holds another, by the places of both locks among
/// the records.
#[derive(Clone, Copy, Debug, PartialEq, Eq)]
pub struct NestedLocks {
    pub outer: usize,
    pub inner: usize,
}

fn core_after(row: &ByteRecord, core: u32) -> u32
    ensures { result ≡ spec.core_after (fields_of row.now) core }
{
    if is_task(row) {
        number_told(row, 2)
    } else {
        core
    }
}

fn core_at(records: &[ByteRecord], n: usize) -> u32
    requires { n ≤ length records.now }
    ensures { result ≡ spec.core_at records.now n }
{
    let rows = records[..n].iter();
    rows.fold(0, |core, row| core_after(row, core))
}

// Whether a task of another core locks the resource that is locked at a place.
fn is_shared(records: &[ByteRecord], lock: usize) -> bool
    requires { lock < length records.now }
    ensures { result ≡ true → IsShared records.now lock }
{
    let (locked, own) = (&records[lock], core_at(records, lock));
    let mut core = 0;
    for k in 0..records.len() {
        let row = &records[k];
        if core != own && is_op_on(b"lock", locked, row) {
            return true;
        }
        core = core_after(row, core);
    }
    false
}

// Whether both locks are of global resources, and the first is open at the second.
fn are_nested(records: &[ByteRecord], locks: NestedLocks) -> bool
    ensures { result ≡ true → AreNested records.now locks.outer locks.inner }
{
    let NestedLocks { outer, inner } = locks;
    outer < inner
        && inner < records.len()
        && is_open(&records[..inner], outer)
        && is_op(b"lock", &records[inner])
        && is_shared(records, outer)
        && is_shared(records, inner)
}

/// The cores whose tasks lock a resource, a bit for each.
#[derive(Clone, Copy)]
pub(crate) struct Cores(u8);

impl fmt::Display for Cores {
    fn fmt<W: Write>(&self, f: &mut Formatter<W>) -> fmt::Result {
        let mut separator = "";
        for core in 0..MOST_CORES {
            if self.0 >> core & 1 == 1 {
                write!(f, "{separator}{core}")?;
                separator = ", ";
            }
        }
        Ok(())
    }
}

// The users of each resource, in the order in which the resources are declared.
#[derive(Clone, Copy)]
pub(crate) struct Users([Cores; MOST_RESOURCES]);

// The place of a lock's resource among the declared ones, which begin with the fourth record.
fn resource_of(records: &[ByteRecord], lock: &ByteRecord) -> usize {
    let name = name_at(lock, 2).as_bytes();
    let mut declared = records.iter().skip(3);
    declared
        .position(|row| has_word(row, 0, b"resource") && has_word(row, 1, name))
        .unwrap_or(MOST_RESOURCES)
}

impl Users {
    pub fn among(records: &[ByteRecord]) -> Users {
        let mut users = [Cores(0); MOST_RESOURCES];
        let mut core = 0;
        for row in records {
            core = core_after(row, core);
            if is_op(b"lock", row) {
                if let Some(cores) = users.get_mut(resource_of(records, row)) {
                    cores.0 |= 1u8.checked_shl(core).unwrap_or(0);
                }
            }
        }
        Users(users)
    }

    /// The users of a lock's resource.
    pub fn of(&self, records: &[ByteRecord], lock: Option<&ByteRecord>) -> Cores {
        let cores = lock.and_then(|lock| self.0.get(resource_of(records, lock)));
        cores.copied().unwrap_or(Cores(0))
    }
}

fn first_nested(records: &[ByteRecord]) -> Option<NestedLocks> {
    let users = Users::among(records);
    let mut held: Option<(usize, &ByteRecord)> = None;
    for (inner, row) in records.iter().enumerate() {
        if is_op(b"lock", row) && users.of(records, Some(row)).0.count_ones() > 1 {
            match held {
                Some((outer, _)) => return Some(NestedLocks { outer, inner }),
                None => held = Some((inner, row)),
            }
        } else if is_op(b"unlock", row) && held.is_some_and(|(_, lock)| is_same(2, lock, row)) {
            held = None;
        }
    }
    None
}

/// The first lock of a global resource while another is held, if there is one.
pub fn nested_locks(records: &[ByteRecord]) -> Option<NestedLocks>
    ensures { IfSome result (λ locks. AreNested records.now locks.outer locks.inner) }
{
    first_nested(records).filter(|locks| are_nested(records, *locks))
}
