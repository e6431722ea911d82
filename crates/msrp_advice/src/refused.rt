//! What is said of a refused plan.

use crate::nested::nested_locks;
use crate::records::{busiest_task, earlier_record, field};
use crate::shown::{Shown, ShownRecord};
use csv::ByteRecord;
use msrp_plan::PlanFault;
use msrp_text::fields::name_at;
use std::fmt::{self, Formatter, Write};

// What may come before the first record.
const BYTE_ORDER_MARK: &[u8] = b"\xef\xbb\xbf";

/// A refused plan, in words: where it is refused, the code, the reason, and the refused record;
/// then the same of each earlier record that the refusal concerns.
#[derive(Clone, Copy)]
pub struct RefusedPlan<'a> {
    /// What the plan is called, as its file.
    pub name: &'a str,
    /// The plan's text.
    pub text: &'a [u8],
    pub fault: PlanFault,
    /// The number of the refused record, counted from 1.
    pub number: u32,
    /// The records before it.
    pub before: &'a [ByteRecord],
    /// The refused record; one without fields is the end of the text.
    pub row: &'a ByteRecord,
}

// The line in which the record of that number begins, both counted from 1. It isn't known after a
// quote, since a quoted field may hold line ends.
fn line_of(text: &[u8], number: usize) -> Option<usize> {
    let (mut records, mut line) = (0usize, 0usize);
    let mut last = b'\n';
    for byte in text.strip_prefix(BYTE_ORDER_MARK).unwrap_or(text) {
        if last == b'\n' || (last == b'\r' && *byte != b'\n') {
            line = line.saturating_add(1);
            records = records.saturating_add(usize::from(*byte != b'\n' && *byte != b'\r'));
            if records == number {
                return Some(line);
            }
        }
        if *byte == b'"' {
            return None;
        }
        last = *byte;
    }
    None
}

fn write_concern<W: Write>(f: &mut Formatter<W>, row: &ByteRecord) -> fmt::Result {
    let name = Shown(field(row, 1));
    match name_at(row, 0) {
        "op" => write!(f, "{} is locked here", Shown(field(row, 2))),
        "cores" => f.write_str("the number of cores is declared here"),
        "release" => f.write_str("the release before is here"),
        "resource" => write!(f, "resource {name} is declared here"),
        _ => write!(f, "task {name} is declared here"),
    }
}

impl RefusedPlan<'_> {
    // Where a record is: what the plan is called, and the line, if it is known.
    fn write_place<W: Write>(&self, f: &mut Formatter<W>, number: usize) -> fmt::Result {
        f.write_str(self.name)?;
        match line_of(self.text, number) {
            Some(line) => write!(f, ":{line}: "),
            None => f.write_str(": "),
        }
    }

    fn write_note<W: Write>(&self, f: &mut Formatter<W>, earlier: Option<usize>) -> fmt::Result {
        if let Some((i, row)) = earlier.and_then(|i| Some((i, self.before.get(i)?))) {
            let number = i.saturating_add(1);
            self.write_place(f, number)?;
            f.write_str("note: ")?;
            write_concern(f, row)?;
            write!(f, "\n  record {number}: {}\n", ShownRecord(row))?;
        }
        Ok(())
    }
}

impl fmt::Display for RefusedPlan<'_> {
    fn fmt<W: Write>(&self, f: &mut Formatter<W>) -> fmt::Result {
        self.write_place(f, self.number as usize)?;
        write!(f, "error P{}: ", self.fault.code())?;
        self.write_reason(f)?;
        write!(f, "\n  record {}: {}\n", self.number, ShownRecord(self.row))?;
        match self.fault {
            PlanFault::Core => self.write_note(f, Some(1)),
            PlanFault::Jobs => self.write_note(f, busiest_task(self.before)),
            PlanFault::NestedGlobal => {
                let locks = nested_locks(self.before);
                self.write_note(f, locks.map(|locks| locks.outer))?;
                self.write_note(f, locks.map(|locks| locks.inner))
            }
            fault => self.write_note(f, earlier_record(fault, self.before, self.row)),
        }
    }
}
