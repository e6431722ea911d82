//! Bytes, names and numbers as they are shown to a user.

use crate::records::field;
use csv::ByteRecord;
use msrp_plan::{Plan, ResId, TaskId};
use std::fmt::{self, Formatter, Write};

// The most fields of a record that are shown, and the most bytes of a field.
const MOST_FIELDS: usize = 16;

const MOST_BYTES: usize = 40;

/// The first bytes of a field; a question mark stands for each that isn't printable ASCII.
#[derive(Clone, Copy)]
pub struct Shown<'a>(pub &'a [u8]);

impl fmt::Display for Shown<'_> {
    fn fmt<W: Write>(&self, f: &mut Formatter<W>) -> fmt::Result {
        for byte in self.0.iter().take(MOST_BYTES) {
            let is_printable = *byte == b' ' || byte.is_ascii_graphic();
            f.write_char(if is_printable { char::from(*byte) } else { '?' })?;
        }
        Ok(())
    }
}

/// The first fields of a record, each in brackets, so that blanks are seen. A record without fields
/// is the end of the text.
#[derive(Clone, Copy)]
pub struct ShownRecord<'a>(pub &'a ByteRecord);

impl fmt::Display for ShownRecord<'_> {
    fn fmt<W: Write>(&self, f: &mut Formatter<W>) -> fmt::Result {
        if self.0.len() == 0 {
            return f.write_str("the end of the text");
        }
        for i in 0..self.0.len().min(MOST_FIELDS) {
            write!(f, "[{}]", Shown(field(self.0, i)))?;
        }
        Ok(())
    }
}

/// A number of things, in the singular or the plural.
#[derive(Clone, Copy)]
pub struct Count(pub u128, pub &'static str);

impl fmt::Display for Count {
    fn fmt<W: Write>(&self, f: &mut Formatter<W>) -> fmt::Result {
        let ending = if self.0 == 1 { "" } else { "s" };
        write!(f, "{} {}{ending}", self.0, self.1)
    }
}

/// The name of a task; `?` where the plan has no such task.
pub fn task_name(plan: &Plan, task: TaskId) -> &str {
    if task.0 < plan.tasks() {
        plan.task_name(task)
    } else {
        "?"
    }
}

/// The name of a resource; `?` where the plan has no such resource.
pub fn res_name(plan: &Plan, res: ResId) -> &str {
    if res.0 < plan.resources() {
        plan.res_name(res)
    } else {
        "?"
    }
}
