//! Why a record is refused, in words.
//!
//! A reason is a sentence with holes: `{it}` stands for the field that is wrong, `{task}` for the
//! name of the task that is read, and so on.

use crate::nested::{NestedLocks, Users, nested_locks};
use crate::records::{
    busiest_task, earlier_record, field, is_op, is_open, is_same, is_task, jobs_of, number_told,
};
use crate::refused::RefusedPlan;
use crate::shown::{Count, Shown};
use csv::ByteRecord;
use msrp_plan::PlanFault;
use msrp_plan::limits::{LONGEST_TIME, MOST_HELD};
use msrp_text::fields::{has_word, name_at, number_at};
use std::fmt::{self, Formatter, Write};

// How a record is written, of how many fields, the first place of its numbers, and what they are.
type Form = (&'static str, usize, usize, &'static [&'static str]);

const OPERATION: &str = "op,run,UNITS or op,lock,NAME or op,unlock,NAME";

const LISTED: &[&str] = &["core", "relative deadline"];

const PERIODIC: &[&str] = &["core", "period", "relative deadline", "offset"];

fn form_of(row: &ByteRecord) -> Form {
    match name_at(row, 0) {
        "task" => ("task,NAME,CORE,PERIOD,DEADLINE,OFFSET", 6, 2, PERIODIC),
        "listed" => ("listed,NAME,CORE,DEADLINE", 4, 2, LISTED),
        "op" => (OPERATION, 3, 2, &["run"]),
        "release" => ("release,TICK", 2, 1, &["release"]),
        "resource" => ("resource,NAME", 2, 1, &[]),
        "cores" => ("cores,M", 2, 1, &["cores"]),
        _ => ("ticks,H", 2, 1, &["ticks"]),
    }
}

// Whether the number at a place of a refused record is out of its range.
fn is_out(row: &ByteRecord, i: usize) -> bool {
    let number = number_told(row, i);
    match (name_at(row, 0), i) {
        ("cores" | "ticks", _) => true,
        ("task", 5) | ("release", _) => LONGEST_TIME < number,
        ("task", 3 | 4) | ("listed", 3) => number == 0 || LONGEST_TIME < number,
        _ => false,
    }
}

fn is_padded(field: &[u8]) -> bool {
    matches!(field.first(), Some(b' ' | b'\t')) || matches!(field.last(), Some(b' ' | b'\t'))
}

fn shown(row: Option<&ByteRecord>, i: usize) -> Shown<'_> {
    Shown(row.map_or(b"", |row| field(row, i)))
}

impl<'a> RefusedPlan<'a> {
    // The place of the field that is wrong.
    fn place(&self) -> usize {
        let row = self.row;
        let (_, _, first, names) = form_of(row);
        let mut numbers = first..first.saturating_add(names.len());
        match self.fault {
            PlanFault::OutOfPlace if has_word(row, 0, b"op") && 3 < self.number => 1,
            PlanFault::Number => numbers.find(|i| number_at(row, *i).is_none()).unwrap_or(1),
            PlanFault::Limit => numbers.find(|i| is_out(row, *i)).unwrap_or(0),
            PlanFault::Name | PlanFault::Taken | PlanFault::Releases => 1,
            PlanFault::Undeclared | PlanFault::Core | PlanFault::Nesting => 2,
            _ => 0,
        }
    }

    // What is wrong with the whole text, if its first odd record shows it.
    fn file(&self) -> Option<&'static str> {
        let row = self.row;
        let (first, last) = (field(row, 0), field(row, row.len().saturating_sub(1)));
        let is_first = self.fault == PlanFault::Version;
        let is_unknown = is_first || self.fault == PlanFault::OutOfPlace;
        let is_longer = is_first && has_word(row, 0, b"msrp") && 2 < row.len()
            || self.fault == PlanFault::FieldCount && form_of(row).1 < row.len();
        if is_unknown && first.starts_with(b"#") {
            Some("a plan can't have comments")
        } else if is_first && first.contains(&0) {
            Some("the file looks like UTF-16; save it as UTF-8")
        } else if is_unknown && first.contains(&b';') {
            Some("fields are separated by semicolons; use commas")
        } else if last.contains(&b'\n') || last.contains(&b'\r') {
            Some("the last field goes on in the next line; is a closing quote missing?")
        } else if is_longer && last.len() == 0 {
            Some(
                "the record ends with a comma, as spreadsheets write it; remove the commas at the ends of lines",
            )
        } else {
            None
        }
    }

    fn version(&self) -> &'static str {
        match name_at(self.row, 0) {
            _ if self.row.len() == 0 => "the plan is empty; it must begin with msrp,1 or msrp,2",
            "msrp-trace" => "this is a trace; give the plan first, then the trace",
            "msrp" => "unknown version; a plan must begin with msrp,1 or msrp,2",
            _ => "a plan must begin with msrp,1 or msrp,2; nothing may come before it",
        }
    }

    fn out_of_place(&self) -> &'static str {
        let row = self.row;
        let is_op_word = is_op(b"run", row) || is_op(b"lock", row) || is_op(b"unlock", row);
        match name_at(row, 0) {
            _ if row.len() == 0 => "the plan ends before its ticks record",
            _ if self.number == 2 => "[{it}] is out of place; the second record must be cores,M",
            _ if self.number == 3 => "[{it}] is out of place; the third record must be ticks,H",
            "resource" =>
                "resource {2} comes after a task; declare all resources before the first task",
            "op" if row.len() == 1 || is_op_word =>
                "op comes before any task; it belongs after its task",
            "op" => "unknown operation [{it}]; must be run, lock or unlock",
            "listed" => "listed needs version 2; begin the plan with msrp,2",
            "release" =>
                "release must directly follow listed or another release; it needs version 2",
            "msrp" | "cores" | "ticks" => "{it} may come only once, among the first three records",
            _ => "unknown record [{it}]; must be resource, task, op, listed or release",
        }
    }

    fn misnamed(&self) -> &'static str {
        let name = field(self.row, 1);
        if name.len() == 0 {
            "the name is empty"
        } else if name_at(self.row, 1).len() == 0 {
            "name [{it}] isn't UTF-8"
        } else if name.iter().any(|byte| byte.is_ascii_uppercase()) {
            "name [{it}] has a capital letter; use a to z, 0 to 9 and _"
        } else if name.contains(&b'.') {
            "name [{it}] has a dot; use a to z, 0 to 9 and _"
        } else if 16 < name.len() {
            "name [{it}] has {bytes} bytes; must have at most 16"
        } else {
            "name [{it}] must begin with a to z and have only a to z, 0 to 9 and _"
        }
    }

    fn limit(&self) -> &'static str {
        let (row, before) = (self.row, self.before);
        let held = (0..before.len()).filter(|i| is_open(before, *i)).count();
        match (name_at(row, 0), self.place()) {
            ("cores", _) => "cores is {it}; must be 1 to 8",
            ("ticks", _) => "ticks is {it}; must be 1 to 20,000",
            ("resource", _) => "too many resources; a plan has at most 32",
            ("task", 5) | ("release", 1) => "{what} is {it}; must be 0 to 1,000,000",
            ("task" | "listed", 0) => "too many tasks; a plan has at most 64",
            ("task" | "listed", _) => "{what} is {it}; must be 1 to 1,000,000",
            ("release", _) => "task {task} has too many releases; a task has at most 8,192",
            _ if is_op(b"run", row) && number_told(row, 2) == 0 => "run is 0; must be at least 1",
            _ if is_op(b"lock", row) && MOST_HELD <= held =>
                "task {task} holds too many resources; a task holds at most 8 at once",
            _ =>
                "task {task} has too many units; a task has at most 4,096, and each lock and unlock is one",
        }
    }

    // Whether the resource of a lock or an unlock is held.
    fn holds(&self) -> bool {
        let before = self.before;
        let mut open = (0..before.len()).filter(|i| is_open(before, *i));
        open.any(|i| before.get(i).is_some_and(|lock| is_same(2, self.row, lock)))
    }

    fn nesting(&self) -> &'static str {
        if is_op(b"unlock", self.row) && !self.holds() {
            "task {task} doesn't hold {it}"
        } else if !has_word(self.row, 0, b"op") {
            "task {task} ends while it holds {held}; add op,unlock,{held}"
        } else if is_op(b"lock", self.row) {
            "task {task} already holds {it}"
        } else {
            "task {task} can't unlock {it} now: it must first unlock {held}, which it locked last"
        }
    }

    fn sentence(&self) -> &'static str {
        let row = self.row;
        match self.fault {
            PlanFault::OutOfPlace | PlanFault::Number | PlanFault::Name
                if is_padded(field(row, self.place())) =>
                "field {place} [{it}] begins or ends with a blank; remove it",
            PlanFault::Version => self.version(),
            PlanFault::OutOfPlace => self.out_of_place(),
            PlanFault::FieldCount => "{1} has {fields}; must have {wanted}: {form}",
            PlanFault::Number =>
                "{what} is [{it}], not a whole number: no sign, decimal point or leading zero, at most 9 digits",
            PlanFault::Name => self.misnamed(),
            PlanFault::Taken if is_task(row) => "task {it} is declared twice",
            PlanFault::Taken => "resource {it} is declared twice",
            PlanFault::Limit => self.limit(),
            PlanFault::Undeclared =>
                "resource {it} isn't declared; add resource,{it} before the first task",
            PlanFault::Core => "core is {it}, but the plan has {cores}, numbered from 0",
            PlanFault::Nesting => self.nesting(),
            PlanFault::NestedGlobal => "global sections can't be nested{nested}",
            PlanFault::NoUnit => "task {task} has no op; add at least one",
            PlanFault::Jobs =>
                "the tasks release more than 8,192 jobs within the plan's ticks{most}",
            PlanFault::Releases if has_word(row, 0, b"release") =>
                "release is {it}; must be greater than the release before it, {last}",
            PlanFault::Releases => "listed task {task} has no release; add release,TICK after it",
            // No record has these.
            PlanFault::Read | PlanFault::Memory => "",
        }
    }

    fn earlier(&self) -> Option<&'a ByteRecord> {
        let before = self.before;
        earlier_record(self.fault, before, self.row).and_then(|i| before.get(i))
    }

    // The name of the last task among the first records.
    fn task_at(&self, place: usize) -> Shown<'a> {
        let mut records = self.before.iter().take(place).rev();
        shown(records.find(|row| is_task(row)), 1)
    }

    fn write_nested<W: Write>(&self, f: &mut Formatter<W>) -> fmt::Result {
        let before = self.before;
        let Some(NestedLocks { outer, inner }) = nested_locks(before) else {
            return Ok(());
        };
        let (task, users) = (self.task_at(inner), Users::among(before));
        let (outer, inner) = (before.get(outer), before.get(inner));
        let (name, cores) = (shown(inner, 2), users.of(before, inner));
        write!(f, ": task {task} locks {name} (used on cores {cores})")?;
        let (name, cores) = (shown(outer, 2), users.of(before, outer));
        write!(f, " while it holds {name} (used on cores {cores})")
    }

    fn write_most<W: Write>(&self, f: &mut Formatter<W>) -> fmt::Result {
        match busiest_task(self.before) {
            Some(place) => {
                let name = shown(self.before.get(place), 1);
                let jobs = jobs_of(self.before, place);
                write!(f, "; task {name} releases most: {jobs}")
            }
            None => Ok(()),
        }
    }

    fn fill<W: Write>(&self, f: &mut Formatter<W>, hole: &str) -> fmt::Result {
        let (row, before, place) = (self.row, self.before, self.place());
        let (form, wanted, first, names) = form_of(row);
        match hole {
            "it" => write!(f, "{}", Shown(field(row, place))),
            "place" => write!(f, "{}", place.saturating_add(1)),
            "bytes" => write!(f, "{}", field(row, place).len()),
            "what" => f.write_str(names.get(place.saturating_sub(first)).unwrap_or(&"")),
            "1" => write!(f, "{}", Shown(field(row, 0))),
            "2" => write!(f, "{}", Shown(field(row, 1))),
            "fields" => write!(f, "{}", Count(row.len() as u128, "field")),
            "wanted" => write!(f, "{wanted}"),
            "form" => f.write_str(form),
            "task" => write!(f, "{}", self.task_at(before.len())),
            "held" => write!(f, "{}", shown(self.earlier(), 2)),
            "cores" => {
                let cores = before.get(1).map_or(0, |row| number_told(row, 1));
                write!(f, "{}", Count(u128::from(cores), "core"))
            }
            "last" => write!(f, "{}", shown(before.last(), 1)),
            "nested" => self.write_nested(f),
            _ => self.write_most(f),
        }
    }

    /// Writes why the record is refused.
    pub(crate) fn write_reason<W: Write>(&self, f: &mut Formatter<W>) -> fmt::Result {
        let sentence = self.file().unwrap_or_else(|| self.sentence());
        for piece in sentence.split('}') {
            match piece.split_once('{') {
                Some((text, hole)) => {
                    f.write_str(text)?;
                    self.fill(f, hole)?;
                }
                None => f.write_str(piece)?,
            }
        }
        Ok(())
    }
}
