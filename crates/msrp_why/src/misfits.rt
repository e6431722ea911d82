//! A refused record of a trace, in words.

use crate::rows::Line;
use csv::ByteRecord;
use msrp_advice::{Shown, ShownRecord, field, res_name, task_name};
use msrp_plan::{Plan, ResId, TaskId};
use msrp_text::fields::{has_word, name_at, number_at, number_of};
use msrp_trace::TraceFault;
use std::fmt::{self, Formatter, Write};

/// A refused record of a trace, in words: the code and the number of the record, the field that is
/// wrong and what it must be, and the first fields of the record.
#[derive(Clone, Copy)]
pub struct RefusedRecord<'a> {
    pub plan: &'a Plan,
    pub fault: TraceFault,
    /// The number of the record, counted from 1.
    pub number: u32,
    /// The line in which it begins, if it is known.
    pub line: Option<u64>,
    /// The record; one without fields is the end of the text.
    pub row: &'a ByteRecord,
}

// What is wrong with a record, in words. A number in braces means that field, counted from 0;
// another word means what the plan allows.
impl RefusedRecord<'_> {
    fn has(&self, i: usize, word: &[u8]) -> bool {
        has_word(self.row, i, word)
    }

    fn head(&self) -> &'static str {
        if self.row.len() == 0 {
            "the trace is empty; its first record must be msrp-trace,1,{cores},{ticks} or msrp-trace,2,{cores},{ticks}"
        } else if self.has(0, b"msrp") {
            "this is a plan; give the plan first, then the trace"
        } else if !self.has(0, b"msrp-trace") || self.row.len() != 4 {
            "the first record must be msrp-trace,1,{cores},{ticks} or msrp-trace,2,{cores},{ticks}"
        } else if !self.has(1, b"1") && !self.has(1, b"2") {
            "{1}unknown trace version; must be 1 or 2"
        } else if number_at(self.row, 2) != Some(self.plan.cores()) {
            "{2}wrong number of cores; the plan has {cores}"
        } else {
            "{3}wrong number of ticks; the plan has {ticks}"
        }
    }

    fn number(&self) -> &'static str {
        if number_at(self.row, 0).is_none() || number_at(self.row, 1).is_none() {
            "{odd}not a whole number: no sign, decimal point or leading zero, at most 9 digits"
        } else if !self.has(4, b"-") && number_at(self.row, 4).is_none() {
            "{4}the job must be - or a whole number; jobs are numbered from 0"
        } else {
            "{6}the queue length must be - or a whole number"
        }
    }

    fn name(&self) -> &'static str {
        if self.has(3, b"-") || self.plan.task_of(name_at(self.row, 3)).is_some() {
            "{5}the plan has no resource of this name; its resources:{resources}"
        } else {
            "{3}the plan has no task of this name; its tasks:{tasks}"
        }
    }

    fn shape(&self) -> &'static str {
        let has_job = !self.has(3, b"-") && !self.has(4, b"-");
        let has_res = !self.has(5, b"-");
        let has_any = !self.has(3, b"-") || !self.has(4, b"-") || has_res;
        match name_at(self.row, 2) {
            "idle" if has_any => "{filled}an idle row has - as task, job and resource",
            "run" if !has_job || has_res =>
                "{empty}a run row has a task and a job, and - as resource",
            "idle" | "run" => "{6}only a queue row has a queue length; must be -",
            _ if !has_job || !has_res =>
                "{empty}a row of this kind has a task, a job and a resource",
            "queue" => "{6}a queue row of trace version 2 has a queue length",
            _ => "{6}only a queue row has a queue length; must be -",
        }
    }

    fn sentence(&self) -> &'static str {
        match self.fault {
            TraceFault::Head => self.head(),
            TraceFault::FieldCount =>
                "wrong number of fields; a row has 6: tick,core,kind,task,job,resource; in trace version 2 a 7th: ahead",
            TraceFault::Number => self.number(),
            TraceFault::Kind =>
                "{2}unknown kind; must be idle, run, lock, unlock, take, queue, spin, grant or release",
            TraceFault::Name => self.name(),
            TraceFault::Shape => self.shape(),
            TraceFault::Read | TraceFault::Memory => "the trace can't be read",
        }
    }

    fn write_field<W: Write>(&self, f: &mut Formatter<W>, i: usize) -> fmt::Result {
        let shown = Shown(field(self.row, i));
        write!(f, "field {} [{shown}]: ", i.saturating_add(1))
    }

    // The place from 3 to 5 that is `-`, or isn't: the first, else the last.
    fn part(&self, is_none: bool) -> usize {
        (3..5).find(|i| self.has(*i, b"-") == is_none).unwrap_or(5)
    }

    fn fill<W: Write>(&self, f: &mut Formatter<W>, hole: &str) -> fmt::Result {
        let plan = self.plan;
        match hole {
            "cores" => write!(f, "{}", plan.cores()),
            "ticks" => write!(f, "{}", plan.ticks()),
            "tasks" => {
                for task in 0..plan.tasks() {
                    write!(f, " {}", task_name(plan, TaskId(task)))?;
                }
                Ok(())
            }
            "resources" => {
                for res in 0..plan.resources() {
                    write!(f, " {}", res_name(plan, ResId(res)))?;
                }
                Ok(())
            }
            "odd" => self.write_field(f, usize::from(number_at(self.row, 0).is_some())),
            "empty" => self.write_field(f, self.part(true)),
            "filled" => self.write_field(f, self.part(false)),
            digit => self.write_field(f, number_of(digit.as_bytes()).unwrap_or(0) as usize),
        }
    }
}

impl fmt::Display for RefusedRecord<'_> {
    fn fmt<W: Write>(&self, f: &mut Formatter<W>) -> fmt::Result {
        let number = self.number;
        write!(f, "R{} at record {number}: ", self.fault.code())?;
        for piece in self.sentence().split('}') {
            match piece.split_once('{') {
                Some((text, hole)) => {
                    f.write_str(text)?;
                    self.fill(f, hole)?;
                }
                None => f.write_str(piece)?,
            }
        }
        let (line, shown) = (Line(self.line), ShownRecord(self.row));
        writeln!(f, "\nrecord {number}{line}: {shown}")
    }
}
