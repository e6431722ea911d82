//! Rows, jobs and numbers as text. The texts of this crate are tested, and not proved.
use crate::notes::Numbered;
use msrp_advice::{Count, Shown, res_name, task_name};
use msrp_plan::{JobId, Plan, Row, TextVersion};
use std::fmt::{self, Formatter, Write};

/// The line of a record, if it is known.
#[derive(Clone, Copy)]
pub(crate) struct Line(pub Option<u64>);

impl fmt::Display for Line {
    fn fmt<W: Write>(&self, f: &mut Formatter<W>) -> fmt::Result {
        match self.0 {
            Some(line) => write!(f, ", line {line}"),
            None => Ok(()),
        }
    }
}

/// How many rows a run of a plan has.
#[derive(Clone, Copy)]
pub(crate) struct Size<'a>(pub &'a Plan);

impl fmt::Display for Size<'_> {
    fn fmt<W: Write>(&self, f: &mut Formatter<W>) -> fmt::Result {
        let (cores, ticks) = (u128::from(self.0.cores()), u128::from(self.0.ticks()));
        let (rows, cores) = (Count(cores * ticks, "row"), Count(cores, "core"));
        write!(f, "{rows} ({cores}, {})", Count(ticks, "tick"))
    }
}

/// A job, as `can_rx,0`.
#[derive(Clone, Copy)]
pub(crate) struct JobText<'a>(pub &'a Plan, pub JobId);

impl fmt::Display for JobText<'_> {
    fn fmt<W: Write>(&self, f: &mut Formatter<W>) -> fmt::Result {
        write!(f, "{},{}", task_name(self.0, self.1.task), self.1.k)
    }
}

/// A row as a record of a trace of this version.
#[derive(Clone, Copy)]
pub(crate) struct RowText<'a>(pub &'a Plan, pub TextVersion, pub Row);

impl fmt::Display for RowText<'_> {
    fn fmt<W: Write>(&self, f: &mut Formatter<W>) -> fmt::Result {
        let RowText(plan, version, row) = *self;
        write!(f, "{},{},{},", row.tick, row.core.0, Shown(row.kind.word()))?;
        match row.job {
            Some(job) => write!(f, "{},", JobText(plan, job))?,
            None => f.write_str("-,-,")?,
        }
        f.write_str(row.res.map_or("-", |res| res_name(plan, res)))?;
        match (version, row.ahead) {
            (TextVersion::V2, Some(ahead)) => write!(f, ",{ahead}"),
            (TextVersion::V2, None) => f.write_str(",-"),
            (TextVersion::V1, _) => Ok(()),
        }
    }
}

/// A row with its number on a line after a title. There need not be one.
#[derive(Clone, Copy)]
pub(crate) struct RowLine<'a>(
    pub &'a str,
    pub &'a Plan,
    pub TextVersion,
    pub Option<Numbered>,
);

impl fmt::Display for RowLine<'_> {
    fn fmt<W: Write>(&self, f: &mut Formatter<W>) -> fmt::Result {
        let RowLine(title, plan, version, row) = *self;
        match row {
            Some(Numbered { number, row }) => {
                writeln!(f, "{title} row {number}: {}", RowText(plan, version, row))
            }
            None => Ok(()),
        }
    }
}
