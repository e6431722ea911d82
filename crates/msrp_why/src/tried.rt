//! What the rows of a trace without a fault say, in words.

use crate::exercise::{ResourceCounts, TurnCounts};
use crate::notes::Notes;
use crate::rows::{RowLine, Size};
use crate::telling::sentence;
use msrp_advice::{Count, res_name};
use msrp_plan::{Plan, ResId, Rule, TextVersion};
use std::fmt::{self, Formatter, Write};

/// What rows without a fault say, in words: what a legal run exercised and what it didn't; or that
/// rows are missing, how many are expected and found, and the last of them. Rows are shown as in a
/// trace of this version.
#[derive(Clone, Copy)]
pub struct Ended<'a>(pub &'a Plan, pub TextVersion, pub &'a Notes);

fn write_turns<W: Write>(f: &mut Formatter<W>, n: TurnCounts) -> fmt::Result {
    let blocked = Count(u128::from(n.kept), "turn");
    writeln!(f, "jobs finished: {}", n.finished)?;
    writeln!(f, "jobs finished after their deadline: {}", n.late)?;
    let at_deadline = n.at_deadline;
    writeln!(f, "jobs finished exactly at their deadline: {at_deadline}")?;
    write!(f, "ceiling blocked a ready job: {blocked}, ")?;
    writeln!(f, "{} with level = ceiling", n.at_ceiling)?;
    writeln!(f, "preemptions: {}", n.preempted)?;
    writeln!(f, "nested critical sections: {}", n.nested)
}

fn write_unmet_turns<W: Write>(f: &mut Formatter<W>, n: TurnCounts) -> fmt::Result {
    let ceiling = match n.kept {
        0 => "ceiling blocking",
        _ => "ceiling blocking with level = ceiling",
    };
    let met = [
        (n.at_deadline, "a job that finishes exactly at its deadline"),
        (n.at_ceiling, ceiling),
        (n.preempted, "preemption"),
        (n.nested, "nested critical sections"),
    ];
    for (count, what) in met {
        if count == 0 {
            writeln!(f, "not exercised: {what}")?;
        }
    }
    Ok(())
}

impl<'a> Ended<'a> {
    // The name of a resource, whether it is global, and what the rows on it met.
    fn resource(&self, res: ResId) -> (&'a str, bool, ResourceCounts) {
        let Ended(plan, _, notes) = *self;
        let is_global = res.0 < plan.resources() && plan.is_global(res);
        let noted = notes.resources.get(res.0 as usize);
        let counts = noted.map_or(ResourceCounts::default(), |noted| noted.counts);
        (res_name(plan, res), is_global, counts)
    }

    fn write_met<W: Write>(&self, f: &mut Formatter<W>, res: ResId) -> fmt::Result {
        let (name, is_global, n) = self.resource(res);
        if !is_global {
            return writeln!(f, "resource {name}, local: locks: {}", n.free);
        }
        write!(f, "resource {name}: requests while free: {}, ", n.free)?;
        write!(f, "while in use: {}, ", n.joined)?;
        write!(f, "longest queue: {}, ", n.longest)?;
        write!(f, "grants in the tick of the release: {}, ", n.at_once)?;
        writeln!(f, "in a later tick: {}", n.later)
    }

    fn write_unmet<W: Write>(&self, f: &mut Formatter<W>, res: ResId) -> fmt::Result {
        let (name, is_global, n) = self.resource(res);
        let (what, end) = match (n.free, n.joined, n.at_once) {
            (0, 0, _) => ("locking", ""),
            _ if !is_global => return Ok(()),
            (_, 0, _) => ("waiting for", ""),
            (_, _, 0) => ("a grant of", " in the tick of its release"),
            _ => return Ok(()),
        };
        writeln!(f, "not exercised: {what} {name}{end}")
    }

    fn write_missing<W: Write>(&self, f: &mut Formatter<W>) -> fmt::Result {
        let Ended(plan, version, notes) = *self;
        let (size, found) = (Size(plan), Count(u128::from(notes.rows), "row"));
        let last = RowLine("last row:", plan, version, notes.last);
        writeln!(f, "{}", sentence(Rule::A6))?;
        write!(f, "expected: {size}\nfound: {found}\n{last}")
    }
}

impl fmt::Display for Ended<'_> {
    fn fmt<W: Write>(&self, f: &mut Formatter<W>) -> fmt::Result {
        let Ended(plan, _, notes) = *self;
        if u64::from(notes.rows) < u64::from(plan.cores()) * u64::from(plan.ticks()) {
            return self.write_missing(f);
        }
        write_turns(f, notes.turns)?;
        for res in 0..plan.resources() {
            self.write_met(f, ResId(res))?;
        }
        write_unmet_turns(f, notes.turns)?;
        for res in 0..plan.resources() {
            self.write_unmet(f, ResId(res))?;
        }
        Ok(())
    }
}
