//! A cause in words: the row, the rule, what was expected, and the facts that decide it.
ghost use Rattle.std.specs.Prelude.{◌≡◌};

use crate::causes::Cause;
use crate::exercise::{is_job_of, units_done};
use crate::notes::Numbered;
use crate::rows::{JobText, Line, RowLine, RowText, Size};
use msrp_advice::{Count, res_name};
use msrp_levels::Levels;
use msrp_plan::{Fault, JobId, Kind, Plan, ResId, Row, Rule, TextVersion};
use std::fmt::{self, Formatter, Write};

/// A rule in words.
pub fn sentence(rule: Rule) -> &'static str {
    match rule {
        Rule::A1 => "rule A1: row out of turn",
        Rule::A2 => "rule A2: the job is not one of this core",
        Rule::A3 => "rule A3: wrong job scheduled",
        Rule::A4 => "rule A4: wrong step; this is not the job's next operation",
        Rule::A5 =>
            "rule A5: wrong lock outcome; the first-in-first-out queue gives a different result",
        Rule::A6 => "rule A6: rows are missing at the end",
        Rule::A7 => "rule A7: extra row after the end of the plan",
    }
}

/// Why a row is refused, in words: which row it is, the rule, what was expected, and the facts that
/// decide it.
#[derive(Clone, Copy)]
pub struct Why<'a> {
    plan: &'a Plan,
    levels: &'a Levels<'a>,
    version: TextVersion,
    cause: &'a Cause,
    // Whether the row is a record of a text.
    is_record: bool,
    ghost same: { levels.now ≡ plan.now },
}

impl<'a> Why<'a> {
    /// Rows are shown as in a trace of this version. Without one, the row was fed: it is no record
    /// of a text, and no notes and no state are kept of it.
    pub fn new(
        plan: &'a Plan,
        levels: &'a Levels<'a>,
        version: Option<TextVersion>,
        cause: &'a Cause,
    ) -> Why<'a>
        requires { levels.now ≡ plan.now }
    {
        Why {
            plan,
            levels,
            version: version.unwrap_or(TextVersion::V2),
            cause,
            is_record: version.is_some(),
        }
    }

    fn line(&self, title: &'a str, row: Option<Numbered>) -> RowLine<'a> {
        RowLine(title, self.plan, self.version, row)
    }

    fn write_misplaced<W: Write>(&self, f: &mut Formatter<W>, tick: u32) -> fmt::Result {
        let cores = self.plan.cores();
        let (own, core) = (self.cause.row.tick, self.cause.row.core.0);
        if core >= cores {
            let cores = Count(u128::from(cores), "core");
            write!(f, "; there is no core {core}, the plan has {cores}")
        } else if own > tick {
            write!(f, "; tick {tick} is not complete")
        } else if own < tick {
            write!(f, "; tick {own} is already complete")
        } else {
            write!(f, "; core {core} already has its row of tick {tick}")
        }
    }

    fn write_turns<W: Write>(&self, f: &mut Formatter<W>, tick: u32) -> fmt::Result {
        let turns = &self.cause.turns;
        write!(f, "expected: a row of tick {tick} from ")?;
        for (i, core) in turns.iter().enumerate() {
            let comma = match i {
                0 => "",
                _ if i + 1 == turns.len() => " or ",
                _ => ", ",
            };
            write!(f, "{comma}core {core}")?;
        }
        write!(f, "\n{}", self.line("previous row:", self.cause.notes.last))
    }

    fn write_owner<W: Write>(&self, f: &mut Formatter<W>) -> fmt::Result {
        let plan = self.plan;
        match self.cause.row.job {
            Some(JobId { task, .. }) if task.0 < plan.tasks() => {
                let (name, core) = (plan.task_name(task), plan.core_of(task).0);
                write!(f, "task {name} is assigned to core {core} and has ")?;
                match plan.jobs(task) {
                    0 => writeln!(f, "no job within the plan"),
                    1 => writeln!(f, "one job within the plan: job 0"),
                    n => writeln!(f, "{n} jobs within the plan: 0 to {}", n - 1),
                }
            }
            _ => Ok(()),
        }
    }

    fn write_job<W: Write>(
        &self,
        f: &mut Formatter<W>,
        title: &str,
        job: Option<JobId>,
    ) -> fmt::Result {
        match job {
            Some(job) if is_job_of(self.plan, job) => {
                let (text, level) = (JobText(self.plan, job), self.levels.level(job.task));
                let key = self.plan.job_key(job);
                write!(f, "{title}: {text} (preemption level {level}, ")?;
                write!(f, "released at tick {}, ", key.release)?;
                writeln!(f, "absolute deadline {})", key.deadline)
            }
            _ => writeln!(f, "{title}: none"),
        }
    }

    fn write_choice<W: Write>(&self, f: &mut Formatter<W>) -> fmt::Result {
        let Row { core, job, .. } = self.cause.row;
        match job {
            Some(_) => self.write_job(f, "found", job)?,
            None => writeln!(f, "found: core {} idle", core.0)?,
        }
        match (self.cause.state, self.cause.expected) {
            (Some(state), _) => {
                self.write_job(f, "running", state.running)?;
                self.write_job(f, "head of the ready queue", state.head)?;
                writeln!(f, "ceiling of core {}: {}", core.0, state.ceiling)?;
            }
            (None, Some(expected)) => self.write_job(f, "scheduled", expected.job)?,
            (None, None) => {}
        }
        self.write_uses(f)
    }

    fn write_progress<W: Write>(&self, f: &mut Formatter<W>) -> fmt::Result {
        self.write_job(f, "job", self.cause.row.job)?;
        match (self.cause.state, self.cause.row.job) {
            (Some(state), Some(job)) if job.task.0 < self.plan.tasks() => {
                let (done, units) = (units_done(state, job), self.plan.units(job.task));
                writeln!(f, "units done: {done} of {units}")?;
            }
            _ => {}
        }
        self.write_uses(f)
    }

    // What the core holds or awaits.
    fn write_uses<W: Write>(&self, f: &mut Formatter<W>) -> fmt::Result {
        let numbers = 0..self.plan.resources();
        for (res, notes) in numbers.zip(self.cause.notes.resources.iter()) {
            let lock = notes.last.filter(|last| last.row.kind == Kind::Lock);
            for since in lock.iter().chain(notes.queue.iter()) {
                if since.row.core == self.cause.row.core {
                    self.write_use(f, ResId(res), *since)?;
                }
            }
        }
        Ok(())
    }

    // A resource of the core that a job holds or awaits since a row, and what that does to the
    // core's ceiling.
    fn write_use<W: Write>(&self, f: &mut Formatter<W>, res: ResId, at: Numbered) -> fmt::Result {
        let (name, row) = (res_name(self.plan, res), at.row);
        if let Some(job) = row.job {
            write!(f, "{} ", JobText(self.plan, job))?;
        }
        let (verb, link) = match row.kind {
            Kind::Queue if self.awaits(res) => ("has been waiting for", " since"),
            Kind::Queue => ("holds", ", requested at"),
            _ => ("has held", " since"),
        };
        let (tick, number) = (row.tick, at.number);
        write!(f, "{verb} {name}{link} tick {tick} (row {number})")?;
        if res.0 >= self.plan.resources() || row.core.0 >= self.plan.cores() {
            return writeln!(f);
        }
        let (core, ceiling) = (row.core.0, self.levels.ceiling(res, row.core));
        match self.cause.state {
            Some(state) if state.ceiling == ceiling => {
                writeln!(f, "; this raises the ceiling of core {core} to {ceiling}")
            }
            _ => writeln!(f, "; its ceiling on core {core} is {ceiling}"),
        }
    }

    // Whether the core's job waits for the resource: its expected row is a poll.
    fn awaits(&self, res: ResId) -> bool {
        self.cause.expected.is_some_and(|row| {
            row.res == Some(res) && matches!(row.kind, Kind::Spin | Kind::Grant)
        })
    }

    fn write_queue<W: Write>(&self, f: &mut Formatter<W>, res: ResId) -> fmt::Result {
        let name = res_name(self.plan, res);
        let Some(notes) = self.cause.notes.resources.get(res.0 as usize) else {
            return Ok(());
        };
        let order = match notes.queue.len() {
            0 => ": empty",
            _ => ", first to last:",
        };
        writeln!(f, "queue of {name} before this row{order}")?;
        for request in notes.queue.iter() {
            if let Some(job) = request.row.job {
                write!(f, "  {} ", JobText(self.plan, job))?;
            }
            write!(f, "{}", self.line("since", Some(*request)))?;
        }
        write!(f, "last release of {name}:")?;
        match notes.last {
            Some(_) => write!(f, "{}", self.line("", notes.last))?,
            None => writeln!(f, " none")?,
        }
        let mut requests = notes.queue.iter();
        let is_queued = requests.any(|request| request.row.kind == Kind::Queue);
        if is_queued && self.version == TextVersion::V1 {
            f.write_str("note: this trace has no 'ahead' column; with it (trace version 2) ")?;
            f.write_str("a request that jumps the queue is itself reported\n")?;
        }
        Ok(())
    }

    fn write_facts<W: Write>(&self, f: &mut Formatter<W>, tick: u32) -> fmt::Result {
        let (cause, plan) = (self.cause, self.plan);
        match (cause.fault.rule, cause.row.res) {
            (Rule::A1, _) => self.write_turns(f, tick),
            (Rule::A2, _) => self.write_owner(f),
            (Rule::A3, _) => self.write_choice(f),
            (Rule::A4, _) => self.write_progress(f),
            (Rule::A5, Some(res)) => self.write_queue(f, res),
            (Rule::A5, None) => Ok(()),
            (Rule::A6 | Rule::A7, _) => {
                writeln!(f, "expected: the end of the trace after {}", Size(plan))?;
                write!(f, "{}", self.line("previous row:", cause.notes.last))
            }
        }
    }
}

impl fmt::Display for Why<'_> {
    fn fmt<W: Write>(&self, f: &mut Formatter<W>) -> fmt::Result {
        let (cause, plan) = (self.cause, self.plan);
        let Fault { row, rule } = cause.fault;
        let tick = row.saturating_sub(1) / plan.cores();
        write!(f, "row {row}")?;
        if self.is_record {
            write!(f, " (record {}{})", u64::from(row) + 1, Line(cause.line))?;
        }
        writeln!(f, ": {}", RowText(plan, self.version, cause.row))?;
        f.write_str(sentence(rule))?;
        if rule == Rule::A1 {
            self.write_misplaced(f, tick)?;
        }
        f.write_char('\n')?;
        if let Some(expected) = cause.expected {
            writeln!(f, "expected: {}", RowText(plan, self.version, expected))?;
        }
        self.write_facts(f, tick)
    }
}

/// Why a row that was fed is refused, in words: the code and the number of the row, and what is
/// wrong with it.
#[derive(Clone, Copy)]
pub struct RefusedRow {
    /// The number after R of the code.
    pub code: u32,
    /// The number of the row, counted from 1.
    pub number: u32,
}

impl fmt::Display for RefusedRow {
    fn fmt<W: Write>(&self, f: &mut Formatter<W>) -> fmt::Result {
        let RefusedRow { code, number } = *self;
        let reason = match code {
            4 => "unknown kind; must be 0 to 8",
            5 => "the plan has no such task or resource",
            _ => "a row of this kind has another job, resource or queue length",
        };
        writeln!(f, "row {number}: error R{code}: {reason}")
    }
}
