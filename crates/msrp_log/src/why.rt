//! Why a log has a fault, or what it lacks: the record, the rule, what was expected, and the state
//! before the record. The words are tested; the facts in them are proved in `msrp_event_audit`.
ghost use Rattle.std.specs.Prelude.{◌≡◌, ◌<◌};
ghost use Rattle.msrp_plan.specs.Common.{All, ForSome, length};
ghost use Rattle.msrp_event_audit.specs.LogJobs.{IsKnown};

use csv::ByteRecord;
use msrp_event_audit::{LogAuditor, awaits, ceiling, choice, first_of, holds, live_job, next_unit};
use msrp_event_text::{LogVerdict, Shown};
use msrp_events::{Action, CoreLog, Event, Finding, LiveJob, LockAction, LogRule, Missing};
use msrp_plan::{CoreId, JobId, Op, ResId, TaskId};
use msrp_system::System;
use std::fmt::{self, Formatter, Write};

fn sentence(rule: LogRule) -> &'static str {
    match rule {
        LogRule::E1 => "overdue; for longer than the slack a core has not run the job it should",
        LogRule::E2 => "late grant; a resource is free too long while a job waits for it",
        LogRule::E3 => "unknown job; the system has no such task",
        LogRule::E4 => "wrong core; the task belongs to another core",
        LogRule::E5 => "not released; the job acts before its release",
        LogRule::E6 => "already ended; the job acts after its end",
        LogRule::E7 => "released twice; the task's jobs are released in order, each once",
        LogRule::E8 => "wrong job; this isn't the job that the core runs, or should run",
        LogRule::E9 => "wrong step; this isn't the job's next lock, unlock or end",
        LogRule::E10 => "wrong outcome of a lock; the first-in-first-out queue gives another",
    }
}

fn job_of(action: Action) -> Option<JobId> {
    match action {
        Action::Release(job, _) | Action::Step(_, job, _) | Action::End(job) => Some(job),
        Action::Switch(job) => job,
        Action::Boot | Action::Stop | Action::Lost => None,
    }
}

// A job, as `can_rx,0`; or none.
#[derive(Clone, Copy)]
struct JobText<'a>(&'a System, Option<JobId>);

impl fmt::Display for JobText<'_> {
    fn fmt<W: Write>(&self, f: &mut Formatter<W>) -> fmt::Result {
        match self.1 {
            Some(job) => write!(f, "{},{}", self.0.task_name(job.task), job.k),
            None => f.write_str("none"),
        }
    }
}

// A record on one line. A question mark stands for each byte that isn't printable ASCII.
#[derive(Clone, Copy)]
struct RecordText<'a>(&'a ByteRecord);

impl fmt::Display for RecordText<'_> {
    fn fmt<W: Write>(&self, f: &mut Formatter<W>) -> fmt::Result {
        for i in 0..self.0.len() {
            f.write_str(if i == 0 { "" } else { "," })?;
            for byte in self.0.get(i).unwrap_or(b"") {
                let is_printable = *byte == b' ' || byte.is_ascii_graphic();
                f.write_char(if is_printable { char::from(*byte) } else { '?' })?;
            }
        }
        Ok(())
    }
}

/// The reason for a verdict that is not good, by the record that decides and the auditor before it.
#[derive(Clone, Copy)]
pub struct Why<'a> {
    system: &'a System,
    auditor: &'a LogAuditor<'a>,
    jobs: &'a [LiveJob],
    record: &'a ByteRecord,
    verdict: LogVerdict,
    shown: Shown,
    ghost known: { All (IsKnown system.now) jobs.now },
}

impl<'a> Why<'a> {
    pub fn new(
        auditor: &'a LogAuditor<'a>,
        record: &'a ByteRecord,
        verdict: LogVerdict,
        shown: Shown,
    ) -> Why<'a> {
        Why {
            system: auditor.system(),
            auditor,
            jobs: auditor.jobs(),
            record,
            verdict,
            shown,
        }
    }

    fn job(&self, job: Option<JobId>) -> JobText<'a> {
        JobText(self.system, job)
    }

    // The next release of a task.
    fn write_release<W: Write>(&self, f: &mut Formatter<W>, task: TaskId) -> fmt::Result {
        let (name, next) = (self.system.task_name(task), self.auditor.next_job(task));
        writeln!(f, "release of {name},{next}")
    }

    // The core that the finding is about.
    fn core(&self) -> CoreId {
        let event = self.shown.event;
        if self.shown.finding == Finding::Fault(LogRule::E1) {
            for c in 0..self.system.cores() {
                if self.auditor.is_overdue(event, CoreId(c)) {
                    return CoreId(c);
                }
            }
        }
        event.core
    }

    // The resource that the finding is about.
    fn res(&self) -> Option<ResId> {
        let Event { time, action, .. } = self.shown.event;
        match (self.shown.finding, action) {
            (Finding::Fault(LogRule::E2), _) => {
                for r in 0..self.system.resources() {
                    if self.auditor.is_late(ResId(r), time) {
                        return Some(ResId(r));
                    }
                }
                None
            }
            (Finding::Fault(LogRule::E10), Action::Step(_, _, res)) => Some(res),
            _ => None,
        }
    }

    fn choice(&self, core: CoreId) -> JobText<'a> {
        self.job(choice(self.system, self.jobs, core))
    }

    fn holder(&self, res: ResId) -> Option<JobId> {
        for live in self.jobs {
            if holds(self.system, res, *live) {
                return Some(live.job);
            }
        }
        None
    }

    fn first(&self, res: ResId) -> JobText<'a> {
        for live in self.jobs {
            if awaits(self.system, res, *live) {
                return self.job(Some(live.job));
            }
        }
        self.job(None)
    }

    // When at the latest the core should have run the chosen job.
    fn limit(&self, log: CoreLog) -> u64 {
        let allowed = self.auditor.tolerances();
        let slack = u64::from(allowed.slack) + u64::from(allowed.skew);
        let operation = u64::from(allowed.operation);
        let acted = log.acted.map_or(0, |time| time.saturating_add(operation));
        log.since.unwrap_or(0).max(acted).saturating_add(slack)
    }

    fn write_overdue<W: Write>(&self, f: &mut Formatter<W>) -> fmt::Result {
        let core = self.core();
        let limit = self.auditor.core(core).map_or(0, |log| self.limit(log));
        writeln!(
            f,
            "core {} switches by {limit} to the job it should run",
            core.0
        )
    }

    fn write_late<W: Write>(&self, f: &mut Formatter<W>) -> fmt::Result {
        let Some(res) = self.res() else {
            return Ok(());
        };
        let (allowed, name) = (self.auditor.tolerances(), self.system.res_name(res));
        let wait = u64::from(allowed.operation)
            + u64::from(allowed.slack)
            + u64::from(allowed.skew);
        let limit = self
            .auditor
            .free_since(res)
            .unwrap_or(0)
            .saturating_add(wait);
        writeln!(f, "{} acquires {name} by {limit}", self.first(res))
    }

    fn write_turn<W: Write>(&self, f: &mut Formatter<W>, job: Option<JobId>) -> fmt::Result {
        let Event { core, action, .. } = self.shown.event;
        let log = self.auditor.core(core);
        match (action, log.and_then(|log| log.run)) {
            (Action::Switch(_), _) if log.is_some_and(|log| log.since.is_none()) => {
                f.write_str("no switch\n")
            }
            (Action::Switch(_), _) => writeln!(f, "switch to {}", self.choice(core)),
            (_, Some(run)) if Some(run) != job => {
                writeln!(f, "an event of {}, which runs", self.job(Some(run)))
            }
            _ => writeln!(f, "switch to {} before", self.choice(core)),
        }
    }

    // The next step of a job.
    fn write_step<W: Write>(&self, f: &mut Formatter<W>, job: JobId) -> fmt::Result {
        let Some(live) = live_job(self.jobs, job) else {
            return Ok(());
        };
        let (word, res) = match next_unit(self.system, live) {
            Some(Op::Lock(res)) if !self.system.is_global(res) => ("lock", res),
            Some(Op::Lock(res)) if live.waits => ("acquire", res),
            Some(Op::Lock(res)) => ("request", res),
            Some(Op::Unlock(res)) if self.system.is_global(res) => ("freed", res),
            Some(Op::Unlock(res)) => ("unlock", res),
            Some(Op::Run) | None => return writeln!(f, "end of {}", self.job(Some(job))),
        };
        let (name, job) = (self.system.res_name(res), self.job(Some(job)));
        writeln!(f, "{word} of {name} by {job}")
    }

    fn write_outcome<W: Write>(&self, f: &mut Formatter<W>) -> fmt::Result {
        let Action::Step(kind, job, res) = self.shown.event.action else {
            return Ok(());
        };
        let name = self.system.res_name(res);
        match (kind, self.holder(res)) {
            (LockAction::Poll, _) => writeln!(f, "acquire of {name} by {}", self.job(Some(job))),
            (_, None) => writeln!(f, "acquire of {name} by {}", self.first(res)),
            (_, holder) => writeln!(f, "{} gives up {name} before", self.job(holder)),
        }
    }

    fn write_expected<W: Write>(&self, f: &mut Formatter<W>, rule: LogRule) -> fmt::Result {
        let job = job_of(self.shown.event.action);
        f.write_str("expected: ")?;
        match (rule, job) {
            (LogRule::E1, _) => self.write_overdue(f),
            (LogRule::E2, _) => self.write_late(f),
            (LogRule::E8, _) => self.write_turn(f, job),
            (LogRule::E10, _) => self.write_outcome(f),
            (LogRule::E9, Some(job)) => self.write_step(f, job),
            (LogRule::E4, Some(job)) if job.task.0 < self.system.tasks() => {
                writeln!(f, "core {}", self.system.core_of(job.task).0)
            }
            (LogRule::E5 | LogRule::E7, Some(job)) => self.write_release(f, job.task),
            (LogRule::E6, _) => writeln!(f, "no event of {} after its end", self.job(job)),
            _ => writeln!(f, "a task of the system"),
        }
    }

    fn write_job<W: Write>(&self, f: &mut Formatter<W>, live: Option<LiveJob>) -> fmt::Result
        requires { ForSome live (IsKnown self.now.system.now) }
    {
        match live {
            Some(live) => {
                let (job, level) = (self.job(Some(live.job)), self.system.level(live.job.task));
                let deadline = live.deadline;
                writeln!(
                    f,
                    "{job} (preemption level {level}, absolute deadline {deadline})"
                )
            }
            None => f.write_str("none\n"),
        }
    }

    // What a job holds and awaits, and how high that raises the ceiling of its core.
    fn write_uses<W: Write>(&self, f: &mut Formatter<W>, live: LiveJob) -> fmt::Result
        requires { IsKnown self.now.system.now live }
    {
        let system = self.system;
        for r in 0..system.resources() {
            let (res, held) = (ResId(r), holds(system, ResId(r), live));
            if held || awaits(system, res, live) {
                let raised = match system.is_global(res) {
                    true => system.top(system.core_of(live.job.task)),
                    false => system.local_ceiling(res),
                };
                let (job, word) = (
                    self.job(Some(live.job)),
                    if held { "holds" } else { "awaits" },
                );
                writeln!(
                    f,
                    "{job} {word} {}: raises it to {raised}",
                    system.res_name(res)
                )?;
            }
        }
        Ok(())
    }

    fn write_core<W: Write>(&self, f: &mut Formatter<W>, core: CoreId) -> fmt::Result {
        let (system, jobs, c) = (self.system, self.jobs, core.0);
        let Some(log) = self.auditor.core(core) else {
            return Ok(());
        };
        write!(
            f,
            "core {c} runs: {}\ncore {c} should run: {}",
            self.job(log.run),
            self.choice(core)
        )?;
        if let Some(since) = log.since {
            write!(f, "\ncore {c} has not run the job it should since: {since}")?;
        }
        if let Some(acted) = log.acted {
            write!(f, "\nlast operation of core {c}: at {acted}")?;
        }
        f.write_str("\nfirst job that has started: ")?;
        self.write_job(f, first_of(system, jobs, core, true))?;
        f.write_str("first job that has not: ")?;
        self.write_job(f, first_of(system, jobs, core, false))?;
        writeln!(f, "ceiling of core {c}: {}", ceiling(system, jobs, core))?;
        for live in jobs {
            if system.core_of(live.job.task) == core {
                self.write_uses(f, *live)?;
            }
        }
        Ok(())
    }

    fn write_res<W: Write>(&self, f: &mut Formatter<W>, res: ResId) -> fmt::Result {
        let name = self.system.res_name(res);
        write!(f, "holder of {name}: {}", self.job(self.holder(res)))?;
        if let Some(since) = self.auditor.free_since(res) {
            write!(f, ", since {since}")?;
        }
        writeln!(f, "\nqueue of {name}, first to last:")?;
        for live in self.jobs {
            if awaits(self.system, res, *live) {
                writeln!(f, "  {}", self.job(Some(live.job)))?;
            }
        }
        Ok(())
    }

    // What a record shows of the records of its core that are missing.
    fn write_gap<W: Write>(&self, f: &mut Formatter<W>) -> fmt::Result {
        let Event { core, number, .. } = self.shown.event;
        let last = self.auditor.core(core).and_then(|log| log.number);
        match (number, last) {
            (Some(_), Some(last)) => writeln!(
                f,
                "records of core {} after its number {last}",
                core.0
            ),
            _ => writeln!(f, "records of core {}", core.0),
        }
    }

    fn write_missing<W: Write>(&self, f: &mut Formatter<W>, missing: Missing) -> fmt::Result {
        let Event { core, action, .. } = self.shown.event;
        let (c, job) = (core.0, job_of(action));
        f.write_str("missing: ")?;
        match (missing, job) {
            (Missing::Core, _) => writeln!(f, "core {c}; the system has {}", self.system.cores()),
            (Missing::Start, _) => writeln!(f, "boot of core {c}"),
            (Missing::Restart, _) => writeln!(f, "the end of the log that core {c} began before"),
            (Missing::Records, _) => self.write_gap(f),
            (Missing::Clock, _) => {
                let last = self.auditor.core(core).map_or(0, |log| log.time);
                writeln!(
                    f,
                    "a time from {last} on, that of the last record of core {c}"
                )
            }
            (Missing::Release, Some(job)) => self.write_release(f, job.task),
            (Missing::Request, _) => writeln!(f, "request by {}", self.job(job)),
            (Missing::Room | Missing::Release, _) => match self.jobs.len() {
                1 => f.write_str("room; 1 job has not ended (see --backlog)\n"),
                jobs => writeln!(f, "room; {jobs} jobs have not ended (see --backlog)"),
            },
        }
    }

    // What the records after the one that shows a fault say.
    fn write_rest<W: Write>(&self, f: &mut Formatter<W>) -> fmt::Result {
        match self.verdict {
            LogVerdict::Unconfirmed { .. } => f.write_str(
                "note: the log ends before each other core shows that no record is missing\n",
            ),
            LogVerdict::Incomplete { number, .. } if number != self.shown.number => writeln!(
                f,
                "note: record {number} shows that others are missing, so this fault is not certain"
            ),
            _ => Ok(()),
        }
    }
}

impl fmt::Display for Why<'_> {
    fn fmt<W: Write>(&self, f: &mut Formatter<W>) -> fmt::Result {
        let Shown {
            finding,
            number,
            ..
        } = self.shown;
        writeln!(f, "record {number}: {}", RecordText(self.record))?;
        match finding {
            Finding::Fault(rule) => {
                writeln!(f, "rule {rule:?}: {}", sentence(rule))?;
                self.write_expected(f, rule)?;
            }
            Finding::Incomplete(missing) => self.write_missing(f, missing)?,
        }
        if matches!(
            finding,
            Finding::Fault(LogRule::E1 | LogRule::E8 | LogRule::E9)
        ) {
            self.write_core(f, self.core())?;
        }
        match self.res() {
            Some(res) => self.write_res(f, res)?,
            None => {}
        }
        self.write_rest(f)
    }
}
