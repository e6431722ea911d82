//! The state before a record of a log, written as a start state. Tested, and not proved.
use msrp_event_audit::{LogAuditor, next_unit};
use msrp_event_text::Watch;
use msrp_events::{CoreLog, Event, LiveJob};
use msrp_plan::{CoreId, JobId, Op, ResId, TaskId};
use std::alloc::{AllocError, Global};
use std::fmt::{self, Formatter, Write};

// What an auditor knows, as the records of a start state.
#[derive(Clone, Copy)]
struct StateText<'a, 'b>(&'a LogAuditor<'b>);

// A job's task and number, as two fields; both are empty for none.
fn write_name<W: Write>(
    f: &mut Formatter<W>,
    auditor: &LogAuditor<'_>,
    job: Option<JobId>,
) -> fmt::Result {
    match job {
        Some(job) => write!(f, "{},{}", auditor.system().task_name(job.task), job.k),
        None => f.write_str(","),
    }
}

impl StateText<'_, '_> {
    fn write_jobs<W: Write>(&self, f: &mut Formatter<W>) -> fmt::Result {
        let auditor = self.0;
        for live in auditor.jobs() {
            let LiveJob { deadline, step, .. } = *live;
            let (word, res) = match next_unit(auditor.system(), *live) {
                Some(Op::Lock(res)) if live.waits => ("waiting", auditor.system().res_name(res)),
                _ if live.started => ("started", ""),
                _ => ("ready", ""),
            };
            write!(f, ",,{word},")?;
            write_name(f, auditor, Some(live.job))?;
            writeln!(f, ",{res},{deadline},{step}")?;
        }
        Ok(())
    }

    fn write_core<W: Write>(&self, f: &mut Formatter<W>, core: u32, log: CoreLog) -> fmt::Result {
        write!(f, "{},{core},core,", log.time)?;
        write_name(f, self.0, log.run)?;
        write_number(f, log.acted)?;
        write_number(f, log.since)?;
        write_number(f, log.number)?;
        f.write_str("\n")
    }
}

// A field with a number, or an empty one.
fn write_number<W: Write>(f: &mut Formatter<W>, number: Option<u64>) -> fmt::Result {
    match number {
        Some(number) => write!(f, ",{number}"),
        None => f.write_str(","),
    }
}

impl fmt::Display for StateText<'_, '_> {
    fn fmt<W: Write>(&self, f: &mut Formatter<W>) -> fmt::Result {
        let (auditor, system) = (self.0, self.0.system());
        writeln!(f, "msrp-log-state,1,{}", system.cores())?;
        for t in 0..system.tasks() {
            let next = auditor.next_job(TaskId(t));
            if next > 0 {
                writeln!(f, ",,next,{},,,{next},", system.task_name(TaskId(t)))?;
            }
        }
        self.write_jobs(f)?;
        for c in 0..system.cores() {
            match auditor.core(CoreId(c)) {
                Some(log) if log.booted => self.write_core(f, c, log)?,
                _ => {}
            }
        }
        for r in 0..system.resources() {
            if let Some(since) = auditor.free_since(ResId(r)) {
                writeln!(f, "{since},,free,,,{},,", system.res_name(ResId(r)))?;
            }
        }
        if auditor.is_stopped() {
            f.write_str(",,stopped,,,,,\n")?;
        }
        Ok(())
    }
}

/// The text of what an auditor knows.
pub fn state_text(alloc: Global, auditor: &LogAuditor<'_>) -> Result<String, AllocError> {
    format!(in alloc; "{}", StateText(auditor))
}

/// Notes the state before the record of one number.
#[derive(Drop)]
pub struct StateBefore {
    alloc: Global,
    record: u64,
    next: u64,
    text: Option<Result<String, AllocError>>,
}

impl StateBefore {
    /// Before the first event, which is record 2.
    pub fn new(alloc: Global, record: u64) -> StateBefore {
        StateBefore {
            alloc,
            record,
            next: 2,
            text: None,
        }
    }

    /// The state that was noted.
    pub fn into_text(self) -> Option<Result<String, AllocError>> {
        self.text
    }

    /// Whether the record is the next one.
    pub fn is_next(&self) -> bool {
        self.next == self.record
    }
}

impl Watch for StateBefore {
    fn note(&mut self, auditor: &LogAuditor<'_>, _event: Event) {
        if self.is_next() {
            self.text = Some(state_text(self.alloc, auditor));
        }
        self.next = self.next.saturating_add(1);
    }
}
