//! `msrp_log`: judges the log of a kernel by its events, with their times as they are.
//!
//! `cli` reads the command line, `systems` the system or the plan, `why` gives reasons, `report`
//! counts, `states` writes start states, and `main` prints the verdict and gives the exit status.
//! `msrp_event_text` judges.
#![tactic(auto)]

ghost use Rattle.std.specs.Prelude.{◌≡◌};
ghost use Rattle.msrp_plan.specs.Common.{IfOk, None};

mod answers;
mod cli;
mod report;
mod states;
mod systems;
mod why;

use answers::{Refused, exit_of, verdict_line};
use cli::{Asked, Audit, asked_of, help_text};
use csv::ByteRecord;
use msrp_cli::{Input, open, open_both, words_of};
use msrp_event_audit::LogAuditor;
use msrp_event_text::{Judged, LogVerdict, Unwatched, audit_log, judge_log, read_state};
use msrp_plan::bytes::Sink;
use msrp_system::System;
use report::Report;
use states::{StateBefore, state_text};
use std::alloc::{AllocError, Global};
use std::io;
use std::process::ExitCode;
use systems::{system_of_plan, system_of_text};
use why::Why;

fn print(rt: &HostRuntime, text: &str) -> Result<(), Refused> {
    let mut out = Sink::new(io::writer(rt));
    out.add(text.as_bytes());
    Ok(out.outcome()?)
}

// The system, and the log that is judged against it.
fn opened(rt: &HostRuntime, words: &Audit<'_>) -> Result<(System, Input), Refused> {
    let (text, log) = open_both(rt, words.system, words.log)?;
    match words.tick {
        Some(tick) => Ok((system_of_plan(rt.alloc(), text, tick)?, log)),
        None => Ok((system_of_text(rt.alloc(), text)?, log)),
    }
}

// An auditor with the state from which the log is judged: that before the first event, or one of a
// text.
fn begun<'a>(
    rt: &HostRuntime,
    words: &Audit<'_>,
    system: &'a System,
) -> Result<LogAuditor<'a>, Refused>
    ensures system { IfOk result (λ auditor. auditor.system ≡ system.now) }
    ensures none { IfOk result (λ auditor. auditor.finding ≡ None) }
{
    let alloc = rt.alloc();
    let mut auditor = LogAuditor::with_room(alloc, system, words.tolerances)?;
    if let Some(state) = words.begin {
        read_state(alloc, open(rt, state)?, &mut auditor)?;
    }
    Ok(auditor)
}

// The verdict on a log, after its start state if there is one.
fn verdict_on(
    rt: &HostRuntime,
    words: &Audit<'_>,
    system: &System,
    log: Input,
) -> Result<LogVerdict, Refused> {
    let alloc = rt.alloc();
    if words.begin.is_none() {
        return Ok(audit_log(alloc, log, system, words.tolerances)?);
    }
    let mut auditor = begun(rt, words, system)?;
    let mut fields = ByteRecord::new(alloc);
    let judged = judge_log(
        alloc,
        log,
        system,
        &mut Unwatched,
        &mut auditor,
        &mut fields,
    )?;
    Ok(judged.verdict)
}

// Prints the verdict on a log, and answers the exit status.
fn audit(rt: &HostRuntime, words: &Audit<'_>) -> Result<u8, Refused> {
    let (system, log) = opened(rt, words)?;
    let verdict = verdict_on(rt, words, &system, log)?;
    let (line, status) = verdict_line(rt.alloc(), verdict)?;
    print(rt, &line)?;
    Ok(status)
}

// The reason for a verdict that isn't good.
fn reason<'a>(
    alloc: Global,
    auditor: &'a LogAuditor<'a>,
    fields: &'a ByteRecord,
    judged: Judged,
) -> Result<String, AllocError> {
    match judged.shown {
        Some(shown) => { format!(in alloc; "{}", Why::new(auditor, fields, judged.verdict, shown)) }
        None => Ok(String::new(alloc)),
    }
}

// Prints the verdict and the reason for it, and answers the exit status.
fn explain(rt: &HostRuntime, words: &Audit<'_>) -> Result<u8, Refused> {
    let alloc = rt.alloc();
    let (system, log) = opened(rt, words)?;
    let mut auditor = begun(rt, words, &system)?;
    let mut fields = ByteRecord::new(alloc);
    let judged = judge_log(
        alloc,
        log,
        &system,
        &mut Unwatched,
        &mut auditor,
        &mut fields,
    )?;
    let (line, status) = verdict_line(alloc, judged.verdict)?;
    let reason = reason(alloc, &auditor, &fields, judged)?;
    print(rt, &line)?;
    print(rt, &reason)?;
    Ok(status)
}

// Prints the verdict and, if the log is good, what it exercises; the exit status.
fn count(rt: &HostRuntime, words: &Audit<'_>) -> Result<u8, Refused> {
    let alloc = rt.alloc();
    let (system, log) = opened(rt, words)?;
    let mut auditor = LogAuditor::with_room(alloc, &system, words.tolerances)?;
    let mut report = Report::with_room(alloc, &system, words.tolerances.backlog)?;
    let mut fields = ByteRecord::new(alloc);
    let judged = judge_log(alloc, log, &system, &mut report, &mut auditor, &mut fields)?;
    let (line, status) = verdict_line(alloc, judged.verdict)?;
    print(rt, &line)?;
    if status == 0 {
        print(rt, &format!(in alloc; "{report}")?)?;
    }
    Ok(status)
}

// Prints the state before a record, or the verdict if a record before it decides.
fn write_state(rt: &HostRuntime, words: &Audit<'_>, record: u64) -> Result<u8, Refused> {
    let alloc = rt.alloc();
    let (system, log) = opened(rt, words)?;
    let mut auditor = begun(rt, words, &system)?;
    let mut state = StateBefore::new(alloc, record);
    let mut fields = ByteRecord::new(alloc);
    let judged = judge_log(alloc, log, &system, &mut state, &mut auditor, &mut fields);
    let is_next = state.is_next();
    if let Some(text) = state.into_text() {
        print(rt, &text?)?;
        return Ok(0);
    }
    match judged?.verdict {
        LogVerdict::Good if is_next => {
            print(rt, &state_text(alloc, &auditor)?)?;
            Ok(0)
        }
        LogVerdict::Good => Err(Refused::Short),
        verdict => {
            let (line, status) = verdict_line(alloc, verdict)?;
            print(rt, &line)?;
            Ok(status)
        }
    }
}

// Does what the words ask for, and answers the exit status.
fn run(rt: &HostRuntime) -> Result<u8, Refused> {
    let alloc = rt.alloc();
    let words = words_of(rt)?;
    match asked_of(alloc, &words)? {
        Asked::Audit(words) => audit(rt, &words),
        Asked::Why(words) => explain(rt, &words),
        Asked::Report(words) => count(rt, &words),
        Asked::State(words, record) => write_state(rt, &words, record),
        Asked::Help => {
            print(rt, &help_text(alloc, &words)?)?;
            Ok(0)
        }
    }
}

fn main(rt: HostRuntime) -> ExitCode {
    let outcome = run(&rt);
    if let Err(refused) = &outcome {
        let _ = eprintln!(rt; "msrp_log: {refused}");
    }
    ExitCode::from(exit_of(&outcome))
}
