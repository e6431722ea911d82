//! `msrp`: runs a plan of tasks on several cores, on one thread or on one for each core; judges a
//! trace and reports on it; prints a plan's levels and ceilings, or its own text.
//!
//! `msrp_words` reads the command line. `main` opens the paths, prints the line of a fault and
//! returns the exit status. The engines, from bytes to bytes, are `msrp_engine`'s.
#![tactic(auto)]

use msrp_cli::{Input, STANDARD, open, open_both, words_of};
use msrp_engine::write_answer;
pub use msrp_engine::{
    CliFault, audit_parallel_text, audit_text, check_text, exit_of, plan_text, report_text,
    run_text, run_text_if, sim_text,
};
use msrp_hints::{NOT_UTF8, Paths, are_wanted, hint_on, is_on_terminal};
use msrp_plan::TextVersion;
use msrp_plan::bytes::{Sink, Source};
use msrp_sim::Order;
pub use msrp_words::command_of;
use msrp_words::{Cmd, help_text, usage_text};
use std::io;
use std::io::Write;
use std::process::ExitCode;
use std::sync::Wait;
use std::thread::Threads;

// A command's stack frame is as large as its buffers. Each command has its own function, so that
// none touches the pages of another's.

// The sources of a plan and a trace.
fn sources(
    rt: &HostRuntime,
    plan: &str,
    trace: &str,
) -> Result<(Source<Input>, Source<Input>), CliFault> {
    let (plan, trace) = open_both(rt, plan, trace)?;
    Ok((Source::new(plan), Source::new(trace)))
}

// Simulates the plan at a path.
#[inline(never)]
fn simulate<W: Write>(
    rt: &HostRuntime,
    out: &mut Sink<W>,
    order: &Order,
    version: TextVersion,
    plan: &str,
) -> Result<u8, CliFault> {
    let mut plan = Source::new(open(rt, plan)?);
    sim_text(rt.alloc(), &mut plan, out, order, version)
}

// Runs it on threads.
#[inline(never)]
fn run_plan<T: Threads + Wait + Sync, W: Write>(
    rt: &HostRuntime,
    threads: &T,
    out: &mut Sink<W>,
    version: TextVersion,
    plan: &str,
) -> Result<u8, CliFault> {
    let mut plan = Source::new(open(rt, plan)?);
    run_text(threads, rt.alloc(), &mut plan, out, version)
}

// Writes its levels and ceilings, or its own text.
#[inline(never)]
fn check<W: Write>(
    rt: &HostRuntime,
    out: &mut Sink<W>,
    is_text: bool,
    plan: &str,
) -> Result<u8, CliFault> {
    let mut plan = Source::new(open(rt, plan)?);
    if is_text {
        plan_text(rt.alloc(), &mut plan, out)
    } else {
        check_text(rt.alloc(), &mut plan, out)
    }
}

// Judges a trace of it.
#[inline(never)]
fn audit<W: Write>(
    rt: &HostRuntime,
    out: &mut Sink<W>,
    plan: &str,
    trace: &str,
) -> Result<u8, CliFault> {
    let (mut plan, mut trace) = sources(rt, plan, trace)?;
    audit_text(rt.alloc(), &mut plan, &mut trace, out)
}

// Judges it in pieces, on threads.
#[inline(never)]
fn audit_in_pieces<T: Threads + Sync, W: Write>(
    rt: &HostRuntime,
    threads: &T,
    out: &mut Sink<W>,
    plan: &str,
    trace: &str,
) -> Result<u8, CliFault> {
    let (mut plan, mut trace) = sources(rt, plan, trace)?;
    audit_parallel_text(threads, rt.alloc(), &mut plan, &mut trace, out)
}

// Reports on a trace of it.
#[inline(never)]
fn report<W: Write>(
    rt: &HostRuntime,
    out: &mut Sink<W>,
    plan: &str,
    trace: &str,
) -> Result<u8, CliFault> {
    let (mut plan, mut trace) = sources(rt, plan, trace)?;
    report_text(rt.alloc(), &mut plan, &mut trace, out)
}

// Does what the arguments ask for, and returns the exit status. `threads` starts all threads.
fn run<T: Threads + Wait + Sync>(
    rt: &HostRuntime,
    threads: &T,
    words: &[String],
) -> Result<u8, CliFault> {
    let alloc = rt.alloc();
    let mut out = Sink::new(io::writer(rt));
    match command_of(alloc, words)? {
        Cmd::Help => {
            let help = help_text(alloc, words)?;
            write_answer(&mut out, help.as_bytes(), Ok(0))
        }
        Cmd::Sim {
            order,
            version,
            plan,
        } => simulate(rt, &mut out, &order, version, plan),
        Cmd::Run { version, plan } => run_plan(rt, threads, &mut out, version, plan),
        Cmd::CheckText { plan } => check(rt, &mut out, true, plan),
        Cmd::Check { plan } => check(rt, &mut out, false, plan),
        Cmd::Audit {
            parallel: true,
            plan,
            trace,
        } => audit_in_pieces(rt, threads, &mut out, plan, trace),
        Cmd::Audit {
            parallel: false,
            plan,
            trace,
        } => audit(rt, &mut out, plan, trace),
        Cmd::Report { plan, trace } => report(rt, &mut out, plan, trace),
    }
}

// The paths of the texts that a command reads.
fn paths_of<'a>(cmd: &Cmd<'a>) -> Paths<'a> {
    let (plan, trace) = match *cmd {
        Cmd::Sim { plan, .. } | Cmd::Run { plan, .. } => (plan, None),
        Cmd::Check { plan } | Cmd::CheckText { plan } => (plan, None),
        Cmd::Audit { plan, trace, .. } | Cmd::Report { plan, trace } => (plan, Some(trace)),
        Cmd::Help => (STANDARD, None),
    };
    Paths { plan, trace }
}

// The hint for a person after the line of a fault, or a verdict.
#[inline(never)]
fn hint(
    rt: &HostRuntime,
    words: &Result<Vec<String>, CliFault>,
    outcome: &Result<u8, CliFault>,
) -> Result<String, CliFault> {
    let alloc = rt.alloc();
    let words = match words {
        Ok(words) => words.as_slice(),
        Err(CliFault::Usage) => return Ok(String::from_str(alloc, NOT_UTF8)?),
        Err(fault) => return Err(*fault),
    };
    if *outcome == Err(CliFault::Usage) {
        return usage_text(alloc, words);
    }
    let cmd = command_of(alloc, words)?;
    hint_on(rt, outcome, paths_of(&cmd))
}

fn main(rt: HostRuntime) -> ExitCode {
    let words = words_of(&rt);
    let outcome = match &words {
        Ok(words) => run(&rt, &rt, words.as_slice()),
        Err(fault) => Err(*fault),
    };
    if let Err(fault) = &outcome {
        let _ = eprintln!(rt; "msrp: {fault}");
    }
    if outcome != Ok(0) && are_wanted(&rt, is_on_terminal(&rt, &outcome)) {
        if let Ok(hint) = hint(&rt, &words, &outcome) {
            let _ = eprint!(rt; "{hint}");
        }
    }
    ExitCode::from(exit_of(&outcome))
}
