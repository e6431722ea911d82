//! `msrp_view`: shows a trace of a plan as a picture, in words, or in a format of another tool.
//!
//! `cli` reads the command line. `main` opens the files, prints the line of a fault and gives the
//! exit status. The engines are those of `msrp_view_engine`.
#![tactic(auto)]

mod cli;

use cli::{Cmd, View, command_of, help_text, length_of, usage_text};
use msrp_cli::{open, open_both, words_of};
use msrp_engine::{CliFault, exit_of, write_answer};
use msrp_hints::{NOT_UTF8, Paths, are_wanted, hint_on};
use msrp_plan::bytes::{Sink, Source};
use msrp_view_engine::{Drawing, export_text, view_text, why_plan_text, why_text};
use std::io::{BufWriter, Write};
use std::process::ExitCode;
use std::{env, fs, io};

// Output is gathered into writes of this many bytes.
const GATHERED: usize = 65_536;

// The kit and the commit of a program outside of a release.
const NO_RELEASE: &[u8] = b"kit: unknown\ncommit: unknown\n";

// The text of the file in which a release names its kit and its commit.
fn release_info(rt: &HostRuntime) -> Option<Vec<u8>> {
    let program = env::current_exe(rt).ok()?;
    let top = program.parent()?.parent()?;
    let path = top.join(rt.alloc(), "share/doc/msrp/BUILD-INFO").ok()?;
    fs::read(rt, path.as_path()).ok()
}

fn answer<W: Write>(rt: &HostRuntime, cmd: Cmd<'_>, out: &mut Sink<W>) -> Result<u8, CliFault> {
    let alloc = rt.alloc();
    match cmd {
        Cmd::Help => write_answer(out, help_text(alloc)?.as_bytes(), Ok(0)),
        Cmd::Version => {
            let release = release_info(rt);
            out.add(b"msrp_view 0.2.0\n");
            let release = release.as_ref().map_or(NO_RELEASE, |text| text.as_slice());
            write_answer(out, release, Ok(0))
        }
        Cmd::WhyPlan(plan) => {
            let name = if plan == "-" { "<stdin>" } else { plan };
            why_plan_text(alloc, name, &mut Source::new(open(rt, plan)?), out)
        }
        Cmd::Show(view, plan, trace, tick) => {
            let length = length_of(tick)?;
            let (plan, trace) = open_both(rt, plan, trace)?;
            let (plan, trace) = (&mut Source::new(plan), &mut Source::new(trace));
            match view {
                View::Picture(asked) => view_text(alloc, plan, trace, out, Drawing::Picture(asked)),
                View::Why => why_text(alloc, plan, trace, out),
                View::Export(format) => export_text(alloc, plan, trace, out, format),
                View::Page => view_text(alloc, plan, trace, out, Drawing::Page(length)),
            }
        }
    }
}

fn run(rt: &HostRuntime, words: &[String]) -> Result<u8, CliFault> {
    let cmd = command_of(rt.alloc(), words)?;
    let Ok(writer) = BufWriter::with_capacity(rt.alloc(), GATHERED, io::writer(rt)) else {
        return Err(CliFault::Memory);
    };
    let mut out = Sink::new(writer);
    let outcome = answer(rt, cmd, &mut out);
    let failed = out.failed();
    let mut writer = out.into_inner();
    if !failed && writer.flush().is_ok() {
        return outcome;
    }
    // What a failed write left isn't tried again, as it would be where the writer ends with it.
    let _unwritten = writer.into_parts();
    Err(CliFault::Write)
}

// The reason of a fault. Words that were written have that of a refusal already.
fn reason(
    rt: &HostRuntime,
    words: &Result<Vec<String>, CliFault>,
    fault: CliFault,
) -> Result<String, CliFault> {
    let alloc = rt.alloc();
    let words = match words {
        Ok(words) if fault == CliFault::Usage => return usage_text(alloc, words.as_slice()),
        Ok(words) => words,
        Err(CliFault::Usage) => return Ok(String::from_str(alloc, NOT_UTF8)?),
        Err(fault) => return Err(*fault),
    };
    let (view, plan, trace) = match command_of(alloc, words.as_slice())? {
        Cmd::Show(view, plan, trace, _) => (view, plan, Some(trace)),
        Cmd::WhyPlan(plan) => (View::Why, plan, None),
        Cmd::Help | Cmd::Version => return Ok(String::new(alloc)),
    };
    match (fault, view, trace) {
        (CliFault::Plan { .. }, View::Why, None) => Ok(String::new(alloc)),
        (CliFault::Trace { .. }, View::Why, _) => Ok(String::new(alloc)),
        _ => hint_on(rt, &Err(fault), Paths { plan, trace }),
    }
}

fn main(rt: HostRuntime) -> ExitCode {
    let words = words_of(&rt);
    let outcome = match &words {
        Ok(words) => run(&rt, words.as_slice()),
        Err(fault) => Err(*fault),
    };
    if let Err(fault) = &outcome {
        let _ = eprintln!(rt; "msrp_view: {fault}");
        if are_wanted(&rt, true) {
            if let Ok(reason) = reason(&rt, &words, *fault) {
                let _ = eprint!(rt; "{reason}");
            }
        }
    }
    ExitCode::from(exit_of(&outcome))
}
