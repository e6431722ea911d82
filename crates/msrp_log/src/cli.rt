//! The words of the command line.

use crate::answers::Refused;
use clap::{Arg, ArgMatches, Command};
use msrp_cli::{STANDARD, fault_of_words, path, value_of, valued, with_arg};
use msrp_events::Tolerances;
use std::alloc::{AllocError, Global};

/// What an audit is asked for.
#[derive(Clone, Copy, Debug, Drop)]
pub struct Audit<'a> {
    pub tolerances: Tolerances,
    /// How many ns a tick lasts, where the system is a plan in ticks.
    pub tick: Option<u32>,
    /// The path of the state from which the log is judged.
    pub begin: Option<&'a str>,
    pub system: &'a str,
    pub log: &'a str,
}

/// What the words ask for.
#[derive(Debug, Drop)]
pub enum Asked<'a> {
    Audit(Audit<'a>),
    Why(Audit<'a>),
    Report(Audit<'a>),
    /// The state before the record of that number.
    State(Audit<'a>, u64),
    Help,
}

const SYSTEM: &str = "SYSTEM";

const LOG: &str = "LOG";

const OPERATION: &str = "op";

const SLACK: &str = "slack";

const SKEW: &str = "skew";

const TICK: &str = "tick";

const BACKLOG: &str = "backlog";

const BEGIN: &str = "begin";

const RECORD: &str = "at";

// The jobs that may be released and not ended, where the words don't say it.
const USUAL_BACKLOG: u32 = 4_096;

// The most of them that may be asked for.
const MOST_BACKLOG: u32 = 1_000_000;

fn time<'a>(alloc: Global, name: &'a str, help: &'a str) -> Arg<'a> {
    valued(alloc, name, "T", help)
}

// The command with the arguments for its tolerances.
fn with_tolerances<'a>(
    alloc: Global,
    made: Result<Command<'a>, AllocError>,
) -> Result<Command<'a>, AllocError> {
    let operation = time(
        alloc,
        OPERATION,
        "how long an operation on a resource takes (default 0)",
    );
    let slack = time(
        alloc,
        SLACK,
        "how long the kernel may take to react (default 0)",
    );
    let skew = time(
        alloc,
        SKEW,
        "how much the clocks of two cores may differ (default 0)",
    );
    with_arg(with_arg(with_arg(made, operation), slack), skew)
}

// A command that judges a log.
fn judging<'a>(alloc: Global, name: &'a str, help: &'a str) -> Result<Command<'a>, AllocError> {
    let backlog = "how many jobs may be released and not ended (default 4096)";
    let made = Ok(Command::new(alloc, name).about(help));
    let made = with_tolerances(alloc, made);
    let made = with_arg(
        made,
        time(alloc, TICK, "SYSTEM is a plan in ticks that last so long"),
    );
    let made = with_arg(made, valued(alloc, BACKLOG, "N", backlog));
    let made = with_arg(
        made,
        path(alloc, SYSTEM, "path of the system; - is standard input"),
    );
    with_arg(
        made,
        path(alloc, LOG, "path of the log; - is standard input"),
    )
}

// The same, after a start state.
fn beginning<'a>(alloc: Global, name: &'a str, help: &'a str) -> Result<Command<'a>, AllocError> {
    let begin = "the log goes on from this state, which state wrote";
    judging(alloc, name, help)?.arg(valued(alloc, BEGIN, "STATE", begin))
}

// The command that writes a start state.
fn stating<'a>(alloc: Global) -> Result<Command<'a>, AllocError> {
    let help = "write the state before a record of a log, for --begin";
    let record = valued(alloc, RECORD, "N", "the number of the record, 2 or more");
    beginning(alloc, "state", help)?.arg(record.required(true))
}

fn grammar<'a>(alloc: Global) -> Result<Command<'a>, AllocError> {
    let why = "judge a log, and give the reason for a fault";
    Command::new(alloc, "msrp_log")
        .about(
            "Judges a kernel's log by the Multiprocessor Stack Resource Policy. Times are in ns, or as 5us, 2ms, 1s.",
        )
        .subcommand(beginning(alloc, "audit", "judge a log: good, or its first fault")?)?
        .subcommand(beginning(alloc, "why", why)?)?
        .subcommand(judging(
            alloc,
            "report",
            "judge a log, and count what a good one exercises",
        )?)?
        .subcommand(stating(alloc)?)
}

// The number of these digits, if they are one.
fn number_of(digits: &str) -> Option<u32> {
    match digits.parse::<u32>() {
        Ok(number) if !digits.starts_with("+") => Some(number),
        _ => None,
    }
}

// This many units in ns, if that is below 2^32.
fn in_ns(digits: &str, unit: u32) -> Option<u32> {
    number_of(digits)?.checked_mul(unit)
}

/// The ns of a duration: a number, alone or with ns, us, ms or s after it.
fn duration_of(text: &str) -> Option<u32> {
    if let Some(digits) = text.strip_suffix("ns") {
        in_ns(digits, 1)
    } else if let Some(digits) = text.strip_suffix("us") {
        in_ns(digits, 1_000)
    } else if let Some(digits) = text.strip_suffix("ms") {
        in_ns(digits, 1_000_000)
    } else if let Some(digits) = text.strip_suffix("s") {
        in_ns(digits, 1_000_000_000)
    } else {
        in_ns(text, 1)
    }
}

// The duration of an argument; it may be missing.
fn duration_at(matches: &ArgMatches<'_>, name: &str) -> Result<Option<u32>, Refused> {
    match value_of(matches, name) {
        None => Ok(None),
        Some(text) => match duration_of(text) {
            Some(duration) => Ok(Some(duration)),
            None => Err(Refused::Usage),
        },
    }
}

fn backlog_at(matches: &ArgMatches<'_>) -> Result<u32, Refused> {
    match value_of(matches, BACKLOG) {
        None => Ok(USUAL_BACKLOG),
        Some(text) => match number_of(text) {
            Some(backlog) if 1 <= backlog && backlog <= MOST_BACKLOG => Ok(backlog),
            _ => Err(Refused::Usage),
        },
    }
}

// The ns of a tick, which aren't 0; the argument may be missing.
fn tick_at(matches: &ArgMatches<'_>) -> Result<Option<u32>, Refused> {
    match duration_at(matches, TICK)? {
        Some(0) => Err(Refused::Usage),
        tick => Ok(tick),
    }
}

// The number of a record that can be an event.
fn record_at(matches: &ArgMatches<'_>) -> Result<u64, Refused> {
    match value_of(matches, RECORD) {
        Some(text) if !text.starts_with("+") => match text.parse::<u64>() {
            Ok(record) if record >= 2 => Ok(record),
            _ => Err(Refused::Usage),
        },
        _ => Err(Refused::Usage),
    }
}

fn audit_of<'a>(matches: &ArgMatches<'a>) -> Result<Audit<'a>, Refused> {
    let tolerances = Tolerances {
        operation: duration_at(matches, OPERATION)?.unwrap_or(0),
        slack: duration_at(matches, SLACK)?.unwrap_or(0),
        skew: duration_at(matches, SKEW)?.unwrap_or(0),
        backlog: backlog_at(matches)?,
    };
    let tick = tick_at(matches)?;
    let begin = value_of(matches, BEGIN);
    if begin == Some(STANDARD) {
        return Err(Refused::Usage);
    }
    match (value_of(matches, SYSTEM), value_of(matches, LOG)) {
        (Some(system), Some(log)) if system != STANDARD || log != STANDARD => Ok(Audit {
            tolerances,
            tick,
            begin,
            system,
            log,
        }),
        _ => Err(Refused::Usage),
    }
}

/// What the words ask for; the first is the program's name.
pub fn asked_of<'a>(alloc: Global, words: &'a [String]) -> Result<Asked<'a>, Refused> {
    match grammar(alloc)?.try_get_matches_from(words) {
        Ok(matches) => match matches.subcommand() {
            Some(("audit", matches)) => Ok(Asked::Audit(audit_of(matches)?)),
            Some(("why", matches)) => Ok(Asked::Why(audit_of(matches)?)),
            Some(("report", matches)) => Ok(Asked::Report(audit_of(matches)?)),
            Some(("state", matches)) => {
                Ok(Asked::State(audit_of(matches)?, record_at(matches)?))
            }
            _ => Err(Refused::Usage),
        },
        Err(error) => match fault_of_words(error.kind()) {
            None => Ok(Asked::Help),
            Some(fault) => Err(Refused::from(fault)),
        },
    }
}

/// The help that the words ask for.
pub fn help_text<'a>(alloc: Global, words: &'a [String]) -> Result<String, Refused> {
    match grammar(alloc)?.try_get_matches_from(words) {
        Ok(_) => Ok(grammar(alloc)?.render_help()?),
        Err(answer) => Ok(answer.to_string(alloc)?),
    }
}
