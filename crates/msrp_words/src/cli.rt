//! The command line of `msrp`: its grammar, and the command that its arguments ask for.
ghost use Rattle.std.specs.Prelude.{◌≡◌, ◌⊎◌};
ghost use Rattle.msrp_plan.specs.Common.{codes, false, map, ok_or, option_map, string_bytes, true, Err, IfErr, IfOk};
ghost use Rattle.clap.specs.Words.{App, Rule, fault_of, found_of, new_app, rows_of, rule_of, subcommand_of, subcommand_rows_of, with_rule, with_subcommand};
ghost use Rattle.msrp_words.specs.CommandLine.{Declares, IsAnswered, IsChosen, Takes};
ghost use Rattle.msrp_words.specs.Words.{IsAsked, IsCommand, order_of, plan_path, version_of};
ghost use Rattle.msrp_words.specs.CommandLine as line;

use clap::error::ErrorKind;
use clap::{Arg, ArgMatches, Command, Error};
use msrp_cli::{
    PLAN, STANDARD, TRACE, both_paths, fault_of_words, flag, is_given, path, value_of, valued,
    with_arg,
};
use msrp_faults::CliFault;
use msrp_plan::TextVersion;
use msrp_sim::Order;
use std::alloc::{AllocError, Global};

/// A command, with its arguments. A path `-` is standard input.
#[derive(Debug, Drop)]
pub enum Cmd<'a> {
    /// Simulates the plan on one thread.
    Sim {
        order: Order,
        version: TextVersion,
        plan: &'a str,
    },
    /// Runs the plan on a thread for each core.
    Run {
        version: TextVersion,
        plan: &'a str,
    },
    /// Judges a trace of the plan.
    Audit {
        parallel: bool,
        plan: &'a str,
        trace: &'a str,
    },
    /// Counts what happened in a trace of the plan.
    Report {
        plan: &'a str,
        trace: &'a str,
    },
    /// Prints the plan's levels and ceilings.
    Check {
        plan: &'a str,
    },
    /// Prints the plan's own text.
    CheckText {
        plan: &'a str,
    },
    /// Prints the help.
    Help,
}

// The names of arguments, to declare and to find them.
const ORDER: &str = "order";

const AHEAD: &str = "ahead";

const PARALLEL: &str = "parallel";

const TEXT: &str = "text";

fn plan_path<'a>(alloc: Global) -> Arg<'a>
    ensures rule { rule_of result ≡ line.plan }
    ensures own { result.global ≡ false }
{
    Arg::new(alloc, PLAN).help("path of the plan; - is standard input (default)")
}

// A command with two arguments.
fn command_with<'a>(
    alloc: Global,
    name: &'a str,
    about: &'a str,
    first: Arg<'a>,
    second: Arg<'a>,
) -> Result<Command<'a>, AllocError>
    ensures { (one two : Rule) → Declares one first.entry → Declares two second.entry → IfOk result (Takes (with_rule (with_rule (new_app name.now) one) two)) }
{
    let command = Command::new(alloc, name).about(about);
    with_arg(with_arg(Ok(command), first), second)
}

// A command that judges a trace of a plan.
fn judge<'a>(alloc: Global, name: &'a str, about: &'a str) -> Result<Command<'a>, AllocError>
    ensures { IfOk result (Takes (line.judge name.now)) }
{
    command_with(
        alloc,
        name,
        about,
        path(alloc, PLAN, "path of the plan; - is standard input"),
        path(alloc, TRACE, "path of the trace; - is standard input"),
    )
}

// The order of the cores.
fn order_arg<'a>(alloc: Global) -> Arg<'a>
    ensures rule { rule_of result ≡ line.order }
    ensures own { result.global ≡ false }
{
    valued(
        alloc,
        ORDER,
        "asc|desc|rot",
        "order in which the cores act within a tick: ascending (default), descending, or rotating (starts at core t mod m)",
    )
}

// Whether queue rows carry their aheads.
fn ahead_arg<'a>(alloc: Global) -> Arg<'a>
    ensures rule { rule_of result ≡ line.ahead }
    ensures own { result.global ≡ false }
{
    flag(
        alloc,
        AHEAD,
        "add a 7th column: the queue length that each waiting request finds (trace version 2)",
    )
}

fn sim<'a>(alloc: Global) -> Result<Command<'a>, AllocError>
    ensures { IfOk result (Takes line.sim) }
{
    let made = command_with(
        alloc,
        "sim",
        "simulate the plan on one thread and write its trace",
        order_arg(alloc),
        ahead_arg(alloc),
    );
    with_arg(made, plan_path(alloc))
}

fn run<'a>(alloc: Global) -> Result<Command<'a>, AllocError>
    ensures { IfOk result (Takes line.run) }
{
    command_with(
        alloc,
        "run",
        "run the plan on one thread per core and write its trace",
        ahead_arg(alloc),
        plan_path(alloc),
    )
}

fn check<'a>(alloc: Global) -> Result<Command<'a>, AllocError>
    ensures { IfOk result (Takes line.check) }
{
    command_with(
        alloc,
        "check",
        "write the plan's preemption levels and ceilings",
        flag(alloc, TEXT, "write the plan itself, in its shortest form"),
        plan_path(alloc),
    )
}

fn report<'a>(alloc: Global) -> Result<Command<'a>, AllocError>
    ensures { IfOk result (Takes (line.judge (codes "report"))) }
{
    judge(
        alloc,
        "report",
        "per-task deadline misses, response times, spinning and blocking, with proved upper bounds",
    )
}

fn audit<'a>(alloc: Global) -> Result<Command<'a>, AllocError>
    ensures { IfOk result (Takes line.audit) }
{
    let made = judge(alloc, "audit", "judge a trace: good, or its first fault");
    with_arg(
        made,
        flag(alloc, PARALLEL, "judge in a second, independent way"),
    )
}

// The program's grammar with one more command, if both could be made.
fn with_command<'a>(
    program: Result<Command<'a>, AllocError>,
    made: Result<Command<'a>, AllocError>,
) -> Result<Command<'a>, AllocError>
    ensures { (words more : App) → IfOk program.entry (Takes words) → IfOk made.entry (Takes more) → more.top.is_plain ≡ true → IfOk result (Takes (with_subcommand words more.top)) }
{
    program?.subcommand(made?)
}

// The commands that make traces, those that judge them, and those on a plan's text.
fn grammar<'a>(alloc: Global) -> Result<Command<'a>, AllocError>
    ensures { IfOk result (Takes line.grammar) }
{
    let program = Command::new(alloc, "msrp").about(
        "MSRP 0.2.0, the Multiprocessor Stack Resource Policy: simulates, runs, audits and reports. Without a command, it reads a plan from standard input and simulates it.",
    );
    let program = with_command(Ok(program), sim(alloc));
    let program = with_command(program, run(alloc));
    let program = with_command(program, audit(alloc));
    let program = with_command(program, report(alloc));
    with_command(program, check(alloc))
}

// The text of the program's help.
fn program_help(alloc: Global) -> Result<String, CliFault>
    ensures { IfErr result (λ fault. fault ≡ CliFault.Memory) }
{
    let mut command = grammar(alloc)?;
    Ok(command.render_help()?)
}

// The help in a parser's answer, otherwise the program's.
fn help_in(alloc: Global, answer: Error) -> Result<String, CliFault>
    ensures { IfErr result (λ fault. fault ≡ CliFault.Memory) }
{
    if answer.kind() == ErrorKind::DisplayHelp {
        Ok(answer.to_string(alloc)?)
    } else {
        program_help(alloc)
    }
}

/// The help that these arguments ask for: that of the command before `--help` or after `help`,
/// otherwise the program's.
pub fn help_text<'a>(alloc: Global, words: &'a [String]) -> Result<String, CliFault>
    ensures { IfErr result (λ fault. fault ≡ CliFault.Memory) }
{
    match grammar(alloc)?.try_get_matches_from(words) {
        Ok(_) => program_help(alloc),
        Err(answer) => help_in(alloc, answer),
    }
}

// Why arguments that the parser accepts are no command: the order, otherwise standard input twice.
fn misuse_in(alloc: Global, matches: &ArgMatches<'_>) -> Result<String, AllocError> {
    let order = match matches.subcommand() {
        Some(("sim", words)) => value_of(words, ORDER),
        _ => None,
    };
    match order {
        Some(order) => {
            format!(in alloc; "error: unknown order '{order}'; must be asc, desc or rot\n")
        }
        None => String::from_str(
            alloc,
            "error: the plan and the trace can't both be standard input (-)\n",
        ),
    }
}

/// Why these arguments are no command, for a person.
pub fn usage_text<'a>(alloc: Global, words: &'a [String]) -> Result<String, CliFault>
    ensures { IfErr result (λ fault. fault ≡ CliFault.Memory) }
{
    match grammar(alloc)?.try_get_matches_from(words) {
        Ok(matches) => Ok(misuse_in(alloc, &matches)?),
        Err(answer) => Ok(answer.to_string(alloc)?),
    }
}

// The path of the plan; standard input if none is given.
fn plan_of<'a>(matches: &ArgMatches<'a>) -> &'a str
    ensures { result.now ≡ plan_path (rows_of (found_of matches.now)) }
{
    match value_of(matches, PLAN) {
        Some(path) => path,
        None => STANDARD,
    }
}

// The order that a word names; rising if there is none.
fn order_of(word: Option<&str>) -> Result<Order, CliFault>
    ensures { result ≡ ok_or (order_of (option_map (λ word. word.now) word.entry)) CliFault.Usage }
{
    match word {
        None | Some("asc") => Ok(Order::Asc),
        Some("desc") => Ok(Order::Desc),
        Some("rot") => Ok(Order::Rot),
        Some(_) => Err(CliFault::Usage),
    }
}

// The version of a trace: the second carries aheads.
fn version_of(matches: &ArgMatches<'_>) -> TextVersion
    ensures { result ≡ version_of (rows_of (found_of matches.now)) }
{
    if is_given(matches, AHEAD) {
        TextVersion::V2
    } else {
        TextVersion::V1
    }
}

fn sim_of<'a>(matches: &ArgMatches<'a>) -> Result<Cmd<'a>, CliFault>
    ensures { IsAsked (codes "sim") (rows_of (found_of matches.now)) result }
{
    Ok(Cmd::Sim {
        order: order_of(value_of(matches, ORDER))?,
        version: version_of(matches),
        plan: plan_of(matches),
    })
}

fn run_of<'a>(matches: &ArgMatches<'a>) -> Cmd<'a>
    ensures { IsCommand (codes "run") (rows_of (found_of matches.now)) result }
{
    Cmd::Run {
        version: version_of(matches),
        plan: plan_of(matches),
    }
}

fn check_of<'a>(matches: &ArgMatches<'a>) -> Cmd<'a>
    ensures { IsCommand (codes "check") (rows_of (found_of matches.now)) result }
{
    let plan = plan_of(matches);
    if is_given(matches, TEXT) {
        Cmd::CheckText { plan }
    } else {
        Cmd::Check { plan }
    }
}

fn audit_of<'a>(matches: &ArgMatches<'a>) -> Result<Cmd<'a>, CliFault>
    ensures { IsAsked (codes "audit") (rows_of (found_of matches.now)) result }
{
    let (plan, trace) = both_paths(matches)?;
    Ok(Cmd::Audit {
        parallel: is_given(matches, PARALLEL),
        plan,
        trace,
    })
}

fn report_of<'a>(matches: &ArgMatches<'a>) -> Result<Cmd<'a>, CliFault>
    ensures { IsAsked (codes "report") (rows_of (found_of matches.now)) result }
{
    let (plan, trace) = both_paths(matches)?;
    Ok(Cmd::Report { plan, trace })
}

// The command of a word, with the arguments after it.
fn command_named<'a>(word: &str, words: &ArgMatches<'a>) -> Result<Cmd<'a>, CliFault>
    ensures { IsAsked word.now (rows_of (found_of words.now)) result }
{
    match word {
        "sim" => sim_of(words),
        "run" => Ok(run_of(words)),
        "audit" => audit_of(words),
        "report" => report_of(words),
        "check" => Ok(check_of(words)),
        _ => Err(CliFault::Usage),
    }
}

// The requested command; without one, the simulation of standard input.
fn chosen<'a>(matches: &ArgMatches<'a>) -> Result<Cmd<'a>, CliFault>
    ensures { IsChosen (subcommand_rows_of matches.now) result }
{
    match matches.subcommand() {
        Some((word, words)) => command_named(word, words),
        None => Ok(Cmd::Sim {
            order: Order::Asc,
            version: TextVersion::V1,
            plan: STANDARD,
        }),
    }
}

// The answer to a parser's error; a request for help isn't a fault.
fn answer_to<'a>(kind: ErrorKind) -> Result<Cmd<'a>, CliFault>
    ensures { result ≡ line.answer_to kind }
{
    match fault_of_words(kind) {
        None => Ok(Cmd::Help),
        Some(fault) => Err(fault),
    }
}

/// The command that the arguments ask for; the first one is the program's name.
pub fn command_of<'a>(alloc: Global, words: &'a [String]) -> Result<Cmd<'a>, CliFault>
    ensures { (result ≡ Err CliFault.Memory) ⊎ IsAnswered (fault_of line.grammar (map string_bytes words.now)) (subcommand_of line.grammar (map string_bytes words.now)) result }
{
    match grammar(alloc)?.try_get_matches_from(words) {
        Ok(matches) => chosen(&matches),
        Err(error) => answer_to(error.kind()),
    }
}
