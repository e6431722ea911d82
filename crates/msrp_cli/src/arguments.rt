//! The arguments of a command line: how they are declared, and what the parser found for them.

ghost use Rattle.std.specs.Prelude.{◌≡◌};
ghost use Rattle.msrp_plan.specs.Common.{false, ok_or, option_map, IfOk, Some};
ghost use Rattle.std.specs.Result.{result_map_both};
ghost use Rattle.clap.specs.Words.{App, Rule, app_of, first_of, found_of, rows_of, rule_of, with_rule};
ghost use Rattle.msrp_cli.specs.Arguments as argument;
ghost use Rattle.msrp_cli.specs.Arguments.{fault_of_words, paths_of};

use crate::input::STANDARD;
use clap::error::ErrorKind;
use clap::parser::ValueSource;
use clap::{Arg, ArgAction, ArgMatches, Command};
use msrp_faults::CliFault;
use std::alloc::{AllocError, Global};

/// The name of the argument for a plan's path.
pub const PLAN: &str = "PLAN";

/// The name of the argument for a trace's path.
pub const TRACE: &str = "TRACE";

/// The flag `--name`.
pub fn flag<'a>(alloc: Global, name: &'a str, help: &'a str) -> Arg<'a>
    ensures rule { rule_of result ≡ argument.flag name.now }
    ensures own { result.global ≡ false }
    ensures text { result.help ≡ Some help.entry }
{
    Arg::new(alloc, name)
        .long(name)
        .action(ArgAction::SetTrue)
        .help(help)
}

/// `--name` with a value, which the help calls `value`.
pub fn valued<'a>(alloc: Global, name: &'a str, value: &'a str, help: &'a str) -> Arg<'a>
    ensures rule { rule_of result ≡ argument.valued name.now }
    ensures own { result.global ≡ false }
    ensures text { result.help ≡ Some help.entry }
{
    Arg::new(alloc, name)
        .long(name)
        .value_name(value)
        .help(help)
}

/// A required path.
pub fn path<'a>(alloc: Global, name: &'a str, help: &'a str) -> Arg<'a>
    ensures rule { rule_of result ≡ argument.wanted name.now }
    ensures own { result.global ≡ false }
    ensures text { result.help ≡ Some help.entry }
{
    Arg::new(alloc, name).required(true).help(help)
}

/// The command, if it could be made, with one more argument. So a chain of arguments has one exit.
pub fn with_arg<'a>(
    made: Result<Command<'a>, AllocError>,
    arg: Arg<'a>,
) -> Result<Command<'a>, AllocError>
    ensures { (words : App) (rule : Rule) → IfOk made.entry (λ command. app_of command ≡ words) → rule_of arg.entry ≡ rule → arg.entry.global ≡ false → IfOk result (λ command. app_of command ≡ with_rule words rule) }
{
    made?.arg(arg)
}

/// Whether an argument is given.
pub fn is_given(matches: &ArgMatches<'_>, name: &str) -> bool
    ensures { result ≡ argument.is_given name.now (rows_of (found_of matches.now)) }
{
    matches.value_source(name) == Some(ValueSource::CommandLine)
}

/// The value of an argument, if it has one.
pub fn value_of<'a>(matches: &ArgMatches<'a>, name: &str) -> Option<&'a str>
    ensures { option_map (λ value. value.now) result ≡ first_of name.now (rows_of (found_of matches.now)) }
{
    matches.get_str(name)
}

// The paths of a plan and a trace, unless both are standard input.
fn both_of<'a>(
    plan: Option<&'a str>,
    trace: Option<&'a str>,
) -> Result<(&'a str, &'a str), CliFault>
    ensures { result_map_both (λ paths. (paths.0.now, paths.1.now)) (λ fault. fault) result ≡ ok_or (argument.both_of (option_map (λ path. path.now) plan.entry) (option_map (λ path. path.now) trace.entry)) CliFault.Usage }
{
    match (plan, trace) {
        (Some(plan), Some(trace)) if plan != STANDARD || trace != STANDARD => Ok((plan, trace)),
        _ => Err(CliFault::Usage),
    }
}

/// The paths of a plan and a trace. A usage fault if one isn't given, or both are standard input.
pub fn both_paths<'a>(matches: &ArgMatches<'a>) -> Result<(&'a str, &'a str), CliFault>
    ensures { result_map_both (λ paths. (paths.0.now, paths.1.now)) (λ fault. fault) result ≡ ok_or (paths_of (rows_of (found_of matches.now))) CliFault.Usage }
{
    both_of(value_of(matches, PLAN), value_of(matches, TRACE))
}

/// The fault of a parser's error: memory for lack of memory, otherwise usage. None for a request
/// for help, which isn't a fault.
pub fn fault_of_words(kind: ErrorKind) -> Option<CliFault>
    ensures { result ≡ fault_of_words kind }
{
    match kind {
        ErrorKind::DisplayHelp => None,
        ErrorKind::OutOfMemory => Some(CliFault::Memory),
        _ => Some(CliFault::Usage),
    }
}
