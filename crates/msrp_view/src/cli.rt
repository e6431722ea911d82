//! The command line: the arguments of a command, and what they ask for.
ghost use Rattle.std.specs.Prelude.{◌≡◌, ◌⊎◌};
ghost use Rattle.msrp_plan.specs.Common.{false, map, option_map, string_bytes, Err, IfErr, IfOk, Some, is_ascii_digit, list_all};
ghost use Rattle.clap.specs.Words.{app_of, fault_of, found_of, matches_of, rows_of, rule_of};
ghost use Rattle.msrp_view.specs.CommandLine.{IsAnswered, IsAsked};
ghost use Rattle.msrp_view.specs.CommandLine as line;

use clap::error::ErrorKind;
use clap::{Arg, ArgAction, ArgMatches, Command};
use msrp_cli::{
    PLAN, TRACE, both_paths, fault_of_words, flag, is_given, path, value_of, valued, with_arg,
};
use msrp_engine::CliFault;
use msrp_export::Format;
use msrp_page::{TickLength, Unit};
use msrp_picture::{Asked, Style};
use std::alloc::{AllocError, Global};

/// What is shown of a trace.
#[derive(Clone, Copy, Debug, PartialEq, Eq)]
pub enum View {
    /// A picture of these ticks.
    Picture(Asked),
    /// The verdict and its reasons, in words.
    Why,
    /// The whole trace, in a format of another tool.
    Export(Format),
    /// A page for a browser.
    Page,
}

/// A command, with its arguments. A path `-` is standard input.
#[derive(Clone, Copy, Debug, PartialEq, Eq)]
pub enum Cmd<'a> {
    /// Shows, of a plan, a trace, with times if the length of a tick is given.
    Show(View, &'a str, &'a str, Option<&'a str>),
    /// Says in words why the plan is refused, or what is odd in it.
    WhyPlan(&'a str),
    /// Prints the help.
    Help,
    /// Prints the version, and the release's kit and commit.
    Version,
}

fn version<'a>(alloc: Global) -> Arg<'a>
    ensures rule { rule_of result ≡ line.version }
    ensures own { result.global ≡ false }
{
    Arg::new(alloc, "version")
        .long("version")
        .action(ArgAction::Version)
        .help("print the version, and the kit and the commit of the release")
}

fn grammar<'a>(alloc: Global) -> Result<Command<'a>, AllocError>
    ensures { IfOk result (λ command. app_of command ≡ line.grammar) }
{
    let about =
        "MSRP 0.2.0, shows a trace of a plan: a picture, the reasons of its verdict, or a file for another tool";
    let svg = "SVG picture, for a browser or a document";
    let from = "first tick of the picture (default: 0; near the fault if neither tick is given)";
    let to =
        "end tick of the picture, exclusive (default: end of the trace, at most 200 ticks after the first)";
    let why =
        "explain in words: why the plan is refused or what is odd in it; with a trace, its first faulty row";
    let vcd = "value change dump of the whole trace, for GTKWave and other wave viewers";
    let gtkw = "save file for GTKWave, with which it shows all signals of the dump";
    let perfetto = "trace events (JSON) of the whole trace, for ui.perfetto.dev";
    let html = "page for a browser: the verdict and its reasons, a timeline, a report";
    let tick = "length of a tick, for the times of the page, such as 10us; units: ns, us, ms, s";
    let trace = "path of the trace; - is standard input; only --why works without it";
    let plan = "path of the plan; - is standard input";
    let made = Ok(Command::new(alloc, "msrp_view").about(about));
    let made = with_arg(made, flag(alloc, "text", "plain-text picture (default)"));
    let made = with_arg(made, flag(alloc, "svg", svg));
    let made = with_arg(made, valued(alloc, "from", "T", from));
    let made = with_arg(made, valued(alloc, "to", "T", to));
    let made = with_arg(made, flag(alloc, "why", why));
    let made = with_arg(made, flag(alloc, "vcd", vcd));
    let made = with_arg(made, flag(alloc, "gtkw", gtkw));
    let made = with_arg(made, flag(alloc, "perfetto", perfetto));
    let made = with_arg(made, flag(alloc, "html", html));
    let made = with_arg(made, valued(alloc, "tick", "LENGTH", tick));
    let made = with_arg(made, version(alloc));
    let made = with_arg(made, path(alloc, PLAN, plan));
    with_arg(made, Arg::new(alloc, TRACE).help(trace))
}

/// The text of the help.
pub fn help_text(alloc: Global) -> Result<String, CliFault>
    ensures { IfErr result (λ fault. fault ≡ CliFault.Memory) }
{
    let mut command = grammar(alloc)?;
    Ok(command.render_help()?)
}

fn are_digits(text: &[u8]) -> bool
    ensures { result ≡ list_all is_ascii_digit text.now }
{
    text.iter().all(|byte| byte.is_ascii_digit())
}

// The tick of an argument, if it is given: digits alone.
fn tick_of(word: Option<&str>) -> Result<Option<u32>, CliFault>
    ensures value { result ≡ line.tick_of (option_map (λ word. word.now) word.entry) }
    ensures usage { IfErr result (λ fault. fault ≡ CliFault.Usage) }
{
    let Some(word) = word else {
        return Ok(None);
    };
    if !are_digits(word.as_bytes()) {
        return Err(CliFault::Usage);
    }
    match word.parse() {
        Ok(tick) => Ok(Some(tick)),
        Err(_) => Err(CliFault::Usage),
    }
}

// The style of a picture: text, unless "svg" is asked for.
fn style_of(text: bool, svg: bool) -> Result<Style, CliFault>
    ensures value { result ≡ line.style_of text svg }
    ensures usage { IfErr result (λ fault. fault ≡ CliFault.Usage) }
{
    match (text, svg) {
        (_, false) => Ok(Style::Text),
        (false, true) => Ok(Style::Svg),
        (true, true) => Err(CliFault::Usage),
    }
}

fn asked_of(matches: &ArgMatches<'_>) -> Result<Asked, CliFault>
    ensures value { result ≡ line.asked_of (rows_of (found_of matches.now)) }
    ensures usage { IfErr result (λ fault. fault ≡ CliFault.Usage) }
{
    Ok(Asked {
        style: style_of(is_given(matches, "text"), is_given(matches, "svg"))?,
        from: tick_of(value_of(matches, "from"))?,
        to: tick_of(value_of(matches, "to"))?,
    })
}

// Whether the arguments say how to draw, or which ticks.
fn says_picture(matches: &ArgMatches<'_>) -> bool
    ensures { result ≡ line.says_picture (rows_of (found_of matches.now)) }
{
    is_given(matches, "text")
        || is_given(matches, "svg")
        || is_given(matches, "from")
        || is_given(matches, "to")
}

fn view_of(matches: &ArgMatches<'_>) -> Result<View, CliFault>
    ensures value { result ≡ line.view_of (rows_of (found_of matches.now)) }
    ensures usage { IfErr result (λ fault. fault ≡ CliFault.Usage) }
{
    let why = is_given(matches, "why");
    let (vcd, gtkw) = (is_given(matches, "vcd"), is_given(matches, "gtkw"));
    let perfetto = is_given(matches, "perfetto");
    let (html, tick) = (is_given(matches, "html"), is_given(matches, "tick"));
    let picture = says_picture(matches);
    match (why, vcd, gtkw, perfetto, html, picture, tick) {
        (true, false, false, false, false, false, false) => Ok(View::Why),
        (false, true, false, false, false, false, false) => Ok(View::Export(Format::Vcd)),
        (false, false, true, false, false, false, false) => Ok(View::Export(Format::Gtkw)),
        (false, false, false, true, false, false, false) => Ok(View::Export(Format::Perfetto)),
        (false, false, false, false, true, false, _) => Ok(View::Page),
        (false, false, false, false, false, _, false) => Ok(View::Picture(asked_of(matches)?)),
        _ => Err(CliFault::Usage),
    }
}

fn explains_plan(view: View, trace: Option<&str>) -> bool
    ensures { result ≡ line.explains_plan view (option_map (λ path. path.now) trace.entry) }
{
    matches!((view, trace), (View::Why, None))
}

fn asked_for<'a>(matches: &ArgMatches<'a>) -> Result<Cmd<'a>, CliFault>
    ensures asked { IsAsked (rows_of (found_of matches.now)) result }
    ensures usage { IfErr result (λ fault. fault ≡ CliFault.Usage) }
{
    let view = view_of(matches)?;
    if explains_plan(view, value_of(matches, TRACE)) {
        return match value_of(matches, PLAN) {
            Some(plan) => Ok(Cmd::WhyPlan(plan)),
            None => Err(CliFault::Usage),
        };
    }
    let (plan, trace) = both_paths(matches)?;
    Ok(Cmd::Show(view, plan, trace, value_of(matches, "tick")))
}

// What is answered to arguments that are refused: the version or the help, where they ask for it,
// which is no fault.
fn answer_to<'a>(kind: ErrorKind) -> Result<Cmd<'a>, CliFault>
    ensures { result ≡ line.answer_to kind }
{
    if matches!(kind, ErrorKind::DisplayVersion) {
        return Ok(Cmd::Version);
    }
    match fault_of_words(kind) {
        None => Ok(Cmd::Help),
        Some(fault) => Err(fault),
    }
}

/// The command of these arguments; the first one is the program's name.
pub fn command_of<'a>(alloc: Global, words: &'a [String]) -> Result<Cmd<'a>, CliFault>
    ensures fault { IfErr result (λ fault. (fault ≡ CliFault.Usage) ⊎ (fault ≡ CliFault.Memory)) }
    ensures answer { (result ≡ Err CliFault.Memory) ⊎ IsAnswered (fault_of line.grammar (map string_bytes words.now)) (matches_of line.grammar (map string_bytes words.now)) result }
{
    match grammar(alloc)?.try_get_matches_from(words) {
        Ok(matches) => asked_for(&matches),
        Err(error) => answer_to(error.kind()),
    }
}

// The unit of a text that ends with one, and what is before it.
fn unit_in(word: &str) -> Option<(&str, Unit)> {
    let units = [
        Unit::Nanosecond,
        Unit::Microsecond,
        Unit::Millisecond,
        Unit::Second,
    ];
    let mut units = units.iter();
    units.find_map(|unit| Some((word.strip_suffix(unit.name())?, *unit)))
}

/// The length of a tick, if it is given: a whole number above 0, and a unit.
pub fn length_of(word: Option<&str>) -> Result<Option<TickLength>, CliFault>
    ensures usage { IfErr result (λ fault. fault ≡ CliFault.Usage) }
{
    let Some(word) = word else {
        return Ok(None);
    };
    let Some((count, unit)) = unit_in(word) else {
        return Err(CliFault::Usage);
    };
    match tick_of(Some(count))? {
        Some(count) if count > 0 => Ok(Some(TickLength { count, unit })),
        _ => Err(CliFault::Usage),
    }
}

// Why arguments that the parser takes are no command, or none for this plan.
fn misuse_in(matches: &ArgMatches<'_>) -> &'static str {
    let from = tick_of(value_of(matches, "from"));
    let to = tick_of(value_of(matches, "to"));
    let tick = length_of(value_of(matches, "tick"));
    match view_of(matches) {
        _ if from.is_err() || to.is_err() => "error: --from and --to take whole numbers\n",
        _ if tick.is_err() => {
            "error: --tick takes a whole number with a unit: ns, us, ms or s, such as 10us\n"
        }
        Err(_) => "error: these options can't be combined\n",
        Ok(_) if asked_for(matches).is_err() => {
            "error: give a plan and a trace, not both from standard input (-); only --why works without a trace\n"
        }
        Ok(_) => "error: the plan doesn't have these ticks\n",
    }
}

/// Why these arguments are no command, or none for this plan, for a person.
pub fn usage_text<'a>(alloc: Global, words: &'a [String]) -> Result<String, CliFault>
    ensures { IfErr result (λ fault. fault ≡ CliFault.Memory) }
{
    match grammar(alloc)?.try_get_matches_from(words) {
        Ok(matches) => Ok(String::from_str(alloc, misuse_in(&matches))?),
        Err(answer) => Ok(answer.to_string(alloc)?),
    }
}
