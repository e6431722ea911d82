//! The calls of an auditor of a kernel's log that is fed event by event.
ghost use Rattle.std.specs.Prelude.{◌≡◌, ◌++◌, ◌∷◌};
ghost use Rattle.msrp_plan.specs.Common.{[], List, Some, None, IfOk, IsSome, PlanModel};
ghost use Rattle.msrp_event_audit.specs.Auditors.{answer_of};
ghost use Rattle.msrp_events.specs.Findings.{finding_in};
ghost use Rattle.msrp_events.specs.declared.events.Event.{Event as LogEvent};
ghost use Rattle.msrp_events.specs.declared.states.Tolerances.{Tolerances as Tolerated};
ghost use Rattle.msrp_c.specs.Answers.{is_long};
ghost use Rattle.msrp_c.specs.Contents.{log_in};
ghost use Rattle.msrp_c.specs.LogEvents.{event_of};
ghost use Rattle.msrp_c.specs.Logs.{HoldsLog, IsNewLog, OpensLog, TellsLog, log_rule_number, missing_number, tolerances_of};
ghost use Rattle.msrp_c.specs.Opening.{IsMisuse};

use crate::answers::{FAULT, GOOD, MsrpFound, NOTHING, REFUSED, USAGE, is_long, tell, unfailed};
use crate::content::Content;
use crate::handle::MsrpHandle;
use crate::log_events::{MsrpLogEvent, event_of};
use crate::opening::open;
use msrp_engine::CliFault;
use msrp_event_audit::LogAuditor;
use msrp_event_text::{SystemError, SystemRefusal, read_system};
use msrp_events::{Event, Finding, LogRule, Missing, Tolerances};
use msrp_system::System;
use std::alloc::Global;

/// How exact the times of a log are, in ns, and how many jobs may be released and not ended.
#[repr(C)]
#[derive(Clone, Copy, Debug, PartialEq, Eq)]
pub struct MsrpTolerances {
    /// How long an operation on a resource takes.
    pub operation: u32,
    /// How long the kernel may take to react.
    pub slack: u32,
    /// By how much two cores' clocks may differ.
    pub skew: u32,
    /// The most jobs that may be released and not ended.
    pub backlog: u32,
}

fn tolerances_of(numbers: &MsrpTolerances) -> Tolerances
    ensures { result ≡ tolerances_of numbers.now }
{
    Tolerances {
        operation: numbers.operation,
        slack: numbers.slack,
        skew: numbers.skew,
        backlog: numbers.backlog,
    }
}

// Refusals are numbered from 1 in their order.
fn refusal_number(refusal: SystemRefusal) -> u32 {
    refusal as u32 + 1
}

// A record's number, which is small: a text has less than 16 MiB.
fn record_number(number: u64) -> u32 {
    if number < u64::from(u32::MAX) {
        number as u32
    } else {
        u32::MAX
    }
}

// Why a text gives no system.
fn fault_of(error: SystemError) -> CliFault {
    match error {
        SystemError::At { refusal, number } => CliFault::Plan {
            code: refusal_number(refusal),
            number: record_number(number),
        },
        SystemError::Read => CliFault::Read,
        SystemError::Memory => CliFault::Memory,
    }
}

// The system of a text. It is never freed, so that a handle can borrow it.
fn load_system(alloc: Global, text: &[u8]) -> Result<&'static System, CliFault> {
    let system = match read_system(alloc, text) {
        Ok(system) => system,
        Err(error) => return Err(fault_of(error)),
    };
    let Ok(system) = Box::new(alloc, system) else {
        return Err(CliFault::Memory);
    };
    Ok(Box::leak(system))
}

// An auditor of the system of a text, before the first event.
fn opened(alloc: Global, system: &[u8], tolerances: Tolerances) -> Result<Content, CliFault>
    ensures { IfOk result (λ content. IsNewLog tolerances (Some content)) }
{
    let system = load_system(alloc, system)?;
    let auditor = LogAuditor::with_room(alloc, system, tolerances)?;
    Ok(Content::Log(auditor))
}

/// Makes an auditor of the logs of a system in a handle that holds nothing. If the answer isn't 0
/// it still holds nothing.
#[unsafe(no_mangle)]
pub extern "C" fn msrp_log_new(
    alloc: Global,
    system: &[u8],
    tolerances: &MsrpTolerances,
    log: &mut MsrpHandle,
    found: &mut MsrpFound,
) -> u32
    ensures opens { log.old.value ≡ None → OpensLog (tolerances_of tolerances.now) (is_long system.now) log.new.value found.new result }
    ensures misuse { IsSome log.old.value → IsMisuse log.old.value log.new.value found.new result }
{
    if log.is_used(alloc) {
        return tell(Err(CliFault::Usage), found);
    }
    if is_long(system) {
        return tell(Err(CliFault::Read), found);
    }
    let made = opened(alloc, system, tolerances_of(tolerances));
    let what = open(alloc, made, log);
    tell(unfailed(what), found)
}

// Rules are numbered from 1 in their order.
fn rule_number(rule: LogRule) -> u32
    ensures { result ≡ log_rule_number rule }
{
    rule as u32 + 1
}

// And so is what a log lacks.
fn missing_number(missing: Missing) -> u32
    ensures { result ≡ missing_number missing }
{
    missing as u32 + 1
}

// Writes what a log shows, and returns the status; nothing was judged after wrong use.
fn tell_log(what: Option<Result<(), Finding>>, found: &mut MsrpFound) -> u32
    ensures { TellsLog what found.new result }
{
    *found = NOTHING;
    match what {
        Some(Ok(())) => GOOD,
        Some(Err(Finding::Fault(rule))) => {
            found.rule = rule_number(rule);
            FAULT
        }
        Some(Err(Finding::Incomplete(missing))) => {
            found.trace_code = missing_number(missing);
            REFUSED
        }
        None => USAGE,
    }
}

// The next event of the log whose auditor a handle holds.
fn feed(content: &mut Content, event: Event) -> Option<Result<(), Finding>>
    ensures fed { (system : PlanModel) (tolerances : Tolerated) (events : List LogEvent) → HoldsLog system tolerances events (Some content.old) → HoldsLog system tolerances (events ++ event ∷ []) (Some content.new) }
    ensures found { (system : PlanModel) (tolerances : Tolerated) (events : List LogEvent) → HoldsLog system tolerances events (Some content.old) → result ≡ Some (answer_of (finding_in system tolerances (events ++ event ∷ []))) }
    ensures other { log_in (Some content.old) ≡ None → (content.new ≡ content.old) × (result ≡ None) }
{
    match content {
        Content::Log(auditor) => Some(auditor.feed(event)),
        _ => None,
    }
}

/// Takes the next event: what the events so far show first, if they show anything.
#[unsafe(no_mangle)]
pub extern "C" fn msrp_log_feed(
    alloc: Global,
    log: &mut MsrpHandle,
    event: &MsrpLogEvent,
    found: &mut MsrpFound,
) -> u32
    ensures fed { (system : PlanModel) (tolerances : Tolerated) (events : List LogEvent) (next : LogEvent) → HoldsLog system tolerances events log.old.value → event_of event.now ≡ Some next → HoldsLog system tolerances (events ++ next ∷ []) log.new.value }
    ensures answer { (system : PlanModel) (tolerances : Tolerated) (events : List LogEvent) (next : LogEvent) → HoldsLog system tolerances events log.old.value → event_of event.now ≡ Some next → TellsLog (Some (answer_of (finding_in system tolerances (events ++ next ∷ [])))) found.new result }
    ensures no_event { event_of event.now ≡ None → (log.new.value ≡ log.old.value) × TellsLog None found.new result }
    ensures misuse { log_in log.old.value ≡ None → (log.new.value ≡ log.old.value) × TellsLog None found.new result }
{
    let Some(event) = event_of(event) else {
        return tell_log(None, found);
    };
    let Some(mut content) = log.take(alloc) else {
        return tell_log(None, found);
    };
    let what = feed(&mut content, event);
    *log = MsrpHandle::held(content);
    tell_log(what, found)
}

// What the log whose auditor a handle holds shows so far.
fn end(content: &Content) -> Option<Result<(), Finding>>
    ensures found { (system : PlanModel) (tolerances : Tolerated) (events : List LogEvent) → HoldsLog system tolerances events (Some content.now) → result ≡ Some (answer_of (finding_in system tolerances events)) }
    ensures other { log_in (Some content.now) ≡ None → result ≡ None }
{
    match content {
        Content::Log(auditor) => Some(auditor.end()),
        _ => None,
    }
}

/// What the events so far show first, if they show anything. Events may be fed after it.
#[unsafe(no_mangle)]
pub extern "C" fn msrp_log_end(alloc: Global, log: &mut MsrpHandle, found: &mut MsrpFound) -> u32
    ensures same { log.new.value ≡ log.old.value }
    ensures answer { (system : PlanModel) (tolerances : Tolerated) (events : List LogEvent) → HoldsLog system tolerances events log.old.value → TellsLog (Some (answer_of (finding_in system tolerances events))) found.new result }
    ensures misuse { log_in log.old.value ≡ None → TellsLog None found.new result }
{
    let Some(content) = log.take(alloc) else {
        return tell_log(None, found);
    };
    let what = end(&content);
    *log = MsrpHandle::held(content);
    tell_log(what, found)
}

/// Gives the auditor's memory back, but for that of the system.
#[unsafe(no_mangle)]
pub extern "C" fn msrp_log_free(alloc: Global, log: &mut MsrpHandle)
    ensures { log.new.value ≡ None }
{
    let _freed = log.take(alloc);
}
