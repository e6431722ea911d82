//! The result of a call: its status, its numbers, and a text in the caller's buffer.
ghost use Rattle.std.specs.Prelude.{◌≡◌, ◌<◌, ◌||◌};
ghost use Rattle.msrp_plan.specs.Common.{true, false};
ghost use Rattle.msrp_c.specs.Answers.{Hands, HandsOver, Puts, Tells, is_long, numbers_of, or_memory, rule_number, status_told, unfailed};

use msrp_audit::{Fault, Rule};
use msrp_engine::{CliFault, Made, exit_of};
use msrp_plan::bytes::BYTE_LIMIT;

/// The numbers of a call's result; 0 for those that don't apply.
#[repr(C)]
#[derive(Clone, Copy, Debug, PartialEq, Eq)]
pub struct MsrpFound {
    /// The first row that violates a rule, counted from 1.
    pub row: u32,
    /// The number after A of the lowest rule that it violates.
    pub rule: u32,
    /// The number after P of the plan's refusal.
    pub plan_code: u32,
    /// The number after R of the trace's refusal.
    pub trace_code: u32,
    /// The refused record, counted from 1.
    pub number: u32,
}

/// No result.
pub(crate) const NOTHING: MsrpFound = MsrpFound {
    row: 0,
    rule: 0,
    plan_code: 0,
    trace_code: 0,
    number: 0,
};

/// The call has done its task.
pub(crate) const GOOD: u32 = 0;

/// A rule is violated.
pub(crate) const FAULT: u32 = 1;

/// What is judged is refused.
pub(crate) const REFUSED: u32 = 2;

/// The call was wrong.
pub(crate) const USAGE: u32 = 3;

/// Out of memory.
pub(crate) const MEMORY: u32 = 4;

// A text doesn't fit into the buffer.
const ROOM: u32 = 6;

/// It is too early.
pub(crate) const WAIT: u32 = 7;

/// None is left.
pub(crate) const DONE: u32 = 8;

// The rule's number: rules are declared in order.
fn rule_number(rule: Rule) -> u32
    ensures { result ≡ rule_number rule }
{
    rule as u32 + 1
}

// The exit status of a result.
fn status_told(what: Result<Result<(), Fault>, CliFault>) -> u32
    ensures { result ≡ status_told what }
{
    match what {
        Ok(Ok(())) => 0,
        Ok(Err(_)) => 1,
        Err(fault) => u32::from(exit_of(&Err(fault))),
    }
}

// The numbers of a result.
fn numbers_of(what: Result<Result<(), Fault>, CliFault>) -> MsrpFound
    ensures { result ≡ numbers_of what }
{
    match what {
        Ok(Err(fault)) => MsrpFound {
            row: fault.row,
            rule: rule_number(fault.rule),
            ..NOTHING
        },
        Err(CliFault::Plan { code, number }) => MsrpFound {
            plan_code: code,
            number,
            ..NOTHING
        },
        Err(CliFault::Trace { code, number }) => MsrpFound {
            trace_code: code,
            number,
            ..NOTHING
        },
        _ => NOTHING,
    }
}

/// Writes a result's numbers, and returns its status.
pub(crate) fn tell(what: Result<Result<(), Fault>, CliFault>, found: &mut MsrpFound) -> u32
    ensures { Tells what found.new result }
{
    // Without a branch of their own, good rows would pay for those that aren't.
    if let Ok(Ok(())) = what {
        *found = NOTHING;
        return GOOD;
    }
    *found = numbers_of(what);
    status_told(what)
}

/// Whether a text is too long to be read.
pub(crate) fn is_long(text: &[u8]) -> bool
    ensures { result ≡ is_long text.now }
{
    text.len() >= BYTE_LIMIT as usize
}

/// Whether one of two texts is too long.
pub(crate) fn are_long(plan: &[u8], trace: &[u8]) -> bool
    ensures { result ≡ (is_long plan.now || is_long trace.now) }
{
    is_long(plan) || is_long(trace)
}

/// The fault of a call whose texts aren't too long. Then no read fails, and a vector takes each
/// text that memory suffices for; if one failed all the same, it would be reported as memory.
pub(crate) fn or_memory(fault: CliFault) -> CliFault
    ensures { result ≡ or_memory fault }
{
    match fault {
        CliFault::Read | CliFault::Write => CliFault::Memory,
        fault => fault,
    }
}

/// The result of a call whose texts aren't too long.
pub(crate) fn unfailed<T>(made: Result<T, CliFault>) -> Result<T, CliFault>
    ensures { result ≡ unfailed made }
{
    match made {
        Ok(made) => Ok(made),
        Err(fault) => Err(or_memory(fault)),
    }
}

// Copies a text to the front of the buffer if it fits; whether it does.
fn put_text(made: &[u8], text: &mut [u8], needed: &mut usize) -> bool
    ensures { Puts made.now text.old text.new needed.new result }
{
    *needed = made.len();
    if made.len() > text.len() {
        return false;
    }
    text[..made.len()].copy_from_slice(made);
    true
}

/// Hands a text over, with the result.
pub(crate) fn hand_text(
    what: Result<Result<(), Fault>, CliFault>,
    made: &[u8],
    text: &mut [u8],
    needed: &mut usize,
    found: &mut MsrpFound,
) -> u32
    ensures { HandsOver what made.now text.old text.new needed.new found.new result }
{
    *found = numbers_of(what);
    if put_text(made, text, needed) {
        status_told(what)
    } else {
        ROOM
    }
}

/// Hands over the text that was made of rows, or reports why there is none.
pub(crate) fn hand_over(
    made: Result<Made, CliFault>,
    text: &mut [u8],
    needed: &mut usize,
    found: &mut MsrpFound,
) -> u32
    ensures { Hands made text.old text.new needed.new found.new result }
{
    match made {
        Ok(made) => hand_text(Ok(made.found), made.text.as_slice(), text, needed, found),
        Err(fault) => hand_text(Err(fault), &[], text, needed, found),
    }
}
