//! The verdict on a whole trace by independent pieces: the earliest fault of any piece counts.
ghost use Rattle.std.specs.Prelude.{◌≡◌, ◌≤◌, ◌<◌, ◌*◌, ◌+◌};
ghost use Rattle.msrp_plan.specs.Common.{nat_lt, IfOk, List, length, take, most_rows, fault_in, verdict};
ghost use Rattle.msrp_plan.specs.declared.rows.Row.{Row as TraceRow};
ghost use Rattle.msrp_audit.specs.Audits.{answer_of};
ghost use Rattle.msrp_audit.specs.Inside.Pieces.{broken_in, earlier_of, earliest_of, fault_order, length_fault_of, piece_with, pieces_of, rule_number, TellsFirst};

use crate::gathered::{Gathered, Rows};
use crate::pieces::{judge, pieces};
use msrp_levels::Levels;
use msrp_plan::{Fault, Memory, Plan, Rule, Trace};
use rayon::prelude::*;
use std::alloc::Global;
use std::thread::Threads;

fn rule_number(rule: Rule) -> u32
    ensures { result ≡ rule_number rule }
{
    rule as u32 + 1
}

// Whether the fault is before the other: in an earlier row, or in the same row with a lower rule.
fn comes_before(fault: Fault, other: Fault) -> bool
    ensures { result ≡ nat_lt (fault_order fault) (fault_order other) }
{
    fault.row < other.row
        || fault.row == other.row && rule_number(fault.rule) < rule_number(other.rule)
}

// The earlier of two faults, if any.
fn earlier(first: Option<Fault>, other: Option<Fault>) -> Option<Fault>
    ensures { result ≡ earlier_of first other }
{
    match (first, other) {
        (Some(fault), Some(next)) if !comes_before(next, fault) => first,
        (Some(_), None) => first,
        _ => other,
    }
}

// The earliest of the faults.
fn earliest(faults: &[Option<Fault>]) -> Option<Fault>
    ensures { result ≡ earliest_of faults.now }
{
    let mut first = None;
    for fault in faults {
        first = earlier(first, *fault);
    }
    first
}

// The first fault of rows, at most the plan's turns: the earliest of the pieces' faults.
fn first_fault(
    rt: &(impl Threads + Sync),
    alloc: Global,
    plan: &Plan,
    levels: &Levels,
    rows: &Rows<'_>,
) -> Result<Option<Fault>, Memory>
    requires levels { levels.now ≡ plan.now }
    requires rows { length rows.now ≤ plan.now.cores * plan.now.ticks }
    ensures { IfOk result (λ fault. fault ≡ fault_in plan.now rows.now) }
{
    let faults = (0..pieces(plan))
        .into_par_iter()
        .with_min_len(1)
        .map(
            |number: u32| -> Result<Option<Fault>, Memory>
                requires { (number < pieces_of plan.now) × (levels.now ≡ plan.now) × (length rows.now ≤ plan.now.cores * plan.now.ticks) }
                ensures { IfOk result (TellsFirst plan.entry.now (broken_in plan.entry.now (piece_with plan.entry.now number)) rows.entry.now) }
            { judge(alloc, plan, levels, rows, number) },
        )
        .collect::<Result<Vec<Option<Fault>>, Memory>>(rt, alloc);
    match faults {
        Ok(Ok(found)) => Ok(earliest(&found)),
        _ => Err(Memory),
    }
}

// The fault of the length, if no expected row has one: a row is missing, or there is one too many.
fn length_fault(due: u32, rows: usize) -> Result<(), Fault>
    requires { due ≤ most_rows }
    ensures { result ≡ answer_of (length_fault_of due rows) }
{
    if rows < due as usize {
        return Err(Fault {
            row: rows as u32 + 1,
            rule: Rule::A6,
        });
    }
    if rows > due as usize {
        return Err(Fault {
            row: due + 1,
            rule: Rule::A7,
        });
    }
    Ok(())
}

// The number of rows of a run: each core has a turn in each tick.
fn due_rows(plan: &Plan) -> u32
    ensures rows { result ≡ plan.now.cores * plan.now.ticks }
    ensures few { result ≤ most_rows }
{
    plan.cores() * plan.ticks()
}

// The verdict on this many rows; the judged ones are the first of them, at most a run's.
fn audit_rows(
    rt: &(impl Threads + Sync),
    alloc: Global,
    plan: &Plan,
    judged: &Rows<'_>,
    count: usize,
) -> Result<Result<(), Fault>, Memory>
    requires { length judged.now ≤ plan.now.cores * plan.now.ticks }
    ensures { (rows : List TraceRow) → count ≡ length rows → judged.now ≡ take (plan.now.cores * plan.now.ticks) rows → IfOk result (λ answer. answer ≡ answer_of (verdict plan.now rows)) }
{
    let levels = Levels::of(alloc, plan)?;
    match first_fault(rt, alloc, plan, &levels, judged)? {
        Some(fault) => Ok(Err(fault)),
        None => Ok(length_fault(due_rows(plan), count)),
    }
}

/// The verdict on a trace, equal to [`audit`](crate::audit)'s. The pieces are some ticks' turns, a
/// core's rows, and the rows on a global resource; `rayon` shares them among threads. [`Memory`]
/// only if memory runs out.
pub fn audit_parallel(
    rt: &(impl Threads + Sync),
    alloc: Global,
    plan: &Plan,
    trace: &Trace,
) -> Result<Result<(), Fault>, Memory>
    ensures { IfOk result (λ answer. answer ≡ answer_of (verdict plan.now trace.now.rows.items)) }
{
    let rows = trace.rows.len();
    let judged = Rows::of(&trace.rows[..rows.min(due_rows(plan) as usize)]);
    audit_rows(rt, alloc, plan, &judged, rows)
}

/// The verdict on gathered rows, as [`audit_parallel`] gives it on a trace of them.
pub fn audit_gathered(
    rt: &(impl Threads + Sync),
    alloc: Global,
    plan: &Plan,
    gathered: &Gathered,
) -> Result<Result<(), Fault>, Memory>
    ensures { IfOk result (λ answer. answer ≡ answer_of (verdict plan.now gathered.now)) }
{
    let judged = gathered.first(due_rows(plan) as usize);
    audit_rows(rt, alloc, plan, &judged, gathered.len())
}
