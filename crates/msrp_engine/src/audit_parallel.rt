//! The audit of a trace's text in pieces: the rows are gathered, then judged in parallel.
ghost use Rattle.std.specs.Prelude.{◌≡◌, ◌<◌, ◌≤◌};
ghost use Rattle.msrp_plan.specs.Common.{ℕ, List, [], true, Some, IfErr};
ghost use Rattle.msrp_audit.specs.Audits.{HasFed};
ghost use Rattle.msrp_plan.specs.declared.rows.Row.{Row as TraceRow};
ghost use Rattle.msrp_trace.specs.Reading.{Told, rows_of};
ghost use Rattle.msrp_engine.specs.Answered.{Answered, OfText, OfTexts, ReadsBoth};
ghost use Rattle.msrp_engine.specs.AuditText.{AuditAnswers};
ghost use Rattle.msrp_engine.specs.Findings.{finding, finding_of};
ghost use Rattle.msrp_engine.specs.Judging.{rows_left};
ghost use Rattle.msrp_engine.specs.Inside.Gathered.{IsGathered, found_in, is_missing};
ghost use Rattle.msrp_faults.specs.Outcomes.{is_trace_fault, is_audit_fault};

use crate::audit::write_verdict;
use crate::judged::JudgedRows;
use crate::reading::settled;
use msrp_audit::{Auditor, Gathered, audit_gathered};
use msrp_faults::CliFault;
use msrp_levels::Levels;
use msrp_plan::bytes::{Sink, Source};
use msrp_plan::{Fault, Plan, Rule};
use msrp_text::read_plan;
use msrp_trace::TraceReader;
use std::alloc::Global;
use std::io::{Read, Write};
use std::thread::Threads;

// Gathers at most `most` of the remaining rows, and returns what ended the reading early.
fn gather_rows<T: Read>(
    rows: &mut JudgedRows<'_, '_, T>,
    gathered: &mut Gathered,
    most: usize,
) -> Result<(), CliFault>
    requires { gathered.old ≡ [] }
    ensures gathered { (told : Told) → rows_left T.remaining rows.old ≡ Some told → IsGathered most told gathered.new result }
    ensures faults { IfErr result (λ fault. is_trace_fault fault ≡ true) }
{
    for _row in 0..most {
        match rows.next_row()?.row() {
            Some(row) => gathered.push(row)?,
            None => return Ok(()),
        }
    }
    Ok(())
}

fn is_missing(rule: Rule) -> bool
    ensures { result ≡ is_missing rule }
{
    matches!(rule, Rule::A6)
}

// The finding on gathered rows with this verdict. After an early end no row counts as missing.
fn found_in(
    judged: Result<(), Fault>,
    ended: Result<(), CliFault>,
) -> Result<Result<(), Fault>, CliFault>
    requires faults { IfErr ended (λ fault. is_trace_fault fault ≡ true) }
    ensures found { result ≡ found_in judged ended }
    ensures faults { IfErr result (λ fault. is_trace_fault fault ≡ true) }
{
    match ended {
        Ok(()) => Ok(judged),
        Err(fault) => match judged {
            Ok(()) => Err(fault),
            Err(found) => {
                if is_missing(found.rule) {
                    Err(fault)
                } else {
                    Ok(Err(found))
                }
            }
        },
    }
}

// The verdict on a trace's text. An early end may be reported as a failed read.
fn judge_all<T: Read>(
    rt: &(impl Threads + Sync),
    alloc: Global,
    plan: &Plan,
    trace: &mut Source<T>,
) -> Result<Result<(), Fault>, CliFault>
    ensures found { OfText T.remaining trace.old result (λ records. result ≡ finding plan.now (rows_of plan.now records)) }
    ensures faults { IfErr result (λ fault. is_trace_fault fault ≡ true) }
{
    // One row more than a run has is a fault, whatever follows.
    let most = plan.cores() as usize * plan.ticks() as usize + 1;
    let mut gathered = Gathered::with_room(alloc, plan)?;
    let levels = Levels::of(alloc, plan)?;
    let auditor = Auditor::with_room(alloc, plan, &levels)?;
    let reader = TraceReader::new(alloc, trace, plan)?;
    let mut rows = JudgedRows::new(plan, auditor, reader);
    let ended = gather_rows(&mut rows, &mut gathered, most);
    drop(rows);
    let judged = audit_gathered(rt, alloc, plan, &gathered)?;
    found_in(judged, ended)
}

// The verdict on any trace of a plan.
fn judge_texts<P: Read, T: Read>(
    rt: &(impl Threads + Sync),
    alloc: Global,
    plan: &mut Source<P>,
    trace: &mut Source<T>,
) -> Result<Result<(), Fault>, CliFault>
    ensures found { OfTexts P.remaining T.remaining plan.old trace.old result (λ plan records. result ≡ finding_of plan records) }
    ensures reads { ReadsBoth P.remaining plan.old plan.new trace.old trace.new result }
    ensures faults { IfErr result (λ fault. is_audit_fault fault ≡ true) }
    ensures unwritten { ¬ (result ≡ Err CliFault.Write) }
{
    let plan = read_plan(alloc, plan)?;
    let found = judge_all(rt, alloc, &plan, trace);
    settled(found, trace)
}

/// Reads a plan and any trace of it, and writes the verdict, with the answers of
/// [`audit_text`](crate::audit::audit_text). The rows are gathered, at most one more than a run
/// has, and judged in pieces, which may run in parallel.
///
/// So it may read on after the first fault, which still decides.
pub fn audit_parallel_text<P: Read, T: Read, W: Write>(
    rt: &(impl Threads + Sync),
    alloc: Global,
    plan: &mut Source<P>,
    trace: &mut Source<T>,
    out: &mut Sink<W>,
) -> Result<u8, CliFault>
    // If the readers' bytes are known, no read failed and memory sufficed, the answer is the one
    // for the plan and the rows in those bytes.
    ensures answer { OfTexts P.remaining T.remaining plan.old trace.old result (λ plan records. AuditAnswers W.contents (finding_of plan records) out.old out.new result) }

    // For any readers.
    ensures always { Answered P.remaining (λ fault. is_audit_fault fault ≡ true) plan.old plan.new trace.old trace.new out.old out.new result }
{
    let found = judge_texts(rt, alloc, plan, trace)?;
    write_verdict(out, found)
}
