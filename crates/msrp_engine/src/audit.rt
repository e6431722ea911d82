//! The audit of a trace's text: each row is judged as it is read.
ghost use Rattle.std.specs.Prelude.{◌≡◌, ◌⊎◌};
ghost use Rattle.msrp_plan.specs.Common.{[], true, Some, Err, IfErr};
ghost use Rattle.msrp_audit.specs.Audits.{HasFed};
ghost use Rattle.msrp_trace.specs.Reading.{Told, rows_of};
ghost use Rattle.msrp_engine.specs.Answered.{Answered, OfText, OfTexts, ReadsBoth};
ghost use Rattle.msrp_engine.specs.AuditText.{AuditAnswers, TellsVerdict};
ghost use Rattle.msrp_engine.specs.Findings.{finding, finding_of};
ghost use Rattle.msrp_engine.specs.Judging.{rows_left};
ghost use Rattle.msrp_faults.specs.Outcomes.{is_trace_fault, is_audit_fault};

use crate::judged::{JudgedRows, Judgement};
use crate::reading::settled;
use msrp_audit::Auditor;
use msrp_faults::CliFault;
use msrp_levels::Levels;
use msrp_plan::bytes::{Sink, Source};
use msrp_plan::{Fault, Plan};
use msrp_text::read_plan;
use msrp_trace::TraceReader;
use std::alloc::Global;
use std::io::{Read, Write};

// The verdict on the remaining rows. None is read after a faulty one.
#[inline(never)]
fn judge_rows<T: Read>(rows: &mut JudgedRows<'_, '_, T>) -> Result<Result<(), Fault>, CliFault>
    requires { HasFed rows.old.auditor [] }
    ensures found { (told : Told) → rows_left T.remaining rows.old ≡ Some told
        → (result ≡ Err CliFault.Read) ⊎ (result ≡ Err CliFault.Memory) ⊎ (result ≡ finding rows.old.auditor.plan told) }
    ensures faults { IfErr result (λ fault. is_trace_fault fault ≡ true) }
{
    loop {
        match rows.next_row()? {
            Judgement::Legal(_row) => {}
            Judgement::Broken(_row, broken) => return Ok(Err(broken.fault)),
            Judgement::End => return Ok(rows.auditor().end()),
        }
    }
}

// The verdict on a trace's text. An early end may be reported as a failed read.
fn judge_all<T: Read>(
    alloc: Global,
    plan: &Plan,
    trace: &mut Source<T>,
) -> Result<Result<(), Fault>, CliFault>
    ensures found { OfText T.remaining trace.old result (λ records. result ≡ finding plan.now (rows_of plan.now records)) }
    ensures faults { IfErr result (λ fault. is_trace_fault fault ≡ true) }
{
    let levels = Levels::of(alloc, plan)?;
    let auditor = Auditor::with_room(alloc, plan, &levels)?;
    let reader = TraceReader::new(alloc, trace, plan)?;
    let mut rows = JudgedRows::new(plan, auditor, reader);
    let found = judge_rows(&mut rows);
    drop(rows);
    found
}

/// Writes a verdict, and returns its status.
pub(crate) fn write_verdict<W: Write>(
    out: &mut Sink<W>,
    found: Result<(), Fault>,
) -> Result<u8, CliFault>
    ensures { TellsVerdict W.contents found out.old out.new result }
{
    out.verdict(found);
    out.outcome()?;
    match found {
        Ok(()) => Ok(0),
        Err(_) => Ok(1),
    }
}

/// The verdict on any trace of a plan: the first row that violates a rule, with the lowest one.
///
/// Rows are judged as they are read; one of each core is stored. So a faulty row before a refused
/// record decides, and nothing is read after it. A refused plan is reported for any trace.
pub fn judge_texts<P: Read, T: Read>(
    alloc: Global,
    plan: &mut Source<P>,
    trace: &mut Source<T>,
) -> Result<Result<(), Fault>, CliFault>
    ensures found { OfTexts P.remaining T.remaining plan.old trace.old result (λ plan records. result ≡ finding_of plan records) }
    ensures reads { ReadsBoth P.remaining plan.old plan.new trace.old trace.new result }
    ensures faults { IfErr result (λ fault. is_audit_fault fault ≡ true) }
    ensures unwritten { ¬ (result ≡ Err CliFault.Write) }
{
    let plan = read_plan(alloc, plan)?;
    let found = judge_all(alloc, &plan, trace);
    settled(found, trace)
}

/// Reads a plan and any trace of it, and writes the verdict: `good` for a legal run, otherwise
/// `fault,ROW,RULE` with the first row that violates a rule, counted from 1, and the lowest rule
/// violated. Returns the exit status, 0 or 1.
///
/// Rows are judged as by [`judge_texts`].
pub fn audit_text<P: Read, T: Read, W: Write>(
    alloc: Global,
    plan: &mut Source<P>,
    trace: &mut Source<T>,
    out: &mut Sink<W>,
) -> Result<u8, CliFault>
    // If the readers' bytes are known, no read failed and memory sufficed, the answer is the one
    // for the plan and the rows in those bytes.
    ensures answer { OfTexts P.remaining T.remaining plan.old trace.old result (λ plan records. AuditAnswers W.contents (finding_of plan records) out.old out.new result) }

    // For any readers.
    ensures always { Answered P.remaining (λ fault. is_audit_fault fault ≡ true) plan.old plan.new trace.old trace.new out.old out.new result }
{
    let found = judge_texts(alloc, plan, trace)?;
    write_verdict(out, found)
}
