//! A trace in the format of another tool.
ghost use Rattle.std.specs.Prelude.{◌≡◌, ◌⊎◌};
ghost use Rattle.msrp_plan.specs.Common.{[], true, Some, Err, IfErr, WroteSome};
ghost use Rattle.msrp_view_engine.specs.Common.{Ends, HasFed, IsVerdict, OfText, OfTexts, ReadsBoth, Told, finding, is_audit_fault, is_trace_fault, rows_left, rows_of};
ghost use Rattle.msrp_view_engine.specs.Answers.{ExportAnswers};

use crate::words::answer_to;
use msrp_audit::Auditor;
use msrp_engine::{CliFault, JudgedRows, Judgement, settled, write_answer};
use msrp_export::{Exporter, Format};
use msrp_levels::Levels;
use msrp_plan::bytes::{Sink, Source};
use msrp_plan::{Fault, Plan};
use msrp_text::read_plan;
use msrp_trace::TraceReader;
use std::alloc::Global;
use std::io::{Read, Write};

// Writes the rows that are left, and answers the verdict. None is read after a faulty one.
fn export_rows<T: Read, W: Write>(
    alloc: Global,
    plan: &Plan,
    rows: &mut JudgedRows<'_, '_, T>,
    out: &mut Sink<W>,
    format: Format,
) -> Result<Result<(), Fault>, CliFault>
    requires plan { rows.old.auditor.plan ≡ plan.now }
    requires fed { HasFed rows.old.auditor [] }
    ensures found { (told : Told) → rows_left T.remaining rows.old ≡ Some told
        → (result ≡ Err CliFault.Read) ⊎ (result ≡ Err CliFault.Memory) ⊎ (result ≡ finding plan.now told) }
    ensures wrote { WroteSome W.contents out.old out.new }
    ensures faults { IfErr result (λ fault. is_trace_fault fault ≡ true) }
{
    let mut exporter = Exporter::new(alloc, plan, format);
    exporter.head(out)?;
    loop {
        match rows.next_row()? {
            Judgement::Legal(row) => exporter.row(out, row)?,
            Judgement::Broken(row, broken) => {
                exporter.end(out, Err(broken.fault), Some(row))?;
                return Ok(Err(broken.fault));
            }
            Judgement::End => {
                let found = rows.auditor().end();
                exporter.end(out, found, None)?;
                return Ok(found);
            }
        }
    }
}

// Writes the rows of a trace's text, and what is found in them. What ends the reading early may be
// reported as a failed read.
#[tactic(auto, using(crate::proofs::Answering::writes))]
fn export_all<T: Read, W: Write>(
    alloc: Global,
    plan: &Plan,
    trace: &mut Source<T>,
    out: &mut Sink<W>,
    format: Format,
) -> Result<Result<(), Fault>, CliFault>
    ensures found { OfText T.remaining trace.old result (λ records. result ≡ finding plan.now (rows_of plan.now records)) }
    ensures wrote { WroteSome W.contents out.old out.new }
    ensures faults { IfErr result (λ fault. is_trace_fault fault ≡ true) }
{
    let levels = Levels::of(alloc, plan)?;
    let auditor = Auditor::with_room(alloc, plan, &levels)?;
    let reader = TraceReader::new(alloc, trace, plan)?;
    let mut rows = JudgedRows::new(plan, auditor, reader);
    let found = export_rows(alloc, plan, &mut rows, out, format);
    drop(rows);
    found
}

/// Reads a plan and a trace from any source, and writes the trace in a format: all of a legal run,
/// or else the rows before the first that violates a rule, and the fault. The answer is the exit
/// status of an audit, 0 or 1.
///
/// Each row is judged and written as it is read. So if a record of the trace is refused, or a read
/// fails, the rows before it may have been written. Of a refused plan nothing is.
#[tactic(auto, using(crate::proofs::Answering::writes))]
pub fn export_text<P: Read, T: Read, W: Write>(
    alloc: Global,
    plan: &mut Source<P>,
    trace: &mut Source<T>,
    out: &mut Sink<W>,
    format: Format,
) -> Result<u8, CliFault>
    ensures answer { OfTexts P.remaining T.remaining plan.old trace.old result (λ plan records. ExportAnswers plan records out.old out.new result) }
    ensures wrote { WroteSome W.contents out.old out.new }
    ensures reads { ReadsBoth P.remaining plan.old plan.new trace.old trace.new result }
    ensures ends { Ends IsVerdict (λ fault. is_audit_fault fault ≡ true) out.new result }
{
    let plan = read_plan(alloc, plan)?;
    let found = export_all(alloc, &plan, trace, out, format);
    let found = settled(found, trace)?;
    write_answer(out, &[], answer_to(Ok(found)))
}
