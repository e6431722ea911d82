//! The report of a trace's text: rows are judged and counted as they are read.
ghost use Rattle.std.specs.Prelude.{◌≡◌, ◌<◌, ◌⊎◌};
ghost use Rattle.msrp_plan.specs.Common.{List, [], true, false, Some, Ok, Err, IfOk, IfErr, length, sink_failed};
ghost use Rattle.msrp_audit.specs.Audits.{HasFed};
ghost use Rattle.msrp_plan.specs.declared.rows.Row.{Row as TraceRow};
ghost use Rattle.msrp_report.specs.Lines.{lines_of};
ghost use Rattle.msrp_report.specs.Reports.{HasCounted, SomeCounted};
ghost use Rattle.msrp_report.specs.ReportText.{report_text};
ghost use Rattle.msrp_trace.specs.Reading.{Told, rows_of};
ghost use Rattle.msrp_engine.specs.Judging.{rows_left};
ghost use Rattle.msrp_engine.specs.Answered.{Answered, OfText, OfTexts, ReadsBoth};
ghost use Rattle.msrp_faults.specs.Outcomes.{is_trace_fault, is_audit_fault};
ghost use Rattle.msrp_engine.specs.Reports.{IsReportOf, IsReported, ReportAnswers, Reports, WritesShown, verdict_told};

use crate::audit::write_verdict;
use crate::judged::{JudgedRows, Judgement};
use crate::made::Made;
use crate::reading::settled;
use msrp_audit::Auditor;
use msrp_faults::{CliFault, gathered_text, write_answer};
use msrp_levels::Levels;
use msrp_plan::bytes::{Sink, Source};
use msrp_plan::{Fault, Plan};
use msrp_report::{Counter, Report, write_report};
use msrp_text::read_plan;
use msrp_trace::TraceReader;
use std::alloc::Global;
use std::io::{Read, Write};

// The report of the counted rows, if their verdict is good.
fn ended(counter: Counter<'_>, found: Result<(), Fault>) -> Result<Report, Fault>
    requires { SomeCounted counter }
    ensures found { verdict_told (Ok result) ≡ Ok found }
    ensures lines { (rows : List TraceRow) → HasCounted counter.entry rows → IfOk result (λ report. report.lines.items ≡ lines_of counter.entry.plan.now rows) }
    ensures tasks { IfOk result (λ report. length report.lines.items ≡ length counter.entry.plan.now.tasks) }
{
    found?;
    Ok(counter.end())
}

// The report of the remaining rows if they are a legal run, otherwise the verdict.
#[inline(never)]
fn report_rows<T: Read>(
    mut counter: Counter<'_>,
    rows: &mut JudgedRows<'_, '_, T>,
) -> Result<Result<Report, Fault>, CliFault>
    requires plan { rows.old.auditor.plan ≡ counter.plan.now }
    requires fed { HasFed rows.old.auditor [] }
    requires counted { HasCounted counter [] }
    ensures found { (told : Told) → rows_left T.remaining rows.old ≡ Some told
        → (result ≡ Err CliFault.Read) ⊎ (result ≡ Err CliFault.Memory) ⊎ Reports rows.old.auditor.plan told result }
    ensures lines { IfOk result (λ found. IfOk found (λ report. length report.lines.items ≡ length rows.old.auditor.plan.tasks)) }
    ensures faults { IfErr result (λ fault. is_trace_fault fault ≡ true) }
{
    loop {
        match rows.next_row()? {
            Judgement::Legal(row) => counter.count(row),
            Judgement::Broken(_row, broken) => return Ok(Err(broken.fault)),
            Judgement::End => return Ok(ended(counter, rows.auditor().end())),
        }
    }
}

// The report of a trace's text. Any early end of reading may be reported as a failed read.
fn report_all<T: Read>(
    alloc: Global,
    plan: &Plan,
    trace: &mut Source<T>,
) -> Result<Result<Report, Fault>, CliFault>
    ensures found { OfText T.remaining trace.old result (λ records. Reports plan.now (rows_of plan.now records) result) }
    ensures lines { IfOk result (λ found. IfOk found (λ report. length report.lines.items ≡ length plan.now.tasks)) }
    ensures faults { IfErr result (λ fault. is_trace_fault fault ≡ true) }
{
    let levels = Levels::of(alloc, plan)?;
    let auditor = Auditor::with_room(alloc, plan, &levels)?;
    let counter = Counter::with_room(alloc, plan, &levels)?;
    let reader = TraceReader::new(alloc, trace, plan)?;
    let mut rows = JudgedRows::new(plan, auditor, reader);
    let found = report_rows(counter, &mut rows);
    drop(rows);
    found
}

// The text of a report.
fn made_of(alloc: Global, plan: &Plan, report: &Report) -> Result<Made, CliFault>
    requires { length report.now.lines.items ≡ length plan.now.tasks }
    ensures text { IfOk result (λ made. made.text.items ≡ report_text plan.now report.now.lines.items) }
    ensures found { IfOk result (λ made. made.found ≡ Ok tt) }
    ensures memory { IfErr result (λ fault. fault ≡ CliFault.Memory) }
{
    let mut text = Sink::new(Vec::new(alloc));
    let _written = write_report(&mut text, plan, report);
    Ok(Made {
        text: gathered_text(text)?,
        found: Ok(()),
    })
}

// The text of the report on a trace of an accepted plan, and the verdict; without a run it is
// empty.
fn report_made<T: Read>(alloc: Global, plan: &Plan, trace: &mut Source<T>) -> Result<Made, CliFault>
    ensures found { OfText T.remaining trace.old result (λ records. IsReported plan.now (rows_of plan.now records) result) }
    ensures faults { IfErr result (λ fault. is_trace_fault fault ≡ true) }
{
    match report_all(alloc, plan, trace)? {
        Err(fault) => Ok(Made {
            text: Vec::new(alloc),
            found: Err(fault),
        }),
        Ok(report) => made_of(alloc, plan, &report),
    }
}

/// The text of the report on any trace of a plan, or the first fault and no text.
///
/// Rows are judged and counted as they are read, and one of each core is stored. A refused plan is
/// reported whatever the trace is.
pub fn report_of_texts<P: Read, T: Read>(
    alloc: Global,
    plan: &mut Source<P>,
    trace: &mut Source<T>,
) -> Result<Made, CliFault>
    ensures found { OfTexts P.remaining T.remaining plan.old trace.old result (λ plan records. IsReportOf plan records result) }
    ensures reads { ReadsBoth P.remaining plan.old plan.new trace.old trace.new result }
    ensures faults { IfErr result (λ fault. is_audit_fault fault ≡ true) }
    ensures unwritten { ¬ (result ≡ Err CliFault.Write) }
{
    let plan = read_plan(alloc, plan)?;
    let made = report_made(alloc, &plan, trace);
    settled(made, trace)
}

// Writes the text, or the verdict in its place if it isn't good, and returns the status.
fn write_shown<W: Write>(
    out: &mut Sink<W>,
    text: &[u8],
    found: Result<(), Fault>,
) -> Result<u8, CliFault>
    ensures answer { WritesShown W.contents text.now found out.old out.new result }
    ensures good { IfOk result (λ status. ((status ≡ 0) ⊎ (status ≡ 1)) × (sink_failed out.new ≡ false)) }
    ensures fault { IfErr result (λ fault. (fault ≡ CliFault.Write) × (sink_failed out.new ≡ true)) }
{
    match found {
        Err(fault) => write_verdict(out, Err(fault)),
        Ok(()) => write_answer(out, text, Ok(0)),
    }
}

/// Reads a plan and any trace of it, and writes the trace's report with status 0; if the trace
/// isn't a legal run, it writes its first fault with status 1, as an audit does.
///
/// Nothing is written before the whole trace is read and found legal and all memory allocated: so
/// on any fault but a write fault, nothing was written. Rows are read as by [`report_of_texts`].
pub fn report_text<P: Read, T: Read, W: Write>(
    alloc: Global,
    plan: &mut Source<P>,
    trace: &mut Source<T>,
    out: &mut Sink<W>,
) -> Result<u8, CliFault>
    // If the readers' bytes are known, no read failed and memory sufficed, the answer is the one
    // for the plan and the rows in those bytes.
    ensures answer { OfTexts P.remaining T.remaining plan.old trace.old result (λ plan records. ReportAnswers W.contents plan records out.old out.new result) }

    // For any readers.
    ensures always { Answered P.remaining (λ fault. is_audit_fault fault ≡ true) plan.old plan.new trace.old trace.new out.old out.new result }
{
    let made = report_of_texts(alloc, plan, trace)?;
    write_shown(out, made.text.as_slice(), made.found)
}
