//! Why a trace is not legal: the verdict, the row that violates a rule, and the one expected in its
//! place.
ghost use Rattle.std.specs.Prelude.{◌≡◌, ◌⊎◌, ◌+◌};
ghost use Rattle.msrp_plan.specs.Common.{ℕ, List, [], true, Ok, Some, None, Err, IfOk, IfErr, IfSome, IsOkAnd, WroteSome};
ghost use Rattle.msrp_view_engine.specs.Common.{AreNoted, BeginsIn, Ends, HasFed, HasReadBehind, HasReadIn, IsVerdict, OfText, OfTexts, OrUnread, ReadsBoth, Told, finding, is_audit_fault, is_plan_fault, rows_left, rows_of, trace_fault_of};
ghost use Rattle.msrp_view_engine.specs.Answers.{AreOnTrace, BeginsRefused, BeginsRow, IsExplainedOf, IsJudged, IsWhyOf, WhyAnswers, is_record_fault};

use crate::words::{Outcome, Words, answer_to};
use csv::ByteRecord;
use msrp_audit::Auditor;
use msrp_engine::{
    Broken, CliFault, JudgedRows, Judgement, Made, gathered_text, settled, write_answer,
};
use msrp_levels::Levels;
use msrp_plan::bytes::{Sink, Source};
use msrp_plan::{Fault, Plan, Row};
use msrp_text::read_plan;
use msrp_trace::{TraceError, TraceReader};
use msrp_why::{Cause, Ended, Notes, RefusedRecord, RefusedRow, Why, cause_of};
use std::alloc::Global;
use std::fmt::Display;
use std::io::{Read, Write};

// The cause of a fault, or the verdict at the end with what was noted.
#[derive(Debug, Drop)]
enum Judged {
    Row(Cause),
    End(Result<(), Fault>, Notes),
}

// The line in which the record of a faulty row begins, if it is known. The first record is the
// head.
fn line_of_row<T: Read>(reader: &TraceReader<'_, T>, fault: Fault) -> Option<u64>
    ensures { (bytes : List ℕ) → HasReadIn T.remaining bytes reader.now → IfSome result (BeginsIn bytes (fault.row + 1)) }
{
    let number = fault.row.checked_add(1)?;
    reader.line_of(number)
}

// The line in which a refused record begins, if it is known.
fn line_of_refused<T: Read>(reader: &TraceReader<'_, T>, error: TraceError) -> Option<u64>
    ensures { (bytes : List ℕ) → HasReadBehind T.remaining bytes (Err error) reader.now → BeginsRefused bytes error result }
{
    match error {
        TraceError::At { number, .. } => reader.line_of(number),
        _ => None,
    }
}

// What is found in the rows that are left. None is read after a faulty one.
fn judge_rows<T: Read>(
    plan: &Plan,
    levels: &Levels<'_>,
    mut notes: Notes,
    rows: &mut JudgedRows<'_, '_, T>,
) -> Result<Judged, TraceError>
    requires plan { rows.old.auditor.plan ≡ plan.now }
    requires levels { levels.now ≡ plan.now }
    requires fed { HasFed rows.old.auditor [] }
    requires noted { AreNoted plan.now [] notes }
    ensures found { (told : Told) → rows_left T.remaining rows.old ≡ Some told → IsJudged plan.now told result }
    ensures line { (bytes : List ℕ) → HasReadIn T.remaining bytes rows.old.rows → IfOk result (BeginsRow bytes) }
    ensures read { (bytes : List ℕ) → HasReadIn T.remaining bytes rows.old.rows → IfErr result (λ error. HasReadBehind T.remaining bytes (Err error) rows.new.rows) }
{
    loop {
        match rows.next_with_state()? {
            Judgement::Legal(row) => notes.note(plan, levels, rows.state(), row),
            Judgement::Broken(row, broken) => {
                let Broken { fault, expected } = broken;
                let (auditor, state) = (rows.auditor(), rows.state());
                let line = line_of_row(rows.reader(), fault);
                let cause = cause_of(plan, auditor, notes, state, expected, row, line, fault);
                return Ok(Judged::Row(cause));
            }
            Judgement::End => return Ok(Judged::End(rows.auditor().end(), notes)),
        }
    }
}

// A verdict with these words, in memory.
fn words_with<T: Display>(alloc: Global, verdict: Result<(), Fault>, reasons: &T) -> Outcome
    ensures found { IfOk result (λ words. words.found ≡ Ok verdict) }
    ensures words { IfOk result AreOnTrace }
    ensures memory { IfErr result (λ fault. fault ≡ CliFault.Memory) }
{
    let mut text = Sink::new(Vec::new(alloc));
    text.verdict(verdict);
    text.show(reasons, &mut String::new(alloc))?;
    Ok(Words {
        text: gathered_text(text)?,
        found: Ok(verdict),
    })
}

/// The words on the fault of a row that was fed to this auditor, without what the rows before it
/// left.
pub fn why_of_row(
    alloc: Global,
    plan: &Plan,
    levels: &Levels<'_>,
    auditor: &Auditor<'_>,
    row: Row,
    broken: Broken,
) -> Outcome
    requires plan { auditor.now.plan ≡ plan.now }
    requires levels { levels.now ≡ plan.now }
    ensures found { IfOk result (λ words. words.found ≡ Ok (Err broken.fault)) }
    ensures words { IfOk result AreOnTrace }
    ensures memory { IfErr result (λ fault. fault ≡ CliFault.Memory) }
{
    let Broken { fault, expected } = broken;
    let notes = Notes::none(alloc);
    let cause = cause_of(plan, auditor, notes, None, expected, row, None, fault);
    words_with(alloc, Err(fault), &Why::new(plan, levels, None, &cause))
}

/// The words on a fed row that is not one of the plan, by the number after R of its code.
pub fn why_of_refused_row(alloc: Global, code: u32, number: u32) -> Outcome
    ensures found { IfOk result (λ words. words.found ≡ Err (CliFault.Trace code number)) }
    ensures memory { IfErr result (λ fault. fault ≡ CliFault.Memory) }
{
    let refused = RefusedRow { code, number };
    let text = format!(in alloc; "{refused}")?.into_bytes();
    let found = Err(CliFault::Trace { code, number });
    Ok(Words { text, found })
}

fn words_on_refusal(
    alloc: Global,
    plan: &Plan,
    error: TraceError,
    line: Option<u64>,
    row: &ByteRecord,
) -> Outcome
    ensures found { IfOk result (λ words. words.found ≡ Err (trace_fault_of error)) }
    ensures words { IfOk result AreOnTrace }
    ensures fault { IfErr result (λ fault. (fault ≡ CliFault.Memory) ⊎ (fault ≡ CliFault.Read)) }
{
    let TraceError::At { fault, number } = error else {
        return Err(CliFault::from(error));
    };
    let record = RefusedRecord {
        plan,
        fault,
        number,
        line,
        row,
    };
    Ok(Words {
        text: format!(in alloc; "{record}")?.into_bytes(),
        found: Err(CliFault::from(error)),
    })
}

fn explain_rows<T: Read>(
    alloc: Global,
    plan: &Plan,
    levels: &Levels<'_>,
    notes: Notes,
    rows: &mut JudgedRows<'_, '_, T>,
) -> Outcome
    requires plan { rows.old.auditor.plan ≡ plan.now }
    requires levels { levels.now ≡ plan.now }
    requires fed { HasFed rows.old.auditor [] }
    requires noted { AreNoted plan.now [] notes }
    ensures explained { (told : Told) → rows_left T.remaining rows.old ≡ Some told → OrUnread result (IsOkAnd result (λ words. words.found ≡ finding plan.now told)) }
    ensures words { IfOk result AreOnTrace }
    ensures fault { IfErr result (λ fault. (fault ≡ CliFault.Memory) ⊎ (fault ≡ CliFault.Read)) }
{
    let judged = match judge_rows(plan, levels, notes, rows) {
        Ok(judged) => judged,
        Err(error) => {
            let line = line_of_refused(rows.reader(), error);
            return words_on_refusal(alloc, plan, error, line, rows.reader().refused_record());
        }
    };
    let version = rows.reader().version();
    match &judged {
        Judged::Row(cause) => {
            let why = Why::new(plan, levels, Some(version), cause);
            words_with(alloc, Err(cause.fault), &why)
        }
        Judged::End(verdict, notes) => words_with(alloc, *verdict, &Ended(plan, version, notes)),
    }
}

/// The words on a trace of an accepted plan. What ends the reading early may be reported as a
/// failed read.
pub(crate) fn explain_all<T: Read>(alloc: Global, plan: &Plan, trace: &mut Source<T>) -> Outcome
    ensures explained { OfText T.remaining trace.old result (λ records. IsOkAnd result (λ words. words.found ≡ finding plan.now (rows_of plan.now records))) }
    ensures words { IfOk result AreOnTrace }
    ensures fault { IfErr result (λ fault. (fault ≡ CliFault.Memory) ⊎ (fault ≡ CliFault.Read)) }
{
    let levels = Levels::of(alloc, plan)?;
    let auditor = Auditor::with_room(alloc, plan, &levels)?;
    let notes = Notes::with_room(alloc, plan)?;
    let reader = match TraceReader::open(alloc, trace, plan) {
        Ok(reader) => reader,
        Err(unopened) => {
            return words_on_refusal(alloc, plan, unopened.error, unopened.line, &unopened.first);
        }
    };
    let mut rows = JudgedRows::new(plan, auditor, reader);
    let words = explain_rows(alloc, plan, &levels, notes, &mut rows);
    drop(rows);
    words
}

fn explain<P: Read, T: Read>(alloc: Global, plan: &mut Source<P>, trace: &mut Source<T>) -> Outcome
    ensures explained { OfTexts P.remaining T.remaining plan.old trace.old result (λ plan records. IsExplainedOf plan records result) }
    ensures words { IfOk result AreOnTrace }
    ensures reads { ReadsBoth P.remaining plan.old plan.new trace.old trace.new result }
    ensures faults { IfErr result (λ fault. is_plan_fault fault ≡ true) }
{
    let plan = read_plan(alloc, plan)?;
    let words = explain_all(alloc, &plan, trace);
    settled(words, trace)
}

/// The verdict on a trace from any source, and the words on it, as [`why_text`] writes them.
pub fn why_of_texts<P: Read, T: Read>(
    alloc: Global,
    plan: &mut Source<P>,
    trace: &mut Source<T>,
) -> Result<Made, CliFault>
    ensures why { OfTexts P.remaining T.remaining plan.old trace.old result (λ plan records. IsWhyOf plan records result) }
    ensures reads { ReadsBoth P.remaining plan.old plan.new trace.old trace.new result }
    ensures faults { IfErr result (λ fault. is_audit_fault fault ≡ true) }
    ensures unwritten { ¬ (result ≡ Err CliFault.Write) }
{
    let words = explain(alloc, plan, trace)?;
    let text = words.text;
    match words.found {
        Ok(found) => Ok(Made { text, found }),
        Err(fault) => Err(fault),
    }
}

/// Reads a plan and a trace from any source, and writes the verdict as an audit does, and then its
/// reasons: the first row that violates a rule, the rule, the row expected in its place, and the
/// facts that the rule needs; of a legal trace, what its run exercised. The answer is the exit
/// status, 0 or 1. Of a refused record it writes what is wrong, and the record itself; the answer
/// is the refusal.
///
/// Each row is judged as it is read, and one is kept at a time. All memory is taken before anything
/// is written. Of a refused plan nothing is.
#[tactic(auto, using(crate::proofs::Answering::writes))]
pub fn why_text<P: Read, T: Read, W: Write>(
    alloc: Global,
    plan: &mut Source<P>,
    trace: &mut Source<T>,
    out: &mut Sink<W>,
) -> Result<u8, CliFault>
    ensures answer { OfTexts P.remaining T.remaining plan.old trace.old result (λ plan records. WhyAnswers W.contents plan records out.old out.new result) }
    ensures wrote { WroteSome W.contents out.old out.new }
    ensures reads { ReadsBoth P.remaining plan.old plan.new trace.old trace.new result }
    ensures ends { Ends IsVerdict (λ fault. is_audit_fault fault ≡ true) out.new result }
    ensures silent { IfErr result (λ fault. (fault ≡ CliFault.Write) ⊎ (is_record_fault fault ≡ true) ⊎ (out.new ≡ out.old)) }
{
    let words = explain(alloc, plan, trace)?;
    write_answer(out, words.text.as_slice(), answer_to(words.found))
}
