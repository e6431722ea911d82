//! A trace's text as a picture, and as a page for a browser.
ghost use Rattle.std.specs.Prelude.{◌≡◌};
ghost use Rattle.msrp_plan.specs.Common.{[], true, Some, Err, IfErr, WroteSome};
ghost use Rattle.msrp_view_engine.specs.Common.{Answered, OfText, OfTexts, OrUnread, ReadsBoth, Told as TraceTold, found_in, is_trace_fault, rows_of, told_left};
ghost use Rattle.msrp_view_engine.specs.Answers.{IsDrawingOf, WritesDrawing, drawing_found, found_drawn, is_drawing_fault, rows_in, rows_read, verdict_on};

use crate::why::explain_all;
use crate::why_plan::bytes_of;
use crate::words::answer_to;
use msrp_audit::audit;
use msrp_engine::{CliFault, Made, settled, write_answer};
use msrp_page::{TickLength, Told, html};
use msrp_picture::{Asked, draw, window_of};
use msrp_plan::bytes::{Sink, Source};
use msrp_plan::{Memory, Plan, Row, Trace};
use msrp_text::read_plan;
use msrp_trace::TraceReader;
use msrp_why::sentence;
use std::alloc::Global;
use std::io::{Read, Write};

/// How a trace is drawn.
#[derive(Clone, Copy, Debug, PartialEq, Eq)]
pub enum Drawing {
    /// A picture of these ticks.
    Picture(Asked),
    /// A page for a browser, with times if the length of a tick is given.
    Page(Option<TickLength>),
}

// A drawing in memory, or why there is none.
type Drawn = Result<Made, CliFault>;

// The rows of a trace, and those whose line isn't the one after that of the row before; line 0 is
// unknown.
#[derive(Debug, Drop)]
struct Gathered {
    trace: Trace,
    lines: Vec<(u32, u64)>,
}

// Notes the line of a row if it isn't the expected one, and answers the line expected next.
fn note_line(lines: &mut Vec<(u32, u64)>, row: u32, line: u64, next: u64) -> Result<u64, Memory> {
    if line != next {
        lines.push((row, line))?;
    }
    Ok(if line == 0 { 0 } else { line.saturating_add(1) })
}

// All rows that a reader has left.
fn gather_rows<T: Read>(
    rows: &mut TraceReader<'_, T>,
    mut gathered: Vec<Row>,
    mut lines: Vec<(u32, u64)>,
) -> Result<Gathered, CliFault>
    requires { gathered.items ≡ [] }
    ensures rows { (told : TraceTold) → told_left T.remaining rows.old ≡ Some told → OrUnread result (rows_in result ≡ rows_read told) }
    ensures faults { IfErr result (λ fault. is_trace_fault fault ≡ true) }
{
    let mut expected = 1;
    for number in 1..u32::MAX {
        let Some(row) = rows.next_row()? else {
            let trace = Trace { rows: gathered };
            return Ok(Gathered { trace, lines });
        };
        let line = rows.line_of(number + 1).unwrap_or(0);
        expected = note_line(&mut lines, number, line, expected)?;
        gathered.push(row)?;
    }
    Err(CliFault::Memory)
}

// All rows of a trace's text. What ends the reading early may be reported as a failed read.
fn gather<T: Read>(alloc: Global, plan: &Plan, trace: &mut Source<T>) -> Result<Gathered, CliFault>
    ensures rows { OfText T.remaining trace.old result (λ records. rows_in result ≡ rows_read (rows_of plan.now records)) }
    ensures faults { IfErr result (λ fault. is_trace_fault fault ≡ true) }
{
    let mut rows = TraceReader::new(alloc, trace, plan)?;
    let gathered = gather_rows(&mut rows, Vec::new(alloc), Vec::new(alloc));
    drop(rows);
    gathered
}

fn picture_of<T: Read>(alloc: Global, plan: &Plan, trace: &mut Source<T>, asked: Asked) -> Drawn
    ensures found { OfText T.remaining trace.old result (λ records. found_in result ≡ found_drawn plan.now (rows_of plan.now records) (Drawing.Picture asked)) }
    ensures faults { IfErr result (λ fault. is_drawing_fault fault (Drawing.Picture asked) ≡ true) }
    ensures unwritten { ¬ (result ≡ Err CliFault.Write) }
{
    let Some(window) = window_of(plan, asked) else {
        return Err(CliFault::Usage);
    };
    let trace = gather(alloc, plan, trace)?.trace;
    let found = audit(alloc, plan, &trace)?;
    let rule = found.err().map_or("", |fault| sentence(fault.rule));
    let rows = trace.rows.as_slice();
    let text = draw(alloc, plan, rows, found, asked, window, rule)?;
    Ok(Made { text, found })
}

fn page_of<T: Read>(
    alloc: Global,
    plan: &Plan,
    trace: &mut Source<T>,
    length: Option<TickLength>,
) -> Drawn
    ensures found { OfText T.remaining trace.old result (λ records. found_in result ≡ verdict_on plan.now (rows_read (rows_of plan.now records))) }
    ensures faults { IfErr result (λ fault. is_trace_fault fault ≡ true) }
{
    let bytes = bytes_of(alloc, trace)?;
    let Gathered { trace, lines } = gather(alloc, plan, &mut Source::new(bytes.as_slice()))?;
    let found = audit(alloc, plan, &trace)?;
    let words = explain_all(alloc, plan, &mut Source::new(bytes.as_slice()))?;
    let (why, lines) = (words.text.as_slice(), lines.as_slice());
    let told = Told { why, lines, length };
    let text = html(alloc, plan, trace.rows.as_slice(), found, told)?;
    Ok(Made { text, found })
}

// A drawing of a trace that is read. What ends the reading early may be reported as a failed read.
fn drawn<T: Read>(alloc: Global, plan: &Plan, trace: &mut Source<T>, drawing: Drawing) -> Drawn
    ensures found { OfText T.remaining trace.old result (λ records. found_in result ≡ found_drawn plan.now (rows_of plan.now records) drawing) }
    ensures faults { IfErr result (λ fault. is_drawing_fault fault drawing ≡ true) }
    ensures unwritten { ¬ (result ≡ Err CliFault.Write) }
{
    match drawing {
        Drawing::Picture(asked) => picture_of(alloc, plan, trace, asked),
        Drawing::Page(length) => page_of(alloc, plan, trace, length),
    }
}

/// The drawing of a trace from any source, with the verdict on its rows, as [`view_text`] writes
/// it.
pub fn drawing_of_texts<P: Read, T: Read>(
    alloc: Global,
    plan: &mut Source<P>,
    trace: &mut Source<T>,
    drawing: Drawing,
) -> Drawn
    ensures found { OfTexts P.remaining T.remaining plan.old trace.old result (λ plan records. IsDrawingOf plan records drawing result) }
    ensures reads { ReadsBoth P.remaining plan.old plan.new trace.old trace.new result }
    ensures faults { IfErr result (λ fault. is_drawing_fault fault drawing ≡ true) }
    ensures unwritten { ¬ (result ≡ Err CliFault.Write) }
{
    let plan = read_plan(alloc, plan)?;
    let made = drawn(alloc, &plan, trace, drawing);
    settled(made, trace)
}

/// Reads a plan and a trace from any source, and draws the trace. The answer is the exit status of
/// an audit: 0 for a legal run, and 1 else. A picture is of the ticks that are asked for; it is
/// [`CliFault::Usage`] if the plan doesn't have them. It shows the rows before the first that
/// violates a rule, and that one, and in SVG also what follows it. A page has the verdict with its
/// reasons, the whole trace as a timeline, and the report of its legal rows.
///
/// All memory is taken before anything is written. A trace of which a record is refused isn't
/// drawn.
#[tactic(auto, using(crate::proofs::Answering::writes))]
pub fn view_text<P: Read, T: Read, W: Write>(
    alloc: Global,
    plan: &mut Source<P>,
    trace: &mut Source<T>,
    out: &mut Sink<W>,
    drawing: Drawing,
) -> Result<u8, CliFault>
    ensures answer { OfTexts P.remaining T.remaining plan.old trace.old result (λ plan records. WritesDrawing (drawing_found plan records drawing) out.old out.new result) }
    ensures wrote { WroteSome W.contents out.old out.new }
    ensures always { Answered P.remaining (λ fault. is_drawing_fault fault drawing ≡ true) plan.old plan.new trace.old trace.new out.old out.new result }
{
    let made = drawing_of_texts(alloc, plan, trace, drawing)?;
    write_answer(out, made.text.as_slice(), answer_to(Ok(made.found)))
}
