//! Trace text, written; a core's repeated row reuses its text.
ghost use Rattle.std.specs.Prelude.{◌≡◌, ◌<◌, ◌++◌};
ghost use Rattle.msrp_plan.specs.Common.{[], decimal, length, slice_index_or, true, false, OnOk, OnErr, All, list_all, carries_ahead, Wrote, sink_failed};
ghost use Rattle.msrp_trace.specs.Gathering.{Gathers, after_tick};
ghost use Rattle.msrp_trace.specs.Lines.{AreResTexts, IsLine};
ghost use Rattle.msrp_trace.specs.declared.line.RowLine.{RowLine as Kept};
ghost use Rattle.msrp_trace.specs.Texts.{text_of_core};
ghost use Rattle.msrp_trace.specs.TraceText.{head_text, is_named, is_res_of, is_task_of, row_text, trace_text};

use crate::line::{LineText, RowLine};
use crate::page::Page;
use crate::res::ResTexts;
use crate::texts::{RowTexts, text_of};
use crate::tick::Tick;
use msrp_plan::bytes::Sink;
use msrp_plan::limits::MOST_CORES;
use msrp_plan::{CoreId, JobId, Plan, ResId, Row, TextVersion, Trace, WriteFault};
use std::array;
use std::io::Write;
use std::marker::Model;

/// Writes trace text of a plan, in one version, some kilobytes at a time, to the sink given to each
/// call. A row that differs only in the tick from its core's last one reuses its text.
#[derive(Drop)]
pub struct TraceWriter<'a> {
    plan: &'a Plan,
    version: TextVersion,
    page: Page,
    tick: Tick,
    // The last row of each core, by number.
    lines: [RowLine; MOST_CORES as usize],
    res: ResTexts,
}

impl<'a> Model for TraceWriter<'a> {
    ghost use Rattle.msrp_trace.specs.Gathering.{WriterModel};

    ghost Value = { WriterModel };

    ghost use Rattle.msrp_trace.specs.WriterView.{writer_view, IsWriterView};

    ghost view = { writer_view };

    ghost invariant = { IsWriterView };
}

// Makes the line of a core's row.
#[inline(always)]
fn show_line(
    lines: &mut [RowLine],
    core: usize,
    plan: &Plan,
    version: TextVersion,
    row: &Row,
    res: &mut ResTexts,
)
    requires core { core < length lines.old }
    requires named { is_named plan.now row.now ≡ true }
    requires before { All (IsLine version plan.now) lines.old }
    requires res_before { AreResTexts plan.now res.old }
    ensures after { All (IsLine version plan.now) lines.new }
    ensures res_after { AreResTexts plan.now res.new }
    ensures text { (d : Kept) → (slice_index_or lines.new core d).text.line ≡ after_tick version plan.now row.now }
{
    lines[core].show(plan, version, row, res);
}

// The record of a row: its tick, then its core's line.
#[inline(always)]
fn add_record<W: Write>(
    page: &mut Page,
    out: &mut Sink<W>,
    tick: &Tick,
    lines: &[RowLine],
    core: usize,
)
    requires { core < length lines.now }
    ensures { (d : Kept) → Gathers W.contents page.old out.old page.new out.new (decimal tick.now.tick ++ (slice_index_or lines.now core d).text.line) }
{
    page.add_both(out, tick.text(), lines[core].text());
}

impl<'a> TraceWriter<'a> {
    /// A writer before the first record.
    pub fn new(plan: &'a Plan, version: TextVersion) -> TraceWriter<'a>
        ensures { result ≡ record { plan = plan.now; version = version; text = [] } }
    {
        TraceWriter {
            plan,
            version,
            page: Page::new(),
            tick: Tick::new(),
            lines: array::from_fn(|_| RowLine::new()),
            res: ResTexts::new(),
        }
    }

    /// Writes the first record of a trace of the plan.
    pub fn head<W: Write>(&mut self, out: &mut Sink<W>)
        ensures text { Gathers W.contents self.old.text out.old self.new.text out.new (head_text self.old.version self.old.plan) }
        ensures same { self.new ≡ record self.old { text = self.new.text } }
    {
        let mut line = LineText::new();
        line.head(self.plan, self.version);
        self.page.add(out, line.text());
    }

    /// Writes the record of a row of a trace of the plan.
    #[inline(always)]
    pub fn row<W: Write>(&mut self, out: &mut Sink<W>, row: &Row)
        requires { is_named self.old.plan row.now ≡ true }
        ensures text { Gathers W.contents self.old.text out.old self.new.text out.new (row_text self.old.version self.old.plan row.now) }
        ensures same { self.new ≡ record self.old { text = self.new.text } }
    {
        let core = (row.core.0 % MOST_CORES) as usize;
        let plan = self.plan;
        let version = self.version;
        self.tick.show(row.tick);
        show_line(&mut self.lines, core, plan, version, row, &mut self.res);
        add_record(&mut self.page, out, &self.tick, &self.lines, core);
    }

    /// Writes the record of a core in a tick, with the stored text of its row.
    #[inline(always)]
    pub fn again<W: Write>(
        &mut self,
        out: &mut Sink<W>,
        tick: u32,
        texts: &RowTexts<'_>,
        core: CoreId,
    )
        ensures text { Gathers W.contents self.old.text out.old self.new.text out.new (decimal tick ++ text_of_core texts.now core.0) }
        ensures same { self.new ≡ record self.old { text = self.new.text } }
    {
        self.tick.show(tick);
        let core = (core.0 % MOST_CORES) as usize;
        let line = text_of(&texts.lines, core);
        self.page.add_both(out, self.tick.text(), line);
    }

    /// Writes what is still gathered, and returns whether all writes succeeded.
    pub fn finish<W: Write>(mut self, out: &mut Sink<W>) -> Result<(), WriteFault>
        ensures wrote { Wrote W.contents out.old out.new self.entry.text }
        ensures good { OnOk result (sink_failed out.new ≡ false) }
        ensures fault { OnErr result (sink_failed out.new ≡ true) }
    {
        self.page.write(out);
        out.outcome()
    }
}

/// Whether the row names only tasks and resources of the plan.
#[inline]
pub fn is_named(plan: &Plan, row: &Row) -> bool
    ensures { result ≡ is_named plan.now row.now }
{
    is_task_of(plan, row.job) && is_res_of(plan, row.res)
}

fn is_task_of(plan: &Plan, job: Option<JobId>) -> bool
    ensures { result ≡ is_task_of plan.now job }
{
    match job {
        Some(job) => job.task.0 < plan.tasks(),
        None => true,
    }
}

fn is_res_of(plan: &Plan, res: Option<ResId>) -> bool
    ensures { result ≡ is_res_of plan.now res }
{
    match res {
        Some(res) => res.0 < plan.resources(),
        None => true,
    }
}

/// Whether all rows of a trace name only tasks and resources of the plan, as its text requires.
pub fn are_named(plan: &Plan, trace: &Trace) -> bool
    ensures { result ≡ list_all (is_named plan.now) trace.now.rows.items }
{
    trace.rows.iter().all(|row| is_named(plan, row))
}

/// Writes a trace of the plan: in version 2 with the ahead of each queue row, in version 1 without.
/// After a write fault the output is a prefix of the text.
pub fn write_trace<W: Write>(
    writer: &mut Sink<W>,
    plan: &Plan,
    trace: &Trace,
    version: TextVersion,
) -> Result<(), WriteFault>
    requires named { list_all (is_named plan.now) trace.now.rows.items ≡ true }
    requires carries { version ≡ TextVersion.V2 → carries_ahead trace.now.rows.items ≡ true }
    ensures wrote { Wrote W.contents writer.old writer.new (trace_text version plan.now trace.now.rows.items) }
    ensures good { OnOk result (sink_failed writer.new ≡ false) }
    ensures fault { OnErr result (sink_failed writer.new ≡ true) }
{
    let mut text = TraceWriter::new(plan, version);
    text.head(writer);
    for row in trace.rows.iter() {
        text.row(writer, row);
    }
    text.finish(writer)
}
