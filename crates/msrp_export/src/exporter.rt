//! The exporter: it takes rows, and writes their text.
ghost use Rattle.std.specs.Prelude.{◌≡◌, ◌<◌, ◌+◌, ◌++◌, ◌∷◌, ◌^◌};
ghost use Rattle.msrp_plan.specs.Common.{[], List, length, WroteSome};
ghost use Rattle.msrp_export.specs.Signals.{Row as TraceRow, HasTaken};

use crate::formats::Format;
use crate::signals::Signals;
use crate::summary::next;
use crate::walk::{Written, begin_tick, write_end, write_head, write_tick};
use crate::{gtkw, perfetto, vcd};
use msrp_plan::bytes::Sink;
use msrp_plan::{Fault, Plan, Row, Rule};
use std::alloc::{AllocError, Global};
use std::io::Write;

/// A writer of the rows of a trace. It keeps the last row of each core, and no other.
///
/// Each call makes its text in memory and then gives it to the sink as a whole. An error means that
/// no memory was left for the text, and nothing of it was written.
#[derive(Drop)]
pub struct Exporter<'a> {
    format: Format,
    signals: Signals<'a>,
    // How many rows of the tick were taken.
    turns: u32,
    // The text that is made now.
    text: String,
}

impl<'a> Exporter<'a> {
    /// Before the first row.
    pub fn new(alloc: Global, plan: &'a Plan, format: Format) -> Exporter<'a>
        ensures plan { result.signals.plan.now ≡ plan.now }
        ensures taken { HasTaken result [] }
    {
        // Read so that the plan is known to be an accepted one, which has a core.
        let _accepted = plan.cores();
        Exporter {
            format,
            signals: Signals::new(plan),
            turns: 0,
            text: String::new(alloc),
        }
    }

    // Writes the text that was made, if it was.
    fn put<W: Write>(&mut self, out: &mut Sink<W>, made: Written) -> Written
        ensures wrote { WroteSome W.contents out.old out.new }
        ensures kept { self.new ≡ record self.old { text = self.new.text } }
    {
        if made.is_ok() {
            out.add(self.text.as_bytes());
        }
        self.text.clear();
        made
    }

    /// Writes what comes before the rows.
    pub fn head<W: Write>(&mut self, out: &mut Sink<W>) -> Result<(), AllocError>
        ensures wrote { WroteSome W.contents out.old out.new }
        ensures kept { self.new ≡ record self.old { text = self.new.text } }
    {
        let made = write_head(&mut self.text, self.format, self.signals.plan);
        self.put(out, made)
    }

    /// Takes the next row. With the last row of a tick, writes what the tick changes.
    pub fn row<W: Write>(&mut self, out: &mut Sink<W>, row: Row) -> Result<(), AllocError>
        ensures wrote { WroteSome W.contents out.old out.new }
        ensures plan { self.new.signals.plan ≡ self.old.signals.plan }
        ensures taken { (rows : List TraceRow) → HasTaken self.old rows → length rows + 1 < 2 ^ 32 → HasTaken self.new (rows ++ row ∷ []) }
    {
        self.signals.latest.take(row);
        self.turns = next(self.turns);
        if self.turns != self.signals.plan.cores() {
            return Ok(());
        }
        let made = write_tick(&mut self.text, self.format, &self.signals);
        self.signals.end_tick();
        self.turns = 0;
        self.put(out, made)
    }

    // Makes the text of a fault: its tick, with the rows of the tick that came before it, and the
    // end a tick later.
    fn make_fault(&mut self, rule: Rule, row: Option<Row>) -> Written {
        let plan = self.signals.plan;
        let tick = self.signals.tick;
        if self.turns > 0 {
            write_tick(&mut self.text, self.format, &self.signals)?;
            self.signals.end_tick();
        } else {
            begin_tick(&mut self.text, self.format, tick)?;
        }
        match self.format {
            Format::Vcd => vcd::write_fault(&mut self.text, plan, rule, row)?,
            Format::Gtkw => gtkw::write_fault(&mut self.text, tick)?,
            Format::Perfetto => perfetto::write_fault(&mut self.text, plan, tick, rule, row)?,
        }
        write_end(&mut self.text, self.format, &self.signals, next(tick))
    }

    /// Writes the end: of a whole run, or the rule that is violated after the rows, with the row
    /// that violates it; none if a row is missing.
    pub fn end<W: Write>(
        &mut self,
        out: &mut Sink<W>,
        found: Result<(), Fault>,
        row: Option<Row>,
    ) -> Result<(), AllocError>
        ensures { WroteSome W.contents out.old out.new }
    {
        let ticks = self.signals.plan.ticks();
        let made = match found {
            Ok(()) => write_end(&mut self.text, self.format, &self.signals, ticks),
            Err(fault) => self.make_fault(fault.rule, row),
        };
        self.put(out, made)
    }
}
