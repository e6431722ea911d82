//! The simulation of a plan: from its text to the text of its run on one thread.

ghost use Rattle.std.specs.Prelude.{◌≡◌, ◌<◌, ◌+◌, ◌*◌, ◌++◌, ◌∷◌, ◌⊎◌};
ghost use Rattle.msrp_plan.specs.Common.{ℕ, List, [], true, false, None, Err, OnOk, OnErr, sink_failed, IsOrder, IsPlan};
ghost use Rattle.msrp_plan.specs.declared.rows.Row.{Row as TraceRow};
ghost use Rattle.msrp_sim.specs.Cores.{known_row};
ghost use Rattle.msrp_sim.specs.Orders.{cores_of};
ghost use Rattle.msrp_sim.specs.Simulated.{HasMade};
ghost use Rattle.msrp_text.specs.Reading.{plan_of};
ghost use Rattle.msrp_faults.specs.Outcomes.{written_status, is_sim_fault};
ghost use Rattle.msrp_trace.specs.Gathering.{after_tick};
ghost use Rattle.msrp_trace.specs.Texts.{text_of_core};
ghost use Rattle.msrp_engine.specs.Answered.{AnsweredPlan, Ends, IsDone, IsSilent, OfText};
ghost use Rattle.msrp_engine.specs.Inside.Known.{HasMadeSome, KeepKnown};
ghost use Rattle.msrp_engine.specs.Simulation.{SimAnswers, SimAnswersPlan, WritesRun, WritesSomeRun};

use msrp_faults::CliFault;
use msrp_levels::Levels;
use msrp_plan::bytes::{Sink, Source};
use msrp_plan::{Plan, Row, TextVersion, WriteFault};
use msrp_sim::{Order, Simulation};
use msrp_text::read_plan;
use msrp_trace::{RowTexts, TraceWriter};
use std::alloc::Global;
use std::io::{Read, Write};

// The next turn. A row known from its core's last one has a known text; otherwise the text is made.
#[inline(always)]
fn next_turn(simulation: &mut Simulation<'_>, texts: &mut RowTexts<'_>) -> Row
    requires accepted { IsPlan simulation.old.plan }
    requires plan { texts.old.plan ≡ simulation.old.plan }
    requires left { simulation.old.turn < simulation.old.plan.cores * simulation.old.plan.ticks }
    requires made { HasMadeSome simulation.old }
    requires known { KeepKnown simulation.old texts.old }
    ensures plan { simulation.new.plan ≡ simulation.old.plan }
    ensures order { simulation.new.order ≡ simulation.old.order }
    ensures turn { simulation.new.turn ≡ simulation.old.turn + 1 }
    ensures row { (rows : List TraceRow) → HasMade simulation.old rows → HasMade simulation.new (rows ++ result ∷ []) }
    ensures text { text_of_core texts.new result.core.0 ≡ after_tick texts.old.version texts.old.plan result }
    ensures same { texts.new ≡ record texts.old { texts = texts.new.texts } }
    ensures known { KeepKnown simulation.new texts.new }
{
    match simulation.repeat() {
        Some(row) => row,
        None => {
            let row = simulation.turn();
            texts.show(&row);
            row
        }
    }
}

// Writes every turn's row after the first record. After a failed write the run goes on without
// output, so the output is a prefix of the whole text.
fn write_run<W: Write>(
    plan: &Plan,
    simulation: &mut Simulation<'_>,
    version: TextVersion,
    out: &mut Sink<W>,
) -> Result<(), WriteFault>
    requires plan { simulation.old.plan ≡ plan.now }
    requires order { IsOrder plan.now simulation.old.order }
    requires turn { simulation.old.turn ≡ 0 }
    requires made { HasMade simulation.old [] }
    requires known { (c : ℕ) → known_row simulation.old.cores c ≡ None }
    ensures plan { IsPlan plan.now }
    ensures run { WritesRun W.contents version plan.now simulation.old.order out.old out.new }
    ensures good { OnOk result (sink_failed out.new ≡ false) }
    ensures fault { OnErr result (sink_failed out.new ≡ true) }
{
    let mut text = TraceWriter::new(plan, version);
    let mut texts = RowTexts::new(plan, version);
    text.head(out);
    for _turn in 0..plan.cores() * plan.ticks() {
        let row = next_turn(simulation, &mut texts);
        text.again(out, row.tick, &texts, row.core);
    }
    text.finish(out)
}

// Runs an accepted plan in this order, and writes the run; allocates before the first write.
fn write_sim<W: Write>(
    alloc: Global,
    plan: &Plan,
    out: &mut Sink<W>,
    order: &Order,
    version: TextVersion,
) -> Result<u8, CliFault>
    requires order { IsOrder plan.now (cores_of order.now plan.now) }
    ensures run { ((result ≡ Err CliFault.Memory) × (out.new ≡ out.old)) ⊎ (IsPlan plan.now × WritesRun W.contents version plan.now (cores_of order.now plan.now) out.old out.new × (result ≡ written_status out.new)) }
    ensures unread { ¬ (result ≡ Err CliFault.Read) }
    ensures ends { Ends IsDone (λ fault. (fault ≡ CliFault.Usage) ⊎ (is_sim_fault fault ≡ true)) out.new result }
    ensures silent { IsSilent out.old out.new result }
{
    let levels = Levels::of(alloc, plan)?;
    let mut simulation = Simulation::with_room(alloc, plan, &levels, order)?;
    write_run(plan, &mut simulation, version, out)?;
    Ok(0)
}

// Runs it if the order is one of the plan.
fn write_in_order<W: Write>(
    alloc: Global,
    plan: &Plan,
    out: &mut Sink<W>,
    order: &Order,
    version: TextVersion,
) -> Result<u8, CliFault>
    ensures answer { ((result ≡ Err CliFault.Memory) × (out.new ≡ out.old)) ⊎ SimAnswersPlan W.contents version plan.now (cores_of order.now plan.now) out.old out.new result }
    ensures written { OnOk result (WritesSomeRun W.contents version order.now out.old out.new) }
    ensures unread { ¬ (result ≡ Err CliFault.Read) }
    ensures ends { Ends IsDone (λ fault. (fault ≡ CliFault.Usage) ⊎ (is_sim_fault fault ≡ true)) out.new result }
    ensures silent { IsSilent out.old out.new result }
{
    if !order.is_of(plan) {
        return Err(CliFault::Usage);
    }
    write_sim(alloc, plan, out, order, version)
}

/// Reads a plan, and writes the trace of its run on one thread in this order of turns and this
/// version of text. [`CliFault::Usage`] if the order is a list that doesn't name each core of the
/// plan once in each tick.
///
/// The whole plan is read and all memory allocated before the first write: so on any fault but a
/// write fault, nothing was written.
pub fn sim_text<P: Read, W: Write>(
    alloc: Global,
    plan: &mut Source<P>,
    out: &mut Sink<W>,
    order: &Order,
    version: TextVersion,
) -> Result<u8, CliFault>
    // If the reader's bytes are known, no read failed and memory sufficed, the answer is the one
    // for the plan in those bytes.
    ensures answer { OfText P.remaining plan.old result (λ records. SimAnswers W.contents version order.now (plan_of records) out.old out.new result) }

    // For any reader.
    ensures written { OnOk result (WritesSomeRun W.contents version order.now out.old out.new) }
    ensures always { AnsweredPlan (λ fault. (fault ≡ CliFault.Usage) ⊎ (is_sim_fault fault ≡ true)) plan.new out.old out.new result }
{
    let plan = read_plan(alloc, plan)?;
    write_in_order(alloc, &plan, out, order, version)
}
