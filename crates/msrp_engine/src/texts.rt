//! The texts of a plan: it is read, a text of it is made in memory, then written.

ghost use Rattle.std.specs.Prelude.{◌≡◌, ◌⊎◌};
ghost use Rattle.msrp_plan.specs.Common.{true, Err, IfOk, IfErr, OnOk, Wrote, IsPlan};
ghost use Rattle.msrp_text.specs.Reading.{plan_of};
ghost use Rattle.msrp_faults.specs.Outcomes.{is_sim_fault, written_status};
ghost use Rattle.msrp_engine.specs.Answered.{AnsweredPlan, OfText};
ghost use Rattle.msrp_engine.specs.Inside.Texts.{text_of};
ghost use Rattle.msrp_engine.specs.Simulation.{TextAnswers, WritesSomeText};

use crate::check::levels_text;
use crate::own_text::own_text;
use msrp_faults::{CliFault, write_answer};
use msrp_plan::Plan;
use msrp_plan::bytes::{Sink, Source};
use msrp_text::read_plan;
use std::alloc::Global;
use std::io::{Read, Write};

/// Which text of a plan.
#[derive(Clone, Copy)]
pub(crate) enum PlanText {
    /// Its own, which reads as the same plan.
    Own,
    /// Its levels and ceilings.
    Levels,
}

// The requested text.
fn gathered(alloc: Global, plan: &Plan, which: PlanText) -> Result<Vec<u8>, CliFault>
    ensures plan { OnOk result (IsPlan plan.now) }
    ensures text { IfOk result (λ text. text.items ≡ text_of which plan.now) }
    ensures memory { IfErr result (λ fault. fault ≡ CliFault.Memory) }
{
    match which {
        PlanText::Own => own_text(alloc, plan),
        PlanText::Levels => levels_text(alloc, plan),
    }
}

// Makes the text and writes it.
fn write_gathered<W: Write>(
    alloc: Global,
    plan: &Plan,
    out: &mut Sink<W>,
    which: PlanText,
) -> Result<u8, CliFault>
    ensures { ((result ≡ Err CliFault.Memory) × (out.new ≡ out.old)) ⊎ (IsPlan plan.now × Wrote W.contents out.old out.new (text_of which plan.now) × (result ≡ written_status out.new)) }
{
    let text = gathered(alloc, plan, which)?;
    write_answer(out, text.as_slice(), Ok(0))
}

/// Reads a plan, and writes the requested text of it. The whole plan is read and all memory
/// allocated before the first write: so on any fault but a write fault, nothing was written.
pub(crate) fn write_text<P: Read, W: Write>(
    alloc: Global,
    plan: &mut Source<P>,
    out: &mut Sink<W>,
    which: PlanText,
) -> Result<u8, CliFault>
    ensures answer { OfText P.remaining plan.old result (λ records. TextAnswers W.contents (text_of which) (plan_of records) out.old out.new result) }
    ensures written { OnOk result (WritesSomeText W.contents (text_of which) out.old out.new) }
    ensures always { AnsweredPlan (λ fault. is_sim_fault fault ≡ true) plan.new out.old out.new result }
{
    let plan = read_plan(alloc, plan)?;
    write_gathered(alloc, &plan, out, which)
}
