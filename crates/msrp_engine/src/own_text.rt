//! A plan's own text: the one text of the plan that `write_plan` makes, from any text of it.

ghost use Rattle.std.specs.Prelude.{◌≡◌};
ghost use Rattle.msrp_plan.specs.Common.{true, IfOk, IfErr, OnOk, IsPlan};
ghost use Rattle.msrp_text.specs.PlanText.{plan_text};
ghost use Rattle.msrp_text.specs.Reading.{plan_of};
ghost use Rattle.msrp_faults.specs.Outcomes.{is_sim_fault};
ghost use Rattle.msrp_engine.specs.Answered.{AnsweredPlan, OfText};
ghost use Rattle.msrp_engine.specs.Simulation.{TextAnswers, WritesSomeText};

use crate::texts::{PlanText, write_text};
use msrp_faults::{CliFault, gathered_text};
use msrp_plan::Plan;
use msrp_plan::bytes::{Sink, Source};
use msrp_text::write_plan;
use std::alloc::Global;
use std::io::{Read, Write};

/// A plan's own text.
pub(crate) fn own_text(alloc: Global, plan: &Plan) -> Result<Vec<u8>, CliFault>
    ensures plan { IsPlan plan.now }
    ensures text { IfOk result (λ text. text.items ≡ plan_text plan.now) }
    ensures memory { IfErr result (λ fault. fault ≡ CliFault.Memory) }
{
    let mut text = Sink::new(Vec::new(alloc));
    let _ = write_plan(&mut text, plan);
    gathered_text(text)
}

/// Reads a plan, and writes its own text, which reads as the same plan. The plan is read and memory
/// allocated before the first write: on any fault but a write fault, nothing was written.
pub fn plan_text<P: Read, W: Write>(
    alloc: Global,
    plan: &mut Source<P>,
    out: &mut Sink<W>,
) -> Result<u8, CliFault>
    // If the reader's bytes are known, no read failed and memory sufficed, the answer is the one
    // for the plan in those bytes.
    ensures answer { OfText P.remaining plan.old result (λ records. TextAnswers W.contents plan_text (plan_of records) out.old out.new result) }

    // For any reader.
    ensures written { OnOk result (WritesSomeText W.contents plan_text out.old out.new) }
    ensures always { AnsweredPlan (λ fault. is_sim_fault fault ≡ true) plan.new out.old out.new result }
{
    write_text(alloc, plan, out, PlanText::Own)
}
