//! A plan's levels, ceilings and tops: from its text to a text, before it runs.

ghost use Rattle.std.specs.Prelude.{◌≡◌, ◌<◌};
ghost use Rattle.msrp_plan.specs.Common.{length, true, IfOk, IfErr, OnOk, Wrote, IsPlan};
ghost use Rattle.msrp_text.specs.PlanText.{record_text};
ghost use Rattle.msrp_text.specs.Reading.{plan_of};
ghost use Rattle.msrp_engine.specs.CheckText.{ceiling_record, check_text, level_record, told_each, top_record};
ghost use Rattle.msrp_faults.specs.Outcomes.{is_sim_fault};
ghost use Rattle.msrp_engine.specs.Answered.{AnsweredPlan, OfText};
ghost use Rattle.msrp_engine.specs.Simulation.{TextAnswers, WritesSomeText};

use crate::texts::{PlanText, write_text};
use msrp_faults::{CliFault, gathered_text};
use msrp_levels::Levels;
use msrp_plan::bytes::{Sink, Source};
use msrp_plan::{CoreId, Plan, ResId, TaskId};
use std::alloc::Global;
use std::io::{Read, Write};

fn write_level<W: Write>(out: &mut Sink<W>, plan: &Plan, levels: &Levels<'_>, task: TaskId)
    requires levels { levels.now ≡ plan.now }
    requires task { task.0 < length plan.now.tasks }
    ensures { Wrote W.contents out.old out.new (record_text (level_record plan.now task.0)) }
{
    out.add(b"level");
    out.field(plan.task_name(task).as_bytes());
    out.number(u64::from(levels.level(task)));
    out.add(b"\n");
}

fn write_ceiling<W: Write>(out: &mut Sink<W>, plan: &Plan, levels: &Levels<'_>, res: ResId)
    requires plan { IsPlan plan.now }
    requires levels { levels.now ≡ plan.now }
    requires res { res.0 < length plan.now.resources }
    ensures { Wrote W.contents out.old out.new (record_text (ceiling_record plan.now res.0)) }
{
    out.add(b"ceiling");
    out.field(plan.res_name(res).as_bytes());
    if levels.is_global(res) {
        out.add(b",global,-\n");
    } else {
        out.field(b"local");
        // A local resource has the same ceiling at each core.
        out.number(u64::from(levels.ceiling(res, CoreId(0))));
        out.add(b"\n");
    }
}

fn write_top<W: Write>(out: &mut Sink<W>, levels: &Levels<'_>, core: CoreId)
    requires { core.0 < levels.now.cores }
    ensures { Wrote W.contents out.old out.new (record_text (top_record levels.now core.0)) }
{
    out.add(b"top");
    out.number(u64::from(core.0));
    out.number(u64::from(levels.top(core)));
    out.add(b"\n");
}

fn write_levels<W: Write>(out: &mut Sink<W>, plan: &Plan, levels: &Levels<'_>)
    requires { levels.now ≡ plan.now }
    ensures plan { IsPlan plan.now }
    ensures wrote { Wrote W.contents out.old out.new (told_each (level_record plan.now) (length plan.now.tasks)) }
{
    for task in 0..plan.tasks() {
        write_level(out, plan, levels, TaskId(task));
    }
}

fn write_ceilings<W: Write>(out: &mut Sink<W>, plan: &Plan, levels: &Levels<'_>)
    requires { levels.now ≡ plan.now }
    ensures { Wrote W.contents out.old out.new (told_each (ceiling_record plan.now) (length plan.now.resources)) }
{
    for res in 0..plan.resources() {
        write_ceiling(out, plan, levels, ResId(res));
    }
}

fn write_tops<W: Write>(out: &mut Sink<W>, plan: &Plan, levels: &Levels<'_>)
    requires { levels.now ≡ plan.now }
    ensures { Wrote W.contents out.old out.new (told_each (top_record plan.now) plan.now.cores) }
{
    for core in 0..plan.cores() {
        write_top(out, levels, CoreId(core));
    }
}

fn write_check<W: Write>(out: &mut Sink<W>, plan: &Plan, levels: &Levels<'_>)
    requires { levels.now ≡ plan.now }
    ensures plan { IsPlan plan.now }
    ensures wrote { Wrote W.contents out.old out.new (check_text plan.now) }
{
    write_levels(out, plan, levels);
    write_ceilings(out, plan, levels);
    write_tops(out, plan, levels);
}

/// The text of a plan's levels and ceilings.
pub(crate) fn levels_text(alloc: Global, plan: &Plan) -> Result<Vec<u8>, CliFault>
    ensures plan { OnOk result (IsPlan plan.now) }
    ensures text { IfOk result (λ text. text.items ≡ check_text plan.now) }
    ensures memory { IfErr result (λ fault. fault ≡ CliFault.Memory) }
{
    let levels = Levels::of(alloc, plan)?;
    let mut text = Sink::new(Vec::new(alloc));
    write_check(&mut text, plan, &levels);
    gathered_text(text)
}

/// Reads a plan, and writes its levels and ceilings: `level,NAME,N` for each task,
/// `ceiling,NAME,local,N` or `ceiling,NAME,global,-` for each resource, and `top,CORE,N` for each
/// core, the highest level of its tasks (Baker 1991; Gai, Lipari and Di Natale 2001).
///
/// The whole plan is read and all memory allocated before the first write: so on any fault but a
/// write fault, nothing was written.
pub fn check_text<P: Read, W: Write>(
    alloc: Global,
    plan: &mut Source<P>,
    out: &mut Sink<W>,
) -> Result<u8, CliFault>
    // If the reader's bytes are known, no read failed and memory sufficed, the answer is the one
    // for the plan in those bytes.
    ensures answer { OfText P.remaining plan.old result (λ records. TextAnswers W.contents check_text (plan_of records) out.old out.new result) }

    // For any reader.
    ensures written { OnOk result (WritesSomeText W.contents check_text out.old out.new) }
    ensures always { AnsweredPlan (λ fault. is_sim_fault fault ≡ true) plan.new out.old out.new result }
{
    write_text(alloc, plan, out, PlanText::Levels)
}
