//! A plan on threads: from its text to the text of what its cores did.

ghost use Rattle.std.specs.Prelude.{◌≡◌, ◌⊎◌};
ghost use Rattle.msrp_plan.specs.Common.{true, false, Err, OnOk, OnErr, sink_failed, IsPlan};
ghost use Rattle.msrp_text.specs.Reading.{plan_of};
ghost use Rattle.msrp_faults.specs.Outcomes.{written_status, is_sim_fault};
ghost use Rattle.msrp_run.specs.Threads.{IsThreadedRun};
ghost use Rattle.msrp_engine.specs.Answered.{AnsweredPlan, OfText};
ghost use Rattle.msrp_engine.specs.Running.{RunAnswers, WritesThreadedRun, WritesSomeThreadedRun};

use msrp_faults::CliFault;
use msrp_merge::Merging;
use msrp_plan::bytes::{Sink, Source};
use msrp_plan::{Plan, TextVersion, WriteFault};
use msrp_run::{Hire, HireAll, Plain, Stage, run_logged_if};
use msrp_text::read_plan;
use msrp_trace::TraceWriter;
use std::alloc::Global;
use std::io::{Read, Write};
use std::sync::Wait;
use std::thread::Threads;

// Writes every row of the merge after the first record. After a failed write the merge goes on
// without output, so the output is a prefix of the whole text.
fn write_merged<W: Write>(
    plan: &Plan,
    mut merging: Merging<'_>,
    version: TextVersion,
    out: &mut Sink<W>,
) -> Result<(), WriteFault>
    requires run { IsThreadedRun plan.now merging }
    ensures run { WritesThreadedRun W.contents version plan.now out.old out.new }
    ensures good { OnOk result (sink_failed out.new ≡ false) }
    ensures fault { OnErr result (sink_failed out.new ≡ true) }
{
    let mut text = TraceWriter::new(plan, version);
    text.head(out);
    for _turn in 0..plan.cores() * plan.ticks() {
        let row = merging.row();
        text.row(out, &row);
    }
    text.finish(out)
}

// Runs an accepted plan with a thread for each core that `hire` allows, each turn made by the
// stage; then writes what the cores did.
fn write_run<T: Threads + Wait + Sync, W: Write, S: Stage + Sync, H: Hire>(
    rt: &T,
    alloc: Global,
    plan: &Plan,
    out: &mut Sink<W>,
    version: TextVersion,
    stage: &S,
    hire: &H,
) -> Result<u8, CliFault>
    ensures { (((result ≡ Err CliFault.Memory) ⊎ (result ≡ Err CliFault.Threads)) × (out.new ≡ out.old)) ⊎ (IsPlan plan.now × WritesThreadedRun W.contents version plan.now out.old out.new × (result ≡ written_status out.new)) }
{
    let (logs, settled) = run_logged_if(rt, alloc, plan, stage, hire)?;
    let merging = Merging::new(alloc, plan, &logs, &settled)?;
    write_merged(plan, merging, version, out)?;
    Ok(0)
}

/// Reads a plan, runs it with a thread for each core that `hire` allows, each turn made by the
/// stage, and writes the trace of what the cores did in this version of text. [`CliFault::Threads`]
/// if a thread couldn't be started.
///
/// Nothing is written before the run has ended: so on any fault but a write fault, nothing was
/// written. The call waits for its threads.
pub fn run_text_by<T: Threads + Wait + Sync, P: Read, W: Write, S: Stage + Sync, H: Hire>(
    rt: &T,
    alloc: Global,
    plan: &mut Source<P>,
    out: &mut Sink<W>,
    version: TextVersion,
    stage: &S,
    hire: &H,
) -> Result<u8, CliFault>
    // If the reader's bytes are known, no read failed and memory and threads sufficed, the answer
    // is the one for the plan in those bytes: a legal run of it, made by its cores on threads.
    ensures answer { OfText P.remaining plan.old result (λ records. (result ≡ Err CliFault.Threads) ⊎ RunAnswers W.contents version (plan_of records) out.old out.new result) }

    // For any reader.
    ensures written { OnOk result (WritesSomeThreadedRun W.contents version out.old out.new) }
    ensures always { AnsweredPlan (λ fault. (fault ≡ CliFault.Threads) ⊎ (is_sim_fault fault ≡ true)) plan.new out.old out.new result }
{
    let plan = read_plan(alloc, plan)?;
    write_run(rt, alloc, &plan, out, version, stage, hire)
}

/// As [`run_text_by`], with the stage that makes the turns and does nothing else.
pub fn run_text_if<T: Threads + Wait + Sync, P: Read, W: Write, H: Hire>(
    rt: &T,
    alloc: Global,
    plan: &mut Source<P>,
    out: &mut Sink<W>,
    version: TextVersion,
    hire: &H,
) -> Result<u8, CliFault>
    ensures answer { OfText P.remaining plan.old result (λ records. (result ≡ Err CliFault.Threads) ⊎ RunAnswers W.contents version (plan_of records) out.old out.new result) }
    ensures written { OnOk result (WritesSomeThreadedRun W.contents version out.old out.new) }
    ensures always { AnsweredPlan (λ fault. (fault ≡ CliFault.Threads) ⊎ (is_sim_fault fault ≡ true)) plan.new out.old out.new result }
{
    run_text_by(rt, alloc, plan, out, version, &Plain, hire)
}

/// As [`run_text_if`], with no core's thread refused by the caller.
pub fn run_text<T: Threads + Wait + Sync, P: Read, W: Write>(
    rt: &T,
    alloc: Global,
    plan: &mut Source<P>,
    out: &mut Sink<W>,
    version: TextVersion,
) -> Result<u8, CliFault>
    ensures answer { OfText P.remaining plan.old result (λ records. (result ≡ Err CliFault.Threads) ⊎ RunAnswers W.contents version (plan_of records) out.old out.new result) }
    ensures written { OnOk result (WritesSomeThreadedRun W.contents version out.old out.new) }
    ensures always { AnsweredPlan (λ fault. (fault ≡ CliFault.Threads) ⊎ (is_sim_fault fault ≡ true)) plan.new out.old out.new result }
{
    run_text_if(rt, alloc, plan, out, version, &HireAll)
}
