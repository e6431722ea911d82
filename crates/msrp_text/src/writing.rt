//! Plan text, written: one text for each plan, which reads back as that plan.
ghost use Rattle.std.specs.Prelude.{◌≡◌, ◌<◌, ◌+◌, ◌^◌, ◌++◌, ◌∷◌};
ghost use Rattle.msrp_plan.specs.Common.{[], length, map, codes, decimal, OnOk, OnErr, true, false, flat_map, Wrote, sink_failed, task_at, Every, Listed, listed_ticks, IsPlan};
ghost use Rattle.msrp_text.specs.PlanText.{declaration, head_records, plan_text, record_text, records_text, release_record, resource_record, steps_of, task_records, times_records, version_of, version_record};
ghost use Rattle.msrp_text.specs.Writing.{IsNamedUnit, run_after, run_steps, steps_before, steps_text};

use msrp_plan::bytes::Sink;
use msrp_plan::{JobId, Op, Plan, ResId, TaskId, TextVersion, Times, WriteFault};
use std::io::Write;

// The version that the plan's text needs: 2 if it has a listed task.
fn version_of(plan: &Plan) -> TextVersion
    ensures { result ≡ version_of plan.now }
{
    for task in 0..plan.tasks() {
        if let Times::Listed { .. } = plan.times(TaskId(task)) {
            return TextVersion::V2;
        }
    }
    TextVersion::V1
}

// A record of a word and a number.
fn write_number<W: Write>(out: &mut Sink<W>, word: &[u8], number: u64)
    ensures { Wrote W.contents out.old out.new (record_text (word.now ∷ decimal number ∷ [])) }
{
    out.add(word);
    out.number(number);
    out.add(b"\n");
}

// A record of a word and a name.
fn write_name<W: Write>(out: &mut Sink<W>, word: &[u8], name: &str)
    ensures { Wrote W.contents out.old out.new (record_text (word.now ∷ name.now ∷ [])) }
{
    out.add(word);
    out.field(name.as_bytes());
    out.add(b"\n");
}

// The first record.
fn version_record(version: TextVersion) -> &'static [u8]
    ensures { result.now ≡ record_text (version_record version) }
{
    match version {
        TextVersion::V1 => b"msrp,1\n",
        TextVersion::V2 => b"msrp,2\n",
    }
}

// The first three records.
fn write_head<W: Write>(out: &mut Sink<W>, plan: &Plan)
    ensures plan { IsPlan plan.now }
    ensures wrote { Wrote W.contents out.old out.new (records_text (head_records plan.now)) }
{
    out.add(version_record(version_of(plan)));
    write_number(out, b"cores", u64::from(plan.cores()));
    write_number(out, b"ticks", u64::from(plan.ticks()));
}

fn write_resources<W: Write>(out: &mut Sink<W>, plan: &Plan)
    ensures { Wrote W.contents out.old out.new (records_text (map resource_record plan.now.resources)) }
{
    for res in 0..plan.resources() {
        write_name(out, b"resource", plan.res_name(ResId(res)));
    }
}

// The record of a periodic task.
fn write_periodic<W: Write>(out: &mut Sink<W>, plan: &Plan, task: TaskId, period: u32, offset: u32)
    requires { task.0 < length plan.now.tasks }
    ensures { Wrote W.contents out.old out.new (record_text (declaration (task_at plan.now task.0) (Every period offset))) }
{
    out.add(b"task");
    out.field(plan.task_name(task).as_bytes());
    out.number(u64::from(plan.core_of(task).0));
    out.number(u64::from(period));
    out.number(u64::from(plan.deadline(task)));
    out.number(u64::from(offset));
    out.add(b"\n");
}

// The record of a listed task.
fn write_listed<W: Write>(out: &mut Sink<W>, plan: &Plan, task: TaskId)
    requires { task.0 < length plan.now.tasks }
    ensures { Wrote W.contents out.old out.new (record_text (declaration (task_at plan.now task.0) (Listed []))) }
{
    out.add(b"listed");
    out.field(plan.task_name(task).as_bytes());
    out.number(u64::from(plan.core_of(task).0));
    out.number(u64::from(plan.deadline(task)));
    out.add(b"\n");
}

// The releases of a listed task.
fn write_releases<W: Write>(out: &mut Sink<W>, plan: &Plan, task: TaskId, count: u32)
    requires task { task.0 < length plan.now.tasks }
    requires count { count ≡ length (listed_ticks (task_at plan.now task.0).times) }
    ensures { Wrote W.contents out.old out.new (records_text (map release_record (listed_ticks (task_at plan.now task.0).times))) }
{
    for k in 0..count {
        write_number(out, b"release", plan.release(JobId { task, k }));
    }
}

// When a task is released: its declaration, and the ticks of its list.
fn write_times<W: Write>(out: &mut Sink<W>, plan: &Plan, task: TaskId)
    requires { task.0 < length plan.now.tasks }
    ensures { Wrote W.contents out.old out.new (records_text (times_records (task_at plan.now task.0))) }
{
    match plan.times(task) {
        Times::Every { period, offset } => write_periodic(out, plan, task, period, offset),
        Times::Listed { count } => {
            write_listed(out, plan, task);
            write_releases(out, plan, task, count);
        }
    }
}

// A run of work, unless it is empty.
fn write_run<W: Write>(out: &mut Sink<W>, plan: &Plan, count: u32)
    ensures { Wrote W.contents out.old out.new (steps_text plan.now (run_steps count)) }
{
    if count > 0 {
        write_number(out, b"op,run", u64::from(count));
    }
}

// Writes a unit after `run` unwritten units of work; returns how many are unwritten after it.
fn write_unit<W: Write>(out: &mut Sink<W>, plan: &Plan, run: u32, unit: Op) -> u32
    requires named { IsNamedUnit plan.now unit }
    requires room { run + 1 < 2 ^ 32 }
    ensures text { Wrote W.contents out.old out.new (steps_text plan.now (steps_before run unit)) }
    ensures run { result ≡ run_after run unit }
{
    match unit {
        Op::Run => run + 1,
        Op::Lock(res) => {
            write_run(out, plan, run);
            write_name(out, b"op,lock", plan.res_name(res));
            0
        }
        Op::Unlock(res) => {
            write_run(out, plan, run);
            write_name(out, b"op,unlock", plan.res_name(res));
            0
        }
    }
}

// The units of a task, with adjacent units of work in one record.
fn write_units<W: Write>(out: &mut Sink<W>, plan: &Plan, task: TaskId)
    requires plan { IsPlan plan.now }
    requires task { task.0 < length plan.now.tasks }
    ensures { Wrote W.contents out.old out.new (steps_text plan.now (steps_of (task_at plan.now task.0).units)) }
{
    let mut run = 0;
    for place in 0..plan.units(task) {
        run = write_unit(out, plan, run, plan.unit(task, place));
    }
    write_run(out, plan, run);
}

fn write_task<W: Write>(out: &mut Sink<W>, plan: &Plan, task: TaskId)
    requires plan { IsPlan plan.now }
    requires task { task.0 < length plan.now.tasks }
    ensures { Wrote W.contents out.old out.new (records_text (task_records plan.now (task_at plan.now task.0))) }
{
    write_times(out, plan, task);
    write_units(out, plan, task);
}

fn write_tasks<W: Write>(out: &mut Sink<W>, plan: &Plan)
    ensures { Wrote W.contents out.old out.new (records_text (flat_map (task_records plan.now) plan.now.tasks)) }
{
    for task in 0..plan.tasks() {
        write_task(out, plan, TaskId(task));
    }
}

/// Writes a plan as text: version 2 if it has a listed task, otherwise 1. It reads back as an equal
/// plan. Adjacent units of work are one record. On a write fault the output is a prefix of it.
pub fn write_plan<W: Write>(out: &mut Sink<W>, plan: &Plan) -> Result<(), WriteFault>
    ensures plan { IsPlan plan.now }
    ensures wrote { Wrote W.contents out.old out.new (plan_text plan.now) }
    ensures good { OnOk result (sink_failed out.new ≡ false) }
    ensures fault { OnErr result (sink_failed out.new ≡ true) }
{
    write_head(out, plan);
    write_resources(out, plan);
    write_tasks(out, plan);
    out.outcome()
}
