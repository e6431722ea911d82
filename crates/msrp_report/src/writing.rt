//! A report as text of version 2 (`docs/REPORT.md`).
ghost use Rattle.std.specs.Prelude.{◌≡◌, ◌<◌};
ghost use Rattle.msrp_plan.specs.Common.{length, true, false, OnOk, OnErr, Wrote, sink_failed, slice_index_or};
ghost use Rattle.msrp_text.specs.PlanText.{record_text};
ghost use Rattle.msrp_report.specs.ReportText.{line_record, no_line, report_text};

use crate::lines::{Line, Report};
use msrp_plan::bytes::Sink;
use msrp_plan::{Plan, TaskId, WriteFault};
use std::io::Write;

fn write_line<W: Write>(out: &mut Sink<W>, plan: &Plan, task: TaskId, line: Line)
    requires { task.0 < length plan.now.tasks }
    ensures { Wrote W.contents out.old out.new (record_text (line_record plan.now task.0 line)) }
{
    out.add(plan.task_name(task).as_bytes());
    out.number(u64::from(plan.core_of(task).0));
    out.number(u64::from(line.jobs));
    out.number(u64::from(line.finished));
    out.number(u64::from(line.late));
    out.number(u64::from(line.worst_response));
    out.number(u64::from(line.spin));
    out.number(u64::from(line.worst_spin));
    out.number(u64::from(line.blocked));
    out.number(u64::from(line.worst_blocked));
    out.number(u64::from(line.spin_bound));
    out.number(u64::from(line.blocked_bound));
    out.add(b"\n");
}

/// Writes the report of a trace of the plan: a record `msrp-report,2`, then one for each task, with
/// its name, its core, and the numbers of its line in order. [`WriteFault`] exactly if the sink has
/// failed; the output is then a prefix of the text.
pub fn write_report<W: Write>(
    out: &mut Sink<W>,
    plan: &Plan,
    report: &Report,
) -> Result<(), WriteFault>
    requires { length report.now.lines.items ≡ length plan.now.tasks }
    ensures wrote { Wrote W.contents out.old out.new (report_text plan.now report.now.lines.items) }
    ensures good { OnOk result (sink_failed out.new ≡ false) }
    ensures fault { OnErr result (sink_failed out.new ≡ true) }
{
    out.add(b"msrp-report,2\n");
    for task in 0..plan.tasks() {
        write_line(out, plan, TaskId(task), report.lines[task as usize]);
    }
    out.outcome()
}
