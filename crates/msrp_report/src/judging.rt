//! The report of a whole trace, which is audited first.
ghost use Rattle.std.specs.Prelude.{◌≡◌, ◌≤◌};
ghost use Rattle.msrp_plan.specs.Common.{[], Some, Err, IfOk, OnOk, All, IsRun, verdict};
ghost use Rattle.msrp_plan.specs.declared.faults.Fault.{Fault as TraceFault};
ghost use Rattle.msrp_report.specs.Lines.{lines_of};
ghost use Rattle.msrp_report.specs.Reports.{HasCounted};

use crate::counter::Counter;
use crate::lines::Report;
use msrp_audit::audit;
use msrp_levels::Levels;
use msrp_plan::{Fault, Memory, Plan, Row, Trace};
use std::alloc::Global;
use thiserror::Error;

/// Why there is no report.
#[derive(Clone, Copy, Debug, Error, PartialEq, Eq)]
pub enum ReportError {
    /// The trace isn't a legal run of the plan: the first row that violates a rule.
    #[error("G1: the trace is no legal run: row {} breaks {}", .0.row, .0.rule)]
    G1(Fault),
    /// Out of memory.
    #[error("G2: memory was refused")]
    G2,
}

impl From<Memory> for ReportError {
    ghost use Rattle.msrp_report.specs.declared.judging.ReportError.{ReportError};

    ghost from_gives = { λ _ error. error ≡ ReportError.G2 };

    fn from(_error: Memory) -> ReportError {
        ReportError::G2
    }
}

// Counts all rows of a legal run.
fn count_all(counter: &mut Counter<'_>, rows: &[Row])
    requires counted { HasCounted counter.old [] }
    requires run { IsRun counter.old.plan.now rows.now }
    ensures plan { counter.new.plan ≡ counter.old.plan }
    ensures counted { HasCounted counter.new rows.now }
{
    for row in rows {
        counter.count(*row);
    }
}

/// The report of any trace. A trace that isn't a legal run of the plan is [`ReportError::G1`] with
/// its verdict; [`ReportError::G2`] comes only if memory runs out.
pub fn report(alloc: Global, plan: &Plan, trace: &Trace) -> Result<Report, ReportError>
    // Each number is its count over the rows, or the plan's bound.
    ensures lines { IfOk result (λ report. report.lines.items ≡ lines_of plan.now trace.now.rows.items) }
    // Only a legal trace has a report, and the only fault is the verdict's.
    ensures run { OnOk result (IsRun plan.now trace.now.rows.items) }
    ensures fault { (fault : TraceFault) → result ≡ Err (ReportError.G1 fault) → verdict plan.now trace.now.rows.items ≡ Some fault }
    // The counts are within the bounds.
    ensures spinning { IfOk result (λ report. All (λ line. line.worst_spin ≤ line.spin_bound) report.lines.items) }
    ensures blocking { IfOk result (λ report. All (λ line. line.worst_blocked ≤ line.blocked_bound) report.lines.items) }
{
    if let Err(fault) = audit(alloc, plan, trace)? {
        return Err(ReportError::G1(fault));
    }
    let levels = Levels::of(alloc, plan)?;
    let mut counter = Counter::with_room(alloc, plan, &levels)?;
    count_all(&mut counter, trace.rows.as_slice());
    Ok(counter.end())
}
