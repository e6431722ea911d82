//! What the tasks meet in the legal rows of a trace, and the bounds of their plan.
ghost use Rattle.std.specs.Prelude.{◌≡◌};
ghost use Rattle.msrp_plan.specs.Common.{IfOk, None, fault_in};
ghost use Rattle.msrp_report.specs.Lines.{lines_of};

use msrp_audit::Auditor;
use msrp_levels::Levels;
use msrp_plan::{Memory, Plan, Row};
use msrp_report::{Counter, Report};
use std::alloc::Global;

/// The report of these rows. It counts none from the first on that violates a rule.
pub(crate) fn report_of(alloc: Global, plan: &Plan, rows: &[Row]) -> Result<Report, Memory>
    ensures { fault_in plan.now rows.now ≡ None → IfOk result (λ report. report.lines.items ≡ lines_of plan.now rows.now) }
{
    let levels = Levels::of(alloc, plan)?;
    let mut auditor = Auditor::with_room(alloc, plan, &levels)?;
    let mut counter = Counter::with_room(alloc, plan, &levels)?;
    for row in rows {
        if auditor.feed(*row).is_err() {
            return Ok(counter.end());
        }
        counter.count(*row);
    }
    Ok(counter.end())
}
