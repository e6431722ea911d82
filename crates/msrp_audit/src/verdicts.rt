//! The verdict on a whole trace by one auditor, row by row.
ghost use Rattle.std.specs.Prelude.{◌≡◌};
ghost use Rattle.msrp_plan.specs.Common.{[], Err, IfOk, verdict};
ghost use Rattle.msrp_plan.specs.declared.faults.Fault.{Fault as TraceFault};
ghost use Rattle.msrp_audit.specs.Audits.{HasFed, answer_of};

use crate::auditor::Auditor;
use msrp_levels::Levels;
use msrp_plan::{Fault, Memory, Plan, Row, Trace};
use std::alloc::Global;

// Judges all rows of a trace, up to the first fault.
fn feed_all(auditor: &mut Auditor<'_>, rows: &[Row]) -> Result<(), Fault>
    requires { HasFed auditor.old [] }
    ensures plan { auditor.new.plan ≡ auditor.old.plan }
    ensures fed { IfOk result (λ done. HasFed auditor.new rows.now) }
    ensures fault { (fault : TraceFault) → result ≡ Err fault → Err fault ≡ answer_of (verdict auditor.old.plan rows.now) }
{
    for row in rows {
        if let Err(fault) = auditor.feed(*row) {
            return Err(fault);
        }
    }
    Ok(())
}

/// The verdict on any trace: good exactly for the legal runs of the plan, otherwise its first
/// fault. [`Memory`] only if memory runs out.
pub fn audit(alloc: Global, plan: &Plan, trace: &Trace) -> Result<Result<(), Fault>, Memory>
    ensures { IfOk result (λ answer. answer ≡ answer_of (verdict plan.now trace.now.rows.items)) }
{
    let levels = Levels::of(alloc, plan)?;
    let mut auditor = Auditor::with_room(alloc, plan, &levels)?;
    if let Err(fault) = feed_all(&mut auditor, trace.rows.as_slice()) {
        return Ok(Err(fault));
    }
    Ok(auditor.end())
}
