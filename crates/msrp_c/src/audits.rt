//! The verdict on a trace, and the report of a legal run.
ghost use Rattle.std.specs.Prelude.{◌≡◌, ◌||◌};
ghost use Rattle.msrp_plan.specs.Common.{Err};
ghost use Rattle.msrp_engine.specs.Findings.{finding_of};
ghost use Rattle.msrp_engine.specs.Reports.{IsReportOf};
ghost use Rattle.msrp_faults.specs.declared.faults.CliFault.{CliFault};
ghost use Rattle.msrp_text.specs.Reading.{csv_records, plan_of};
ghost use Rattle.msrp_engine.specs.Answered.{OrUnread};
ghost use Rattle.msrp_c.specs.Answers.{Answers, Judges, is_long};
ghost use Rattle.msrp_c.specs.Turns.{finding_of_turns};

use crate::answers::{MsrpFound, are_long, hand_over, is_long, tell, unfailed};
use crate::held::{FedAuditor, Loaded};
use crate::turns::MsrpRow;
use msrp_audit::Fault;
use msrp_engine::{CliFault, Made, judge_texts, report_of_texts};
use msrp_levels::Levels;
use msrp_plan::bytes::Source;
use msrp_text::read_plan;
use std::alloc::Global;

// The verdict on a trace of a plan, or why there is none.
fn audited(alloc: Global, plan: &[u8], trace: &[u8]) -> Result<Result<(), Fault>, CliFault>
    ensures { OrUnread result (result ≡ finding_of (plan_of (csv_records plan.now)) (csv_records trace.now)) }
{
    let mut plan = Source::new(plan);
    let mut trace = Source::new(trace);
    judge_texts(alloc, &mut plan, &mut trace)
}

/// The verdict on a trace of a plan: 0 for a legal run, 1 for a fault, and 2 if a text is refused.
#[unsafe(no_mangle)]
pub extern "C" fn msrp_audit(alloc: Global, plan: &[u8], trace: &[u8], found: &mut MsrpFound) -> u32
    ensures { Judges (is_long plan.now || is_long trace.now) (finding_of (plan_of (csv_records plan.now)) (csv_records trace.now)) found.new result }
{
    if are_long(plan, trace) {
        return tell(Err(CliFault::Read), found);
    }
    let what = audited(alloc, plan, trace);
    tell(unfailed(what), found)
}

// The verdict on rows of a text's plan, or why there is none.
fn judged(
    alloc: Global,
    plan: &[u8],
    rows: &[MsrpRow],
    so_far: bool,
) -> Result<Result<(), Fault>, CliFault>
    ensures { OrUnread result (result ≡ finding_of_turns so_far (plan_of (csv_records plan.now)) rows.now) }
{
    let mut source = Source::new(plan);
    let plan = read_plan(alloc, &mut source)?;
    let levels = Levels::of(alloc, &plan)?;
    let loaded = Loaded {
        plan: &plan,
        levels: &levels,
    };
    let fed = FedAuditor::of_rows(alloc, loaded, rows)?;
    if so_far { fed.verdict } else { fed.end() }
}

/// The verdict on rows given as numbers, as [`msrp_audit`] gives it on their text, except that rows
/// are counted from 1. For `so far` it is 0 if the rows are the start of a legal run.
#[unsafe(no_mangle)]
pub extern "C" fn msrp_audit_rows(
    alloc: Global,
    plan: &[u8],
    rows: &[MsrpRow],
    so_far: bool,
    found: &mut MsrpFound,
) -> u32
    ensures { Judges (is_long plan.now) (finding_of_turns so_far (plan_of (csv_records plan.now)) rows.now) found.new result }
{
    if is_long(plan) {
        return tell(Err(CliFault::Read), found);
    }
    let what = judged(alloc, plan, rows, so_far);
    tell(unfailed(what), found)
}

// The report of a trace.
fn reported(alloc: Global, plan: &[u8], trace: &[u8]) -> Result<Made, CliFault>
    ensures { OrUnread result (IsReportOf (plan_of (csv_records plan.now)) (csv_records trace.now) result) }
{
    let mut plan = Source::new(plan);
    let mut trace = Source::new(trace);
    report_of_texts(alloc, &mut plan, &mut trace)
}

/// The text of the report of a trace; if the trace isn't a legal run, its first fault and no text.
#[unsafe(no_mangle)]
pub extern "C" fn msrp_report(
    alloc: Global,
    plan: &[u8],
    trace: &[u8],
    text: &mut [u8],
    needed: &mut usize,
    found: &mut MsrpFound,
) -> u32
    ensures { Answers (is_long plan.now || is_long trace.now) (λ made. OrUnread made (IsReportOf (plan_of (csv_records plan.now)) (csv_records trace.now) made)) text.old text.new needed.new found.new result }
{
    if are_long(plan, trace) {
        return hand_over(Err(CliFault::Read), text, needed, found);
    }
    let made = reported(alloc, plan, trace);
    hand_over(unfailed(made), text, needed, found)
}
