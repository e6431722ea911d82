//! Worked reports, computed from the definitions alone: for each plan a legal run and its report's
//! text. Each function's contract is the example. Plans and rows are in `specs/Examples`.
ghost use Rattle.std.specs.Prelude.{◌≡◌};
ghost use Rattle.msrp_plan.specs.Common.{codes, task_at, IsRun};
ghost use Rattle.msrp_plan.specs.Examples.TwoResources as two_resources;
ghost use Rattle.msrp_report.specs.Lines.{lines_of, task_spin_bound};
ghost use Rattle.msrp_report.specs.ReportText.{report_text};
ghost use Rattle.msrp_report.specs.Examples.ThreeWaits as three_waits;
ghost use Rattle.msrp_report.specs.Examples.ThreeBlockedJobs as three_blocked_jobs;
ghost use Rattle.msrp_report.specs.Examples.TwoSpinningJobs as two_spinning_jobs;

/// A job of b spins once, twice, once: the longest wait is in the middle. Its end isn't late.
pub fn three_waits()
    ensures run { IsRun three_waits.plan three_waits.rows }
    ensures text { report_text three_waits.plan (lines_of three_waits.plan three_waits.rows) ≡ codes "msrp-report,2\na,0,1,1,1,12,0,0,0,0,2,0\nb,1,1,1,0,13,4,2,0,0,4,0\n" }
{}

/// Jobs of hi are blocked for two rows, three and none. The third, cut off at its deadline, is
/// late.
pub fn three_blocked_jobs()
    ensures run { IsRun three_blocked_jobs.plan three_blocked_jobs.rows }
    ensures text { report_text three_blocked_jobs.plan (lines_of three_blocked_jobs.plan three_blocked_jobs.rows) ≡ codes "msrp-report,2\nk,0,3,2,0,4,0,0,0,0,0,0\nhi,0,3,2,3,5,0,0,5,3,0,3\n" }
{}

/// Two jobs of b spin once each.
pub fn two_spinning_jobs()
    ensures run { IsRun two_spinning_jobs.plan two_spinning_jobs.rows }
    ensures text { report_text two_spinning_jobs.plan (lines_of two_spinning_jobs.plan two_spinning_jobs.rows) ≡ codes "msrp-report,2\na,0,2,2,0,3,0,0,0,0,2,0\nb,1,2,2,0,4,2,1,0,0,3,0\n" }
{}

/// A bound on spinning is the greatest of the task's resources, not a sum: for b, of three and two.
pub fn two_resources()
    ensures a { task_spin_bound two_resources.plan (task_at two_resources.plan 0) ≡ 2 }
    ensures b { task_spin_bound two_resources.plan (task_at two_resources.plan 1) ≡ 3 }
{}
