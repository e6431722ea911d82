//! Rows that repeat: a core's last row is also its next one while nothing happens.
ghost use Rattle.std.specs.Prelude.{◌++◌, ◌∷◌, []};
ghost use Rattle.msrp_plan.specs.Plan.{PlanModel};
ghost use Rattle.msrp_plan.specs.Runs.{IsCoreTurn, CoreRun};
ghost use Rattle.msrp_plan.specs.Examples.Notation.{run};
ghost use Rattle.msrp_plan.specs.Examples.StretchEnds as stretch_ends;
ghost use Rattle.msrp_plan.specs.Stretches.{StaysAgain};

/// When a core's row repeats, with one repeat less left: its job has units of work next and no job
/// is released (the ceiling still holds back what it did); it idles and no job is released; or its
/// job keeps spinning, even if jobs are released. The queue decides whether a poll spins.
pub fn stays_again()
    ensures { (plan : PlanModel) → StaysAgain plan }
{}

/// Where a stretch ends: at a release, even in the next tick, or at the end of the work. A job that
/// works although it is queued, as in no run, may have to yield to a job that was there before.
pub fn stretch_ends()
    ensures run { CoreRun stretch_ends.plan 0 stretch_ends.to_the_end }
    ensures release { ¬ IsCoreTurn stretch_ends.plan 0 (run 0 0 stretch_ends.lo ∷ []) (run 1 0 stretch_ends.lo) }
    ensures work { ¬ IsCoreTurn stretch_ends.plan 0 stretch_ends.to_the_end (run 4 0 stretch_ends.lo) }
    ensures queued { IsCoreTurn stretch_ends.plan 0 stretch_ends.queued_at_work (run 1 0 stretch_ends.lo) }
    ensures unqueued { ¬ IsCoreTurn stretch_ends.plan 0 (stretch_ends.queued_at_work ++ run 1 0 stretch_ends.lo ∷ []) (run 2 0 stretch_ends.lo) }
{}
