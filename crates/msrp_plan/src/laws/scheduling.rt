//! The consequences of the rules, in the words of scheduling.
ghost use Rattle.std.specs.Prelude.{List, ℕ};
ghost use Rattle.msrp_plan.specs.Plan.{PlanModel};
ghost use Rattle.msrp_plan.specs.Runs.{IsRun, IsRunStart};
ghost use Rattle.msrp_plan.specs.Logs.{ascending, core_order};
ghost use Rattle.msrp_plan.specs.WellFormed.{IsPlan};
ghost use Rattle.msrp_plan.specs.Scheduling.{RunsReleased, WorkConservation, EarliestDeadlineFirst, IsDueCore, HasNext, IsOrder, HasOneRun};
ghost use Rattle.msrp_plan.specs.declared.rows.Row.{Row};

/// No job runs before its release.
pub fn runs_released()
    ensures { (plan : PlanModel) (rows : List Row) → IsRunStart plan rows → RunsReleased plan rows }
{}

/// Work conservation: a core idles exactly if its released jobs are finished, whatever the ceiling.
pub fn work_conservation()
    ensures { (plan : PlanModel) (rows : List Row) → IsPlan plan → IsRunStart plan rows → WorkConservation plan rows }
{}

/// Earliest deadline first under the ceiling (Baker 1991): a job that starts comes before every
/// other released, unfinished job of its core, and its level is above the ceiling. Of the started
/// jobs the first goes on; an unstarted one before it isn't above the ceiling.
pub fn earliest_deadline_first()
    ensures { (plan : PlanModel) (rows : List Row) → IsRunStart plan rows → EarliestDeadlineFirst plan rows }
{}

/// Existence: after each legal start, a core with a turn left in the tick has a legal next row,
/// whatever the others did. So each order with one turn of every core in each tick has exactly one
/// legal run, if the queue rows carry their aheads; and the turns of each legal run are such an
/// order. Rising order is one, so each well-formed plan has a legal run.
pub fn existence()
    ensures next { (plan : PlanModel) (pre : List Row) (c : ℕ) → IsPlan plan → IsRunStart plan pre → IsDueCore plan pre c → HasNext plan pre c }
    ensures run { (plan : PlanModel) (order : List ℕ) → IsPlan plan → IsOrder plan order → HasOneRun plan order }
    ensures rising { (plan : PlanModel) → IsOrder plan (ascending plan.cores plan.ticks) }
    ensures order { (plan : PlanModel) (rows : List Row) → IsRun plan rows → IsOrder plan (core_order rows) }
{}
