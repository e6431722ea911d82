//! Rows that violate a law each, so that no law holds for all rows.
ghost use Rattle.std.specs.Prelude.{[], take, false};
ghost use Rattle.msrp_plan.specs.Laws.{BoundedOvertaking, BoundedSpinning, ShortQueues};
ghost use Rattle.msrp_plan.specs.Blocking.{BlockedByBegunSections, BlockedByOneSection, BoundedBlocking, BoundedSections, IsBegun};
ghost use Rattle.msrp_plan.specs.LockStates.{Agree};
ghost use Rattle.msrp_plan.specs.Scheduling.{EarliestDeadlineFirst, RunsReleased, WorkConservation};
ghost use Rattle.msrp_plan.specs.Examples.Notation.{job, run, queue, take as taken, changed};
ghost use Rattle.msrp_plan.specs.Examples.BlockedByTheCeiling as blocked_by_the_ceiling;
ghost use Rattle.msrp_plan.specs.Examples.BlockedHead as blocked_head;
ghost use Rattle.msrp_plan.specs.Examples.BrokenLaws as broken_laws;
ghost use Rattle.msrp_plan.specs.Examples.EqualDeadlines as equal_deadlines;
ghost use Rattle.msrp_plan.specs.Examples.GlobalInsideLocal as global_inside_local;
ghost use Rattle.msrp_plan.specs.Examples.HandoverATickLater as handover_a_tick_later;
ghost use Rattle.msrp_plan.specs.Examples.HandoverWithinATick as handover_within_a_tick;
ghost use Rattle.msrp_plan.specs.Examples.JobsOfOneTask as jobs_of_one_task;
ghost use Rattle.msrp_plan.specs.Examples.PreemptsASection as preempts_a_section;
ghost use Rattle.msrp_plan.specs.Examples.TwoHeads as two_heads;
ghost use Rattle.msrp_plan.specs.declared.units.Call.TheVariants.{Ask, Poll, Leave};

/// Rows that exceed a bound each: an overtaking, queued job, spin, section or blocking row too
/// many.
pub fn broken_bounds()
    ensures overtaking { ¬ BoundedOvertaking handover_a_tick_later.plan broken_laws.overtaken_twice }
    ensures queues { ¬ ShortQueues handover_a_tick_later.plan broken_laws.third_in_the_queue }
    ensures spinning { ¬ BoundedSpinning handover_a_tick_later.plan broken_laws.four_spins }
    ensures sections { ¬ BoundedSections blocked_head.plan broken_laws.long_section }
    ensures blocking { ¬ BoundedBlocking blocked_head.plan broken_laws.long_blocking }
{}

/// Rows that violate the laws of scheduling: a job blocked outside of a section, one that runs
/// before its release, a core that idles despite work, and one that works with nothing left to do.
pub fn broken_schedules()
    ensures begun { ¬ BlockedByBegunSections two_heads.plan two_heads.by_declaration }
    ensures one_section { ¬ BlockedByOneSection two_heads.plan two_heads.by_declaration }
    ensures released { ¬ RunsReleased jobs_of_one_task.plan jobs_of_one_task.too_early }
    ensures idles { ¬ WorkConservation jobs_of_one_task.plan jobs_of_one_task.never_started }
    ensures works { ¬ WorkConservation jobs_of_one_task.plan (take 3 jobs_of_one_task.too_early) }
{}

/// Rows that violate earliest deadline first, each by its last row: a job starts before an earlier
/// ready one, before an earlier started one, or below the ceiling; a job goes on although an
/// earlier one is started, or although the first ready one is above the ceiling.
pub fn broken_deadlines()
    ensures first { ¬ EarliestDeadlineFirst two_heads.plan (take 1 two_heads.by_declaration) }
    ensures preempts { ¬ EarliestDeadlineFirst equal_deadlines.plan (take 3 equal_deadlines.preempted) }
    ensures above { ¬ EarliestDeadlineFirst blocked_by_the_ceiling.plan (take 2 blocked_by_the_ceiling.past_the_ceiling) }
    ensures goes_on { ¬ EarliestDeadlineFirst preempts_a_section.plan (take 3 (changed preempts_a_section.rows 3 (run 2 0 (job 0 0)))) }
    ensures blocked { ¬ EarliestDeadlineFirst preempts_a_section.plan (take 2 preempts_a_section.without_preemption) }
{}

/// A section whose first row isn't after a tick, though another row is: a row of another job, one
/// in which the job is already queued, and one before its lock.
pub fn broken_beginnings()
    ensures job { ¬ IsBegun blocked_head.plan broken_laws.after_another_job (job 0 0) 1 }
    ensures outside { ¬ IsBegun handover_within_a_tick.plan broken_laws.queued_later (job 0 0) 3 }
    ensures unit { ¬ IsBegun global_inside_local.plan broken_laws.worked_before (job 0 0) 1 }
{}

/// Queue and lock disagree on a row and a call that doesn't make it: the lock answers a request
/// with nobody ahead, and the row is queued; the row takes a free resource, and the lock doesn't
/// answer the poll; the holder works on, and the lock is released.
pub fn broken_locks()
    ensures replies { ¬ Agree handover_within_a_tick.plan [] (queue 0 0 (job 0 0) 0) 0 (Ask 0) }
    ensures answers { ¬ Agree handover_within_a_tick.plan [] (taken 0 0 (job 0 0) 0) 0 (Poll false) }
    ensures next { ¬ Agree handover_within_a_tick.plan (take 2 handover_within_a_tick.rows) (run 1 0 (job 0 0)) 0 Leave }
{}
