//! What the definition of a legal run promises: laws over every plan and every start of a legal
//! run, in any order of the cores. Each function does nothing; its contract is the law.
ghost use Rattle.std.specs.Prelude.{◌≡◌, ◌-◌, ◌∷◌, ◌++◌, List, map, length, take, drop, count_by, true, false};
ghost use Rattle.msrp_plan.specs.Aheads.{carries_ahead, without_ahead};
ghost use Rattle.msrp_plan.specs.Plan.{PlanModel};
ghost use Rattle.msrp_plan.specs.Runs.{IsRunStart, IsRun};
ghost use Rattle.msrp_plan.specs.WellFormed.{IsPlan};
ghost use Rattle.msrp_plan.specs.Jobs.{holds};
ghost use Rattle.msrp_plan.specs.Queues.{fifo};
ghost use Rattle.msrp_plan.specs.Laws.{NoLocalBlocking, MutualExclusion, BoundedOvertaking, ShortQueues, BoundedSpinning, IsWait, is_acquisition, is_spin_of, KeepsLaws};
ghost use Rattle.msrp_plan.specs.Bounds.{spin_bound};
ghost use Rattle.msrp_plan.specs.Logs.{core_order};
ghost use Rattle.msrp_plan.specs.Examples.Notation.{job, queue};
ghost use Rattle.msrp_plan.specs.Examples.BlockedByTheCeiling as blocked_by_the_ceiling;
ghost use Rattle.msrp_plan.specs.Examples.HandoverWithinATick as handover_within_a_tick;
ghost use Rattle.msrp_plan.specs.Examples.HandoverATickLater as handover_a_tick_later;
ghost use Rattle.msrp_plan.specs.Examples.ThreeInAQueue as three_in_a_queue;
ghost use Rattle.msrp_plan.specs.Examples.RequestedAgain as requested_again;
ghost use Rattle.msrp_plan.specs.declared.rows.Row.{Row};

mod blocking;
mod broken;
mod scheduling;
mod stretches;

pub use blocking::{
    blocked_as_long_as_can_be, blocked_by_a_global_section, blocked_by_begun_sections,
    blocked_by_one_section, blocked_since_release, bounded_blocking, bounded_sections,
    bounds_of_nested_sections, bounds_of_two_sections, bounds_on_blocking,
};
pub use broken::{
    broken_beginnings, broken_bounds, broken_deadlines, broken_locks, broken_schedules,
};
pub use scheduling::{earliest_deadline_first, existence, runs_released, work_conservation};
pub use stretches::{stays_again, stretch_ends};

/// No local blocking: a job that runs never finds a local resource held by another job, of any core
/// (Baker 1991). So a lock of a local resource takes one tick.
pub fn no_local_blocking()
    ensures { (plan : PlanModel) (rows : List Row) → IsPlan plan → IsRunStart plan rows → NoLocalBlocking plan rows }
{}

/// Mutual exclusion: at each point of a run at most one job holds a resource, global or local.
pub fn mutual_exclusion()
    ensures { (plan : PlanModel) (rows : List Row) → IsPlan plan → IsRunStart plan rows → MutualExclusion plan rows }
{}

/// Bounded overtaking: on `m` cores, while a job waits for a global resource, others acquire it at
/// most `m - 1` times (Gai, Lipari and Di Natale 2001).
pub fn bounded_overtaking()
    ensures { (plan : PlanModel) (rows : List Row) → IsPlan plan → IsRunStart plan rows → BoundedOvertaking plan rows }
{}

/// Short queues: on `m` cores no job joins a queue of `m` or more requests.
pub fn short_queues()
    ensures { (plan : PlanModel) (rows : List Row) → IsPlan plan → IsRunStart plan rows → ShortQueues plan rows }
{}

/// Bounded spinning: in one wait for a global resource a job spins at most as often as its core's
/// bound: for each other core that uses the resource, 1 plus its longest section in units. All
/// spins of the job count, on any resource.
pub fn bounded_spinning()
    ensures { (plan : PlanModel) (rows : List Row) → IsPlan plan → IsRunStart plan rows → BoundedSpinning plan rows }
{}

/// Determinacy: the order of the cores' turns fixes the run. Two runs of one plan, or two starts of
/// runs, with the same order are equal, except for aheads that only one of them carries.
pub fn determinacy()
    ensures starts { (plan : PlanModel) (a b : List Row) → IsRunStart plan a → IsRunStart plan b → core_order a ≡ core_order b → map without_ahead a ≡ map without_ahead b }
    ensures carrying_starts { (plan : PlanModel) (a b : List Row) → IsRunStart plan a → IsRunStart plan b → core_order a ≡ core_order b → carries_ahead a ≡ true → carries_ahead b ≡ true → a ≡ b }
    ensures runs { (plan : PlanModel) (a b : List Row) → IsRun plan a → IsRun plan b → core_order a ≡ core_order b → map without_ahead a ≡ map without_ahead b }
    ensures carrying_runs { (plan : PlanModel) (a b : List Row) → IsRun plan a → IsRun plan b → core_order a ≡ core_order b → carries_ahead a ≡ true → carries_ahead b ≡ true → a ≡ b }
{}

/// A worked run with a local resource: a job started later finds it free. If the job were started
/// in spite of the ceiling, it would find the resource held, and both would hold it.
pub fn ceiling_keeps_a_lock_free()
    ensures laws { KeepsLaws blocked_by_the_ceiling.plan blocked_by_the_ceiling.rows }
    ensures held { holds blocked_by_the_ceiling.plan (take 4 blocked_by_the_ceiling.rows) 0 (job 0 0) ≡ true }
    ensures free { holds blocked_by_the_ceiling.plan (take 5 blocked_by_the_ceiling.rows) 0 (job 0 0) ≡ false }
    ensures past_the_ceiling { ¬ NoLocalBlocking blocked_by_the_ceiling.plan blocked_by_the_ceiling.past_the_ceiling }
    ensures two_holders { ¬ MutualExclusion blocked_by_the_ceiling.plan blocked_by_the_ceiling.past_the_ceiling }
{}

/// A worked run in which a global resource passes from one core to another. If it were taken while
/// held, two jobs would hold it.
pub fn handover_has_one_holder()
    ensures laws { KeepsLaws handover_within_a_tick.plan handover_within_a_tick.rows }
    ensures first { holds handover_within_a_tick.plan (take 4 handover_within_a_tick.rows) 0 (job 0 0) ≡ true }
    ensures second { holds handover_within_a_tick.plan (take 6 handover_within_a_tick.rows) 0 (job 1 0) ≡ true }
    ensures taken_when_held { ¬ MutualExclusion handover_within_a_tick.plan handover_within_a_tick.taken_when_held }
{}

/// A worked run in which a job joins a queue with a job of each other core: no queue is longer.
pub fn every_other_core_ahead()
    ensures laws { KeepsLaws three_in_a_queue.plan three_in_a_queue.rows }
    ensures ahead { length (fifo 0 (take 2 three_in_a_queue.rows)) ≡ three_in_a_queue.plan.cores - 1 }
    ensures wait { IsWait (queue 0 0 (job 0 0) 0) (take 11 (drop 3 three_in_a_queue.rows)) (job 0 0) 0 }
    ensures place { three_in_a_queue.rows ≡ take 2 three_in_a_queue.rows ++ queue 0 0 (job 0 0) 0 ∷ (take 11 (drop 3 three_in_a_queue.rows) ++ drop 14 three_in_a_queue.rows) }
    ensures others { count_by (is_acquisition 0) (take 11 (drop 3 three_in_a_queue.rows)) ≡ 1 }
{}

/// A worked run in which, during one wait, others acquire the resource as often as the law allows:
/// one time less than there are cores.
pub fn overtaken_as_often_as_can_be()
    ensures laws { KeepsLaws requested_again.plan requested_again.rows }
    ensures wait { IsWait (queue 2 0 (job 0 0) 0) (take 2 (drop 5 requested_again.rows)) (job 0 0) 0 }
    ensures place { requested_again.rows ≡ take 4 requested_again.rows ++ queue 2 0 (job 0 0) 0 ∷ (take 2 (drop 5 requested_again.rows) ++ drop 7 requested_again.rows) }
    ensures others { count_by (is_acquisition 0) (take 2 (drop 5 requested_again.rows)) ≡ requested_again.plan.cores - 1 }
{}

/// A worked run in which a job spins twice, with a bound of 3: the other core's section plus one.
pub fn spins_within_the_bound()
    ensures laws { KeepsLaws handover_a_tick_later.plan handover_a_tick_later.rows }
    ensures wait { IsWait (queue 0 1 (job 1 0) 0) (take 5 (drop 2 handover_a_tick_later.rows)) (job 1 0) 0 }
    ensures place { handover_a_tick_later.rows ≡ take 1 handover_a_tick_later.rows ++ queue 0 1 (job 1 0) 0 ∷ (take 5 (drop 2 handover_a_tick_later.rows) ++ drop 7 handover_a_tick_later.rows) }
    ensures spins { count_by (is_spin_of (job 1 0)) (take 5 (drop 2 handover_a_tick_later.rows)) ≡ 2 }
    ensures bound { spin_bound handover_a_tick_later.plan 0 1 ≡ 3 }
{}
