//! Worked examples, computed from the definitions alone: for each plan a legal run, and rows that
//! aren't legal with the verdict on them. Each function does nothing; its contract is the example.
//! The plans and rows are in `specs/Examples`.
ghost use Rattle.std.specs.Prelude.{◌≡◌, true, false, [], ◌∷◌, ◌++◌, Some, None, codes, map, replicate};
ghost use Rattle.msrp_plan.specs.Aheads.{carries_ahead};
ghost use Rattle.msrp_plan.specs.Levels.{level, local_ceiling, top, is_global};
ghost use Rattle.msrp_plan.specs.Runs.{IsRun};
ghost use Rattle.msrp_plan.specs.Verdict.{verdict};
ghost use Rattle.msrp_plan.specs.FifoLock.{Legal};
ghost use Rattle.msrp_plan.specs.Building.{new_fault, resource_fault, task_fault, release_fault, op_fault, finish_fault, takes_releases};
ghost use Rattle.msrp_plan.specs.Examples.Notation.{fault, works, locks, section};
ghost use Rattle.msrp_plan.specs.Examples.NothingToDo as nothing_to_do;
ghost use Rattle.msrp_plan.specs.Examples.WorkThenIdle as work_then_idle;
ghost use Rattle.msrp_plan.specs.Examples.DeadlineAbovePeriod as deadline_above_period;
ghost use Rattle.msrp_plan.specs.Examples.ListedReleases as listed_releases;
ghost use Rattle.msrp_plan.specs.Examples.BlockedByTheCeiling as blocked_by_the_ceiling;
ghost use Rattle.msrp_plan.specs.Examples.PreemptsASection as preempts_a_section;
ghost use Rattle.msrp_plan.specs.Examples.EqualDeadlines as equal_deadlines;
ghost use Rattle.msrp_plan.specs.Examples.EqualDeadlinesReversed as equal_deadlines_reversed;
ghost use Rattle.msrp_plan.specs.Examples.BlockedHead as blocked_head;
ghost use Rattle.msrp_plan.specs.Examples.HandoverWithinATick as handover_within_a_tick;
ghost use Rattle.msrp_plan.specs.Examples.HandoverATickLater as handover_a_tick_later;
ghost use Rattle.msrp_plan.specs.Examples.ThreeInAQueue as three_in_a_queue;
ghost use Rattle.msrp_plan.specs.Examples.RaisedWhileHolding as raised_while_holding;
ghost use Rattle.msrp_plan.specs.Examples.RaisedWhileQueued as raised_while_queued;
ghost use Rattle.msrp_plan.specs.Examples.LocalInsideGlobal as local_inside_global;
ghost use Rattle.msrp_plan.specs.Examples.RequestedAgain as requested_again;
ghost use Rattle.msrp_plan.specs.Examples.LockHistory as lock_history;
ghost use Rattle.msrp_plan.specs.Examples.Refusals.{with_tasks, fresh, after, after_ticks, full_of_resources, full_of_tasks, eight_held, nested, nested_local, nested_with_many_jobs};
ghost use Rattle.msrp_plan.specs.declared.faults.PlanFault.TheVariants.{Name, Taken, Limit, Undeclared, Core, Nesting, NestedGlobal, NoUnit, Releases};
ghost use Rattle.msrp_plan.specs.declared.units.Step.TheVariants.{Run, Lock, Unlock};
ghost use Rattle.msrp_plan.specs.declared.faults.Rule.TheVariants.{A1, A2, A3, A4, A5, A6, A7};

mod corners;

pub use corners::{
    five_in_a_queue, jobs_of_one_task, levels_over_the_plan, lock_calls, orders_and_phases,
    past_limits, source_limits, two_heads, two_resources, uneven_sections, wrong_actions,
};

/// A plan without a task: its core idles.
pub fn nothing_to_do()
    ensures run { IsRun nothing_to_do.plan nothing_to_do.rows }
{}

/// One task on one core works, then the core idles. Too much work, or idling too soon, isn't legal.
pub fn work_then_idle()
    ensures run { IsRun work_then_idle.plan work_then_idle.rows }
    ensures too_long { verdict work_then_idle.plan work_then_idle.too_long ≡ fault 3 A3 }
    ensures too_late { verdict work_then_idle.plan work_then_idle.too_late ≡ fault 1 A3 }
{}

/// A relative deadline may exceed the period: a task's jobs still run one after another.
pub fn deadline_above_period()
    ensures run { IsRun deadline_above_period.plan deadline_above_period.rows }
    ensures next_job_first { verdict deadline_above_period.plan deadline_above_period.next_job_first ≡ fault 4 A3 }
{}

/// A listed task is released at the ticks of its list and at no others.
pub fn listed_releases()
    ensures run { IsRun listed_releases.plan listed_releases.rows }
    ensures late_release { IsRun listed_releases.with_a_late_release listed_releases.rows }
    ensures too_early { verdict listed_releases.plan listed_releases.too_early ≡ fault 1 A3 }
    ensures third_job { verdict listed_releases.plan listed_releases.third_job ≡ fault 5 A2 }
    ensures late_job { verdict listed_releases.with_a_late_release listed_releases.third_job ≡ fault 5 A2 }
{}

/// A job whose level isn't above the ceiling isn't started, even with an earlier deadline (Baker
/// 1991).
pub fn blocked_by_the_ceiling()
    ensures run { IsRun blocked_by_the_ceiling.plan blocked_by_the_ceiling.rows }
    ensures past_the_ceiling { verdict blocked_by_the_ceiling.plan blocked_by_the_ceiling.past_the_ceiling ≡ fault 2 A3 }
    ensures level_lo { level blocked_by_the_ceiling.plan 0 ≡ 1 }
    ensures level_hi { level blocked_by_the_ceiling.plan 1 ≡ 2 }
    ensures ceiling_r { local_ceiling blocked_by_the_ceiling.plan 0 ≡ 2 }
    ensures top { top blocked_by_the_ceiling.plan 0 ≡ 2 }
    ensures local { is_global blocked_by_the_ceiling.plan 0 ≡ false }
{}

/// A job whose level is above the ceiling preempts the holder of a local resource.
pub fn preempts_a_section()
    ensures run { IsRun preempts_a_section.plan preempts_a_section.rows }
    ensures without_preemption { verdict preempts_a_section.plan preempts_a_section.without_preemption ≡ fault 2 A3 }
    ensures ceiling_r { local_ceiling preempts_a_section.plan 0 ≡ 1 }
{}

/// Equal absolute deadlines never preempt: the job released first runs first.
pub fn equal_deadlines()
    ensures run { IsRun equal_deadlines.plan equal_deadlines.rows }
    ensures preempted { verdict equal_deadlines.plan equal_deadlines.preempted ≡ fault 3 A3 }
{}

/// Two jobs of equal absolute deadlines; the one of the higher task number is released first. The
/// release is compared before the task number.
pub fn equal_deadlines_reversed()
    ensures run { IsRun equal_deadlines_reversed.plan equal_deadlines_reversed.rows }
    ensures by_task_number { verdict equal_deadlines_reversed.plan equal_deadlines_reversed.by_task_number ≡ fault 3 A3 }
{}

/// A blocked head holds up the jobs after it, even one whose level exceeds the ceiling.
pub fn blocked_head()
    ensures run { IsRun blocked_head.plan blocked_head.rows }
    ensures past_the_head { verdict blocked_head.plan blocked_head.past_the_head ≡ fault 13 A3 }
    ensures past_the_ceiling { verdict blocked_head.plan blocked_head.past_the_ceiling ≡ fault 13 A3 }
{}

/// A global resource passes between cores within a tick if the order of turns allows. Also rows
/// that violate each of the rules.
pub fn handover_within_a_tick()
    ensures run { IsRun handover_within_a_tick.plan handover_within_a_tick.rows }
    ensures without_ahead { carries_ahead handover_within_a_tick.rows ≡ false }
    ensures ahead_run { IsRun handover_within_a_tick.plan handover_within_a_tick.with_ahead }
    ensures with_ahead { carries_ahead handover_within_a_tick.with_ahead ≡ true }
    ensures ahead_miscounted { verdict handover_within_a_tick.plan handover_within_a_tick.ahead_miscounted ≡ fault 2 A5 }
    ensures turn_of_no_core { verdict handover_within_a_tick.plan handover_within_a_tick.turn_of_no_core ≡ fault 1 A1 }
    ensures second_turn { verdict handover_within_a_tick.plan handover_within_a_tick.second_turn ≡ fault 2 A1 }
    ensures tick_too_early { verdict handover_within_a_tick.plan handover_within_a_tick.tick_too_early ≡ fault 2 A1 }
    ensures job_of_another_core { verdict handover_within_a_tick.plan handover_within_a_tick.job_of_another_core ≡ fault 3 A2 }
    ensures no_such_job { verdict handover_within_a_tick.plan handover_within_a_tick.no_such_job ≡ fault 3 A2 }
    ensures idle_too_soon { verdict handover_within_a_tick.plan handover_within_a_tick.idle_too_soon ≡ fault 3 A3 }
    ensures unit_skipped { verdict handover_within_a_tick.plan handover_within_a_tick.unit_skipped ≡ fault 3 A4 }
    ensures queued_when_free { verdict handover_within_a_tick.plan handover_within_a_tick.queued_when_free ≡ fault 1 A5 }
    ensures taken_when_held { verdict handover_within_a_tick.plan handover_within_a_tick.taken_when_held ≡ fault 2 A5 }
    ensures granted_when_held { verdict handover_within_a_tick.plan handover_within_a_tick.granted_when_held ≡ fault 4 A5 }
    ensures spin_when_first { verdict handover_within_a_tick.plan handover_within_a_tick.spin_when_first ≡ fault 6 A5 }
    ensures cut { verdict handover_within_a_tick.plan handover_within_a_tick.cut ≡ fault 12 A6 }
    ensures doubled { verdict handover_within_a_tick.plan handover_within_a_tick.doubled ≡ fault 13 A7 }
{}

/// A resource released after the waiting core's turn in that tick is granted in the next tick.
pub fn handover_a_tick_later()
    ensures run { IsRun handover_a_tick_later.plan handover_a_tick_later.rows }
    ensures before_the_release { verdict handover_a_tick_later.plan handover_a_tick_later.before_the_release ≡ fault 5 A5 }
{}

/// A queue is served in request order (Gai, Lipari and Di Natale 2001).
pub fn three_in_a_queue()
    ensures run { IsRun three_in_a_queue.plan three_in_a_queue.rows }
    ensures out_of_order { verdict three_in_a_queue.plan three_in_a_queue.out_of_order ≡ fault 9 A5 }
{}

/// A core's ceiling is its highest level while one of its jobs holds a global resource. A resource
/// is global because of the tasks that use it, with or without jobs.
pub fn raised_while_holding()
    ensures run { IsRun raised_while_holding.plan raised_while_holding.rows }
    ensures holder_preempted { verdict raised_while_holding.plan raised_while_holding.holder_preempted ≡ fault 3 A3 }
    ensures locked_as_local { verdict raised_while_holding.plan raised_while_holding.locked_as_local ≡ fault 1 A4 }
    ensures level_lo { level raised_while_holding.plan 0 ≡ 1 }
    ensures level_hi { level raised_while_holding.plan 1 ≡ 2 }
    ensures level_other { level raised_while_holding.plan 2 ≡ 1 }
    ensures global { is_global raised_while_holding.plan 0 ≡ true }
    ensures top_0 { top raised_while_holding.plan 0 ≡ 2 }
    ensures top_1 { top raised_while_holding.plan 1 ≡ 1 }
{}

/// A core's ceiling is its highest level as soon as one of its jobs is queued.
pub fn raised_while_queued()
    ensures run { IsRun raised_while_queued.plan raised_while_queued.rows }
    ensures waiter_preempted { verdict raised_while_queued.plan raised_while_queued.waiter_preempted ≡ fault 4 A3 }
{}

/// A local section inside a global one: `h` is local, since only one core uses it.
pub fn local_inside_global()
    ensures run { IsRun local_inside_global.plan local_inside_global.rows }
    ensures taken_as_global { verdict local_inside_global.plan local_inside_global.taken_as_global ≡ fault 3 A4 }
    ensures released_before { verdict local_inside_global.plan local_inside_global.released_before ≡ fault 5 A4 }
    ensures global { is_global local_inside_global.plan 0 ≡ true }
    ensures local { is_global local_inside_global.plan 1 ≡ false }
{}

/// A resource released and requested again goes to the job queued first.
pub fn requested_again()
    ensures run { IsRun requested_again.plan requested_again.rows }
    ensures overtakes { verdict requested_again.plan requested_again.overtakes ≡ fault 5 A5 }
{}

/// The history of a lock that two cores call, each answer as a first-in-first-out lock gives it,
/// and histories with one wrong answer.
pub fn lock_history()
    ensures legal { Legal lock_history.history }
    ensures granted_too_soon { ¬ Legal lock_history.granted_too_soon }
    ensures ahead_miscounted { ¬ Legal lock_history.ahead_miscounted }
    ensures left_by_another { ¬ Legal lock_history.left_by_another }
{}

/// Which numbers of cores and ticks a plan may have.
pub fn refused_numbers()
    ensures one_core { new_fault 1 20000 ≡ None }
    ensures nine_cores { new_fault 9 5 ≡ Some Limit }
    ensures no_core { new_fault 0 5 ≡ Some Limit }
    ensures too_long { new_fault 1 20001 ≡ Some Limit }
{}

/// Which resources a builder refuses: the name is checked before the limit of 32.
pub fn refused_resources()
    ensures resource_named { resource_fault (with_tasks []) (codes "a_0") ≡ None }
    ensures longest_name { resource_fault (with_tasks []) (codes "a123456789012345") ≡ None }
    ensures name_too_long { resource_fault (with_tasks []) (codes "a1234567890123456") ≡ Some Name }
    ensures no_name { resource_fault (with_tasks []) [] ≡ Some Name }
    ensures digit_first { resource_fault (with_tasks []) (codes "0a") ≡ Some Name }
    ensures capital { resource_fault (with_tasks []) (codes "aB") ≡ Some Name }
    ensures byte_beside { map (λ byte. resource_fault (with_tasks []) (codes "a" ++ byte ∷ [])) (codes "-/:^`{") ≡ replicate 6 (Some Name) }
    ensures byte_first { map (λ byte. resource_fault (with_tasks []) (byte ∷ codes "a")) (codes "-0_`{") ≡ replicate 5 (Some Name) }
    ensures resource_taken { resource_fault full_of_resources (codes "r") ≡ Some Taken }
    ensures resource_33 { resource_fault full_of_resources (codes "s") ≡ Some Limit }
{}

/// Which tasks a builder refuses: the previous task's end is checked first, then name, core and
/// limits.
pub fn refused_tasks()
    ensures first_task { task_fault (with_tasks []) (fresh (codes "g") 1 1 1000000 0) ≡ None }
    ensures unitless { task_fault (after []) (fresh (codes "B") 2 0 0 0) ≡ Some NoUnit }
    ensures held_at_the_end { task_fault (after (locks 0 ∷ [])) (fresh (codes "B") 2 0 0 0) ≡ Some Nesting }
    ensures task_misnamed { task_fault (after (works 1)) (fresh (codes "B") 2 0 0 0) ≡ Some Name }
    ensures task_taken { task_fault full_of_tasks (fresh (codes "a") 2 0 0 0) ≡ Some Taken }
    ensures no_such_core { task_fault full_of_tasks (fresh (codes "b") 2 0 0 0) ≡ Some Core }
    ensures task_65 { task_fault full_of_tasks (fresh (codes "b") 1 20 10 0) ≡ Some Limit }
    ensures no_period { task_fault (with_tasks []) (fresh (codes "a") 1 0 10 0) ≡ Some Limit }
    ensures deadline_too_long { task_fault (with_tasks []) (fresh (codes "a") 1 20 1000001 0) ≡ Some Limit }
    ensures offset_too_long { task_fault (with_tasks []) (fresh (codes "a") 1 20 10 1000001) ≡ Some Limit }
{}

/// Which releases a builder refuses, and what it refuses when a list has none.
pub fn refused_releases()
    ensures first_release { release_fault (after_ticks []) 0 ≡ None }
    ensures last_tick { release_fault (after_ticks (3 ∷ [])) 1000000 ≡ None }
    ensures twice { release_fault (after_ticks (1 ∷ [])) 1 ≡ Some Releases }
    ensures falling { release_fault (after_ticks (1 ∷ 3 ∷ [])) 2 ≡ Some Releases }
    ensures tick_too_late { release_fault (after_ticks []) 1000001 ≡ Some Limit }
    ensures release_8193 { release_fault (after_ticks (replicate 8192 9)) 0 ≡ Some Limit }
    ensures takes_first { takes_releases (after_ticks []) ≡ true }
    ensures takes_more { takes_releases (after_ticks (1 ∷ [])) ≡ true }
    ensures periodic { takes_releases (after []) ≡ false }
    ensures no_list { takes_releases (with_tasks []) ≡ false }
    ensures step_before_release { op_fault (after_ticks []) (Run 0) ≡ Some Releases }
    ensures step_of_none { op_fault (after_ticks (1 ∷ [])) (Run 0) ≡ Some Limit }
    ensures end_before_release { finish_fault (after_ticks []) ≡ Some Releases }
    ensures end_before_unit { finish_fault (after_ticks (1 ∷ [])) ≡ Some NoUnit }
    ensures next_before_release { task_fault (after_ticks []) (fresh (codes "B") 2 0 0 0) ≡ Some Releases }
{}

/// Which steps a builder refuses: the resource is checked first, then the nesting, then the limits.
pub fn refused_steps()
    ensures locked { op_fault (after (works 4095)) (Lock (record { 0 = 1 })) ≡ None }
    ensures undeclared { op_fault (after (works 4096)) (Lock (record { 0 = 2 })) ≡ Some Undeclared }
    ensures locked_twice { op_fault (after (locks 0 ∷ [])) (Lock (record { 0 = 0 })) ≡ Some Nesting }
    ensures not_innermost { op_fault (after (locks 0 ∷ locks 1 ∷ [])) (Unlock (record { 0 = 0 })) ≡ Some Nesting }
    ensures not_held { op_fault (after (section 0 1)) (Unlock (record { 0 = 0 })) ≡ Some Nesting }
    ensures unlock_4097 { op_fault (after (locks 0 ∷ locks 1 ∷ works 4094)) (Unlock (record { 0 = 1 })) ≡ Some Limit }
    ensures ninth_held { op_fault eight_held (Lock (record { 0 = 8 })) ≡ Some Limit }
    ensures ninth_held_twice { op_fault eight_held (Lock (record { 0 = 7 })) ≡ Some Nesting }
    ensures run_of_none { op_fault (after []) (Run 0) ≡ Some Limit }
    ensures longest_run { op_fault (after []) (Run 4096) ≡ None }
    ensures run_too_long { op_fault (after (works 1)) (Run 4096) ≡ Some Limit }
{}

/// Which plans a builder refuses at the end.
pub fn refused_plans()
    ensures finished { finish_fault nested_local ≡ None }
    ensures nested_global { finish_fault nested ≡ Some NestedGlobal }
    ensures before_jobs { finish_fault nested_with_many_jobs ≡ Some NestedGlobal }
    ensures last_unitless { finish_fault (after []) ≡ Some NoUnit }
    ensures last_holds { finish_fault (after (locks 0 ∷ [])) ≡ Some Nesting }
    ensures without_tasks { finish_fault (with_tasks []) ≡ None }
{}
