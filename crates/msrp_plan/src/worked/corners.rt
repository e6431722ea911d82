//! Worked examples of the cases in which a definition is easily misread.
ghost use Rattle.std.specs.Prelude.{◌≡◌, true, false, [], ◌∷◌, ◌++◌, take};
ghost use Rattle.msrp_plan.specs.Calls.{claim_with};
ghost use Rattle.msrp_plan.specs.Codes.{code_of};
ghost use Rattle.msrp_plan.specs.Levels.{level, local_ceiling};
ghost use Rattle.msrp_plan.specs.Limits.{most_bytes, most_calls};
ghost use Rattle.msrp_plan.specs.Bounds.{spin_bound};
ghost use Rattle.msrp_plan.specs.Logs.{ascending, log_of};
ghost use Rattle.msrp_plan.specs.Phases.{phase_after};
ghost use Rattle.msrp_plan.specs.Runs.{IsRun, IsRunStart};
ghost use Rattle.msrp_plan.specs.Verdict.{verdict};
ghost use Rattle.msrp_plan.specs.WellFormed.{IsPlan};
ghost use Rattle.msrp_plan.specs.FifoLock.{Legal};
ghost use Rattle.msrp_plan.specs.Examples.Notation.{fault, idle};
ghost use Rattle.msrp_plan.specs.Examples.NothingToDo as nothing_to_do;
ghost use Rattle.msrp_plan.specs.Examples.HandoverWithinATick as handover_within_a_tick;
ghost use Rattle.msrp_plan.specs.Examples.JobsOfOneTask as jobs_of_one_task;
ghost use Rattle.msrp_plan.specs.Examples.TwoHeads as two_heads;
ghost use Rattle.msrp_plan.specs.Examples.LevelsOverThePlan as levels_over_the_plan;
ghost use Rattle.msrp_plan.specs.Examples.TwoResources as two_resources;
ghost use Rattle.msrp_plan.specs.Examples.UnevenSections as uneven_sections;
ghost use Rattle.msrp_plan.specs.Examples.FiveInAQueue as five_in_a_queue;
ghost use Rattle.msrp_plan.specs.Examples.LockCalls as lock_calls;
ghost use Rattle.msrp_plan.specs.Examples.WrongActions as wrong_actions;
ghost use Rattle.msrp_plan.specs.Examples.PastLimits.{nine_cores, nine_held, no_unit, jobs_8193};
ghost use Rattle.msrp_plan.specs.declared.faults.PlanFault.TheVariants.{Read, Memory};
ghost use Rattle.msrp_plan.specs.declared.faults.Rule.TheVariants.{A3, A4, A5};
ghost use Rattle.msrp_plan.specs.declared.units.Call.TheVariants.{Ask, Leave, Poll};
ghost use Rattle.msrp_plan.specs.declared.units.Phase.TheVariants.{Free, Holding, Queued};

/// Each job of a task waits for its own release; the core idles between two of them.
pub fn jobs_of_one_task()
    ensures run { IsRun jobs_of_one_task.plan jobs_of_one_task.rows }
    ensures too_early { verdict jobs_of_one_task.plan jobs_of_one_task.too_early ≡ fault 3 A3 }
    ensures never_started { verdict jobs_of_one_task.plan jobs_of_one_task.never_started ≡ fault 10 A3 }
{}

/// Of two jobs released at once the earlier deadline starts, in either order of declaration.
pub fn two_heads()
    ensures run { IsRun two_heads.plan two_heads.rows }
    ensures by_declaration { verdict two_heads.plan two_heads.by_declaration ≡ fault 1 A3 }
{}

/// Levels count the relative deadlines of the whole plan.
pub fn levels_over_the_plan()
    ensures hi { level levels_over_the_plan.plan 0 ≡ 3 }
    ensures lo { level levels_over_the_plan.plan 1 ≡ 1 }
    ensures other_core { level levels_over_the_plan.plan 2 ≡ 2 }
    ensures ceiling { local_ceiling levels_over_the_plan.plan 0 ≡ 3 }
{}

/// Two global resources in one run: a request names the resource of the job's unit, and the reply
/// comes from that resource's own queue.
pub fn two_resources()
    ensures run { IsRun two_resources.plan two_resources.rows }
    ensures other_resource { verdict two_resources.plan two_resources.other_resource ≡ fault 6 A4 }
    ensures queued_for_another { verdict two_resources.plan two_resources.queued_for_another ≡ fault 2 A5 }
{}

/// A reply that the job can't ask for violates the rule of actions, whatever the queue replies.
pub fn wrong_actions()
    ensures taken_while_queued { verdict handover_within_a_tick.plan wrong_actions.taken_while_queued ≡ fault 4 A4 }
    ensures spun_unasked { verdict handover_within_a_tick.plan wrong_actions.spun_unasked ≡ fault 1 A4 }
{}

/// Four of five cores wait in one queue and are served in its order.
pub fn five_in_a_queue()
    ensures run { IsRun five_in_a_queue.plan five_in_a_queue.rows }
    ensures last_first { verdict five_in_a_queue.plan five_in_a_queue.last_first ≡ fault 10 A5 }
{}

/// The bound on spinning counts the longest section of each other core that uses the resource only.
pub fn uneven_sections()
    ensures of_core_1 { spin_bound uneven_sections.plan 0 1 ≡ 4 }
    ensures of_core_0 { spin_bound uneven_sections.plan 0 0 ≡ 3 }
    ensures of_core_2 { spin_bound uneven_sections.plan 0 2 ≡ 7 }
{}

/// Calls of a lock with three in its queue, and calls that it refuses.
pub fn lock_calls()
    ensures three_waiting { Legal lock_calls.three_waiting }
    ensures left_ungranted { ¬ Legal lock_calls.left_ungranted }
    ensures granted_twice { ¬ Legal lock_calls.granted_twice }
    ensures first_in_vain { ¬ Legal lock_calls.first_in_vain }
    ensures asked_twice { ¬ Legal lock_calls.asked_twice }
    ensures polled_unasked { ¬ Legal lock_calls.polled_unasked }
{}

/// The rising order of cores, and a core's phase after its rows and after each of its calls.
pub fn orders_and_phases()
    ensures rising { ascending 2 2 ≡ 0 ∷ 1 ∷ 0 ∷ 1 ∷ [] }
    ensures holding { phase_after (log_of 0 (take 4 handover_within_a_tick.rows)) ≡ Holding (record { 0 = 0 }) }
    ensures queued { phase_after (log_of 1 (take 4 handover_within_a_tick.rows)) ≡ Queued (record { 0 = 0 }) }
    ensures released { phase_after (log_of 0 handover_within_a_tick.rows) ≡ Free }
    ensures takes { claim_with Free (record { 0 = 0 }) (Ask 0) ≡ Holding (record { 0 = 0 }) }
    ensures joins { claim_with Free (record { 0 = 0 }) (Ask 1) ≡ Queued (record { 0 = 0 }) }
    ensures spins { claim_with (Queued (record { 0 = 0 })) (record { 0 = 0 }) (Poll false) ≡ Queued (record { 0 = 0 }) }
    ensures granted { claim_with (Queued (record { 0 = 0 })) (record { 0 = 0 }) (Poll true) ≡ Holding (record { 0 = 0 }) }
    ensures leaves { claim_with (Holding (record { 0 = 0 })) (record { 0 = 0 }) Leave ≡ Free }
{}

/// The limits of a source of bytes, and the codes of the two refusals that no text causes.
pub fn source_limits()
    ensures bytes { most_bytes ≡ 16777216 }
    ensures calls { most_calls ≡ 33554432 }
    ensures read { code_of Read ≡ 15 }
    ensures memory { code_of Memory ≡ 16 }
{}

/// No plan exceeds a limit, and no start is longer than a run.
pub fn past_limits()
    ensures cores { ¬ IsPlan nine_cores }
    ensures held { ¬ IsPlan nine_held }
    ensures unit { ¬ IsPlan no_unit }
    ensures jobs { ¬ IsPlan jobs_8193 }
    ensures rows { ¬ IsRunStart nothing_to_do.plan (nothing_to_do.rows ++ idle 1 0 ∷ []) }
{}
