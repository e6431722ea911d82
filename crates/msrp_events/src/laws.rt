//! Laws on logs, for all systems, tolerances and events. Each function's contract is the law.
ghost use Rattle.std.specs.Prelude.{◌≡◌, ◌<◌, ◌≤◌, ◌+◌, ◌++◌, ◌∷◌, ℕ, length, List, [], Option, Some, false};
ghost use Rattle.msrp_plan.specs.Plan.{PlanModel};
ghost use Rattle.msrp_events.specs.Changes.{LogState, state_from};
ghost use Rattle.msrp_events.specs.Findings.{finding_from};
ghost use Rattle.msrp_events.specs.Laws.{AreWider, AreBalanced, HoldsFrom, IsEngagedOn, IsHeldByOne, IsInTime, IsLegalFrom, IsLegalLog, is_acquire, is_due, is_off, is_request, jobs_by, state_after, waiting};
ghost use Rattle.msrp_plan.specs.declared.ids.JobId.{JobId};
ghost use Rattle.msrp_events.specs.declared.events.Action.TheVariants.{Switch};
ghost use Rattle.msrp_events.specs.declared.events.Event.{Event as LogEvent};
ghost use Rattle.msrp_events.specs.declared.findings.Finding.{Finding as Found};
ghost use Rattle.msrp_events.specs.declared.states.LiveJob.{LiveJob};
ghost use Rattle.msrp_events.specs.declared.states.Tolerances.{Tolerances as Tolerated};

/// Windows: after a legal start, a log's finding is that of its rest from the state after the
/// start. After a start with a finding the rest changes nothing.
pub fn windows()
    ensures rest { (system : PlanModel) (tolerances : Tolerated) (s : LogState) (start rest : List LogEvent) → IsLegalFrom system tolerances s start → finding_from system tolerances s (start ++ rest) ≡ finding_from system tolerances (state_from system s start) rest }
    ensures start { (system : PlanModel) (tolerances : Tolerated) (s : LogState) (start rest : List LogEvent) (found : Found) → finding_from system tolerances s start ≡ Some found → finding_from system tolerances s (start ++ rest) ≡ Some found }
{}

/// Tolerance is monotone: a log that is legal with some tolerances is legal with greater ones.
pub fn tolerance()
    ensures log { (system : PlanModel) (narrow wide : Tolerated) (events : List LogEvent) → AreWider narrow wide → IsLegalLog system narrow events → IsLegalLog system wide events }
    ensures window { (system : PlanModel) (narrow wide : Tolerated) (s : LogState) (events : List LogEvent) → AreWider narrow wide → IsLegalFrom system narrow s events → IsLegalFrom system wide s events }
{}

/// Mutual exclusion: after each legal start of a log at most one job holds a resource.
pub fn mutual_exclusion()
    ensures { (system : PlanModel) (tolerances : Tolerated) (events : List LogEvent) → IsLegalLog system tolerances events → IsHeldByOne system (state_after system events).jobs }
{}

/// First come, first served: in a legal log the jobs that request a resource are, in this order,
/// those that acquire it and then those that still wait for it.
pub fn first_come_first_served()
    ensures { (system : PlanModel) (tolerances : Tolerated) (events : List LogEvent) (g : ℕ) → IsLegalLog system tolerances events → (state_after system events).stopped ≡ false → jobs_by is_request g events ≡ jobs_by is_acquire g events ++ waiting system g (state_after system events).jobs }
{}

/// A core runs its choice but for short stretches: if from an event on its choice has been another
/// job than it runs, then each later event of a legal log is within slack and skew after that
/// event, or after the end of the core's last operation.
pub fn stretches()
    ensures { (system : PlanModel) (tolerances : Tolerated) (start : List LogEvent) (d : LogEvent) (mid : List LogEvent) (e : LogEvent) (c : ℕ) → c < system.cores → HoldsFrom system tolerances (is_off system c) start d mid e → IsInTime tolerances (state_after system (start ++ d ∷ mid)) c d.time e }
{}

/// No lost wake-up: if from an event on a resource has been free while a job awaits it, then each
/// later event of a legal log is within an operation, slack and skew after that event.
pub fn hand_overs()
    ensures { (system : PlanModel) (tolerances : Tolerated) (start : List LogEvent) (d : LogEvent) (mid : List LogEvent) (e : LogEvent) (g : ℕ) → AreBalanced system → g < length system.resources → HoldsFrom system tolerances (is_due system g) start d mid e → e.time ≤ d.time + (tolerances.operation + tolerances.slack + tolerances.skew) }
{}

/// Nobody preempts a job that waits for a global resource or holds one: in a legal log each switch
/// of its core is to this job.
pub fn unpreempted()
    ensures { (system : PlanModel) (tolerances : Tolerated) (events : List LogEvent) (e : LogEvent) (o : Option JobId) (x : LiveJob) → IsLegalLog system tolerances (events ++ e ∷ []) → (state_after system events).stopped ≡ false → e.action ≡ Switch o → IsEngagedOn system (state_after system events) e.core.0 x → o ≡ Some x.job }
{}
