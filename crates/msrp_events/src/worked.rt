//! Worked examples, computed from the definitions alone: a legal log of two cores, and a log for
//! each rule violated and each thing lacking. Each function does nothing; its contract is the
//! example. The logs are in `specs/Examples`.
ghost use Rattle.std.specs.Prelude.{◌≡◌, true, false};
ghost use Rattle.msrp_plan.specs.Levels.{level, local_ceiling, top, is_global};
ghost use Rattle.msrp_events.specs.Findings.{finding_in};
ghost use Rattle.msrp_events.specs.Examples.Notation.{good, fault, lacks};
ghost use Rattle.msrp_events.specs.Examples.TwoCores as two;
ghost use Rattle.msrp_events.specs.declared.findings.LogRule.TheVariants.{E1, E2, E3, E4, E5, E6, E7, E8, E9, E10};
ghost use Rattle.msrp_events.specs.declared.findings.Missing.TheVariants.{Core, Start, Restart, Records, Clock, Release, Request, Room};

/// The log is legal, and events after its end aren't judged. A core's clock begins at its boot.
pub fn legal_log()
    ensures log { finding_in two.system two.tolerances two.log ≡ good }
    ensures after_stop { finding_in two.system two.tolerances two.after_stop ≡ good }
    ensures boots_late { finding_in two.system two.tolerances two.boots_late ≡ good }
    ensures released_elsewhere { finding_in two.system two.skewed two.released_elsewhere ≡ good }
    ensures level_hi { level two.system 0 ≡ 3 }
    ensures level_far { level two.system 2 ≡ 2 }
    ensures bus { is_global two.system 0 ≡ true }
    ensures cal { is_global two.system 1 ≡ false }
    ensures ceiling_cal { local_ceiling two.system 1 ≡ 3 }
    ensures top { top two.system 1 ≡ 2 }
{}

/// Each rule is violated by a log.
pub fn faulty_logs()
    ensures runs_on { finding_in two.system two.tolerances two.runs_on ≡ fault E1 }
    ensures acquires_late { finding_in two.system two.tolerances two.acquires_late ≡ fault E2 }
    ensures no_such_task { finding_in two.system two.tolerances two.no_such_task ≡ fault E3 }
    ensures on_another_core { finding_in two.system two.tolerances two.on_another_core ≡ fault E4 }
    ensures before_its_release { finding_in two.system two.tolerances two.before_its_release ≡ fault E5 }
    ensures after_its_end { finding_in two.system two.tolerances two.after_its_end ≡ fault E6 }
    ensures released_twice { finding_in two.system two.tolerances two.released_twice ≡ fault E7 }
    ensures past_the_ceiling { finding_in two.system two.tolerances two.past_the_ceiling ≡ fault E8 }
    ensures away_from_a_spinner { finding_in two.system two.tolerances two.away_from_a_spinner ≡ fault E8 }
    ensures acts_unscheduled { finding_in two.system two.tolerances two.acts_unscheduled ≡ fault E8 }
    ensures acts_on { finding_in two.system two.tolerances two.acts_on ≡ fault E8 }
    ensures steps_over_an_unlock { finding_in two.system two.tolerances two.steps_over_an_unlock ≡ fault E9 }
    ensures ends_early { finding_in two.system two.tolerances two.ends_early ≡ fault E9 }
    ensures two_holders { finding_in two.system two.tolerances two.two_holders ≡ fault E10 }
    ensures polls_past_its_turn { finding_in two.system two.tolerances two.polls_past_its_turn ≡ fault E10 }
{}

/// What a log lacks isn't a fault.
pub fn incomplete_logs()
    ensures from_an_unknown_core { finding_in two.system two.tolerances two.from_an_unknown_core ≡ lacks Core }
    ensures without_a_start { finding_in two.system two.tolerances two.without_a_start ≡ lacks Start }
    ensures started_again { finding_in two.system two.tolerances two.started_again ≡ lacks Restart }
    ensures with_lost_records { finding_in two.system two.tolerances two.with_lost_records ≡ lacks Records }
    ensures with_a_gap { finding_in two.system two.tolerances two.with_a_gap ≡ lacks Records }
    ensures with_a_clock_back { finding_in two.system two.tolerances two.with_a_clock_back ≡ lacks Clock }
    ensures without_a_release { finding_in two.system two.tolerances two.without_a_release ≡ lacks Release }
    ensures without_a_request { finding_in two.system two.tolerances two.without_a_request ≡ lacks Request }
    ensures with_too_many_jobs { finding_in two.system two.tolerances two.with_too_many_jobs ≡ lacks Room }
{}
