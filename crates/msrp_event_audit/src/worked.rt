//! Worked examples of start states, computed from the definitions alone. The facts are in
//! `specs/Examples`.
ghost use Rattle.std.specs.Prelude.{◌≡◌};
ghost use Rattle.msrp_plan.specs.Common.{drop, take};
ghost use Rattle.msrp_events.specs.Examples.Notation.{fault, good};
ghost use Rattle.msrp_events.specs.Examples.TwoCores as two;
ghost use Rattle.msrp_events.specs.Findings.{finding_from};
ghost use Rattle.msrp_events.specs.Laws.{state_after};
ghost use Rattle.msrp_events.specs.declared.findings.LogRule.TheVariants.{E2};
ghost use Rattle.msrp_event_audit.specs.Examples.StartStates as example;
ghost use Rattle.msrp_event_audit.specs.StartStates.{state_by};

/// The facts describe the states after 7 and after 19 events of the log of two cores. From there
/// the rest of the log is legal, and a late acquire is a fault, as in the whole log.
pub fn start_states()
    ensures switch_due { state_by two.system example.switch_due ≡ state_after two.system (take 7 two.log) }
    ensures handed_over { state_by two.system example.handed_over ≡ state_after two.system (take 19 two.log) }
    ensures rest { finding_from two.system two.tolerances (state_by two.system example.handed_over) (drop 19 two.log) ≡ good }
    ensures late { finding_from two.system two.tolerances (state_by two.system example.handed_over) example.acquires_late ≡ fault E2 }
{}
