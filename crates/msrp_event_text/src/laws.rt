//! Laws on logs in parts: logs of which records are left out, and logs judged window by window.
//! Each function's contract is the law.
ghost use Rattle.std.specs.Prelude.{◌≡◌, ◌∷◌, ◌++◌};
ghost use Rattle.msrp_plan.specs.Common.{ℕ, List, [], Ok, Some, EachAfter, PlanModel, false, length, map, true};
ghost use Rattle.msrp_events.specs.Laws.{IsLegalLog, state_after};
ghost use Rattle.msrp_events.specs.declared.events.Event.{Event as LogEvent};
ghost use Rattle.msrp_events.specs.declared.findings.LogRule.{LogRule as Rule};
ghost use Rattle.msrp_events.specs.declared.states.Tolerances.{Tolerances as Tolerated};
ghost use Rattle.msrp_event_text.specs.LogEvents.{event_of};
ghost use Rattle.msrp_event_text.specs.LogVerdicts.{awaited_in, is_head, verdict_after, verdict_of};
ghost use Rattle.msrp_event_text.specs.Losses.{AreSome, IsNumbered, events_of};
ghost use Rattle.msrp_event_text.specs.Windows.{later};
ghost use Rattle.msrp_event_text.specs.declared.verdicts.LogVerdict.TheVariants.{Good, Fault};

/// Loss: if a log is good and its records are numbered, then the verdict on some of its records is
/// never a certain fault.
pub fn loss()
    ensures { (system : PlanModel) (tolerances : Tolerated) (first : ℕ → ℕ) (head : List (List ℕ)) (all some : List (List (List ℕ))) → verdict_of system tolerances (head ∷ all) ≡ Ok Good → EachAfter (IsNumbered system first) [] (events_of system all) → AreSome some all → (rule : Rule) (number : ℕ) → verdict_of system tolerances (head ∷ some) ≡ Ok (Fault rule number) → ⊥ }
{}

/// Windows: if a log begins with records of legal events, and has not stopped, then its verdict is
/// that on its rest from the state after these events, but for the numbers of the records.
pub fn windows()
    ensures { (system : PlanModel) (tolerances : Tolerated) (head : List (List ℕ)) (start rest : List (List (List ℕ))) (events : List LogEvent) → is_head system head ≡ true → map (event_of system) start ≡ map (λ e. Some e) events → IsLegalLog system tolerances events → (state_after system events).stopped ≡ false → verdict_of system tolerances (head ∷ (start ++ rest)) ≡ later (length start) (verdict_after system tolerances events (awaited_in (state_after system events)) (head ∷ rest)) }
{}
