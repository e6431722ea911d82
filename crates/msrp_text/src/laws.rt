//! Laws over the definitions: what an answer says of the single records. Each function does
//! nothing; its contract is the law.
ghost use Rattle.std.specs.Prelude.{◌≡◌};
ghost use Rattle.msrp_plan.specs.Common.{ℕ, List, Ok, Err, PlanModel, IsPlan};
ghost use Rattle.msrp_plan.specs.declared.faults.PlanFault.{PlanFault};
ghost use Rattle.msrp_text.specs.Laws.{IsAccepted, IsFirstRefused};
ghost use Rattle.msrp_text.specs.PlanText.{plan_text};
ghost use Rattle.msrp_text.specs.Reading.{csv_records, plan_of};
ghost use Rattle.msrp_text.specs.declared.reading.TextError.TheVariants.{At};

/// A refusal names the first record that violates a rule, given those before it, and the rule.
pub fn first_refusal()
    ensures { (records : List (List (List ℕ))) (fault : PlanFault) (number : ℕ) → plan_of records ≡ Err (At fault number) → IsFirstRefused records fault number }
{}

/// In an accepted text no record, nor the end, violates a rule, and the plan is the records'.
pub fn acceptance()
    ensures { (records : List (List (List ℕ))) (plan : PlanModel) → plan_of records ≡ Ok plan → IsAccepted records plan }
{}

/// The text that is written of a well-formed plan reads back as that plan.
pub fn read_back()
    ensures { (plan : PlanModel) → IsPlan plan → plan_of (csv_records (plan_text plan)) ≡ Ok plan }
{}
