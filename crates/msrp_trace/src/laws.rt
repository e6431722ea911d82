//! Laws over the definitions: written rows read back, and two codes. Each function does nothing;
//! its contract is the law.
ghost use Rattle.std.specs.Prelude.{◌≡◌};
ghost use Rattle.msrp_plan.specs.Common.{List, map, None, true, list_all, carries_ahead, PlanModel, IsRunStart, IsPlan};
ghost use Rattle.msrp_plan.specs.declared.rows.Row.{Row};
ghost use Rattle.msrp_plan.specs.declared.rows.TextVersion.{TextVersion};
ghost use Rattle.msrp_plan.specs.declared.rows.TextVersion.TheVariants.{V2};
ghost use Rattle.msrp_text.specs.Records.{csv_records};
ghost use Rattle.msrp_trace.specs.Codes.{code_of};
ghost use Rattle.msrp_trace.specs.Laws.{as_read, has_short_numbers};
ghost use Rattle.msrp_trace.specs.Reading.{rows_of};
ghost use Rattle.msrp_trace.specs.TraceText.{is_named, trace_text};
ghost use Rattle.msrp_trace.specs.declared.faults.TraceFault.TheVariants.{Memory, Read};

/// The text of rows that name the plan's tasks and resources reads back as those rows, legal or
/// not; version 1 omits the aheads. Numbers have at most nine digits, as in every text.
pub fn read_back()
    ensures { (version : TextVersion) (plan : PlanModel) (rows : List Row) → IsPlan plan → list_all (is_named plan) rows ≡ true → list_all has_short_numbers rows ≡ true → (version ≡ V2 → carries_ahead rows ≡ true) → rows_of plan (csv_records (trace_text version plan rows)) ≡ record { rows = map (as_read version) rows; refusal = None } }
{}

/// The text of a legal run, or of a legal start, reads back unchanged; version 1 omits the aheads.
pub fn runs_read_back()
    ensures { (version : TextVersion) (plan : PlanModel) (rows : List Row) → IsPlan plan → IsRunStart plan rows → (version ≡ V2 → carries_ahead rows ≡ true) → rows_of plan (csv_records (trace_text version plan rows)) ≡ record { rows = map (as_read version) rows; refusal = None } }
{}

/// The codes of the faults that no record causes.
pub fn last_codes()
    ensures read { code_of Read ≡ 7 }
    ensures memory { code_of Memory ≡ 8 }
{}
