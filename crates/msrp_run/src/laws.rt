//! The consequences of the order of a run's trace, and boards that no run leaves. Each function
//! does nothing; its contract is the law.
ghost use Rattle.std.specs.Prelude.{◌≡◌};
ghost use Rattle.msrp_plan.specs.Common.{ℕ, List, [], PlanModel};
ghost use Rattle.msrp_run.specs.Common.{AreLogs, Entry, LogModel, rows_of, turns_of};
ghost use Rattle.msrp_merge.specs.Sorting.{merged};
ghost use Rattle.msrp_plan.specs.declared.rows.Row.{Row as TraceRow};
ghost use Rattle.msrp_run.specs.BrokenRuns as runs;
ghost use Rattle.msrp_run.specs.Threads.{AreDone, IsInOrder, IsServedAs};

/// Rows in the order of a run are the one merge of logs that fit the books.
pub fn ordered_rows_are_merged()
    ensures { (plan : PlanModel) (books : ℕ → List Entry) (rows : List TraceRow) → IsInOrder plan books rows → (logs : List LogModel) × AreLogs plan logs books × (rows ≡ rows_of (merged (turns_of logs) plan.cores plan.ticks)) }
{}

/// Rows without a step aren't a history with a request, and a core in its last tick isn't done.
pub fn broken_runs()
    ensures request_without_row { ¬ IsServedAs runs.one_request 0 [] }
    ensures in_last_tick { ¬ AreDone 6 runs.one_request.books }
{}
