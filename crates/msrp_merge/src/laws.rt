//! Laws that the merge rests on. Each function does nothing; its contract is the law.
ghost use Rattle.msrp_plan.specs.Common.{ℕ, List, [], None, map, true, false, PlanModel, EachAfter, is_fifo_reply, IsPlan};
ghost use Rattle.msrp_merge.specs.Common.{Entry, Event, IsHistory, Row, Turn};
ghost use Rattle.std.specs.Prelude.{◌≡◌, ◌∷◌, ◌++◌, filter};
ghost use Rattle.msrp_plan.specs.Examples.HandoverATickLater as handover_a_tick_later;
ghost use Rattle.msrp_plan.specs.Examples.HandoverWithinATick as handover_within_a_tick;
ghost use Rattle.msrp_plan.specs.Logs.{AreInterleaved};
ghost use Rattle.msrp_board.specs.Boards.{entries_at};
ghost use Rattle.msrp_board.specs.Books.{IsChain};
ghost use Rattle.msrp_board.specs.History.{IsNotLater, IsServed};
ghost use Rattle.msrp_board.specs.Words.{ticket_word};
ghost use Rattle.msrp_merge.specs.Handover.{books, history, logs};
ghost use Rattle.msrp_merge.specs.Merging.{AreLogs, turns_of};
ghost use Rattle.msrp_merge.specs.Order.{InOrder, Sorted};
ghost use Rattle.msrp_merge.specs.Pairs.{Paired};
ghost use Rattle.msrp_merge.specs.Sorting.{AreTurns, IsMerged, is_by, merged};
ghost use Rattle.msrp_merge.specs.Steps.{AreServed, IsRowOfEvent, IsTurnOfEvent, is_row_on, is_step_on};
ghost use Rattle.msrp_merge.specs.Turns.{Fits, IsTurnOf, is_step, rows_of};
ghost use Rattle.msrp_merge.specs.TwoResources as two_resources;

/// The sort keeps each core's turns in order, one in each tick, and orders those of a tick by rank.
pub fn sort_keeps_each_log()
    ensures { (cores ticks : ℕ) (logs : ℕ → List Turn) → AreTurns cores ticks logs → IsMerged cores ticks logs (merged logs cores ticks) }
{}

/// Logs have only one merge: a tick's turns are of different cores, and a rank ends with the core.
pub fn merge_is_unique()
    ensures { (cores ticks : ℕ) (logs : ℕ → List Turn) (turns : List Turn) → AreTurns cores ticks logs → IsMerged cores ticks logs turns → turns ≡ merged logs cores ticks }
{}

/// Ticks never fall along a history. So if each core's turns fit its book and all turns are in
/// order, the steps on a resource, in that order, are the resource's history.
pub fn sorted_turns_are_the_history()
    ensures { (g : ℕ) (books : ℕ → List Entry) (h : List Event) (turns : List Turn) → IsHistory g books h → IsChain IsNotLater h → Sorted InOrder turns → ((c : ℕ) → Fits (filter (is_by c) turns) (books c)) → Paired IsTurnOfEvent (filter (is_step_on g) turns) h }
{}

/// A step that is legal at its place in the history replies as its resource's queue: if each core's
/// rows are a run and each resource's steps a legal history, every row replies so.
pub fn legal_steps_reply()
    ensures { (plan : PlanModel) (rows : List Row) → IsPlan plan → AreInterleaved plan rows → AreServed plan rows → EachAfter (λ pre r. is_fifo_reply pre r ≡ true) [] rows }
{}

/// A step logged without a place fits no book.
pub fn steps_have_places()
    ensures { (turns more : List Turn) (x : Turn) (entries : List Entry) → is_step x.row.kind ≡ true → x.place ≡ None → ¬ Fits (turns ++ x ∷ more) entries }
{}

/// An empty log fits a book without entries. A log that fits its book still does after a turn that
/// isn't a step and has no place, and after a step whose entry the book gains.
pub fn logs_fit_turn_by_turn()
    ensures start { Fits [] [] }
    ensures quiet { (turns : List Turn) (entries : List Entry) (x : Turn) → Fits turns entries → x.place ≡ None → is_step x.row.kind ≡ false → Fits (turns ++ x ∷ []) entries }
    ensures step { (turns : List Turn) (entries : List Entry) (x : Turn) (e : Entry) → Fits turns entries → IsTurnOf x e → Fits (turns ++ x ∷ []) (entries ++ e ∷ []) }
{}

/// A worked merge: two logs that fit a board's books, the history of the resource that one core
/// hands to the other, and the rows: a poll is before the release of the same place, though its
/// core is the higher one. Rows with the handover a tick earlier aren't rows of that history.
pub fn handover()
    ensures logs { AreLogs handover_a_tick_later.plan logs (entries_at books) }
    ensures history { IsServed (ticket_word 2 2) 0 (entries_at books) history }
    ensures rows { rows_of (merged (turns_of logs) 2 6) ≡ handover_a_tick_later.rows }
    ensures paired { Paired IsRowOfEvent (filter (is_row_on 0) handover_a_tick_later.rows) history }
    ensures earlier { ¬ Paired IsRowOfEvent (filter (is_row_on 0) handover_within_a_tick.rows) history }
{}

/// A worked merge of steps on two resources, by the cores of its rows. Core 1 is first in tick 3,
/// since its step is on the first resource, and in tick 4, since it uses none.
pub fn two_resources_in_a_tick()
    ensures { map (λ x. x.row.core.0) (merged (turns_of two_resources.logs) 2 5) ≡ 0 ∷ 1 ∷ 0 ∷ 1 ∷ 0 ∷ 1 ∷ 1 ∷ 0 ∷ 1 ∷ 0 ∷ [] }
{}
