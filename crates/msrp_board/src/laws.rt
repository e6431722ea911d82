//! Laws over the board's definitions. Each function does nothing; its contract is the law.
ghost use Rattle.std.specs.Prelude.{◌≡◌};
ghost use Rattle.msrp_plan.specs.Common.{[], map, false};
ghost use Rattle.msrp_board.specs.Common.{BoardSize, Book, State, View, Waiting};
ghost use Rattle.msrp_board.specs.Books.{IsKept, phase_in, has_acted};
ghost use Rattle.msrp_board.specs.History.{HistoryIsUnique};
ghost use Rattle.msrp_board.specs.Seats.{BoardModel};
ghost use Rattle.msrp_board.specs.Boards.{IsTied};
ghost use Rattle.msrp_board.specs.Moments.{AreTied};
ghost use Rattle.msrp_board.specs.Inside.Held.{seen_as};
ghost use Rattle.msrp_board.specs.BrokenBoards as boards;

use crate::books::BoardSize;
use crate::pages::{Tickets, View};
use atomic_table::TableRule;

/// The books determine each resource's history uniquely: requests and releases by place, each poll
/// before the step of the place that it read, and polls of one place by tick, then core.
pub fn history_is_unique()
    ensures { HistoryIsUnique }
{}

/// At every moment the words and the books of all seats are tied: in a state that obeys the table's
/// rule, the books are shared out among the seats and tied to the words. Every step of every thread
/// requires the rule and preserves it, so it holds in every state that a step finds.
pub fn tied_at_every_moment()
    ensures { (board : BoardModel) (state : State (Unit {0}) View) → ⟦<Tickets as TableRule<(), View, BoardSize>>⟧.holds board.size state → AreTied board.size state.words (map (seen_as board) state.views) }
{}

/// Boards that violate one line of the rule each, as wrong calls would: a lost book, a place that
/// two requests found, a release counted twice, two cores with none ahead, a grant of a held
/// resource, a poll that reports an earlier tick, a core that acts twice in a tick, an uncounted
/// arrival, a stop without an abort, a core let in before all have arrived, a word of a resource
/// that doesn't exist, a ninth core, an uncounted abort.
pub fn broken_boards()
    ensures lost_book { ¬ IsTied boards.lost_book }
    ensures shared_ticket { ¬ IsTied boards.shared_ticket }
    ensures counted_twice { ¬ IsTied boards.counted_twice }
    ensures two_holders { ¬ IsTied boards.two_holders }
    ensures invented_grant { ¬ IsTied boards.invented_grant }
    ensures old_poll { ¬ IsTied boards.old_poll }
    ensures acted_twice { ¬ IsTied boards.acted_twice }
    ensures lost_arrival { ¬ IsTied boards.lost_arrival }
    ensures invented_stop { ¬ IsTied boards.invented_stop }
    ensures early { ¬ IsTied boards.early }
    ensures second_word { ¬ IsTied boards.second_word }
    ensures nine_cores { ¬ IsTied boards.nine_cores }
    ensures lost_abort { ¬ IsTied boards.lost_abort }
{}

/// Books that violate one line of the rule on one book each: a tick after the last, a resource that
/// doesn't exist, a release at its request's place, and a poll without a request.
pub fn broken_books()
    ensures late { ¬ IsKept boards.size boards.late }
    ensures undeclared { ¬ IsKept boards.size boards.undeclared }
    ensures same_place { ¬ IsKept boards.size boards.same_place }
    ensures unasked { ¬ IsKept boards.size boards.unasked }
{}

/// A core that waits for its tick hasn't acted in it; one that waits for tick 0 has done nothing.
/// So a seat just let in may act.
pub fn waiting_cores()
    ensures acted { (size : BoardSize) (b : Book) → IsKept size b → phase_in size.ticks b ≡ Waiting → has_acted b ≡ false }
    ensures entries { (size : BoardSize) (b : Book) → IsKept size b → phase_in size.ticks b ≡ Waiting → b.tick ≡ 0 → b.entries ≡ [] }
{}
