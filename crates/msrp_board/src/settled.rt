//! A board after its last use: its words, which the rule now ties to all its books.
ghost use Rattle.std.specs.Prelude.{◌≡◌, ◌<◌, ◌≤◌, ◌+◌};
ghost use Rattle.msrp_plan.specs.Common.{ℕ, Some, false, length, slice_get, slice_index};
ghost use Rattle.std.specs.Mem.Slots.{slots_items, slots_len, IsFull};
ghost use Rattle.msrp_board.specs.Common.{Book, Opened};
ghost use Rattle.msrp_board.specs.Seats.{book_at, HasAll};
ghost use Rattle.msrp_board.specs.Boards.{IsTied};
ghost use Rattle.msrp_board.specs.Words.{high, low};

use crate::board::Board;
use crate::books::BoardSize;
use crate::seat::BoardSeat;
use crate::words::{high_half, low_half};
use atomic_table::Closed;
use msrp_plan::ResId;
use msrp_plan::limits::MOST_RESOURCES;
use std::alloc::Global;
use std::marker::Model;
use std::snapshot::Snapshot;

/// The words and the books of a board at its end.
#[derive(Drop)]
pub struct Settled {
    words: [u64; MOST_RESOURCES + 1],
    size: BoardSize,
    last: Snapshot<BoardSeat>,
}

impl Model for Settled {
    ghost use Rattle.msrp_board.specs.Boards.{WholeBoard};
    ghost use Rattle.msrp_board.specs.Inside.Held.{IsSettled, settled_as};

    ghost Value = { WholeBoard };

    ghost view = { λ s. settled_as s.size s.words s.last.value };

    ghost invariant = { λ s. IsSettled s.size s.words s.last.value };
}

impl Board {
    /// Ends the board, if the seat has all its books. Words and books obey the whole rule, and if
    /// the conductor opened, no core was stopped.
    pub fn settle(self, seat: BoardSeat) -> Settled
        requires board { seat.board ≡ self }
        requires all { HasAll seat }
        ensures size { result.size ≡ self.size }
        ensures books { (c : ℕ) → book_at seat c ≡ slice_get result.books c }
        ensures conductor { seat.conductor ≡ Some result.conductor }
        ensures tied { IsTied result }
        ensures running { (c : ℕ) (b : Book) → result.conductor ≡ Opened → slice_get result.books c ≡ Some b → b.stopped ≡ false }
    {
        let Board { table, size } = self;
        let last = Snapshot::of(&seat);
        let closed = table.close_with(seat.table_seat);
        let words = words_of(&closed, size.resources);
        closed.free();
        Settled { words, size, last }
    }
}

// The words of this many resources, and the barrier word.
fn words_of(closed: &Closed<(), Global>, resources: u32) -> [u64; MOST_RESOURCES + 1]
    requires full { IsFull closed.now.words }
    requires size { (slots_len closed.now.words ≡ resources + 1) × (resources ≤ MOST_RESOURCES) }
    ensures length { length result ≡ MOST_RESOURCES + 1 }
    ensures words { (g : ℕ) → g < resources + 1 → slice_index result g ≡ slice_index (slots_items closed.now.words) g }
{
    let mut words = [0; MOST_RESOURCES + 1];
    for g in 0..resources as usize + 1 {
        words[g] = closed.word(g);
    }
    words
}

impl Settled {
    /// The board's numbers of cores, resources and ticks.
    pub fn size(&self) -> BoardSize
        ensures value { result ≡ self.now.size }
        ensures tied { IsTied self.now }
    {
        self.size
    }

    /// What a resource's ticket word counted: requests and releases.
    pub fn word(&self, res: ResId) -> (u32, u32)
        requires { res.0 < self.now.size.resources }
        ensures value { result ≡ (high (slice_index self.now.tickets res.0), low (slice_index self.now.tickets res.0)) }
        ensures tied { IsTied self.now }
    {
        let word = self.words[res.0 as usize];
        (high_half(word), low_half(word))
    }
}
