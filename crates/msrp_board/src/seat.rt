//! A thread's right to step on a board: a seat has some cores' books, and its readers answer from
//! them.
ghost use Rattle.std.specs.Prelude.{◌≡◌, ◌↔◌, ◌<◌};
ghost use Rattle.msrp_plan.specs.Common.{ℕ, IsTrue, IsSome};
ghost use Rattle.msrp_board.specs.Common.{Book};
ghost use Rattle.msrp_board.specs.Books.{phase_in, has_acted, lock_of};
ghost use Rattle.msrp_board.specs.Seats.{IsSeat, IsCoreSeat, HasCore, book_at};
ghost use Rattle.msrp_board.specs.Inside.Held.{Shows};

use crate::answers::SeatPhase;
use crate::books::{BoardSize, Conductor};
use crate::held::CoreState;
use crate::pages::TableSeat;
use crate::states::States;
use msrp_plan::{CoreId, Phase};
use std::marker::Model;

/// The right to step on a board as some cores, and as the conductor. The board splits and joins
/// seats ([`crate::Board::split`], [`crate::Board::join`]). A seat with one core's book and nothing
/// else is that core's seat.
#[derive(Drop)]
pub struct BoardSeat {
    pub(crate) table_seat: TableSeat,
    pub(crate) size: BoardSize,
    pub(crate) states: States,
    pub(crate) conductor: Option<Conductor>,
}

impl Model for BoardSeat {
    ghost use Rattle.msrp_board.specs.Seats.{SeatModel};
    ghost use Rattle.msrp_board.specs.Inside.Held.{IsHeld, seen_as};

    ghost Value = { SeatModel };

    ghost view = { λ s. seen_as record { table = s.table_seat.table_id; size = s.size } s.table_seat.me.0 };

    ghost invariant = { λ s. IsHeld s.size s.states s.conductor s.table_seat.me };
}

impl BoardSeat {
    // What a core's seat stores of its core.
    fn state(&self) -> CoreState
        requires { HasCore self.now }
        ensures shows { (c : ℕ) (b : Book) → IsCoreSeat self.now c b → Shows result b }
        ensures seat { IsSeat self.now }
    {
        self.states.own()
    }

    /// The phase of a core's seat.
    pub fn phase(&self) -> SeatPhase
        requires { HasCore self.now }
        ensures value { (c : ℕ) (b : Book) → IsCoreSeat self.now c b → result ≡ phase_in self.now.board.size.ticks b }
        ensures seat { IsSeat self.now }
    {
        self.state().phase(self.size.ticks)
    }

    /// The tick that the core of a core's seat is in, or waits for.
    pub fn tick(&self) -> u32
        requires { HasCore self.now }
        ensures value { (c : ℕ) (b : Book) → IsCoreSeat self.now c b → result ≡ b.tick }
        ensures seat { IsSeat self.now }
    {
        self.state().tick
    }

    /// Whether the core of a core's seat has requested, polled or released in its tick.
    pub fn acted(&self) -> bool
        requires { HasCore self.now }
        ensures value { (c : ℕ) (b : Book) → IsCoreSeat self.now c b → result ≡ has_acted b }
        ensures seat { IsSeat self.now }
    {
        self.state().acted
    }

    /// What the core of a core's seat holds or waits for.
    pub fn lock(&self) -> Phase
        requires { HasCore self.now }
        ensures value { (c : ℕ) (b : Book) → IsCoreSeat self.now c b → result ≡ lock_of b }
        ensures seat { IsSeat self.now }
    {
        self.state().claim.phase()
    }

    /// Whether the seat has the book of this core.
    pub fn has_book(&self, core: CoreId) -> bool
        ensures value { IsTrue result ↔ IsSome (book_at self.now core.0) }
        ensures seat { IsSeat self.now }
    {
        self.states.has(core)
    }

    /// What the conductor did, if the seat has its book.
    pub fn conductor(&self) -> Option<Conductor>
        ensures value { result ≡ self.now.conductor }
        ensures seat { IsSeat self.now }
    {
        self.conductor
    }
}
