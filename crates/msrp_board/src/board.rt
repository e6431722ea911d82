//! The board and its calls. Only [`Board::new`] allocates, and none waits for another thread.
ghost use Rattle.std.specs.Prelude.{◌≡◌, ◌<◌, ◌↔◌};
ghost use Rattle.msrp_plan.specs.Common.{ℕ, Some, IfOk, IsSome};
ghost use Rattle.msrp_board.specs.Common.{Aborted, Admitted, Ask, Book, Leave, Opened, Poll, ResId, Unopened, Waiting};
ghost use Rattle.msrp_plan.specs.declared.units.Phase.TheVariants.{Free, Queued, Holding};
ghost use Rattle.msrp_board.specs.declared.answers.BoardError.TheVariants.{B1};
ghost use Rattle.msrp_board.specs.declared.answers.Look.TheVariants.{Wait, Go, Stopped};
ghost use Rattle.msrp_board.specs.Books.{IsSize};
ghost use Rattle.msrp_board.specs.Seats.{book_at, IsCoreSeat, IsIn, MayAct, HasAnother, first_seat};
ghost use Rattle.msrp_board.specs.Moments.{StandsIn};
ghost use Rattle.msrp_board.specs.Steps.{IsBehind, with_entry, with_admission, with_stop, with_arrival, with_conductor, alone, without, both};

use crate::answers::{Asked, BoardError, Look, Polled};
use crate::books::{BoardSize, Conductor};
use crate::held::Claim;
use crate::pages::{Tickets, View};
use crate::seat::BoardSeat;
use crate::states::States;
use crate::steps;
use atomic_table::Table;
use msrp_plan::limits::{MOST_CORES, MOST_RESOURCES, MOST_TICKS};
use msrp_plan::{CoreId, ResId};
use std::alloc::Global;
use std::marker::Model;

/// A ticket word for each resource and the barrier word, shared by the threads as `&Board`.
#[derive(Drop)]
pub struct Board {
    pub(crate) table: Table<(), View, BoardSize, Tickets, Global>,
    pub(crate) size: BoardSize,
}

impl Model for Board {
    ghost use Rattle.msrp_board.specs.Seats.{BoardModel};
    ghost use Rattle.msrp_board.specs.Inside.Held.{IsBoard};

    ghost Value = { BoardModel };

    ghost view = { λ b. record { table = b.table.shared.table_id; size = b.size } };

    ghost invariant = { λ b. IsBoard b.size b.table.shared.key b.table.shared.table_id };
}

impl Board {
    /// A board of these numbers of cores, global resources and ticks, and its first seat, with an
    /// empty book of each core and the conductor's. `B1` is checked before any allocation.
    pub fn new(
        alloc: Global,
        cores: u32,
        resources: u32,
        ticks: u32,
    ) -> Result<(Board, BoardSeat), BoardError>
        ensures limits { (result ≡ Err B1) ↔ ¬ IsSize record { cores = cores; resources = resources; ticks = ticks } }
        ensures size { IfOk result (λ r. r.0.size ≡ record { cores = cores; resources = resources; ticks = ticks }) }
        ensures seat { IfOk result (λ r. r.1 ≡ first_seat r.0) }
    {
        if cores < 1
            || cores > MOST_CORES
            || resources as usize > MOST_RESOURCES
            || ticks < 1
            || ticks > MOST_TICKS
        {
            return Err(BoardError::B1);
        }
        let size = BoardSize {
            cores,
            resources,
            ticks,
        };
        let states = States::fresh(alloc, cores)?;
        let zeros = [0u64; MOST_RESOURCES + 1];
        let (table, table_seat) = Table::of_words(alloc, &zeros[..resources as usize + 1], &size)?;
        let seat = BoardSeat {
            table_seat,
            size,
            states,
            conductor: Some(Conductor::Unopened),
        };
        Ok((Board { table, size }, seat))
    }

    /// The board's numbers of cores, resources and ticks.
    pub fn size(&self) -> BoardSize
        ensures { result ≡ self.now.size }
    {
        self.size
    }

    /// Requests the resource for the seat's core: one `fetch_add` on its ticket word. With none
    /// ahead it is granted at once (POLICY rule 13).
    pub fn ask(&self, seat: &mut BoardSeat, res: ResId) -> Asked
        requires board { seat.old.board ≡ self.now }
        requires res { res.0 < self.now.size.resources }
        requires free { MayAct Free seat.old }
        ensures entry { seat.new ≡ with_entry res result.place (Ask result.ahead) seat.old }
        ensures behind { IsBehind res.0 result.place seat.old }
    {
        let word = steps::ask(&self.table.shared, &mut seat.table_seat, res.0 as usize);
        let asked = Asked {
            place: word.next + word.serving,
            ahead: word.next - word.serving,
        };
        let state = seat.states.own();
        seat.states.set_own(state.with_ask(res.0, word));
        asked
    }

    /// Polls the resource that the seat's core waits for: one `load` of its ticket word. It is
    /// granted if the core's ticket is the served one.
    pub fn poll(&self, seat: &mut BoardSeat) -> Polled
        requires board { seat.old.board ≡ self.now }
        requires queued { (g : ResId) × MayAct (Queued g) seat.old }
        ensures entry { (g : ResId) → MayAct (Queued g) seat.old → seat.new ≡ with_entry g result.place (Poll result.granted) seat.old }
        ensures behind { (g : ResId) → MayAct (Queued g) seat.old → IsBehind g.0 result.place seat.old }
    {
        let state = seat.states.own();
        let Claim::Waits { res, ticket } = state.claim else {
            unreachable!()
        };
        let word = steps::poll(
            &self.table.shared,
            &mut seat.table_seat,
            res as usize,
            ticket,
        );
        let polled = Polled {
            place: word.next + word.serving,
            granted: word.serving == ticket,
        };
        seat.states
            .set_own(state.with_poll(res, ticket, polled.granted));
        polled
    }

    /// Releases the resource that the seat's core holds, by one `fetch_add` on its ticket word, and
    /// returns the release's place.
    pub fn leave(&self, seat: &mut BoardSeat) -> u32
        requires board { seat.old.board ≡ self.now }
        requires holding { (g : ResId) × MayAct (Holding g) seat.old }
        ensures entry { (g : ResId) → MayAct (Holding g) seat.old → seat.new ≡ with_entry g result Leave seat.old }
        ensures behind { (g : ResId) → MayAct (Holding g) seat.old → IsBehind g.0 result seat.old }
    {
        let state = seat.states.own();
        let Claim::Holds { res, .. } = state.claim else {
            unreachable!()
        };
        let word = steps::leave(&self.table.shared, &mut seat.table_seat, res as usize);
        seat.states.set_own(state.with_leave());
        word.next + word.serving
    }

    /// Looks whether the seat's core is let into its tick, by one `load` of the barrier word. `Go`
    /// needs the opening and every core's arrival from all earlier ticks, `Stopped` needs an abort.
    pub fn look(&self, seat: &mut BoardSeat) -> Look
        requires board { seat.old.board ≡ self.now }
        requires waiting { IsIn Waiting seat.old }
        ensures wait { result ≡ Wait → seat.new ≡ seat.old }
        ensures go { result ≡ Go → seat.new ≡ with_admission seat.old }
        ensures stopped { result ≡ Stopped → seat.new ≡ with_stop seat.old }
        ensures start { (c : ℕ) (b : Book) → result ≡ Stopped → IsCoreSeat seat.old c b → b.tick ≡ 0 }
    {
        let BoardSize {
            cores,
            resources,
            ..
        } = self.size;
        let found = steps::look(
            &self.table.shared,
            &mut seat.table_seat,
            resources as usize,
            cores,
        );
        let state = seat.states.own();
        let look = state.finds(cores, found);
        seat.states.set_own(state.after_look(look));
        look
    }

    /// Arrives from the seat's tick: one `fetch_add` on the barrier word. The seat then waits for
    /// the next tick, or is done.
    pub fn arrive(&self, seat: &mut BoardSeat)
        requires board { seat.old.board ≡ self.now }
        requires admitted { IsIn Admitted seat.old }
        ensures { seat.new ≡ with_arrival seat.old }
    {
        let BoardSize { resources, .. } = self.size;
        steps::arrive(&self.table.shared, &mut seat.table_seat, resources as usize);
        let state = seat.states.own();
        seat.states.set_own(state.with_arrival());
    }

    /// Lets the cores into tick 0: one `fetch_add` on the barrier word.
    pub fn open(&self, seat: &mut BoardSeat)
        requires board { seat.old.board ≡ self.now }
        requires unopened { seat.old.conductor ≡ Some Unopened }
        ensures { seat.new ≡ with_conductor Opened seat.old }
    {
        let BoardSize { resources, .. } = self.size;
        steps::open(&self.table.shared, &mut seat.table_seat, resources as usize);
        seat.conductor = Some(Conductor::Opened);
    }

    /// Calls the run off before it begins: one `fetch_add` on the barrier word. No core is let into
    /// tick 0, and each one's next look answers `Stopped`.
    pub fn abort(&self, seat: &mut BoardSeat)
        requires board { seat.old.board ≡ self.now }
        requires unopened { seat.old.conductor ≡ Some Unopened }
        ensures { seat.new ≡ with_conductor Aborted seat.old }
    {
        let BoardSize { resources, .. } = self.size;
        steps::abort(&self.table.shared, &mut seat.table_seat, resources as usize);
        seat.conductor = Some(Conductor::Aborted);
    }

    /// The core's seat, and a seat with the other books.
    pub fn split(&self, seat: BoardSeat, core: CoreId) -> (BoardSeat, BoardSeat)
        requires board { seat.board ≡ self.now }
        requires book { IsSome (book_at seat core.0) }
        requires another { HasAnother core.0 seat }
        ensures core { result.0 ≡ alone core.0 seat }
        ensures rest { result.1 ≡ without core.0 seat }
    {
        let BoardSeat {
            mut table_seat,
            size,
            states,
            conductor,
        } = seat;
        let rest = steps::split(&self.table.shared, &mut table_seat, core.0 as usize);
        let (own, others) = states.part(core);
        let own = BoardSeat {
            table_seat,
            size,
            states: own,
            conductor: None,
        };
        let others = BoardSeat {
            table_seat: rest,
            size,
            states: others,
            conductor,
        };
        (own, others)
    }

    /// One seat with the books of both, which fit a whole board as after [`Board::confirm`].
    pub fn join(&self, seat: BoardSeat, other: BoardSeat) -> BoardSeat
        requires board { (seat.board ≡ self.now) × (other.board ≡ self.now) }
        ensures both { result ≡ both seat other }
        ensures stands { StandsIn result }
    {
        let mut joined = self.joined(seat, other);
        self.confirm(&mut joined);
        joined
    }

    fn joined(&self, seat: BoardSeat, other: BoardSeat) -> BoardSeat
        requires board { (seat.board ≡ self.now) × (other.board ≡ self.now) }
        ensures { result ≡ both seat other }
    {
        let BoardSeat {
            mut table_seat,
            size,
            states,
            conductor,
        } = seat;
        steps::join(&self.table.shared, &mut table_seat, other.table_seat);
        BoardSeat {
            table_seat,
            size,
            states: states.and(other.states),
            conductor: conductor.or(other.conductor),
        }
    }

    /// Confirms that the seat's books are part of a whole board that obeys the rule, by one `load`
    /// of the barrier word. So they fit one history of each resource, whoever has the other books.
    pub fn confirm(&self, seat: &mut BoardSeat)
        requires board { seat.old.board ≡ self.now }
        ensures seat { seat.new ≡ seat.old }
        ensures stands { StandsIn seat.old }
    {
        let barrier = self.size.resources as usize;
        steps::confirm(&self.table.shared, &mut seat.table_seat, barrier, self.size);
    }
}
