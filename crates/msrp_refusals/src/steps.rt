//! The worked steps of two cores on one resource's word: each requests, polls and releases.
ghost use Rattle.std.specs.Prelude.{◌≡◌, ◌<◌};
ghost use Rattle.msrp_plan.specs.Common.{IfSome, OnOk};
ghost use Rattle.msrp_board.specs.Seats.{IsCoreSeatOn};

use msrp_board::{Board, BoardError, BoardSeat, Conductor, Look, SeatPhase};
use msrp_plan::{CoreId, Phase, ResId};
use std::alloc::Global;
use std::io::Print;

const RES: ResId = ResId(0);

// The cores in the order of their turns, and whether each makes a step. In tick 2 core 1 polls
// before core 0 releases.
const TURNS: [(u32, bool); 12] = [
    (0, true),
    (1, true),
    (0, false),
    (1, true),
    (1, true),
    (0, true),
    (0, false),
    (1, true),
    (0, false),
    (1, false),
    (0, false),
    (1, true),
];

// The core's next step and its answer: a request, a poll or a release.
fn step(rt: &impl Print, board: &Board, seat: &mut BoardSeat) -> Result<(), &'static str>
    requires seat { IsCoreSeatOn board.now seat.old }
    requires res { 0 < board.now.size.resources }
    ensures { IsCoreSeatOn board.now seat.new }
{
    let SeatPhase::Admitted = seat.phase() else {
        return Err("not let in");
    };
    let has_acted = seat.acted();
    if has_acted {
        return Err("a second step");
    }
    match seat.lock() {
        Phase::Free => {
            let asked = board.ask(seat, RES);
            println!(rt; "ask {} {}", asked.place, asked.ahead).map_err(|_| "write fault")
        }
        Phase::Queued(_) => {
            let polled = board.poll(seat);
            println!(rt; "poll {} {}", polled.place, polled.granted).map_err(|_| "write fault")
        }
        Phase::Holding(_) => {
            let place = board.leave(seat);
            println!(rt; "leave {place}").map_err(|_| "write fault")
        }
    }
}

// Whether the core, which waited, is let into its tick.
fn is_let_in(board: &Board, seat: &mut BoardSeat) -> bool
    requires { IsCoreSeatOn board.now seat.old }
    ensures { IsCoreSeatOn board.now seat.new }
{
    let SeatPhase::Waiting = seat.phase() else {
        return false;
    };
    board.look(seat) == Look::Go
}

// Whether the core, which was let in, has arrived.
fn has_arrived(board: &Board, seat: &mut BoardSeat) -> bool
    requires { IsCoreSeatOn board.now seat.old }
    ensures { IsCoreSeatOn board.now seat.new }
{
    let SeatPhase::Admitted = seat.phase() else {
        return false;
    };
    board.arrive(seat);
    true
}

// A turn of the core: it is let in, makes its step, if any, and arrives.
fn turn(
    rt: &impl Print,
    board: &Board,
    seat: &mut BoardSeat,
    acts: bool,
) -> Result<(), &'static str>
    requires seat { IsCoreSeatOn board.now seat.old }
    requires res { 0 < board.now.size.resources }
    ensures { IsCoreSeatOn board.now seat.new }
{
    if !is_let_in(board, seat) {
        return Err("not let in");
    }
    if acts {
        step(rt, board, seat)?;
    }
    if !has_arrived(board, seat) {
        return Err("not arrived");
    }
    Ok(())
}

// The core's seat, and one with the other books.
fn parted(board: &Board, seat: BoardSeat, core: CoreId) -> Option<(BoardSeat, BoardSeat)>
    requires { seat.board ≡ board.now }
    ensures own { IfSome result (λ r. IsCoreSeatOn board.now r.0) }
    ensures rest { IfSome result (λ r. r.1.board ≡ board.now) }
{
    let has_book = seat.has_book(core);
    if !has_book {
        return None;
    }
    let has_conductor = seat.conductor().is_some();
    if !has_conductor {
        return None;
    }
    Some(board.split(seat, core))
}

fn all_turns(
    rt: &impl Print,
    board: &Board,
    mut zero: BoardSeat,
    mut one: BoardSeat,
) -> Result<(), &'static str>
    requires zero { IsCoreSeatOn board.now zero }
    requires one { IsCoreSeatOn board.now one }
    requires res { 0 < board.now.size.resources }
{
    for (core, acts) in TURNS {
        if core == 0 {
            turn(rt, board, &mut zero, acts)?;
        } else {
            turn(rt, board, &mut one, acts)?;
        }
    }
    Ok(())
}

/// Prints the answers of all steps on a new board, or that memory ran out.
pub fn worked(rt: &impl Print, alloc: Global) -> Result<(), &'static str> {
    let (board, seat) = match Board::new(alloc, 2, 1, 6) {
        Ok(made) => made,
        Err(BoardError::B1) => return Err("B1"),
        Err(BoardError::B2) => return println!(rt; "B2").map_err(|_| "write fault"),
    };
    let (zero, rest) = parted(&board, seat, CoreId(0)).ok_or("no seat")?;
    let (one, mut rest) = parted(&board, rest, CoreId(1)).ok_or("no seat")?;
    let Some(Conductor::Unopened) = rest.conductor() else {
        return Err("opened already");
    };
    board.open(&mut rest);
    all_turns(rt, &board, zero, one)
}
