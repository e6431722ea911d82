//! One core's turn on a board, and the stage that makes the turns.
ghost use Rattle.std.specs.Prelude.{◌≡◌, ◌<◌, ◌++◌, ◌∷◌};
ghost use Rattle.msrp_plan.specs.Common.{[], List, IsCoreTurn};
ghost use Rattle.msrp_plan.specs.declared.rows.Row.{Row as TraceRow};
ghost use Rattle.msrp_run.specs.Common.{BoardModel, StandsAfter};
ghost use Rattle.msrp_run.specs.Ports.{HasAsked, IsSeatPort, port_of};
ghost use Rattle.msrp_run.specs.Turns.{HasTurned, MayTurn, core_with};

use crate::port::{FirstSeat, SeatPort};
use msrp_board::{Board, BoardSeat};
use msrp_core::Machine;
use msrp_merge::{CoreLog, Place};
use msrp_plan::Row;
use std::marker::Brand;

// The core's turn, with its seat as the machine's port, which lives only here.
fn turn_through<B: FirstSeat>(
    machine: &mut Machine<'_>,
    log: &mut CoreLog,
    board: &Board,
    seat: BoardSeat,
) -> (Row, BoardSeat)
    requires may { MayTurn board.now machine.old log.old seat }
    requires core { B.core ≡ machine.old.core }
    requires first { B.first ≡ seat }
    ensures { HasTurned board.now (core_with machine.old log.old seat) result.0 (core_with machine.new log.new result.1) }
{
    let left = machine.tick() < log.ticks();
    // This read proves what holds of every seat: a core that is let in has a tick left.
    let _conductor = seat.conductor();
    prove!(left);
    let mut port = SeatPort::<B>::new(board, machine.core(), seat);
    let row = machine.turn(&mut port);
    log.push(row, port.place);
    (row, port.seat)
}

/// One core's turn on a board: the machine makes the row, and the board answers a call. The row is
/// logged with the board's place. It waits for nobody, allocates nothing and never fails.
pub fn turn_on(
    machine: &mut Machine<'_>,
    log: &mut CoreLog,
    board: &Board,
    seat: BoardSeat,
) -> (Row, BoardSeat)
    requires { MayTurn board.now machine.old log.old seat }
    ensures { HasTurned board.now (core_with machine.old log.old seat) result.0 (core_with machine.new log.new result.1) }
{
    turn_through::<Brand>(machine, log, board, seat)
}

/// Makes the turns of the cores, each on its core's thread. A caller's own stage can do its own
/// work in each turn, between admission and arrival; but each turn must be [`turn_on`]'s.
pub trait Stage {
    /// The core's turn.
    fn turn(
        &self,
        machine: &mut Machine<'_>,
        log: &mut CoreLog,
        board: &Board,
        seat: BoardSeat,
    ) -> (Row, BoardSeat)
        requires { MayTurn board.now machine.old log.old seat }
        ensures { HasTurned board.now (core_with machine.old log.old seat) result.0 (core_with machine.new log.new result.1) };
}

/// The stage that makes the turns and does nothing else.
#[derive(Clone, Copy, Debug)]
pub struct Plain;

impl Stage for Plain {
    fn turn(
        &self,
        machine: &mut Machine<'_>,
        log: &mut CoreLog,
        board: &Board,
        seat: BoardSeat,
    ) -> (Row, BoardSeat) {
        turn_on(machine, log, board, seat)
    }
}
