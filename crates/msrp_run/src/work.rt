//! The work of a core's thread, in rounds: look at the board, have the turn, arrive.
ghost use Rattle.std.specs.Prelude.{◌≡◌, ◌+◌, ◌≢◌, ◌++◌, ◌∷◌};
ghost use Rattle.msrp_run.specs.declared.work.Progress.TheVariants.{Waits, Turned, Ended};
ghost use Rattle.msrp_run.specs.Work.{HasWorked, IsAtWork, IsNew, IsInTurn};
ghost use Rattle.msrp_plan.specs.Common.{[], Option};
ghost use Rattle.msrp_plan.specs.declared.rows.Row.{Row as TraceRow};
ghost use Rattle.msrp_run.specs.Common.{Place};
ghost use Rattle.msrp_run.specs.declared.work.Begun.{Begun};

use crate::turns::Stage;
use crossbeam_utils::Backoff;
use msrp_board::{Board, BoardSeat, Look, SeatPhase};
use msrp_core::Machine;
use msrp_merge::CoreLog;
use msrp_plan::Row;
use std::sync::Wait;

// A `Backoff` spins this often before it yields.
const SPINS: u32 = 7;

// After this many ticks a thread tries again whether waits are short.
const PATIENCE: u32 = 256;

// How a thread waits: it spins, then yields. After a wait that had to yield, threads probably
// outnumber processors, so for some ticks the next waits yield at once.
#[derive(Drop)]
struct Waiting {
    backoff: Backoff,
    looks: u32,
    crowded: bool,
}

impl Waiting {
    fn new() -> Waiting {
        Waiting {
            backoff: Backoff::new(),
            looks: 0,
            crowded: false,
        }
    }

    // After an unsuccessful look.
    fn wait(&mut self) {
        self.looks = self.looks.saturating_add(1);
        self.backoff.snooze();
    }

    // Before the first look in this tick.
    fn begin(&mut self, tick: u32)
        ensures { self.new.looks ≡ 0 }
    {
        self.crowded = (self.crowded || self.looks > SPINS) && tick % PATIENCE != 0;
        if !self.crowded {
            self.backoff.reset();
        }
        self.looks = 0;
    }
}

/// The result of the first half of a round.
#[derive(Clone, Copy, Debug, PartialEq, Eq)]
pub enum Begun {
    /// The core wasn't let in; nothing has changed.
    Waits,
    /// The core was let in and had its turn, with this row. It stays in the tick until [`finish`].
    Turn(Row),
    /// The core saw the stop.
    Stopped,
}

/// Begins a round without waiting: one look at the board and, if let in, the turn by the stage.
pub fn begin<S: Stage>(
    machine: &mut Machine<'_>,
    log: &mut CoreLog,
    board: &Board,
    mut seat: BoardSeat,
    stage: &S,
) -> (Begun, BoardSeat)
    requires { IsAtWork board.now machine.old.plan machine.old.core machine.old log.old seat }
    ensures waits { result.0 ≡ Begun.Waits → (machine.new ≡ machine.old) × (log.new ≡ log.old) × (result.1 ≡ seat) }
    ensures turn { (row : TraceRow) → result.0 ≡ Begun.Turn row → IsInTurn board.now machine.old.plan machine.old.core machine.new log.new result.1 }
    ensures logged { (row : TraceRow) → result.0 ≡ Begun.Turn row → (place : Option Place) × (log.new ≡ record log.old { turns = log.old.turns ++ record { row = row; place = place } ∷ [] }) }
    ensures next { (row : TraceRow) → result.0 ≡ Begun.Turn row → machine.new.tick ≡ machine.old.tick + 1 }
    ensures stopped { result.0 ≡ Begun.Stopped → HasWorked board.now machine.old.plan machine.old.core log.new result.1 × (machine.new ≡ machine.old) × (log.new ≡ log.old) }
{
    // This read proves what holds of every seat.
    let _tick = seat.tick();
    match board.look(&mut seat) {
        Look::Wait => (Begun::Waits, seat),
        Look::Stopped => (Begun::Stopped, seat),
        Look::Go => {
            let (row, back) = stage.turn(machine, log, board, seat);
            (Begun::Turn(row), back)
        }
    }
}

/// The result of a round.
#[derive(Clone, Copy, Debug, PartialEq, Eq)]
pub enum Progress {
    /// The core wasn't let in; nothing has changed.
    Waits,
    /// The core was let into its tick, had its turn, and waits for the next.
    Turned,
    /// The core has arrived from its last tick, or saw the stop.
    Ended,
}

/// Ends a round: the core arrives from its tick and, unless that was the last, waits for the next.
pub fn finish(
    _machine: &Machine<'_>,
    _log: &CoreLog,
    board: &Board,
    mut seat: BoardSeat,
) -> (Progress, BoardSeat)
    requires { IsInTurn board.now _machine.now.plan _machine.now.core _machine.now _log.now seat }
    ensures waits { result.0 ≢ Waits }
    ensures turned { result.0 ≡ Turned → IsAtWork board.now _machine.now.plan _machine.now.core _machine.now _log.now result.1 }
    ensures ended { result.0 ≡ Ended → HasWorked board.now _machine.now.plan _machine.now.core _log.now result.1 }
{
    board.arrive(&mut seat);
    match seat.phase() {
        SeatPhase::Done => (Progress::Ended, seat),
        _ => (Progress::Turned, seat),
    }
}

/// One round: one look at the board and, if the core is let in, its turn by the stage and its
/// arrival. It waits for nobody.
pub fn round<S: Stage>(
    machine: &mut Machine<'_>,
    log: &mut CoreLog,
    board: &Board,
    seat: BoardSeat,
    stage: &S,
) -> (Progress, BoardSeat)
    requires { IsAtWork board.now machine.old.plan machine.old.core machine.old log.old seat }
    ensures waits { result.0 ≡ Waits → (machine.new ≡ machine.old) × (log.new ≡ log.old) × (result.1 ≡ seat) }
    ensures turned { result.0 ≡ Turned → (machine.new.tick ≡ machine.old.tick + 1) × IsAtWork board.now machine.old.plan machine.old.core machine.new log.new result.1 }
    ensures ended { result.0 ≡ Ended → HasWorked board.now machine.old.plan machine.old.core log.new result.1 }
{
    match begin(machine, log, board, seat, stage) {
        (Begun::Waits, seat) => (Progress::Waits, seat),
        (Begun::Stopped, seat) => (Progress::Ended, seat),
        (Begun::Turn(_), seat) => finish(machine, log, board, seat),
    }
}

/// Makes the turns of a core by repeated [`round`]s: waits until the board lets the core in, has
/// the stage make the turn, and arrives; until all ticks are done or the run is called off. The
/// returned log is whole, or empty if the core saw the stop.
pub fn worker<R: Wait, S: Stage>(
    rt: &R,
    mut machine: Machine<'_>,
    mut log: CoreLog,
    mut seat: BoardSeat,
    board: &Board,
    stage: &S,
) -> (CoreLog, BoardSeat)
    requires { IsNew board.now machine log seat }
    ensures { HasWorked board.now machine.entry.plan machine.entry.core result.0 result.1 }
{
    let mut waiting = Waiting::new();
    for _ in rt.forever() {
        let (came, back) = round(&mut machine, &mut log, board, seat, stage);
        seat = back;
        match came {
            Progress::Waits => waiting.wait(),
            Progress::Turned => waiting.begin(machine.tick()),
            Progress::Ended => return (log, seat),
        }
    }
    unreachable!()
}
