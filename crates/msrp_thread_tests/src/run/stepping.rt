//! Two cores on one thread: their turns on a board, one by one in a chosen order, and the trace
//! made of their logs and the board's places.
ghost use Rattle.std.specs.Prelude.{◌≡◌, ◌+◌, ◌<◌};
ghost use Rattle.msrp_plan.specs.Common.{ℕ, IfOk, Some};
ghost use Rattle.msrp_board.specs.declared.books.Conductor.TheVariants.{Opened};
ghost use Rattle.msrp_merge.specs.Merging.{size_of};
ghost use Rattle.msrp_run.specs.Threads.{HasRest, HasOthers};
ghost use Rattle.msrp_run.specs.Work.{HasWorked, IsAtWork};

use super::plans::{G, two_sections};
use msrp_board::{Board, BoardSeat, Settled};
use msrp_core::Machine;
use msrp_levels::Levels;
use msrp_merge::{CoreLog, Place, merge};
use msrp_plan::Kind::{Grant, Idle, Queue, Release, Run, Spin, Take};
use msrp_plan::{CoreId, JobId, Kind, Memory, Plan, ResId, Row, TaskId, Trace};
use msrp_run::{Plain, Progress, round};
use std::alloc::Global;
use std::process::Abort;
use std::test::*;

const TICKS: u32 = 6;

// What a core's thread would own.
#[derive(Drop)]
struct Core<'a> {
    machine: Machine<'a>,
    log: CoreLog,
    seat: BoardSeat,
}

impl<'a> Core<'a> {
    // A core before its first turn, and the seat with the later cores' books.
    fn parted(
        alloc: Global,
        plan: &'a Plan,
        levels: &'a Levels<'a>,
        board: &Board,
        others: BoardSeat,
        core: CoreId,
    ) -> Result<(Core<'a>, BoardSeat), Memory>
        requires levels { levels.now ≡ plan.now }
        requires size { board.now.size ≡ size_of plan.now }
        requires core { core.0 < plan.now.cores }
        requires others { HasOthers board.now core.0 others }
        ensures ready { IfOk result (λ r. IsAtWork board.now plan.now core.0 r.0.machine r.0.log r.0.seat) }
        ensures rest { IfOk result (λ r. HasOthers board.now (core.0 + 1) r.1) }
    {
        let machine = Machine::with_room(alloc, plan, levels, core)?;
        let log = CoreLog::with_room(alloc, core, plan.ticks())?;
        let (seat, rest) = board.split(others, core);
        Ok((Core { machine, log, seat }, rest))
    }

    // Looks, is let in, has its turn, arrives, and isn't done.
    fn turned(self, rt: &impl Abort, board: &Board) -> Core<'a>
        requires { IsAtWork board.now self.machine.plan self.machine.core self.machine self.log self.seat }
        ensures { IsAtWork board.now self.entry.machine.plan self.entry.machine.core result.machine result.log result.seat }
    {
        let Core {
            mut machine,
            mut log,
            seat,
        } = self;
        let (came, seat) = round(&mut machine, &mut log, board, seat, &Plain);
        let Progress::Turned = came else {
            panic!(rt; "{came:?}")
        };
        Core { machine, log, seat }
    }

    // The core's last turn: returns its log and its seat.
    fn ended(self, rt: &impl Abort, board: &Board) -> (CoreLog, BoardSeat)
        requires { IsAtWork board.now self.machine.plan self.machine.core self.machine self.log self.seat }
        ensures { HasWorked board.now self.entry.machine.plan self.entry.machine.core result.0 result.1 }
    {
        let Core {
            mut machine,
            mut log,
            seat,
        } = self;
        let (came, seat) = round(&mut machine, &mut log, board, seat, &Plain);
        let Progress::Ended = came else {
            panic!(rt; "{came:?}")
        };
        (log, seat)
    }
}

// The two cores of a plan before their first turns, and the other seat, which has let them in.
fn begun<'a>(
    alloc: Global,
    plan: &'a Plan,
    levels: &'a Levels<'a>,
    board: &Board,
    others: BoardSeat,
) -> Result<(Core<'a>, Core<'a>, BoardSeat), Memory>
    requires cores { plan.now.cores ≡ 2 }
    requires levels { levels.now ≡ plan.now }
    requires size { board.now.size ≡ size_of plan.now }
    requires others { HasOthers board.now 0 others }
    ensures zero { IfOk result (λ r. IsAtWork board.now plan.now 0 r.0.machine r.0.log r.0.seat) }
    ensures one { IfOk result (λ r. IsAtWork board.now plan.now 1 r.1.machine r.1.log r.1.seat) }
    ensures rest { IfOk result (λ r. HasRest board.now 2 Opened r.2) }
{
    let (zero, rest) = Core::parted(alloc, plan, levels, board, others, CoreId(0))?;
    let (one, mut rest) = Core::parted(alloc, plan, levels, board, rest, CoreId(1))?;
    board.open(&mut rest);
    Ok((zero, one, rest))
}

// All turns. In tick 2 core 1 polls before core 0 releases.
fn driven(
    rt: &impl Abort,
    _plan: &Plan,
    board: &Board,
    mut zero: Core<'_>,
    mut one: Core<'_>,
) -> ((CoreLog, BoardSeat), (CoreLog, BoardSeat))
    requires zero { IsAtWork board.now _plan.now 0 zero.machine zero.log zero.seat }
    requires one { IsAtWork board.now _plan.now 1 one.machine one.log one.seat }
    ensures zero { HasWorked board.now _plan.now 0 result.0.0 result.0.1 }
    ensures one { HasWorked board.now _plan.now 1 result.1.0 result.1.1 }
{
    for is_one_first in [false, false, true, false, false] {
        if is_one_first {
            one = one.turned(rt, board);
            zero = zero.turned(rt, board);
        } else {
            zero = zero.turned(rt, board);
            one = one.turned(rt, board);
        }
    }
    (zero.ended(rt, board), one.ended(rt, board))
}

// The trace of two cores that have ended, with their logs and the board.
fn merged(
    alloc: Global,
    plan: &Plan,
    board: Board,
    others: BoardSeat,
    zero: (CoreLog, BoardSeat),
    one: (CoreLog, BoardSeat),
) -> Result<(Trace, [CoreLog; 2], Settled), Memory>
    requires cores { plan.now.cores ≡ 2 }
    requires size { board.size ≡ size_of plan.now }
    requires rest { HasRest board 2 Opened others }
    requires zero { HasWorked board plan.now 0 zero.0 zero.1 }
    requires one { HasWorked board plan.now 1 one.0 one.1 }
{
    let (first, seat) = zero;
    let others = board.join(seat, others);
    let (second, seat) = one;
    let others = board.join(seat, others);
    let settled = board.settle(others);
    let logs = [first, second];
    let trace = merge(alloc, plan, &logs, &settled)?;
    Ok((trace, logs, settled))
}

// The run of a plan on two cores, on one thread.
fn stepped(
    rt: &impl Abort,
    alloc: Global,
    plan: &Plan,
) -> Result<(Trace, [CoreLog; 2], Settled), Memory>
    requires { plan.now.cores ≡ 2 }
{
    let levels = Levels::of(alloc, plan)?;
    let Ok((board, others)) = Board::new(alloc, plan.cores(), plan.resources(), plan.ticks()) else {
        return Err(Memory);
    };
    let (zero, one, rest) = begun(alloc, plan, &levels, &board, others)?;
    let (zero, one) = driven(rt, plan, &board, zero, one);
    merged(alloc, plan, board, rest, zero, one)
}

// The places of the cores' turns, tick by tick, and whether the turn was a poll.
const PLACES: [[Option<(u32, bool)>; 6]; 2] = [
    [Some((0, false)), None, Some((2, false)), None, None, None],
    [
        Some((1, false)),
        Some((2, true)),
        Some((2, true)),
        Some((3, true)),
        None,
        Some((3, false)),
    ],
];

// The rows: in tick 2 core 1 spins before core 0 releases.
const ROWS: [(u32, u32, Kind); 12] = [
    (0, 0, Take),
    (0, 1, Queue),
    (1, 0, Run),
    (1, 1, Spin),
    (2, 1, Spin),
    (2, 0, Release),
    (3, 0, Idle),
    (3, 1, Grant),
    (4, 0, Idle),
    (4, 1, Run),
    (5, 0, Idle),
    (5, 1, Release),
];

// Checks the places of a core's turns.
fn expect_places(rt: &impl Abort, log: &CoreLog, due: &[Option<(u32, bool)>]) {
    assert_eq!(rt; log.len(), due.len());
    for (tick, due) in (0..TICKS).zip(due) {
        let due = due.map(|(number, polled)| Place { number, polled });
        assert!(rt; (tick as usize) < log.len());
        assert_eq!(rt; log.turn(tick).place, due, "tick {tick}");
    }
}

// The core's one job, unless it idles; the row's resource, if any; and the number ahead.
fn parts_of(core: u32, kind: Kind) -> (Option<JobId>, Option<ResId>, Option<u32>) {
    let task = TaskId(core);
    let job = Some(JobId { task, k: 0 });
    match kind {
        Idle => (None, None, None),
        Run => (job, None, None),
        Queue => (job, Some(G), Some(1)),
        _ => (job, Some(G), None),
    }
}

// Checks a trace's rows.
fn expect_rows(rt: &impl Abort, rows: &[Row], due: &[(u32, u32, Kind)]) {
    assert_eq!(rt; rows.len(), due.len());
    for (row, (tick, core, kind)) in rows.iter().zip(due) {
        assert_eq!(rt; (row.tick, row.core.0, row.kind), (*tick, *core, *kind));
        assert_eq!(rt; (row.job, row.res, row.ahead), parts_of(*core, *kind));
    }
}

#[test]
fn a_handover_turn_by_turn(rt: HostRuntime) -> Result<(), Fail> {
    let plan = two_sections(rt.alloc())?;
    assert_eq!(rt; plan.cores(), 2);
    let (trace, logs, settled) = stepped(&rt, rt.alloc(), &plan)?;
    for (log, due) in logs.iter().zip(&PLACES) {
        expect_places(&rt, log, due);
    }
    expect_rows(&rt, &trace.rows, &ROWS);
    assert_eq!(rt; settled.size().resources, 1);
    assert_eq!(rt; settled.word(G), (2, 2));
    Ok(())
}
