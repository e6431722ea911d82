//! The logs of two cores that hand a resource over, at places from a board, merged into rows.
ghost use Rattle.std.specs.Prelude.{◌≡◌};
ghost use Rattle.msrp_plan.specs.Common.{Some, length, true, has_shape};

use crate::logs::{CoreLog, Place, Turn};
use crate::merging::{Merging, gathered};
use msrp_plan::{CoreId, JobId, Kind, ResId, Row, TaskId};
use std::alloc::Global;
use std::process::Abort;
use std::test::*;

const RES: ResId = ResId(0);

const TICKS: u32 = 6;

fn job_of(core: u32) -> JobId
    ensures { result ≡ record { task = record { 0 = core }; k = 0 } }
{
    JobId {
        task: TaskId(core),
        k: 0,
    }
}

fn idle(tick: u32, core: u32) -> Turn {
    let row = Row {
        tick,
        core: CoreId(core),
        kind: Kind::Idle,
        job: None,
        res: None,
        ahead: None,
    };
    Turn { row, place: None }
}

fn work(tick: u32, core: u32) -> Turn {
    let row = Row {
        tick,
        core: CoreId(core),
        kind: Kind::Run,
        job: Some(job_of(core)),
        res: None,
        ahead: None,
    };
    Turn { row, place: None }
}

/// A step of this kind, at a place.
fn step(tick: u32, core: u32, kind: Kind, number: u32) -> Turn
    requires { has_shape kind (Some record { task = record { 0 = core }; k = 0 }) (Some record { 0 = 0 }) ≡ true }
{
    let row = Row {
        tick,
        core: CoreId(core),
        kind,
        job: Some(job_of(core)),
        res: Some(RES),
        ahead: None,
    };
    let polled = matches!(kind, Kind::Spin | Kind::Grant);
    let place = Some(Place { number, polled });
    Turn { row, place }
}

/// The log of a core with these turns.
fn log_of(rt: &impl Abort, alloc: Global, core: u32, turns: &[Turn]) -> CoreLog
    ensures turns { length result.turns ≡ length turns.now }
    ensures core { result.core ≡ core }
{
    let Ok(mut log) = CoreLog::with_room(alloc, CoreId(core), TICKS) else {
        panic!(rt; "no memory")
    };
    for turn in turns {
        assert_eq!(rt; turn.row.core, log.core());
        assert_eq!(rt; turn.row.tick as usize, log.len());
        assert!(rt; turn.row.tick < log.ticks());
        log.push(turn.row, turn.place);
    }
    log
}

#[test]
fn a_handover_is_merged(rt: HostRuntime) {
    let zero = [
        step(0, 0, Kind::Take, 0),
        work(1, 0),
        step(2, 0, Kind::Release, 2),
        idle(3, 0),
        idle(4, 0),
        idle(5, 0),
    ];
    let one = [
        step(0, 1, Kind::Queue, 1),
        step(1, 1, Kind::Spin, 2),
        step(2, 1, Kind::Spin, 2),
        step(3, 1, Kind::Grant, 3),
        work(4, 1),
        step(5, 1, Kind::Release, 3),
    ];
    let logs = [
        log_of(&rt, rt.alloc(), 0, &zero),
        log_of(&rt, rt.alloc(), 1, &one),
    ];
    let Ok(merging) = Merging::over(rt.alloc(), &logs, 2, TICKS) else {
        panic!(rt; "no memory")
    };
    let Ok(rows) = gathered(rt.alloc(), merging, 12) else {
        panic!(rt; "no memory")
    };
    let told = [
        (0, 0, Kind::Take),
        (0, 1, Kind::Queue),
        (1, 0, Kind::Run),
        (1, 1, Kind::Spin),
        (2, 1, Kind::Spin),
        (2, 0, Kind::Release),
        (3, 0, Kind::Idle),
        (3, 1, Kind::Grant),
        (4, 0, Kind::Idle),
        (4, 1, Kind::Run),
        (5, 0, Kind::Idle),
        (5, 1, Kind::Release),
    ];
    assert_eq!(rt; rows.len(), told.len());
    for (row, (tick, core, kind)) in rows.iter().zip(&told) {
        assert_eq!(rt; row.tick, *tick);
        assert_eq!(rt; row.core, CoreId(*core));
        assert_eq!(rt; row.kind, *kind);
    }
}
