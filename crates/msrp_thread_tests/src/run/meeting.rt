//! Cores that wait for each other within one tick: no single thread could make their turns. Each
//! turn's answer is stored, and the trace has the same.

use super::plans::{G, hot, two_sections};
use super::stages::{Meeting, OneFirst, Rows};
use msrp_plan::{CoreId, JobId, Kind, Row, TaskId};
use msrp_run::run_threads;
use std::alloc::Global;
use std::process::Abort;
use std::sync::Wait;
use std::test::*;
use std::thread::Threads;

// More than the ticks in which waits yield at once after a long wait.
const TICKS: u32 = 70;

// What is stored of each core is what the trace has.
pub(super) fn expect_kept(rt: &impl Abort, rows: &[Row], kept: &Rows) {
    assert_eq!(rt; rows.len(), kept.len());
    for row in rows {
        assert!(rt; kept.has_just(row), "{row:?}");
    }
}

// The first row of a core, on the resource.
fn first(
    core: u32,
    kind: Kind,
    ahead: Option<u32>,
) -> (u32, CoreId, Kind, Option<JobId>, Option<u32>) {
    let job = JobId {
        task: TaskId(core),
        k: 0,
    };
    (0, CoreId(core), kind, Some(job), ahead)
}

#[test]
fn two_cores_meet(rt: HostRuntime) -> Result<(), Fail> {
    let plan = two_sections(rt.alloc())?;
    let stage = Meeting::of(rt.alloc(), &plan)?;
    let (trace, settled) = run_threads(&rt, rt.alloc(), &plan, &stage)?;
    assert!(rt; stage.all_met());
    expect_kept(&rt, &trace.rows, stage.rows());
    assert_eq!(rt; settled.size().resources, 1);
    assert_eq!(rt; settled.word(G), (2, 2));
    Ok(())
}

// For each number of cores: all meet in tick 0, and the trace has the rows of all turns.
#[test]
fn all_cores_meet(rt: HostRuntime) -> Result<(), Fail> {
    for cores in 1..=8 {
        let plan = hot(rt.alloc(), cores, TICKS)?;
        let stage = Meeting::of(rt.alloc(), &plan)?;
        let (trace, _) = run_threads(&rt, rt.alloc(), &plan, &stage)?;
        assert!(rt; stage.all_met(), "{cores} cores");
        expect_kept(&rt, &trace.rows, stage.rows());
    }
    Ok(())
}

// The leader's turn of tick 0 is first, so it takes the resource, and the follower queues.
fn expect_first<R: Threads + Wait + Sync + Abort>(
    rt: &R,
    alloc: Global,
    leader: u32,
    follower: u32,
) -> Result<(), Fail> {
    let plan = two_sections(alloc)?;
    let stage = OneFirst::of(alloc, &plan, CoreId(leader))?;
    let (trace, settled) = run_threads(rt, alloc, &plan, &stage)?;
    assert!(rt; stage.followed());
    expect_kept(rt, &trace.rows, stage.rows());
    let due = [
        first(leader, Kind::Take, None),
        first(follower, Kind::Queue, Some(1)),
    ];
    for (row, due) in trace.rows.iter().zip(&due) {
        assert_eq!(rt; (row.tick, row.core, row.kind, row.job, row.ahead), *due);
        assert_eq!(rt; row.res, Some(G));
    }
    assert_eq!(rt; settled.size().resources, 1);
    assert_eq!(rt; settled.word(G), (2, 2));
    Ok(())
}

#[test]
fn core_one_first(rt: HostRuntime) -> Result<(), Fail> {
    expect_first(&rt, rt.alloc(), 1, 0)
}

// With the cores exchanged.
#[test]
fn core_zero_first(rt: HostRuntime) -> Result<(), Fail> {
    expect_first(&rt, rt.alloc(), 0, 1)
}
