//! A thread that can't start stops the run before its first turn, whichever core's it is. When
//! memory runs out, either all turns were made or none.

use super::plans::{hot, two_sections};
use super::stages::Counting;
use super::texts::{LONG_PLAN, PLAN};
use msrp_engine::{CliFault, exit_of, run_text_if};
use msrp_plan::bytes::{Sink, Source};
use msrp_plan::{CoreId, TextVersion};
use msrp_run::{Hire, RunError, run_threads, run_threads_if};
use std::alloc::Global;
use std::process::Abort;
use std::sync::Wait;
use std::sync::atomic::{AtomicU64, Ordering};
use std::test::*;
use std::thread::Threads;

const TICKS: u32 = 6;

// Refuses one core's thread, and counts the questions.
#[derive(Drop)]
struct AllBut {
    core: CoreId,
    asked: AtomicU64,
}

impl AllBut {
    fn of(core: u32) -> AllBut {
        AllBut {
            core: CoreId(core),
            asked: AtomicU64::new(0),
        }
    }

    fn asked(&self) -> u64 {
        self.asked.load(Ordering::SeqCst)
    }
}

impl Hire for AllBut {
    fn may_start(&self, core: CoreId) -> bool {
        self.asked.fetch_add(1, Ordering::SeqCst);
        self.core != core
    }
}

#[test]
fn a_refused_thread_stops_the_run(rt: HostRuntime) -> Result<(), Fail> {
    for cores in 1..=8 {
        let plan = hot(rt.alloc(), cores, TICKS)?;
        for core in 0..cores {
            let stage = Counting::new();
            let hire = AllBut::of(core);
            let answer = run_threads_if(&rt, rt.alloc(), &plan, &stage, &hire).err();
            assert_eq!(rt; answer, Some(RunError::U2));
            assert_eq!(rt; stage.turns(), 0);
            assert_eq!(rt; hire.asked(), u64::from(core) + 1);
        }
        let stage = Counting::new();
        let hire = AllBut::of(cores);
        let (trace, _) = run_threads_if(&rt, rt.alloc(), &plan, &stage, &hire)?;
        assert_eq!(rt; trace.rows.len(), (cores * TICKS) as usize);
        assert_eq!(rt; stage.turns(), u64::from(cores * TICKS));
        assert_eq!(rt; hire.asked(), u64::from(cores));
    }
    Ok(())
}

// Also in the longest run, whose last thread is refused.
#[test]
fn a_refused_thread_stops_a_long_run(rt: HostRuntime) -> Result<(), Fail> {
    let plan = hot(rt.alloc(), 8, 20000)?;
    let stage = Counting::new();
    let hire = AllBut::of(7);
    let answer = run_threads_if(&rt, rt.alloc(), &plan, &stage, &hire).err();
    assert_eq!(rt; answer, Some(RunError::U2));
    assert_eq!(rt; stage.turns(), 0);
    assert_eq!(rt; hire.asked(), 8);
    Ok(())
}

// The engine reports this core's refused thread, and writes nothing.
fn expect_told<R: Threads + Wait + Sync + Abort>(
    rt: &R,
    alloc: Global,
    plan: &[u8],
    version: TextVersion,
    core: u32,
) {
    let mut written = Vec::new(alloc);
    let mut source = Source::new(plan);
    let mut out = Sink::new(&mut written);
    let hire = AllBut::of(core);
    let answer = run_text_if(rt, alloc, &mut source, &mut out, version, &hire);
    assert!(rt; answer == Err(CliFault::Threads));
    assert_eq!(rt; exit_of(&answer), 4);
    assert!(rt; written.is_empty());
}

#[test]
fn a_refused_thread_is_told(rt: HostRuntime) {
    for version in [TextVersion::V1, TextVersion::V2] {
        for core in 0..2 {
            expect_told(&rt, rt.alloc(), PLAN, version, core);
        }
        expect_told(&rt, rt.alloc(), LONG_PLAN, version, 7);
    }
}

// The turns fit the answer: all with a trace, none after a refused thread, else all or none.
#[test]
fn turns_are_all_or_none(rt: HostRuntime) -> Result<(), Fail> {
    let plan = two_sections(rt.alloc())?;
    let stage = Counting::new();
    let answer = run_threads(&rt, rt.alloc(), &plan, &stage).err();
    let turns = stage.turns();
    match answer {
        None => assert_eq!(rt; turns, 12),
        Some(RunError::U1) => assert!(rt; turns == 0 || turns == 12),
        Some(RunError::U2) => assert_eq!(rt; turns, 0),
    }
    Ok(())
}
