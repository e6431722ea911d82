//! A run of a plan on two threads, and its number of turns: all, or after a refusal all or none.

use msrp_board::{Board, BoardSeat};
use msrp_core::Machine;
use msrp_merge::CoreLog;
use msrp_plan::Row;
use msrp_plan::bytes::Source;
use msrp_run::{RunError, Stage, run_threads, turn_on};
use msrp_text::read_plan;
use std::alloc::Global;
use std::io::Print;
use std::sync::Wait;
use std::sync::atomic::{AtomicU64, Ordering};
use std::thread::Threads;

const PLAN: &str =
    "msrp,1\ncores,2\nticks,6\nresource,g\ntask,a,0,20,8,0\nop,lock,g\nop,run,1\nop,unlock,g\ntask,b,1,20,8,0\nop,lock,g\nop,run,1\nop,unlock,g\n";

// Counts the turns.
#[derive(Drop)]
struct Counting(AtomicU64);

impl Stage for Counting {
    fn turn(
        &self,
        machine: &mut Machine<'_>,
        log: &mut CoreLog,
        board: &Board,
        seat: BoardSeat,
    ) -> (Row, BoardSeat) {
        self.0.fetch_add(1, Ordering::SeqCst);
        turn_on(machine, log, board, seat)
    }
}

/// Prints the run's result, and the count.
pub fn counted<T: Threads + Wait + Sync>(
    rt: &impl Print,
    threads: &T,
    alloc: Global,
) -> Result<(), &'static str> {
    let mut text = Source::new(PLAN.as_bytes());
    let plan = read_plan(alloc, &mut text).map_err(|_| "memory")?;
    let stage = Counting(AtomicU64::new(0));
    let came = match run_threads(threads, alloc, &plan, &stage) {
        Ok(_) => "ok",
        Err(RunError::U1) => "U1",
        Err(RunError::U2) => "U2",
    };
    println!(rt; "{came} {}", stage.0.load(Ordering::SeqCst)).map_err(|_| "write fault")
}
