//! Runs a plan on a thread for each core, with your own work in each unit of work of a job.

use msrp_board::{Board, BoardSeat};
use msrp_core::Machine;
use msrp_merge::CoreLog;
use msrp_plan::bytes::Source;
use msrp_plan::{Kind, Row};
use msrp_run::{Stage, run_threads, turn_on};
use msrp_text::read_plan;
use std::alloc::Global;
use std::io::Print;
use std::sync::Wait;
use std::sync::atomic::{AtomicU64, Ordering};
use std::thread::Threads;

const PLAN: &str =
    "msrp,1\ncores,2\nticks,8\nresource,bus\ntask,sensor,0,8,8,0\nop,lock,bus\nop,run,1\nop,unlock,bus\ntask,motor,1,8,8,0\nop,lock,bus\nop,run,2\nop,unlock,bus\n";

/// Does a piece of work for each unit of work of a job; here it counts.
#[derive(Drop)]
struct Payload {
    done: AtomicU64,
}

impl Stage for Payload {
    fn turn(
        &self,
        machine: &mut Machine<'_>,
        log: &mut CoreLog,
        board: &Board,
        seat: BoardSeat,
    ) -> (Row, BoardSeat) {
        let (row, back) = turn_on(machine, log, board, seat);
        if row.kind == Kind::Run {
            self.done.fetch_add(1, Ordering::SeqCst);
        }
        (row, back)
    }
}

/// Runs the plan on two threads; prints the number of rows and of units of work done.
pub fn counted<T: Threads + Wait + Sync>(
    rt: &impl Print,
    threads: &T,
    alloc: Global,
) -> Result<(), &'static str> {
    let mut text = Source::new(PLAN.as_bytes());
    let plan = read_plan(alloc, &mut text).map_err(|_| "the plan is refused")?;
    let stage = Payload {
        done: AtomicU64::new(0),
    };
    let (trace, _) = run_threads(threads, alloc, &plan, &stage).map_err(|_| "memory or threads")?;
    println!(rt;
        "{} rows, {} units of work",
        trace.rows.len(),
        stage.done.load(Ordering::SeqCst)
    )
    .map_err(|_| "write fault")
}
