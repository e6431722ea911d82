//! Judges rows one by one, as your own tracer might deliver them.

use msrp_audit::Auditor;
use msrp_levels::Levels;
use msrp_plan::bytes::Source;
use msrp_plan::{CoreId, JobId, Kind, ResId, Row, TaskId};
use msrp_text::read_plan;
use std::alloc::Global;
use std::io::Print;

const PLAN: &str =
    "msrp,1\ncores,2\nticks,3\nresource,bus\ntask,sensor,0,8,8,0\nop,lock,bus\nop,run,1\nop,unlock,bus\ntask,motor,1,8,8,0\nop,lock,bus\nop,unlock,bus\n";

/// The first job of a task.
fn first(task: u32) -> JobId {
    JobId {
        task: TaskId(task),
        k: 0,
    }
}

/// What the tracer saw: core 1 was granted the bus while the job of core 0 held it.
fn seen() -> [Row; 2] {
    [
        Row {
            tick: 0,
            core: CoreId(0),
            kind: Kind::Take,
            job: Some(first(0)),
            res: Some(ResId(0)),
            ahead: None,
        },
        Row {
            tick: 0,
            core: CoreId(1),
            kind: Kind::Take,
            job: Some(first(1)),
            res: Some(ResId(0)),
            ahead: None,
        },
    ]
}

/// Feeds the rows to an auditor, which doesn't allocate, and prints the first that violates a rule.
fn feed_all(rt: &impl Print, auditor: &mut Auditor<'_>) -> Result<(), &'static str> {
    for row in seen() {
        if let Err(fault) = auditor.feed(row) {
            return println!(rt; "row {} breaks {:?}", fault.row, fault.rule).map_err(
                |_| "write fault",
            );
        }
    }
    println!(rt; "good so far").map_err(|_| "write fault")
}

/// Judges the tracer's rows of a run of the plan.
pub fn judged(rt: &impl Print, alloc: Global) -> Result<(), &'static str> {
    let mut text = Source::new(PLAN.as_bytes());
    let plan = read_plan(alloc, &mut text).map_err(|_| "the plan is refused")?;
    let levels = Levels::of(alloc, &plan).map_err(|_| "memory")?;
    let mut auditor = Auditor::with_room(alloc, &plan, &levels).map_err(|_| "memory")?;
    feed_all(rt, &mut auditor)
}
