//! Traces whose queue rows carry their aheads, or don't.

use msrp_plan::{CoreId, JobId, Kind, ResId, Row, TaskId, Trace};

// Core 0 takes resource 0, and then core 1 asks for it.
fn handover(ahead: Option<u32>) -> [Row; 2] {
    let first = JobId {
        task: TaskId(0),
        k: 0,
    };
    let second = JobId {
        task: TaskId(1),
        k: 0,
    };
    [
        Row {
            tick: 0,
            core: CoreId(0),
            kind: Kind::Take,
            job: Some(first),
            res: Some(ResId(0)),
            ahead: None,
        },
        Row {
            tick: 0,
            core: CoreId(1),
            kind: Kind::Queue,
            job: Some(second),
            res: Some(ResId(0)),
            ahead,
        },
    ]
}

#[test]
fn aheads_are_carried_or_not(rt: HostRuntime) {
    for (ahead, carried) in [(Some(1), true), (None, false)] {
        let Ok(rows) = Vec::from_array(rt.alloc(), handover(ahead)) else {
            return;
        };
        assert!(rt; Trace { rows }.carries_ahead() == carried);
    }
}
