//! The text of a run has the rows of the stage's turns, in the order of the turns.

use super::meeting::expect_kept;
use super::plans::two_sections;
use super::stages::{Counting, OneFirst};
use msrp_engine::run_text_by;
use msrp_plan::bytes::{Sink, Source};
use msrp_plan::{CoreId, Plan, Row, TextVersion};
use msrp_run::HireAll;
use msrp_trace::TraceReader;
use std::alloc::Global;
use std::io::Read;
use std::test::*;

// The text of `two_sections`.
pub const PLAN: &[u8] =
    b"msrp,1\ncores,2\nticks,6\nresource,g\ntask,a,0,20,8,0\nop,lock,g\nop,run,1\nop,unlock,g\ntask,b,1,20,8,0\nop,lock,g\nop,run,1\nop,unlock,g\n";

// The core with the first turn takes the resource, and works in tick 1 while the other spins.
const ZERO_FIRST: &[u8] =
    b"msrp-trace,2,2,6\n0,0,take,a,0,g,-\n0,1,queue,b,0,g,1\n1,0,run,a,0,-,-\n1,1,spin,b,0,g,-\n";

const ONE_FIRST: &[u8] =
    b"msrp-trace,2,2,6\n0,1,take,b,0,g,-\n0,0,queue,a,0,g,1\n1,1,run,b,0,-,-\n1,0,spin,a,0,g,-\n";

const ONE_FIRST_WITHOUT_AHEADS: &[u8] =
    b"msrp-trace,1,2,6\n0,1,take,b,0,g\n0,0,queue,a,0,g\n1,1,run,b,0,-\n1,0,spin,a,0,g\n";

// One job on each of eight cores, which lasts for all of a long run.
pub const LONG_PLAN: &[u8] =
    b"msrp,1\ncores,8\nticks,2000\ntask,a,0,20,20,0\nop,run,20\ntask,b,1,20,20,0\nop,run,20\ntask,c,2,20,20,0\nop,run,20\ntask,d,3,20,20,0\nop,run,20\ntask,e,4,20,20,0\nop,run,20\ntask,f,5,20,20,0\nop,run,20\ntask,g,6,20,20,0\nop,run,20\ntask,h,7,20,20,0\nop,run,20\n";

// The remaining rows of a reader.
fn rows_left<R: Read>(
    alloc: Global,
    reader: &mut TraceReader<'_, R>,
    most: usize,
) -> Result<Vec<Row>, Fail> {
    let mut rows = Vec::new(alloc);
    for _ in 0..most {
        if let Some(row) = reader.next_row()? {
            rows.push(row)?;
        }
    }
    Ok(rows)
}

// The rows of a trace's text, up to a limit.
fn rows_of<R: Read>(
    alloc: Global,
    source: &mut Source<R>,
    plan: &Plan,
    most: usize,
) -> Result<Vec<Row>, Fail> {
    let mut reader = TraceReader::new(alloc, source, plan)?;
    let rows = rows_left(alloc, &mut reader, most);
    drop(reader);
    rows
}

#[test]
fn a_text_has_the_rows_of_the_turns(rt: HostRuntime) -> Result<(), Fail> {
    let plan = two_sections(rt.alloc())?;
    for (leader, begin) in [(0, ZERO_FIRST), (1, ONE_FIRST)] {
        let stage = OneFirst::of(rt.alloc(), &plan, CoreId(leader))?;
        let mut written = Vec::new(rt.alloc());
        let mut source = Source::new(PLAN);
        let mut out = Sink::new(&mut written);
        let answer = run_text_by(
            &rt,
            rt.alloc(),
            &mut source,
            &mut out,
            TextVersion::V2,
            &stage,
            &HireAll,
        );
        assert!(rt; answer == Ok(0), "leader {leader}");
        assert!(rt; stage.followed(), "leader {leader}");
        assert!(rt; written.as_slice().starts_with(begin), "leader {leader}");
        let mut trace = Source::new(written.as_slice());
        let rows = rows_of(rt.alloc(), &mut trace, &plan, 13)?;
        expect_kept(&rt, &rows, stage.rows());
    }
    Ok(())
}

#[test]
fn a_text_without_aheads_is_of_the_turns(rt: HostRuntime) -> Result<(), Fail> {
    let plan = two_sections(rt.alloc())?;
    let stage = OneFirst::of(rt.alloc(), &plan, CoreId(1))?;
    let mut written = Vec::new(rt.alloc());
    let mut source = Source::new(PLAN);
    let mut out = Sink::new(&mut written);
    let version = TextVersion::V1;
    let answer = run_text_by(
        &rt,
        rt.alloc(),
        &mut source,
        &mut out,
        version,
        &stage,
        &HireAll,
    );
    assert!(rt; answer == Ok(0));
    assert!(rt; stage.followed());
    assert!(rt; written.as_slice().starts_with(ONE_FIRST_WITHOUT_AHEADS));
    Ok(())
}

// In both versions.
#[test]
fn each_turn_of_a_long_text_is_made_by_the_stage(rt: HostRuntime) {
    for version in [TextVersion::V1, TextVersion::V2] {
        let stage = Counting::new();
        let mut written = Vec::new(rt.alloc());
        let mut source = Source::new(LONG_PLAN);
        let mut out = Sink::new(&mut written);
        let answer = run_text_by(
            &rt,
            rt.alloc(),
            &mut source,
            &mut out,
            version,
            &stage,
            &HireAll,
        );
        assert!(rt; answer == Ok(0));
        assert_eq!(rt; stage.turns(), 16_000);
    }
}
