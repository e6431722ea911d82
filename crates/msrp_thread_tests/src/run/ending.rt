//! Runs end, for each number of cores up to the greatest.

use super::plans::hot;
use super::stages::Counting;
use msrp_run::{Plain, run_threads};
use std::test::*;

#[test]
fn every_number_of_cores_runs(rt: HostRuntime) -> Result<(), Fail> {
    for cores in 1..=8 {
        let plan = hot(rt.alloc(), cores, 200)?;
        let (trace, _) = run_threads(&rt, rt.alloc(), &plan, &Plain)?;
        assert_eq!(rt; trace.rows.len(), cores as usize * 200);
    }
    Ok(())
}

// And each of its turns is made by the stage.
#[test]
fn the_greatest_run_ends(rt: HostRuntime) -> Result<(), Fail> {
    let plan = hot(rt.alloc(), 8, 20000)?;
    let stage = Counting::new();
    let (trace, _) = run_threads(&rt, rt.alloc(), &plan, &stage)?;
    assert_eq!(rt; trace.rows.len(), 160_000);
    assert_eq!(rt; stage.turns(), 160_000);
    Ok(())
}
