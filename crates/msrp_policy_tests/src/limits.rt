//! Verdicts and reports of the shortest and of the greatest run, and of a trace without a row: no
//! call fails on one of them.

use crate::audit::{CROWD, PLAN, fault, run_of};
use crate::plans::plan_of;
use msrp_audit::{audit, audit_parallel};
use msrp_plan::{Fault, Rule, Trace};
use msrp_report::{ReportError, report};
use std::alloc::Global;
use std::test::Fail;
use std::thread::Threads;

// One core that idles for a tick.
const LEAST: &[u8] = b"msrp,1\ncores,1\nticks,1\n";

// The verdict of both audits on a trace, if they agree.
fn verdict(
    rt: &(impl Threads + Sync),
    alloc: Global,
    text: &[u8],
    trace: &Trace,
) -> Result<Result<(), Fault>, Fail> {
    let plan = plan_of(alloc, text)?;
    let found = audit(alloc, &plan, trace)?;
    if audit_parallel(rt, alloc, &plan, trace)? != found {
        return Err(Fail::from("the verdicts differ"));
    }
    Ok(found)
}

// The number of lines of a report, or the fault in its place.
fn lines(alloc: Global, text: &[u8], trace: &Trace) -> Result<Result<usize, Fault>, Fail> {
    let plan = plan_of(alloc, text)?;
    match report(alloc, &plan, trace) {
        Ok(report) => Ok(Ok(report.lines.len())),
        Err(ReportError::G1(fault)) => Ok(Err(fault)),
        Err(_) => Err(Fail::from("memory")),
    }
}

#[test]
fn the_least_and_the_greatest_run_are_good(rt: HostRuntime) -> Result<(), Fail> {
    let alloc = rt.alloc();
    for (text, tasks) in [(LEAST, 0), (CROWD, 8)] {
        let trace = run_of(alloc, &plan_of(alloc, text)?)?;
        assert_eq!(rt; verdict(&rt, alloc, text, &trace)?, Ok(()));
        assert_eq!(rt; lines(alloc, text, &trace)?, Ok(tasks));
    }
    Ok(())
}

#[test]
fn no_row_is_too_few(rt: HostRuntime) -> Result<(), Fail> {
    let alloc = rt.alloc();
    for text in [LEAST, PLAN] {
        let trace = Trace {
            rows: Vec::new(alloc),
        };
        assert_eq!(rt; verdict(&rt, alloc, text, &trace)?, fault(1, Rule::A6));
        assert!(rt;
            matches!(
                lines(alloc, text, &trace)?,
                Err(Fault {
                    row: 1,
                    rule: Rule::A6
                })
            )
        );
    }
    Ok(())
}
