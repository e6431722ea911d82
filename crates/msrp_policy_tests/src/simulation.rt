//! Simulations of one plan in each order of the cores.

use crate::audit::{PLAN, handover, idle, job, on, run};
use crate::plans::plan_of;
use msrp_plan::{Kind, Row};
use msrp_sim::{Order, SimError, simulate};
use std::alloc::Global;
use std::test::Fail;

// A list of cores, as an order.
fn given(alloc: Global, cores: &[u32]) -> Result<Order, Fail> {
    let mut list = Vec::with_capacity(alloc, cores.len())?;
    for core in cores {
        list.push(*core)?;
    }
    Ok(Order::Given(list))
}

// The rows of a simulation in this order, without the queue lengths; or why there are none.
fn rows_by(alloc: Global, order: &Order) -> Result<Result<Vec<Row>, SimError>, Fail> {
    let plan = plan_of(alloc, PLAN)?;
    let trace = match simulate(alloc, &plan, order) {
        Ok(trace) => trace,
        Err(error) => return Ok(Err(error)),
    };
    let mut rows = Vec::with_capacity(alloc, trace.rows.len())?;
    for row in trace.rows.as_slice() {
        rows.push(row.without_ahead())?;
    }
    Ok(Ok(rows))
}

// Whether the order gives these rows.
fn gives(alloc: Global, order: &Order, rows: &[Row]) -> Result<bool, Fail> {
    Ok(matches!(rows_by(alloc, order)?, Ok(made) if made.as_slice() == rows))
}

// Whether a list of these cores is refused.
fn refuses(alloc: Global, cores: &[u32]) -> Result<bool, Fail> {
    let order = given(alloc, cores)?;
    Ok(matches!(rows_by(alloc, &order)?, Err(SimError::S1)))
}

// Core 1 has the first turn of each tick, so its job gets the resource first.
fn falling() -> [Row; 12] {
    [
        on(0, 1, Kind::Take, 1),
        on(0, 0, Kind::Queue, 0),
        run(1, 1, job(1, 0)),
        on(1, 0, Kind::Spin, 0),
        on(2, 1, Kind::Release, 1),
        on(2, 0, Kind::Grant, 0),
        idle(3, 1),
        run(3, 0, job(0, 0)),
        idle(4, 1),
        on(4, 0, Kind::Release, 0),
        idle(5, 1),
        idle(5, 0),
    ]
}

// In an odd tick core 1 is first.
fn going_round() -> [Row; 12] {
    [
        on(0, 0, Kind::Take, 0),
        on(0, 1, Kind::Queue, 1),
        on(1, 1, Kind::Spin, 1),
        run(1, 0, job(0, 0)),
        on(2, 0, Kind::Release, 0),
        on(2, 1, Kind::Grant, 1),
        run(3, 1, job(1, 0)),
        idle(3, 0),
        idle(4, 0),
        on(4, 1, Kind::Release, 1),
        idle(5, 1),
        idle(5, 0),
    ]
}

// Core 1 is first in tick 2, so it polls before the release and gets the resource a tick later.
fn a_tick_later() -> [Row; 12] {
    [
        on(0, 0, Kind::Take, 0),
        on(0, 1, Kind::Queue, 1),
        run(1, 0, job(0, 0)),
        on(1, 1, Kind::Spin, 1),
        on(2, 1, Kind::Spin, 1),
        on(2, 0, Kind::Release, 0),
        idle(3, 0),
        on(3, 1, Kind::Grant, 1),
        idle(4, 0),
        run(4, 1, job(1, 0)),
        idle(5, 0),
        on(5, 1, Kind::Release, 1),
    ]
}

#[test]
fn each_order_gives_its_run(rt: HostRuntime) -> Result<(), Fail> {
    let alloc = rt.alloc();
    assert!(rt; gives(alloc, &Order::Asc, &handover())?);
    assert!(rt; gives(alloc, &Order::Desc, &falling())?);
    assert!(rt; gives(alloc, &Order::Rot, &going_round())?);
    let list = given(alloc, &[0, 1, 0, 1, 1, 0, 0, 1, 0, 1, 0, 1])?;
    assert!(rt; gives(alloc, &list, &a_tick_later())?);
    Ok(())
}

#[test]
fn a_list_that_is_no_order_is_refused(rt: HostRuntime) -> Result<(), Fail> {
    let alloc = rt.alloc();
    assert!(rt; refuses(alloc, &[0, 1, 0, 1, 0, 1, 0, 1, 0, 1, 0])?);
    assert!(rt; refuses(alloc, &[0, 0, 0, 1, 0, 1, 0, 1, 0, 1, 0, 1])?);
    assert!(rt; refuses(alloc, &[])?);
    Ok(())
}
