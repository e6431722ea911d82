//! Plans small enough to follow by hand, with their levels, ceilings and bounds.
ghost use Rattle.std.specs.Prelude.{◌≡◌};

use crate::plans::plan_of;
use msrp_levels::Levels;
use msrp_plan::{CoreId, Plan, ResId, TaskId};
use std::alloc::Global;
use std::process::Abort;
use std::test::*;

const R: ResId = ResId(0);

const Q: ResId = ResId(1);

// Each task's level, and the bound on its outermost sections.
fn expect_tasks(rt: &impl Abort, plan: &Plan, levels: &Levels, expected: &[(u32, u32)])
    requires { levels.now ≡ plan.now }
{
    assert_eq!(rt; plan.tasks() as usize, expected.len());
    for t in 0..plan.tasks() {
        let task = TaskId(t);
        assert_eq!(rt;
            (levels.level(task), levels.out(task)),
            expected[t as usize]
        );
    }
}

// Each core's highest level.
fn expect_tops(rt: &impl Abort, plan: &Plan, levels: &Levels, expected: &[u32])
    requires { levels.now ≡ plan.now }
{
    assert_eq!(rt; plan.cores() as usize, expected.len());
    for c in 0..plan.cores() {
        assert_eq!(rt; levels.top(CoreId(c)), expected[c as usize]);
    }
}

// Whether a resource is global, and its users.
fn expect_users(
    rt: &impl Abort,
    plan: &Plan,
    levels: &Levels,
    res: ResId,
    global: bool,
    users: &[TaskId],
)
    requires { levels.now ≡ plan.now }
{
    assert!(rt; res.0 < plan.resources());
    assert_eq!(rt; levels.is_global(res), global);
    assert_eq!(rt; levels.users(res), users);
}

// At each core a resource's ceiling, its longest section, and the bound on spinning.
fn expect_cores(
    rt: &impl Abort,
    plan: &Plan,
    levels: &Levels,
    res: ResId,
    expected: &[(u32, u32, u32)],
)
    requires { levels.now ≡ plan.now }
{
    assert!(rt; res.0 < plan.resources());
    assert_eq!(rt; plan.cores() as usize, expected.len());
    for c in 0..plan.cores() {
        let core = CoreId(c);
        let found = (
            levels.ceiling(res, core),
            levels.section(res, core),
            levels.spin_bound(res, core),
        );
        assert_eq!(rt; found, expected[c as usize]);
    }
}

// A resource: whether it is global, its users, and by core its ceiling, longest section and bound.
#[derive(Clone, Copy)]
struct Expected<'a> {
    res: ResId,
    global: bool,
    users: &'a [TaskId],
    cores: &'a [(u32, u32, u32)],
}

fn expect_resources(rt: &impl Abort, plan: &Plan, levels: &Levels, expected: &[Expected<'_>])
    requires { levels.now ≡ plan.now }
{
    for due in expected {
        expect_users(rt, plan, levels, due.res, due.global, due.users);
        expect_cores(rt, plan, levels, due.res, due.cores);
    }
}

// The expected levels of a plan: of its tasks, cores and resources.
fn expect(
    rt: &impl Abort,
    alloc: Global,
    text: &[u8],
    tasks: &[(u32, u32)],
    tops: &[u32],
    resources: &[Expected<'_>],
) -> Result<(), Fail> {
    let plan = plan_of(alloc, text)?;
    let levels = Levels::of(alloc, &plan)?;
    expect_tasks(rt, &plan, &levels, tasks);
    expect_tops(rt, &plan, &levels, tops);
    expect_resources(rt, &plan, &levels, resources);
    Ok(())
}

#[test]
fn two_levels_on_a_local_resource(rt: HostRuntime) -> Result<(), Fail> {
    let text =
        b"msrp,1\ncores,1\nticks,9\nresource,r\ntask,lo,0,20,10,0\nop,lock,r\nop,run,3\nop,unlock,r\ntask,hi,0,20,5,0\nop,lock,r\nop,run,1\nop,unlock,r\n";
    let local = Expected {
        res: R,
        global: false,
        users: &[TaskId(0), TaskId(1)],
        cores: &[(2, 4, 0)],
    };
    expect(&rt, rt.alloc(), text, &[(1, 4), (2, 2)], &[2], &[local])
}

// A job of lo takes one row to queue, at most two to spin, and four after the lock.
#[test]
fn a_global_resource_on_two_cores(rt: HostRuntime) -> Result<(), Fail> {
    let text =
        b"msrp,1\ncores,2\nticks,9\nresource,g\ntask,lo,0,20,10,0\nop,lock,g\nop,run,3\nop,unlock,g\ntask,hi,0,20,6,0\nop,run,1\ntask,other,1,20,10,0\nop,lock,g\nop,unlock,g\n";
    let global = Expected {
        res: R,
        global: true,
        users: &[TaskId(0), TaskId(2)],
        cores: &[(2, 4, 2), (1, 1, 5)],
    };
    let tasks = [(1, 7), (2, 0), (1, 7)];
    expect(&rt, rt.alloc(), text, &tasks, &[2, 1], &[global])
}

#[test]
fn a_local_resource_inside_a_global_one(rt: HostRuntime) -> Result<(), Fail> {
    let text =
        b"msrp,1\ncores,2\nticks,9\nresource,g\nresource,h\ntask,a,0,20,10,0\nop,lock,g\nop,lock,h\nop,unlock,h\nop,unlock,g\ntask,b,1,20,10,0\nop,lock,g\nop,unlock,g\n";
    let outer = Expected {
        res: R,
        global: true,
        users: &[TaskId(0), TaskId(1)],
        cores: &[(1, 3, 2), (1, 1, 4)],
    };
    let inner = Expected {
        res: Q,
        global: false,
        users: &[TaskId(0)],
        cores: &[(1, 1, 0), (1, 0, 2)],
    };
    let tasks = [(1, 6), (1, 6)];
    expect(&rt, rt.alloc(), text, &tasks, &[1, 1], &[outer, inner])
}
