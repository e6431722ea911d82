//! Jobs that start, lock and finish on a core, with the ceilings found by hand.
ghost use Rattle.std.specs.Prelude.{◌≡◌, ◌<◌, ◌∷◌};
ghost use Rattle.msrp_plan.specs.Common.{[], IfOk, IsSome, length, true, Contains, release_tick, jobs_on, is_global, is_before};
ghost use Rattle.msrp_policy_tests.specs.Nested.{nested};

use crate::plans::plan_of;
use msrp_levels::Levels;
use msrp_plan::{CoreId, JobId, Memory, Plan, ResId, TaskId};
use msrp_stack::CeilingStack;
use std::alloc::Global;
use std::process::Abort;
use std::test::Fail;

const CORE: CoreId = CoreId(0);
// A resource of one task, one of two tasks of the core, and one with a user on another core.
const OWN: ResId = ResId(0);

const BOTH: ResId = ResId(1);

const SHARED: ResId = ResId(2);

fn first_job(task: u32) -> JobId {
    JobId {
        task: TaskId(task),
        k: 0,
    }
}

// The task of the earlier deadline has level 2, the other one of its core level 1.
const PLAN: &[u8] =
    b"msrp,1\ncores,2\nticks,40\nresource,own\nresource,both\nresource,shared\ntask,late,0,40,20,0\nop,lock,own\nop,unlock,own\nop,lock,both\nop,unlock,both\nop,lock,shared\nop,unlock,shared\ntask,early,0,40,10,0\nop,lock,both\nop,unlock,both\ntask,other,1,40,10,0\nop,lock,shared\nop,unlock,shared\n";

// A task with the latest deadline holds as many resources as a job may, nested; each is shared with
// another task of an earlier deadline than the last.
const DEEP_PLAN: &[u8] =
    b"msrp,1\ncores,1\nticks,40\nresource,a\nresource,b\nresource,c\nresource,d\nresource,e\nresource,f\nresource,g\nresource,h\ntask,deep,0,40,20,0\nop,lock,a\nop,lock,b\nop,lock,c\nop,lock,d\nop,lock,e\nop,lock,f\nop,lock,g\nop,lock,h\nop,unlock,h\nop,unlock,g\nop,unlock,f\nop,unlock,e\nop,unlock,d\nop,unlock,c\nop,unlock,b\nop,unlock,a\ntask,t,0,40,19,0\nop,lock,a\nop,unlock,a\ntask,u,0,40,18,0\nop,lock,b\nop,unlock,b\ntask,v,0,40,17,0\nop,lock,c\nop,unlock,c\ntask,w,0,40,16,0\nop,lock,d\nop,unlock,d\ntask,x,0,40,15,0\nop,lock,e\nop,unlock,e\ntask,y,0,40,14,0\nop,lock,f\nop,unlock,f\ntask,z,0,40,13,0\nop,lock,g\nop,unlock,g\ntask,zz,0,40,12,0\nop,lock,h\nop,unlock,h\n";

// Whether a job is one of the core.
fn is_own(plan: &Plan, job: JobId) -> bool
    ensures { result ≡ true → Contains (jobs_on plan.now 0) job }
{
    if job.task.0 >= plan.tasks() {
        return false;
    }
    if job.k >= plan.jobs(job.task) {
        return false;
    }
    plan.core_of(job.task).0 == CORE.0
}

fn has_job(plan: &Plan, job: JobId) -> bool
    ensures task { result ≡ true → job.task.0 < length plan.now.tasks }
    ensures released { result ≡ true → IsSome (release_tick plan.now job) }
{
    job.task.0 < plan.tasks() && job.k < plan.jobs(job.task)
}

fn is_first(plan: &Plan, job: JobId, other: JobId) -> bool
    ensures { result ≡ true → is_before plan.now job other ≡ true }
{
    has_job(plan, job) && has_job(plan, other) && plan.job_key(job).is_before(&plan.job_key(other))
}

// Whether a resource is one of the plan, and global or not as expected.
fn has_resource(plan: &Plan, levels: &Levels, res: ResId, global: bool) -> bool
    requires { levels.now ≡ plan.now }
    ensures declared { result ≡ true → res.0 < length plan.now.resources }
    ensures global { result ≡ true → is_global plan.now res.0 ≡ global }
{
    res.0 < plan.resources() && levels.is_global(res) == global
}

// A stack of the core on which one job is started.
fn started<'a>(
    alloc: Global,
    plan: &'a Plan,
    levels: &Levels<'_>,
    job: JobId,
) -> Result<CeilingStack<'a>, Memory>
    requires levels { levels.now ≡ plan.now }
    requires job { Contains (jobs_on plan.now 0) job }
    ensures { IfOk result (λ stack. stack ≡ record { plan = plan.now; core = 0; started = record { job = job; held = [] } ∷ [] }) }
{
    // This read proves that the plan is an accepted one, which has a core.
    let _cores = plan.cores();
    let mut stack = CeilingStack::with_room(alloc, plan, levels, CORE)?;
    stack.start(job);
    Ok(stack)
}

// Starts a job of the core over another, which holds a resource and comes after it.
fn start_over(rt: &impl Abort, plan: &Plan, stack: &mut CeilingStack, job: JobId, below: JobId)
    requires { stack.old ≡ record { plan = plan.now; core = 0; started = record { job = below; held = 0 ∷ [] } ∷ [] } }
    ensures { stack.new ≡ record { plan = plan.now; core = 0; started = record { job = job; held = [] } ∷ record { job = below; held = 0 ∷ [] } ∷ [] } }
{
    assert!(rt; is_own(plan, job));
    assert!(rt; is_first(plan, job, below));
    stack.start(job);
}

// Which job is on top, and the ceiling.
fn expect(rt: &impl Abort, stack: &CeilingStack, top: JobId, ceiling: u32) {
    assert_eq!(rt; stack.top(), Some(top));
    assert_eq!(rt; stack.ceiling(), ceiling);
}

// No job is on top of a new stack.
fn is_new(rt: &impl Abort, alloc: Global, plan: &Plan, levels: &Levels) -> Result<(), Fail>
    requires { levels.now ≡ plan.now }
{
    assert!(rt; plan.cores() > 0);
    let stack = CeilingStack::with_room(alloc, plan, levels, CORE)?;
    assert!(rt; stack.top().is_none());
    assert_eq!(rt; stack.ceiling(), 0);
    Ok(())
}

// Each lock saves the ceiling, and its unlock restores it.
fn nests(rt: &impl Abort, alloc: Global, plan: &Plan, levels: &Levels) -> Result<(), Fail>
    requires { levels.now ≡ plan.now }
{
    let late = first_job(0);
    assert!(rt; is_own(plan, late));
    assert!(rt; has_resource(plan, levels, OWN, false));
    assert!(rt; has_resource(plan, levels, BOTH, false));
    let mut stack = started(alloc, plan, levels, late)?;
    expect(rt, &stack, late, 0);
    stack.lock(OWN);
    expect(rt, &stack, late, 1);
    stack.lock(BOTH);
    expect(rt, &stack, late, 2);
    stack.unlock(BOTH);
    expect(rt, &stack, late, 1);
    stack.unlock(OWN);
    expect(rt, &stack, late, 0);
    Ok(())
}

// A request of a global resource raises the ceiling to the core's highest level, even if only a
// lower task there uses it.
fn requests(rt: &impl Abort, alloc: Global, plan: &Plan, levels: &Levels) -> Result<(), Fail>
    requires { levels.now ≡ plan.now }
{
    let late = first_job(0);
    assert!(rt; is_own(plan, late));
    assert!(rt; has_resource(plan, levels, SHARED, true));
    let mut stack = started(alloc, plan, levels, late)?;
    stack.raise_global(SHARED);
    expect(rt, &stack, late, 2);
    stack.drop_global(SHARED);
    expect(rt, &stack, late, 0);
    Ok(())
}

// A job started while another holds a resource is on top until it ends; the ceiling stays.
fn stands_on(rt: &impl Abort, alloc: Global, plan: &Plan, levels: &Levels) -> Result<(), Fail>
    requires { levels.now ≡ plan.now }
{
    let (late, early) = (first_job(0), first_job(1));
    assert!(rt; is_own(plan, late));
    assert!(rt; has_resource(plan, levels, OWN, false));
    let mut stack = started(alloc, plan, levels, late)?;
    stack.lock(OWN);
    start_over(rt, plan, &mut stack, early, late);
    expect(rt, &stack, early, 1);
    stack.finish();
    expect(rt, &stack, late, 1);
    Ok(())
}

// Locks the first eight resources, nested: each raises the ceiling by one.
fn lock_eight(rt: &impl Abort, plan: &Plan, levels: &Levels, stack: &mut CeilingStack, job: JobId)
    requires levels { levels.now ≡ plan.now }
    requires stack { stack.old ≡ record { plan = plan.now; core = 0; started = record { job = job; held = [] } ∷ [] } }
    ensures { stack.new ≡ record { plan = plan.now; core = 0; started = record { job = job; held = nested 8 } ∷ [] } }
{
    for r in 0..8 {
        assert!(rt; has_resource(plan, levels, ResId(r), false));
        stack.lock(ResId(r));
        expect(rt, stack, job, r + 2);
    }
}

// Unlocks them, the last one first: each restores the ceiling.
fn unlock_eight(rt: &impl Abort, plan: &Plan, levels: &Levels, stack: &mut CeilingStack, job: JobId)
    requires levels { levels.now ≡ plan.now }
    requires stack { stack.old ≡ record { plan = plan.now; core = 0; started = record { job = job; held = nested 8 } ∷ [] } }
{
    for left in 0..8 {
        let r = 7 - left;
        expect(rt, stack, job, r + 2);
        assert!(rt; has_resource(plan, levels, ResId(r), false));
        stack.unlock(ResId(r));
    }
    expect(rt, stack, job, 0);
}

// A job may hold eight resources at once.
fn holds_eight(rt: &impl Abort, alloc: Global, plan: &Plan, levels: &Levels) -> Result<(), Fail>
    requires { levels.now ≡ plan.now }
{
    let deep = first_job(0);
    assert!(rt; is_own(plan, deep));
    let mut stack = started(alloc, plan, levels, deep)?;
    lock_eight(rt, plan, levels, &mut stack, deep);
    unlock_eight(rt, plan, levels, &mut stack, deep);
    Ok(())
}

#[derive(Clone, Copy)]
enum Case {
    New,
    Nested,
    Global,
    Second,
    Eight,
}

// One of these cases, over a plan.
fn over(rt: &impl Abort, alloc: Global, text: &[u8], case: Case) -> Result<(), Fail> {
    let plan = plan_of(alloc, text)?;
    let levels = Levels::of(alloc, &plan)?;
    match case {
        Case::New => is_new(rt, alloc, &plan, &levels),
        Case::Nested => nests(rt, alloc, &plan, &levels),
        Case::Global => requests(rt, alloc, &plan, &levels),
        Case::Second => stands_on(rt, alloc, &plan, &levels),
        Case::Eight => holds_eight(rt, alloc, &plan, &levels),
    }
}

#[test]
fn a_new_stack_is_empty(rt: HostRuntime) -> Result<(), Fail> {
    over(&rt, rt.alloc(), PLAN, Case::New)
}

#[test]
fn nested_locks_raise_the_ceiling(rt: HostRuntime) -> Result<(), Fail> {
    over(&rt, rt.alloc(), PLAN, Case::Nested)
}

#[test]
fn a_global_request_raises_to_the_highest_level(rt: HostRuntime) -> Result<(), Fail> {
    over(&rt, rt.alloc(), PLAN, Case::Global)
}

#[test]
fn a_second_job_stands_on_the_first(rt: HostRuntime) -> Result<(), Fail> {
    over(&rt, rt.alloc(), PLAN, Case::Second)
}

#[test]
fn eight_resources_are_held_at_once(rt: HostRuntime) -> Result<(), Fail> {
    over(&rt, rt.alloc(), DEEP_PLAN, Case::Eight)
}
