//! Ready jobs: which one is the head, and which one is next.

use crate::plans::plan_of;
use msrp_plan::{CoreId, JobId, Plan, TaskId};
use msrp_ready::Ready;
use std::alloc::Global;
use std::test::Fail;

// A call with its expected answer.
#[derive(Clone, Copy)]
enum Call {
    // The jobs released by this tick join.
    Release(u32),
    Head(Option<JobId>),
    HeadAt(u32, Option<JobId>),
    Take(Option<JobId>),
}

use Call::{Head, HeadAt, Release, Take};

// The calls without their contracts: a test relies on what it sees.

// Whether jobs up to this tick can be released: no later tick was.
fn release_to(ready: &mut Ready<'_>, tick: u32) -> bool {
    match ready.tick() {
        Some(before) if tick < before => false,
        _ => {
            ready.release_to(tick);
            true
        }
    }
}

fn head_at(ready: &Ready<'_>, tick: u32) -> Option<JobId> {
    match ready.tick() {
        Some(before) if tick < before => None,
        _ => ready.head_at(tick),
    }
}

// Whether the call has its expected answer.
fn answers(ready: &mut Ready<'_>, call: Call) -> bool {
    match call {
        Release(tick) => release_to(ready, tick),
        Head(job) => ready.head() == job,
        HeadAt(tick, job) => head_at(ready, tick) == job,
        Take(job) => ready.take_head() == job,
    }
}

// The index of the first call with another answer.
fn first_wrong(ready: &mut Ready<'_>, calls: &[Call]) -> Option<usize> {
    for (at, call) in calls.iter().enumerate() {
        if !answers(ready, *call) {
            return Some(at);
        }
    }
    None
}

fn job(task: u32, k: u32) -> Option<JobId> {
    Some(JobId {
        task: TaskId(task),
        k,
    })
}

// On a plan's first core: the index of the first wrong call, the comparisons, and the tick reached.
type Found = (Option<usize>, u64, Option<u32>);

fn found(alloc: Global, text: &[u8], calls: &[Call]) -> Result<Found, Fail> {
    let plan = plan_of(alloc, text)?;
    let Ok(mut ready) = Ready::with_room(alloc, &plan, CoreId(0)) else {
        return Err(Fail::from("memory"));
    };
    let wrong = first_wrong(&mut ready, calls);
    Ok((wrong, ready.compared(), ready.tick()))
}

// Task y is declared first and released last: both deadlines are 10, so the release decides.
#[test]
fn equal_deadlines_go_by_release(rt: HostRuntime) -> Result<(), Fail> {
    let text = b"msrp,1\ncores,1\nticks,8\ntask,y,0,20,8,2\nop,run,1\ntask,x,0,20,10,0\nop,run,1\n";
    let calls = [
        Head(None),
        HeadAt(2, job(1, 0)),
        Release(2),
        Head(job(1, 0)),
        Take(job(1, 0)),
        Take(job(0, 0)),
        Take(None),
    ];
    let (wrong, compared, _) = found(rt.alloc(), text, &calls)?;
    assert_eq!(rt; wrong, None);
    assert_eq!(rt; compared, 1);
    Ok(())
}

// The head stays the head when jobs after it are released.
#[test]
fn blocked_head_stays(rt: HostRuntime) -> Result<(), Fail> {
    let text =
        b"msrp,1\ncores,1\nticks,19\ntask,k,0,40,20,0\nop,run,1\ntask,j2,0,40,15,1\nop,run,1\ntask,j,0,40,5,12\nop,run,1\n";
    let calls = [
        Release(0),
        Take(job(0, 0)),
        Release(1),
        Head(job(1, 0)),
        HeadAt(11, job(1, 0)),
        HeadAt(12, job(1, 0)),
        Release(12),
        Head(job(1, 0)),
        Release(14),
        Take(job(1, 0)),
        Take(job(2, 0)),
    ];
    let (wrong, _, tick) = found(rt.alloc(), text, &calls)?;
    assert_eq!(rt; wrong, None);
    assert_eq!(rt; tick, Some(14));
    Ok(())
}

#[test]
fn listed_jobs_come_at_their_ticks(rt: HostRuntime) -> Result<(), Fail> {
    let text =
        b"msrp,2\ncores,1\nticks,10\nlisted,a,0,4\nrelease,1\nrelease,2\nrelease,7\nop,run,1\ntask,b,0,4,4,0\nop,run,1\n";
    let calls = [
        Release(1),
        HeadAt(9, job(1, 0)),
        Take(job(1, 0)),
        Take(job(0, 0)),
        Take(None),
        HeadAt(1, None),
        HeadAt(9, job(0, 1)),
        Release(9),
        Take(job(0, 1)),
        Take(job(1, 1)),
        Take(job(0, 2)),
        Take(job(1, 2)),
        Take(None),
    ];
    let (wrong, _, _) = found(rt.alloc(), text, &calls)?;
    assert_eq!(rt; wrong, None);
    Ok(())
}

// A plan of 64 tasks with 128 jobs each. The jobs of each task come before those of all earlier
// tasks, so a new job rises far.
fn full(alloc: Global) -> Result<Plan, Fail> {
    let mut text = Vec::from_slice(alloc, b"msrp,1\ncores,1\nticks,8192\n")?;
    for t in 0..64u32 {
        let deadline = 1_000_000 - 10_000 * t;
        let record = format!(in alloc; "task,t{t},0,64,{deadline},{t}\nop,run,1\n")?;
        text.extend_from_slice(record.as_bytes())?;
    }
    plan_of(alloc, text.as_slice())
}

// Whether the next heads are a task's jobs, each seen with no comparison, taken with at most 26.
fn leaves_next(ready: &mut Ready<'_>, task: u32) -> bool {
    let mut good = true;
    for k in 0..128u32 {
        let before = ready.compared();
        let seen = ready.head();
        let unchanged = ready.compared() == before;
        let taken = ready.take_head();
        let more = ready.compared().saturating_sub(before);
        good = good && seen == job(task, k) && unchanged && taken == seen && more <= 26;
    }
    good
}

// The first task, from the last on, whose jobs don't leave in order, if all joined with few
// comparisons and none is left.
fn first_astray(ready: &mut Ready<'_>) -> Option<u32> {
    if !answers(ready, Release(8_191)) || ready.compared() > 13 * 8_192 {
        return Some(64);
    }
    for t in 0..64u32 {
        if !leaves_next(ready, 63 - t) {
            return Some(t);
        }
    }
    ready.take_head().map(|job| job.task.0)
}

fn astray(alloc: Global) -> Result<Option<u32>, Fail> {
    let plan = full(alloc)?;
    match Ready::with_room(alloc, &plan, CoreId(0)) {
        Ok(mut ready) => Ok(first_astray(&mut ready)),
        Err(_) => Err(Fail::from("memory")),
    }
}

#[test]
fn most_jobs_leave_task_by_task(rt: HostRuntime) -> Result<(), Fail> {
    assert_eq!(rt; astray(rt.alloc())?, None);
    Ok(())
}
