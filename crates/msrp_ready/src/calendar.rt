//! The calendar of a core: its jobs in the order of their releases.
ghost use Rattle.std.specs.Prelude.{◌≡◌, ◌<◌, ◌≤◌, ◌+◌, ◌-◌, ◌*◌, ◌^◌, ◌++◌};
ghost use Rattle.msrp_plan.specs.Common.{length, map, take, drop, slice_index_or, IfOk, OnOk, All, IsPermutation, IsNonDecreasingBy, jobs_of, jobs_on, IsPlan, most_jobs};
ghost use Rattle.msrp_ready.specs.Keyed.{entry, entry_keys};
ghost use Rattle.msrp_ready.specs.ReadyView.{IsComing};
ghost use Rattle.msrp_ready.specs.declared.keyed.Entry.{Entry};

use crate::heap::Heap;
use crate::keyed::{Entry, KeyedJob};
use msrp_plan::{CoreId, JobId, Memory, Plan, TaskId};
use std::alloc::{AllocError, Global};

// The release of no job, after all ticks.
pub(crate) const NEVER: u64 = 1 << 32;

fn push_jobs(jobs: &mut Vec<Entry>, plan: &Plan, task: TaskId) -> Result<(), AllocError>
    requires plan { IsPlan plan.now }
    requires task { task.0 < length plan.now.tasks }
    ensures { OnOk result (jobs.new.items ≡ jobs.old.items ++ map (entry plan.now) (jobs_of plan.now task.0)) }
{
    for k in 0..plan.jobs(task) {
        jobs.push(Entry::of(plan, JobId { task, k }))?;
    }
    Ok(())
}

// The jobs of a core, task by task.
fn jobs_on(alloc: Global, plan: &Plan, core: CoreId) -> Result<Vec<Entry>, AllocError>
    ensures plan { IsPlan plan.now }
    ensures jobs { IfOk result (λ jobs. jobs.items ≡ map (entry plan.now) (jobs_on plan.now core.0)) }
{
    let mut jobs = Vec::with_capacity(alloc, plan.jobs_on(core))?;
    for t in 0..plan.tasks() {
        if plan.core_of(TaskId(t)) == core {
            push_jobs(&mut jobs, plan, TaskId(t))?;
        }
    }
    Ok(jobs)
}

/// The jobs of a core by their releases; [`Memory`] only if memory runs out.
pub(crate) fn calendar_of(alloc: Global, plan: &Plan, core: CoreId) -> Result<Vec<Entry>, Memory>
    ensures plan { IsPlan plan.now }
    ensures jobs { IfOk result (λ jobs. IsPermutation (map (entry plan.now) (jobs_on plan.now core.0)) jobs.items) }
    ensures sorted { IfOk result (λ jobs. IsNonDecreasingBy (λ entry. entry.release) jobs.items) }
{
    let mut jobs = jobs_on(alloc, plan, core)?;
    jobs.sort_unstable_by_key(|entry| entry.release);
    Ok(jobs)
}

/// The index of the first job, from an index on, that isn't released by a tick.
pub(crate) fn released_to(calendar: &[Entry], from: usize, tick: u32) -> usize
    requires { from ≤ length calendar.now }
    ensures from { from ≤ result }
    ensures within { result ≤ length calendar.now }
    ensures released { All (λ entry. entry.release ≤ tick) (drop from (take result calendar.now)) }
    ensures later { (d : Entry) → result < length calendar.now → tick < (slice_index_or calendar.now result d).release }
{
    let mut next = from;
    while next < calendar.len() && u32::from(calendar[next].release) <= tick {
        next += 1;
    }
    next
}

/// The release of the job at an index, or after all ticks if there is none.
pub(crate) fn release_at(calendar: &[Entry], place: usize) -> u64
    ensures { IsComing calendar.now place result }
{
    if place < calendar.len() {
        u64::from(calendar[place].release)
    } else {
        NEVER
    }
}

/// Moves the jobs released by a tick from the calendar, from an index on, into the heap. Returns
/// the index and the release of the first that stays.
#[inline(always)]
pub(crate) fn release(
    plan: &Plan,
    calendar: &[Entry],
    from: usize,
    coming: u64,
    tick: u32,
    heap: &mut Heap,
) -> (usize, u64)
    requires from { from ≤ length calendar.now }
    requires coming { IsComing calendar.now from coming }
    requires plan { IsPlan plan.now }
    requires tasks { All (λ entry. entry.task < length plan.now.tasks) calendar.now }
    requires few { length calendar.now ≤ most_jobs }
    requires room { heap.old.room ≡ length calendar.now }
    requires jobs { length heap.old.jobs ≤ from }
    requires count { heap.old.compared < 2 ^ 63 }
    ensures from { from ≤ result.0 }
    ensures within { result.0 ≤ length calendar.now }
    ensures released { All (λ entry. entry.release ≤ tick) (drop from (take result.0 calendar.now)) }
    ensures later { (d : Entry) → result.0 < length calendar.now → tick < (slice_index_or calendar.now result.0 d).release }
    ensures jobs { IsPermutation (heap.old.jobs ++ entry_keys plan.now (drop from (take result.0 calendar.now))) heap.new.jobs }
    ensures room { heap.new.room ≡ heap.old.room }
    ensures compared { heap.new.compared ≤ heap.old.compared + 13 * (result.0 - from) }
    ensures kept { heap.old.compared ≤ heap.new.compared }
    ensures counted { result.0 ≤ from + 1 + (heap.new.compared - heap.old.compared) }
    ensures coming { IsComing calendar.now result.0 result.1 }
{
    if coming <= u64::from(tick) {
        let next = release_some(plan, calendar, from, tick, heap);
        (next, release_at(calendar, next))
    } else {
        (from, coming)
    }
}

// Releases the jobs of one tick, apart from the code for the usual tick without a release.
#[inline(never)]
fn release_some(plan: &Plan, calendar: &[Entry], from: usize, tick: u32, heap: &mut Heap) -> usize
    requires from { from ≤ length calendar.now }
    requires plan { IsPlan plan.now }
    requires tasks { All (λ entry. entry.task < length plan.now.tasks) calendar.now }
    requires few { length calendar.now ≤ most_jobs }
    requires room { heap.old.room ≡ length calendar.now }
    requires jobs { length heap.old.jobs ≤ from }
    requires count { heap.old.compared < 2 ^ 63 }
    ensures from { from ≤ result }
    ensures within { result ≤ length calendar.now }
    ensures released { All (λ entry. entry.release ≤ tick) (drop from (take result calendar.now)) }
    ensures later { (d : Entry) → result < length calendar.now → tick < (slice_index_or calendar.now result d).release }
    ensures jobs { IsPermutation (heap.old.jobs ++ entry_keys plan.now (drop from (take result calendar.now))) heap.new.jobs }
    ensures room { heap.new.room ≡ heap.old.room }
    ensures compared { heap.new.compared ≤ heap.old.compared + 13 * (result - from) }
    ensures kept { heap.old.compared ≤ heap.new.compared }
    ensures counted { result ≤ from + 1 + (heap.new.compared - heap.old.compared) }
{
    let until = released_to(calendar, from, tick);
    let released = &calendar[from..until];
    for entry in released {
        heap.push(KeyedJob::of(plan, *entry));
    }
    until
}
