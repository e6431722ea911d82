//! Jobs with their releases, and by their keys.
ghost use Rattle.msrp_plan.specs.Common.{[], length, IfSome, IfNone, All, Contains, IsPlan};
ghost use Rattle.std.specs.Prelude.{◌≡◌, ◌<◌, ◌++◌, option_to_list};
ghost use Rattle.std.specs.BinaryHeap.{IsUpperBound};
ghost use Rattle.msrp_ready.specs.Heap.{least_on_top};
ghost use Rattle.msrp_ready.specs.Keyed.{earlier_of, entry_keys};

use msrp_plan::{JobId, Plan, TaskId};
use std::marker::Model;
use std::mem::size_of;

/// An entry of a calendar: a job and its release tick. A calendar is long, so an entry has no key,
/// and only two bytes for each number, which a plan's limits allow.
#[derive(Clone, Copy)]
pub(crate) struct Entry {
    pub(crate) release: u16,
    pub(crate) task: u16,
    pub(crate) k: u16,
}

const _: () = prove!(size_of::<Entry>() == 6);

impl Entry {
    ghost use Rattle.std.specs.Option.{IsSomeAnd};
    ghost use Rattle.msrp_plan.specs.Plan.{release_tick};
    ghost use Rattle.msrp_ready.specs.Keyed.{entry};

    /// A job of a plan with its release.
    pub(crate) fn of(plan: &Plan, job: JobId) -> Entry
        requires plan { IsPlan plan.now }
        requires task { job.task.0 < length plan.now.tasks }
        requires released { IsSomeAnd (release_tick plan.now job) (λ tick. tick < plan.now.ticks) }
        requires number { job.k < plan.now.ticks }
        ensures { result ≡ entry plan.now job }
    {
        Entry {
            release: plan.release(job) as u16,
            task: job.task.0 as u16,
            k: job.k as u16,
        }
    }
}

/// A job as its key, packed into one number, so that keys compare in one step: absolute deadline,
/// then release, task and job number, each with room for a plan's limits.
#[derive(Clone, Copy)]
pub(crate) struct KeyedJob {
    number: u64,
}

const _: () = prove!(size_of::<KeyedJob>() == 8);

// The weights of one tick of the deadline, one of the release, and one task in the number.
const DEADLINE: u64 = 1 << 40;

const RELEASE: u64 = 1 << 24;

const TASK: u64 = 1 << 16;

impl Model for KeyedJob {
    ghost use Rattle.msrp_plan.specs.declared.ids.JobKey.{JobKey};

    ghost Value = { JobKey };

    ghost use Rattle.msrp_ready.specs.KeyedView.{keyed_view, keyed_inside, inside_again};

    ghost view = { keyed_view };

    ghost inverse = { keyed_inside };

    ghost inverse_ok = { λ job _. inside_again job };
}

impl KeyedJob {
    ghost use Rattle.std.specs.Ordering.{is_lt};
    ghost use Rattle.msrp_plan.specs.Choice.{key_cmp};
    ghost use Rattle.msrp_ready.specs.Keyed.{job_of, entry_key};

    /// The key of an entry's job.
    pub(crate) fn of(plan: &Plan, entry: Entry) -> KeyedJob
        requires plan { IsPlan plan.now }
        requires task { entry.task < length plan.now.tasks }
        ensures { result ≡ entry_key plan.now entry }
    {
        let relative = plan.deadline(TaskId(u32::from(entry.task)));
        let release = u64::from(entry.release);
        let deadline = release + u64::from(relative);
        let task = u64::from(entry.task);
        KeyedJob {
            number: deadline * DEADLINE + release * RELEASE + task * TASK + u64::from(entry.k),
        }
    }

    /// The job of the key.
    pub(crate) fn job(&self) -> JobId
        ensures { result ≡ job_of self.now }
    {
        JobId {
            task: TaskId((self.number % RELEASE / TASK) as u32),
            k: (self.number % TASK) as u32,
        }
    }

    /// Whether this job comes before another.
    #[inline(always)]
    pub(crate) fn is_before(&self, other: &KeyedJob) -> bool
        ensures { result ≡ is_lt (key_cmp self.now other.now) }
    {
        self.number < other.number
    }
}

// The first of a job and another; the job itself if there is no other.
fn earlier(job: KeyedJob, other: Option<KeyedJob>) -> KeyedJob
    ensures { result ≡ earlier_of job other }
{
    match other {
        None => job,
        Some(other) if job.is_before(&other) => job,
        Some(other) => other,
    }
}

/// The first of some entries' jobs and one more, if there is any.
pub(crate) fn first_of(plan: &Plan, one: Option<KeyedJob>, entries: &[Entry]) -> Option<KeyedJob>
    requires plan { IsPlan plan.now }
    requires tasks { All (λ entry. entry.task < length plan.now.tasks) entries.now }
    ensures none { IfNone result (option_to_list one ++ entry_keys plan.now entries.now ≡ []) }
    ensures one { IfSome result (Contains (option_to_list one ++ entry_keys plan.now entries.now)) }
    ensures first { IfSome result (λ first. IsUpperBound least_on_top first (option_to_list one ++ entry_keys plan.now entries.now)) }
{
    let mut first = one;
    for entry in entries {
        first = Some(earlier(KeyedJob::of(plan, *entry), first));
    }
    first
}
