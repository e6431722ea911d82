//! What a run exercised, counted as its rows are judged: a trace in which nothing happens is legal
//! too.
ghost use Rattle.std.specs.Prelude.{◌≡◌, ◌==◌, ◌+◌, ◌&&◌, ◌<◌, ◌++◌, ◌∷◌, if◌then◌else◌};
ghost use Rattle.msrp_plan.specs.Common.{[], List, None, length, max, not, true, false, ForSome, IsRunStart, IsPlan, IsSome, is_grant, is_queue, is_waiting, key, level, option_map, release_tick, units};
ghost use Rattle.std.specs.Option.{option_map_or};
ghost use Rattle.msrp_plan.specs.declared.rows.Row.{Row as TraceRow};
ghost use Rattle.msrp_core.specs.CoreStates.{IsCoreState};
ghost use Rattle.msrp_why.specs.Noted.{AreTurnCounts, is_at, is_at_most, is_entry, is_in_tick, is_job_of, is_other, nests, one_if, units_done};

use crate::notes::Numbered;
use msrp_core::CoreState;
use msrp_levels::Levels;
use msrp_plan::{JobId, Kind, Plan, Row};

/// What the rows on a resource met, in numbers of rows.
#[derive(Clone, Copy, Debug, Default)]
pub struct ResourceCounts {
    /// The rows that found it free.
    pub free: u32,
    /// The rows that joined its queue.
    pub joined: u32,
    /// The grants in the tick of the release.
    pub at_once: u32,
    /// The grants in a later tick.
    pub later: u32,
    /// The most jobs in its queue.
    pub longest: usize,
}

/// What the turns of the cores met, in numbers of turns.
#[derive(Clone, Copy, Debug, Default)]
pub struct TurnCounts {
    /// A job finished.
    pub finished: u32,
    /// A job finished after its absolute deadline.
    pub late: u32,
    /// A job finished exactly at its absolute deadline.
    pub at_deadline: u32,
    /// The level of the core's head was not above its ceiling.
    pub kept: u32,
    /// The level of the core's head was equal to its ceiling.
    pub at_ceiling: u32,
    /// A job preempted another.
    pub preempted: u32,
    /// A job locked or requested a resource inside a critical section.
    pub nested: u32,
}

// One more, if so. No count reaches the limit: there are at most 160,000 rows.
fn one_if(count: u32, so: bool) -> u32
    ensures { result ≡ one_if count so }
{
    count.saturating_add(u32::from(so))
}

fn is_at_most(value: Option<u64>, most: u64) -> bool
    ensures { result ≡ is_at_most value most }
{
    value.is_some_and(|value| value <= most)
}

fn is_at(value: Option<u64>, at: u64) -> bool
    ensures { result ≡ is_at value at }
{
    value.is_some_and(|value| value == at)
}

impl ResourceCounts {
    /// After a row on the resource: `last` was its last change before the row, and `queued` jobs
    /// are in its queue after it.
    pub(crate) fn note(&mut self, row: Row, last: Option<Numbered>, queued: usize)
        ensures free { self.new.free ≡ one_if self.old.free (is_entry row.kind) }
        ensures joined { self.new.joined ≡ one_if self.old.joined (is_queue row.kind) }
        ensures at_once { self.new.at_once ≡ one_if self.old.at_once (is_grant row.kind && is_in_tick row.tick last) }
        ensures later { self.new.later ≡ one_if self.old.later (is_grant row.kind && not (is_in_tick row.tick last)) }
        ensures longest { self.new.longest ≡ max self.old.longest queued }
    {
        let granted = matches!(row.kind, Kind::Grant);
        let at_once = last.is_some_and(|change| change.row.tick == row.tick);
        self.free = one_if(self.free, matches!(row.kind, Kind::Lock | Kind::Take));
        self.joined = one_if(self.joined, matches!(row.kind, Kind::Queue));
        self.at_once = one_if(self.at_once, granted && at_once);
        self.later = one_if(self.later, granted && !at_once);
        self.longest = self.longest.max(queued);
    }
}

/// How many of its units the job has done: none if it isn't the job that runs.
pub(crate) fn units_done(state: CoreState, job: JobId) -> u32
    ensures { result ≡ units_done state job }
{
    match state.running {
        Some(running) if running == job => state.done,
        _ => 0,
    }
}

/// Whether there is such a job.
pub(crate) fn is_job_of(plan: &Plan, job: JobId) -> bool
    ensures is { result ≡ is_job_of plan.now job }
    ensures task { result ≡ true → job.task.0 < length plan.now.tasks }
    ensures released { result ≡ true → IsSome (release_tick plan.now job) }
{
    job.task.0 < plan.tasks() && job.k < plan.jobs(job.task)
}

// Whether the job does its last unit, which is its next one, in a row of this kind.
fn finishes(plan: &Plan, state: CoreState, kind: Kind, job: Option<JobId>) -> bool
    ensures { ForSome job (λ j. j.task.0 < length plan.now.tasks) → result ≡ (not (is_waiting kind) && option_map_or (λ j. units_done state j + 1 == length (units plan.now j)) job false) }
{
    match job {
        Some(job) if job.task.0 < plan.tasks() && !matches!(kind, Kind::Queue | Kind::Spin) => {
            u64::from(units_done(state, job)) + 1 == u64::from(plan.units(job.task))
        }
        _ => false,
    }
}

// The absolute deadline of a job that finishes. Most turns finish none, and ask for no deadline.
fn deadline_of(plan: &Plan, job: Option<JobId>, finished: bool) -> Option<u64>
    ensures { ForSome job (λ j. is_job_of plan.now j ≡ true) → result ≡ if finished then option_map (λ j. (key plan.now j).deadline) job else None }
{
    match job {
        Some(known) if finished && is_job_of(plan, known) => Some(plan.job_key(known).deadline),
        _ => None,
    }
}

fn level_of(plan: &Plan, levels: &Levels<'_>, job: Option<JobId>) -> Option<u64>
    requires { levels.now ≡ plan.now }
    ensures { ForSome job (λ j. j.task.0 < length plan.now.tasks) → result ≡ option_map (λ j. level plan.now j.task.0) job }
{
    match job {
        Some(job) if job.task.0 < plan.tasks() => Some(u64::from(levels.level(job.task))),
        _ => None,
    }
}

fn is_other(running: Option<JobId>, job: Option<JobId>) -> bool
    ensures { result ≡ is_other running job }
{
    match (running, job) {
        (Some(runs), Some(own)) => runs != own,
        _ => false,
    }
}

impl TurnCounts {
    /// After a legal row, where the state of its core before the row is known, and whether the row
    /// opens a critical section inside another.
    #[inline(always)]
    pub(crate) fn note(
        &mut self,
        plan: &Plan,
        levels: &Levels<'_>,
        state: CoreState,
        nested: bool,
        row: Row,
    )
        requires levels { levels.now ≡ plan.now }
        requires accepted { IsPlan plan.now }
        ensures { (rows : List TraceRow) → IsRunStart plan.now (rows ++ row ∷ []) → IsCoreState plan.now row.core.0 row.tick rows state → nested ≡ nests plan.now rows row → AreTurnCounts plan.now rows self.old → AreTurnCounts plan.now (rows ++ row ∷ []) self.new }
    {
        let finished = finishes(plan, state, row.kind, row.job);
        let deadline = deadline_of(plan, row.job, finished);
        let level = level_of(plan, levels, state.head);
        self.finished = one_if(self.finished, finished);
        self.late = one_if(self.late, is_at_most(deadline, u64::from(row.tick)));
        self.at_deadline = one_if(self.at_deadline, is_at(deadline, u64::from(row.tick) + 1));
        self.kept = one_if(self.kept, is_at_most(level, u64::from(state.ceiling)));
        self.at_ceiling = one_if(self.at_ceiling, is_at(level, u64::from(state.ceiling)));
        self.preempted = one_if(self.preempted, is_other(state.running, row.job));
        self.nested = one_if(self.nested, nested);
    }
}
