//! What the rows so far say of each core, task and resource.
ghost use Rattle.std.specs.Prelude.{◌≡◌, ◌<◌, ◌+◌, ◌++◌, ◌∷◌, ◌^◌};
ghost use Rattle.msrp_plan.specs.Common.{ℕ, [], List, None, cond, length, slice_index_or, is_waiting, most_cores, most_resources, most_tasks};
ghost use Rattle.msrp_export.specs.Signals.{Row as TraceRow, Summarizes, acquires, counted, counts_of, gives_up, holder_by, last_row, resource_state, use_of, used};

use crate::signals::ResourceState;
use msrp_plan::limits::{MOST_CORES, MOST_RESOURCES, MOST_TASKS};
use msrp_plan::{CoreId, JobId, Kind, ResId, Row, TaskId};

/// What rows say of a task.
#[derive(Clone, Copy)]
pub(crate) struct TaskCounts {
    /// The units that its jobs have done.
    pub(crate) work: u32,
    /// How often they came to hold a resource.
    pub(crate) acquired: u32,
    /// How often they gave one up.
    pub(crate) given_up: u32,
}

/// What rows say of a resource.
#[derive(Clone, Copy)]
pub(crate) struct ResourceUse {
    pub(crate) holder: Option<JobId>,
    pub(crate) requests: u32,
    pub(crate) releases: u32,
}

/// What rows say of each core, task and resource, by their numbers.
#[derive(Clone, Copy)]
pub(crate) struct Summary {
    last_rows: [Option<Row>; MOST_CORES as usize],
    tasks: [TaskCounts; MOST_TASKS],
    uses: [ResourceUse; MOST_RESOURCES],
}

/// Whether a row of this kind gives its job a resource.
pub(crate) fn acquires(kind: Kind) -> bool
    ensures { result ≡ acquires kind }
{
    matches!(kind, Kind::Lock | Kind::Take | Kind::Grant)
}

/// Whether a row of this kind takes a resource from its job.
pub(crate) fn gives_up(kind: Kind) -> bool
    ensures { result ≡ gives_up kind }
{
    matches!(kind, Kind::Unlock | Kind::Release)
}

/// Whether a job waits for a global resource in a row of this kind.
pub(crate) fn waits(kind: Kind) -> bool
    ensures { result ≡ is_waiting kind }
{
    matches!(kind, Kind::Queue | Kind::Spin)
}

/// One more.
pub(crate) fn next(count: u32) -> u32
    ensures { count + 1 < 2 ^ 32 → result ≡ count + 1 }
{
    count.saturating_add(1)
}

// One more, where it counts.
fn one_more(count: u32, counts: bool) -> u32
    ensures { count + 1 < 2 ^ 32 → result ≡ count + cond counts 1 0 }
{
    if counts { next(count) } else { count }
}

impl TaskCounts {
    const NONE: TaskCounts = TaskCounts {
        work: 0,
        acquired: 0,
        given_up: 0,
    };

    // With one more row of the task.
    fn with_row(self, row: Row) -> TaskCounts
        ensures { self.work + 1 < 2 ^ 32 → self.acquired + 1 < 2 ^ 32 → self.given_up + 1 < 2 ^ 32 → result ≡ counted row self }
    {
        TaskCounts {
            work: one_more(self.work, !waits(row.kind)),
            acquired: one_more(self.acquired, acquires(row.kind)),
            given_up: one_more(self.given_up, gives_up(row.kind)),
        }
    }
}

impl ResourceUse {
    const NONE: ResourceUse = ResourceUse {
        holder: None,
        requests: 0,
        releases: 0,
    };

    fn holder_by(self, row: Row) -> Option<JobId>
        ensures { result ≡ holder_by self.holder row }
    {
        if acquires(row.kind) {
            row.job
        } else if gives_up(row.kind) {
            None
        } else {
            self.holder
        }
    }

    // With one more row on the resource.
    fn with_row(self, row: Row) -> ResourceUse
        ensures { self.requests + 1 < 2 ^ 32 → self.releases + 1 < 2 ^ 32 → result ≡ used row self }
    {
        let requests = matches!(row.kind, Kind::Take | Kind::Queue);
        ResourceUse {
            holder: self.holder_by(row),
            requests: one_more(self.requests, row.job.is_some() && requests),
            releases: one_more(self.releases, row.kind == Kind::Release),
        }
    }
}

impl Summary {
    /// Before the first row.
    pub(crate) fn new() -> Summary
        ensures { Summarizes result [] }
    {
        Summary {
            last_rows: [None; MOST_CORES as usize],
            tasks: [TaskCounts::NONE; MOST_TASKS],
            uses: [ResourceUse::NONE; MOST_RESOURCES],
        }
    }

    /// The last row of a core, if it has one.
    pub(crate) fn last_row(&self, core: CoreId) -> Option<Row>
        requires { core.0 < most_cores }
        ensures { (rows : List TraceRow) → Summarizes self.now rows → result ≡ last_row core.0 rows }
    {
        self.last_rows[core.0 as usize]
    }

    pub(crate) fn counts_of(&self, task: TaskId) -> TaskCounts
        requires { task.0 < most_tasks }
        ensures { (rows : List TraceRow) → Summarizes self.now rows → result ≡ counts_of task.0 rows }
    {
        self.tasks[task.0 as usize]
    }

    pub(crate) fn resource_state(&self, resource: ResId) -> ResourceState
        requires { resource.0 < most_resources }
        ensures { (rows : List TraceRow) → Summarizes self.now rows → result ≡ resource_state resource.0 rows }
    {
        let used = self.uses[resource.0 as usize];
        ResourceState {
            holder: used.holder,
            queue_length: used.requests.saturating_sub(used.releases),
        }
    }

    // Takes a row as the last one of its core.
    fn take_core(&mut self, row: Row)
        ensures last_rows { (c : ℕ) (rows : List TraceRow) → c < most_cores → slice_index_or self.old.last_rows c None ≡ last_row c rows → slice_index_or self.new.last_rows c None ≡ last_row c (rows ++ row ∷ []) }
        ensures tasks { self.new.tasks ≡ self.old.tasks }
        ensures uses { self.new.uses ≡ self.old.uses }
    {
        if row.core.0 < MOST_CORES {
            self.last_rows[row.core.0 as usize] = Some(row);
        }
    }

    // Counts a row for its task.
    fn take_task(&mut self, row: Row)
        ensures tasks { (t : ℕ) (rows : List TraceRow) → t < most_tasks → length rows + 1 < 2 ^ 32 → slice_index_or self.old.tasks t (counts_of t []) ≡ counts_of t rows → slice_index_or self.new.tasks t (counts_of t []) ≡ counts_of t (rows ++ row ∷ []) }
        ensures last_rows { self.new.last_rows ≡ self.old.last_rows }
        ensures uses { self.new.uses ≡ self.old.uses }
    {
        let Some(job) = row.job else {
            return;
        };
        let task = job.task.0 as usize;
        if task < MOST_TASKS {
            self.tasks[task] = self.tasks[task].with_row(row);
        }
    }

    // Counts a row for its resource.
    fn take_use(&mut self, row: Row)
        ensures uses { (g : ℕ) (rows : List TraceRow) → g < most_resources → length rows + 1 < 2 ^ 32 → slice_index_or self.old.uses g (use_of g []) ≡ use_of g rows → slice_index_or self.new.uses g (use_of g []) ≡ use_of g (rows ++ row ∷ []) }
        ensures last_rows { self.new.last_rows ≡ self.old.last_rows }
        ensures tasks { self.new.tasks ≡ self.old.tasks }
    {
        let Some(res) = row.res else {
            return;
        };
        let res = res.0 as usize;
        if res < MOST_RESOURCES {
            self.uses[res] = self.uses[res].with_row(row);
        }
    }

    /// Takes the next row.
    pub(crate) fn take(&mut self, row: Row)
        ensures { (rows : List TraceRow) → Summarizes self.old rows → length rows + 1 < 2 ^ 32 → Summarizes self.new (rows ++ row ∷ []) }
    {
        self.take_core(row);
        self.take_task(row);
        self.take_use(row);
    }
}
