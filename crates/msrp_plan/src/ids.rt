//! Numbers of tasks, resources and cores; jobs, and the key that orders the jobs of a core.
ghost use Rattle.std.specs.Prelude.{◌≡◌};
ghost use Rattle.std.specs.Ordering.{is_lt};
ghost use Rattle.msrp_plan.specs.Choice.{key_cmp};

/// A task, numbered from 0 in the order of declaration.
#[derive(Clone, Copy, Debug, PartialEq, Eq)]
pub struct TaskId(pub u32);

/// A resource, numbered from 0 in the order of declaration.
#[derive(Clone, Copy, Debug, PartialEq, Eq)]
pub struct ResId(pub u32);

/// A core, numbered from 0.
#[derive(Clone, Copy, Debug, PartialEq, Eq)]
pub struct CoreId(pub u32);

/// A job: the `k`-th of its task, counted from 0.
#[derive(Clone, Copy, Debug, PartialEq, Eq)]
pub struct JobId {
    pub task: TaskId,
    pub k: u32,
}

/// What the jobs of a core are ordered by (POLICY rule 8): absolute deadline, then release (both in
/// ticks), task number, job number. The least key is first: earliest deadline first (Liu and
/// Layland 1973); the parts that break ties are this project's choice.
#[derive(Clone, Copy, Debug, PartialEq, Eq, PartialOrd, Ord)]
pub struct JobKey {
    pub deadline: u64,
    pub release: u64,
    pub task: u32,
    pub k: u32,
}

impl JobKey {
    /// Whether a job of this key comes before a job of the other.
    pub fn is_before(&self, other: &JobKey) -> bool
        ensures { result ≡ is_lt (key_cmp self.now other.now) }
    {
        self < other
    }
}
