//! The numbers of a report, one line for each task.

/// The report on one task. Times are in ticks; each row is one tick of its core. The terms are
/// those of the survey of Davis and Burns (2011).
#[derive(Clone, Copy, Debug, PartialEq, Eq)]
pub struct Line {
    /// The task's jobs in the plan.
    pub jobs: u32,
    /// Its jobs that did their last action.
    pub finished: u32,
    /// Its jobs that finished after their absolute deadline, or whose deadline passed unfinished.
    pub late: u32,
    /// The longest time of a finished job from its release to the end of its last action.
    pub worst_response: u32,
    /// The spins of all its jobs. The row in which a job joins a queue isn't counted.
    pub spin: u32,
    /// The most spins of one job in one wait, unended waits included.
    pub worst_spin: u32,
    /// The rows of later jobs of its core while its jobs were released and unfinished.
    pub blocked: u32,
    /// The most such rows for one job.
    pub worst_blocked: u32,
    /// The most spins that a job of the task can make in one wait, in any run.
    pub spin_bound: u32,
    /// The most rows of later jobs that can block a job of the task, in any run.
    pub blocked_bound: u32,
}

/// A line for each task of a plan, in order.
#[derive(Debug, Drop)]
pub struct Report {
    pub lines: Vec<Line>,
}
