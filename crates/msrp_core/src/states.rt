//! What decides which job of a core runs, for a reader who asks why a row was refused.
use msrp_plan::JobId;

/// What decides which job of a core runs, and the running job's progress.
#[derive(Clone, Copy, Debug)]
pub struct CoreState {
    /// The first of the started, unfinished jobs.
    pub running: Option<JobId>,
    /// The first of the released jobs that aren't started.
    pub head: Option<JobId>,
    /// The current ceiling of the core.
    pub ceiling: u32,
    /// The units that the running job has done; 0 if none runs.
    pub done: u32,
}
