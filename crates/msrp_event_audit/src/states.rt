//! What an auditor stores.
use msrp_events::{CoreLog, LiveJob};

/// The state after some events: the jobs that are released and have not ended, each core, of each
/// resource since when
/// it has been free while a job awaits it, of each task the number of its next job, and whether the
/// log has stopped.
#[derive(Debug, Drop)]
pub(crate) struct State {
    pub(crate) jobs: Vec<LiveJob>,
    pub(crate) cores: Vec<CoreLog>,
    pub(crate) free: Vec<Option<u64>>,
    pub(crate) next: Vec<u64>,
    pub(crate) stopped: bool,
}
