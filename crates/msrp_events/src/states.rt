//! What is known after some events of a log, and how exact its times are.
use msrp_plan::JobId;

/// A job that was released and hasn't ended.
#[derive(Clone, Copy, Debug, PartialEq, Eq)]
pub struct LiveJob {
    pub job: JobId,
    /// The absolute deadline in ns.
    pub deadline: u64,
    /// Whether a core has switched to it.
    pub started: bool,
    /// Whether it waits for the global resource that it locks next.
    pub waits: bool,
    /// The number of its locks and unlocks so far.
    pub step: u32,
}

/// What is known of one core. All times are in ns.
#[derive(Clone, Copy, Debug, PartialEq, Eq)]
pub struct CoreLog {
    /// Whether its log has begun.
    pub booted: bool,
    /// The time of its last record.
    pub time: u64,
    /// The number of its last record.
    pub number: Option<u64>,
    /// The running job.
    pub run: Option<JobId>,
    /// Since when another job than the running one is chosen, from the core's boot on.
    pub since: Option<u64>,
    /// When the core last used a resource.
    pub acted: Option<u64>,
}

/// How exact the times of a log are, in ns, and how many jobs may be open.
#[derive(Clone, Copy, Debug, PartialEq, Eq)]
pub struct Tolerances {
    /// How long an operation on a resource takes; meanwhile the core can't switch.
    pub operation: u32,
    /// How long the kernel may take to react.
    pub slack: u32,
    /// By how much two cores' clocks may differ.
    pub skew: u32,
    /// The most jobs that may be released and not ended at once.
    pub backlog: u32,
}
