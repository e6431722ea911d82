//! Events of a kernel's log: what a core recorded, and when.
use msrp_plan::{CoreId, JobId, ResId};

/// What a running job does with a resource.
#[derive(Clone, Copy, Debug, PartialEq, Eq)]
pub enum LockAction {
    /// It locks a local resource.
    Lock,
    /// It unlocks a local resource.
    Unlock,
    /// It requests a global resource, and spins from now on until it acquires it.
    Request,
    /// It acquires the global resource that it requested.
    Acquire,
    /// It polls the resource that it requested, without success.
    Poll,
    /// It frees a global resource.
    Freed,
}

/// What an event reports.
#[derive(Clone, Copy, Debug, PartialEq, Eq)]
pub enum Action {
    /// The log of the core begins. The core is idle, and no job of its tasks was released before.
    Boot,
    /// A job is released, with its absolute deadline in ns. Any core may report it.
    Release(JobId, u64),
    /// The core switches to a job, or to none.
    Switch(Option<JobId>),
    /// The running job does something with a resource.
    Step(LockAction, JobId, ResId),
    /// The running job ends.
    End(JobId),
    /// The log ends here on purpose. Later events aren't judged.
    Stop,
    /// The tracer lost records of the core.
    Lost,
}

/// One record of a log: its time in ns by the core's clock, its core, and, if the log has one, its
/// number among the core's records.
#[derive(Clone, Copy, Debug, PartialEq, Eq)]
pub struct Event {
    pub time: u64,
    pub core: CoreId,
    pub number: Option<u64>,
    pub action: Action,
}
