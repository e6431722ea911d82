//! The units of tasks, and a core's calls of global resources.
use crate::ids::ResId;

/// One unit of a task: one tick, unless the job has to wait.
#[derive(Clone, Copy, Debug, PartialEq, Eq)]
pub enum Op {
    /// A unit of work.
    Run,
    /// A lock of a local resource, or a request of a global one.
    Lock(ResId),
    /// An unlock of a local resource, or a release of a global one.
    Unlock(ResId),
}

/// What a builder takes: an [`Op`], or a run of any length.
#[derive(Clone, Copy, Debug, PartialEq, Eq)]
pub enum Step {
    /// This many units of work.
    Run(u32),
    /// A lock of a local resource, or a request of a global one.
    Lock(ResId),
    /// An unlock of a local resource, or a release of a global one.
    Unlock(ResId),
}

/// What a core has to do with global resources: it holds or awaits at most one.
#[derive(Clone, Copy, Debug, PartialEq, Eq)]
pub enum Phase {
    /// It neither holds nor awaits one.
    Free,
    /// It awaits this one.
    Queued(ResId),
    /// It holds this one.
    Holding(ResId),
}

/// A call of a first-in-first-out lock, with its answer.
#[derive(Clone, Copy, Debug, PartialEq, Eq)]
pub enum Call {
    /// A request, and the number ahead of it; with none ahead it is granted at once.
    Ask(u32),
    /// A poll of a waiting request, and whether it was granted.
    Poll(bool),
    /// A release.
    Leave,
}
