//! The findings on a log: a rule that the scheduler violated, or something that the log lacks.

/// A rule of a legal log. Each event is checked for them in this order.
#[derive(Clone, Copy, Debug, PartialEq, Eq)]
pub enum LogRule {
    /// Overdue: for longer than the slack a core hasn't run the job that it should.
    E1,
    /// Late grant: for longer than the slack a resource has been free while a job waits for it.
    E2,
    /// Unknown job: the system has no such task.
    E3,
    /// Wrong core: the task belongs to another core.
    E4,
    /// Not released: the job acts before its release.
    E5,
    /// Already ended: the job acts after its end.
    E6,
    /// Released twice.
    E7,
    /// Wrong job: the core switches to another than the chosen job, or a job acts that isn't
    /// running.
    E8,
    /// Wrong step: not the job's next lock, unlock or end.
    E9,
    /// Wrong lock outcome: the resource is held, another job is first, or the poll should succeed.
    E10,
}

/// What a log lacks, so that it can't be judged further. The scheduler isn't accused.
#[derive(Clone, Copy, Debug, PartialEq, Eq)]
pub enum Missing {
    /// The core isn't one of the system.
    Core,
    /// The core's log has not begun.
    Start,
    /// The core's log begins a second time.
    Restart,
    /// Records of the core were lost.
    Records,
    /// The clock of the core ran backwards.
    Clock,
    /// The release of an earlier job of the task.
    Release,
    /// The request of the resource that is acquired.
    Request,
    /// Room for one more released, unended job.
    Room,
}

/// What an event shows.
#[derive(Clone, Copy, Debug, PartialEq, Eq)]
pub enum Finding {
    /// The scheduler violates a rule.
    Fault(LogRule),
    /// The log lacks something.
    Incomplete(Missing),
}
