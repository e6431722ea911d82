//! What a picture shows, as data. Times are ticks.
ghost use Rattle.std.specs.Prelude.{◌≡◌};
ghost use Rattle.msrp_picture.specs.Blocks.{lasting};

use msrp_plan::{CoreId, JobId, Kind, ResId, Row, Rule, TaskId};

/// Where a block is drawn.
#[derive(Clone, Copy, Debug, PartialEq, Eq)]
pub enum Lane {
    /// Who runs on a core.
    Core(CoreId),
    /// The ceiling of a core.
    Ceiling(CoreId),
    /// What the jobs of a task do.
    Task(TaskId),
    /// The queue of a global resource.
    Queue(ResId),
}

/// What a block shows.
#[derive(Clone, Copy, Debug, PartialEq, Eq)]
pub enum Look {
    /// A job runs on the lane's core.
    Runs,
    /// What a job does.
    Does(Kind),
    /// A job holds a resource.
    Holds,
    /// A job is first in the queue of a resource, with this number of jobs waiting behind it.
    First(u64),
    /// A job, from its release to its completion; or to the last tick with a row if it isn't
    /// finished.
    Life(bool),
    /// A job after its absolute deadline.
    Late,
    /// The ceiling of the lane's core is this level.
    Ceiling(u32),
}

/// Something that lasts from one tick on and up to another, which is left out.
#[derive(Clone, Copy, Debug, PartialEq, Eq)]
pub struct Block {
    pub lane: Lane,
    pub first: u64,
    pub end: u64,
    pub look: Look,
    /// Whether it is before the first row that violates a rule.
    pub is_legal: bool,
    pub job: Option<JobId>,
    pub res: Option<ResId>,
}

/// A block of legal rows.
pub(crate) fn lasting(
    lane: Lane,
    first: u64,
    end: u64,
    look: Look,
    job: Option<JobId>,
    res: Option<ResId>,
) -> Block
    ensures { result ≡ lasting lane first end look job res }
{
    Block {
        lane,
        first,
        end,
        look,
        is_legal: true,
        job,
        res,
    }
}

/// What happens to a job at the beginning of a tick.
#[derive(Clone, Copy, Debug, PartialEq, Eq)]
pub enum Moment {
    Release,
    /// Its absolute deadline.
    Deadline,
    Completion,
}

/// A moment of a job.
#[derive(Clone, Copy, Debug, PartialEq, Eq)]
pub struct Event {
    pub moment: Moment,
    pub tick: u64,
    pub job: JobId,
}

/// The first row that violates a rule.
#[derive(Clone, Copy, Debug, PartialEq, Eq)]
pub struct Violation {
    pub row: Row,
    pub rule: Rule,
}

/// What there is to see in a picture.
#[derive(Drop)]
pub struct Shapes {
    pub blocks: Vec<Block>,
    pub events: Vec<Event>,
    pub violation: Option<Violation>,
    /// The row that is expected of its core, if that core's turn in the tick is still to come.
    pub expected: Option<Row>,
}
