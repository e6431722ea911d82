//! Rows as numbers, for C.
ghost use Rattle.std.specs.Prelude.{◌≡◌};
ghost use Rattle.msrp_plan.specs.Common.{option_map, has_shape, may_carry};
ghost use Rattle.msrp_c.specs.Turns.{job_numbered, kind_numbered, numbered, row_of, shaped_row};

use msrp_plan::{CoreId, JobId, Kind, Plan, ResId, Row, TaskId};
use msrp_trace::{TraceFault, is_named};

/// A row as numbers; 4294967295 is used for a missing task, job, resource or ahead.
#[repr(C)]
#[derive(Clone, Copy, Debug, PartialEq, Eq)]
pub struct MsrpRow {
    pub tick: u32,
    pub core: u32,
    /// 0 for idle, 1 run, 2 lock, 3 unlock, 4 take, 5 queue, 6 spin, 7 grant, 8 release.
    pub kind: u32,
    /// Tasks are numbered from 0 in the order of declaration.
    pub task: u32,
    /// The number of the task's job, from 0.
    pub job: u32,
    /// Resources are numbered from 0 in the order of declaration.
    pub resource: u32,
    /// On a queue row the number of jobs that were in the queue, if known.
    pub ahead: u32,
}

/// The number of a missing part.
pub(crate) const NONE: u32 = 4_294_967_295;

/// A number, or nothing for a missing part.
pub(crate) fn numbered(number: u32) -> Option<u32>
    ensures { result ≡ numbered number }
{
    if number == NONE { None } else { Some(number) }
}

fn kind_numbered(number: u32) -> Option<Kind>
    ensures { result ≡ kind_numbered number }
{
    match number {
        0 => Some(Kind::Idle),
        1 => Some(Kind::Run),
        2 => Some(Kind::Lock),
        3 => Some(Kind::Unlock),
        4 => Some(Kind::Take),
        5 => Some(Kind::Queue),
        6 => Some(Kind::Spin),
        7 => Some(Kind::Grant),
        8 => Some(Kind::Release),
        _ => None,
    }
}

/// The job of a task and a number, if both are there or neither.
pub(crate) fn job_numbered(task: Option<u32>, k: Option<u32>) -> Option<Option<JobId>>
    ensures { result ≡ job_numbered task k }
{
    match (task, k) {
        (None, None) => Some(None),
        (Some(task), Some(k)) => Some(Some(JobId {
            task: TaskId(task),
            k,
        })),
        _ => None,
    }
}

fn res_numbered(number: Option<u32>) -> Option<ResId>
    ensures { result ≡ option_map (λ g. record { 0 = g }) number }
{
    match number {
        Some(number) => Some(ResId(number)),
        None => None,
    }
}

fn has_shape(kind: Kind, job: Option<JobId>, res: Option<ResId>) -> bool
    ensures { result ≡ has_shape kind job res }
{
    match kind {
        Kind::Idle => job.is_none() && res.is_none(),
        Kind::Run => job.is_some() && res.is_none(),
        _ => job.is_some() && res.is_some(),
    }
}

fn may_carry(kind: Kind, ahead: Option<u32>) -> bool
    ensures { result ≡ may_carry kind ahead }
{
    ahead.is_none() || kind == Kind::Queue
}

// The row of these numbers, if a row of its kind may have them.
fn shaped_row(turn: &MsrpRow, kind: Kind) -> Option<Row>
    ensures { result ≡ shaped_row turn.now kind (job_numbered (numbered turn.now.task) (numbered turn.now.job)) }
{
    let Some(job) = job_numbered(numbered(turn.task), numbered(turn.job)) else {
        return None;
    };
    let res = res_numbered(numbered(turn.resource));
    let ahead = numbered(turn.ahead);
    if !has_shape(kind, job, res) || !may_carry(kind, ahead) {
        return None;
    }
    Some(Row {
        tick: turn.tick,
        core: CoreId(turn.core),
        kind,
        job,
        res,
        ahead,
    })
}

/// The row of these numbers, or why they aren't one.
pub(crate) fn row_of(plan: &Plan, turn: &MsrpRow) -> Result<Row, TraceFault>
    ensures { result ≡ row_of plan.now turn.now }
{
    let Some(kind) = kind_numbered(turn.kind) else {
        return Err(TraceFault::Kind);
    };
    let Some(row) = shaped_row(turn, kind) else {
        return Err(TraceFault::Shape);
    };
    if is_named(plan, &row) {
        Ok(row)
    } else {
        Err(TraceFault::Name)
    }
}
