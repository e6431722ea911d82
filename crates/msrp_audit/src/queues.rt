//! One resource's rows, judged against its queue: A5.
ghost use Rattle.std.specs.Prelude.{◌≡◌, ◌<◌, ◌≤◌, ◌*◌};
ghost use Rattle.msrp_plan.specs.Common.{IfOk, length, counts, is_behind, is_first, is_reply_of, replies, list_any, same_job};
ghost use Rattle.msrp_audit.specs.Inside.Pieces.{broken_reply, TellsFirst};

use crate::gathered::Rows;
use msrp_levels::Levels;
use msrp_plan::{Fault, JobId, Kind, Memory, Plan, Requests, ResId, Row, Rule};
use std::alloc::Global;

fn is_first(queue: &[JobId], job: Option<JobId>) -> bool
    ensures { result ≡ is_first queue.now job }
{
    match (queue.first(), job) {
        (Some(first), Some(job)) => job == *first,
        _ => false,
    }
}

fn is_among(queue: &[JobId], job: JobId) -> bool
    ensures { result ≡ list_any (same_job job) queue.now }
{
    queue.iter().any(|other| job == *other)
}

// Whether the job is in the queue, and not the first.
fn is_behind(queue: &[JobId], job: Option<JobId>) -> bool
    ensures { result ≡ is_behind queue.now job }
{
    match job {
        Some(waiting) => is_among(queue, waiting) && !is_first(queue, job),
        None => false,
    }
}

fn replies(queue: &[JobId], row: Row) -> bool
    ensures { result ≡ replies queue.now row.job row.kind }
{
    match row.kind {
        Kind::Take => queue.is_empty(),
        Kind::Queue => !queue.is_empty(),
        Kind::Grant => is_first(queue, row.job),
        Kind::Spin => is_behind(queue, row.job),
        Kind::Idle | Kind::Run | Kind::Lock | Kind::Unlock | Kind::Release => true,
    }
}

fn counts(queue: &[JobId], row: Row) -> bool
    ensures { result ≡ counts queue.now row.ahead }
{
    match row.ahead {
        Some(ahead) => ahead as usize == queue.len(),
        None => true,
    }
}

// Whether the row has the queue's reply and, if it carries an ahead, the queue's length.
fn is_reply(queue: &[JobId], row: Row) -> bool
    ensures { result ≡ is_reply_of queue.now row }
{
    replies(queue, row) && counts(queue, row)
}

/// The first row on a global resource that hasn't its queue's reply.
///
/// In a legal run no queue has more jobs than the plan has cores. If one has, an earlier row
/// violates a rule, and this piece reports nothing more.
pub(crate) fn judge_resource(
    alloc: Global,
    plan: &Plan,
    levels: &Levels,
    rows: &Rows<'_>,
    res: ResId,
) -> Result<Option<Fault>, Memory>
    requires levels { levels.now ≡ plan.now }
    requires rows { length rows.now ≤ plan.now.cores * plan.now.ticks }
    requires resource { res.0 < length plan.now.resources }
    ensures { IfOk result (TellsFirst plan.now (broken_reply plan.now res.0) rows.now) }
{
    if !levels.is_global(res) {
        return Ok(None);
    }
    let mut requests = Requests::of(alloc, res);
    for index in 0..rows.len() {
        if rows.names(index, res) {
            let row = rows.row(index);
            let queue = requests.queue();
            if queue.len() > plan.cores() as usize {
                return Ok(None);
            }
            if !is_reply(queue, row) {
                return Ok(Some(Fault {
                    row: index as u32 + 1,
                    rule: Rule::A5,
                }));
            }
            requests.take(&row)?;
        }
    }
    Ok(None)
}
