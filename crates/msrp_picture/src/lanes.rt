//! What the lanes of a picture show in addition to rows: critical sections, the ceilings of cores,
//! and the queues of global resources.
ghost use Rattle.std.specs.Prelude.{◌≡◌, ◌∷◌, ◌++◌, ◌<◌, ◌-◌, ◌^◌, filter_map, option_copied};
ghost use Rattle.msrp_plan.specs.Common.{ℕ, [], List, IfOk, OnOk, cons_option, find};
ghost use Rattle.msrp_plan.specs.Requests.{HasTaken};
ghost use Rattle.msrp_plan.specs.declared.rows.Row.{Row as TraceRow};
ghost use Rattle.msrp_audit.specs.Audits.{HasFed};
ghost use Rattle.msrp_picture.specs.Blocks.{ceiling_after, ceiling_tick, ceilings, ends_section, first_of, first_section, merged, queue_ticks, section_end, sections};
ghost use Rattle.msrp_picture.specs.Rows.{rows_in};

use crate::Added;
use crate::blocks::push_merged;
use crate::gathering::gathered;
use crate::scene::Scene;
use crate::shapes::{Block, Lane, Look, lasting};
use msrp_audit::Auditor;
use msrp_plan::{CoreId, JobId, Kind, Memory, Plan, Requests, ResId, Row, TaskId};
use std::alloc::Global;

// Whether the section that begins with a row ends with this one.
fn ends_section(row: &Row, next: &Row) -> bool
    ensures { result ≡ ends_section row.now next.now }
{
    row.job == next.job && row.res == next.res && matches!(next.kind, Kind::Unlock | Kind::Release)
}

// The first of these rows with which the section of a row ends.
fn last_of<'a>(row: &Row, rest: &'a [Row]) -> Option<&'a Row>
    ensures { option_copied result ≡ find (ends_section row.now) rest.now }
{
    rest.iter().find(|next| ends_section(row, next))
}

// The tick after a section, which ends with one of these rows, or with the last tick.
fn section_end(end: u64, row: &Row, rest: &[Row]) -> u64
    ensures { result ≡ section_end end (find (ends_section row.now) rest.now) }
{
    match last_of(row, rest) {
        Some(last) => last.tick as u64 + 1,
        None => end,
    }
}

fn push_section(blocks: &mut Vec<Block>, task: TaskId, end: u64, rows: &[Row]) -> Added
    ensures { OnOk result (blocks.new.items ≡ blocks.old.items ++ first_section task end rows.now) }
{
    match rows {
        [row, rest @ ..] if matches!(row.kind, Kind::Lock | Kind::Take | Kind::Grant) => {
            let end = section_end(end, row, rest);
            let (lane, first) = (Lane::Task(task), row.tick as u64);
            blocks.push(lasting(lane, first, end, Look::Holds, row.job, row.res))?;
            Ok(())
        }
        _ => Ok(()),
    }
}

/// Adds the critical sections of a task, where these are its rows and the rows of the trace end
/// with a tick.
pub(crate) fn push_sections(blocks: &mut Vec<Block>, task: TaskId, end: u64, rows: &[Row]) -> Added
    ensures { OnOk result (blocks.new.items ≡ blocks.old.items ++ sections task end rows.now) }
{
    for place in 0..rows.len() {
        push_section(blocks, task, end, &rows[place..])?;
    }
    Ok(())
}

// Feeds a row, and adds it with the ceiling of its core after it, if none of the rows so far is
// refused.
fn push_ceiling(all: &mut Vec<(Row, u32)>, auditor: &mut Auditor<'_>, row: &Row) -> Added
    ensures plan { auditor.new.plan ≡ auditor.old.plan }
    ensures fed { (rows : List TraceRow) → HasFed auditor.old rows → HasFed auditor.new (rows ++ row.now ∷ []) }
    ensures all { (rows : List TraceRow) → HasFed auditor.old rows → OnOk result (all.new.items ≡ all.old.items ++ cons_option (ceiling_after auditor.old.plan (rows ++ row.now ∷ []) row.now) []) }
{
    if auditor.feed(*row).is_err() {
        return Ok(());
    }
    let Some(state) = auditor.state(row.core) else {
        return Ok(());
    };
    all.push((*row, state.ceiling))?;
    Ok(())
}

/// Feeds the legal rows, and answers them, each with the ceiling of its core after it.
pub(crate) fn ceilings_of(
    scene: &Scene<'_>,
    auditor: &mut Auditor<'_>,
) -> Result<Vec<(Row, u32)>, Memory>
    requires plan { auditor.old.plan ≡ scene.now.plan.now }
    requires fed { HasFed auditor.old [] }
    ensures plan { auditor.new.plan ≡ scene.now.plan.now }
    ensures fed { OnOk result (HasFed auditor.new scene.now.rows.now) }
    ensures all { IfOk result (λ all. all.items ≡ ceilings scene.now.plan.now [] scene.now.rows.now) }
{
    let mut all = Vec::new(scene.alloc);
    for row in scene.rows {
        push_ceiling(&mut all, auditor, row)?;
    }
    Ok(all)
}

fn raised(core: CoreId, row: &Row, ceiling: u32) -> Option<Block>
    ensures { result ≡ ceiling_tick core (row.now, ceiling) }
{
    if row.core != core || ceiling == 0 {
        return None;
    }
    let (lane, look, tick) = (Lane::Ceiling(core), Look::Ceiling(ceiling), row.tick as u64);
    Some(lasting(lane, tick, tick + 1, look, None, None))
}

fn ceiling_tick(core: CoreId, after: &(Row, u32)) -> Option<Block>
    ensures { result ≡ ceiling_tick core after.now }
{
    raised(core, &after.0, after.1)
}

fn ceiling_ticks(alloc: Global, core: CoreId, after: &[(Row, u32)]) -> Result<Vec<Block>, Memory>
    ensures { IfOk result (λ ticks. ticks.items ≡ filter_map (ceiling_tick core) after.now) }
{
    let ticks = after.iter().filter_map(|after| ceiling_tick(core, after));
    gathered(ticks, alloc)
}

/// Adds the blocks of a core's ceilings.
pub(crate) fn push_ceilings(
    blocks: &mut Vec<Block>,
    scene: &Scene<'_>,
    ceilings: &[(Row, u32)],
    core: CoreId,
) -> Added
    ensures { OnOk result (blocks.new.items ≡ blocks.old.items ++ merged (filter_map (ceiling_tick core) ceilings.now)) }
{
    let ticks = ceiling_ticks(scene.alloc, core, ceilings)?;
    push_merged(blocks, &ticks)
}

// The rows of a tick: each has one for each core.
fn rows_in<'a>(plan: &Plan, rows: &'a [Row], tick: u64) -> &'a [Row]
    requires { tick < 2 ^ 64 - 1 }
    ensures { result.now ≡ rows_in plan.now rows.now tick }
{
    let (tick, cores) = (tick as usize, plan.cores() as usize);
    let first = rows.len().min(tick.saturating_mul(cores));
    let last = rows.len().min((tick + 1).saturating_mul(cores));
    &rows[first..last]
}

fn take_all(requests: &mut Requests, rows: &[Row]) -> Added
    ensures { (g : ℕ) (before : List TraceRow) → HasTaken requests.old g before → OnOk result (HasTaken requests.new g (before ++ rows.now)) }
{
    for row in rows {
        requests.take(row)?;
    }
    Ok(())
}

// Adds the tick of a queue, if a job is in it.
fn push_first(ticks: &mut Vec<Block>, res: ResId, tick: u64, queue: &[JobId]) -> Added
    requires { tick < 2 ^ 64 - 1 }
    ensures { OnOk result (ticks.new.items ≡ ticks.old.items ++ first_of res tick queue.now) }
{
    if let [first, waiting @ ..] = queue {
        let (lane, look) = (Lane::Queue(res), Look::First(waiting.len() as u64));
        ticks.push(lasting(lane, tick, tick + 1, look, Some(*first), Some(res)))?;
    }
    Ok(())
}

fn queue_ticks(scene: &Scene<'_>, res: ResId) -> Result<Vec<Block>, Memory>
    ensures { IfOk result (λ ticks. ticks.items ≡ queue_ticks scene.now.plan.now scene.now.rows.now res) }
{
    let mut requests = Requests::of(scene.alloc, res);
    let mut ticks = Vec::new(scene.alloc);
    for tick in 0..scene.ticks_begun() {
        take_all(&mut requests, rows_in(scene.plan, scene.rows, tick))?;
        push_first(&mut ticks, res, tick, requests.queue())?;
    }
    Ok(ticks)
}

/// Adds the blocks of a resource's queue.
pub(crate) fn push_queue(blocks: &mut Vec<Block>, scene: &Scene<'_>, res: ResId) -> Added
    ensures { OnOk result (blocks.new.items ≡ blocks.old.items ++ merged (queue_ticks scene.now.plan.now scene.now.rows.now res)) }
{
    push_merged(blocks, &queue_ticks(scene, res)?)
}
