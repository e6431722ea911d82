//! Blocks of rows: stretches of ticks in which one job runs on a core, or does the same.
ghost use Rattle.msrp_plan.specs.Common.{OnOk, IfOk, List};
ghost use Rattle.std.specs.Prelude.{◌≡◌, ◌∷◌, ◌++◌};
ghost use Rattle.msrp_picture.specs.Blocks.{goes_on, joined, look_of, merged, same_look, row_blocks, shown_rows, tick_of};
ghost use Rattle.msrp_picture.specs.declared.shapes.Block.{Block as Shown};

use crate::Added;
use crate::gathering::gathered;
use crate::scene::{Scene, is_job_of};
use crate::shapes::{Block, Lane, Look, lasting};
use msrp_plan::{Memory, ResId, Row};
use std::alloc::Global;

fn same_look(look: Look, next: Look) -> bool
    ensures { result ≡ same_look look next }
{
    match (look, next) {
        (Look::Runs, Look::Runs) => true,
        (Look::Does(kind), Look::Does(other)) => kind == other,
        (Look::First(waiting), Look::First(other)) => waiting == other,
        (Look::Ceiling(level), Look::Ceiling(other)) => level == other,
        _ => false,
    }
}

// Whether the next block continues one: it begins where that ends, and shows the same.
fn goes_on(block: &Block, next: &Block) -> bool
    ensures { result ≡ goes_on block.now next.now }
{
    block.end == next.first
        && same_look(block.look, next.look)
        && block.job == next.job
        && block.res == next.res
}

// Joins a block to the last one, or adds that: what is the last one then.
fn join(blocks: &mut Vec<Block>, last: Block, next: Block) -> Result<Block, Memory>
    ensures { IfOk result (λ then. (rest : List Shown) → blocks.new.items ++ joined then rest ≡ blocks.old.items ++ joined last (next ∷ rest)) }
{
    if goes_on(&last, &next) {
        return Ok(Block {
            end: next.end,
            ..last
        });
    }
    blocks.push(last)?;
    Ok(next)
}

fn push_joined(blocks: &mut Vec<Block>, first: Block, rest: &[Block]) -> Added
    ensures { OnOk result (blocks.new.items ≡ blocks.old.items ++ joined first rest.now) }
{
    let mut last = first;
    for next in rest {
        last = join(blocks, last, *next)?;
    }
    blocks.push(last)?;
    Ok(())
}

/// Adds these blocks of a lane, those that continue one another as one block.
pub(crate) fn push_merged(blocks: &mut Vec<Block>, ticks: &[Block]) -> Added
    ensures { OnOk result (blocks.new.items ≡ blocks.old.items ++ merged ticks.now) }
{
    match ticks {
        [] => Ok(()),
        [first, rest @ ..] => push_joined(blocks, *first, rest),
    }
}

// What a lane shows of a row, if anything, and on which resource.
fn look_of(lane: Lane, row: &Row) -> Option<(Look, Option<ResId>)>
    ensures { result ≡ look_of lane row.now }
{
    match lane {
        Lane::Core(core) if row.core == core && row.job.is_some() => Some((Look::Runs, None)),
        Lane::Task(task) if is_job_of(task, row.job) => Some((Look::Does(row.kind), row.res)),
        _ => None,
    }
}

// The tick of a row in a lane, if that shows it.
fn tick_of(lane: Lane, is_legal: bool, row: &Row) -> Option<Block>
    ensures { result ≡ tick_of lane is_legal row.now }
{
    let (look, res) = look_of(lane, row)?;
    let tick = row.tick as u64;
    Some(Block {
        is_legal,
        ..lasting(lane, tick, tick + 1, look, row.job, res)
    })
}

fn ticks_of(alloc: Global, lane: Lane, is_legal: bool, rows: &[Row]) -> Result<Vec<Block>, Memory>
    ensures { IfOk result (λ ticks. ticks.items ≡ shown_rows lane is_legal rows.now) }
{
    let ticks = rows.iter().filter_map(|row| tick_of(lane, is_legal, row));
    gathered(ticks, alloc)
}

/// Adds the blocks of a lane: those of legal rows, and those of the rows from the fault on.
pub(crate) fn push_rows(blocks: &mut Vec<Block>, scene: &Scene<'_>, lane: Lane) -> Added
    ensures { OnOk result (blocks.new.items ≡ blocks.old.items ++ row_blocks lane scene.now.rows.now scene.now.later.now) }
{
    push_merged(blocks, &ticks_of(scene.alloc, lane, true, scene.rows)?)?;
    push_merged(blocks, &ticks_of(scene.alloc, lane, false, scene.later)?)
}
