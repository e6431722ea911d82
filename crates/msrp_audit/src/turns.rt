//! The turns of some ticks, in which each core must have exactly one: A1.
ghost use Rattle.std.specs.Prelude.{◌≡◌, ◌≤◌, ◌<◌, ◌*◌, ◌/◌, ◌==◌};
ghost use Rattle.msrp_plan.specs.Common.{List, length, true, IsRunStart, is_in_turn, IsPlan};
ghost use Rattle.msrp_plan.specs.declared.rows.Row.{Row as TraceRow};
ghost use Rattle.msrp_audit.specs.Inside.Pieces.{broken_turn, TellsFirst};
ghost use Rattle.msrp_audit.specs.Inside.Walks.{AreNextTurns};

use crate::gathered::Rows;
use msrp_plan::limits::MOST_CORES;
use msrp_plan::{Fault, Plan, Row, Rule};

/// The ticks whose rows are one piece.
pub(crate) const TICKS_A_PIECE: u32 = 1_250;

/// Whether the row at this index belongs to the tick, where each tick has one row of each core.
#[inline(always)]
pub(crate) fn is_in_tick(cores: u32, tick: u32, index: usize) -> bool
    ensures { 0 < cores → result ≡ (tick == index / cores) }
{
    // A product: a division would take as long as the rest of the check of a row.
    let first = tick as usize * cores as usize;
    first <= index && index < first + cores as usize
}

// Whether the row at this index is in its tick, and this is its core's next turn.
#[inline(always)]
fn is_in_turn(plan: &Plan, next: &[usize], row: Row, index: usize) -> bool
    requires next { length next.now ≡ 8 }
    ensures turn { (pre : List TraceRow) → index ≡ length pre → IsRunStart plan.now pre → AreNextTurns plan.now next.now pre → result ≡ is_in_turn plan.now pre row }
    ensures core { result ≡ true → row.core.0 < plan.now.cores }
    ensures accepted { IsPlan plan.now }
{
    let cores = plan.cores();
    is_in_tick(cores, row.tick, index)
        && row.core.0 < cores
        && next[row.core.0 as usize] == row.tick as usize
}

/// The first row of that part of the ticks that isn't in its turn.
pub(crate) fn judge_turns(plan: &Plan, rows: &Rows<'_>, part: u32) -> Option<Fault>
    requires { length rows.now ≤ plan.now.cores * plan.now.ticks }
    ensures { TellsFirst plan.now (broken_turn plan.now part) rows.now result }
{
    let size = plan.cores() as usize * TICKS_A_PIECE as usize;
    let start = part as usize * size;
    let end = rows.len().min(start + size);
    // The tick of each core's next turn.
    let mut next = [part as usize * TICKS_A_PIECE as usize; MOST_CORES as usize];
    for index in start..end {
        let row = rows.row(index);
        if !is_in_turn(plan, &next, row, index) {
            return Some(Fault {
                row: index as u32 + 1,
                rule: Rule::A1,
            });
        }
        next[row.core.0 as usize] = row.tick as usize + 1;
    }
    None
}
