//! The pieces of an audit: each judges some of the rows alone, by some of the rules.
ghost use Rattle.std.specs.Prelude.{◌≡◌, ◌≤◌, ◌<◌, ◌*◌};
ghost use Rattle.msrp_plan.specs.Common.{IfOk, length, IsPlan};
ghost use Rattle.msrp_audit.specs.Inside.Pieces.{broken_in, parts, piece_with, pieces_of, TellsFirst};

use crate::core_rows::judge_core;
use crate::gathered::Rows;
use crate::queues::judge_resource;
use crate::turns::{TICKS_A_PIECE, judge_turns};
use msrp_levels::Levels;
use msrp_plan::{CoreId, Fault, Memory, Plan, ResId};
use std::alloc::Global;

/// A part of the audit, with the rules that it judges.
#[derive(Clone, Copy, Debug, PartialEq, Eq)]
pub enum Piece {
    /// The rows of a core: A2 to A4.
    Core(CoreId),
    /// The rows of a part of the ticks: A1.
    Turns(u32),
    /// The rows on a resource, where it is global: A5.
    Resource(ResId),
}

// The number of parts of the ticks; the last may be empty.
fn parts(plan: &Plan) -> u32
    ensures { result ≡ parts plan.now }
{
    plan.ticks() / TICKS_A_PIECE + 1
}

/// The number of pieces of a plan's audit.
pub(crate) fn pieces(plan: &Plan) -> u32
    ensures number { result ≡ pieces_of plan.now }
    ensures accepted { IsPlan plan.now }
{
    plan.cores() + parts(plan) + plan.resources()
}

// The piece of that number. The cores come first, since they have most to do.
fn piece_at(plan: &Plan, number: u32) -> Piece
    ensures { result ≡ piece_with plan.now number }
{
    let cores = plan.cores();
    if number < cores {
        return Piece::Core(CoreId(number));
    }
    let part = number - cores;
    if part < parts(plan) {
        Piece::Turns(part)
    } else {
        Piece::Resource(ResId(part - parts(plan)))
    }
}

/// The first fault that the piece of that number finds in the rows, at most the plan's turns.
pub(crate) fn judge(
    alloc: Global,
    plan: &Plan,
    levels: &Levels,
    rows: &Rows<'_>,
    number: u32,
) -> Result<Option<Fault>, Memory>
    requires levels { levels.now ≡ plan.now }
    requires rows { length rows.now ≤ plan.now.cores * plan.now.ticks }
    requires number { number < pieces_of plan.now }
    ensures { IfOk result (TellsFirst plan.now (broken_in plan.now (piece_with plan.now number)) rows.now) }
{
    match piece_at(plan, number) {
        Piece::Core(core) => judge_core(alloc, plan, levels, rows, core),
        Piece::Turns(part) => Ok(judge_turns(plan, rows, part)),
        Piece::Resource(res) => judge_resource(alloc, plan, levels, rows, res),
    }
}
