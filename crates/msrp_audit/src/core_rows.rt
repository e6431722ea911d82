//! One core's rows, judged against a machine that follows them: A2 to A4.
ghost use Rattle.std.specs.Prelude.{◌≡◌, ◌<◌, ◌≤◌, ◌*◌, ◌+◌, ◌++◌, ◌∷◌};
ghost use Rattle.msrp_plan.specs.Common.{[], List, IfOk, None, length, true, log_of, IsRunStart, is_in_turn, IsPlan};
ghost use Rattle.msrp_plan.specs.declared.rows.Row.{Row as TraceRow};
ghost use Rattle.msrp_core.specs.Machine.{StandsAfter};
ghost use Rattle.msrp_audit.specs.Inside.Pieces.{broken_action, broken_on_core, TellsFirst};

use crate::auditor::is_own;
use crate::comparing::unlike_turn;
use crate::gathered::Rows;
use crate::replies::turn_as;
use crate::turns::is_in_tick;
use msrp_core::Machine;
use msrp_levels::Levels;
use msrp_plan::{CoreId, Fault, Memory, Plan, Row, Rule};
use std::alloc::Global;

// Whether the row at this index is in its tick, and its core had its turn in each earlier tick.
fn is_in_turn(plan: &Plan, machine: &Machine, row: Row, index: usize) -> bool
    requires index { index < plan.now.cores * plan.now.ticks }
    requires core { row.core.0 < plan.now.cores }
    ensures turn { (pre : List TraceRow) → index ≡ length pre → IsRunStart plan.now pre → StandsAfter machine.now (log_of row.core.0 pre) → result ≡ is_in_turn plan.now pre row }
    ensures tick { result ≡ true → machine.now.tick < plan.now.ticks }
    ensures accepted { IsPlan plan.now }
{
    is_in_tick(plan.cores(), row.tick, index) && machine.tick() == row.tick
}

// The lowest of the rules A2 to A4 that the row violates; else the machine has followed the row.
fn follow(plan: &Plan, machine: &mut Machine<'_>, row: Row) -> Option<Rule>
    requires plan { machine.old.plan ≡ plan.now }
    requires tick { machine.old.tick < machine.old.plan.ticks }
    requires core { row.core.0 ≡ machine.old.core }
    ensures plan { machine.new.plan ≡ machine.old.plan }
    ensures core { machine.new.core ≡ machine.old.core }
    ensures rule { IsPlan plan.now → (pre : List TraceRow) → IsRunStart plan.now pre → StandsAfter machine.old (log_of row.core.0 pre) → is_in_turn plan.now pre row ≡ true → result ≡ broken_action plan.now pre row }
    ensures stands { (pre : List TraceRow) → IsRunStart plan.now pre → StandsAfter machine.old (log_of row.core.0 pre) → is_in_turn plan.now pre row ≡ true → result ≡ None → StandsAfter machine.new (log_of row.core.0 (pre ++ row ∷ [])) }
{
    if !is_own(plan, row) {
        return Some(Rule::A2);
    }
    let expected = turn_as(plan, machine, row);
    unlike_turn(row, expected)
}

/// The core's first row with a wrong job, choice or action. A row out of turn ends the piece.
pub(crate) fn judge_core(
    alloc: Global,
    plan: &Plan,
    levels: &Levels,
    rows: &Rows<'_>,
    core: CoreId,
) -> Result<Option<Fault>, Memory>
    requires levels { levels.now ≡ plan.now }
    requires rows { length rows.now ≤ plan.now.cores * plan.now.ticks }
    requires core { core.0 < plan.now.cores }
    ensures { IfOk result (TellsFirst plan.now (broken_on_core plan.now core.0) rows.now) }
{
    let mut machine = Machine::with_room(alloc, plan, levels, core)?;
    for index in 0..rows.len() {
        if rows.is_of(index, core) {
            let row = rows.row(index);
            if !is_in_turn(plan, &machine, row, index) {
                return Ok(None);
            }
            if let Some(rule) = follow(plan, &mut machine, row) {
                return Ok(Some(Fault {
                    row: index as u32 + 1,
                    rule,
                }));
            }
        }
    }
    Ok(None)
}
