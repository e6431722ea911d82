//! The cause of a fault, as data.
ghost use Rattle.std.specs.Prelude.{◌≡◌, ◌<◌, ◌*◌, ◌++◌, ◌∷◌, if◌then◌else◌};
ghost use Rattle.msrp_plan.specs.Common.{[], List, None, length, fault_in, IsPlan};
ghost use Rattle.msrp_audit.specs.Audits.{HasFed, IsBroken};
ghost use Rattle.msrp_plan.specs.declared.rows.Row.{Row as TraceRow};
ghost use Rattle.msrp_why.specs.Causes.{IsCauseAfter, cores_with_turn};
ghost use Rattle.msrp_core.specs.CoreStates.{IsStateAfter};
ghost use Rattle.msrp_why.specs.Noted.{AreNoted};

use crate::notes::Notes;
use arrayvec::ArrayVec;
use msrp_audit::Auditor;
use msrp_core::CoreState;
use msrp_plan::limits::MOST_CORES;
use msrp_plan::{CoreId, Fault, Plan, Row};

/// The most cores that may have a turn.
pub const MOST_TURNS: usize = MOST_CORES as usize;

/// The first row that violates a rule, and what was known before it.
#[derive(Debug, Drop)]
pub struct Cause {
    pub fault: Fault,
    /// The row that violates the rule.
    pub row: Row,
    /// The line in which its record begins, if it is known.
    pub line: Option<u64>,
    /// The expected row of its core, if the row is in its turn.
    pub expected: Option<Row>,
    /// What decided before the row who runs on its core, if the plan has the core.
    pub state: Option<CoreState>,
    /// If the row isn't in its turn, the cores with a turn still to come in the expected tick.
    pub turns: ArrayVec<u32, MOST_TURNS>,
    /// What was noted of the rows before.
    pub notes: Notes,
}

fn push_if(found: &mut ArrayVec<u32, MOST_TURNS>, core: u32, has_turn: bool)
    ensures { length found.old.items < MOST_TURNS → found.new.items ≡ if has_turn then found.old.items ++ core ∷ [] else found.old.items }
{
    if has_turn {
        let _fits = found.try_push(core);
    }
}

fn cores_with_turn(plan: &Plan, auditor: &Auditor<'_>) -> ArrayVec<u32, MOST_TURNS>
    requires plan { auditor.now.plan ≡ plan.now }
    ensures turns { (rows : List TraceRow) → HasFed auditor.now rows → auditor.now.fault ≡ None → length rows < plan.now.cores * plan.now.ticks → result.items ≡ cores_with_turn plan.now rows }
    ensures accepted { IsPlan plan.now }
{
    let mut found = ArrayVec::new();
    for core in 0..plan.cores() {
        push_if(&mut found, core, auditor.is_due(CoreId(core)));
    }
    found
}

/// The cause of the fault of a row, which an auditor has judged. The notes and the state of its
/// core are those before the row; `expected` is the expected row of its core, if the row is in its
/// turn; `line` is the line in which the row's record begins, if it is known.
pub fn cause_of(
    plan: &Plan,
    auditor: &Auditor<'_>,
    notes: Notes,
    state: Option<CoreState>,
    expected: Option<Row>,
    row: Row,
    line: Option<u64>,
    fault: Fault,
) -> Cause
    requires plan { auditor.now.plan ≡ plan.now }
    ensures cause { (rows : List TraceRow) → fault_in plan.now rows ≡ None → IsBroken plan.now rows row fault expected auditor.now → AreNoted plan.now rows notes → IsStateAfter plan.now rows row.core.0 state → IsCauseAfter plan.now rows row result }
    ensures kept { (result.fault ≡ fault) × (result.line ≡ line) }
{
    let turns = cores_with_turn(plan, auditor);
    Cause {
        fault,
        row,
        line,
        expected,
        state,
        turns,
        notes,
    }
}
