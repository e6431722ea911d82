//! The auditor, row by row: it knows the one row that each core may make next.
ghost use Rattle.std.specs.Prelude.{◌≡◌, ◌≤◌, ◌<◌, ◌+◌, ◌*◌, ◌/◌, ◌++◌, ◌∷◌, ◌↔◌};
ghost use Rattle.msrp_plan.specs.Common.{[], ℕ, List, IfOk, IfNone, IfSome, Some, None, Err, length, true, most_rows, is_of_core, is_in_turn, fault_in, verdict, IsPlan};
ghost use Rattle.std.specs.Option.{is_some};
ghost use Rattle.msrp_core.specs.CoreStates.{IsStateAfter};
ghost use Rattle.msrp_plan.specs.Verdict.{refused};
ghost use Rattle.msrp_plan.specs.declared.faults.Fault.{Fault as TraceFault};
ghost use Rattle.msrp_plan.specs.declared.rows.Row.{Row as TraceRow};
ghost use Rattle.msrp_sim.specs.Cores.{IsNextRow, IsSomeTurn, IsAs, Leaves, known_row};
ghost use Rattle.msrp_sim.specs.TurnPorts.{unless_granted};
ghost use Rattle.msrp_audit.specs.Audits.{HasFed, IsDueInAudit, IsDueRow, IsOutOfTurn, Awaits, answer_of, due_in, has_turn};

use crate::comparing::unlike_due;
use msrp_core::CoreState;
use msrp_levels::Levels;
use msrp_plan::{CoreId, Fault, Memory, Plan, Row, Rule};
use msrp_sim::Cores;
use std::alloc::Global;
use std::marker::Model;

/// Judges the rows of a trace one by one, from any source.
///
/// A machine over first-in-first-out queues follows each core of the plan: its next row is the one
/// that the core may make, and the core's row in the trace is compared with it (Baker 1991; Gai,
/// Lipari and Di Natale 2001).
#[derive(Drop)]
pub struct Auditor<'a> {
    plan: &'a Plan,
    cores: Cores<'a>,
    // The tick of the next row while there is no fault, and the number of rows left in that tick:
    // so most rows only count down.
    tick: u32,
    left: u32,
    // That tick while rows are left, and no core's after the last row and after a fault: so one
    // comparison says whether a core may have its turn.
    due: u32,
    fault: Option<Fault>,
}

// The tick of no core.
const NO_TICK: u32 = u32::MAX;

impl<'a> Model for Auditor<'a> {
    ghost use Rattle.msrp_audit.specs.Audits.{AuditorModel};

    ghost Value = { AuditorModel };

    ghost use Rattle.msrp_audit.specs.Audits.{auditor_view, IsAuditorView};

    ghost view = { auditor_view };

    ghost invariant = { IsAuditorView };
}

// The tick in which the cores may have their turns.
fn due_in(fault: Option<Fault>, tick: u32, plan: &Plan) -> u32
    ensures { result ≡ due_in fault tick plan.now.ticks }
{
    if fault.is_none() && tick < plan.ticks() {
        tick
    } else {
        NO_TICK
    }
}

// Whether the row's job, if it has one, is a job of the row's core.
pub(crate) fn is_own(plan: &Plan, row: Row) -> bool
    ensures { result ≡ is_of_core plan.now row }
{
    let Some(job) = row.job else {
        return true;
    };
    if job.task.0 >= plan.tasks() {
        return false;
    }
    if plan.core_of(job.task) != row.core {
        return false;
    }
    job.k < plan.jobs(job.task)
}

// The lowest of the rules on job, action and reply that a row violates, given the expected row.
#[inline(always)]
fn broken_by(plan: &Plan, row: Row, due: Row) -> Option<Rule>
    ensures rule { (rows : List TraceRow) → length rows < plan.now.cores * plan.now.ticks → is_in_turn plan.now rows row ≡ true → IsNextRow plan.now rows row.core.0 due → result ≡ refused plan.now rows row }
    ensures as_due { result ≡ None → row.core.0 ≡ due.core.0 → IsAs due row }
{
    let unlike = unlike_due(row, due);
    // A row with the expected job has a job of its core.
    if unlike.is_some() && !is_own(plan, row) {
        return Some(Rule::A2);
    }
    unlike
}

impl<'a> Auditor<'a> {
    /// An auditor before the first row, with all the memory that it will ever need; [`Memory`] only
    /// if memory runs out. The levels are the plan's.
    pub fn with_room(
        alloc: Global,
        plan: &'a Plan,
        levels: &'a Levels<'a>,
    ) -> Result<Auditor<'a>, Memory>
        requires levels { levels.now ≡ plan.now }
        ensures plan { IfOk result (λ auditor. auditor.plan ≡ plan.now) }
        ensures fed { IfOk result (λ auditor. HasFed auditor []) }
    {
        Ok(Auditor {
            plan,
            cores: Cores::with_room(alloc, plan, levels)?,
            tick: 0,
            left: plan.cores(),
            due: due_in(None, 0, plan),
            fault: None,
        })
    }

    // The number of rows before the first fault.
    #[inline(always)]
    fn fed(&self) -> u32
        ensures fed { result ≡ self.now.fed }
        ensures few { result ≤ most_rows }
    {
        let cores = self.plan.cores();
        self.tick * cores + (cores - self.left)
    }

    // Notes that the next row violates this rule.
    fn fail(&mut self, rule: Rule) -> Fault
        ensures fault { result ≡ record { row = self.old.fed + 1; rule = rule } }
        ensures same { self.new ≡ record self.old { fault = Some result } }
    {
        let fault = Fault {
            row: self.fed() + 1,
            rule,
        };
        self.stop(fault);
        fault
    }

    // Stores the fault, after which no core has a turn.
    fn stop(&mut self, fault: Fault)
        ensures { self.new ≡ record self.old { fault = Some fault } }
    {
        self.fault = Some(fault);
        self.due = NO_TICK;
    }

    /// The expected tick, while no row has a fault. After the last row it is the number of ticks.
    #[inline(always)]
    pub fn tick(&self) -> u32
        ensures tick { (rows : List TraceRow) → HasFed self.now rows → self.now.fault ≡ None → result ≡ length rows / self.now.plan.cores }
        ensures most { result ≤ self.now.plan.ticks }
        ensures accepted { IsPlan self.now.plan }
    {
        self.tick
    }

    // Whether a core of the plan may have its turn now.
    #[inline(always)]
    fn has_turn(&self, core: CoreId) -> bool
        requires { core.0 < self.now.plan.cores }
        ensures due { result ≡ true → IsDueInAudit self.now core.0 }
        ensures answer { (rows : List TraceRow) → HasFed self.now rows → self.now.fault ≡ None → length rows < self.now.plan.cores * self.now.plan.ticks → result ≡ has_turn self.now.plan rows core.0 }
    {
        self.cores.tick(core) == self.due
    }

    /// Whether a core may have its turn now: it is still to come in the expected tick. False after
    /// a fault, and after the last row.
    #[inline(always)]
    pub fn is_due(&self, core: CoreId) -> bool
        ensures due { result ≡ true → IsDueInAudit self.now core.0 }
        ensures answer { (rows : List TraceRow) → HasFed self.now rows → self.now.fault ≡ None → length rows < self.now.plan.cores * self.now.plan.ticks → result ≡ has_turn self.now.plan rows core.0 }
    {
        if core.0 >= self.plan.cores() {
            return false;
        }
        self.has_turn(core)
    }

    /// The row that is due of a core that may have its turn now, with its ahead. Fed next, that row
    /// has no fault, and every other row of this core has one, except the same row without its
    /// ahead. It is [`Memory`] only if memory was refused.
    pub fn due_row(&self, alloc: Global, core: CoreId) -> Result<Row, Memory>
        requires { IsDueInAudit self.now core.0 }
        ensures { IfOk result (λ due. (rows : List TraceRow) → HasFed self.now rows → IsDueRow self.now.plan rows core.0 due) }
    {
        self.cores.next_row(alloc, core)
    }

    /// The core's turn if it is known to repeat its last row. Otherwise none, and nothing changes.
    /// Report the trace's row by [`accept`](Auditor::accept) or [`judge`](Auditor::judge).
    #[inline(always)]
    pub fn repeat(&mut self, core: CoreId) -> Option<Row>
        requires { IsDueInAudit self.old core.0 }
        ensures none { IfNone result (self.new ≡ self.old) }
        ensures known { IfSome result (λ due. known_row self.old.cores core.0 ≡ Some due) }
        ensures repeats { result ≡ unless_granted self.old.cores.queues core.0 (known_row self.old.cores core.0) }
        ensures plan { self.new.plan ≡ self.old.plan }
        ensures fed { self.new.fed ≡ self.old.fed }
        ensures fault { self.new.fault ≡ self.old.fault }
        ensures core { IfSome result (λ due. due.core.0 ≡ core.0) }
        ensures leaves { IfSome result (Leaves self.old.cores self.new.cores) }
        ensures awaits { IfSome result (λ due. (rows : List TraceRow) → HasFed self.old rows → Awaits self.new rows core.0 due) }
    {
        self.cores.repeat(core)
    }

    /// The core's turn, as by [`turn`](Auditor::turn), without first trying
    /// [`repeat`](Auditor::repeat).
    #[inline(always)]
    pub fn turn_anew(&mut self, core: CoreId) -> Row
        requires { IsDueInAudit self.old core.0 }
        ensures plan { self.new.plan ≡ self.old.plan }
        ensures fed { self.new.fed ≡ self.old.fed }
        ensures fault { self.new.fault ≡ self.old.fault }
        ensures core { result.core.0 ≡ core.0 }
        ensures turn { IsSomeTurn self.old.plan core.0 result }
        ensures leaves { Leaves self.old.cores self.new.cores result }
        ensures awaits { (rows : List TraceRow) → HasFed self.old rows → Awaits self.new rows core.0 result }
    {
        self.cores.turn(core)
    }

    /// The core's turn: its expected row, with its ahead. Report the trace's row by
    /// [`accept`](Auditor::accept) or [`judge`](Auditor::judge).
    #[inline(always)]
    pub fn turn(&mut self, core: CoreId) -> Row
        requires { IsDueInAudit self.old core.0 }
        ensures plan { self.new.plan ≡ self.old.plan }
        ensures fed { self.new.fed ≡ self.old.fed }
        ensures fault { self.new.fault ≡ self.old.fault }
        ensures core { result.core.0 ≡ core.0 }
        ensures leaves { Leaves self.old.cores self.new.cores result }
        ensures awaits { (rows : List TraceRow) → HasFed self.old rows → Awaits self.new rows core.0 result }
    {
        match self.repeat(core) {
            Some(due) => due,
            None => self.turn_anew(core),
        }
    }

    /// The trace's row is the core's expected one, with or without its ahead.
    #[inline(always)]
    pub fn accept(&mut self)
        requires { self.old.fed < self.old.plan.cores * self.old.plan.ticks }
        ensures same { self.new ≡ record self.old { fed = self.old.fed + 1 } }
        ensures fed { (rows : List TraceRow) (c : ℕ) (due : TraceRow) (row : TraceRow) → Awaits self.old rows c due → row.tick ≡ due.tick → IsAs due row → HasFed self.new (rows ++ row ∷ []) }
    {
        self.left -= 1;
        if self.left == 0 {
            self.tick += 1;
            self.left = self.plan.cores();
            self.due = due_in(self.fault, self.tick, self.plan);
        }
    }

    /// Judges the trace's row, of the expected row's tick and core: the fault of the rows so far.
    #[inline(always)]
    pub fn judge(&mut self, due: Row, row: Row) -> Result<(), Fault>
        requires { self.old.fed < self.old.plan.cores * self.old.plan.ticks }
        ensures plan { self.new.plan ≡ self.old.plan }
        ensures cores { self.new.cores ≡ self.old.cores }
        ensures fed { (rows : List TraceRow) → Awaits self.old rows row.core.0 due → row.tick ≡ due.tick → HasFed self.new (rows ++ row ∷ []) }
        ensures answer { (rows : List TraceRow) → Awaits self.old rows row.core.0 due → row.tick ≡ due.tick → result ≡ answer_of (fault_in self.old.plan (rows ++ row ∷ [])) }
    {
        match broken_by(self.plan, row, due) {
            None => {
                self.accept();
                Ok(())
            }
            Some(rule) => Err(self.fail(rule)),
        }
    }

    /// Whether a row is in its turn: of the expected tick, and of a core whose turn in it is still
    /// to come. If not, while rows are left and none has a fault, it violates A1.
    #[inline(always)]
    pub fn is_in_turn(&self, row: Row) -> bool
        ensures turn { (rows : List TraceRow) → HasFed self.now rows → self.now.fault ≡ None → length rows < self.now.plan.cores * self.now.plan.ticks → result ≡ is_in_turn self.now.plan rows row }
        ensures due { result ≡ true → IsDueInAudit self.now row.core.0 }
        ensures tick { result ≡ true → (rows : List TraceRow) → HasFed self.now rows → row.tick ≡ length rows / self.now.plan.cores }
    {
        row.tick == self.tick && self.is_due(row.core)
    }

    // The rule that a row out of turn violates.
    fn rule_out_of_turn(&self) -> Rule
        ensures { (rows : List TraceRow) (row : TraceRow) → HasFed self.now rows → self.now.fault ≡ None → IsOutOfTurn self.now.plan rows row → Some result ≡ refused self.now.plan rows row }
    {
        let ticks = self.plan.ticks();
        if self.tick < ticks {
            Rule::A1
        } else {
            Rule::A7
        }
    }

    /// The fault of a row out of turn, after rows without one.
    pub fn fault_out_of_turn(&self) -> Fault
        ensures { (rows : List TraceRow) (row : TraceRow) → HasFed self.now rows → self.now.fault ≡ None → IsOutOfTurn self.now.plan rows row → fault_in self.now.plan (rows ++ row ∷ []) ≡ Some result }
    {
        Fault {
            row: self.fed() + 1,
            rule: self.rule_out_of_turn(),
        }
    }

    /// What decides which job of the core runs next, without a fault so far; none if no such core.
    pub fn state(&self, core: CoreId) -> Option<CoreState>
        ensures { (rows : List TraceRow) → HasFed self.now rows → self.now.fault ≡ None → IsStateAfter self.now.plan rows core.0 result }
    {
        if core.0 < self.plan.cores() {
            Some(self.cores.state(core))
        } else {
            None
        }
    }

    /// Judges the next row: the fault of the rows so far, if any, whatever is still missing. After
    /// a fault it returns the same one. Needs no memory.
    #[inline(always)]
    pub fn feed(&mut self, row: Row) -> Result<(), Fault>
        ensures plan { self.new.plan ≡ self.old.plan }
        ensures fed { (rows : List TraceRow) → HasFed self.old rows → HasFed self.new (rows ++ row ∷ []) }
        ensures answer { (rows : List TraceRow) → HasFed self.old rows → result ≡ answer_of (fault_in self.old.plan (rows ++ row ∷ [])) }
        ensures same { (fault : TraceFault) → self.old.fault ≡ Some fault → result ≡ Err fault }
    {
        if let Some(fault) = self.fault {
            return Err(fault);
        }
        if !self.is_in_turn(row) {
            let out = self.fault_out_of_turn();
            self.stop(out);
            return Err(out);
        }
        let due = self.turn(row.core);
        self.judge(due, row)
    }

    /// The verdict on the rows so far as a whole trace: their fault, otherwise the first missing
    /// row. Changes nothing, so more rows may be fed.
    pub fn end(&self) -> Result<(), Fault>
        ensures { (rows : List TraceRow) → HasFed self.now rows → result ≡ answer_of (verdict self.now.plan rows) }
    {
        if let Some(fault) = self.fault {
            return Err(fault);
        }
        if self.tick < self.plan.ticks() {
            return Err(Fault {
                row: self.fed() + 1,
                rule: Rule::A6,
            });
        }
        Ok(())
    }
}
