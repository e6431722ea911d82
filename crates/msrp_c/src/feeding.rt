//! What an auditor takes between two calls, and what it answers.
ghost use Rattle.std.specs.Prelude.{◌≡◌, ◌⊎◌, ◌↔◌, ◌<◌, ◌+◌, ◌++◌, ◌∷◌};
ghost use Rattle.msrp_plan.specs.Common.{[], true, IfOk, IfErr, IsOkAnd, List, None, Ok, Err, PlanModel, fault_in};
ghost use Rattle.msrp_plan.specs.declared.rows.Row.{Row as TraceRow};
ghost use Rattle.msrp_sim.specs.Cores.{IsAs};
ghost use Rattle.msrp_audit.specs.Audits.{HasFed, IsBroken};
ghost use Rattle.msrp_c.specs.Feeding.{Breaks, HasDue, IsDueAfter, IsFed, Steps, found_so_far, found_whole, is_good};
ghost use Rattle.msrp_c.specs.Whys.{AreReasons};
ghost use Rattle.msrp_c.specs.declared.turns.MsrpRow.{MsrpRow as Numbers};

use crate::answers::{DONE, MEMORY, USAGE};
use crate::held::{BrokenRow, FedAuditor, Loaded};
use crate::turns::{MsrpRow, row_of};
use msrp_audit::{Auditor, Fault};
use msrp_engine::{Broken, CliFault};
use msrp_plan::{CoreId, Memory, Plan, Row};
use msrp_trace::TraceError;
use msrp_view_engine::{Words, why_of_refused_row, why_of_row};
use std::alloc::Global;

// Whether a row of the core does what is due of it, with its ahead or without.
#[inline(always)]
fn is_as(row: Row, due: Row) -> bool
    ensures { result ≡ true → row.core.0 ≡ due.core.0 → IsAs due row }
{
    row.job == due.job
        && row.kind == due.kind
        && row.res == due.res
        && (row.ahead.is_none() || row.ahead == due.ahead)
}

// The next row, if those before have no fault: the auditor was fed it, or this is its fault. After
// one out of turn the auditor is as before.
#[inline(always)]
fn judge(auditor: &mut Auditor<'_>, row: Row) -> Result<(), Broken>
    ensures plan { auditor.new.plan ≡ auditor.old.plan }
    ensures good { IfOk result (λ _. (rows : List TraceRow) → HasFed auditor.old rows → auditor.old.fault ≡ None → HasFed auditor.new (rows ++ row ∷ []) × (fault_in auditor.old.plan (rows ++ row ∷ []) ≡ None)) }
    ensures broken { IfErr result (λ broken. (rows : List TraceRow) → HasFed auditor.old rows → auditor.old.fault ≡ None → IsBroken auditor.old.plan rows row broken.fault broken.expected auditor.new) }
{
    if !auditor.is_in_turn(row) {
        return Err(Broken {
            fault: auditor.fault_out_of_turn(),
            expected: None,
        });
    }
    let due = auditor.turn(row.core);
    // Most rows are as due. Only the others are judged, which reads the plan.
    if is_as(row, due) {
        auditor.accept();
        return Ok(());
    }
    match auditor.judge(due, row) {
        Ok(()) => Ok(()),
        Err(fault) => Err(Broken {
            fault,
            expected: Some(due),
        }),
    }
}

// What is found in the rows so far with one more, of this number, if those before are good.
#[inline(always)]
fn step(
    plan: &Plan,
    auditor: &mut Auditor<'_>,
    turn: &MsrpRow,
    number: u32,
    broken: &mut Option<BrokenRow>,
) -> Result<Result<(), Fault>, CliFault>
    ensures plan { auditor.new.plan ≡ auditor.old.plan }
    ensures steps { Steps plan.now auditor.old turn.now number auditor.new result }
    ensures breaks { Breaks plan.now auditor.old turn.now result broken.new }
{
    let row = match row_of(plan, turn) {
        Ok(row) => row,
        Err(fault) => return Err(CliFault::from(TraceError::At { fault, number })),
    };
    match judge(auditor, row) {
        Ok(()) => Ok(Ok(())),
        Err(found) => {
            *broken = Some(BrokenRow { row, broken: found });
            Ok(Err(found.fault))
        }
    }
}

// Whether nothing is wrong so far.
fn is_good(verdict: Result<Result<(), Fault>, CliFault>) -> bool
    ensures { result ≡ is_good verdict }
{
    match verdict {
        Ok(Ok(())) => true,
        Ok(Err(_)) => false,
        Err(_) => false,
    }
}

// The next number; the greatest has none.
fn after(number: u32) -> u32
    ensures { number < 4294967295 → result ≡ number + 1 }
{
    if number < u32::MAX {
        number + 1
    } else {
        number
    }
}

// No words on what was found.
fn no_words(alloc: Global, found: Result<Result<(), Fault>, CliFault>) -> Result<Words, CliFault>
    ensures { IsOkAnd result (λ words. (words.found ≡ found) × (words.text.items ≡ [])) }
{
    let text = Vec::new(alloc);
    Ok(Words { text, found })
}

impl<'a> FedAuditor<'a> {
    /// An auditor of a plan, before the first row.
    pub(crate) fn new(alloc: Global, loaded: Loaded<'a>) -> Result<FedAuditor<'a>, Memory>
        ensures { IfOk result (IsFed loaded.entry.plan.now []) }
    {
        let auditor = Auditor::with_room(alloc, loaded.plan, loaded.levels)?;
        Ok(FedAuditor {
            loaded,
            auditor,
            judged: 0,
            verdict: Ok(Ok(())),
            broken: None,
        })
    }

    /// An auditor of a plan that was fed these rows.
    pub(crate) fn of_rows(
        alloc: Global,
        loaded: Loaded<'a>,
        turns: &[MsrpRow],
    ) -> Result<FedAuditor<'a>, Memory>
        ensures { IfOk result (IsFed loaded.entry.plan.now turns.now) }
    {
        let mut fed = FedAuditor::new(alloc, loaded)?;
        for turn in turns {
            let _so_far = fed.feed(turn);
        }
        Ok(fed)
    }

    /// The next row: what is found in the rows so far. It takes no memory.
    #[inline(always)]
    pub(crate) fn feed(&mut self, turn: &MsrpRow) -> Result<Result<(), Fault>, CliFault>
        ensures fed { (plan : PlanModel) (turns : List Numbers) → IsFed plan turns self.old → IsFed plan (turns ++ turn.now ∷ []) self.new }
        ensures found { result ≡ self.new.verdict }
    {
        // Read so that the plan is known to be an accepted one, which has few rows.
        let _accepted = self.loaded.plan.tasks();
        if !is_good(self.verdict) {
            return self.verdict;
        }
        let number = after(self.judged);
        let verdict = step(
            self.loaded.plan,
            &mut self.auditor,
            turn,
            number,
            &mut self.broken,
        );
        self.judged = number;
        // The verdict was good, so it is not written again.
        if is_good(verdict) {
            return Ok(Ok(()));
        }
        self.verdict = verdict;
        verdict
    }

    /// What is found in the rows as a whole trace.
    pub(crate) fn end(&self) -> Result<Result<(), Fault>, CliFault>
        ensures { (plan : PlanModel) (turns : List Numbers) → IsFed plan turns self.now → result ≡ found_whole plan turns }
    {
        if is_good(self.verdict) {
            Ok(self.auditor.end())
        } else {
            self.verdict
        }
    }

    /// The row that is due of a core, or the status that tells why there is none.
    pub(crate) fn due(&self, alloc: Global, core: CoreId) -> Result<Row, u32>
        ensures row { IfOk result (λ due. (plan : PlanModel) (turns : List Numbers) → IsFed plan turns self.now → IsDueAfter plan turns core.0 due) }
        ensures due { IfErr result (λ status. (plan : PlanModel) (turns : List Numbers) → IsFed plan turns self.now → HasDue plan turns core.0 → status ≡ 4) }
        ensures done { (plan : PlanModel) (turns : List Numbers) → IsFed plan turns self.now → (result ≡ Err 8) ↔ (found_whole plan turns ≡ Ok (Ok tt)) }
        ensures status { IfErr result (λ status. (status ≡ 3) ⊎ (status ≡ 4) ⊎ (status ≡ 8)) }
    {
        if is_good(self.end()) {
            return Err(DONE);
        }
        if !is_good(self.verdict) {
            return Err(USAGE);
        }
        if !self.auditor.is_due(core) {
            return Err(USAGE);
        }
        match self.auditor.due_row(alloc, core) {
            Ok(row) => Ok(row),
            Err(Memory) => Err(MEMORY),
        }
    }

    /// The words on what is found in the rows so far; none while nothing is.
    pub(crate) fn why(&self, alloc: Global) -> Result<Words, CliFault>
        ensures { (plan : PlanModel) (turns : List Numbers) → IsFed plan turns self.now → AreReasons (found_so_far plan turns) result }
    {
        let Loaded { plan, levels } = self.loaded;
        match self.verdict {
            Ok(Ok(())) => no_words(alloc, Ok(Ok(()))),
            Ok(Err(fault)) => match self.broken {
                Some(kept) => {
                    why_of_row(alloc, plan, levels, &self.auditor, kept.row, kept.broken)
                }
                None => no_words(alloc, Ok(Err(fault))),
            },
            Err(CliFault::Trace { code, number }) => why_of_refused_row(alloc, code, number),
            Err(fault) => no_words(alloc, Err(fault)),
        }
    }

    /// The auditor before the first row of another trace. If memory is refused it is as before.
    pub(crate) fn begin_again(&mut self, alloc: Global) -> Result<(), Memory>
        ensures again { IfOk result (λ _. (plan : PlanModel) (turns : List Numbers) → IsFed plan turns self.old → IsFed plan [] self.new) }
        ensures same { IfErr result (λ _. self.new ≡ self.old) }
    {
        *self = FedAuditor::new(alloc, self.loaded)?;
        Ok(())
    }
}
