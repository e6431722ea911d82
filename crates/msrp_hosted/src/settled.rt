//! A run that has ended, and its trace.
ghost use Rattle.std.specs.Prelude.{◌≡◌, ◌<◌};
ghost use Rattle.msrp_plan.specs.Common.{ℕ, List, IfOk, true, carries_ahead, log_of, IsPlan, IsRun};
ghost use Rattle.msrp_plan.specs.Laws.{KeepsLaws};
ghost use Rattle.msrp_merge.specs.declared.logs.Turn.{Turn};
ghost use Rattle.msrp_merge.specs.Sorting.{IsMerged};
ghost use Rattle.msrp_merge.specs.Turns.{rows_of};
ghost use Rattle.msrp_hosted.specs.Hosted.{turns_at};

use msrp_board::Settled;
use msrp_merge::{CoreLog, merge};
use msrp_plan::{Memory, Plan, Trace};
use std::alloc::Global;
use std::marker::Model;

/// A run after all its cores were joined.
#[derive(Drop)]
pub struct SettledRun<'a> {
    pub(crate) plan: &'a Plan,
    pub(crate) logs: Vec<CoreLog>,
    pub(crate) settled: Settled,
}

impl<'a> Model for SettledRun<'a> {
    ghost use Rattle.msrp_hosted.specs.Hosted.{SettledRunModel};
    ghost use Rattle.msrp_hosted.specs.Inside.{settled_view, IsSettledView};

    ghost Value = { SettledRunModel };

    ghost view = { settled_view };

    ghost invariant = { IsSettledView };
}

impl<'a> SettledRun<'a> {
    /// The plan of the run.
    pub fn plan(&self) -> &Plan
        ensures plan { result.now ≡ self.now.plan }
        ensures accepted { IsPlan self.now.plan }
    {
        self.plan
    }

    /// The rows of all cores in one trace: a legal run of the plan, for any interleaving of the
    /// threads' steps. [`Memory`] only if memory runs out.
    pub fn trace(&self, alloc: Global) -> Result<Trace, Memory>
        ensures run { IfOk result (λ trace. IsRun self.now.plan trace.rows.items) }
        ensures laws { IfOk result (λ trace. KeepsLaws self.now.plan trace.rows.items) }

        // The rows of each core are those of its turns.
        ensures rows { IfOk result (λ trace. (c : ℕ) → c < self.now.plan.cores → log_of c trace.rows.items ≡ rows_of (turns_at self.now.turns c)) }

        // The turns of a tick are by rank: those without a place by core, then by resource and
        // place.
        ensures order { IfOk result (λ trace. (turns : List Turn) × (trace.rows.items ≡ rows_of turns) × IsMerged self.now.plan.cores self.now.plan.ticks (turns_at self.now.turns) turns) }
        ensures aheads { IfOk result (λ trace. carries_ahead trace.rows.items ≡ true) }
    {
        merge(alloc, self.plan, &self.logs, &self.settled)
    }
}
