//! How the counts follow a row: its job's own count, and whom the row blocks.
ghost use Rattle.std.specs.Prelude.{◌≡◌, ◌+◌, ◌++◌, ◌∷◌};
ghost use Rattle.msrp_plan.specs.Common.{[], ℕ, List, Some, false, not, is_started, PlanModel, IsRunStart, IsPlan};
ghost use Rattle.msrp_plan.specs.declared.rows.Row.{Row as TraceRow};
ghost use Rattle.msrp_report.specs.Inside.Tallies.{AreActive, AreReleases, AreTallies, Counts, CountsAs, HasTallied, IsNextOf, ToldOf};

use super::{Blocking, Tallies};
use msrp_plan::{JobId, Kind, Plan, Row};

impl Tallies {
    // Whether the job has no row.
    #[inline(always)]
    fn is_unstarted(&self, job: JobId) -> bool
        requires { ToldOf self.now.tasks.items job }
        ensures { (plan : PlanModel) (rows : List TraceRow) (begun : ℕ → ℕ) → AreTallies plan rows begun self.now.tasks.items → is_started rows job ≡ not result }
    {
        self.count_of(job).rows == 0
    }

    // Counts the first row of a job: no later row blocks it.
    fn count_first(&mut self, plan: &Plan, job: JobId, tick: u32, kind: Kind)
        requires plan { IsPlan plan.now }
        requires told { (row : TraceRow) × CountsAs plan.now job tick kind row self.old }
        requires first { (rows : List TraceRow) → AreTallies plan.now rows (λ _. self.old.begun) self.old.tasks.items → is_started rows job ≡ false }
        ensures begun { self.new.begun ≡ self.old.begun }
        ensures releases { AreReleases plan.now self.old.tasks.items self.old.releases.items → AreReleases plan.now self.new.tasks.items self.new.releases.items }
        ensures told { (row : TraceRow) (rows : List TraceRow) → CountsAs plan.now job tick kind row self.old → AreTallies plan.now rows (λ _. self.old.begun) self.old.tasks.items → IsNextOf plan.now rows row self.old.begun → AreTallies plan.now (rows ++ row ∷ []) (λ _. self.old.begun) self.new.tasks.items }
        ensures active { (row : TraceRow) (rows : List TraceRow) → CountsAs plan.now job tick kind row self.old → AreTallies plan.now rows (λ _. self.old.begun) self.old.tasks.items → AreActive plan.now rows self.old.active.items → IsNextOf plan.now rows row self.old.begun → AreActive plan.now (rows ++ row ∷ []) self.new.active.items }
    {
        let blocked = self.blocked(job);
        let task = &mut self.tasks[job.task.0 as usize];
        let tally = &mut task.jobs[job.k as usize];
        tally.count.add(tick, kind);
        tally.blocking = Blocking::Over(blocked);
        if tally.count.done == task.units {
            return;
        }
        let core = plan.core_of(job.task);
        self.active[core.0 as usize].start(job);
    }

    // Counts a row of a job. Unless it is the first, the job's blocking doesn't change.
    #[inline(always)]
    fn count(&mut self, plan: &Plan, job: JobId, row: Row)
        requires plan { IsPlan plan.now }
        requires told { Counts plan.now row self.old }
        requires job { row.job ≡ Some job }
        ensures begun { self.new.begun ≡ self.old.begun }
        ensures releases { AreReleases plan.now self.old.tasks.items self.old.releases.items → AreReleases plan.now self.new.tasks.items self.new.releases.items }
        ensures told { (rows : List TraceRow) → AreTallies plan.now rows (λ _. self.old.begun) self.old.tasks.items → IsNextOf plan.now rows row self.old.begun → AreTallies plan.now (rows ++ row ∷ []) (λ _. self.old.begun) self.new.tasks.items }
        ensures active { (rows : List TraceRow) → AreTallies plan.now rows (λ _. self.old.begun) self.old.tasks.items → AreActive plan.now rows self.old.active.items → IsNextOf plan.now rows row self.old.begun → AreActive plan.now (rows ++ row ∷ []) self.new.active.items }
    {
        if self.is_unstarted(job) {
            self.count_first(plan, job, row.tick, row.kind);
            return;
        }
        let task = &mut self.tasks[job.task.0 as usize];
        let tally = &mut task.jobs[job.k as usize];
        tally.count.add(row.tick, row.kind);
        if tally.count.done != task.units {
            return;
        }
        let core = plan.core_of(job.task);
        self.active[core.0 as usize].finish(job);
    }

    /// Begins that tick, unless one of its rows was counted.
    #[inline(always)]
    pub(crate) fn reach(&mut self, plan: &Plan, tick: u32)
        requires plan { IsPlan plan.now }
        requires told { (row : TraceRow) × ((rows : List TraceRow) × HasTallied plan.now rows self.old × IsRunStart plan.now (rows ++ row ∷ [])) × (row.tick ≡ tick) }
        ensures begun { self.new.begun ≡ tick + 1 }
        ensures told { (rows : List TraceRow) (row : TraceRow) → HasTallied plan.now rows self.old → IsRunStart plan.now (rows ++ row ∷ []) → row.tick ≡ tick → HasTallied plan.now rows self.new }
    {
        if tick != self.begun {
            return;
        }
        self.begin(plan);
    }

    /// Counts a row of a legal run, in the tick begun last.
    #[inline(always)]
    pub(crate) fn feed(&mut self, plan: &Plan, row: Row)
        requires plan { IsPlan plan.now }
        requires told { (rows : List TraceRow) × HasTallied plan.now rows self.old × IsRunStart plan.now (rows ++ row ∷ []) }
        requires begun { self.old.begun ≡ row.tick + 1 }
        ensures begun { self.new.begun ≡ self.old.begun }
        ensures told { (rows : List TraceRow) → HasTallied plan.now rows self.old → IsRunStart plan.now (rows ++ row ∷ []) → HasTallied plan.now (rows ++ row ∷ []) self.new }
    {
        let Some(job) = row.job else {
            return;
        };
        self.count(plan, job, row);
    }
}
