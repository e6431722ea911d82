//! The releases of a tick, before its first row: each finds its job's blocker.

ghost use Rattle.std.specs.Prelude.{◌≡◌, ◌<◌, ◌+◌};
ghost use Rattle.msrp_plan.specs.Common.{ℕ, List, true, length, slice_set, Contains, IsNonDecreasingBy, IsPermutation, first_later, jobs, jobs_of, IsPlan};
ghost use Rattle.msrp_plan.specs.declared.rows.Row.{Row as TraceRow};
ghost use Rattle.msrp_report.specs.Inside.Tallies.{AreActive, AreReleases, AreTallies, HasReleased, ToldBy, blocking_by, due_count, is_due, release_or_end};

use super::{Blocking, NextRelease, Tallies};
use msrp_plan::{JobId, Plan};

/// The tick of a job's release, or the plan's end if its task has no such job.
pub(super) fn release_or_end(plan: &Plan, job: JobId, jobs: usize) -> u32
    requires plan { IsPlan plan.now }
    requires task { job.task.0 < length plan.now.tasks }
    requires jobs { jobs ≡ length (jobs_of plan.now job.task.0) }
    ensures { result ≡ release_or_end plan.now job.task.0 job.k }
{
    if (job.k as usize) < jobs {
        plan.release(job) as u32
    } else {
        plan.ticks()
    }
}

// Moves the first release, renewed, to its place in the order. Most periods are alike, so the place
// is near the back and is looked for from there.
fn put_back(releases: &mut [NextRelease], next: NextRelease)
    requires some { 0 < length releases.old }
    requires rising { IsNonDecreasingBy (λ r. r.tick) releases.old }
    ensures same { IsPermutation (slice_set releases.old 0 next) releases.new }
    ensures rising { IsNonDecreasingBy (λ r. r.tick) releases.new }
{
    let mut place = releases.len() - 1;
    while place > 0 && releases[place].tick > next.tick {
        place -= 1;
    }
    releases.copy_within(1..place + 1, 0);
    releases[place] = next;
}

impl Tallies {
    // Who blocks a job that is released now.
    fn blocking_of(&self, plan: &Plan, job: JobId) -> Blocking
        requires plan { IsPlan plan.now }
        requires told { ToldBy plan.now self.now }
        requires job { Contains (jobs plan.now) job }
        ensures { (rows : List TraceRow) (begun : ℕ → ℕ) → AreTallies plan.now rows begun self.now.tasks.items → AreActive plan.now rows self.now.active.items → result ≡ blocking_by rows (first_later plan.now rows job) }
    {
        let core = plan.core_of(job.task);
        match self.active[core.0 as usize].first_later(plan, job) {
            None => Blocking::Over(0),
            Some(other) => Blocking::By {
                job: other,
                before: self.count_of(other).rows,
            },
        }
    }

    // Whether a job must be released in the tick that begins.
    #[inline(always)]
    fn is_due(&self) -> bool
        ensures { result ≡ is_due self.now.begun self.now.releases.items }
    {
        match self.releases.first() {
            None => false,
            Some(first) => first.tick <= self.begun,
        }
    }

    // Releases the first job, and puts its task's next release in order. Kept apart from the code
    // for ticks without a release, the usual ones.
    #[inline(never)]
    fn release(&mut self, plan: &Plan)
        requires plan { IsPlan plan.now }
        requires told { (rows : List TraceRow) × HasReleased plan.now rows self.old }
        requires due { is_due self.old.begun self.old.releases.items ≡ true }
        requires left { self.old.begun < plan.now.ticks }
        ensures begun { self.new.begun ≡ self.old.begun }
        ensures fewer { due_count self.old ≡ due_count self.new + 1 }
        ensures told { (rows : List TraceRow) → HasReleased plan.now rows self.old → HasReleased plan.now rows self.new }
    {
        let task = self.releases[0].task;
        let at = task.0 as usize;
        let k = self.tasks[at].released;
        let blocking = self.blocking_of(plan, JobId { task, k });
        let tally = &mut self.tasks[at];
        tally.jobs[k as usize].blocking = blocking;
        tally.released = k + 1;
        let next = JobId {
            task,
            k: tally.released,
        };
        let tick = release_or_end(plan, next, tally.jobs.len());
        put_back(&mut self.releases, NextRelease { tick, task });
    }

    /// Begins the next tick. Without a release it looks at no task.
    #[inline(always)]
    pub(super) fn begin(&mut self, plan: &Plan)
        requires plan { IsPlan plan.now }
        requires told { (rows : List TraceRow) × HasReleased plan.now rows self.old }
        requires left { self.old.begun < plan.now.ticks }
        ensures begun { self.new.begun ≡ self.old.begun + 1 }
        ensures told { (rows : List TraceRow) → HasReleased plan.now rows self.old → AreTallies plan.now rows (λ _. self.new.begun) self.new.tasks.items }
        ensures releases { AreReleases plan.now self.new.tasks.items self.new.releases.items }
        ensures active { (rows : List TraceRow) → HasReleased plan.now rows self.old → AreActive plan.now rows self.new.active.items }
    {
        while self.is_due() {
            self.release(plan);
        }
        self.begun += 1;
    }
}
