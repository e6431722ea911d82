//! Turns that repeat the last row: a run of work goes on, or the core idles, and no job is
//! released.
ghost use Rattle.std.specs.Prelude.{◌≡◌, ◌<◌, ◌≤◌, ◌+◌, ◌%◌, ◌^◌, ◌∷◌};
ghost use Rattle.msrp_plan.specs.Common.{[], ℕ, List, Some, None, false, length, ForSome, units, HasWork};
ghost use Rattle.msrp_core.specs.Common.{has_release_by};
ghost use Rattle.msrp_core.specs.Active.{ActiveJob, advanced};
ghost use Rattle.msrp_core.specs.CoreJobs.{ActsFor, AreJobs, CanAct, Acts, IsRunning, active_in};
ghost use Rattle.msrp_core.specs.Repeats.{CanRepeat, HasWorkLeft, Polls, kind_again};

use crate::actions::{idle_row, row_on};
use crate::jobs::Jobs;
use msrp_plan::{JobId, Kind, Op, ResId, Row};

/// A job whose poll of a resource wasn't granted.
#[derive(Clone, Copy)]
pub(crate) struct Poll {
    pub(crate) job: JobId,
    pub(crate) res: ResId,
}

impl<'a> Jobs<'a> {
    // How many ticks, from this one on, surely pass before a job of the core is released.
    fn quiet_ticks(&self, tick: u32) -> u32
        ensures quiet { (t : ℕ) → 0 < result → t < tick + result → has_release_by self.now.ready t ≡ false }
        ensures within { 0 < result → tick + result ≤ self.now.plan.now.ticks }
    {
        let ticks = self.plan.ticks();
        let next = match self.ready.next_release() {
            Some(next) if next < u64::from(ticks) => next as u32,
            _ => ticks,
        };
        next.saturating_sub(tick)
    }

    // How many units of work the running job has next, counted up to `most`, without its last unit.
    fn work_left(&self, job: JobId, most: u32) -> u32
        requires jobs { AreJobs self.now }
        requires running { IsRunning self.now job }
        ensures most { result ≤ most }
        ensures left { HasWorkLeft self.now job result }
    {
        let done = self.progress();
        let left = self.units.len() - done as usize - 1;
        (self.units.work(done, most) as usize).min(left) as u32
    }

    /// How many more turns, from this tick on, repeat a last row of this kind and job.
    #[inline(always)]
    pub(crate) fn repeats(&self, tick: u32, kind: Kind, job: Option<JobId>) -> u32
        requires { AreJobs self.now }
        ensures quiet { (t : ℕ) → 0 < result → t < tick + result → has_release_by self.now.ready t ≡ false }
        ensures within { 0 < result → tick + result ≤ self.now.plan.now.ticks }
        ensures can { 0 < result → CanRepeat self.now kind job result }
    {
        match (kind, job) {
            (Kind::Idle, None) if self.stack.top().is_none() => self.quiet_ticks(tick),
            (Kind::Run, Some(working)) if self.stack.top() == job => {
                self.work_left(working, self.quiet_ticks(tick))
            }
            _ => 0,
        }
    }

    /// The poll of this row, if it wasn't granted: its job is the one that runs.
    pub(crate) fn poll_of(&self, row: &Row) -> Option<Poll>
        requires { AreJobs self.now }
        ensures { ForSome result (Polls self.now row.now) }
    {
        match (row.kind, row.job, row.res) {
            (Kind::Spin, Some(job), Some(res)) if self.stack.top() == row.job => {
                Some(Poll { job, res })
            }
            _ => None,
        }
    }

    // Counts a unit of the running job. If no job runs, the count means nothing.
    fn count(&mut self)
        ensures { self.new ≡ record self.old { progress = (self.old.progress + 1) % 2 ^ 32 } }
    {
        self.progress = self.progress.wrapping_add(1);
    }

    /// A turn that repeats the last row.
    #[inline(always)]
    pub(crate) fn act_again(&mut self, tick: u32, job: Option<JobId>) -> Row
        requires jobs { AreJobs self.old }
        requires can { CanRepeat self.old (kind_again job) job 1 }
        ensures acts { ActsFor self.old self.new job tick result }
        ensures res { result.res ≡ None }
        ensures kind { result.kind ≡ kind_again job }
        ensures left { (k : ℕ) → CanRepeat self.old (kind_again job) job (k + 1) → CanRepeat self.new (kind_again job) job k }
    {
        self.count();
        match job {
            None => idle_row(self.core, tick),
            Some(job) => row_on(self.core, tick, Kind::Run, job, None),
        }
    }
}
