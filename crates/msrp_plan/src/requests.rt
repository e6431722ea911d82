//! The queue of a resource, found from the rows on it.
ghost use Rattle.std.specs.Prelude.{◌≡◌, ◌++◌, ◌+◌, ◌-◌, ◌^◌, ◌∷◌, ℕ, List, [], cond, min, OnErr, OnOk};
ghost use Rattle.std.specs.List.{cons_option};
ghost use Rattle.msrp_plan.specs.Queues.{fifo, is_release_of, requester};
ghost use Rattle.msrp_plan.specs.Requests.{HasTaken};
ghost use Rattle.msrp_plan.specs.declared.rows.Row.{Row as TraceRow};

use crate::faults::Memory;
use crate::ids::{JobId, ResId};
use crate::rows::{Kind, Row};
use std::alloc::Global;

/// The requests of a resource so far, in order, and the number of releases.
#[derive(Debug, Drop)]
pub struct Requests {
    res: ResId,
    jobs: Vec<JobId>,
    releases: usize,
}

fn requester(res: ResId, row: &Row) -> Option<JobId>
    ensures { result ≡ requester res.0 row.now }
{
    if row.res == Some(res) && matches!(row.kind, Kind::Take | Kind::Queue) {
        row.job
    } else {
        None
    }
}

fn is_release_of(res: ResId, row: &Row) -> bool
    ensures { result ≡ is_release_of res.0 row.now }
{
    row.res == Some(res) && row.kind == Kind::Release
}

impl Requests {
    /// An empty queue, before the first row.
    pub fn of(alloc: Global, res: ResId) -> Requests
        ensures { HasTaken result res.0 [] }
    {
        Requests {
            res,
            jobs: Vec::new(alloc),
            releases: 0,
        }
    }

    /// Reads one more row, on any resource. If memory runs out, it isn't read.
    pub fn take(&mut self, row: &Row) -> Result<(), Memory>
        ensures taken { (g : ℕ) (rows : List TraceRow) → HasTaken self.old g rows → OnOk result (HasTaken self.new g (rows ++ row.now ∷ [])) }
        ensures kept { (g : ℕ) (rows : List TraceRow) → HasTaken self.old g rows → OnErr result (HasTaken self.new g rows) }
    {
        self.request(requester(self.res, row))?;
        self.release(is_release_of(self.res, row));
        Ok(())
    }

    /// The jobs in the queue, the first in front.
    pub fn queue(&self) -> &[JobId]
        ensures { (g : ℕ) (rows : List TraceRow) → HasTaken self.now g rows → result.now ≡ fifo g rows }
    {
        &self.jobs[self.releases.min(self.jobs.len())..]
    }

    // Adds the request of a job, if there is one.
    fn request(&mut self, job: Option<JobId>) -> Result<(), Memory>
        ensures jobs { OnOk result (self.new.jobs.items ≡ self.old.jobs.items ++ cons_option job []) }
        ensures kept { OnErr result (self.new.jobs.items ≡ self.old.jobs.items) }
        ensures res { self.new.res ≡ self.old.res }
        ensures releases { self.new.releases ≡ self.old.releases }
    {
        if let Some(job) = job {
            self.jobs.push(job)?;
        }
        Ok(())
    }

    // Counts a release, if it is one.
    fn release(&mut self, is_release: bool)
        ensures jobs { self.new.jobs ≡ self.old.jobs }
        ensures res { self.new.res ≡ self.old.res }
        ensures releases { self.new.releases ≡ min (self.old.releases + cond is_release 1 0) (2 ^ 64 - 1) }
    {
        self.releases = self.releases.saturating_add(usize::from(is_release));
    }
}
