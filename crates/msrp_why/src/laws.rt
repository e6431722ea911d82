//! Laws over what is noted of rows. Each function does nothing; its contract is the law.
ghost use Rattle.std.specs.Prelude.{◌≡◌};
ghost use Rattle.msrp_plan.specs.Common.{ℕ, List, Some, false, map, option_map, slice_get, true, IsSomeAnd, holds, is_global, PlanModel, fifo, IsRunStart, IsPlan};
ghost use Rattle.msrp_plan.specs.declared.ids.JobId.{JobId};
ghost use Rattle.msrp_plan.specs.declared.rows.Row.{Row};
ghost use Rattle.msrp_why.specs.Noted.{IsLockBy, job_of, last_change, queue_rows};

/// For any rows, the jobs of the rows that are noted of a queue are the queue of the policy, in its
/// order.
#[tactic(auto, using(crate::proofs::Noting::queue_jobs))]
pub fn queue_is_fifo()
    ensures { (g : ℕ) (rows : List Row) → map job_of (queue_rows g rows) ≡ map (λ j. Some j) (fifo g rows) }
{}

/// The last change of a local resource that a job holds is that job's lock.
#[tactic(auto, using(crate::proofs::Locking::locked_last))]
pub fn holder_locked_last()
    ensures { (plan : PlanModel) (rows : List Row) (g : ℕ) (j : JobId) → IsPlan plan → is_global plan g ≡ false → IsRunStart plan rows → holds plan rows g j ≡ true → IsSomeAnd (last_change g rows) (IsLockBy j) }
{}

/// The job that holds a global resource is that of the first row that is noted of its queue: since
/// that row it waited for the resource or held it.
#[tactic(auto, using(crate::proofs::Noting::first_holds))]
pub fn holder_is_first()
    ensures { (plan : PlanModel) (rows : List Row) (g : ℕ) (j : JobId) → IsPlan plan → is_global plan g ≡ true → IsRunStart plan rows → holds plan rows g j ≡ true → option_map job_of (slice_get (queue_rows g rows) 0) ≡ Some (Some j) }
{}
