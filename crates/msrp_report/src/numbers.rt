//! One job's numbers, from its counts at the end of a run.
ghost use Rattle.std.specs.Prelude.{◌≡◌, ◌≤◌, ◌+◌, ◌-◌};
ghost use Rattle.msrp_plan.specs.Common.{List, cond, nat_le, nat_lt, Contains, jobs, most_rows, IsPlan};
ghost use Rattle.msrp_plan.specs.Limits.{most_ticks};
ghost use Rattle.msrp_plan.specs.declared.rows.Row.{Row as TraceRow};
ghost use Rattle.msrp_report.specs.Inside.Numbers.{numbers_of};
ghost use Rattle.msrp_report.specs.Inside.Tallies.{HasTallied};

use crate::tallies::Tallies;
use msrp_plan::{JobId, JobKey, Plan};

/// The report's numbers for one job.
#[derive(Clone, Copy)]
pub(crate) struct JobNumbers {
    pub(crate) finished: bool,
    pub(crate) late: bool,
    /// From its release to the end of its last action; 0 if it isn't finished.
    pub(crate) response: u32,
    pub(crate) spins: u32,
    pub(crate) longest_wait: u32,
    pub(crate) blocked: u32,
}

// Whether a job is late: it, or the run if it isn't finished, ended after its absolute deadline.
fn is_late(finished: bool, key: JobKey, end: u64, ticks: u32) -> bool
    ensures { result ≡ cond finished (nat_lt key.deadline end) (nat_le key.deadline ticks) }
{
    if finished {
        key.deadline < end
    } else {
        key.deadline <= u64::from(ticks)
    }
}

// The time from a job's release to its end; 0 if it isn't finished.
fn response_of(finished: bool, key: JobKey, end: u64) -> u32
    requires { end ≤ most_ticks + 1 }
    ensures { result ≡ cond finished (end - key.release) 0 }
{
    if finished {
        end.saturating_sub(key.release) as u32
    } else {
        0
    }
}

/// The numbers of a job of the plan, from the counts over all rows of a run.
pub(crate) fn job_numbers(plan: &Plan, tallies: &Tallies, job: JobId) -> JobNumbers
    requires plan { IsPlan plan.now }
    requires job { Contains (jobs plan.now) job }
    requires told { (rows : List TraceRow) × HasTallied plan.now rows tallies.now }
    ensures numbers { (rows : List TraceRow) → HasTallied plan.now rows tallies.now → result ≡ numbers_of plan.now rows job }
    ensures spins { result.spins ≤ most_rows }
    ensures blocked { result.blocked ≤ most_rows }
{
    let count = tallies.count_of(job);
    let finished = count.done == plan.units(job.task);
    let end = u64::from(count.last_tick) + 1;
    let key = plan.job_key(job);
    JobNumbers {
        finished,
        late: is_late(finished, key, end, plan.ticks()),
        response: response_of(finished, key, end),
        spins: count.spins,
        longest_wait: count.longest_wait,
        blocked: tallies.blocked(job),
    }
}
