//! What is drawn: a plan, the rows of a trace, and the verdict on them.
ghost use Rattle.std.specs.Prelude.{◌≡◌};
ghost use Rattle.msrp_plan.specs.Common.{IfOk};
ghost use Rattle.msrp_picture.specs.Rows.{later_rows, legal_rows, task_rows, ticks_begun, is_job_of};

use crate::Verdict;
use crate::gathering::gathered;
use crate::windows::Window;
use msrp_levels::Levels;
use msrp_plan::{JobId, Memory, Plan, Row, TaskId};
use std::alloc::Global;

/// A plan, the legal rows of a trace, and the rows from the first on that violates a rule.
#[derive(Drop)]
pub(crate) struct Scene<'a> {
    pub(crate) alloc: Global,
    pub(crate) plan: &'a Plan,
    pub(crate) levels: &'a Levels<'a>,
    pub(crate) rows: &'a [Row],
    pub(crate) later: &'a [Row],
    pub(crate) found: Verdict,
    pub(crate) window: Window,
    ghost of_plan: { levels.now ≡ plan.now },
}

impl<'a> Scene<'a> {
    /// The scene of these rows, with that verdict on them.
    pub(crate) fn of(
        levels: &'a Levels<'a>,
        plan: &'a Plan,
        rows: &'a [Row],
        found: Verdict,
        window: Window,
        alloc: Global,
    ) -> Scene<'a>
        requires { levels.now ≡ plan.now }
        ensures plan { result.plan.now ≡ plan.now }
        ensures rows { result.rows.now ≡ legal_rows rows.now found }
        ensures later { result.later.now ≡ later_rows rows.now found }
        ensures found { result.found ≡ found }
        ensures window { result.window ≡ window }
    {
        let legal = match found {
            Ok(()) => rows.len(),
            Err(fault) => rows.len().min((fault.row as usize).saturating_sub(1)),
        };
        Scene {
            alloc,
            plan,
            levels,
            rows: &rows[..legal],
            later: &rows[legal..],
            found,
            window,
        }
    }

    /// How many ticks have a legal row.
    pub(crate) fn ticks_begun(&self) -> u64
        ensures { result ≡ ticks_begun self.now.plan.now self.now.rows.now }
    {
        self.rows.len().div_ceil(self.plan.cores() as usize) as u64
    }

    /// The legal rows of a task's jobs, in order.
    pub(crate) fn rows_of(&self, task: TaskId) -> Result<Vec<Row>, Memory>
        ensures { IfOk result (λ rows. rows.items ≡ task_rows task.0 self.now.rows.now) }
    {
        let own = self.rows.iter().copied();
        gathered(own.filter(|row| is_job_of(task, row.job)), self.alloc)
    }
}

/// Whether it is a job of the task.
pub(crate) fn is_job_of(task: TaskId, job: Option<JobId>) -> bool
    ensures { result ≡ is_job_of task.0 job }
{
    matches!(job, Some(job) if job.task == task)
}
