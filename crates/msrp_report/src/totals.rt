//! The line of one task, summed over its jobs.
ghost use Rattle.std.specs.Prelude.{◌≡◌, ◌<◌};
ghost use Rattle.msrp_plan.specs.Common.{List, length, IsPlan};
ghost use Rattle.msrp_plan.specs.declared.rows.Row.{Row as TraceRow};
ghost use Rattle.msrp_report.specs.Lines.{line_of};
ghost use Rattle.msrp_report.specs.Inside.Tallies.{HasTallied};
ghost use Rattle.msrp_report.specs.Inside.Totals.{HasSpace, line_with};

use crate::bounds::{blocked_bound_of, spin_bound_of};
use crate::lines::Line;
use crate::numbers::{JobNumbers, job_numbers};
use crate::tallies::Tallies;
use msrp_levels::Levels;
use msrp_plan::{JobId, Plan, TaskId};

impl Line {
    // Adds a job of the task.
    fn with_job(self, numbers: JobNumbers) -> Line
        requires { HasSpace numbers self }
        ensures { result ≡ line_with numbers self }
    {
        Line {
            finished: self.finished + u32::from(numbers.finished),
            late: self.late + u32::from(numbers.late),
            worst_response: self.worst_response.max(numbers.response),
            spin: self.spin + numbers.spins,
            worst_spin: self.worst_spin.max(numbers.longest_wait),
            blocked: self.blocked + numbers.blocked,
            worst_blocked: self.worst_blocked.max(numbers.blocked),
            ..self
        }
    }
}

/// The line of a task, from the counts over a run. The levels are the plan's.
pub(crate) fn task_line(plan: &Plan, levels: &Levels<'_>, tallies: &Tallies, task: TaskId) -> Line
    requires plan { IsPlan plan.now }
    requires levels { levels.now ≡ plan.now }
    requires task { task.0 < length plan.now.tasks }
    requires told { (rows : List TraceRow) × HasTallied plan.now rows tallies.now }
    ensures { (rows : List TraceRow) → HasTallied plan.now rows tallies.now → result ≡ line_of plan.now rows task.0 }
{
    let jobs = plan.jobs(task);
    let mut line = Line {
        jobs,
        finished: 0,
        late: 0,
        worst_response: 0,
        spin: 0,
        worst_spin: 0,
        blocked: 0,
        worst_blocked: 0,
        spin_bound: spin_bound_of(plan, levels, task),
        blocked_bound: blocked_bound_of(plan, levels, task),
    };
    for k in 0..jobs {
        line = line.with_job(job_numbers(plan, tallies, JobId { task, k }));
    }
    line
}
