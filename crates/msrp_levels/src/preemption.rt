//! Preemption levels: 1 plus the number of distinct longer relative deadlines (Baker 1991).
ghost use Rattle.std.specs.Prelude.{◌≡◌, ◌≤◌, ◌+◌};
ghost use Rattle.msrp_plan.specs.Common.{nat_lt, count_by, length, map, vec_len, IfOk, TaskModel, level_of, most_tasks};

use msrp_plan::{Memory, Plan, TaskId};
use std::alloc::Global;

// The relative deadlines of the plan, each once.
fn distinct_deadlines(alloc: Global, plan: &Plan) -> Result<Vec<u32>, Memory>
    ensures levels { IfOk result (λ deadlines. (task : TaskModel) → count_by (nat_lt task.deadline) deadlines.items + 1 ≡ level_of plan.now task) }
    ensures few { IfOk result (λ deadlines. vec_len deadlines ≤ most_tasks) }
{
    let mut deadlines = Vec::with_capacity(alloc, plan.tasks() as usize)?;
    for t in (0..plan.tasks()).rev() {
        let deadline = plan.deadline(TaskId(t));
        if !deadlines.contains(&deadline) {
            deadlines.push_reserved(deadline);
        }
    }
    Ok(deadlines)
}

// One more than the number of deadlines longer than this one.
fn level_among(deadlines: &[u32], deadline: u32) -> u32
    requires { length deadlines.now ≤ most_tasks }
    ensures { result ≡ count_by (nat_lt deadline) deadlines.now + 1 }
{
    let mut level = 1;
    for other in deadlines {
        if deadline < *other {
            level += 1;
        }
    }
    level
}

/// The levels of the tasks, in their order.
pub(crate) fn levels_of(alloc: Global, plan: &Plan) -> Result<Vec<u32>, Memory>
    ensures { IfOk result (λ levels. levels.items ≡ map (level_of plan.now) plan.now.tasks) }
{
    let deadlines = distinct_deadlines(alloc, plan)?;
    let mut levels = Vec::with_capacity(alloc, plan.tasks() as usize)?;
    for t in 0..plan.tasks() {
        levels.push_reserved(level_among(&deadlines, plan.deadline(TaskId(t))));
    }
    Ok(levels)
}
