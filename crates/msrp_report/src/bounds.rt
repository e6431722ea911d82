//! The bounds of one task: the most spins in one wait, and the most rows that block a job.
ghost use Rattle.std.specs.Prelude.{◌≡◌, ◌<◌, ◌&&◌, ◌==◌};
ghost use Rattle.msrp_plan.specs.Common.{cond, nat_lt, length, list_any, task_at, uses, is_global, out, spin_bound, blocked_bound, IsPlan};
ghost use Rattle.msrp_report.specs.Lines.{task_spin_bound};

use msrp_levels::Levels;
use msrp_plan::{CoreId, Plan, ResId, TaskId};

fn is_among(users: &[TaskId], task: TaskId) -> bool
    ensures { result ≡ list_any (λ u. u.0 == task.0) users.now }
{
    users.iter().any(|user| *user == task)
}

fn locks(levels: &Levels<'_>, task: TaskId, res: ResId) -> bool
    requires task { task.0 < length levels.now.tasks }
    requires res { res.0 < length levels.now.resources }
    ensures { result ≡ uses res.0 (task_at levels.now task.0) }
{
    is_among(levels.users(res), task)
}

// The most spins of a task's job in one wait for a resource; 0 if it has no such global lock.
fn wait_of(levels: &Levels<'_>, task: TaskId, core: CoreId, res: ResId) -> u32
    requires task { task.0 < length levels.now.tasks }
    requires core { core.0 < levels.now.cores }
    requires res { res.0 < length levels.now.resources }
    ensures { result ≡ cond (uses res.0 (task_at levels.now task.0) && is_global levels.now res.0) (spin_bound levels.now res.0 core.0) 0 }
{
    if locks(levels, task, res) && levels.is_global(res) {
        levels.spin_bound(res, core)
    } else {
        0
    }
}

/// The most spins of a task's job in one wait.
pub(crate) fn spin_bound_of(plan: &Plan, levels: &Levels<'_>, task: TaskId) -> u32
    requires plan { IsPlan plan.now }
    requires levels { levels.now ≡ plan.now }
    requires task { task.0 < length plan.now.tasks }
    ensures { result ≡ task_spin_bound plan.now (task_at plan.now task.0) }
{
    let core = plan.core_of(task);
    let mut bound = 0u32;
    for res in 0..plan.resources() {
        bound = bound.max(wait_of(levels, task, core, ResId(res)));
    }
    bound
}

// The most rows of a job of the other task that block a job of the task; 0 if the other isn't of
// its core, or its relative deadline isn't longer.
fn section_of(plan: &Plan, levels: &Levels<'_>, task: TaskId, other: TaskId) -> u32
    requires levels { levels.now ≡ plan.now }
    requires task { task.0 < length plan.now.tasks }
    requires other { other.0 < length plan.now.tasks }
    ensures { result ≡ cond (((task_at plan.now other.0).core == (task_at plan.now task.0).core) && nat_lt (task_at plan.now task.0).deadline (task_at plan.now other.0).deadline) (out plan.now (task_at plan.now other.0)) 0 }
{
    if plan.core_of(other) == plan.core_of(task) && plan.deadline(task) < plan.deadline(other) {
        levels.out(other)
    } else {
        0
    }
}

/// The most rows that block a job of a task.
pub(crate) fn blocked_bound_of(plan: &Plan, levels: &Levels<'_>, task: TaskId) -> u32
    requires plan { IsPlan plan.now }
    requires levels { levels.now ≡ plan.now }
    requires task { task.0 < length plan.now.tasks }
    ensures { result ≡ blocked_bound plan.now (task_at plan.now task.0) }
{
    let mut bound = 0u32;
    for other in 0..plan.tasks() {
        bound = bound.max(section_of(plan, levels, task, TaskId(other)));
    }
    bound
}
