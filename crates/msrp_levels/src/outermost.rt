//! The most rows of a job in one outermost section.
ghost use Rattle.std.specs.Prelude.{◌≡◌, ◌<◌, ◌≤◌};
ghost use Rattle.msrp_plan.specs.Common.{length, map, Some, IfOk, task_at, out, IsPlan};
ghost use Rattle.msrp_plan.specs.Bounds.{wait_bound};
ghost use Rattle.msrp_levels.specs.Outermost.{held_with_unit, CanFollow, IsLockBelow};
ghost use Rattle.msrp_levels.specs.Usage.{AreUsages};

use crate::usage::Usage;
use msrp_plan::{CoreId, Memory, Op, Plan, TaskId};
use std::alloc::Global;

// The most rows that a job of a core waits at a unit: at a request of a global resource, one to
// queue and the most spins.
fn wait_of(plan: &Plan, usages: &[Usage], core: CoreId, unit: Op) -> u32
    requires plan { IsPlan plan.now }
    requires usages { AreUsages plan.now (length plan.now.resources) usages.now }
    requires core { core.0 < plan.now.cores }
    requires known { IsLockBelow (length plan.now.resources) unit }
    ensures value { result ≡ wait_bound plan.now core.0 (Some unit) }
    ensures small { result ≤ 32777 }
{
    match unit {
        Op::Run | Op::Unlock(_) => 0,
        Op::Lock(res) => if plan.is_global(res) {
            1 + usages[res.0 as usize].spins[core.0 as usize]
        } else {
            0
        },
    }
}

// The number of held resources after one more unit.
fn held_with(held: u32, unit: Op) -> u32
    requires { CanFollow held unit }
    ensures { result ≡ held_with_unit held unit }
{
    match unit {
        Op::Run => held,
        Op::Lock(_) => held + 1,
        Op::Unlock(_) => held - 1,
    }
}

// The most rows of a task's longest outermost section after its first row.
fn out_of(plan: &Plan, usages: &[Usage], task: TaskId) -> u32
    requires plan { IsPlan plan.now }
    requires usages { AreUsages plan.now (length plan.now.resources) usages.now }
    requires task { task.0 < length plan.now.tasks }
    ensures { result ≡ out plan.now (task_at plan.now task.0) }
{
    let core = plan.core_of(task);
    let mut held = 0;
    let mut rows = 0;
    // The index of the last lock or unlock.
    let mut last = 0;
    let mut longest = 0u32;
    for place in 0..plan.units(task) {
        let unit = plan.unit(task, place);
        // Work in an open section is counted by the section's next lock or unlock.
        if unit == Op::Run {
            continue;
        }
        // The rows of the outermost section so far; 0 outside of sections, where one may begin.
        rows = if held == 0 { 0 } else { rows + (place - last) }
            + wait_of(plan, usages, core, unit);
        longest = longest.max(rows);
        held = held_with(held, unit);
        last = place;
    }
    longest
}

/// For each task the most rows of its longest outermost section after its first row.
pub(crate) fn outs_of(alloc: Global, plan: &Plan, usages: &[Usage]) -> Result<Vec<u32>, Memory>
    requires { AreUsages plan.now (length plan.now.resources) usages.now }
    ensures { IfOk result (λ outs. outs.items ≡ map (out plan.now) plan.now.tasks) }
{
    let mut outs = Vec::with_capacity(alloc, plan.tasks() as usize)?;
    for t in 0..plan.tasks() {
        outs.push_reserved(out_of(plan, usages, TaskId(t)));
    }
    Ok(outs)
}
