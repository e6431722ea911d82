//! The tables of a system: levels of tasks, highest levels of cores, ceilings of resources, and
//! which are global.
ghost use Rattle.std.specs.Prelude.{◌≡◌, ◌≤◌, ◌<◌, ◌+◌, ◌==◌, ◌&&◌};
ghost use Rattle.msrp_plan.specs.Common.{nat_lt, count_by, length, map, range_with_len, vec_len, IfOk, TaskModel, level_of, uses, top, local_ceiling, is_global};
ghost use Rattle.msrp_system.specs.Systems.{most_tasks};
ghost use Rattle.msrp_system.specs.Inside.Views.{used_elsewhere};

use crate::parts::Parts;
use msrp_plan::{CoreId, Memory, ResId, TaskId};
use std::alloc::Global;

// The relative deadlines of the tasks, each once.
fn distinct_deadlines(alloc: Global, parts: &Parts) -> Result<Vec<u64>, Memory>
    ensures levels { IfOk result (λ deadlines. (task : TaskModel) → count_by (nat_lt task.deadline) deadlines.items + 1 ≡ level_of parts.now task) }
    ensures few { IfOk result (λ deadlines. vec_len deadlines ≤ most_tasks) }
{
    let mut deadlines = Vec::with_capacity(alloc, parts.tasks() as usize)?;
    for t in (0..parts.tasks()).rev() {
        let deadline = parts.deadline(TaskId(t));
        if !deadlines.contains(&deadline) {
            deadlines.push_reserved(deadline);
        }
    }
    Ok(deadlines)
}

// One more than how many of the deadlines are longer than this one.
fn level_among(deadlines: &[u64], deadline: u64) -> u32
    requires { length deadlines.now ≤ most_tasks }
    ensures { result ≡ count_by (nat_lt deadline) deadlines.now + 1 }
{
    let mut level = 1;
    for other in deadlines {
        if deadline < *other {
            level += 1;
        }
    }
    level
}

/// The levels of the tasks, in their order.
pub(crate) fn levels_of(alloc: Global, parts: &Parts) -> Result<Vec<u32>, Memory>
    ensures { IfOk result (λ levels. levels.items ≡ map (level_of parts.now) parts.now.tasks) }
{
    let deadlines = distinct_deadlines(alloc, parts)?;
    let mut levels = Vec::with_capacity(alloc, parts.tasks() as usize)?;
    for t in 0..parts.tasks() {
        levels.push_reserved(level_among(&deadlines, parts.deadline(TaskId(t))));
    }
    Ok(levels)
}

// The highest level of a core's tasks, 0 if it has none.
fn top_of(parts: &Parts, levels: &[u32], core: CoreId) -> u32
    requires { levels.now ≡ map (level_of parts.now) parts.now.tasks }
    ensures { result ≡ top parts.now core.0 }
{
    let mut highest = 0;
    for t in 0..parts.tasks() {
        if parts.core_of(TaskId(t)).0 == core.0 {
            highest = levels[t as usize].max(highest);
        }
    }
    highest
}

// The highest level of the tasks that lock a resource, 0 if none does.
fn ceiling_of(parts: &Parts, levels: &[u32], res: ResId) -> u32
    requires { levels.now ≡ map (level_of parts.now) parts.now.tasks }
    ensures { result ≡ local_ceiling parts.now res.0 }
{
    let mut highest = 0;
    for t in 0..parts.tasks() {
        if parts.uses(TaskId(t), res) {
            highest = levels[t as usize].max(highest);
        }
    }
    highest
}

// Whether a task of another core locks a resource.
fn is_used_elsewhere(parts: &Parts, res: ResId, core: CoreId) -> bool
    ensures { result ≡ used_elsewhere res.0 core.0 parts.now.tasks }
{
    for t in 0..parts.tasks() {
        if parts.uses(TaskId(t), res) && parts.core_of(TaskId(t)).0 != core.0 {
            return true;
        }
    }
    false
}

// Whether tasks of two cores lock a resource.
pub(crate) fn is_global(parts: &Parts, res: ResId) -> bool
    ensures { result ≡ is_global parts.now res.0 }
{
    for t in 0..parts.tasks() {
        if parts.uses(TaskId(t), res) && is_used_elsewhere(parts, res, parts.core_of(TaskId(t))) {
            return true;
        }
    }
    false
}

/// The highest level of each core's tasks.
pub(crate) fn tops_of(alloc: Global, parts: &Parts, levels: &[u32]) -> Result<Vec<u32>, Memory>
    requires { levels.now ≡ map (level_of parts.now) parts.now.tasks }
    ensures { IfOk result (λ tops. tops.items ≡ map (top parts.now) (range_with_len 0 parts.now.cores)) }
{
    let mut tops = Vec::with_capacity(alloc, parts.cores() as usize)?;
    for c in 0..parts.cores() {
        tops.push_reserved(top_of(parts, levels, CoreId(c)));
    }
    Ok(tops)
}

/// The highest level of each resource's users.
pub(crate) fn ceilings_of(alloc: Global, parts: &Parts, levels: &[u32]) -> Result<Vec<u32>, Memory>
    requires { levels.now ≡ map (level_of parts.now) parts.now.tasks }
    ensures { IfOk result (λ ceilings. ceilings.items ≡ map (local_ceiling parts.now) (range_with_len 0 (length parts.now.resources))) }
{
    let mut ceilings = Vec::with_capacity(alloc, parts.resources() as usize)?;
    for r in 0..parts.resources() {
        ceilings.push_reserved(ceiling_of(parts, levels, ResId(r)));
    }
    Ok(ceilings)
}

/// Of each resource, whether it is global.
pub(crate) fn globals_of(alloc: Global, parts: &Parts) -> Result<Vec<bool>, Memory>
    ensures { IfOk result (λ globals. globals.items ≡ map (is_global parts.now) (range_with_len 0 (length parts.now.resources))) }
{
    let mut globals = Vec::with_capacity(alloc, parts.resources() as usize)?;
    for r in 0..parts.resources() {
        globals.push_reserved(is_global(parts, ResId(r)));
    }
    Ok(globals)
}
