//! Stored tasks: a map by name in the order of declaration, so that an index is a task's number.
ghost use Rattle.std.specs.Prelude.{◌≡◌, ◌<◌, ◌+◌, ◌++◌, ◌∷◌, [], ◌^◌, ℕ, false, List, length, map, replicate, vec_len, OnOk, OnErr};
ghost use Rattle.msrp_plan.specs.Building.{with_more_ticks, with_more_units, with_newest};
ghost use Rattle.msrp_plan.specs.Names.{has_name};
ghost use Rattle.msrp_plan.specs.Inside.Tasks.{named_view, task_view};

use crate::ids::CoreId;
use crate::task_units::Units;
use crate::times::Releases;
use crate::units::Op;
use indexmap::IndexMap;
use std::alloc::{AllocError, Global};

// A stored task; its name is the key.
#[derive(Debug, Drop)]
pub(crate) struct Task {
    pub(crate) core: CoreId,
    pub(crate) releases: Releases,
    pub(crate) deadline: u32,
    pub(crate) units: Vec<Op>,
}

impl Task {
    // Lends its units for reading.
    pub(crate) fn lent_units(&self) -> Units<'_>
        ensures { result ≡ self.now.units.items }
    {
        Units::all(&self.units)
    }

    // Adds `count` units of one kind.
    pub(crate) fn add_units(&mut self, count: u32, unit: Op) -> Result<(), AllocError>
        ensures added { OnOk result ((name : List ℕ) → named_view name self.new ≡ with_more_units (replicate count unit) (named_view name self.old)) }
        ensures kept { OnErr result ((name : List ℕ) → named_view name self.new ≡ named_view name self.old) }
    {
        let size = self.units.len() + count as usize;
        self.units.resize(size, unit)
    }

    // Adds a release.
    pub(crate) fn add_release(&mut self, tick: u32) -> Result<(), AllocError>
        ensures added { OnOk result ((name : List ℕ) → named_view name self.new ≡ with_more_ticks tick (named_view name self.old)) }
        ensures kept { OnErr result ((name : List ℕ) → named_view name self.new ≡ named_view name self.old) }
    {
        self.releases.push(tick)
    }
}

// Appends a task of a new name.
pub(crate) fn add_task(
    alloc: Global,
    tasks: &mut IndexMap<String, Task>,
    name: &str,
    task: Task,
) -> Result<(), AllocError>
    requires { has_name (map (λ other. other.name) (map task_view tasks.old.entries)) name.now ≡ false }
    ensures added { OnOk result (map task_view tasks.new.entries ≡ map task_view tasks.old.entries ++ named_view name.now task ∷ []) }
    ensures kept { OnErr result (map task_view tasks.new.entries ≡ map task_view tasks.old.entries) }
{
    let name = String::from_str(alloc, name)?;
    tasks.insert(name, task)?;
    Ok(())
}

// Adds units of one kind to the newest task.
pub(crate) fn add_units(
    tasks: &mut IndexMap<String, Task>,
    count: u32,
    unit: Op,
) -> Result<(), AllocError>
    requires some { 0 < length tasks.old.entries }
    ensures added { OnOk result (map task_view tasks.new.entries ≡ with_newest (with_more_units (replicate count unit)) (map task_view tasks.old.entries)) }
    ensures kept { OnErr result (map task_view tasks.new.entries ≡ map task_view tasks.old.entries) }
{
    let last = tasks.len() - 1;
    let newest = &mut tasks[last];
    newest.add_units(count, unit)
}

// Adds a release to the newest task.
pub(crate) fn add_release(tasks: &mut IndexMap<String, Task>, tick: u32) -> Result<(), AllocError>
    requires { 0 < length tasks.old.entries }
    ensures added { OnOk result (map task_view tasks.new.entries ≡ with_newest (with_more_ticks tick) (map task_view tasks.old.entries)) }
    ensures kept { OnErr result (map task_view tasks.new.entries ≡ map task_view tasks.old.entries) }
{
    let last = tasks.len() - 1;
    let newest = &mut tasks[last];
    newest.add_release(tick)
}
