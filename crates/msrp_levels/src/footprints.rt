//! What each task does with each resource, found in one pass over its units from the last one back.
ghost use Rattle.std.specs.Prelude.{◌≡◌, ◌<◌, ◌+◌, ◌^◌};
ghost use Rattle.msrp_plan.specs.Common.{length, map, IfOk, task_at, level_of, IsPlan, most_resources};
ghost use Rattle.msrp_levels.specs.Footprints.{with_lock, with_unlock, CanPass, passed, uses_of, footprint_of, locks_in, longest_in};

use msrp_plan::limits::MOST_RESOURCES;
use msrp_plan::{CoreId, Memory, Op, Plan, ResId, TaskId};
use std::alloc::Global;

/// What a task does with one resource.
#[derive(Clone, Copy)]
pub(crate) struct Use {
    /// Whether it locks the resource.
    pub(crate) locked: bool,
    /// Its longest section on the resource, in units after the lock up to and with the unlock.
    pub(crate) longest: u32,
    /// The index after the next unlock of the resource, in the backward pass.
    pub(crate) past_unlock: u32,
}

impl Use {
    // Adds a lock of the resource at this index in front: a section begins.
    fn with_lock(self, place: u32) -> Use
        requires { place < self.past_unlock }
        ensures { result ≡ with_lock place self }
    {
        Use {
            locked: true,
            longest: self.longest.max(self.past_unlock - (place + 1)),
            ..self
        }
    }

    // Adds an unlock of the resource at this index in front: a section ends.
    fn with_unlock(self, place: u32) -> Use
        requires { place + 1 < 2 ^ 32 }
        ensures { result ≡ with_unlock place self }
    {
        Use {
            past_unlock: place + 1,
            ..self
        }
    }
}

/// What a task does with the resources.
#[derive(Clone, Copy)]
pub(crate) struct Footprint {
    pub(crate) core: CoreId,
    pub(crate) level: u32,
    pub(crate) uses: [Use; MOST_RESOURCES],
}

impl Footprint {
    /// Whether the task uses a resource.
    pub(crate) fn locks(&self, res: ResId) -> bool
        requires { res.0 < most_resources }
        ensures { result ≡ locks_in res.0 self.now }
    {
        self.uses[res.0 as usize].locked
    }

    /// The task's longest section on a resource.
    pub(crate) fn longest(&self, res: ResId) -> u32
        requires { res.0 < most_resources }
        ensures { result ≡ longest_in res.0 self.now }
    {
        self.uses[res.0 as usize].longest
    }
}

// Adds the unit at this index in front.
fn pass(uses: &mut [Use; MOST_RESOURCES], place: u32, unit: Op)
    requires { CanPass place unit uses.old }
    ensures { uses.new ≡ passed place unit uses.old }
{
    match unit {
        Op::Run => {}
        Op::Lock(res) => uses[res.0 as usize] = uses[res.0 as usize].with_lock(place),
        Op::Unlock(res) => uses[res.0 as usize] = uses[res.0 as usize].with_unlock(place),
    }
}

fn uses_of(plan: &Plan, task: TaskId) -> [Use; MOST_RESOURCES]
    requires plan { IsPlan plan.now }
    requires task { task.0 < length plan.now.tasks }
    ensures { result ≡ uses_of (task_at plan.now task.0).units }
{
    let units = plan.units(task);
    let mut uses = [Use {
        locked: false,
        longest: 0,
        past_unlock: units,
    }; MOST_RESOURCES];
    for place in (0..units).rev() {
        pass(&mut uses, place, plan.unit(task, place));
    }
    uses
}

/// What each task of a plan does with the resources, with its level.
pub(crate) fn footprints_of(
    alloc: Global,
    plan: &Plan,
    levels: &[u32],
) -> Result<Vec<Footprint>, Memory>
    requires { levels.now ≡ map (level_of plan.now) plan.now.tasks }
    ensures { IfOk result (λ footprints. footprints.items ≡ map (footprint_of plan.now) plan.now.tasks) }
{
    let mut footprints = Vec::with_capacity(alloc, plan.tasks() as usize)?;
    for t in 0..plan.tasks() {
        footprints.push_reserved(Footprint {
            core: plan.core_of(TaskId(t)),
            level: levels[t as usize],
            uses: uses_of(plan, TaskId(t)),
        });
    }
    Ok(footprints)
}
