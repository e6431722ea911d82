//! How a plan uses each of its resources, found from its tasks.
ghost use Rattle.msrp_plan.specs.Common.{length, map, IfOk, All, range_with_len, greatest, top, most_cores, most_resources};
ghost use Rattle.std.specs.Prelude.{◌≡◌, ◌==◌, ◌<◌, ◌≤◌, ◌^◌, ◌&&◌, filter};
ghost use Rattle.msrp_levels.specs.Footprints.{footprint_of};
ghost use Rattle.msrp_levels.specs.Usage.{spin_among, with_user, AreUsages, IsUsage, IsShort};

use crate::footprints::Footprint;
use msrp_plan::{CoreId, Memory, Plan, ResId, TaskId};
use std::alloc::Global;

/// How the tasks of one core use the resource.
#[derive(Clone, Copy)]
pub(crate) struct CoreUse {
    /// Whether one of them uses it.
    pub(crate) used: bool,
    /// Their longest section on it; 0 if none uses it.
    pub(crate) section: u32,
}

impl CoreUse {
    // A core whose tasks don't use the resource.
    const NONE: CoreUse = CoreUse {
        used: false,
        section: 0,
    };

    // Adds a user on the core, with this longest section.
    fn add_user(&mut self, section: u32)
        ensures { self.new ≡ with_user section self.old }
    {
        self.used = true;
        self.section = self.section.max(section);
    }
}

/// How a plan uses one resource.
#[derive(Drop)]
pub(crate) struct Usage {
    pub(crate) users: Vec<TaskId>,
    /// The highest level of a user; 0 if there is none.
    pub(crate) ceiling: u32,
    /// By core.
    pub(crate) cores: Vec<CoreUse>,
    /// By core: the most spins of its jobs in one wait for the resource.
    pub(crate) spins: Vec<u32>,
}

// The highest level of the tasks of a core.
fn top_of(tasks: &[Footprint], core: CoreId) -> u32
    ensures { result ≡ greatest (map (λ f. f.level) (filter (λ f. f.core.0 == core.0) tasks.now)) }
{
    let mut highest = 0;
    for task in tasks {
        if task.core == core {
            highest = highest.max(task.level);
        }
    }
    highest
}

/// The highest level of the tasks of each core.
pub(crate) fn tops_of(alloc: Global, plan: &Plan, tasks: &[Footprint]) -> Result<Vec<u32>, Memory>
    requires { tasks.now ≡ map (footprint_of plan.now) plan.now.tasks }
    ensures { IfOk result (λ tops. tops.items ≡ map (top plan.now) (range_with_len 0 plan.now.cores)) }
{
    let mut tops = Vec::with_capacity(alloc, plan.cores() as usize)?;
    for c in 0..plan.cores() {
        tops.push_reserved(top_of(tasks, CoreId(c)));
    }
    Ok(tops)
}

// The most spins of a core's job in one wait: a handover and the longest section of each other user
// core.
fn spin_among(cores: &[CoreUse], core: CoreId) -> u32
    requires few { length cores.now ≤ most_cores }
    requires short { All IsShort cores.now }
    ensures { result ≡ spin_among cores.now core.0 }
{
    let mut spin = 0;
    for (d, other) in cores.iter().enumerate() {
        if d != core.0 as usize && other.used {
            spin += 1 + other.section;
        }
    }
    spin
}

// The most spins in one wait, by core.
fn spins_among(alloc: Global, cores: &[CoreUse]) -> Result<Vec<u32>, Memory>
    requires few { length cores.now ≤ most_cores }
    requires short { All IsShort cores.now }
    ensures { IfOk result (λ spins. spins.items ≡ map (spin_among cores.now) (range_with_len 0 (length cores.now))) }
{
    let mut spins = Vec::with_capacity(alloc, cores.len())?;
    for c in 0..cores.len() {
        spins.push_reserved(spin_among(cores, CoreId(c as u32)));
    }
    Ok(spins)
}

impl Usage {
    /// The use of one resource by these tasks.
    pub(crate) fn of(
        alloc: Global,
        plan: &Plan,
        tasks: &[Footprint],
        res: ResId,
    ) -> Result<Usage, Memory>
        requires tasks { tasks.now ≡ map (footprint_of plan.now) plan.now.tasks }
        requires res { res.0 < length plan.now.resources }
        ensures { IfOk result (IsUsage plan.now res.0) }
    {
        let mut users = Vec::with_capacity(alloc, tasks.len())?;
        let mut ceiling = 0;
        let mut cores = vec![in alloc; CoreUse::NONE; plan.cores() as usize]?;
        for (t, task) in tasks.iter().enumerate() {
            if task.locks(res) {
                users.push_reserved(TaskId(t as u32));
                ceiling = ceiling.max(task.level);
                cores[task.core.0 as usize].add_user(task.longest(res));
            }
        }
        let spins = spins_among(alloc, &cores)?;
        Ok(Usage {
            users,
            ceiling,
            cores,
            spins,
        })
    }
}

/// The use of each resource by its tasks.
pub(crate) fn usages_of(
    alloc: Global,
    plan: &Plan,
    tasks: &[Footprint],
) -> Result<Vec<Usage>, Memory>
    requires { tasks.now ≡ map (footprint_of plan.now) plan.now.tasks }
    ensures { IfOk result (λ usages. AreUsages plan.now (length plan.now.resources) usages.items) }
{
    let mut usages = Vec::with_capacity(alloc, plan.resources() as usize)?;
    for r in 0..plan.resources() {
        usages.push_reserved(Usage::of(alloc, plan, tasks, ResId(r))?);
    }
    Ok(usages)
}
