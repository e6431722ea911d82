//! The levels, ceilings and bounds of a plan, ready to be looked up.
ghost use Rattle.std.specs.Prelude.{◌≡◌, ◌<◌};
ghost use Rattle.msrp_plan.specs.Common.{length, map, IfOk, task_at, level, is_global, top, section, spin_bound, out};
ghost use Rattle.msrp_levels.specs.Usage.{IsUsage};
ghost use Rattle.msrp_levels.specs.Users.{users, ceiling_at};

use crate::footprints::footprints_of;
use crate::outermost::outs_of;
use crate::preemption::levels_of;
use crate::usage::{Usage, tops_of, usages_of};
use msrp_plan::{CoreId, Memory, Plan, ResId, TaskId};
use std::alloc::Global;
use std::marker::Model;

/// The preemption levels and ceilings of a plan, its global resources, and its bounds.
///
/// [`Levels::of`] computes all of them once, in two passes over each task's units. A reader looks
/// up a stored number of one of the plan's tasks, resources or cores.
#[derive(Drop)]
pub struct Levels<'a> {
    plan: &'a Plan,
    // By resource.
    usages: Vec<Usage>,
    // By task.
    levels: Vec<u32>,
    // By core.
    tops: Vec<u32>,
    // By task.
    outs: Vec<u32>,
}

impl<'a> Model for Levels<'a> {
    ghost use Rattle.msrp_plan.specs.Plan.{PlanModel};

    ghost Value = { PlanModel };

    ghost use Rattle.msrp_levels.specs.LevelsView.{levels_view, AreLevels};

    ghost view = { levels_view };

    ghost invariant = { AreLevels };
}

impl<'a> Levels<'a> {
    /// The levels and ceilings of a plan; [`Memory`] only if memory runs out.
    pub fn of(alloc: Global, plan: &'a Plan) -> Result<Levels<'a>, Memory>
        ensures { IfOk result (λ levels. levels ≡ plan.now) }
    {
        let levels = levels_of(alloc, plan)?;
        let tasks = footprints_of(alloc, plan, &levels)?;
        let tops = tops_of(alloc, plan, &tasks)?;
        let usages = usages_of(alloc, plan, &tasks)?;
        let outs = outs_of(alloc, plan, &usages)?;
        Ok(Levels {
            plan,
            usages,
            levels,
            tops,
            outs,
        })
    }

    fn usage(&self, res: ResId) -> &Usage
        requires { res.0 < length self.now.resources }
        ensures { IsUsage self.now res.0 result.now }
    {
        &self.usages[res.0 as usize]
    }

    /// The preemption level of a task: 1 plus the number of distinct longer relative deadlines in
    /// the plan (Baker 1991; POLICY rule 5).
    pub fn level(&self, task: TaskId) -> u32
        requires { task.0 < length self.now.tasks }
        ensures { result ≡ level self.now task.0 }
    {
        self.levels[task.0 as usize]
    }

    /// The highest level of a core's tasks, 0 if it has none.
    pub fn top(&self, core: CoreId) -> u32
        requires { core.0 < self.now.cores }
        ensures { result ≡ top self.now core.0 }
    {
        self.tops[core.0 as usize]
    }

    /// Whether tasks of at least two cores use a resource (POLICY rule 4).
    pub fn is_global(&self, res: ResId) -> bool
        requires { res.0 < length self.now.resources }
        ensures { result ≡ is_global self.now res.0 }
    {
        self.plan.is_global(res)
    }

    /// The ceiling of a resource at a core: for a local one the highest level of its users, or 0
    /// (Baker 1991); for a global one the core's highest level (Gai, Lipari and Di Natale 2001).
    pub fn ceiling(&self, res: ResId, core: CoreId) -> u32
        requires res { res.0 < length self.now.resources }
        requires core { core.0 < self.now.cores }
        ensures { result ≡ ceiling_at self.now res.0 core.0 }
    {
        if self.is_global(res) {
            self.top(core)
        } else {
            self.usage(res).ceiling
        }
    }

    /// The tasks that use a resource, in rising order.
    pub fn users(&self, res: ResId) -> &[TaskId]
        requires { res.0 < length self.now.resources }
        ensures { map (λ task. task.0) result.now ≡ users self.now res.0 }
    {
        &self.usage(res).users
    }

    /// The longest section on a resource of a core's tasks, in units from after the lock to the
    /// unlock; 0 if none of them uses it.
    pub fn section(&self, res: ResId, core: CoreId) -> u32
        requires res { res.0 < length self.now.resources }
        requires core { core.0 < self.now.cores }
        ensures { result ≡ section self.now res.0 core.0 }
    {
        self.usage(res).cores[core.0 as usize].section
    }

    /// The most spins of a job of a core in one wait for a resource: for each other core that uses
    /// it, one handover and its longest section (this project's own bound).
    pub fn spin_bound(&self, res: ResId, core: CoreId) -> u32
        requires res { res.0 < length self.now.resources }
        requires core { core.0 < self.now.cores }
        ensures { result ≡ spin_bound self.now res.0 core.0 }
    {
        self.usage(res).spins[core.0 as usize]
    }

    /// The most rows of a job of a task in one outermost section after its first row: its units
    /// from after the lock to the unlock and, for each request of a global resource, one row to
    /// queue and the most spins; 0 if the task locks nothing (this project's own bound).
    pub fn out(&self, task: TaskId) -> u32
        requires { task.0 < length self.now.tasks }
        ensures { result ≡ out self.now (task_at self.now task.0) }
    {
        self.outs[task.0 as usize]
    }
}
