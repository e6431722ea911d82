//! Accepted plans. Only a builder makes one, so each is well formed (`IsPlan`). Tasks and resources
//! are numbered from 0 in the order of declaration.
ghost use Rattle.std.specs.Prelude.{◌≡◌, ◌<◌, ◌≤◌, ◌+◌, ◌*◌, ◌^◌, ℕ, length, map, IsSome, IsSomeAnd, Some, slice_get};
ghost use Rattle.std.specs.List.{range_with_len};
ghost use Rattle.std.specs.Option.{option_map};
ghost use Rattle.msrp_plan.specs.Plan.{task_at, release, release_tick, key};
ghost use Rattle.msrp_plan.specs.Jobs.{job_at, jobs_of, jobs_on};
ghost use Rattle.msrp_plan.specs.Levels.{is_global};
ghost use Rattle.msrp_plan.specs.Limits.{longest_time};
ghost use Rattle.msrp_plan.specs.Names.{name_position};
ghost use Rattle.msrp_plan.specs.Times.{HasRelease, times_told};
ghost use Rattle.msrp_plan.specs.WellFormed.{IsPlan, IsTask};

use crate::ids::{CoreId, JobId, JobKey, ResId, TaskId};
use crate::limits::MOST_RESOURCES;
use crate::parts::Parts;
use crate::task_units::Units;
use crate::tasks::Task;
use crate::times::Times;
use crate::units::Op;
use std::marker::Model;

/// An accepted plan: recurring tasks, partitioned over cores, and the resources that they lock.
#[derive(Debug, Drop)]
pub struct Plan {
    pub(crate) parts: Parts,
    pub(crate) globals: [bool; MOST_RESOURCES],
}

impl Model for Plan {
    ghost use Rattle.msrp_plan.specs.Plan.{PlanModel};

    ghost Value = { PlanModel };

    ghost use Rattle.msrp_plan.specs.Inside.Views.{plan_view, IsPlanView};

    ghost view = { plan_view };

    ghost invariant = { IsPlanView };
}

impl Plan {
    ghost use Rattle.msrp_plan.specs.Inside.Tasks.{task_view};

    /// The number of cores.
    pub fn cores(&self) -> u32
        ensures value { result ≡ self.now.cores }
        ensures plan { IsPlan self.now }
    {
        self.parts.cores
    }

    /// The number of ticks.
    pub fn ticks(&self) -> u32
        ensures value { result ≡ self.now.ticks }
        ensures plan { IsPlan self.now }
    {
        self.parts.ticks
    }

    /// The number of tasks.
    pub fn tasks(&self) -> u32
        ensures value { result ≡ length self.now.tasks }
        ensures plan { IsPlan self.now }
    {
        self.parts.tasks.len() as u32
    }

    /// The number of resources.
    pub fn resources(&self) -> u32
        ensures value { result ≡ length self.now.resources }
        ensures plan { IsPlan self.now }
    {
        self.parts.resources.len() as u32
    }

    fn named_task(&self, task: TaskId) -> (&String, &Task)
        requires { task.0 < length self.now.tasks }
        ensures stored { task_view (result.0.now, result.1.now) ≡ task_at self.now task.0 }
        ensures numbers { IsTask self.now (task_at self.now task.0) }
    {
        let number = task.0 as usize;
        let name = &self.parts.tasks.keys().as_slice()[number];
        (name, &self.parts.tasks[number])
    }

    /// The name of a task.
    pub fn task_name(&self, task: TaskId) -> &str
        requires { task.0 < length self.now.tasks }
        ensures { result.now ≡ (task_at self.now task.0).name }
    {
        self.named_task(task).0.as_str()
    }

    /// The name of a resource.
    pub fn res_name(&self, res: ResId) -> &str
        requires { res.0 < length self.now.resources }
        ensures { slice_get self.now.resources res.0 ≡ Some result.now }
    {
        self.parts.resources[res.0 as usize].as_str()
    }

    /// The task of a name.
    pub fn task_of(&self, name: &str) -> Option<TaskId>
        ensures { option_map (λ task. task.0) result ≡ name_position (map (λ task. task.name) self.now.tasks) name.now }
    {
        match self.parts.tasks.get_index_of(name) {
            Some(number) => Some(TaskId(number as u32)),
            None => None,
        }
    }

    /// The resource of a name.
    pub fn res_of(&self, name: &str) -> Option<ResId>
        ensures { option_map (λ res. res.0) result ≡ name_position self.now.resources name.now }
    {
        self.parts.res_of(name)
    }

    /// Whether tasks of at least two cores use the resource (POLICY rule 4).
    pub fn is_global(&self, res: ResId) -> bool
        requires { res.0 < length self.now.resources }
        ensures { result ≡ is_global self.now res.0 }
    {
        self.globals[res.0 as usize]
    }

    /// The core that a task belongs to.
    pub fn core_of(&self, task: TaskId) -> CoreId
        requires { task.0 < length self.now.tasks }
        ensures { result.0 ≡ (task_at self.now task.0).core }
    {
        self.named_task(task).1.core
    }

    /// When the jobs of a task are released.
    pub fn times(&self, task: TaskId) -> Times
        requires { task.0 < length self.now.tasks }
        ensures times { result ≡ times_told (task_at self.now task.0).times }
        ensures released { (k : ℕ) → HasRelease result k → IsSome (release_tick self.now (job_at task.0 k)) }
    {
        self.named_task(task).1.releases.times()
    }

    /// The relative deadline of a task, in ticks from each job's release.
    pub fn deadline(&self, task: TaskId) -> u32
        requires { task.0 < length self.now.tasks }
        ensures { result ≡ (task_at self.now task.0).deadline }
    {
        self.named_task(task).1.deadline
    }

    /// The number of units of a task.
    pub fn units(&self, task: TaskId) -> u32
        requires { task.0 < length self.now.tasks }
        ensures { result ≡ length (task_at self.now task.0).units }
    {
        self.named_task(task).1.units.len() as u32
    }

    /// The units of a task, for reading several of them.
    pub fn units_of(&self, task: TaskId) -> Units<'_>
        requires { task.0 < length self.now.tasks }
        ensures { result ≡ (task_at self.now task.0).units }
    {
        self.named_task(task).1.lent_units()
    }

    /// A unit of a task, by its index from 0.
    pub fn unit(&self, task: TaskId, place: u32) -> Op
        requires task { task.0 < length self.now.tasks }
        requires place { place < length (task_at self.now task.0).units }
        ensures { slice_get (task_at self.now task.0).units place ≡ Some result }
    {
        self.units_of(task).unit(place as usize)
    }

    /// The number of jobs of a task: its releases before the plan's end. Jobs are numbered below
    /// it.
    pub fn jobs(&self, task: TaskId) -> u32
        requires { task.0 < length self.now.tasks }
        ensures count { result ≡ length (jobs_of self.now task.0) }
        ensures numbered { jobs_of self.now task.0 ≡ map (job_at task.0) (range_with_len 0 result) }
        ensures released { (k : ℕ) → k < result → IsSomeAnd (release_tick self.now (job_at task.0 k)) (λ tick. tick < self.now.ticks) }
    {
        self.named_task(task)
            .1
            .releases
            .count_before(self.parts.ticks)
    }

    /// The number of jobs of a core's tasks.
    pub fn jobs_on(&self, core: CoreId) -> usize
        ensures count { result ≡ length (jobs_on self.now core.0) }
        ensures plan { IsPlan self.now }
    {
        let mut jobs = 0;
        for t in 0..self.tasks() {
            if self.core_of(TaskId(t)) == core {
                jobs += self.jobs(TaskId(t)) as usize;
            }
        }
        jobs
    }

    /// The tick in which a job is released: any `k` of a periodic task, and each `k` below the
    /// list's length of a listed one. Releases after the plan's end are included, but release no
    /// job.
    pub fn release(&self, job: JobId) -> u64
        requires task { job.task.0 < length self.now.tasks }
        requires released { IsSome (release_tick self.now job) }
        ensures value { result ≡ release self.now job }
        ensures bound { result ≤ longest_time * 2 ^ 32 }
    {
        self.named_task(job.task).1.releases.tick(job.k)
    }

    /// What the jobs of a core are ordered by, for every `k` that [`Plan::release`] accepts.
    pub fn job_key(&self, job: JobId) -> JobKey
        requires task { job.task.0 < length self.now.tasks }
        requires released { IsSome (release_tick self.now job) }
        ensures { result ≡ key self.now job }
    {
        let release = self.release(job);
        JobKey {
            deadline: release + u64::from(self.deadline(job.task)),
            release,
            task: job.task.0,
            k: job.k,
        }
    }
}
