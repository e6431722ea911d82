//! A plan built call by call. A call that would violate a rule is refused with the first code that
//! applies and changes nothing; what `finish` returns is well formed.
ghost use Rattle.std.specs.Prelude.{◌≡◌, ◌<◌, ◌≤◌, ◌^◌, ◌&&◌, true, ℕ, [], length, map, replicate, IfOk, OnOk, OnErr};
ghost use Rattle.std.specs.Option.{option_map};
ghost use Rattle.std.specs.List.{list_any};
ghost use Rattle.msrp_plan.specs.Plan.{task_at};
ghost use Rattle.msrp_plan.specs.Jobs.{jobs, jobs_of};
ghost use Rattle.msrp_plan.specs.Inside.Marks.{AreGlobals, holds_one_after, is_marked, locks_one};
ghost use Rattle.msrp_plan.specs.Limits.{most_ticks};
ghost use Rattle.msrp_plan.specs.Names.{has_name, name_position};
ghost use Rattle.msrp_plan.specs.Building.{AreNew, IsJudged, judged, finished, empty_plan, new_task, new_fault, resource_fault, task_fault, tick_fault, release_fault, op_fault, end_fault, finish_fault, are_in_range, is_above, is_undeclared, is_misnested, is_too_much, nests_global, newest_task, newest_units, takes_releases, with_release, with_resource, with_task, with_units, units_of};
ghost use Rattle.msrp_plan.specs.ReleaseTimes.{Every, Listed, lacks_release, listed_ticks};
ghost use Rattle.msrp_plan.specs.Inside.Tasks.{named_view, times_view};

use crate::faults::PlanFault;
use crate::ids::{CoreId, ResId, TaskId};
use crate::limits::{
    LONGEST_TIME, MOST_CORES, MOST_HELD, MOST_JOBS, MOST_RELEASES, MOST_RESOURCES, MOST_TASKS,
    MOST_TICKS, MOST_UNITS,
};
use crate::names::is_name;
use crate::parts::Parts;
use crate::plans::Plan;
use crate::tasks::{Task, add_release, add_task, add_units};
use crate::times::Releases;
use crate::units::{Op, Step};
use crate::users::users_of;
use indexmap::{IndexMap, IndexSet};
use std::alloc::{AllocError, Global};
use std::collections::VecDeque;
use std::marker::Model;

/// A plan under construction. Resources and tasks are numbered in the order of their calls;
/// releases and units go to the newest task. A refused call changes nothing.
#[derive(Debug, Drop)]
pub struct PlanBuilder {
    alloc: Global,
    parts: Parts,
    // The resources that the newest task holds, the innermost first.
    held: VecDeque<ResId>,
}

impl Model for PlanBuilder {
    ghost use Rattle.msrp_plan.specs.Plan.{PlanModel};

    ghost Value = { PlanModel };

    ghost use Rattle.msrp_plan.specs.Inside.Views.{draft_view, IsBuilding};

    ghost view = { draft_view };

    ghost invariant = { IsBuilding };
}

impl PlanBuilder {
    ghost use Rattle.msrp_plan.specs.declared.units.Step.TheVariants.{Run, Lock, Unlock};

    /// A plan with no resource and no task yet. Refused as [`PlanFault::Limit`] unless it has 1 to
    /// 8 cores and 1 to 20,000 ticks. Nothing is allocated.
    pub fn new(alloc: Global, cores: u32, ticks: u32) -> Result<PlanBuilder, PlanFault>
        ensures { result ≡ judged (new_fault cores ticks) (empty_plan cores ticks) }
    {
        if let Some(fault) = new_fault(cores, ticks) {
            return Err(fault);
        }
        let parts = Parts {
            cores,
            ticks,
            resources: IndexSet::new(alloc),
            tasks: IndexMap::new(alloc),
        };
        Ok(PlanBuilder {
            alloc,
            parts,
            held: VecDeque::new(alloc),
        })
    }

    /// Declares a resource. Its name is checked for P5, then P6; a 33rd resource is P7.
    pub fn resource(&mut self, name: &str) -> Result<ResId, PlanFault>
        ensures judged { IsJudged (resource_fault self.old name.now) result }
        ensures number { IfOk result (λ res. res.0 ≡ length self.old.resources) }
        ensures added { OnOk result (self.new ≡ with_resource self.old name.now) }
        ensures kept { OnErr result (self.new ≡ self.old) }
    {
        if let Some(fault) = self.resource_fault(name) {
            return Err(fault);
        }
        let number = self.parts.resources.len() as u32;
        let name = String::from_str(self.alloc, name)?;
        self.parts.resources.insert(name)?;
        Ok(ResId(number))
    }

    /// Declares a periodic task. The previous task's end is checked first (P14, P12, P10), then the
    /// name (P5, P6), the core (P9) and the times in ticks (P7, as is a 65th task).
    pub fn task(
        &mut self,
        name: &str,
        core: CoreId,
        period: u32,
        deadline: u32,
        offset: u32,
    ) -> Result<TaskId, PlanFault>
        ensures judged { IsJudged (task_fault self.old (new_task name.now core.0 (Every period offset) deadline)) result }
        ensures number { IfOk result (λ task. task.0 ≡ length self.old.tasks) }
        ensures added { OnOk result (self.new ≡ with_task self.old (new_task name.now core.0 (Every period offset) deadline)) }
        ensures kept { OnErr result (self.new ≡ self.old) }
    {
        self.declare(name, core, Releases::Every { period, offset }, deadline)
    }

    /// Declares a task whose jobs are released at listed ticks. The next calls give its releases,
    /// then its units. Refused as [`PlanBuilder::task`].
    pub fn listed(&mut self, name: &str, core: CoreId, deadline: u32) -> Result<TaskId, PlanFault>
        ensures judged { IsJudged (task_fault self.old (new_task name.now core.0 (Listed []) deadline)) result }
        ensures number { IfOk result (λ task. task.0 ≡ length self.old.tasks) }
        ensures added { OnOk result (self.new ≡ with_task self.old (new_task name.now core.0 (Listed []) deadline)) }
        ensures kept { OnErr result (self.new ≡ self.old) }
    {
        self.declare(name, core, Releases::Listed(Vec::new(self.alloc)), deadline)
    }

    fn declare(
        &mut self,
        name: &str,
        core: CoreId,
        releases: Releases,
        deadline: u32,
    ) -> Result<TaskId, PlanFault>
        requires { AreNew (times_view releases) }
        ensures judged { IsJudged (task_fault self.old (new_task name.now core.0 (times_view releases) deadline)) result }
        ensures number { IfOk result (λ task. task.0 ≡ length self.old.tasks) }
        ensures added { OnOk result (self.new ≡ with_task self.old (new_task name.now core.0 (times_view releases) deadline)) }
        ensures kept { OnErr result (self.new ≡ self.old) }
    {
        if let Some(fault) = self.task_fault(name, core, &releases, deadline) {
            return Err(fault);
        }
        let number = self.parts.tasks.len() as u32;
        let task = Task {
            core,
            releases,
            deadline,
            units: Vec::new(self.alloc),
        };
        add_task(self.alloc, &mut self.parts.tasks, name, task)?;
        Ok(TaskId(number))
    }

    /// Whether the newest task takes releases: it is a listed task that has no unit yet.
    pub fn takes_releases(&self) -> bool
        ensures { result ≡ takes_releases self.now }
    {
        match self.parts.tasks.last() {
            Some((_, newest)) => newest.releases.is_listed() && newest.units.is_empty(),
            None => false,
        }
    }

    /// Adds a release to the newest task. A tick above the limit or an 8,193rd release is P7; a
    /// tick not above the previous one is then P14. A tick after the plan's end is accepted, but
    /// releases no job.
    pub fn release(&mut self, tick: u32) -> Result<(), PlanFault>
        requires { takes_releases self.old ≡ true }
        ensures judged { IsJudged (release_fault self.old tick) result }
        ensures added { OnOk result (self.new ≡ with_release self.old tick) }
        ensures kept { OnErr result (self.new ≡ self.old) }
    {
        if let Some(fault) = tick_fault(self.newest().releases.listed(), tick) {
            return Err(fault);
        }
        add_release(&mut self.parts.tasks, tick)?;
        Ok(())
    }

    /// Adds units to the newest task: P14 if it is a listed task without a release; then P8, P10,
    /// P7.
    pub fn op(&mut self, step: Step) -> Result<(), PlanFault>
        requires { 0 < length self.old.tasks }
        ensures judged { IsJudged (op_fault self.old step) result }
        ensures added { OnOk result (self.new ≡ with_units self.old (units_of step)) }
        ensures kept { OnErr result (self.new ≡ self.old) }
    {
        if let Some(fault) = self.op_fault(step) {
            return Err(fault);
        }
        match step {
            Step::Run(count) => self.run(count),
            Step::Lock(res) => self.lock(res),
            Step::Unlock(res) => self.unlock(res),
        }
    }

    /// The plan that the calls built. The last task's end is checked first (P14, P12, P10), then
    /// nested global resources (P11) and the number of jobs (P13). A refused builder is given back
    /// and can be continued. Nothing is allocated.
    pub fn finish(self) -> Result<Plan, (PlanBuilder, PlanFault)>
        ensures { result ≡ finished (finish_fault self) self }
    {
        let globals = self.globals();
        if let Some(fault) = self.finish_fault(&globals) {
            return Err((self, fault));
        }
        Ok(Plan {
            parts: self.parts,
            globals,
        })
    }

    /// The number of a resource, by its name.
    pub fn res_of(&self, name: &str) -> Option<ResId>
        ensures { option_map (λ res. res.0) result ≡ name_position self.now.resources name.now }
    {
        self.parts.res_of(name)
    }

    /// The number of tasks so far.
    pub fn tasks(&self) -> u32
        ensures { result ≡ length self.now.tasks }
    {
        self.parts.tasks.len() as u32
    }

    fn has_resource(&self, name: &str) -> bool
        ensures { result ≡ has_name self.now.resources name.now }
    {
        self.parts.resources.contains(name)
    }

    fn has_task(&self, name: &str) -> bool
        ensures { result ≡ has_name (map (λ task. task.name) self.now.tasks) name.now }
    {
        self.parts.tasks.contains_key(name)
    }

    // Why a resource is refused.
    fn resource_fault(&self, name: &str) -> Option<PlanFault>
        ensures { result ≡ resource_fault self.now name.now }
    {
        if !is_name(name) {
            Some(PlanFault::Name)
        } else if self.has_resource(name) {
            Some(PlanFault::Taken)
        } else if self.parts.resources.len() >= MOST_RESOURCES {
            Some(PlanFault::Limit)
        } else {
            None
        }
    }

    // Why the newest task may not end as it is.
    fn end_fault(&self) -> Option<PlanFault>
        ensures { result ≡ end_fault self.now }
    {
        let (_, newest) = self.parts.tasks.last()?;
        if newest.releases.is_empty() {
            Some(PlanFault::Releases)
        } else if newest.units.is_empty() {
            Some(PlanFault::NoUnit)
        } else if !self.held.is_empty() {
            Some(PlanFault::Nesting)
        } else {
            None
        }
    }

    // Why a task is refused.
    fn task_fault(
        &self,
        name: &str,
        core: CoreId,
        releases: &Releases,
        deadline: u32,
    ) -> Option<PlanFault>
        ensures { result ≡ task_fault self.now (new_task name.now core.0 (times_view releases.now) deadline) }
    {
        if let Some(fault) = self.end_fault() {
            Some(fault)
        } else if !is_name(name) {
            Some(PlanFault::Name)
        } else if self.has_task(name) {
            Some(PlanFault::Taken)
        } else if core.0 >= self.parts.cores {
            Some(PlanFault::Core)
        } else if !are_in_range(releases)
            || !(1..=LONGEST_TIME).contains(&deadline)
            || self.parts.tasks.len() >= MOST_TASKS
        {
            Some(PlanFault::Limit)
        } else {
            None
        }
    }

    fn newest(&self) -> &Task
        requires { 0 < length self.now.tasks }
        ensures { named_view (newest_task self.now).name result.now ≡ newest_task self.now }
    {
        &self.parts.tasks[self.parts.tasks.len() - 1]
    }

    // Whether the step names a resource that was not declared.
    fn is_undeclared(&self, step: Step) -> bool
        ensures { result ≡ is_undeclared self.now step }
    {
        match step {
            Step::Run(_) => false,
            Step::Lock(res) | Step::Unlock(res) => res.0 as usize >= self.parts.resources.len(),
        }
    }

    // Whether the step locks what is held, or unlocks what is not the innermost held.
    fn is_misnested(&self, step: Step) -> bool
        ensures { result ≡ is_misnested (newest_units self.now) step }
    {
        match step {
            Step::Run(_) => false,
            Step::Lock(res) => self.held.contains(&res),
            Step::Unlock(res) => self.held.front() != Some(&res),
        }
    }

    // Whether the step has no unit, one too many, or holds one resource too many.
    fn is_too_much(&self, step: Step) -> bool
        requires { 0 < length self.now.tasks }
        ensures { result ≡ is_too_much (newest_units self.now) step }
    {
        let size = self.newest().units.len();
        match step {
            Step::Run(count) => count == 0 || size + count as usize > MOST_UNITS,
            Step::Lock(_) => size >= MOST_UNITS || self.held.len() >= MOST_HELD,
            Step::Unlock(_) => size >= MOST_UNITS,
        }
    }

    // Why a step is refused.
    fn op_fault(&self, step: Step) -> Option<PlanFault>
        requires { 0 < length self.now.tasks }
        ensures { result ≡ op_fault self.now step }
    {
        if self.newest().releases.is_empty() {
            Some(PlanFault::Releases)
        } else if self.is_undeclared(step) {
            Some(PlanFault::Undeclared)
        } else if self.is_misnested(step) {
            Some(PlanFault::Nesting)
        } else if self.is_too_much(step) {
            Some(PlanFault::Limit)
        } else {
            None
        }
    }

    // Which resources are global, by their numbers.
    fn globals(&self) -> [bool; MOST_RESOURCES]
        ensures { AreGlobals self.now result }
    {
        let users = users_of(&self.parts.tasks);
        let mut globals = [false; MOST_RESOURCES];
        for res in 0..MOST_RESOURCES {
            globals[res] = users[res].are_on_two();
        }
        globals
    }

    // Whether a task locks a global resource while it holds another global one.
    fn nests_global(&self, task: usize, globals: &[bool; MOST_RESOURCES]) -> bool
        requires task { task < length self.now.tasks }
        requires globals { AreGlobals self.now globals.now }
        ensures { result ≡ nests_global self.now (task_at self.now task).units }
    {
        let mut holding = false;
        let units = self.parts.tasks[task].lent_units();
        for place in 0..units.len() {
            let unit = units.unit(place);
            if is_nested_lock(holding, unit, globals) {
                return true;
            }
            holding = holds_global_after(holding, unit, globals);
        }
        false
    }

    // Whether some task nests global resources so.
    fn nests_globals(&self, globals: &[bool; MOST_RESOURCES]) -> bool
        requires { AreGlobals self.now globals.now }
        ensures { result ≡ list_any (λ task. nests_global self.now task.units) self.now.tasks }
    {
        for task in 0..self.parts.tasks.len() {
            if self.nests_global(task, globals) {
                return true;
            }
        }
        false
    }

    fn jobs(&self, task: usize) -> u32
        requires { task < length self.now.tasks }
        ensures value { result ≡ length (jobs_of self.now task) }
        ensures bound { result ≤ most_ticks }
    {
        self.parts.tasks[task]
            .releases
            .count_before(self.parts.ticks)
    }

    fn all_jobs(&self) -> u32
        ensures { result ≡ length (jobs self.now) }
    {
        let mut count = 0;
        for task in 0..self.parts.tasks.len() {
            count += self.jobs(task);
        }
        count
    }

    // Why the plan may not end as it is.
    fn finish_fault(&self, globals: &[bool; MOST_RESOURCES]) -> Option<PlanFault>
        requires { AreGlobals self.now globals.now }
        ensures { result ≡ finish_fault self.now }
    {
        if let Some(fault) = self.end_fault() {
            Some(fault)
        } else if self.nests_globals(globals) {
            Some(PlanFault::NestedGlobal)
        } else if self.all_jobs() > MOST_JOBS {
            Some(PlanFault::Jobs)
        } else {
            None
        }
    }

    fn run(&mut self, count: u32) -> Result<(), PlanFault>
        requires some { 0 < length self.old.tasks }
        requires good { op_fault self.old (Run count) ≡ None }
        ensures judged { IsJudged None result }
        ensures added { OnOk result (self.new ≡ with_units self.old (units_of (Run count))) }
        ensures kept { OnErr result (self.new ≡ self.old) }
    {
        add_units(&mut self.parts.tasks, count, Op::Run)?;
        Ok(())
    }

    // Locks the resource for the task.
    fn lock(&mut self, res: ResId) -> Result<(), PlanFault>
        requires some { 0 < length self.old.tasks }
        requires good { op_fault self.old (Lock res) ≡ None }
        ensures judged { IsJudged None result }
        ensures added { OnOk result (self.new ≡ with_units self.old (units_of (Lock res))) }
        ensures kept { OnErr result (self.new ≡ self.old) }
    {
        self.held.reserve(1)?;
        add_units(&mut self.parts.tasks, 1, Op::Lock(res))?;
        self.held.push_front(res)?;
        Ok(())
    }

    // Unlocks the innermost resource that the task holds.
    fn unlock(&mut self, res: ResId) -> Result<(), PlanFault>
        requires some { 0 < length self.old.tasks }
        requires good { op_fault self.old (Unlock res) ≡ None }
        ensures judged { IsJudged None result }
        ensures added { OnOk result (self.new ≡ with_units self.old (units_of (Unlock res))) }
        ensures kept { OnErr result (self.new ≡ self.old) }
    {
        add_units(&mut self.parts.tasks, 1, Op::Unlock(res))?;
        self.held.pop_front();
        Ok(())
    }
}

// Why a plan of such cores and ticks is refused.
fn new_fault(cores: u32, ticks: u32) -> Option<PlanFault>
    ensures { result ≡ new_fault cores ticks }
{
    let fits = (1..=MOST_CORES).contains(&cores) && (1..=MOST_TICKS).contains(&ticks);
    if fits { None } else { Some(PlanFault::Limit) }
}

// Whether a period and an offset are in their ranges.
fn are_in_range(releases: &Releases) -> bool
    ensures { result ≡ are_in_range (times_view releases.now) }
{
    match releases {
        Releases::Every { period, offset } => {
            (1..=LONGEST_TIME).contains(period) && *offset <= LONGEST_TIME
        }
        Releases::Listed(_) => true,
    }
}

// Why a list is refused one more tick.
fn tick_fault(ticks: &[u32], tick: u32) -> Option<PlanFault>
    ensures { result ≡ tick_fault ticks.now tick }
{
    if tick > LONGEST_TIME || ticks.len() >= MOST_RELEASES {
        Some(PlanFault::Limit)
    } else if is_above(ticks.last().copied(), tick) {
        None
    } else {
        Some(PlanFault::Releases)
    }
}

// Whether a tick is above the previous one, if there is one.
fn is_above(before: Option<u32>, tick: u32) -> bool
    ensures { result ≡ is_above before tick }
{
    match before {
        Some(before) => before < tick,
        None => true,
    }
}

// Whether a unit locks a global resource while one is held.
fn is_nested_lock(holding: bool, unit: Op, globals: &[bool; MOST_RESOURCES]) -> bool
    ensures { result ≡ (locks_one globals.now unit && holding) }
{
    match unit {
        Op::Lock(res) => is_one(globals, res) && holding,
        Op::Run | Op::Unlock(_) => false,
    }
}

// Whether a global resource is held after a unit, if none is locked while another is held.
fn holds_global_after(holding: bool, unit: Op, globals: &[bool; MOST_RESOURCES]) -> bool
    ensures { result ≡ holds_one_after globals.now holding unit }
{
    match unit {
        Op::Run => holding,
        Op::Lock(res) => holding || is_one(globals, res),
        Op::Unlock(res) => holding && !is_one(globals, res),
    }
}

// Whether a resource is marked.
fn is_one(marked: &[bool; MOST_RESOURCES], res: ResId) -> bool
    ensures { result ≡ is_marked marked.now res.0 }
{
    let place = res.0 as usize;
    place < MOST_RESOURCES && marked[place]
}
