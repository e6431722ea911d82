//! The jobs of a core between two of its turns: the ready and the started ones, and their progress.
ghost use Rattle.std.specs.Prelude.{◌≡◌, ◌<◌, ◌≤◌, ◌+◌, ◌∷◌};
ghost use Rattle.msrp_plan.specs.Common.{[], List, Some, None, true, length, IfOk, vec_capacity, ForSome, Contains, units, jobs_on, choice, comes_first};
ghost use Rattle.msrp_plan.specs.declared.ids.JobId.{JobId as Job};
ghost use Rattle.msrp_plan.specs.declared.rows.Row.{Row as TraceRow};
ghost use Rattle.msrp_core.specs.Common.{head};
ghost use Rattle.msrp_stack.specs.Stack.{current_ceiling, newest, top};
ghost use Rattle.msrp_core.specs.Active.{ActiveJob, advanced};
ghost use Rattle.msrp_core.specs.CoreStates.{IsCoreState};
ghost use Rattle.msrp_core.specs.CoreJobs.{AreJobs, AreOfCore, AreToldBy, CanAct, IsCurrent, IsRunning, IsSamePlace, IsSameStack, active_in, is_preferred, rising_of, started_with, state_of};

use crate::states::CoreState;
use msrp_levels::Levels;
use msrp_plan::{CoreId, JobId, Memory, Op, Phase, Plan, Units};
use msrp_ready::Ready;
use msrp_stack::CeilingStack;
use std::alloc::Global;

/// The jobs of a core. Only started jobs have a stored progress, next to their stack.
#[derive(Drop)]
pub(crate) struct Jobs<'a> {
    pub(crate) plan: &'a Plan,
    pub(crate) levels: &'a Levels<'a>,
    pub(crate) core: CoreId,
    /// What the core holds or waits for.
    pub(crate) phase: Phase,
    pub(crate) ready: Ready<'a>,
    pub(crate) stack: CeilingStack<'a>,
    /// The units that the newest started job has done; without one, any number.
    pub(crate) progress: u32,
    /// For each started job the progress of the job below it, the newest last.
    pub(crate) below: Vec<u32>,
    /// The head if it comes before the running job. Changes only at a release, start or end.
    pub(crate) rising: Option<JobId>,
    /// The units of the newest started job, so that no turn has to look up its task.
    pub(crate) units: Units<'a>,
}

impl<'a> Jobs<'a> {
    /// The jobs of a core before its first turn, with all the memory that they will ever need.
    pub(crate) fn with_room(
        alloc: Global,
        plan: &'a Plan,
        levels: &'a Levels<'a>,
        core: CoreId,
    ) -> Result<Jobs<'a>, Memory>
        requires levels { levels.now ≡ plan.now }
        requires core { core.0 < plan.now.cores }
        ensures jobs { IfOk result AreJobs }
        ensures plan { IfOk result (λ jobs. jobs.plan.now ≡ plan.now) }
        ensures core { IfOk result (λ jobs. jobs.core ≡ core) }
        ensures phase { IfOk result (λ jobs. jobs.phase ≡ Phase.Free) }
        ensures ready { IfOk result (λ jobs. jobs.ready ≡ record { plan = plan.now; core = core.0; tick = None; taken = []; compared = 0 }) }
        ensures stack { IfOk result (λ jobs. jobs.stack.started ≡ []) }
    {
        let ready = Ready::with_room(alloc, plan, core)?;
        let stack = CeilingStack::with_room(alloc, plan, levels, core)?;
        let below = Vec::with_capacity(alloc, plan.jobs_on(core))?;
        Ok(Jobs {
            plan,
            levels,
            core,
            phase: Phase::Free,
            ready,
            stack,
            progress: 0,
            below,
            rising: None,
            units: Units::none(),
        })
    }

    // The units of the newest of the started jobs.
    fn units_of_newest(&self) -> Units<'a>
        requires { AreOfCore self.now }
        ensures { ForSome (newest self.now.stack.started) (λ job. result ≡ units self.now.plan.now job) }
    {
        match self.stack.top() {
            Some(job) => self.plan.units_of(job.task),
            None => Units::none(),
        }
    }

    /// The same jobs in memory of their own.
    pub(crate) fn copied(&self, alloc: Global) -> Result<Jobs<'a>, Memory>
        requires { AreJobs self.now }
        ensures same { IfOk result (λ jobs. jobs ≡ record self.now { below = jobs.below; units = jobs.units }) }
        ensures units { IfOk result (λ jobs. ForSome (newest self.now.stack.started) (λ job. jobs.units ≡ units self.now.plan.now job)) }
        ensures below { IfOk result (λ jobs. jobs.below.items ≡ self.now.below.items) }
        ensures room { IfOk result (λ jobs. vec_capacity self.now.below ≤ vec_capacity jobs.below) }
    {
        let mut below = Vec::with_capacity(alloc, self.below.capacity())?;
        below.extend_from_slice(&self.below)?;
        Ok(Jobs {
            plan: self.plan,
            levels: self.levels,
            core: self.core,
            phase: self.phase,
            ready: self.ready.copied(alloc)?,
            stack: self.stack.copied(alloc)?,
            progress: self.progress,
            below,
            rising: self.rising,
            units: self.units_of_newest(),
        })
    }

    // Whether a job comes before the running one, if there is one.
    #[inline(always)]
    fn comes_first(&self, job: JobId, running: Option<JobId>) -> bool
        requires known { Contains (jobs_on self.now.plan.now self.now.core.0) job }
        requires running { ForSome running (Contains (jobs_on self.now.plan.now self.now.core.0)) }
        ensures { result ≡ comes_first self.now.plan.now job running }
    {
        match running {
            None => true,
            Some(other) => self.plan.job_key(job).is_before(&self.plan.job_key(other)),
        }
    }

    // The head if it comes before the running job, else none. Rarely needed.
    #[inline(never)]
    fn next_rising(&self) -> Option<JobId>
        requires { AreOfCore self.now }
        ensures { result ≡ rising_of self.now.plan.now (head self.now.ready) (newest self.now.stack.started) }
    {
        match self.ready.head() {
            Some(job) if self.comes_first(job, self.stack.top()) => Some(job),
            _ => None,
        }
    }

    // Recomputes what is stored of the head and of the running job, after a job's end.
    #[inline(never)]
    fn refresh(&mut self)
        requires { AreOfCore self.old }
        ensures current { IsCurrent self.new }
        ensures others { self.new ≡ record self.old { rising = self.new.rising; units = self.new.units } }
    {
        self.rising = self.next_rising();
        if let Some(job) = self.stack.top() {
            self.units = self.plan.units_of(job.task);
        }
    }

    // Starts the head.
    #[inline(never)]
    fn start(&mut self, job: JobId)
        requires jobs { AreJobs self.old }
        requires head { head self.old.ready ≡ Some job }
        requires next { is_preferred self.old.plan.now (current_ceiling self.old.stack) job (newest self.old.stack.started) ≡ true }
        ensures jobs { AreJobs self.new }
        ensures same { IsSamePlace self.old self.new }
        ensures tick { self.new.ready.tick ≡ self.old.ready.tick }
        ensures running { IsRunning self.new job }
        ensures states { (j : Job) → state_of self.new j ≡ started_with (Some job) (state_of self.old j) }
    {
        self.ready.take_head();
        self.stack.start(job);
        self.below.push_reserved(self.progress);
        self.progress = 0;

        // The next head comes after the job that starts.
        self.rising = None;
        self.units = self.plan.units_of(job.task);
    }

    // Releases the jobs up to this tick. Without a release the head stays.
    #[inline(always)]
    fn release_to(&mut self, tick: u32)
        requires jobs { AreJobs self.old }
        requires tick { ForSome self.old.ready.tick (λ before. before ≤ tick) }
        ensures jobs { AreJobs self.new }
        ensures ready { self.new.ready ≡ record self.old.ready { tick = Some tick; compared = self.new.ready.compared } }
        ensures others { self.new ≡ record self.old { ready = self.new.ready; rising = self.new.rising } }
    {
        if self.ready.has_release_by(tick) {
            self.ready.release_to(tick);
            self.rising = self.next_rising();
        } else {
            self.ready.release_to(tick);
        }
    }

    /// The job that runs in this tick: the head if it is preferred, which then starts, otherwise
    /// the running job, if any.
    #[inline(always)]
    pub(crate) fn choose(&mut self, tick: u32) -> Option<JobId>
        requires jobs { AreJobs self.old }
        requires tick { ForSome self.old.ready.tick (λ before. before ≤ tick) }
        ensures jobs { AreJobs self.new }
        ensures same { IsSamePlace self.old self.new }
        ensures tick { self.new.ready.tick ≡ Some tick }
        ensures choice { (log : List TraceRow) → AreToldBy self.old log → result ≡ choice self.old.plan.now self.old.core.0 tick log }
        ensures running { ForSome result (IsRunning self.new) }
        ensures states { (j : Job) → state_of self.new j ≡ started_with result (state_of self.old j) }
    {
        self.release_to(tick);
        let running = self.stack.top();
        match self.rising {
            Some(job) if self.levels.level(job.task) > self.stack.ceiling() => {
                self.start(job);
                Some(job)
            }
            _ => running,
        }
    }

    // The units that the newest job has done.
    pub(crate) fn progress(&self) -> u32
        ensures { (s : ActiveJob) (below : List ActiveJob) → active_in self.now ≡ s ∷ below → result ≡ s.done }
    {
        self.progress
    }

    /// What decides which job runs in this tick. Releases no job.
    #[inline(always)]
    pub(crate) fn state(&self, tick: u32) -> CoreState
        requires jobs { AreJobs self.now }
        requires tick { ForSome self.now.ready.tick (λ before. before ≤ tick) }
        ensures { (log : List TraceRow) → AreToldBy self.now log → IsCoreState self.now.plan.now self.now.core.0 tick log result }
    {
        let running = self.stack.top();
        CoreState {
            running,
            head: self.ready.head_at(tick),
            ceiling: self.stack.ceiling(),
            done: match running {
                Some(_) => self.progress(),
                None => 0,
            },
        }
    }

    /// The next unit of the running job.
    pub(crate) fn unit(&self, job: JobId) -> Op
        requires jobs { AreJobs self.now }
        requires running { IsRunning self.now job }
        ensures { CanAct self.now job result }
    {
        self.units.unit(self.progress() as usize)
    }

    /// Counts a unit of the running job; the last one finishes it.
    #[inline(always)]
    pub(crate) fn advance(&mut self, job: JobId)
        requires running { IsRunning self.old job }
        requires current { IsCurrent self.old }
        requires core { AreOfCore self.old }
        requires size { length self.old.stack.started ≡ length self.old.below.items }
        requires known { job.task.0 < length self.old.plan.now.tasks }
        requires done { (s : ActiveJob) (below : List ActiveJob) → active_in self.old ≡ s ∷ below → s.done < length (units self.old.plan.now job) }
        requires last { (s : ActiveJob) (below : List ActiveJob) → active_in self.old ≡ s ∷ below → s.done + 1 ≡ length (units self.old.plan.now job) → s.held ≡ [] }
        ensures active { active_in self.new ≡ advanced self.old.plan.now (active_in self.old) }
        ensures size { length self.new.stack.started ≡ length self.new.below.items }
        ensures room { vec_capacity self.new.below ≡ vec_capacity self.old.below }
        ensures current { IsCurrent self.new }
        ensures stack { IsSameStack self.old self.new }
        ensures others { self.new ≡ record self.old { stack = self.new.stack; progress = self.new.progress; below = self.new.below; rising = self.new.rising; units = self.new.units } }
    {
        // This read proves that the plan is an accepted one.
        let _accepted = self.plan.cores();
        let done = self.progress() + 1;
        if done as usize == self.units.len() {
            self.progress = self.below.pop().unwrap_or(0);
            self.stack.finish();
            self.refresh();
        } else {
            self.progress = done;
        }
    }
}
