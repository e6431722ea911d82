//! What an auditor knows: the state after the events that showed nothing.
ghost use Rattle.std.specs.Prelude.{◌≡◌, ◌+◌};
ghost use Rattle.msrp_plan.specs.Common.{All, slice_get};
ghost use Rattle.msrp_events.specs.Changes.{core_at, free_at, next_at};
ghost use Rattle.msrp_events.specs.Rules.{is_late, is_overdue};
ghost use Rattle.msrp_event_audit.specs.LogJobs.{IsKnown};

use crate::auditor::LogAuditor;
use crate::rules::{is_late, is_overdue, late_wait};
use msrp_events::{CoreLog, Event, LiveJob, Tolerances};
use msrp_plan::{CoreId, ResId, TaskId};
use msrp_system::System;

impl<'a> LogAuditor<'a> {
    /// The system that it judges by.
    pub fn system(&self) -> &'a System
        ensures { result.now ≡ self.now.system }
    {
        self.system
    }

    /// What it tolerates.
    pub fn tolerances(&self) -> Tolerances
        ensures { result ≡ self.now.tolerances }
    {
        self.tolerances
    }

    /// The jobs that are released and have not ended, in the order of releases and requests.
    pub fn jobs(&self) -> &[LiveJob]
        ensures value { result.now ≡ self.now.state.jobs }
        ensures known { All (IsKnown self.now.system) result.now }
    {
        self.state.jobs.as_slice()
    }

    /// What is known of the cores.
    pub fn cores(&self) -> &[CoreLog]
        ensures { result.now ≡ self.now.state.cores }
    {
        self.state.cores.as_slice()
    }

    /// Whether the log has stopped.
    pub fn is_stopped(&self) -> bool
        ensures { result ≡ self.now.state.stopped }
    {
        self.state.stopped
    }

    /// What is known of a core, if the system has it.
    pub fn core(&self, core: CoreId) -> Option<CoreLog>
        ensures { result ≡ slice_get self.now.state.cores core.0 }
    {
        self.state.cores.get(core.0 as usize).copied()
    }

    /// Since when a resource has been free while a job awaits it.
    pub fn free_since(&self, res: ResId) -> Option<u64>
        ensures { result ≡ free_at self.now.state.free res.0 }
    {
        match self.state.free.get(res.0 as usize) {
            Some(clock) => *clock,
            None => None,
        }
    }

    /// The number of a task's next job.
    pub fn next_job(&self, task: TaskId) -> u64
        ensures { result ≡ next_at self.now.state.next task.0 }
    {
        match self.state.next.get(task.0 as usize) {
            Some(number) => *number,
            None => 0,
        }
    }

    /// Whether an event shows that a core is overdue.
    pub fn is_overdue(&self, event: Event, core: CoreId) -> bool
        ensures { result ≡ is_overdue self.now.tolerances event.time (core_at self.now.state.cores core.0) }
    {
        match self.core(core) {
            Some(log) => is_overdue(self.tolerances, event.time, log),
            None => false,
        }
    }

    /// Whether a job should have acquired a resource by now.
    pub fn is_late(&self, res: ResId, now: u64) -> bool
        ensures { result ≡ is_late (self.now.tolerances.operation + self.now.tolerances.slack + self.now.tolerances.skew) now (free_at self.now.state.free res.0) }
    {
        is_late(late_wait(self.tolerances), now, self.free_since(res))
    }
}
