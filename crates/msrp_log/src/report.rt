//! What a legal log exercises: what its jobs met, task by task, and how often each situation that
//! the rules are about occurred. Counted as the events are judged; tested, and not proved.
use msrp_event_audit::{LogAuditor, awaits, ceiling, first_of, holds};
use msrp_event_text::Watch;
use msrp_events::{Action, CoreLog, Event, LockAction};
use msrp_plan::{CoreId, JobId, JobKey, ResId, TaskId};
use msrp_system::System;
use std::alloc::{AllocError, Global};
use std::fmt::{self, Formatter, Write};

// The records of a core, and those that have numbers.
#[derive(Clone, Copy, Debug, Default)]
struct CoreCounts {
    records: u64,
    numbered: u64,
}

// The jobs of a task. All times are in ns, and the longest of one job.
#[derive(Clone, Copy, Debug, Default)]
struct TaskCounts {
    released: u64,
    ended: u64,
    late: u64,
    response: u64,
    spin: u64,
    blocked: u64,
}

// The locks and requests of a resource, those that found it in use, and the most waiting jobs.
#[derive(Clone, Copy, Debug, Default)]
struct ResourceCounts {
    asked: u64,
    waited: u64,
    longest: u64,
}

// How often a situation occurred, and how long it took at most.
#[derive(Clone, Copy, Debug, Default)]
struct Times {
    count: u64,
    longest: u64,
}

impl Times {
    fn add(&mut self, time: u64) {
        self.count = self.count.saturating_add(1);
        self.longest = self.longest.max(time);
    }
}

// A job that is released and has not ended.
#[derive(Clone, Copy, Debug)]
struct OpenJob {
    job: JobId,
    core: CoreId,
    key: JobKey,
    released: u64,
    requested: u64,
    held: u32,
    blocked: u64,
}

fn run_of(auditor: &LogAuditor<'_>, core: CoreId) -> Option<JobId> {
    auditor.core(core).and_then(|log| log.run)
}

/// Counts of the events so far.
#[derive(Debug, Drop)]
pub struct Report<'a> {
    system: &'a System,
    cores: Vec<CoreCounts>,
    tasks: Vec<TaskCounts>,
    resources: Vec<ResourceCounts>,
    jobs: Vec<OpenJob>,
    // Up to when the blocking on each core is counted.
    counted: Vec<u64>,
    reactions: Times,
    handovers: Times,
    preemptions: Times,
    kept: Times,
    at_ceiling: Times,
    nested: Times,
    at_deadline: Times,
    stopped: bool,
}

impl<'a> Report<'a> {
    /// Before the first event, with room for as many released, unended jobs as the backlog says.
    pub fn with_room(
        alloc: Global,
        system: &'a System,
        backlog: u32,
    ) -> Result<Report<'a>, AllocError> {
        Ok(Report {
            system,
            cores: vec![in alloc; CoreCounts::default(); system.cores() as usize]?,
            tasks: vec![in alloc; TaskCounts::default(); system.tasks() as usize]?,
            resources: vec![in alloc; ResourceCounts::default(); system.resources() as usize]?,
            jobs: Vec::with_capacity(alloc, backlog as usize)?,
            counted: vec![in alloc; 0; system.cores() as usize]?,
            reactions: Times::default(),
            handovers: Times::default(),
            preemptions: Times::default(),
            kept: Times::default(),
            at_ceiling: Times::default(),
            nested: Times::default(),
            at_deadline: Times::default(),
            stopped: false,
        })
    }

    // The time since the core's last event blocks its jobs that come before the running one.
    fn count_blocking(&mut self, core: CoreId, run: Option<JobId>, now: u64) {
        let Some(counted) = self.counted.get_mut(core.0 as usize) else {
            return;
        };
        let passed = now.saturating_sub(*counted);
        *counted = now.max(*counted);
        let Some(running) = self.jobs.iter().find(|open| Some(open.job) == run).copied() else {
            return;
        };
        for open in self.jobs.iter_mut() {
            if open.core == core && open.key.is_before(&running.key) {
                open.blocked = open.blocked.saturating_add(passed);
                if let Some(task) = self.tasks.get_mut(open.job.task.0 as usize) {
                    task.blocked = task.blocked.max(open.blocked);
                }
            }
        }
    }

    fn release(&mut self, auditor: &LogAuditor<'_>, job: JobId, deadline: u64, now: u64) {
        let (system, task) = (self.system, job.task);
        if system.tasks() <= task.0 {
            return;
        }
        let core = system.core_of(task);
        self.count_blocking(core, run_of(auditor, core), now);
        let open = OpenJob {
            job,
            core,
            key: JobKey {
                deadline,
                release: deadline.saturating_sub(system.deadline(task)),
                task: task.0,
                k: job.k,
            },
            released: now,
            requested: now,
            held: 0,
            blocked: 0,
        };
        self.note_ceiling(auditor, open, system.level(task));
        if let Some(counts) = self.tasks.get_mut(task.0 as usize) {
            counts.released = counts.released.saturating_add(1);
        }
        if self.jobs.len() < self.jobs.capacity() {
            self.jobs.push_reserved(open);
        }
    }

    // Whether the ceiling holds up a job that comes before all others of its core.
    fn note_ceiling(&mut self, auditor: &LogAuditor<'_>, open: OpenJob, level: u32) {
        let ceiling = ceiling(auditor.system(), auditor.jobs(), open.core);
        for other in self.jobs.iter() {
            if other.core == open.core && other.key.is_before(&open.key) {
                return;
            }
        }
        if level <= ceiling {
            self.kept.add(0);
        }
        if level == ceiling {
            self.at_ceiling.add(0);
        }
    }

    fn switch(&mut self, auditor: &LogAuditor<'_>, core: CoreId, job: Option<JobId>, now: u64) {
        let operation = u64::from(auditor.tolerances().operation);
        if let Some(
            CoreLog {
                since: Some(since),
                acted,
                ..
            },
        ) = auditor.core(core)
        {
            let busy = acted.map_or(0, |time| time.saturating_add(operation));
            self.reactions.add(now.saturating_sub(since.max(busy)));
        }
        let is_new = auditor
            .jobs()
            .iter()
            .any(|live| Some(live.job) == job && !live.started);
        if is_new && first_of(auditor.system(), auditor.jobs(), core, true).is_some() {
            self.preemptions.add(0);
        }
    }

    // A lock, or a request, which joins the queue of a global resource.
    fn ask(&mut self, auditor: &LogAuditor<'_>, job: JobId, res: ResId, now: u64) {
        let (mut queued, mut used) = (1u64, false);
        for live in auditor.jobs() {
            let waits = awaits(auditor.system(), res, *live);
            used = used || waits || holds(auditor.system(), res, *live);
            queued = queued.saturating_add(u64::from(waits));
        }
        if let Some(counts) = self.resources.get_mut(res.0 as usize) {
            counts.asked = counts.asked.saturating_add(1);
            if used {
                counts.waited = counts.waited.saturating_add(1);
                counts.longest = counts.longest.max(queued);
            }
        }
        if let Some(open) = self.jobs.iter_mut().find(|open| open.job == job) {
            open.requested = now;
            if open.held > 0 {
                self.nested.add(0);
            }
        }
    }

    fn acquire(&mut self, auditor: &LogAuditor<'_>, job: JobId, res: ResId, now: u64) {
        if let Some(since) = auditor.free_since(res) {
            self.handovers.add(now.saturating_sub(since));
        }
        let Some(open) = self.jobs.iter().find(|open| open.job == job) else {
            return;
        };
        if let Some(task) = self.tasks.get_mut(job.task.0 as usize) {
            task.spin = task.spin.max(now.saturating_sub(open.requested));
        }
    }

    fn step(
        &mut self,
        auditor: &LogAuditor<'_>,
        kind: LockAction,
        job: JobId,
        res: ResId,
        now: u64,
    ) {
        match kind {
            LockAction::Lock | LockAction::Request => self.ask(auditor, job, res, now),
            LockAction::Acquire => self.acquire(auditor, job, res, now),
            LockAction::Poll | LockAction::Unlock | LockAction::Freed => {}
        }
        if let Some(open) = self.jobs.iter_mut().find(|open| open.job == job) {
            open.held = match kind {
                LockAction::Lock | LockAction::Acquire => open.held.saturating_add(1),
                LockAction::Unlock | LockAction::Freed => open.held.saturating_sub(1),
                LockAction::Request | LockAction::Poll => open.held,
            };
        }
    }

    fn end(&mut self, job: JobId, now: u64) {
        let Some(place) = self.jobs.iter().position(|open| open.job == job) else {
            return;
        };
        let open = self.jobs.remove(place);
        if now == open.key.deadline {
            self.at_deadline.add(0);
        }
        if let Some(task) = self.tasks.get_mut(job.task.0 as usize) {
            task.ended = task.ended.saturating_add(1);
            task.late = task.late.saturating_add(u64::from(open.key.deadline < now));
            task.response = task.response.max(now.saturating_sub(open.released));
        }
    }

    // The situations, with the longest time of those that take one.
    fn situations(&self) -> [(&'static str, Times); 7] {
        [
            ("reaction", self.reactions),
            ("handover", self.handovers),
            ("preemption", self.preemptions),
            ("kept by the ceiling", self.kept),
            ("level equals the ceiling", self.at_ceiling),
            ("nested sections", self.nested),
            ("end at the deadline", self.at_deadline),
        ]
    }
}

impl Watch for Report<'_> {
    fn note(&mut self, auditor: &LogAuditor<'_>, event: Event) {
        let Event {
            time,
            core,
            number,
            action,
        } = event;
        if let Some(counts) = self.cores.get_mut(core.0 as usize) {
            counts.records = counts.records.saturating_add(1);
            counts.numbered = counts.numbered.saturating_add(u64::from(number.is_some()));
        }
        if self.stopped {
            return;
        }
        self.count_blocking(core, run_of(auditor, core), time);
        match action {
            Action::Release(job, deadline) => self.release(auditor, job, deadline, time),
            Action::Switch(job) => self.switch(auditor, core, job, time),
            Action::Step(kind, job, res) => self.step(auditor, kind, job, res, time),
            Action::End(job) => self.end(job, time),
            Action::Stop => self.stopped = true,
            Action::Boot | Action::Lost => {}
        }
    }
}

impl fmt::Display for Report<'_> {
    fn fmt<W: Write>(&self, f: &mut Formatter<W>) -> fmt::Result {
        writeln!(f, "msrp-log-report,1")?;
        for (c, core) in self.cores.iter().enumerate() {
            writeln!(f, "core,{c},{},{}", core.records, core.numbered)?;
        }
        for t in 0..self.system.tasks() {
            let task = self.tasks.get(t as usize).copied().unwrap_or_default();
            let name = self.system.task_name(TaskId(t));
            write!(
                f,
                "task,{name},{},{},{},",
                task.released, task.ended, task.late
            )?;
            writeln!(f, "{},{},{}", task.response, task.spin, task.blocked)?;
        }
        for r in 0..self.system.resources() {
            let res = self.resources.get(r as usize).copied().unwrap_or_default();
            let name = self.system.res_name(ResId(r));
            writeln!(
                f,
                "resource,{name},{},{},{}",
                res.asked, res.waited, res.longest
            )?;
        }
        for (name, times) in self.situations().iter() {
            writeln!(f, "seen,{name},{},{}", times.count, times.longest)?;
        }
        Ok(())
    }
}
