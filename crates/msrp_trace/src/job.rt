//! The text of a core's job, made once for all its rows.
ghost use Rattle.std.specs.Prelude.{◌≡◌, ◌<◌, ◌≤◌, ◌++◌};
ghost use Rattle.msrp_plan.specs.Common.{[], decimal, length, true, Some, None, task_at};
ghost use Rattle.msrp_trace.specs.Gathering.{next_field};
ghost use Rattle.msrp_trace.specs.Lines.{IsJobText, job_fields};

use crate::text::Text;
use msrp_plan::{JobId, Plan, TaskId};

// Enough for two commas, a name of at most 16 letters, and a number of at most 10 digits.
const JOB: usize = 32;

/// A job that a core ran, and its two fields in a record, made again only for another job.
#[derive(Drop)]
pub(crate) struct JobText {
    job: Option<JobId>,
    text: Text<JOB>,
}

// The name of a task.
fn task_field(plan: &Plan, task: TaskId) -> &[u8]
    requires { task.0 < length plan.now.tasks }
    ensures name { result.now ≡ (task_at plan.now task.0).name }
    ensures short { length result.now ≤ 16 }
{
    // This read proves that the plan is an accepted one.
    let _accepted = plan.tasks();
    plan.task_name(task).as_bytes()
}

impl JobText {
    /// No job.
    pub(crate) fn new() -> JobText
        ensures { result.job ≡ None }
    {
        JobText {
            job: None,
            text: Text::new(),
        }
    }

    fn is_of(&self, job: JobId) -> bool
        ensures { result ≡ true → self.now.job ≡ Some job }
    {
        match self.job {
            Some(last) => last == job,
            None => false,
        }
    }

    /// Makes the fields of a job, unless they are here already.
    #[inline(always)]
    pub(crate) fn show(&mut self, plan: &Plan, job: JobId)
        requires task { job.task.0 < length plan.now.tasks }
        requires before { IsJobText plan.now self.old }
        ensures after { IsJobText plan.now self.new }
        ensures text { self.new.text ≡ job_fields plan.now (Some job) }
    {
        if !self.is_of(job) {
            self.make(plan, job);
            self.job = Some(job);
        }
    }

    #[inline(never)]
    fn make(&mut self, plan: &Plan, job: JobId)
        requires { job.task.0 < length plan.now.tasks }
        ensures { self.new.text ≡ job_fields plan.now (Some job) }
    {
        self.text.clear();
        self.text.next(task_field(plan, job.task));
        self.text.next_number(job.k);
    }

    /// The fields.
    pub(crate) fn text(&self) -> &Text<JOB>
        ensures { result.now ≡ self.now.text }
    {
        &self.text
    }
}
