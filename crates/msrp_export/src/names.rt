//! Names and words that both formats show.

use crate::tasks::TaskState;
use bstr::ByteSlice;
use msrp_advice::{res_name, task_name};
use msrp_plan::{JobId, Plan, ResId, Row};
use std::fmt;

/// The name of a resource; a dash if there is none.
pub(crate) fn resource_name(plan: &Plan, resource: Option<ResId>) -> &str {
    resource.map_or("-", |resource| res_name(plan, resource))
}

/// The word for what a task does.
pub(crate) fn state_name(state: TaskState) -> &'static str {
    match state {
        TaskState::Unreleased => "unreleased",
        TaskState::Ready => "ready",
        TaskState::Running => "running",
        TaskState::Holding => "holding",
        TaskState::Spinning => "spinning",
    }
}

/// A job, as `task.number`; a dash if there is none.
#[derive(Clone, Copy)]
pub(crate) struct JobName<'a>(pub(crate) &'a Plan, pub(crate) Option<JobId>);

impl fmt::Display for JobName<'_> {
    fn fmt<W: fmt::Write>(&self, f: &mut fmt::Formatter<W>) -> fmt::Result {
        match self.1 {
            Some(job) => write!(f, "{}.{}", task_name(self.0, job.task), job.k),
            None => write!(f, "-"),
        }
    }
}

/// The row that violates a rule: core, kind, job and resource; a dash if a row is missing.
#[derive(Clone, Copy)]
pub(crate) struct FaultyRow<'a>(pub(crate) &'a Plan, pub(crate) Option<Row>);

impl fmt::Display for FaultyRow<'_> {
    fn fmt<W: fmt::Write>(&self, f: &mut fmt::Formatter<W>) -> fmt::Result {
        let Some(row) = self.1 else {
            return write!(f, "-");
        };
        let kind = row.kind.word().as_bstr();
        let job = JobName(self.0, row.job);
        let resource = resource_name(self.0, row.res);
        write!(f, "{},{kind},{job},{resource}", row.core.0)
    }
}
