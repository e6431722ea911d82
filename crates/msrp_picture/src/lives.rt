//! The life of a job: its release, its absolute deadline, and its completion.
ghost use Rattle.std.specs.Prelude.{◌≡◌, ◌<◌, ◌++◌};
ghost use Rattle.msrp_plan.specs.Common.{length, IfOk, IsSome, OnOk, done, is_row_of, release_tick};
ghost use Rattle.msrp_picture.specs.Shapes.{after_last, event_of, life_block, life_of, lives, task_lives};
ghost use Rattle.msrp_picture.specs.Rows.{task_rows};

use crate::Added;
use crate::scene::Scene;
use crate::shapes::{Block, Event, Lane, Look, Moment, lasting};
use msrp_plan::{JobId, Kind, Memory, Row, TaskId};

/// When a job is released, has its absolute deadline, and completes. A job that isn't finished
/// lasts to the end of the legal rows.
#[derive(Clone, Copy, Debug, PartialEq, Eq)]
pub struct Life {
    pub job: JobId,
    pub release: u64,
    pub deadline: u64,
    pub end: u64,
    pub is_finished: bool,
}

fn is_row_of(job: JobId, row: &Row) -> bool
    ensures { result ≡ is_row_of job row.now }
{
    row.job == Some(job)
}

// How many of its units a job has done.
fn done(job: JobId, rows: &[Row]) -> usize
    ensures { result ≡ done job rows.now }
{
    let own = |row: &&Row| is_row_of(job, row) && !matches!(row.kind, Kind::Queue | Kind::Spin);
    rows.iter().filter(own).count()
}

// The tick after the last row of a job.
fn after_last(job: JobId, rows: &[Row]) -> u64
    ensures { result ≡ after_last job rows.now }
{
    let own = rows.iter().filter(|row| is_row_of(job, row));
    own.fold(0, |_, row| row.tick as u64 + 1)
}

// The life of a job, where these are the legal rows of its task.
fn life_of(scene: &Scene<'_>, own: &[Row], job: JobId) -> Life
    requires task { job.task.0 < length scene.now.plan.now.tasks }
    requires released { IsSome (release_tick scene.now.plan.now job) }
    requires rows { own.now ≡ task_rows job.task.0 scene.now.rows.now }
    ensures { result ≡ life_of scene.now.plan.now scene.now.rows.now job }
{
    let plan = scene.plan;
    let release = plan.release(job);
    let is_finished = done(job, own) == plan.units(job.task) as usize;
    Life {
        job,
        release,
        deadline: release + plan.deadline(job.task) as u64,
        end: if is_finished {
            after_last(job, own)
        } else {
            scene.ticks_begun()
        },
        is_finished,
    }
}

fn push_lives(lives: &mut Vec<Life>, scene: &Scene<'_>, task: TaskId) -> Added
    requires { task.0 < length scene.now.plan.now.tasks }
    ensures { OnOk result (lives.new.items ≡ lives.old.items ++ task_lives scene.now.plan.now scene.now.rows.now task.0) }
{
    let own = scene.rows_of(task)?;
    for k in 0..scene.plan.jobs(task) {
        lives.push(life_of(scene, &own, JobId { task, k }))?;
    }
    Ok(())
}

/// The lives of the plan's jobs, task by task.
pub(crate) fn lives_of(scene: &Scene<'_>) -> Result<Vec<Life>, Memory>
    ensures { IfOk result (λ all. all.items ≡ lives scene.now.plan.now scene.now.rows.now) }
{
    let mut lives = Vec::new(scene.alloc);
    for task in 0..scene.plan.tasks() {
        push_lives(&mut lives, scene, TaskId(task))?;
    }
    Ok(lives)
}

impl Life {
    /// From a tick to the end of the life: none, where the end comes first.
    pub(crate) fn block(&self, look: Look, first: u64) -> Block
        ensures { result ≡ life_block look first self.now }
    {
        let (lane, job) = (Lane::Task(self.job.task), Some(self.job));
        lasting(lane, first, self.end, look, job, None)
    }

    pub(crate) fn event(&self, moment: Moment, tick: u64) -> Event
        ensures { result ≡ event_of moment tick self.now }
    {
        let job = self.job;
        Event { moment, tick, job }
    }
}
