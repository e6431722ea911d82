//! What a picture says: the verdict, and a sentence for each block, event and violation.

use crate::Verdict;
use crate::scene::Scene;
use crate::shapes::{Block, Event, Look, Moment, Violation};
use crate::windows::expected_tick;
use msrp_advice::{res_name, task_name};
use msrp_plan::{JobId, Kind, ResId, Row};
use std::alloc::{AllocError, Global};

/// What a function answers that writes text: an error if no memory is left for it.
pub(crate) type Written = Result<(), AllocError>;

/// A text, or an error if no memory is left for it.
pub(crate) type Text = Result<String, AllocError>;

fn job_words(scene: &Scene<'_>, job: Option<JobId>) -> Text {
    let Some(job) = job else {
        return format!(in scene.alloc; "no job");
    };
    let task = task_name(scene.plan, job.task);
    format!(in scene.alloc; "job {} of {task}", job.k)
}

fn deed(kind: Kind) -> &'static str {
    match kind {
        Kind::Idle => "idles",
        Kind::Run => "runs",
        Kind::Lock => "locks",
        Kind::Unlock => "unlocks",
        Kind::Take | Kind::Grant => "acquires",
        Kind::Queue => "joins the queue of",
        Kind::Spin => "spins on",
        Kind::Release => "releases",
    }
}

/// The record of a verdict.
pub(crate) fn verdict_words(alloc: Global, found: Verdict) -> Text {
    match found {
        Ok(()) => format!(in alloc; "good"),
        Err(fault) => format!(in alloc; "fault,{},{:?}", fault.row, fault.rule),
    }
}

// Writes the name of a resource after a blank, if there is one.
fn say_res(text: &mut String, scene: &Scene<'_>, res: Option<ResId>) -> Written {
    match res {
        Some(res) => write!(text, " {}", res_name(scene.plan, res)),
        None => Ok(()),
    }
}

/// What a row does.
pub(crate) fn row_words(scene: &Scene<'_>, row: Row) -> Text {
    if row.job.is_none() {
        return format!(in scene.alloc; "idle");
    }
    let mut text = job_words(scene, row.job)?;
    write!(text, " {}", deed(row.kind))?;
    say_res(&mut text, scene, row.res)?;
    match row.ahead {
        Some(ahead) if ahead > 0 => write!(text, ", {ahead} ahead")?,
        _ => {}
    }
    Ok(text)
}

/// Which of the plan's ticks are drawn, and in which one the fault is.
pub(crate) fn ticks_words(scene: &Scene<'_>) -> Text {
    let (first, last) = (scene.window.from, scene.window.to.saturating_sub(1));
    let mut text = format!(in scene.alloc; "ticks {first} to {last} of {}", scene.plan.ticks())?;
    if let Err(fault) = scene.found {
        let tick = expected_tick(scene.plan, fault.row);
        write!(text, ", the fault in tick {tick}")?;
    }
    Ok(text)
}

/// What a block shows.
pub(crate) fn block_words(scene: &Scene<'_>, block: &Block) -> Text {
    let (first, last) = (block.first, block.end.saturating_sub(1));
    let mut text = if first < last {
        format!(in scene.alloc; "ticks {first} to {last}: ")?
    } else {
        format!(in scene.alloc; "tick {first}: ")?
    };
    let who = job_words(scene, block.job)?;
    match block.look {
        Look::Runs => write!(text, "{who} runs")?,
        Look::Does(kind) => write!(text, "{who} {}", deed(kind))?,
        Look::Holds => write!(text, "{who} holds")?,
        Look::First(0) => write!(text, "{who} is alone in the queue of")?,
        Look::First(waiting) => write!(text, "{who} is ahead of {waiting} in the queue of")?,
        Look::Life(true) => write!(text, "{who}, from release to completion")?,
        Look::Life(false) => write!(text, "{who}, released and not finished")?,
        Look::Late => write!(text, "{who} is past its absolute deadline")?,
        Look::Ceiling(level) => write!(text, "ceiling {level}")?,
    }
    say_res(&mut text, scene, block.res)?;
    Ok(text)
}

/// The symbol of a moment, and its words.
pub(crate) fn moment_words(moment: Moment) -> (&'static str, &'static str) {
    match moment {
        Moment::Release => ("release", "release"),
        Moment::Deadline => ("deadline", "absolute deadline"),
        Moment::Completion => ("completion", "completion"),
    }
}

/// What an event is.
pub(crate) fn event_words(scene: &Scene<'_>, event: &Event) -> Text {
    let (_, moment) = moment_words(event.moment);
    let (tick, who) = (event.tick, job_words(scene, Some(event.job))?);
    format!(in scene.alloc; "at {tick}: {moment} of {who}")
}

/// What is wrong with the first row that violates a rule.
pub(crate) fn violation_words(scene: &Scene<'_>, violation: &Violation) -> Text {
    let Violation { row, rule } = *violation;
    let (tick, core, words) = (row.tick, row.core.0, row_words(scene, row)?);
    format!(in scene.alloc; "tick {tick}, core {core}: {words}, which violates rule {rule:?}")
}
