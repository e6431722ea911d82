//! The JSON of trace events, as Perfetto and Chrome read it; a tick is one microsecond. Names need
//! no escapes, since a plan's names have letters, digits and `_` only.

use crate::names::{FaultyRow, JobName, resource_name, state_name};
use crate::signals::{Change, State, Track};
use crate::tasks::{TaskState, TaskStatus};
use crate::walk::Written;
use bstr::ByteSlice;
use msrp_advice::{res_name, task_name};
use msrp_plan::{JobId, Kind, Plan, ResId, Row, Rule};
use std::fmt::{Display, Write};

/// What comes before the names of the tracks.
pub(crate) const HEAD: &str =
    r#"{"displayTimeUnit":"ns","otherData":{"program":"msrp_view","time":"one microsecond is one tick"},"traceEvents":[
{"ph":"M","pid":100,"name":"process_name","args":{"name":"cores"}},
{"ph":"M","pid":100,"name":"process_sort_index","args":{"sort_index":1}},
{"ph":"M","pid":200,"name":"process_name","args":{"name":"tasks"}},
{"ph":"M","pid":200,"name":"process_sort_index","args":{"sort_index":2}},
{"ph":"M","pid":300,"name":"process_name","args":{"name":"resources"}},
{"ph":"M","pid":300,"name":"process_sort_index","args":{"sort_index":3}}"#;

/// What comes after the last event.
pub(crate) const END: &str = "\n]}\n";

// The process of the verdict.
const VERDICT: &str =
    ",\n{\"ph\":\"M\",\"pid\":400,\"name\":\"process_name\",\"args\":{\"name\":\"verdict\"}},\n";

/// What a slice shows: a core's rows of one kind, job and resource; the ticks of a task in one
/// state with one job; those of a resource with one holder.
#[derive(Clone, Copy, PartialEq, Eq)]
enum Slice {
    Action(Kind, Option<JobId>, Option<ResId>),
    State(TaskState, JobId),
    Holder(JobId),
}

/// Names a track, and orders the tracks of a group by their numbers.
pub(crate) fn write_track(text: &mut String, plan: &Plan, track: Track) -> Written {
    begin_event(text, 'M', track)?;
    text.push_str(r#","name":"thread_name","args":{"name":""#)?;
    match track {
        Track::Core(core) => write!(text, "core {}", core.0)?,
        Track::Task(task) => text.push_str(task_name(plan, task))?,
        Track::Resource(res) => text.push_str(res_name(plan, res))?,
    }
    text.push_str(r#""}}"#)?;
    begin_event(text, 'M', track)?;
    text.push_str(r#","name":"thread_sort_index","#)?;
    write!(text, r#""args":{{"sort_index":{}}}}}"#, track.number())
}

/// Writes what a tick changes on a track.
pub(crate) fn write_change(text: &mut String, change: &Change<'_>) -> Written {
    let (before, now) = (slice_of(change.before), slice_of(change.now));
    if before != now {
        end_slice(text, change.track, change.tick, before)?;
        begin_slice(text, change, now)?;
    }
    let Some(State::Task(now)) = change.now else {
        return Ok(());
    };
    write_missed_deadline(text, change, now)?;
    write_arrow(text, change, now)
}

/// Ends the slice that is open on a track, if there is one.
pub(crate) fn write_end(text: &mut String, change: &Change<'_>, time: u32) -> Written {
    end_slice(text, change.track, time, slice_of(change.before))
}

/// Writes the rule that is violated in a tick, and the row that violates it.
pub(crate) fn write_fault(
    text: &mut String,
    plan: &Plan,
    tick: u32,
    rule: Rule,
    row: Option<Row>,
) -> Written {
    let (rule, row) = (rule.code().as_bstr(), FaultyRow(plan, row));
    text.push_str(VERDICT)?;
    write!(text, r#"{{"ph":"i","pid":400,"tid":1,"ts":{tick},"#)?;
    write!(text, r#""s":"g","name":"fault {rule}","#)?;
    write!(text, r#""args":{{"rule":"{rule}","row":"{row}"}}}}"#)
}

// The slice of a state, if it has one.
fn slice_of(state: Option<State>) -> Option<Slice> {
    match state? {
        State::Core(row) if row.job.is_some() => Some(Slice::Action(row.kind, row.job, row.res)),
        State::Task(status) if status.state != TaskState::Unreleased => {
            Some(Slice::State(status.state, status.job))
        }
        State::Resource(state) => state.holder.map(Slice::Holder),
        _ => None,
    }
}

// Begins an event on a track, with its phase. Viewers take thread 0 for no thread.
fn begin_event(text: &mut String, phase: char, track: Track) -> Written {
    let process = match track {
        Track::Core(_) => 100u32,
        Track::Task(_) => 200,
        Track::Resource(_) => 300,
    };
    let thread = u64::from(track.number()) + 1;
    text.push_str(",\n")?;
    write!(text, r#"{{"ph":"{phase}","pid":{process},"tid":{thread}"#)
}

fn begin_event_at(text: &mut String, phase: char, track: Track, tick: u32) -> Written {
    begin_event(text, phase, track)?;
    write!(text, r#","ts":{tick}"#)
}

// Writes the name of an event, and the job that it is about.
fn end_event<T: Display>(text: &mut String, name: &T, job: JobName<'_>) -> Written {
    write!(text, r#","name":"{name}","args":{{"job":"{job}"}}}}"#)
}

fn end_slice(text: &mut String, track: Track, tick: u32, slice: Option<Slice>) -> Written {
    if slice.is_none() {
        return Ok(());
    }
    begin_event_at(text, 'E', track, tick)?;
    text.push_str("}")
}

fn begin_slice(text: &mut String, change: &Change<'_>, slice: Option<Slice>) -> Written {
    let Some(slice) = slice else {
        return Ok(());
    };
    let plan = change.plan;
    begin_event_at(text, 'B', change.track, change.tick)?;
    match slice {
        Slice::Action(kind, job, res) => {
            let (job, kind) = (JobName(plan, job), kind.word().as_bstr());
            let resource = resource_name(plan, res);
            write!(text, r#","name":"{job} {kind}","args":{{"job":"{job}","#)?;
            write!(text, r#""action":"{kind}","resource":"{resource}"}}}}"#)
        }
        Slice::State(state, job) => end_event(text, &state_name(state), JobName(plan, Some(job))),
        Slice::Holder(job) => {
            let job = JobName(plan, Some(job));
            end_event(text, &job, job)
        }
    }
}

// Writes that the job reaches its deadline, or that the task comes to a job that is past it.
fn write_missed_deadline(text: &mut String, change: &Change<'_>, now: TaskStatus) -> Written {
    let was_late =
        matches!(change.before, Some(State::Task(last)) if last.late && last.job == now.job);
    if !now.late || was_late {
        return Ok(());
    }
    begin_event_at(text, 'i', change.track, change.tick)?;
    text.push_str(r#","s":"t""#)?;
    let job = JobName(change.plan, Some(now.job));
    end_event(text, &"deadline missed", job)
}

// Writes the beginning of an arrow at a request that joins a queue, or its end at the grant. The
// number of a request's arrow is made of the task and the units that the task had done.
fn write_arrow(text: &mut String, change: &Change<'_>, now: TaskStatus) -> Written {
    let (row, phase, end) = match now.row {
        Some(row) if row.kind == Kind::Queue => (row, 's', "}"),
        Some(row) if row.kind == Kind::Grant => (row, 'f', r#","bp":"e"}"#),
        _ => return Ok(()),
    };
    let id = u64::from(now.work) * 64 + u64::from(change.track.number());
    begin_event_at(text, phase, Track::Core(row.core), change.tick)?;
    write!(text, r#","id":{id},"cat":"request","name":"request"{end}"#)
}
