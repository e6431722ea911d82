//! The value change dump (IEEE 1364). A signal has a letter and the number of its track; a tick is
//! one microsecond. Strings are GTKWave's extension, and a queue's length is a real number, so that
//! GTKWave can draw it as a curve.

use crate::dump_signals::{TrackName, has_queue, signals_of};
use crate::names::{FaultyRow, JobName, resource_name, state_name};
use crate::signals::{Change, State, Track};
use crate::walk::Written;
use bstr::ByteSlice;
use msrp_plan::{Plan, ResId, Row, Rule, TaskId};
use std::fmt::Write;

/// What comes before the signals of the tracks.
pub(crate) const HEAD: &str = "$version msrp $end
$comment One unit of time is one tick. $end
$timescale 1 us $end
$scope module msrp $end
$var string 1 f0 fault $end
$var string 1 r0 faulty_row $end
$scope module cores $end
";

/// What comes between the signals and the first tick: in a legal run there is no fault.
pub(crate) const END_OF_HEAD: &str =
    "$upscope $end\n$upscope $end\n$enddefinitions $end\n$dumpvars\ns- f0\ns- r0\n$end\n";

/// Declares the signals of a track. Those of tasks and of resources have a scope each.
pub(crate) fn write_track(text: &mut String, plan: &Plan, track: Track) -> Written {
    match track {
        Track::Task(TaskId(0)) => text.push_str("$upscope $end\n$scope module tasks $end\n")?,
        Track::Resource(ResId(0)) => {
            text.push_str("$upscope $end\n$scope module resources $end\n")?;
        }
        _ => {}
    }
    let (name, number) = (TrackName(plan, track), track.number());
    for (letter, ending, (kind, _)) in signals_of(plan, track) {
        writeln!(text, "$var {kind} {letter}{number} {name}_{ending} $end")?;
    }
    Ok(())
}

/// Begins a tick.
pub(crate) fn begin_tick(text: &mut String, tick: u32) -> Written {
    writeln!(text, "#{tick}")
}

/// Writes the signals of a track whose value isn't that of the tick before.
pub(crate) fn write_change(text: &mut String, change: &Change<'_>) -> Written {
    let (plan, before, number) = (change.plan, change.before, change.track.number());
    match change.now {
        Some(State::Core(now)) => {
            if !matches!(before, Some(State::Core(last)) if last.kind == now.kind) {
                writeln!(text, "s{} k{number}", now.kind.word().as_bstr())?;
            }
            if !matches!(before, Some(State::Core(last)) if last.job == now.job) {
                writeln!(text, "s{} j{number}", JobName(plan, now.job))?;
            }
            if !matches!(before, Some(State::Core(last)) if last.res == now.res) {
                writeln!(text, "s{} g{number}", resource_name(plan, now.res))?;
            }
        }
        Some(State::Task(now)) => {
            if !matches!(before, Some(State::Task(last)) if last.state == now.state) {
                writeln!(text, "s{} t{number}", state_name(now.state))?;
            }
            if !matches!(before, Some(State::Task(last)) if last.late == now.late) {
                writeln!(text, "{}l{number}", u32::from(now.late))?;
            }
        }
        Some(State::Resource(now)) => {
            if !matches!(before, Some(State::Resource(last)) if last.holder == now.holder) {
                writeln!(text, "s{} h{number}", JobName(plan, now.holder))?;
            }
            if !matches!(before, Some(State::Resource(last)) if last.queue_length == now.queue_length)
                && has_queue(plan, ResId(number))
            {
                writeln!(text, "r{} q{number}", now.queue_length)?;
            }
        }
        None => {}
    }
    Ok(())
}

/// Writes the rule that is violated in this tick, and the row that violates it.
pub(crate) fn write_fault(text: &mut String, plan: &Plan, rule: Rule, row: Option<Row>) -> Written {
    writeln!(text, "s{} f0", rule.code().as_bstr())?;
    writeln!(text, "s{} r0", FaultyRow(plan, row))
}
