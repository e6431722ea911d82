//! The save file of a dump, with which GTKWave shows all signals: first the fault, then those of
//! each core and of its tasks, and last those of resources.

use crate::dump_signals::{TrackName, signals_of};
use crate::signals::Track;
use crate::walk::Written;
use msrp_plan::{CoreId, Plan, ResId, TaskId};
use std::fmt::Write;

// The sizes of the window and its parts, an open tree of scopes, 50 pixels for each tick, and the
// signals of the fault, as texts.
const HEAD: &str = "[size] 1200 680
[sst_width] 160
[signals_width] 240
[treeopen] msrp.
*-2 -1
@20
msrp.fault
msrp.faulty_row
";

/// Writes the whole save file of a legal run, with an empty line between groups of signals.
pub(crate) fn write_head(text: &mut String, plan: &Plan) -> Written {
    text.push_str(HEAD)?;
    for core in 0..plan.cores() {
        text.push_str("@200\n-\n")?;
        write_track(text, plan, "cores", Track::Core(CoreId(core)))?;
        write_tasks(text, plan, CoreId(core))?;
    }
    text.push_str("@200\n-\n")?;
    for res in 0..plan.resources() {
        write_track(text, plan, "resources", Track::Resource(ResId(res)))?;
    }
    Ok(())
}

fn write_tasks(text: &mut String, plan: &Plan, core: CoreId) -> Written {
    for task in 0..plan.tasks() {
        if plan.core_of(TaskId(task)) == core {
            write_track(text, plan, "tasks", Track::Task(TaskId(task)))?;
        }
    }
    Ok(())
}

// Writes the signals of a track in a scope.
fn write_track(text: &mut String, plan: &Plan, scope: &str, track: Track) -> Written {
    let name = TrackName(plan, track);
    for (_, ending, (_, flags)) in signals_of(plan, track) {
        writeln!(text, "{flags}\nmsrp.{scope}.{name}_{ending}")?;
    }
    Ok(())
}

/// Sets the marker to the tick of a fault, with all ticks up to it in sight: 200 pixels show 2 to
/// the power of the zoom ticks.
pub(crate) fn write_fault(text: &mut String, tick: u32) -> Written {
    let zoom = (tick / 3).max(3).ilog2().saturating_add(1);
    writeln!(text, "*-{zoom} {tick}")
}
