//! Where shapes are drawn in SVG, in its units: for each core a lane for who runs, one for its
//! ceiling, and one for each of its tasks; below all cores a lane for each global resource. Tasks
//! and resources without a shape are left out. The core and the task of a fault come first.
ghost use Rattle.std.specs.Prelude.{◌<◌};

use crate::scene::Scene;
use crate::shapes::{Event, Lane, Shapes, Violation};
use crate::windows::Window;
use crate::words::Written;
use msrp_plan::{CoreId, Plan, ResId, TaskId};
use std::alloc::AllocError;

/// Where the lanes begin, from the left.
pub(crate) const LEFT: u64 = 160;

/// Where the lines on the fault begin, below the legend.
pub(crate) const LINES: u64 = 104;

/// The height of the axis above the first lane of a core.
pub(crate) const AXIS: u64 = 24;

// The width that the ticks of a window fill, and the bounds of a tick's width.
const TICKS_WIDTH: (u64, u64, u64) = (1200, 3, 28);

/// The upper edge of a lane, or of a part of one, and its height.
#[derive(Clone, Copy, Debug, PartialEq, Eq)]
pub(crate) struct Room {
    pub(crate) top: u64,
    pub(crate) height: u64,
}

/// The lanes that are drawn, from above to below.
#[derive(Drop)]
pub(crate) struct Layout {
    window: Window,
    pub(crate) tick_width: u64,
    pub(crate) lanes: Vec<(Lane, Room)>,
    // The tasks without a lane.
    pub(crate) hidden: Vec<TaskId>,
    pub(crate) bottom: u64,
}

fn is_shown(shapes: &Shapes, lane: Lane) -> bool {
    let is_here = |event: &Event| lane == Lane::Task(event.job.task);
    shapes.blocks.iter().any(|block| block.lane == lane) || shapes.events.iter().any(is_here)
}

// A tick is as wide as lets the drawn ticks fill the window.
fn tick_width(window: Window) -> u64 {
    let (all, least, most) = TICKS_WIDTH;
    (all / window.ticks().max(1) as u64).clamp(least, most)
}

// The core and the task that are drawn first: those of the first row that violates a rule, if its
// tick is drawn.
fn first_lanes(scene: &Scene<'_>, shapes: &Shapes) -> (u32, u32) {
    match shapes.violation {
        Some(Violation { row, .. }) if scene.window.has_tick(row.tick) => {
            (row.core.0, row.job.map_or(0, |job| job.task.0))
        }
        _ => (0, 0),
    }
}

// The number at this place, if numbers up to a count begin with that one, and go on with 0.
fn number_at(place: u32, first: u32, count: u32) -> u32
    requires { place < count }
    ensures { result < count }
{
    ((place as u64 + first as u64) % count as u64) as u32
}

impl Layout {
    pub(crate) fn of(scene: &Scene<'_>, shapes: &Shapes) -> Result<Layout, AllocError> {
        // The caption, the legend and the lines on the fault are above.
        let is_good = scene.found.is_ok();
        let mut layout = Layout {
            window: scene.window,
            tick_width: tick_width(scene.window),
            lanes: Vec::new(scene.alloc),
            hidden: Vec::new(scene.alloc),
            bottom: if is_good { LINES } else { LINES + 54 },
        };
        let (cores, (first, first_task)) = (scene.plan.cores(), first_lanes(scene, shapes));
        for place in 0..cores {
            let core = CoreId(number_at(place, first, cores));
            layout.bottom = layout.bottom.saturating_add(AXIS);
            layout.add(Lane::Core(core), 14, 0)?;
            layout.add(Lane::Ceiling(core), 12, 18)?;
            layout.add_tasks(scene.plan, shapes, core, first_task)?;
        }
        layout.bottom = layout.bottom.saturating_add(10);
        layout.add_queues(scene.plan, shapes)?;
        Ok(layout)
    }

    // Adds a lane of this height, and room below it.
    fn add(&mut self, lane: Lane, height: u64, below: u64) -> Written {
        let top = self.bottom;
        self.lanes.push((lane, Room { top, height }))?;
        self.bottom = top.saturating_add(height).saturating_add(below);
        Ok(())
    }

    fn add_tasks(&mut self, plan: &Plan, shapes: &Shapes, core: CoreId, first: u32) -> Written {
        for place in 0..plan.tasks() {
            let task = TaskId(number_at(place, first, plan.tasks()));
            match is_shown(shapes, Lane::Task(task)) {
                _ if plan.core_of(task) != core => {}
                true => self.add(Lane::Task(task), 50, 18)?,
                false => self.hidden.push(task)?,
            }
        }
        Ok(())
    }

    fn add_queues(&mut self, plan: &Plan, shapes: &Shapes) -> Written {
        for res in 0..plan.resources() {
            let lane = Lane::Queue(ResId(res));
            if is_shown(shapes, lane) {
                self.add(lane, 18, 8)?;
            }
        }
        Ok(())
    }

    /// The place of a lane, if it is drawn.
    pub(crate) fn room(&self, lane: Lane) -> Option<Room> {
        let mut places = self.lanes.iter();
        places.find(|place| place.0 == lane).map(|place| place.1)
    }

    /// Where a tick begins, or the next edge of the lanes if it isn't drawn.
    pub(crate) fn left_of(&self, tick: u64) -> u64 {
        let (from, to) = (self.window.from as u64, self.window.to as u64);
        let ticks = tick.max(from).min(to).saturating_sub(from);
        ticks.saturating_mul(self.tick_width).saturating_add(LEFT)
    }

    /// Where the lanes end.
    pub(crate) fn right(&self) -> u64 {
        self.left_of(self.window.to as u64)
    }
}
