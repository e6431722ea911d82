//! A picture in SVG (W3C, 2011): an element for each shape.

use crate::layout::{AXIS, LEFT, LINES, Layout, Room};
use crate::scene::Scene;
use crate::shapes::{Block, Event, Lane, Look, Shapes, Violation};
use crate::words::{
    Text, Written, block_words, event_words, moment_words, row_words, ticks_words, verdict_words,
    violation_words,
};
use msrp_advice::{res_name, task_name};
use msrp_plan::{Kind, Op, Plan, TaskId};
use std::alloc::AllocError;
use std::fmt::Display;

// In a wider picture the names of lanes are on both sides.
const WIDE: u64 = 1500;

// The colours of resources, for the colour-blind too (Okabe and Ito 2008, lightened).
const COLOURS: [&str; 7] = ["r0", "r1", "r2", "r3", "r4", "r5", "r6"];

const STYLE: &str =
    "<style>text{font:10px monospace}.label{font-size:11px;font-weight:bold}.name{text-anchor:end}.tick{fill:#444;text-anchor:middle}\
.level{fill:#444}.caption{font-size:12px}.title{font-size:14px;font-weight:bold}.why{font-size:12px;fill:#b00}.rule{fill:#b00;font-weight:bold}rect{fill:#fff;stroke:#666;stroke-width:.7}.lane{stroke:#ccc}\
.runs rect,.works rect{fill:#e2e6ea}.waits rect{fill:url(#hatch)}.life rect{fill:#666;stroke:none}.late rect{fill:#b00;stroke:none}\
.ceiling rect{fill:#ddd}.r0 rect{fill:#eebc4d}.r1 rect{fill:#89cbf0}.r2 rect{fill:#4dbb9d}.r3 rect{fill:#f4ec7b}.r4 rect{fill:#4d9cc9}\
.r5 rect{fill:#e28e4d}.r6 rect{fill:#dba1c1}.after{opacity:.35}.breaks rect{fill:none;stroke:#b00;stroke-width:3}\
path,use{fill:none;stroke:#000;stroke-width:1.4}use{pointer-events:all}</style>\n\
<defs><path id='release' d='M0 0V-13M-3 -9L0 -13L3 -9'/><path id='deadline' d='M0 -13V0M-3 -4L0 0L3 -4'/><path id='completion' d='M-4 -6H4M0 -6V0'/>\
<pattern id='hatch' width='5' height='5' patternUnits='userSpaceOnUse' patternTransform='rotate(45)'><rect width='5' height='5' style='stroke:none'/>\
<path d='M1 0V5' style='stroke:#bbb'/></pattern></defs>\n<rect width='100%' height='100%' style='stroke:none'/>\n";

const LEGEND: &str =
    "<g class='works'><rect x='20' y='56' width='16' height='10'/></g><text x='40' y='65'>J0: job 0 runs</text>\
<g class='waits'><rect x='140' y='56' width='16' height='10'/></g><text x='160' y='65'>spins</text>\
<g class='r0'><rect x='206' y='56' width='16' height='10'/></g><text x='226' y='65'>critical section</text>\
<g class='life'><rect x='338' y='60' width='16' height='2'/></g><text x='358' y='65'>released, not running</text>\
<g class='late'><rect x='500' y='59' width='16' height='4'/></g><text x='520' y='65'>late</text>\
<g class='ceiling'><rect x='560' y='56' width='16' height='10'/></g><text x='580' y='65'>ceiling of the core</text>\n\
<use href='#release' x='28' y='88'/><text x='40' y='86'>release</text><use href='#deadline' x='108' y='88'/><text x='120' y='86'>absolute deadline</text>\
<use href='#completion' x='248' y='86'/><text x='260' y='86'>completion</text>\
<g class='r1'><rect x='340' y='77' width='16' height='10'/></g><text x='360' y='86'>first in the queue of a resource, +n: n wait behind it</text>\n";

// How many names of tasks without a lane are on a line.
const HIDDEN: u64 = 7;

// How a block looks: in a queue and in a critical section it has the resource's colour.
fn class_of(block: &Block) -> &'static str {
    match (block.look, block.res) {
        (Look::Runs, _) => "runs",
        (Look::Does(Kind::Queue | Kind::Spin), _) => "waits",
        (Look::Does(_), _) => "works",
        (Look::Life(_), _) => "life",
        (Look::Late, _) => "late",
        (Look::Ceiling(_), _) => "ceiling",
        (_, Some(res)) => COLOURS[(res.0 % 7) as usize],
        (_, None) => "",
    }
}

fn label_of(scene: &Scene<'_>, block: &Block) -> Text {
    let mut label = String::new(scene.alloc);
    let name = block.job.map_or("", |job| task_name(scene.plan, job.task));
    match (block.look, block.job, block.res) {
        (Look::Does(_), Some(job), _) => write!(label, "J{}", job.k)?,
        (Look::Holds, _, Some(res)) => label.push_str(res_name(scene.plan, res))?,
        (Look::Runs | Look::First(0), _, _) => label.push_str(name)?,
        (Look::First(waiting), _, _) => write!(label, "{name} +{waiting}")?,
        (Look::Ceiling(level), _, _) => write!(label, "{level}")?,
        _ => {}
    }
    Ok(label)
}

// The width of words, with some to spare.
fn width_of(words: &str) -> u64 {
    (words.len() as u64).saturating_mul(7)
}

fn baseline(room: Room) -> u64 {
    room.top.saturating_add(room.height.min(18) / 2 + 4)
}

// How many critical sections of a task are within one another at most, but 2 at least.
fn depth_of(plan: &Plan, task: TaskId) -> u64 {
    let (mut open, mut most) = (0u64, 2u64);
    if task.0 < plan.tasks() {
        for place in 0..plan.units(task) {
            open = match plan.unit(task, place) {
                Op::Lock(_) => open.saturating_add(1),
                Op::Unlock(_) => open.saturating_sub(1),
                Op::Run => open,
            };
            most = most.max(open);
        }
    }
    most
}

#[derive(Drop)]
struct Canvas<'a> {
    scene: &'a Scene<'a>,
    layout: &'a Layout,
    text: String,
    // The lane of the last critical section, and the ends of those that are open in it.
    last: Option<Lane>,
    ends: Vec<u64>,
}

impl Canvas<'_> {
    fn note<T: Display>(&mut self, class: &str, x: u64, y: u64, words: &T) -> Written {
        write!(self.text, "<text class=\"{class}\" x=\"{x}\" y=\"{y}\">")?;
        writeln!(self.text, "{words}</text>")
    }

    fn rect(&mut self, x: u64, width: u64, Room { top, height }: Room) -> Written {
        write!(self.text, "<rect x=\"{x}\" y=\"{top}\" ")?;
        write!(self.text, "width=\"{width}\" height=\"{height}\"/>")
    }

    // The part of its lane that a critical section takes: below those that it is in.
    fn section(&mut self, section: &Block, task: TaskId) -> Result<(u64, u64), AllocError> {
        if self.last != Some(section.lane) {
            self.last = Some(section.lane);
            self.ends.clear();
        }
        self.ends.retain(|end| *end > section.first);
        let height = 32 / depth_of(self.scene.plan, task).max(1);
        let depth = self.ends.len() as u64;
        self.ends.push(section.end)?;
        Ok((depth.saturating_mul(height).saturating_add(18), height))
    }

    fn room(&mut self, block: &Block, lane: Room) -> Result<Room, AllocError> {
        let (below, height) = match (block.look, block.lane) {
            (Look::Holds, Lane::Task(task)) => self.section(block, task)?,
            (Look::Life(_), _) => (8, 2),
            (Look::Late, _) => (50, 4),
            _ => (0, lane.height),
        };
        let top = lane.top.saturating_add(below);
        Ok(Room { top, height })
    }

    fn block(&mut self, block: &Block, room: Room) -> Written {
        let x = self.layout.left_of(block.first);
        let width = self.layout.left_of(block.end).saturating_sub(x);
        let (class, label) = (class_of(block), label_of(self.scene, block)?);
        let after = if block.is_legal { "" } else { " after" };
        let words = block_words(self.scene, block)?;
        write!(self.text, "<g class=\"{class}{after}\">")?;
        write!(self.text, "<title>{words}</title>")?;
        self.rect(x, width, room)?;
        let has_room = width_of(&label).saturating_add(3) <= width && 12 <= room.height;
        if !label.is_empty() && has_room {
            let (x, y) = (x.saturating_add(3), baseline(room));
            write!(self.text, "<text x=\"{x}\" y=\"{y}\">{label}</text>")?;
        }
        self.text.push_str("</g>\n")
    }

    fn blocks(&mut self, shapes: &Shapes) -> Written {
        for block in &shapes.blocks {
            if let Some(lane) = self.layout.room(block.lane) {
                let room = self.room(block, lane)?;
                self.block(block, room)?;
            }
        }
        Ok(())
    }

    fn marks(&mut self, shapes: &Shapes) -> Written {
        for event in &shapes.events {
            self.event(event)?;
        }
        match &shapes.violation {
            Some(violation) => self.violation(violation),
            None => Ok(()),
        }
    }

    fn event(&mut self, event: &Event) -> Written {
        let Some(room) = self.layout.room(Lane::Task(event.job.task)) else {
            return Ok(());
        };
        let (symbol, _) = moment_words(event.moment);
        let (x, y) = (self.layout.left_of(event.tick), room.top);
        let words = event_words(self.scene, event)?;
        write!(self.text, "<use href=\"#{symbol}\" x=\"{x}\" y=\"{y}\">")?;
        writeln!(self.text, "<title>{words}</title></use>")
    }

    // A frame round the row that violates a rule, and the rule's name above it.
    fn violation(&mut self, violation: &Violation) -> Written {
        let row = violation.row;
        let of_core = Lane::Core(row.core);
        let lane = row.job.map_or(of_core, |job| Lane::Task(job.task));
        if let Some(room) = self.layout.room(lane)
            && self.scene.window.has_tick(row.tick)
        {
            let x = self.layout.left_of(row.tick as u64);
            let words = violation_words(self.scene, violation)?;
            write!(self.text, "<g class=\"breaks\"><title>{words}</title>")?;
            self.rect(x, self.layout.tick_width, room)?;
            self.text.push_str("</g>\n")?;
            let rule = format_args!("{:?}", violation.rule);
            self.note("rule", x, room.top.saturating_sub(3), &rule)?;
        }
        Ok(())
    }

    // A lane's background and name; in a wide picture the name is on the right too.
    fn name<T: Display>(&mut self, class: &str, left: &str, room: Room, name: &T) -> Written {
        let (right, y) = (self.layout.right(), baseline(room));
        self.note(left, LEFT - 8, y, name)?;
        if right > WIDE {
            self.note(class, right.saturating_add(8), y, name)?;
        }
        self.text.push_str("<g class=\"lane\">")?;
        self.rect(LEFT, right.saturating_sub(LEFT), room)?;
        self.text.push_str("</g>\n")
    }

    fn lane(&mut self, lane: Lane, room: Room) -> Written {
        let plan = self.scene.plan;
        match lane {
            Lane::Core(core) => {
                self.axis(room.top.saturating_sub(AXIS - 9))?;
                let name = format_args!("core {}", core.0);
                self.name("label", "label name", room, &name)
            }
            Lane::Ceiling(_) => self.name("level", "level name", room, &"ceiling"),
            Lane::Task(task) => {
                self.name("label", "label name", room, &task_name(plan, task))?;
                self.level(task, room)
            }
            Lane::Queue(res) => self.name("label", "label name", room, &res_name(plan, res)),
        }
    }

    // The preemption level of a task, below its name.
    fn level(&mut self, task: TaskId, room: Room) -> Written {
        if task.0 < self.scene.plan.tasks() {
            let level = self.scene.levels.level(task);
            let (y, level) = (room.top.saturating_add(28), format_args!("level {level}"));
            self.note("level name", LEFT - 8, y, &level)?;
        }
        Ok(())
    }

    // The numbers of ticks: of each fifth, or where ticks are narrow of each tenth or twentieth.
    fn axis(&mut self, y: u64) -> Written {
        let each = match self.layout.tick_width {
            0..=4 => 20,
            5..=7 => 10,
            _ => 5,
        };
        self.note("level name", LEFT - 16, y, &"time (ticks)")?;
        for tick in self.scene.window.from..self.scene.window.to {
            if tick % each == 0 {
                self.note("tick", self.layout.left_of(tick as u64), y, &tick)?;
            }
        }
        Ok(())
    }

    // The size of the picture, its style and legend.
    fn head(&mut self, width: u64, height: u64) -> Written {
        write!(self.text, "<svg xmlns=\"http://www.w3.org/2000/svg\" ")?;
        write!(self.text, "width=\"{width}\" height=\"{height}\" ")?;
        writeln!(self.text, "viewBox=\"0 0 {width} {height}\">")?;
        self.text.push_str(STYLE)?;
        self.text.push_str(LEGEND)
    }

    // Which ticks are drawn, and the verdict.
    fn caption(&mut self) -> Written {
        let ticks = ticks_words(self.scene)?;
        let title = format_args!("Schedule under MSRP, {ticks}");
        self.note("title", 20, 24, &title)?;
        let verdict = verdict_words(self.scene.alloc, self.scene.found)?;
        self.note("caption", 20, 42, &verdict)
    }

    // The tasks without a lane, some on a line below all lanes.
    fn left_out(&mut self) -> Written {
        let y = self.layout.bottom;
        if !self.layout.hidden.is_empty() {
            self.note("without", 20, y, &"without a job in these ticks:")?;
        }
        for (place, task) in self.layout.hidden.iter().enumerate() {
            let (column, line) = (place as u64 % HIDDEN, place as u64 / HIDDEN + 1);
            let y = y.saturating_add(line.saturating_mul(14));
            let name = task_name(self.scene.plan, *task);
            self.note("without", column * 110 + 20, y, &name)?;
        }
        Ok(())
    }

    // Why the verdict is a fault: the rule, the row that violates it, and the expected row.
    fn reasons(&mut self, shapes: &Shapes, rule: &str) -> Written {
        if self.scene.found.is_err() {
            self.note("why", 20, LINES + 8, &rule)?;
        }
        let Some(Violation { row, .. }) = shapes.violation else {
            return Ok(());
        };
        let words = row_words(self.scene, row)?;
        let found = format_args!("found in tick {} on core {}: {words}", row.tick, row.core.0);
        self.note("why", 20, LINES + 26, &found)?;
        if let Some(row) = shapes.expected {
            let words = row_words(self.scene, row)?;
            self.note("why", 20, LINES + 44, &format_args!("expected: {words}"))?;
        }
        Ok(())
    }
}

/// A picture in SVG, with the sentence of a violated rule.
pub(crate) fn svg(scene: &Scene<'_>, shapes: &Shapes, rule: &str) -> Text {
    let layout = &Layout::of(scene, shapes)?;
    let right = layout.right();
    let width = right.saturating_add(if right > WIDE { LEFT } else { 20 });
    let lines = (layout.hidden.len() as u64)
        .div_ceil(HIDDEN)
        .saturating_mul(14);
    let height = layout.bottom.saturating_add(lines).saturating_add(10);
    let text = String::new(scene.alloc);
    let mut canvas = Canvas {
        scene,
        layout,
        text,
        last: None,
        ends: Vec::new(scene.alloc),
    };
    canvas.head(width.max(860), height)?;
    canvas.caption()?;
    canvas.reasons(shapes, rule)?;
    for (lane, room) in &layout.lanes {
        canvas.lane(*lane, *room)?;
    }
    canvas.blocks(shapes)?;
    canvas.marks(shapes)?;
    canvas.left_out()?;
    canvas.text.push_str("</svg>\n")?;
    Ok(canvas.text)
}
