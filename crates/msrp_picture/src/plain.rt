//! A picture in plain text: a line for each core and global resource, with a cell for each tick.

use crate::scene::Scene;
use crate::shapes::{Block, Lane, Look, Moment, Shapes, Violation};
use crate::windows::Window;
use crate::words::{Text, Written, ticks_words, verdict_words};
use msrp_advice::res_name;
use msrp_plan::{CoreId, Kind, Plan, ResId, Row, TaskId};
use std::alloc::{AllocError, Global};
use std::fmt::Display;

// The ticks on a line: with its label it has less than 80 columns.
const LINE_TICKS: u32 = 60;

// The letters of tasks, by their numbers: a plan has at most 64 tasks.
const LETTERS: &[u8] = b"abcdefghijklmnopqrstuvwxyzABCDEFGHIJKLMNOPQRSTUVWXYZ0123456789+*";

// How many jobs wait behind the first, by their number: at most one of each other core.
const WAITING: &[u8] = b".1234567";

const LEGEND: &str =
    "= runs  ( locks  ) unlocks  [ acquires  ] releases  ? joins a queue  ~ spins\n\
    . idle  | next job  ! violates a rule  ^ release  v absolute deadline  X both\n\
    of a resource: the first in its queue after the tick, how many wait behind it\n";

#[derive(Clone, Copy)]
enum Shown {
    Jobs(CoreId),
    Deeds(CoreId),
    Mark(CoreId),
    First(ResId),
    Waiting(ResId),
}

// The lines of a picture: a label, and a cell for each tick of the window.
#[derive(Drop)]
struct Lines<'a> {
    scene: &'a Scene<'a>,
    shapes: &'a Shapes,
    lines: Vec<(String, Vec<u8>)>,
}

fn letter(task: TaskId) -> u8 {
    LETTERS.get(task.0 as usize).copied().unwrap_or(b'.')
}

fn sign(kind: Kind) -> u8 {
    match kind {
        Kind::Idle => b'.',
        Kind::Run => b'=',
        Kind::Lock => b'(',
        Kind::Unlock => b')',
        Kind::Take | Kind::Grant => b'[',
        Kind::Release => b']',
        Kind::Queue => b'?',
        Kind::Spin => b'~',
    }
}

fn event_sign(moment: Moment, cell: u8) -> u8 {
    match (moment, cell) {
        (Moment::Completion, _) => cell,
        (Moment::Release, b'v' | b'X') | (Moment::Deadline, b'^' | b'X') => b'X',
        (Moment::Release, _) => b'^',
        (Moment::Deadline, _) => b'v',
    }
}

// Paints the cells of the ticks from one on and up to another.
fn paint(cells: &mut Vec<u8>, window: Window, first: u64, end: u64, sign: u8) {
    let from = window.from as u64;
    for tick in first.max(from)..end.min(window.to as u64) {
        if let Some(cell) = cells.get_mut((tick - from) as usize) {
            *cell = sign;
        }
    }
}

fn is_on(plan: &Plan, task: TaskId, core: CoreId) -> bool {
    task.0 < plan.tasks() && plan.core_of(task) == core
}

// Whether a job runs right after another one of its task.
fn is_next_job(before: Option<Block>, block: &Block) -> bool {
    let last = before.filter(|before| before.end == block.first && before.look == Look::Runs);
    match (last.and_then(|last| last.job), block.job) {
        (Some(last), Some(job)) => last.task == job.task && last.k != job.k,
        _ => false,
    }
}

fn sign_of(plan: &Plan, shown: Shown, block: &Block) -> Option<u8> {
    match (shown, block.lane, block.look) {
        _ if !block.is_legal => None,
        (Shown::Jobs(core), Lane::Core(on), _) if on == core => Some(letter(block.job?.task)),
        (Shown::Deeds(core), Lane::Task(task), Look::Does(kind)) if is_on(plan, task, core) => {
            Some(sign(kind))
        }
        (Shown::First(res), Lane::Queue(on), _) if on == res => Some(letter(block.job?.task)),
        (Shown::Waiting(res), Lane::Queue(on), Look::First(waiting)) if on == res => {
            Some(WAITING.get(waiting as usize).copied().unwrap_or(b'+'))
        }
        _ => None,
    }
}

// What a line shows of the row that violates a rule, if anything.
fn fault_sign(shown: Shown, row: Row) -> Option<u8> {
    match shown {
        Shown::Jobs(core) if core == row.core => Some(row.job.map_or(b'.', |job| letter(job.task))),
        Shown::Deeds(core) if core == row.core => Some(sign(row.kind)),
        Shown::Mark(core) if core == row.core => Some(b'!'),
        _ => None,
    }
}

impl Lines<'_> {
    // Cells with a dot for each tick before this one.
    fn dots(&self, end: u64) -> Result<Vec<u8>, AllocError> {
        let window = self.scene.window;
        let mut cells = vec![in self.scene.alloc; b' '; window.ticks() as usize]?;
        paint(&mut cells, window, 0, end, b'.');
        Ok(cells)
    }

    // Paints the blocks, with a border where another job of the same task follows.
    fn paint_blocks(&self, cells: &mut Vec<u8>, shown: Shown) {
        let (window, mut before) = (self.scene.window, None);
        for block in &self.shapes.blocks {
            if let Some(sign) = sign_of(self.scene.plan, shown, block) {
                paint(cells, window, block.first, block.end, sign);
                if is_next_job(before, block) {
                    let next = block.first.saturating_add(1);
                    paint(cells, window, block.first, next, b'|');
                }
                before = Some(*block);
            }
        }
    }

    // Adds a line with dots for the ticks before this one.
    fn add<T: Display>(&mut self, label: &T, shown: Shown, end: u64) -> Written {
        let mut cells = self.dots(end)?;
        self.paint_blocks(&mut cells, shown);
        if let Some(Violation { row, .. }) = self.shapes.violation
            && let Some(sign) = fault_sign(shown, row)
        {
            let (window, tick) = (self.scene.window, u64::from(row.tick));
            paint(&mut cells, window, tick, tick.saturating_add(1), sign);
        }
        let label = format!(in self.scene.alloc; "{label}")?;
        self.lines.push((label, cells))?;
        Ok(())
    }

    fn add_events(&mut self, core: CoreId) -> Written {
        let (scene, window) = (self.scene, self.scene.window);
        let mut cells = self.dots(window.to as u64)?;
        for event in &self.shapes.events {
            let place = event.tick.saturating_sub(window.from as u64);
            if let Some(cell) = cells.get_mut(place as usize)
                && is_on(scene.plan, event.job.task, core)
            {
                *cell = event_sign(event.moment, *cell);
            }
        }
        let label = format!(in scene.alloc; "  events")?;
        self.lines.push((label, cells))?;
        Ok(())
    }

    // Adds who runs on a core, what is done, a mark below a faulty row, and the events.
    fn add_core(&mut self, core: CoreId) -> Written {
        let of_core = self.scene.rows.iter().filter(|row| row.core == core);
        let ticks = of_core.count() as u64;
        self.add(&format_args!("core {}", core.0), Shown::Jobs(core), ticks)?;
        self.add(&"", Shown::Deeds(core), ticks)?;
        if let Some(Violation { row, .. }) = self.shapes.violation
            && row.core == core
            && self.scene.window.has_tick(row.tick)
        {
            self.add(&"", Shown::Mark(core), 0)?;
        }
        self.add_events(core)
    }

    // Adds who is first in the queue of each global resource, and how many wait.
    fn add_queues(&mut self) -> Written {
        let (scene, ticks) = (self.scene, self.scene.ticks_begun());
        for res in 0..scene.plan.resources() {
            if scene.levels.is_global(ResId(res)) {
                let name = res_name(scene.plan, ResId(res));
                self.add(&name, Shown::First(ResId(res)), ticks)?;
                self.add(&"  waiting", Shown::Waiting(ResId(res)), ticks)?;
            }
        }
        Ok(())
    }

    // Writes the axis of a part, and what it shows of each line.
    fn write_part(&self, text: &mut String, part: u32) -> Written {
        let (scene, cell) = (self.scene, part.saturating_mul(LINE_TICKS));
        let first = scene.window.from.saturating_add(cell);
        let end = scene.window.to.min(first.saturating_add(LINE_TICKS));
        write!(text, "\n{:<18}{}\n", "tick", axis(scene.alloc, first, end)?)?;
        for (label, cells) in &self.lines {
            let cells = cells.chunks(LINE_TICKS as usize).nth(part as usize);
            let cells = str::from_utf8(cells.unwrap_or(&[])).unwrap_or("");
            writeln!(text, "{label:<18}{}", cells.trim_end())?;
        }
        Ok(())
    }
}

// The number of each tenth tick where it begins, and signs between them.
fn axis(alloc: Global, from: u32, to: u32) -> Text {
    let mut axis = String::new(alloc);
    for tick in from..to {
        match tick % 10 {
            _ if axis.len() as u64 > (tick - from) as u64 => {}
            0 => write!(axis, "{tick}")?,
            5 => axis.push('+')?,
            _ => axis.push('-')?,
        }
    }
    Ok(axis)
}

fn write_tasks(text: &mut String, plan: &Plan) -> Written {
    for task in 0..plan.tasks() {
        let (task, name) = (TaskId(task), plan.task_name(TaskId(task)));
        let (letter, core) = (letter(task) as char, plan.core_of(task).0);
        writeln!(text, "{letter}: {name} on core {core}")?;
    }
    Ok(())
}

fn lines_of<'a>(scene: &'a Scene<'a>, shapes: &'a Shapes) -> Result<Lines<'a>, AllocError> {
    let mut lines = Lines {
        scene,
        shapes,
        lines: Vec::new(scene.alloc),
    };
    for core in 0..scene.plan.cores() {
        lines.add_core(CoreId(core))?;
    }
    lines.add_queues()?;
    Ok(lines)
}

/// A picture in plain text.
pub(crate) fn text(scene: &Scene<'_>, shapes: &Shapes) -> Text {
    let (lines, mut text) = (lines_of(scene, shapes)?, String::new(scene.alloc));
    let verdict = verdict_words(scene.alloc, scene.found)?;
    write!(text, "{verdict}\n{}\n", ticks_words(scene)?)?;
    for part in 0..scene.window.ticks().div_ceil(LINE_TICKS) {
        lines.write_part(&mut text, part)?;
    }
    text.push_str("\n")?;
    write_tasks(&mut text, scene.plan)?;
    text.push_str(LEGEND)?;
    Ok(text)
}
