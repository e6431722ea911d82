//! The data of a page: a JSON object. Blocks and events are written in groups of one kind and lane,
//! a flat list each, in which
//! a tick is told by its distance from the one before; `docs/EXPORTS.md` has the form.

ghost use Rattle.std.specs.Prelude.{◌≡◌, ◌<◌};
ghost use Rattle.msrp_plan.specs.Common.{length};

use crate::units::TickLength;
use crate::{Added, Verdict};
use msrp_levels::Levels;
use msrp_picture::{Block, Event, Lane, Look, Moment, Shapes};
use msrp_plan::{JobId, Kind, Plan, ResId, Row, TaskId};
use msrp_report::Line;

// The digits of a byte that is escaped.
const DIGITS: [&str; 16] = [
    "0", "1", "2", "3", "4", "5", "6", "7", "8", "9", "a", "b", "c", "d", "e", "f",
];

/// The text of the data while it is made.
#[derive(Drop)]
pub(crate) struct Data {
    pub(crate) text: String,
    // The kind, the lane and the judgement of the group that is open, and its last tick.
    group: Option<(u32, u32, bool)>,
    last: u64,
}

fn number_of(kind: Kind) -> u32 {
    match kind {
        Kind::Idle => 0,
        Kind::Run => 1,
        Kind::Lock => 2,
        Kind::Unlock => 3,
        Kind::Take => 4,
        Kind::Queue => 5,
        Kind::Spin => 6,
        Kind::Grant => 7,
        Kind::Release => 8,
    }
}

// The number of a look.
fn look_number(look: Look) -> u32 {
    match look {
        Look::Runs => 0,
        Look::Does(_) => 1,
        Look::Holds => 2,
        Look::First(_) => 3,
        Look::Life(_) => 4,
        Look::Late => 5,
        Look::Ceiling(_) => 6,
    }
}

fn lane_number(lane: Lane) -> u32 {
    match lane {
        Lane::Core(core) => core.0,
        Lane::Ceiling(core) => core.0,
        Lane::Task(task) => task.0,
        Lane::Queue(res) => res.0,
    }
}

fn moment_number(moment: Moment) -> u32 {
    match moment {
        Moment::Release => 0,
        Moment::Deadline => 1,
        Moment::Completion => 2,
    }
}

// The number of a resource, from 1 on; 0 stands for none.
fn place_of(res: Option<ResId>) -> u64 {
    res.map_or(0, |res| res.0 as u64 + 1)
}

// The task, from 1 on, and the number of a job; 0 and 0 stand for none.
fn job_numbers(job: Option<JobId>) -> (u64, u32) {
    job.map_or((0, 0), |job| (job.task.0 as u64 + 1, job.k))
}

impl Data {
    /// Data of which nothing is written yet.
    pub(crate) fn new(text: String) -> Data {
        Data {
            text,
            group: None,
            last: 0,
        }
    }

    // A byte of a string: quotes, backslashes and `<` are escaped, and all that isn't a printable
    // ASCII character.
    fn byte(&mut self, byte: u8) -> Added {
        if byte < 32 || byte > 126 || byte == b'"' || byte == b'\\' || byte == b'<' {
            self.text.push_str("\\u00")?;
            self.text.push_str(DIGITS[(byte / 16 % 16) as usize])?;
            self.text.push_str(DIGITS[(byte % 16) as usize])?;
            return Ok(());
        }
        self.text.push(byte as char)?;
        Ok(())
    }

    fn string(&mut self, bytes: &[u8]) -> Added {
        self.text.push_str("\"")?;
        for byte in bytes {
            self.byte(*byte)?;
        }
        self.text.push_str("\"")?;
        Ok(())
    }

    /// How large the plan is, and the length of a tick.
    pub(crate) fn sizes(&mut self, plan: &Plan, length: Option<TickLength>) -> Added {
        let (cores, ticks) = (plan.cores(), plan.ticks());
        write!(self.text, "{{\"cores\":{cores},\"ticks\":{ticks},\"unit\":")?;
        match length {
            Some(length) => write!(self.text, "[{},\"{}\"]", length.count, length.unit.name())?,
            None => self.text.push_str("null")?,
        }
        Ok(())
    }

    fn task(&mut self, plan: &Plan, levels: &Levels<'_>, task: TaskId) -> Added
        requires levels { levels.now ≡ plan.now }
        requires task { task.0 < length plan.now.tasks }
    {
        self.text.push_str(if task.0 == 0 { "[" } else { ",[" })?;
        self.string(plan.task_name(task).as_bytes())?;
        let (core, deadline) = (plan.core_of(task).0, plan.deadline(task));
        write!(self.text, ",{core},{deadline},{}]", levels.level(task))?;
        Ok(())
    }

    /// The name, the core, the relative deadline and the preemption level of each task.
    pub(crate) fn tasks(&mut self, plan: &Plan, levels: &Levels<'_>) -> Added
        requires { levels.now ≡ plan.now }
    {
        self.text.push_str(",\"tasks\":[")?;
        for task in 0..plan.tasks() {
            self.task(plan, levels, TaskId(task))?;
        }
        self.text.push_str("]")?;
        Ok(())
    }

    fn resource(&mut self, plan: &Plan, levels: &Levels<'_>, res: ResId) -> Added
        requires levels { levels.now ≡ plan.now }
        requires resource { res.0 < length plan.now.resources }
    {
        self.text.push_str(if res.0 == 0 { "[" } else { ",[" })?;
        self.string(plan.res_name(res).as_bytes())?;
        write!(self.text, ",{}]", u32::from(levels.is_global(res)))?;
        Ok(())
    }

    /// The name of each resource, and whether it is global.
    pub(crate) fn resources(&mut self, plan: &Plan, levels: &Levels<'_>) -> Added
        requires { levels.now ≡ plan.now }
    {
        self.text.push_str(",\"resources\":[")?;
        for res in 0..plan.resources() {
            self.resource(plan, levels, ResId(res))?;
        }
        self.text.push_str("]")?;
        Ok(())
    }

    // The row that violates a rule: its tick, core, kind, job and resource.
    fn broken(&mut self, row: Row) -> Added {
        let (kind, (task, k)) = (number_of(row.kind), job_numbers(row.job));
        let (tick, core, res) = (row.tick, row.core.0, place_of(row.res));
        write!(self.text, "[{tick},{core},{kind},{task},{k},{res}]")?;
        Ok(())
    }

    /// The verdict, the row that violates a rule, and the reasons in words.
    pub(crate) fn verdict(&mut self, found: Verdict, shapes: &Shapes, why: &[u8]) -> Added {
        self.text.push_str(",\"fault\":")?;
        match found {
            Ok(()) => self.text.push_str("null")?,
            Err(fault) => write!(self.text, "[{},\"{:?}\"]", fault.row, fault.rule)?,
        }
        self.text.push_str(",\"broken\":")?;
        match shapes.violation {
            None => self.text.push_str("null")?,
            Some(violation) => self.broken(violation.row)?,
        }
        self.text.push_str(",\"why\":")?;
        self.string(why)
    }

    /// The core of each legal row.
    pub(crate) fn order(&mut self, rows: &[Row]) -> Added {
        self.text.push_str(",\"order\":\"")?;
        for row in rows {
            self.text.push_str(DIGITS[(row.core.0 % 16) as usize])?;
        }
        self.text.push_str("\"")?;
        Ok(())
    }

    /// The rows that don't stand a line after the one before, with their lines; line 0 is an
    /// unknown one.
    pub(crate) fn lines(&mut self, lines: &[(u32, u64)]) -> Added {
        self.text.push_str(",\"lines\":[")?;
        let mut between = "";
        for (row, line) in lines {
            write!(self.text, "{between}[{row},{line}]")?;
            between = ",";
        }
        self.text.push_str("]")?;
        Ok(())
    }

    fn line(&mut self, line: &Line) -> Added {
        write!(self.text, "[{},{},{},", line.jobs, line.finished, line.late)?;
        write!(self.text, "{},{},", line.worst_response, line.spin)?;
        write!(self.text, "{},{},", line.worst_spin, line.blocked)?;
        let (spin, blocked) = (line.spin_bound, line.blocked_bound);
        write!(self.text, "{},{spin},{blocked}]", line.worst_blocked)?;
        Ok(())
    }

    /// The report of each task.
    pub(crate) fn report(&mut self, lines: &[Line]) -> Added {
        self.text.push_str(",\"report\":[")?;
        let mut between = "";
        for line in lines {
            self.text.push_str(between)?;
            self.line(line)?;
            between = ",";
        }
        self.text.push_str("]")?;
        Ok(())
    }

    // Begins a list of groups.
    fn begin(&mut self, name: &str) -> Added {
        self.group = None;
        write!(self.text, ",\"{name}\":[")?;
        Ok(())
    }

    // Ends the group that is open, if one is, and the list.
    fn end(&mut self) -> Added {
        let end = if self.group.is_some() { "]]" } else { "]" };
        self.text.push_str(end)?;
        Ok(())
    }

    // A tick, in the group of the one before if that is of the same kind and not later, and else in
    // a new one.
    fn tick(&mut self, group: (u32, u32, bool), tick: u64, is_judged: bool) -> Added {
        if self.group != Some(group) || tick < self.last {
            let (what, lane, is_legal) = group;
            self.text
                .push_str(if self.group.is_some() { "],[" } else { "[" })?;
            write!(self.text, "{what},{lane}")?;
            if is_judged {
                write!(self.text, ",{}", u32::from(is_legal))?;
            }
            (self.group, self.last) = (Some(group), 0);
        }
        write!(self.text, ",{}", tick.saturating_sub(self.last))?;
        self.last = tick;
        Ok(())
    }

    // A block: its first tick, its length, and what its look needs.
    fn block(&mut self, block: &Block) -> Added {
        let group = (
            look_number(block.look),
            lane_number(block.lane),
            block.is_legal,
        );
        self.tick(group, block.first, true)?;
        let (length, (task, k)) = (
            block.end.saturating_sub(block.first),
            job_numbers(block.job),
        );
        let (task, res) = (task.saturating_sub(1), place_of(block.res));
        write!(self.text, ",{length}")?;
        match block.look {
            Look::Runs => write!(self.text, ",{task},{k}")?,
            Look::Does(kind) => write!(self.text, ",{k},{},{res}", number_of(kind))?,
            Look::Holds => write!(self.text, ",{k},{}", res.saturating_sub(1))?,
            Look::First(waiting) => write!(self.text, ",{task},{k},{waiting}")?,
            Look::Life(is_finished) => write!(self.text, ",{k},{}", u32::from(is_finished))?,
            Look::Late => write!(self.text, ",{k}")?,
            Look::Ceiling(level) => write!(self.text, ",{level}")?,
        }
        Ok(())
    }

    /// The blocks.
    pub(crate) fn blocks(&mut self, blocks: &[Block]) -> Added {
        self.begin("blocks")?;
        for block in blocks {
            self.block(block)?;
        }
        self.end()
    }

    /// The releases, absolute deadlines and completions.
    pub(crate) fn events(&mut self, events: &[Event]) -> Added {
        self.begin("events")?;
        for event in events {
            let group = (moment_number(event.moment), event.job.task.0, true);
            self.tick(group, event.tick, false)?;
            write!(self.text, ",{}", event.job.k)?;
        }
        self.end()
    }
}
