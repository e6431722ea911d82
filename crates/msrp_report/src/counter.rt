//! The report of a legal run, counted row by row as the rows arrive.

ghost use Rattle.std.specs.Prelude.{◌≡◌, ◌≤◌, ◌++◌, ◌∷◌};
ghost use Rattle.msrp_plan.specs.Common.{[], List, IfOk, None, length, All, fault_in};
ghost use Rattle.msrp_plan.specs.declared.rows.Row.{Row as TraceRow};
ghost use Rattle.msrp_report.specs.Lines.{lines_of};

use crate::lines::{Line, Report};
use crate::tallies::Tallies;
use crate::totals::task_line;
use msrp_levels::Levels;
use msrp_plan::{Memory, Plan, Row, TaskId};
use std::alloc::Global;

/// Counts, for each task, what happened in the rows so far. It doesn't judge rows: its caller has
/// an `Auditor`, and counts only rows that this accepts. No row is stored.
#[derive(Drop)]
pub struct Counter<'a> {
    plan: &'a Plan,
    levels: &'a Levels<'a>,
    tallies: Tallies,
    lines: Vec<Line>,
}

impl<'a> Counter<'a> {
    ghost use Rattle.msrp_report.specs.Reports.{HasCounted, MayCount, SomeCounted};

    /// A counter before the first row, with all the memory that it will ever need; [`Memory`] only
    /// if memory runs out. The levels are the plan's.
    pub fn with_room(
        alloc: Global,
        plan: &'a Plan,
        levels: &'a Levels<'a>,
    ) -> Result<Counter<'a>, Memory>
        requires levels { levels.now ≡ plan.now }
        ensures plan { IfOk result (λ counter. counter.plan.now ≡ plan.now) }
        ensures counted { IfOk result (λ counter. HasCounted counter []) }
    {
        Ok(Counter {
            plan,
            levels,
            tallies: Tallies::with_room(alloc, plan)?,
            lines: Vec::with_capacity(alloc, plan.tasks() as usize)?,
        })
    }

    /// Counts the next row of a legal start. Needs no memory.
    #[inline(always)]
    pub fn count(&mut self, row: Row)
        requires { MayCount self.old row }
        ensures plan { self.new.plan ≡ self.old.plan }
        ensures counted { (rows : List TraceRow) → HasCounted self.old rows → fault_in self.old.plan.now (rows ++ row ∷ []) ≡ None → HasCounted self.new (rows ++ row ∷ []) }
    {
        self.tallies.reach(self.plan, row.tick);
        self.tallies.feed(self.plan, row);
    }

    /// The report of the rows.
    pub fn end(self) -> Report
        requires { SomeCounted self }
        // Each number is its count over the rows, or the plan's bound.
        ensures lines { (rows : List TraceRow) → HasCounted self.entry rows → result.lines.items ≡ lines_of self.entry.plan.now rows }
        // A line for each task.
        ensures tasks { length result.lines.items ≡ length self.entry.plan.now.tasks }
        // The counts are within the bounds.
        ensures spinning { All (λ line. line.worst_spin ≤ line.spin_bound) result.lines.items }
        ensures blocking { All (λ line. line.worst_blocked ≤ line.blocked_bound) result.lines.items }
    {
        let Counter {
            plan,
            levels,
            tallies,
            mut lines,
        } = self;
        for task in 0..plan.tasks() {
            lines.push_reserved(task_line(plan, levels, &tallies, TaskId(task)));
        }
        Report { lines }
    }
}
