//! Which ticks are drawn.
ghost use Rattle.std.specs.Prelude.{◌≡◌};
ghost use Rattle.msrp_picture.specs.Rows.{window_of, is_at, is_seen};

use crate::Verdict;
use crate::shapes::{Block, Event};
use msrp_plan::Plan;

/// The most ticks that are drawn if no last tick is asked for.
pub const SHORT_RUN: u32 = 200;

/// How a picture is drawn.
#[derive(Clone, Copy, Debug, PartialEq, Eq)]
pub enum Style {
    /// In plain text.
    Text,
    /// In SVG.
    Svg,
}

/// What is asked for: how it is drawn, and the ticks, from one on and up to another, which is left
/// out.
#[derive(Clone, Copy, Debug, PartialEq, Eq)]
pub struct Asked {
    pub style: Style,
    pub from: Option<u32>,
    pub to: Option<u32>,
}

/// The ticks that are drawn, from one on and up to another, which is left out.
#[derive(Clone, Copy, Debug, PartialEq, Eq)]
pub struct Window {
    pub from: u32,
    pub to: u32,
}

/// The ticks that are asked for. The first is 0 by default. The end is by default that of the plan,
/// but at most [`SHORT_RUN`] ticks after the first. None if the plan doesn't have these ticks.
pub fn window_of(plan: &Plan, asked: Asked) -> Option<Window>
    ensures { result ≡ window_of plan.now asked }
{
    let from = asked.from.unwrap_or(0);
    let to = asked
        .to
        .unwrap_or(plan.ticks().min(from.saturating_add(SHORT_RUN)));
    (from < to && to <= plan.ticks()).then_some(Window { from, to })
}

/// The tick in which the row of this number is expected. Rows count from 1, and each tick has a row
/// for each core.
pub(crate) fn expected_tick(plan: &Plan, row: u32) -> u32 {
    row.saturating_sub(1) / plan.cores()
}

// At most SHORT_RUN ticks of the plan, half of them before this one.
fn around(plan: &Plan, tick: u32) -> Window {
    let last = plan.ticks().saturating_sub(SHORT_RUN);
    let from = tick.saturating_sub(SHORT_RUN / 2).min(last);
    let to = plan.ticks().min(from.saturating_add(SHORT_RUN));
    Window { from, to }
}

/// The ticks that are drawn: those around the fault if a rule is violated and no ticks are asked
/// for, and else the window.
pub(crate) fn shown_window(plan: &Plan, asked: Asked, window: Window, found: Verdict) -> Window {
    match (asked.from, asked.to, found) {
        (None, None, Err(fault)) => around(plan, expected_tick(plan, fault.row)),
        _ => window,
    }
}

impl Window {
    /// How many ticks are drawn.
    pub(crate) fn ticks(self) -> u32 {
        self.to.saturating_sub(self.from)
    }

    /// Whether a tick is drawn.
    pub(crate) fn has_tick(self, tick: u32) -> bool {
        (self.from..self.to).contains(&tick)
    }

    /// Whether some of a block's ticks are drawn.
    pub(crate) fn has_block(self, block: &Block) -> bool
        ensures { result ≡ is_seen self block.now }
    {
        block.first.max(self.from as u64) < block.end.min(self.to as u64)
    }

    /// Whether the tick of an event is drawn, or is the end of the picture.
    pub(crate) fn has_event(self, event: &Event) -> bool
        ensures { result ≡ is_at self event.now }
    {
        self.from as u64 <= event.tick && event.tick <= self.to as u64
    }
}
