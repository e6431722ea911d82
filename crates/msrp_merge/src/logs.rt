//! What a core did, turn by turn, with the places that make a merge possible.
ghost use Rattle.std.specs.Prelude.{◌≡◌, ◌<◌, ◌++◌, ◌∷◌};
ghost use Rattle.msrp_plan.specs.Common.{[], length, slice_index_or, IfOk};
ghost use Rattle.msrp_merge.specs.declared.logs.Turn.{Turn as TurnAt};

use crate::kept::Kept;
use msrp_plan::{CoreId, Memory, Row};
use std::alloc::Global;
use std::marker::Model;

/// Where a turn's step is among all steps on its global resource, as the board answered.
#[derive(Clone, Copy, Debug, PartialEq, Eq)]
pub struct Place {
    /// The number of requests and releases of the resource before the step.
    pub number: u32,
    /// Whether the step was a poll, which reads a place; a request or a release takes one.
    pub polled: bool,
}

/// A turn as its core logs it: the row, and its step's place, if it made one on a global resource.
#[derive(Clone, Copy, Debug, PartialEq, Eq)]
pub struct Turn {
    pub row: Row,
    pub place: Option<Place>,
}

/// The turns of one core, from tick 0 on. A turn takes 24 bytes.
#[derive(Debug, Drop)]
pub struct CoreLog {
    core: CoreId,
    ticks: u32,
    kept: Vec<Kept>,
}

impl Model for CoreLog {
    ghost use Rattle.std.specs.Prelude.{◌≤◌, vec_len, vec_capacity};
    ghost use Rattle.msrp_merge.specs.Keeping.{turns_from};
    ghost use Rattle.msrp_merge.specs.Turns.{LogModel};

    ghost Value = { LogModel };

    ghost view = { λ log. record { core = log.core.0; ticks = log.ticks; turns = turns_from log.core.0 0 log.kept.items } };

    ghost invariant = { λ log. (vec_len log.kept ≤ log.ticks) × (log.ticks ≤ vec_capacity log.kept) };
}

impl CoreLog {
    /// An empty log of a core for this many ticks, with all the memory that it will ever need;
    /// [`Memory`] only if memory runs out.
    pub fn with_room(alloc: Global, core: CoreId, ticks: u32) -> Result<CoreLog, Memory>
        ensures { IfOk result (λ log. log ≡ record { core = core.0; ticks = ticks; turns = [] }) }
    {
        let kept = Vec::with_capacity(alloc, ticks as usize)?;
        Ok(CoreLog { core, ticks, kept })
    }

    /// Adds the core's turn of the next tick. Needs no memory.
    pub fn push(&mut self, row: Row, place: Option<Place>)
        requires core { row.core.0 ≡ self.old.core }
        requires tick { row.tick ≡ length self.old.turns }
        requires room { row.tick < self.old.ticks }
        ensures { self.new ≡ record self.old { turns = self.old.turns ++ record { row = row; place = place } ∷ [] } }
    {
        self.kept.push_reserved(Kept::of(row, place));
    }

    /// The core of the log.
    pub fn core(&self) -> CoreId
        ensures { result.0 ≡ self.now.core }
    {
        self.core
    }

    /// The number of ticks that the log is for.
    pub fn ticks(&self) -> u32
        ensures { result ≡ self.now.ticks }
    {
        self.ticks
    }

    /// The number of its turns: the tick of the next.
    pub fn len(&self) -> usize
        ensures { result ≡ length self.now.turns }
    {
        self.kept.len()
    }

    /// The turn of a tick.
    pub fn turn(&self, tick: u32) -> Turn
        requires { tick < length self.now.turns }
        ensures { (d : TurnAt) → result ≡ slice_index_or self.now.turns tick d }
    {
        self.kept[tick as usize].turn(self.core, tick)
    }
}
