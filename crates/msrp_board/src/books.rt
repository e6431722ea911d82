//! What the cores did on a board, for contracts. `Entry` and `Book` are never built: they are the
//! knowledge of a seat, and take no memory.

use msrp_plan::{Call, ResId};
use std::collections::LinkedList;

/// A core's step on a resource's word.
pub struct Entry {
    /// The tick of the step.
    pub tick: u32,
    pub res: ResId,
    /// The number of requests and releases of the resource before it.
    pub place: u32,
    pub call: Call,
}

/// What a core did on a board.
pub struct Book {
    /// The oldest entry first.
    pub entries: LinkedList<Entry>,
    /// The number of ticks that the core has arrived from: the tick that it is in or waits for.
    pub tick: u32,
    /// Whether the core was let into that tick.
    pub admitted: bool,
    /// Whether the core saw that the run was called off.
    pub stopped: bool,
}

/// What the conductor of a run did: it lets the cores into tick 0, or calls the run off.
#[derive(Clone, Copy, Debug, PartialEq, Eq)]
pub enum Conductor {
    /// Nothing yet.
    Unopened,
    /// It let the cores into tick 0.
    Opened,
    /// It called the run off.
    Aborted,
}

/// The numbers of a board.
#[derive(Clone, Copy, Debug, PartialEq, Eq)]
pub struct BoardSize {
    /// 1 to [`MOST_CORES`](msrp_plan::limits::MOST_CORES).
    pub cores: u32,
    /// At most [`MOST_RESOURCES`](msrp_plan::limits::MOST_RESOURCES).
    pub resources: u32,
    /// 1 to [`MOST_TICKS`](msrp_plan::limits::MOST_TICKS).
    pub ticks: u32,
}
