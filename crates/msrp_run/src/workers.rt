//! What the threads of a run own, and what they promise.

use msrp_board::BoardSeat;
use msrp_core::Machine;
use msrp_merge::CoreLog;
use msrp_plan::{CoreId, Plan};
use std::snapshot::Snapshot;
use std::thread::PromisedHandle;

/// The parts of a core before its first turn; its thread gets them, and a seat.
#[derive(Drop)]
pub struct CoreParts<'a> {
    pub machine: Machine<'a>,
    pub log: CoreLog,
}

/// The thread of a core returns what its worker does, given the core, its first seat, and the plan.
#[derive(Drop)]
pub(crate) struct WorkPromise {
    pub(crate) core: CoreId,
    pub(crate) seat: Snapshot<BoardSeat>,
    pub(crate) plan: Snapshot<Plan>,
}

/// The thread of a core.
pub(crate) type Handle = PromisedHandle<(CoreLog, BoardSeat), WorkPromise>;

/// The started threads, the seat with the other books, and whether all threads were started: then
/// the cores are let in, otherwise the run is called off.
#[derive(Drop)]
pub(crate) struct Started {
    pub(crate) handles: Vec<Handle>,
    pub(crate) others: BoardSeat,
    pub(crate) all: bool,
}

/// What the started threads left: their logs, the seat with all books, and whether all started.
#[derive(Drop)]
pub(crate) struct Ended {
    pub(crate) logs: Vec<CoreLog>,
    pub(crate) seat: BoardSeat,
    pub(crate) all: bool,
}
