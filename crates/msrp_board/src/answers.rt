//! The board's answers and refusals.

use std::alloc::AllocError;
use thiserror::Error;

/// A request's answer.
#[derive(Clone, Copy, Debug, PartialEq, Eq)]
pub struct Asked {
    /// The number of requests and releases of the resource before it.
    pub place: u32,
    /// The number of earlier requests not yet released. If 0, the resource is granted.
    pub ahead: u32,
}

/// A poll's answer.
#[derive(Clone, Copy, Debug, PartialEq, Eq)]
pub struct Polled {
    /// The number of requests and releases of the resource before it.
    pub place: u32,
    /// Whether the resource is granted.
    pub granted: bool,
}

/// What a core sees at the barrier.
#[derive(Clone, Copy, Debug, PartialEq, Eq)]
pub enum Look {
    /// Some core hasn't arrived from the tick before, or the run hasn't begun.
    Wait,
    /// The core is let into its tick.
    Go,
    /// The run was called off.
    Stopped,
}

/// The state of a core's seat.
#[derive(Clone, Copy, Debug, PartialEq, Eq)]
pub enum SeatPhase {
    /// It waits for its tick.
    Waiting,
    /// It was let into its tick, and has not arrived from it.
    Admitted,
    /// It has arrived from the last tick.
    Done,
    /// It saw that the run was called off.
    Stopped,
}

/// Why a board is refused.
#[derive(Clone, Copy, Debug, Error, PartialEq, Eq)]
pub enum BoardError {
    /// Cores not 1 to [`MOST_CORES`](msrp_plan::limits::MOST_CORES), more resources than
    /// [`MOST_RESOURCES`](msrp_plan::limits::MOST_RESOURCES), or ticks not 1 to
    /// [`MOST_TICKS`](msrp_plan::limits::MOST_TICKS). Checked before any allocation.
    #[error("B1: a size of the board is past its limit")]
    B1,
    /// Out of memory.
    #[error("B2: memory was refused")]
    B2,
}

impl From<AllocError> for BoardError {
    ghost use Rattle.std.specs.Prelude.{◌≡◌};
    ghost use Rattle.msrp_board.specs.declared.answers.BoardError.{BoardError};

    ghost from_gives = { λ _ error. error ≡ BoardError.B2 };

    fn from(_refused: AllocError) -> BoardError {
        BoardError::B2
    }
}
