//! The state of a core between two calls, and the result of its look at the board.

use msrp_merge::Turn;

/// What a core is doing between two calls.
#[derive(Clone, Copy, Debug, PartialEq, Eq)]
pub enum CoreStep {
    /// It waits for its tick.
    Waiting,
    /// It is in its turn.
    InTurn,
    /// It has arrived from its last tick.
    Ended,
}

/// The result of [`turn`](crate::HostedCore::turn).
#[derive(Clone, Copy, Debug, PartialEq, Eq)]
pub enum Turned {
    /// The core wasn't let in; nothing has changed.
    Waits,
    /// The core was let into its tick, and this is its turn.
    Turn(Turn),
    /// The core is already in a turn; nothing has changed.
    InTurn,
    /// The core has no tick left.
    Ended,
}
