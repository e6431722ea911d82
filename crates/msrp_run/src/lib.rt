//! A plan on threads: one worker for each core, on one board, and the trace of what they did.
//!
//! [`turn_on`] is one core's turn on a board. A [`Stage`] makes all turns, each on its thread.
#![tactic(auto)]

mod hire;
pub mod laws;
mod port;
mod threads;
mod turns;
mod work;
mod workers;

pub use hire::{Hire, HireAll, RunError};
pub use threads::{parts_of, run_logged_if, run_threads, run_threads_if};
pub use turns::{Plain, Stage, turn_on};
pub use work::{Begun, Progress, begin, finish, round, worker};
pub use workers::CoreParts;
