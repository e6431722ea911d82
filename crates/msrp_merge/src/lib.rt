//! The logs of the cores, merged into one trace.
//!
//! Each core logs its own turns, with the board's place of each step on a global resource. If the
//! logs fit the board's books, the merge is a legal run. No shared clock is needed: the places
//! order the steps on a resource, and turns on different resources commute.
#![tactic(auto)]

mod kept;
pub mod laws;
mod logs;
mod merging;
mod order;
#[cfg(test)]
mod tests;

pub use logs::{CoreLog, Place, Turn};
pub use merging::{Merging, merge};
