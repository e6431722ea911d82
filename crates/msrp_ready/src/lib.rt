//! The ready jobs of a core: those released and not started, the one with the least key first.
//!
//! [`Ready`] has the core's jobs in a calendar by release, and the released ones that aren't taken
//! yet in a binary heap by key. Both get all their memory at once.
#![tactic(auto)]

mod calendar;
mod heap;
mod keyed;
mod ready;

pub use ready::Ready;
