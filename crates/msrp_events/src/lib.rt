//! A kernel's log as events with times, and the definitions of what a legal one is.
//!
//! `specs/` defines the state after some events, the rules and the first finding (see
//! `docs/LOG.md`). [`laws`] are theorems about these definitions, and [`worked`] has examples.
#![tactic(auto)]

mod events;
mod findings;
pub mod laws;
mod states;
pub mod worked;

pub use events::{Action, Event, LockAction};
pub use findings::{Finding, LogRule, Missing};
pub use states::{CoreLog, LiveJob, Tolerances};
