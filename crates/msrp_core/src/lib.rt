//! One core of a plan: which job runs, and what it does in that tick.
//!
//! A [`Machine`] makes the rows of one core, tick by tick: earliest deadline first under the Stack
//! Resource Policy (Baker 1991). Global resources follow MSRP (Gai, Lipari and Di Natale 2001); the
//! machine asks a [`Port`] for them.
#![tactic(auto)]

mod actions;
mod jobs;
mod machine;
mod port;
mod repeats;
mod states;

pub use machine::Machine;
pub use port::{Port, PortCall, Reply};
pub use states::CoreState;
