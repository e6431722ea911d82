//! The auditor of a kernel's log: event by event, in memory that doesn't grow with the log.
//!
//! A [`LogAuditor`] follows the jobs that are released and have not ended, and reports the first
//! rule that an event
//! violates, or the first thing that the log lacks. `msrp_events` has the definitions that it is
//! proved by.
#![tactic(auto)]

mod auditor;
mod changes;
mod choices;
mod facts;
mod findings;
mod jobs;
mod known;
mod rules;
mod states;
pub mod worked;

pub use auditor::LogAuditor;
pub use choices::{ceiling, choice, first_of};
pub use facts::{Fact, Impossible};
pub use jobs::{awaits, holds, live_job, next_unit};
