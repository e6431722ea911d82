//! The started jobs of a core, what they hold, and the core's current ceiling.
//!
//! A started job is preempted only by one that comes before it, so started jobs are a stack with
//! the next one to run on top (Baker 1991). So are their resources: each lock saves the ceiling,
//! and its unlock restores it.
#![tactic(auto)]

mod stack;

pub use stack::CeilingStack;
