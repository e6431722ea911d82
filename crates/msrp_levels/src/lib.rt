//! Preemption levels, ceilings of resources, and a plan's bounds, each computed once.
//!
//! [`Levels`] answers what the Stack Resource Policy needs to know of a plan (Baker 1991; for
//! global resources Gai, Lipari and Di Natale 2001): a task's level, a resource's ceiling at a
//! core, its users, and how long its sections are.
#![tactic(auto)]

mod footprints;
mod levels;
mod outermost;
mod preemption;
mod usage;
pub mod worked;

pub use levels::Levels;
