//! A system whose kernel is judged by its log: cores, tasks with relative deadlines in ns, and what
//! the tasks lock.
//!
//! A [`System`] is a plan without ticks and release times: the log has these. It answers what the
//! Stack Resource
//! Policy asks (Baker 1991; for global resources Gai, Lipari and Di Natale 2001) from tables that
//! are made once.
#![tactic(auto)]

mod parts;
mod systems;
mod tables;

pub use parts::{MOST_CORES, MOST_RESOURCES, MOST_STEPS, MOST_TASKS, Task};
pub use systems::{System, SystemFault};
