//! Plans, rows and traces, and the definitions that every promise of this repository is stated in.
//!
//! A [`PlanBuilder`] checks a plan call by call and makes a well-formed [`Plan`]. `specs/` defines
//! the legal runs of a plan (`docs/DEFINITIONS.md` leads through it); [`definitions`] and [`laws`]
//! are theorems about them, and [`worked`] has examples.
#![tactic(auto)]

mod builder;
pub mod bytes;
pub mod definitions;
mod faults;
mod ids;
pub mod laws;
pub mod limits;
mod names;
mod parts;
mod plans;
mod requests;
mod rows;
mod task_units;
mod tasks;
mod times;
mod traces;
mod units;
mod users;
pub mod worked;

pub use builder::PlanBuilder;
pub use faults::{Fault, Memory, PlanFault, Rule, WriteFault};
pub use ids::{CoreId, JobId, JobKey, ResId, TaskId};
pub use names::is_name;
pub use plans::Plan;
pub use requests::Requests;
pub use rows::{Kind, Row, TextVersion};
pub use task_units::Units;
pub use times::Times;
pub use traces::Trace;
pub use units::{Call, Op, Phase, Step};
