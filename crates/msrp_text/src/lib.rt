//! Plan text: the plan of a text, or its first refusal, and the text of a plan.
//!
//! [`read_plan`] reads a text, and [`write_plan`] writes one. [`records`] and [`fields`] read any
//! such text's records. [`laws`] are theorems about texts, and [`worked`] has examples.
#![tactic(auto)]

mod breaks;
mod csv_records;
pub mod fields;
mod front;
pub mod laws;
mod lines;
mod positions;
pub mod reading;
pub mod records;
mod usual;
pub mod worked;
mod writing;

pub use reading::{TextError, read_plan};
pub use writing::write_plan;
