//! Why a row of a trace is refused: the row, the rule, the row expected in its place, and the facts
//! that decide it.
//!
//! [`Notes`] are kept row by row while an auditor judges a trace; [`cause_of`] makes the cause of a
//! fault of them. What a cause holds is proved. The words ([`Why`], [`Ended`], [`RefusedRecord`])
//! are tested. [`laws`] are theorems about what is noted.
#![tactic(auto)]

mod causes;
mod exercise;
pub mod laws;
mod misfits;
mod notes;
mod rows;
mod telling;
mod tried;

pub use causes::{Cause, cause_of};
pub use exercise::{ResourceCounts, TurnCounts};
pub use misfits::RefusedRecord;
pub use notes::{Notes, Numbered, ResourceNotes};
pub use telling::{RefusedRow, Why, sentence};
pub use tried::Ended;
