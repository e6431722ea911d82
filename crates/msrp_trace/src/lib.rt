//! Trace text, read and written: the rows of a text, or its first refusal, and the text of rows.
//!
//! A [`TraceReader`] returns the rows of a text one by one; a [`TraceWriter`] writes rows, and
//! [`write_trace`] a whole trace. [`RowTexts`] stores the text of rows that differ only in the
//! tick, for writing and for comparing. [`laws`] are theorems about writing and reading back.
#![tactic(auto)]

mod faults;
mod guesses;
mod job;
pub mod laws;
mod line;
mod page;
mod reading;
mod res;
mod rows;
mod text;
mod texts;
mod tick;
mod words;
mod writing;

pub use faults::{TraceError, TraceFault};
pub use reading::{TraceReader, Unopened};
pub use texts::RowTexts;
pub use writing::{TraceWriter, are_named, is_named, write_trace};
