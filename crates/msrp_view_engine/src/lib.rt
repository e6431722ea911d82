//! The engines of the second program, from bytes to bytes, over any reader and writer: the picture
//! of a trace and its page for a browser (`view`), a trace in the format of another tool
//! (`export`), a verdict with its reasons (`why`), and what is wrong or odd in a plan (`why_plan`).
//!
//! The clause `answer` of each says what it answers to the plan and the rows in the bytes of its
//! readers, if no read and no allocation failed. The other clauses hold in every case.
#![tactic(auto)]

mod export;
mod view;
mod why;
mod why_plan;
mod words;

pub use export::export_text;
pub use view::{Drawing, drawing_of_texts, view_text};
pub use why::{why_of_refused_row, why_of_row, why_of_texts, why_text};
pub use why_plan::{why_of_plan, why_plan_text};
pub use words::Words;
