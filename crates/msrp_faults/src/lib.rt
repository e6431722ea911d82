//! What engines and programs answer: an exit status or a fault, and how a text is written with it.
#![tactic(auto)]

mod faults;
mod texts;

pub use faults::{CliFault, exit_of};
pub use texts::{gathered_text, write_answer};
