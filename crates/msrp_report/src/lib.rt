//! What happened to each task in a trace, and can happen in any run: response, spinning, blocking.
//!
//! [`report`] judges a whole trace and makes its [`Report`], with a [`Line`] for each task. A
//! [`Counter`] counts rows that its caller judges; [`write_report`] writes the text.
#![tactic(auto)]

mod bounds;
mod counter;
mod counts;
mod judging;
mod lines;
mod numbers;
mod tallies;
mod totals;
pub mod worked;
mod writing;

pub use counter::Counter;
pub use judging::{ReportError, report};
pub use lines::{Line, Report};
pub use writing::write_report;
