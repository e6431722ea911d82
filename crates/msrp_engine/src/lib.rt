//! The engines: from bytes to bytes, over any reader and writer.
//!
//! Each reads a plan, and some also a trace of it, and writes one text: a simulation (`sim`), a run
//! on threads (`run`), a verdict (`audit`, `audit_parallel`), a report (`report`), levels and
//! ceilings (`check`), or the plan's own text (`own_text`). Otherwise it answers a [`CliFault`];
//! [`exit_of`] gives the exit status. `msrp_view_engine` makes pictures and explanations.
#![tactic(auto)]

mod audit;
mod audit_parallel;
mod check;
mod judged;
mod made;
mod own_text;
mod reading;
mod report;
mod run;
mod sim;
mod texts;

pub use audit::{audit_text, judge_texts};
pub use audit_parallel::audit_parallel_text;
pub use check::check_text;
pub use judged::{Broken, JudgedRows, Judgement};
pub use made::Made;
pub use msrp_faults::{CliFault, exit_of, gathered_text, write_answer};
pub use own_text::plan_text;
pub use reading::{ending_of, settled};
pub use report::{report_of_texts, report_text};
pub use run::{run_text, run_text_by, run_text_if};
pub use sim::sim_text;
