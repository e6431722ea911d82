//! The auditor: it accepts exactly the legal runs, and names the first row that violates a rule.
//!
//! [`audit`] judges a whole trace. [`audit_parallel`] does so in pieces, which threads share, and
//! [`audit_gathered`] does with [`Gathered`] rows. An [`Auditor`] judges rows as they arrive.
#![tactic(auto)]

mod auditor;
mod comparing;
mod core_rows;
mod gathered;
mod parallel;
mod pieces;
mod queues;
mod replies;
mod small_row;
mod turns;
mod verdicts;

pub use auditor::Auditor;
pub use gathered::Gathered;
pub use msrp_plan::{Fault, Rule};
pub use parallel::{audit_gathered, audit_parallel};
pub use verdicts::audit;
