//! What is wrong with a refused plan, and what is odd in an accepted one, in words.
//!
//! [`RefusedPlan`] says why a record is refused, and shows it with the earlier records that the
//! refusal concerns. [`AcceptedPlan`] lists the [`Warning`]s on a plan. Which records and which
//! warnings these are is proved; their sentences are tested.
#![tactic(auto)]

mod nested;
mod reasons;
mod records;
mod refused;
mod shown;
mod warnings;

pub use nested::{NestedLocks, nested_locks};
pub use records::{earlier_record, field};
pub use refused::RefusedPlan;
pub use shown::{Count, Shown, ShownRecord, res_name, task_name};
pub use warnings::{AcceptedPlan, Warning, warnings_of};
