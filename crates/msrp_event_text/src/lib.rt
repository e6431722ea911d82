//! The text of a kernel's log, read and judged.
//!
//! [`audit_log`] judges the events of a text as they are read, in memory that doesn't grow with the
//! text, [`judge_log`] also leaves the auditor as it was before the event that decides,
//! [`read_state`] gives an auditor the state in the middle of a log, and [`read_system`] reads the
//! system. `docs/LOG.md` has both formats. Whether the fields
//! beyond an event's own are empty isn't judged.
#![tactic(auto)]

mod actions;
mod auditing;
mod confirming;
mod events;
mod facts;
pub mod laws;
mod numbers;
mod states;
mod systems;
mod verdicts;

pub use auditing::{Unwatched, Watch, audit_log, judge_log};
pub use events::{Refusal, event_of};
pub use states::{StateError, StateRefusal, read_state};
pub use systems::{SystemError, SystemRefusal, read_system};
pub use verdicts::{Judged, LogError, LogVerdict, Shown};
