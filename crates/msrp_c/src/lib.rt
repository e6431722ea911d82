//! The engines for C, and any language that calls C: texts are bytes in the caller's buffers.
//!
//! No call prints, starts a thread, or has global state; only handles last between calls. The
//! header is `include/msrp.h`, and `docs/C.md` lists what a caller must obey.
#![tactic(auto)]

ghost use Rattle.std.specs.Prelude.{◌≡◌};

mod answers;
mod auditor;
mod audits;
mod content;
mod cores;
mod feeding;
mod handle;
mod held;
mod loading;
mod log_events;
mod logs;
mod loose;
mod names;
mod numbers;
mod open_run;
mod opening;
mod orders;
mod pictures;
mod plans;
mod runs;
mod turns;
mod whys;

pub use answers::MsrpFound;
pub use auditor::{
    msrp_auditor_again, msrp_auditor_due, msrp_auditor_end, msrp_auditor_feed, msrp_auditor_free,
    msrp_auditor_new, msrp_auditor_why,
};
pub use audits::{msrp_audit, msrp_audit_rows, msrp_report};
pub use cores::{msrp_core_arrive, msrp_core_free, msrp_core_turn};
pub use handle::MsrpHandle;
pub use log_events::MsrpLogEvent;
pub use logs::{MsrpTolerances, msrp_log_end, msrp_log_feed, msrp_log_free, msrp_log_new};
pub use names::{msrp_resource_number, msrp_task_number};
pub use pictures::msrp_view;
pub use plans::{msrp_check, msrp_plan_text, msrp_sim};
pub use runs::{msrp_run_core, msrp_run_free, msrp_run_join, msrp_run_new, msrp_run_text};
pub use turns::MsrpRow;
pub use whys::{msrp_why, msrp_why_plan, msrp_why_rows};

// The version of the calls, also in the header.
const VERSION: u32 = 1;

/// The version of these calls. A program built with another version's header must not call them.
#[unsafe(no_mangle)]
pub extern "C" fn msrp_version() -> u32
    ensures { result ≡ 1 }
{
    VERSION
}
