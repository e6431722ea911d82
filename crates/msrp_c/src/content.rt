//! What a handle has between two calls: an auditor of rows or of a log, a run, or a core of a run.

use crate::held::FedAuditor;
use crate::open_run::OpenRun;
use msrp_event_audit::LogAuditor;
use msrp_hosted::{HostedCore, SettledRun};

/// What a handle points to.
#[derive(Drop)]
#[cycle(held)]
pub enum Content {
    /// An auditor that is fed row by row.
    Auditor(FedAuditor<'static>),
    /// An auditor of a kernel's log that is fed event by event.
    Log(LogAuditor<'static>),
    /// A run whose cores are handed out and joined.
    Open(OpenRun),
    /// A run whose cores were all joined.
    Settled(SettledRun<'static>),
    /// A core of a run.
    Core(HostedCore<'static>),
    /// Nothing: its memory is for a core that will be handed out.
    Spare,
}
