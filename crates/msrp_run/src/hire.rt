//! Which threads may start, and why a run is refused.
ghost use Rattle.std.specs.Prelude.{◌≡◌, true};

use msrp_plan::{CoreId, Memory};
use thiserror::Error;

/// Decides whether a core's thread may start. Called once for each core, in rising order, just
/// before the start. A no counts as a failed start.
pub trait Hire {
    /// Whether the core's thread may start.
    fn may_start(&self, core: CoreId) -> bool;
}

/// Lets every thread start.
#[derive(Clone, Copy, Debug)]
pub struct HireAll;

impl Hire for HireAll {
    fn may_start(&self, _core: CoreId) -> bool
        ensures { result ≡ true }
    {
        true
    }
}

/// Why a plan was not run.
#[derive(Clone, Copy, Debug, Error, PartialEq, Eq)]
pub enum RunError {
    /// Out of memory, before the first tick or after the last.
    #[error("U1: memory was refused")]
    U1,
    /// A thread couldn't be started, so no core had a turn; also if the start lacked memory.
    #[error("U2: a thread was refused")]
    U2,
}

impl From<Memory> for RunError {
    ghost use Rattle.msrp_run.specs.declared.hire.RunError.{RunError};

    ghost from_gives = { λ _ error. error ≡ RunError.U1 };

    fn from(_error: Memory) -> RunError {
        RunError::U1
    }
}
