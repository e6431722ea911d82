//! How a log is judged, and why one isn't.
ghost use Rattle.std.specs.Prelude.{◌≡◌};
ghost use Rattle.msrp_event_text.specs.declared.verdicts.LogError.TheVariants as error;

use crate::events::Refusal;
use msrp_events::{Event, Finding, LogRule, Missing};
use msrp_plan::Memory;
use msrp_text::records::Stopped;
use thiserror::Error;

/// How a log is judged. Records are counted from 1.
#[derive(Clone, Copy, Debug, PartialEq, Eq)]
pub enum LogVerdict {
    /// Its events are the start of a legal log.
    Good,
    /// The scheduler violates a rule, which the record of that number shows.
    Fault { rule: LogRule, number: u64 },
    /// The same, unless records were lost: the log ends before each other core has shown by one
    /// more record that none were.
    Unconfirmed { rule: LogRule, number: u64 },
    /// The log lacks something, which the record of that number shows.
    Incomplete { missing: Missing, number: u64 },
}

/// The first event that shows something, in the record of that number.
#[derive(Clone, Copy, Debug, PartialEq, Eq)]
pub struct Shown {
    pub finding: Finding,
    pub event: Event,
    pub number: u64,
}

/// The verdict on a log, and what decides it; nothing does if the log is good.
#[derive(Clone, Copy, Debug, PartialEq, Eq)]
pub struct Judged {
    pub verdict: LogVerdict,
    pub shown: Option<Shown>,
}

/// Why a log isn't judged to its end.
#[derive(Clone, Copy, Debug, Error, PartialEq, Eq)]
pub enum LogError {
    /// The first record isn't `msrp-log,1,CORES` with the number of the system's cores.
    #[error("record 1: it must be msrp-log,1 and the number of cores of the system")]
    Head,
    /// The record of that number is no event.
    #[error("record {number}: {refusal}")]
    Record { refusal: Refusal, number: u64 },
    /// A read of the source failed.
    #[error("a read failed")]
    Read,
    /// Memory was refused.
    #[error("memory was refused")]
    Memory,
}

impl From<Memory> for LogError {
    ghost from_gives = { λ _ given. given ≡ error.Memory };

    fn from(_refused: Memory) -> LogError {
        LogError::Memory
    }
}

impl From<Stopped> for LogError {
    ghost use Rattle.msrp_event_text.specs.LogVerdicts.{error_at};

    ghost from_gives = { λ why given. given ≡ error_at why };

    fn from(why: Stopped) -> LogError {
        match why {
            Stopped::Read => LogError::Read,
            Stopped::Memory => LogError::Memory,
        }
    }
}
