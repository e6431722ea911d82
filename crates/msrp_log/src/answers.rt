//! What the program prints, and its exit status.

use msrp_event_text::{LogError, LogVerdict, StateError, SystemError};
use msrp_events::Missing;
use msrp_faults::CliFault;
use msrp_plan::{Memory, WriteFault};
use msrp_text::TextError;
use std::alloc::{AllocError, AllocFailed, Global};
use thiserror::Error;

/// Why there is no verdict. The text of each is the line on standard error, after the program's
/// name.
#[derive(Clone, Copy, Debug, Error, PartialEq, Eq)]
pub enum Refused {
    #[error("usage: msrp_log audit|why|report|state [--op T] [--slack T] [--skew T] [--tick T] [--backlog N] SYSTEM LOG")]
    Usage,
    #[error("system: {0}")]
    System(SystemError),
    #[error("plan: {0}")]
    Plan(TextError),
    #[error("plan: its tasks pass a limit of systems")]
    Limit,
    #[error("log: {0}")]
    Log(LogError),
    #[error("state: {0}")]
    State(StateError),
    #[error("log: it has no record of this number")]
    Short,
    #[error("memory")]
    Memory,
    #[error("read fault")]
    Read,
    #[error("write fault")]
    Write,
}

impl From<CliFault> for Refused {
    fn from(fault: CliFault) -> Refused {
        match fault {
            CliFault::Memory | CliFault::Threads => Refused::Memory,
            CliFault::Read => Refused::Read,
            CliFault::Write => Refused::Write,
            CliFault::Usage | CliFault::Plan { .. } | CliFault::Trace { .. } => Refused::Usage,
        }
    }
}

impl From<LogError> for Refused {
    fn from(error: LogError) -> Refused {
        match error {
            LogError::Memory => Refused::Memory,
            LogError::Read => Refused::Read,
            error => Refused::Log(error),
        }
    }
}

impl From<StateError> for Refused {
    fn from(error: StateError) -> Refused {
        match error {
            StateError::Memory => Refused::Memory,
            StateError::Read => Refused::Read,
            error => Refused::State(error),
        }
    }
}

impl From<SystemError> for Refused {
    fn from(error: SystemError) -> Refused {
        match error {
            SystemError::Memory => Refused::Memory,
            SystemError::Read => Refused::Read,
            error => Refused::System(error),
        }
    }
}

impl From<TextError> for Refused {
    fn from(error: TextError) -> Refused {
        match error {
            TextError::Memory => Refused::Memory,
            TextError::Read => Refused::Read,
            error => Refused::Plan(error),
        }
    }
}

impl From<Memory> for Refused {
    fn from(_refused: Memory) -> Refused {
        Refused::Memory
    }
}

impl From<AllocError> for Refused {
    fn from(_refused: AllocError) -> Refused {
        Refused::Memory
    }
}

impl<T: Drop> From<AllocFailed<T>> for Refused {
    fn from(_refused: AllocFailed<T>) -> Refused {
        Refused::Memory
    }
}

impl From<WriteFault> for Refused {
    fn from(_fault: WriteFault) -> Refused {
        Refused::Write
    }
}

fn missing_name(missing: Missing) -> &'static str {
    match missing {
        Missing::Core => "core",
        Missing::Start => "start",
        Missing::Restart => "restart",
        Missing::Records => "records",
        Missing::Clock => "clock",
        Missing::Release => "release",
        Missing::Request => "request",
        Missing::Room => "room",
    }
}

/// The line of a verdict, and the exit status: 0 for a good log, 1 for a fault, 2 for a log that
/// lacks something, or that ends before its fault is certain.
pub fn verdict_line(alloc: Global, verdict: LogVerdict) -> Result<(String, u8), AllocError> {
    match verdict {
        LogVerdict::Good => Ok((String::from_str(alloc, "good\n")?, 0)),
        LogVerdict::Fault { rule, number } => {
            Ok((format!(in alloc; "fault,{number},{rule:?}\n")?, 1))
        }
        LogVerdict::Unconfirmed { rule, number } => {
            Ok((format!(in alloc; "unconfirmed,{number},{rule:?}\n")?, 2))
        }
        LogVerdict::Incomplete { missing, number } => {
            let missing = missing_name(missing);
            Ok((format!(in alloc; "incomplete,{number},{missing}\n")?, 2))
        }
    }
}

/// The exit status: 2 for a text that is refused, 3 for usage, 4 for memory, 5 for reads and
/// writes.
pub fn exit_of(outcome: &Result<u8, Refused>) -> u8 {
    match outcome {
        Ok(status) => *status,
        Err(
            Refused::System(_)
            | Refused::Plan(_)
            | Refused::Limit
            | Refused::Log(_)
            | Refused::State(_)
            | Refused::Short,
        ) => 2,
        Err(Refused::Usage) => 3,
        Err(Refused::Memory) => 4,
        Err(Refused::Read | Refused::Write) => 5,
    }
}
