//! What a program answers in place of an output, and the exit status.

ghost use Rattle.std.specs.Prelude.{◌≡◌};
ghost use Rattle.msrp_faults.specs.Outcomes.{fault_of, run_fault, status_of, trace_fault_of};

use msrp_plan::{Memory, WriteFault};
use msrp_run::RunError;
use msrp_text::TextError;
use msrp_trace::TraceError;
use std::alloc::{AllocError, AllocFailed};
use thiserror::Error;

/// Why a program didn't do its task. The text of each is its line on standard error, after the
/// program's name, a colon and a space.
#[derive(Clone, Copy, Debug, Error, PartialEq, Eq)]
pub enum CliFault {
    /// The plan is refused: the number after P of the code, and the record, counted from 1.
    #[error("plan: P{code} at record {number}")]
    Plan { code: u32, number: u32 },
    /// The trace is refused: the number after R of the code, and the record, counted from 1.
    #[error("trace: R{code} at record {number}")]
    Trace { code: u32, number: u32 },
    /// The arguments are no command, or ask for what the plan doesn't have.
    #[error("usage")]
    Usage,
    /// Out of memory.
    #[error("memory")]
    Memory,
    /// A thread couldn't be started.
    #[error("threads")]
    Threads,
    /// A read failed, or a file couldn't be opened.
    #[error("read fault")]
    Read,
    /// A write failed.
    #[error("write fault")]
    Write,
}

impl From<TextError> for CliFault {
    ghost from_gives = { λ error fault. fault ≡ fault_of error };

    fn from(error: TextError) -> CliFault {
        match error {
            TextError::At { fault, number } => CliFault::Plan {
                code: fault.code(),
                number,
            },
            TextError::Read => CliFault::Read,
            TextError::Memory => CliFault::Memory,
        }
    }
}

impl From<TraceError> for CliFault {
    ghost from_gives = { λ error fault. fault ≡ trace_fault_of error };

    fn from(error: TraceError) -> CliFault {
        match error {
            TraceError::At {
                fault: refusal,
                number: record,
            } => CliFault::Trace {
                code: refusal.code(),
                number: record,
            },
            TraceError::Memory => CliFault::Memory,
            // A reader that has refused isn't asked again.
            TraceError::Read | TraceError::Failed => CliFault::Read,
        }
    }
}

impl From<Memory> for CliFault {
    ghost use Rattle.msrp_faults.specs.declared.faults.CliFault.{CliFault};

    ghost from_gives = { λ _ fault. fault ≡ CliFault.Memory };

    fn from(_error: Memory) -> CliFault {
        CliFault::Memory
    }
}

impl From<AllocError> for CliFault {
    ghost use Rattle.msrp_faults.specs.declared.faults.CliFault.{CliFault};

    ghost from_gives = { λ _ fault. fault ≡ CliFault.Memory };

    fn from(_error: AllocError) -> CliFault {
        CliFault::Memory
    }
}

impl<T: Drop> From<AllocFailed<T>> for CliFault {
    ghost use Rattle.msrp_faults.specs.declared.faults.CliFault.{CliFault};

    ghost from_gives = { λ _ fault. fault ≡ CliFault.Memory };

    fn from(_error: AllocFailed<T>) -> CliFault {
        CliFault::Memory
    }
}

impl From<WriteFault> for CliFault {
    ghost use Rattle.msrp_faults.specs.declared.faults.CliFault.{CliFault};

    ghost from_gives = { λ _ fault. fault ≡ CliFault.Write };

    fn from(_error: WriteFault) -> CliFault {
        CliFault::Write
    }
}

impl From<RunError> for CliFault {
    ghost from_gives = { λ error fault. fault ≡ run_fault error };

    fn from(error: RunError) -> CliFault {
        match error {
            RunError::U1 => CliFault::Memory,
            RunError::U2 => CliFault::Threads,
        }
    }
}

/// The exit status: 2 for a refused text, 3 usage, 4 memory and threads, 5 reads and writes.
pub fn exit_of(outcome: &Result<u8, CliFault>) -> u8
    ensures { result ≡ status_of outcome.now }
{
    match outcome {
        Ok(status) => *status,
        Err(CliFault::Plan { .. } | CliFault::Trace { .. }) => 2,
        Err(CliFault::Usage) => 3,
        Err(CliFault::Memory | CliFault::Threads) => 4,
        Err(CliFault::Read | CliFault::Write) => 5,
    }
}
