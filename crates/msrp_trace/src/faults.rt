//! Why a trace's text is refused: R1 to R8.
ghost use Rattle.std.specs.Prelude.{◌≡◌};
ghost use Rattle.msrp_trace.specs.Codes.{code_of};

use thiserror::Error;

/// Why a trace's text is refused. Each refusal has a code, which the program prints.
#[derive(Clone, Copy, Debug, Error, PartialEq, Eq)]
pub enum TraceFault {
    /// R1: the first record isn't that of a trace of the plan, or there is none.
    #[error("R1: the first record is not that of a trace of the plan")]
    Head,
    /// R2: a row has too few or too many fields.
    #[error("R2: a row has too few or too many fields")]
    FieldCount,
    /// R3: a field that must be a number isn't one.
    #[error("R3: a field is no number")]
    Number,
    /// R4: the kind isn't one.
    #[error("R4: the kind is none")]
    Kind,
    /// R5: the plan hasn't this task or resource.
    #[error("R5: the task or the resource is none of the plan")]
    Name,
    /// R6: the row hasn't the parts of a row of its kind.
    #[error("R6: the row has not what its kind has")]
    Shape,
    /// R7: a read failed.
    #[error("R7: a read failed")]
    Read,
    /// R8: out of memory.
    #[error("R8: memory was refused")]
    Memory,
}

impl TraceFault {
    /// The number after R of the code: 1 for [`TraceFault::Head`] to 8 for [`TraceFault::Memory`].
    pub fn code(self) -> u32
        ensures { result ≡ code_of self }
    {
        match self {
            TraceFault::Head => 1,
            TraceFault::FieldCount => 2,
            TraceFault::Number => 3,
            TraceFault::Kind => 4,
            TraceFault::Name => 5,
            TraceFault::Shape => 6,
            TraceFault::Read => 7,
            TraceFault::Memory => 8,
        }
    }
}

/// Why a reader of a trace returned no row.
#[derive(Clone, Copy, Debug, Error, PartialEq, Eq)]
pub enum TraceError {
    /// A record is refused, by its number, counted from 1.
    #[error("record {number}: {fault}")]
    At { fault: TraceFault, number: u32 },
    /// A read of the source failed.
    #[error("a read failed")]
    Read,
    /// Out of memory.
    #[error("memory was refused")]
    Memory,
    /// The reader has refused before.
    #[error("the reader has refused before")]
    Failed,
}
