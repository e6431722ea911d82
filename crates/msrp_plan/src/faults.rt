//! Why a plan is refused, which rule a row violates, and the errors of allocation and writing.
ghost use Rattle.std.specs.Prelude.{◌≡◌};
ghost use Rattle.msrp_plan.specs.Codes.{code_of};
ghost use Rattle.msrp_plan.specs.Words.{rule_text};
ghost use Rattle.msrp_plan.specs.declared.faults.PlanFault.TheVariants as codes;

use std::alloc::{AllocError, AllocFailed};
use std::fmt;
use thiserror::Error;

/// Why a plan is refused. Each refusal has a code, which the program prints.
#[derive(Clone, Copy, Debug, Error, PartialEq, Eq)]
pub enum PlanFault {
    /// P1: the first record is not the version, or there is none.
    #[error("P1: the first record is not the version")]
    Version,
    /// P2: a record is unknown or out of place, or the end comes too early.
    #[error("P2: a record is unknown, out of place or missing")]
    OutOfPlace,
    /// P3: a record has too few or too many fields.
    #[error("P3: a record has too few or too many fields")]
    FieldCount,
    /// P4: a field that must be a number isn't one.
    #[error("P4: a field is no number")]
    Number,
    /// P5: a declared name isn't a name.
    #[error("P5: a field is no name")]
    Name,
    /// P6: a task, or a resource, of that name exists already.
    #[error("P6: a name stands already")]
    Taken,
    /// P7: a number out of range, or a resource, task, unit, release or held resource too many.
    #[error("P7: a limit of plans is passed")]
    Limit,
    /// P8: a resource that was not declared.
    #[error("P8: a resource was not declared")]
    Undeclared,
    /// P9: a core's number isn't below the number of cores.
    #[error("P9: a core is not below the number of cores")]
    Core,
    /// P10: a lock of a resource that the task holds, an unlock of one that isn't the innermost, or
    /// a resource still held at the task's end.
    #[error("P10: locks and unlocks do not nest")]
    Nesting,
    /// P11: a global resource is locked while a global one is held.
    #[error("P11: a global resource is locked while a global one is held")]
    NestedGlobal,
    /// P12: a task ends without a unit.
    #[error("P12: a task has no unit")]
    NoUnit,
    /// P13: more jobs than the limit.
    #[error("P13: there are more jobs than the limit")]
    Jobs,
    /// P14: the ticks of a release list do not rise, or there is none.
    #[error("P14: the ticks of a release list do not rise, or there is none")]
    Releases,
    /// P15: a read failed.
    #[error("P15: a read failed")]
    Read,
    /// P16: out of memory.
    #[error("P16: memory was refused")]
    Memory,
}

impl From<AllocError> for PlanFault {
    ghost from_gives = { λ _ fault. fault ≡ codes.Memory };

    fn from(_refused: AllocError) -> PlanFault {
        PlanFault::Memory
    }
}

impl<T: Drop> From<AllocFailed<T>> for PlanFault {
    ghost from_gives = { λ _ fault. fault ≡ codes.Memory };

    fn from(_refused: AllocFailed<T>) -> PlanFault {
        PlanFault::Memory
    }
}

impl PlanFault {
    /// The number after P of the code: 1 ([`PlanFault::Version`]) to 16 ([`PlanFault::Memory`]).
    pub fn code(self) -> u32
        ensures { result ≡ code_of self }
    {
        match self {
            PlanFault::Version => 1,
            PlanFault::OutOfPlace => 2,
            PlanFault::FieldCount => 3,
            PlanFault::Number => 4,
            PlanFault::Name => 5,
            PlanFault::Taken => 6,
            PlanFault::Limit => 7,
            PlanFault::Undeclared => 8,
            PlanFault::Core => 9,
            PlanFault::Nesting => 10,
            PlanFault::NestedGlobal => 11,
            PlanFault::NoUnit => 12,
            PlanFault::Jobs => 13,
            PlanFault::Releases => 14,
            PlanFault::Read => 15,
            PlanFault::Memory => 16,
        }
    }
}

/// Out of memory.
#[derive(Clone, Copy, Debug, Error, PartialEq, Eq)]
#[error("memory was refused")]
pub struct Memory;

impl From<AllocError> for Memory {
    fn from(_refused: AllocError) -> Memory {
        Memory
    }
}

impl<T: Drop> From<AllocFailed<T>> for Memory {
    fn from(_refused: AllocFailed<T>) -> Memory {
        Memory
    }
}

/// A write failed.
#[derive(Clone, Copy, Debug, Error, PartialEq, Eq)]
#[error("a write failed")]
pub struct WriteFault;

/// The rules of a legal run (`docs/POLICY.md`), in the order in which a row is checked.
#[derive(Clone, Copy, Debug, PartialEq, Eq)]
pub enum Rule {
    /// The tick isn't the expected one, or the core already had its turn or doesn't exist.
    A1,
    /// The row's job isn't a job of the core.
    A2,
    /// The row's job isn't the one to run.
    A3,
    /// The action isn't the next one of the row's job.
    A4,
    /// The reply isn't that of a first-in-first-out lock.
    A5,
    /// The trace ends before each core had all of its turns.
    A6,
    /// The trace goes on after each core had all of its turns.
    A7,
}

impl Rule {
    /// The rule's code in texts.
    #[tactic(auto, unfolding(crate::specs::Words::rule_text))]
    pub fn code(self) -> &'static [u8]
        ensures { result.now ≡ rule_text self }
    {
        match self {
            Rule::A1 => b"A1",
            Rule::A2 => b"A2",
            Rule::A3 => b"A3",
            Rule::A4 => b"A4",
            Rule::A5 => b"A5",
            Rule::A6 => b"A6",
            Rule::A7 => b"A7",
        }
    }
}

impl fmt::Display for Rule {
    fn fmt<W: fmt::Write>(&self, f: &mut fmt::Formatter<W>) -> fmt::Result {
        f.write_str(match self {
            Rule::A1 => "A1: it is not the core's turn",
            Rule::A2 => "A2: the job is none of the core's",
            Rule::A3 => "A3: another job is to run",
            Rule::A4 => "A4: another action is due",
            Rule::A5 => "A5: the queue answers otherwise",
            Rule::A6 => "A6: the trace ends too early",
            Rule::A7 => "A7: the trace goes on too long",
        })
    }
}

/// The first row that violates a rule, counted from 1, with the lowest rule that it violates.
#[derive(Clone, Copy, Debug, PartialEq, Eq)]
pub struct Fault {
    pub row: u32,
    pub rule: Rule,
}
