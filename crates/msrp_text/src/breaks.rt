//! The bytes that end lines, and the count of empty lines between them.
ghost use Rattle.std.specs.Prelude.{◌^◌, ◌≡◌, ◌<◌, ◌+◌, ◌==◌, if◌then◌else◌};
ghost use Rattle.msrp_plan.specs.Common.{IsSome, ℕ, Some, true, false};
ghost use Rattle.msrp_text.specs.Lines as due;

use crate::front::MARK;

/// LF or CR.
pub(crate) fn is_break(byte: u8) -> bool
    ensures { result ≡ due.is_break byte }
{
    byte == b'\n' || byte == b'\r'
}

/// The number of empty lines, plus one if another ends, while it fits.
pub(crate) fn counted(passed: Option<u32>, ends: bool) -> Option<u32>
    ensures value { (now : ℕ) → result ≡ Some now → (before : ℕ) × (passed ≡ Some before) × (now ≡ if ends then before + 1 else before) }
    ensures counts { (before : ℕ) → passed ≡ Some before → before + 1 < 2 ^ 32 → IsSome result }
{
    if ends { passed?.checked_add(1) } else { passed }
}

/// Whether a record begins with that byte (and not a byte order mark).
pub(crate) fn begins_record(byte: u8) -> bool
    ensures record { result ≡ true → due.is_break byte ≡ false }
    ensures mark { result ≡ true → (byte == 239) ≡ false }
{
    !is_break(byte) && byte != MARK
}
