//! The length of a tick.

/// A unit of time.
#[derive(Clone, Copy, Debug, PartialEq, Eq)]
pub enum Unit {
    Nanosecond,
    Microsecond,
    Millisecond,
    Second,
}

impl Unit {
    /// How it is written.
    pub fn name(self) -> &'static str {
        match self {
            Unit::Nanosecond => "ns",
            Unit::Microsecond => "us",
            Unit::Millisecond => "ms",
            Unit::Second => "s",
        }
    }
}

/// The length of a tick: so many units.
#[derive(Clone, Copy, Debug, PartialEq, Eq)]
pub struct TickLength {
    pub count: u32,
    pub unit: Unit,
}
