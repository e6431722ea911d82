//! Traces: the rows of a whole run.
ghost use Rattle.std.specs.Prelude.{◌≡◌};
ghost use Rattle.msrp_plan.specs.Aheads.{carries_ahead};

use crate::rows::{Kind, Row};

/// Rows in the order of the turns: one for each core and tick if the run is whole. The numbers of
/// cores and ticks are the plan's.
#[derive(Debug, Drop)]
pub struct Trace {
    pub rows: Vec<Row>,
}

impl Trace {
    /// Whether every queue row carries its ahead, as text of version 2 requires.
    pub fn carries_ahead(&self) -> bool
        ensures { result ≡ carries_ahead self.now.rows.items }
    {
        self.rows
            .iter()
            .all(|row| row.kind != Kind::Queue || row.ahead.is_some())
    }
}
