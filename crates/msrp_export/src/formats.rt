//! The formats of other tools.

/// A format of another tool.
#[derive(Clone, Copy, Debug, PartialEq, Eq)]
pub enum Format {
    /// A value change dump (IEEE 1364), for wave viewers.
    Vcd,
    /// The save file with which GTKWave shows that dump.
    Gtkw,
    /// The JSON of trace events, for Perfetto.
    Perfetto,
}
