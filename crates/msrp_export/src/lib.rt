//! Traces in the formats of other tools: a value change dump (VCD, IEEE 1364) for wave viewers such
//! as GTKWave, with a save file for that one, and the JSON of trace events for Perfetto.
//!
//! An [`Exporter`] takes the rows of a trace one by one. It keeps what the rows so far say of each
//! core, task and resource, and writes each tick's changes once all rows of the tick are there. It
//! keeps no list of rows, and doesn't judge them.
#![tactic(auto)]

mod dump_signals;
mod exporter;
mod formats;
mod gtkw;
mod names;
mod perfetto;
mod signals;
mod summary;
mod tasks;
mod vcd;
mod walk;

pub use exporter::Exporter;
pub use formats::Format;
