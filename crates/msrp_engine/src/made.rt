//! What an engine returns in memory: a text, and a verdict.

use msrp_plan::Fault;

/// A text made in memory, and the verdict on its rows.
#[derive(Debug, Drop)]
pub struct Made {
    /// The report is empty if the rows have a fault.
    pub text: Vec<u8>,
    pub found: Result<(), Fault>,
}
