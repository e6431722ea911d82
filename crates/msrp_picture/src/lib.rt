//! A trace of a plan as a picture, in text or in SVG.
//!
//! [`draw`] first lists what there is to see: which blocks and events, for which job, resource and
//! ticks. This list, [`Shapes`], is proved to be what the rows say. Where and how a shape is drawn
//! is tested, and not proved.
#![tactic(auto)]

mod blocks;
mod drawing;
mod elements;
mod gathering;
mod lanes;
pub mod laws;
mod layout;
mod lives;
mod plain;
mod scene;
mod shapes;
mod windows;
mod words;

pub use drawing::{draw, shapes_of};
use msrp_plan::{Fault, Memory};
pub use shapes::{Block, Event, Lane, Look, Moment, Shapes, Violation};
pub use windows::{Asked, SHORT_RUN, Style, Window, window_of};

/// What adding something answers: nothing, or that memory ran out.
type Added = Result<(), Memory>;

/// The verdict on rows.
type Verdict = Result<(), Fault>;
