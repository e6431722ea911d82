//! A trace of a plan as a page for a browser: one file that loads nothing, with the facts of the
//! trace as data and the
//! script that draws them.
//!
//! The facts are those of [`shapes_of`](msrp_picture::shapes_of) and of a
//! [`Counter`](msrp_report::Counter), which are proved.
//! Their text, and what the script draws of them, is tested.
#![tactic(auto)]

mod assets;
mod counts;
mod data;
mod page;
mod units;

use msrp_plan::{Fault, Memory};
pub use page::{Told, html};
pub use units::{TickLength, Unit};

/// What is answered where something is added: nothing, or that memory ran out.
type Added = Result<(), Memory>;

/// The verdict on rows.
type Verdict = Result<(), Fault>;
