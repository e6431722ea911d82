//! What lasts from call to call.
ghost use Rattle.std.specs.Prelude.{◌≡◌};

use msrp_audit::{Auditor, Fault};
use msrp_engine::{Broken, CliFault};
use msrp_levels::Levels;
use msrp_plan::{Plan, Row};

/// A plan and its levels. For a handle they stay in memory for good.
#[derive(Clone, Copy)]
pub struct Loaded<'a> {
    pub(crate) plan: &'a Plan,
    pub(crate) levels: &'a Levels<'a>,
    ghost same: { levels.now ≡ plan.now },
}

/// A row with a fault, and the row that was due of its core, where it was in its turn.
#[derive(Clone, Copy, Debug)]
pub struct BrokenRow {
    pub(crate) row: Row,
    pub(crate) broken: Broken,
}

/// An auditor between two calls, and the verdict on the rows so far.
#[derive(Drop)]
pub struct FedAuditor<'a> {
    pub(crate) loaded: Loaded<'a>,
    pub(crate) auditor: Auditor<'a>,
    // How many rows were judged, up to the first that is refused or has a fault.
    pub(crate) judged: u32,
    pub(crate) verdict: Result<Result<(), Fault>, CliFault>,
    // The row with the fault, if one was found.
    pub(crate) broken: Option<BrokenRow>,
    ghost same: { auditor.plan ≡ loaded.plan.now },
}
