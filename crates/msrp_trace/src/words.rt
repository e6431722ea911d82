//! The fixed words of trace text.
ghost use Rattle.std.specs.Prelude.{◌≡◌, ◌≤◌};
ghost use Rattle.msrp_plan.specs.Common.{length};
ghost use Rattle.msrp_trace.specs.Rows.{kind_named};
ghost use Rattle.msrp_text.specs.PlanText.{version_text};

use msrp_plan::{Kind, TextVersion};

/// The first word of a trace's text.
pub(crate) const TRACE_WORD: &[u8] = b"msrp-trace";

/// The field of a job, resource or ahead that a row lacks.
pub(crate) const DASH: &[u8] = b"-";

/// The kind of a word.
#[tactic(auto, unfolding(crate::specs::Rows::kind_named))]
pub(crate) fn kind_named(word: &[u8]) -> Option<Kind>
    ensures { result ≡ kind_named word.now }
{
    if word == Kind::Idle.word() {
        Some(Kind::Idle)
    } else if word == Kind::Run.word() {
        Some(Kind::Run)
    } else if word == Kind::Lock.word() {
        Some(Kind::Lock)
    } else if word == Kind::Unlock.word() {
        Some(Kind::Unlock)
    } else if word == Kind::Take.word() {
        Some(Kind::Take)
    } else if word == Kind::Queue.word() {
        Some(Kind::Queue)
    } else if word == Kind::Spin.word() {
        Some(Kind::Spin)
    } else if word == Kind::Grant.word() {
        Some(Kind::Grant)
    } else if word == Kind::Release.word() {
        Some(Kind::Release)
    } else {
        None
    }
}

/// The number of a version.
pub(crate) fn version_word(version: TextVersion) -> &'static [u8]
    ensures word { result.now ≡ version_text version }
    ensures short { length result.now ≤ 1 }
{
    match version {
        TextVersion::V1 => b"1",
        TextVersion::V2 => b"2",
    }
}
