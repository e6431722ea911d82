//! The text of each core's row, stored while the core's rows differ only in the tick.
ghost use Rattle.std.specs.Prelude.{◌≡◌, ◌≤◌, ◌<◌, ◌%◌};
ghost use Rattle.msrp_plan.specs.Common.{All, ℕ, [], None, length, slice_index_or, slice_set, take, true};
ghost use Rattle.msrp_trace.specs.Gathering.{after_tick};
ghost use Rattle.msrp_trace.specs.Lines.{AreResTexts, IsCoreText};
ghost use Rattle.msrp_trace.specs.Texts.{text_of_core, texts_of};
ghost use Rattle.msrp_trace.specs.TraceText.{is_named};
ghost use Rattle.msrp_trace.specs.declared.line.CoreText.{CoreText as Kept};

use crate::line::{CoreText, LINE};
use crate::res::ResTexts;
use crate::text::Text;
use msrp_plan::limits::MOST_CORES;
use msrp_plan::{Plan, Row, TextVersion};
use std::array;
use std::marker::Model;

/// For each core the text of a row, without its tick. While a core's rows differ only in the tick,
/// this text is written, or compared with the next one read.
#[derive(Drop)]
pub struct RowTexts<'a> {
    plan: &'a Plan,
    version: TextVersion,
    pub(crate) lines: [CoreText; MOST_CORES as usize],
    res: ResTexts,
}

impl<'a> Model for RowTexts<'a> {
    ghost use Rattle.msrp_trace.specs.Texts.{TextsModel};

    ghost Value = { TextsModel };

    ghost use Rattle.msrp_trace.specs.Texts.{texts_view, AreTextsView};

    ghost view = { texts_view };

    ghost invariant = { AreTextsView };
}

#[inline(always)]
fn make_text(
    lines: &mut [CoreText],
    core: usize,
    plan: &Plan,
    version: TextVersion,
    row: &Row,
    res: &mut ResTexts,
)
    requires core { core < length lines.old }
    requires named { is_named plan.now row.now ≡ true }
    requires before { All (IsCoreText plan.now) lines.old }
    requires res_before { AreResTexts plan.now res.old }
    ensures after { All (IsCoreText plan.now) lines.new }
    ensures res_after { AreResTexts plan.now res.new }
    ensures text { (d : Kept) → (slice_index_or lines.new core d).line ≡ after_tick version plan.now row.now }
    ensures texts { texts_of lines.new ≡ slice_set (texts_of lines.old) core (after_tick version plan.now row.now) }
{
    lines[core].make(plan, version, row, res);
}

/// A core's record after the tick.
#[inline(always)]
pub(crate) fn text_of(lines: &[CoreText], core: usize) -> &Text<LINE>
    requires { core < length lines.now }
    ensures { result.now ≡ slice_index_or (texts_of lines.now) core [] }
{
    lines[core].text()
}

impl<'a> RowTexts<'a> {
    /// No row of any core yet.
    pub fn new(plan: &'a Plan, version: TextVersion) -> RowTexts<'a>
        ensures plan { result.plan ≡ plan.now }
        ensures version { result.version ≡ version }
        ensures none { (core : ℕ) → text_of_core result core ≡ [] }
    {
        RowTexts {
            plan,
            version,
            lines: array::from_fn(
                |_|
                    ensures line { result.line ≡ [] }
                    ensures job { result.job.job ≡ None }
                { CoreText::new() },
            ),
            res: ResTexts::new(),
        }
    }

    /// Makes the text of a row.
    #[inline(always)]
    pub fn show(&mut self, row: &Row)
        requires { is_named self.old.plan row.now ≡ true }
        ensures texts { self.new ≡ record self.old { texts = slice_set self.old.texts (row.now.core.0 % 8) (after_tick self.old.version self.old.plan row.now) } }
        ensures here { text_of_core self.new row.now.core.0 ≡ after_tick self.old.version self.old.plan row.now }
    {
        let core = (row.core.0 % MOST_CORES) as usize;
        let plan = self.plan;
        let version = self.version;
        make_text(&mut self.lines, core, plan, version, row, &mut self.res);
    }
}
