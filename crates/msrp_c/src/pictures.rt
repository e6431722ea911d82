//! The picture of a trace, for C.
ghost use Rattle.std.specs.Prelude.{◌||◌};
ghost use Rattle.msrp_plan.specs.Common.{Err};
ghost use Rattle.msrp_text.specs.Reading.{csv_records, plan_of};
ghost use Rattle.msrp_c.specs.Answers.{Answers, is_long};
ghost use Rattle.msrp_c.specs.Numbers.{style_named};
ghost use Rattle.msrp_c.specs.Pictures.{IsDrawn};

use crate::answers::{MsrpFound, are_long, hand_over, unfailed};
use crate::orders::style_of;
use msrp_engine::{CliFault, Made};
use msrp_picture::Asked;
use msrp_plan::bytes::Source;
use msrp_view_engine::{Drawing, drawing_of_texts};
use std::alloc::Global;

// The picture of a trace, in the style of this number.
fn drawn(
    alloc: Global,
    plan: &[u8],
    trace: &[u8],
    style: u32,
    from: u32,
    to: u32,
) -> Result<Made, CliFault>
    ensures { IsDrawn (style_named style) from to (plan_of (csv_records plan.now)) (csv_records trace.now) result }
{
    let Some(style) = style_of(style) else {
        return Err(CliFault::Usage);
    };
    let asked = Asked {
        style,
        from: Some(from),
        to: if to == 0 { None } else { Some(to) },
    };
    let mut plan = Source::new(plan);
    let mut trace = Source::new(trace);
    drawing_of_texts(alloc, &mut plan, &mut trace, Drawing::Picture(asked))
}

/// The picture of a trace, in plain text (style 0) or SVG (1), of the ticks from the first to
/// before the last; if the last is 0, to the plan's end, at most 200 ticks. A trace with a fault
/// has one too; the answer is then 1.
#[unsafe(no_mangle)]
pub extern "C" fn msrp_view(
    alloc: Global,
    plan: &[u8],
    trace: &[u8],
    style: u32,
    from: u32,
    to: u32,
    text: &mut [u8],
    needed: &mut usize,
    found: &mut MsrpFound,
) -> u32
    ensures { Answers (is_long plan.now || is_long trace.now) (IsDrawn (style_named style) from to (plan_of (csv_records plan.now)) (csv_records trace.now)) text.old text.new needed.new found.new result }
{
    if are_long(plan, trace) {
        return hand_over(Err(CliFault::Read), text, needed, found);
    }
    let made = drawn(alloc, plan, trace, style, from, to);
    hand_over(unfailed(made), text, needed, found)
}
