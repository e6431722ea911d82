//! Words on a trace, and on a plan.
ghost use Rattle.std.specs.Prelude.{◌||◌};
ghost use Rattle.msrp_plan.specs.Common.{IfOk, Err};
ghost use Rattle.msrp_text.specs.Reading.{csv_records, plan_of};
ghost use Rattle.msrp_view_engine.specs.Answers.{IsOnPlan, IsWhyOf};
ghost use Rattle.msrp_engine.specs.Answered.{OrUnread};
ghost use Rattle.msrp_c.specs.Answers.{Answers, is_long};
ghost use Rattle.msrp_c.specs.Whys.{AnswersWords, AreReasonsOf, AreWords, HandsWords};

use crate::answers::{MsrpFound, are_long, hand_over, hand_text, is_long, unfailed};
use crate::held::{FedAuditor, Loaded};
use crate::turns::MsrpRow;
use msrp_engine::{CliFault, Made};
use msrp_levels::Levels;
use msrp_plan::bytes::Source;
use msrp_text::read_plan;
use msrp_view_engine::{Words, why_of_plan, why_of_texts};
use std::alloc::Global;

// The words on a trace.
fn explained(alloc: Global, plan: &[u8], trace: &[u8]) -> Result<Made, CliFault>
    ensures { OrUnread result (IsWhyOf (plan_of (csv_records plan.now)) (csv_records trace.now) result) }
{
    let mut plan = Source::new(plan);
    let mut trace = Source::new(trace);
    why_of_texts(alloc, &mut plan, &mut trace)
}

/// The verdict on a trace, and in plain sentences what makes it so; of a legal trace what its run
/// exercised. A refused text has no words.
#[unsafe(no_mangle)]
pub extern "C" fn msrp_why(
    alloc: Global,
    plan: &[u8],
    trace: &[u8],
    text: &mut [u8],
    needed: &mut usize,
    found: &mut MsrpFound,
) -> u32
    ensures { Answers (is_long plan.now || is_long trace.now) (λ made. OrUnread made (IsWhyOf (plan_of (csv_records plan.now)) (csv_records trace.now) made)) text.old text.new needed.new found.new result }
{
    if are_long(plan, trace) {
        return hand_over(Err(CliFault::Read), text, needed, found);
    }
    let made = explained(alloc, plan, trace);
    hand_over(unfailed(made), text, needed, found)
}

// The words on a plan.
fn advised(alloc: Global, plan: &[u8]) -> Result<Words, CliFault>
    ensures words { AreWords plan.now result }
    ensures plan { IfOk result (λ words. IsOnPlan words.found) }
{
    let mut plan = Source::new(plan);
    why_of_plan(alloc, "plan", &mut plan)
}

/// Hands words over, or tells why there are none.
pub(crate) fn hand_words(
    words: Result<Words, CliFault>,
    text: &mut [u8],
    needed: &mut usize,
    found: &mut MsrpFound,
) -> u32
    ensures { HandsWords words text.old text.new needed.new found.new result }
{
    match words {
        Ok(words) => hand_text(words.found, words.text.as_slice(), text, needed, found),
        Err(fault) => hand_text(Err(fault), &[], text, needed, found),
    }
}

/// The words on a plan: why it is refused, or what is odd in it. A refused plan has words too.
#[unsafe(no_mangle)]
pub extern "C" fn msrp_why_plan(
    alloc: Global,
    plan: &[u8],
    text: &mut [u8],
    needed: &mut usize,
    found: &mut MsrpFound,
) -> u32
    ensures { AnswersWords (is_long plan.now) (AreWords plan.now) text.old text.new needed.new found.new result }
{
    if is_long(plan) {
        return hand_words(Err(CliFault::Read), text, needed, found);
    }
    let words = advised(alloc, plan);
    hand_words(unfailed(words), text, needed, found)
}

// The words on rows of a text's plan.
fn explained_rows(alloc: Global, plan: &[u8], rows: &[MsrpRow]) -> Result<Words, CliFault>
    ensures { OrUnread result (AreReasonsOf (plan_of (csv_records plan.now)) rows.now result) }
{
    let mut source = Source::new(plan);
    let plan = read_plan(alloc, &mut source)?;
    let levels = Levels::of(alloc, &plan)?;
    let loaded = Loaded {
        plan: &plan,
        levels: &levels,
    };
    FedAuditor::of_rows(alloc, loaded, rows)?.why(alloc)
}

/// The verdict on rows so far, given as numbers, with the words that an auditor has on them:
/// [`msrp_auditor_why`](crate::msrp_auditor_why). While nothing is wrong there are no words.
#[unsafe(no_mangle)]
pub extern "C" fn msrp_why_rows(
    alloc: Global,
    plan: &[u8],
    rows: &[MsrpRow],
    text: &mut [u8],
    needed: &mut usize,
    found: &mut MsrpFound,
) -> u32
    ensures { AnswersWords (is_long plan.now) (λ words. OrUnread words (AreReasonsOf (plan_of (csv_records plan.now)) rows.now words)) text.old text.new needed.new found.new result }
{
    if is_long(plan) {
        return hand_words(Err(CliFault::Read), text, needed, found);
    }
    let words = explained_rows(alloc, plan, rows);
    hand_words(unfailed(words), text, needed, found)
}
