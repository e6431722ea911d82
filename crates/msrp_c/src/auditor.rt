//! The calls of an auditor that is fed row by row.
ghost use Rattle.std.specs.Prelude.{◌≡◌, ◌≢◌, ◌⊎◌, ◌↔◌, ◌++◌, ◌∷◌};
ghost use Rattle.msrp_plan.specs.Common.{[], List, Some, None, Ok, Err, IfOk, IfErr, IsSome, PlanModel};
ghost use Rattle.msrp_engine.specs.Answered.{OrUnread};
ghost use Rattle.msrp_faults.specs.declared.faults.CliFault.{CliFault};
ghost use Rattle.msrp_text.specs.Reading.{csv_records, plan_of};
ghost use Rattle.msrp_c.specs.Answers.{Tells, is_long};
ghost use Rattle.msrp_c.specs.Contents.{auditor_in};
ghost use Rattle.msrp_c.specs.Feeding.{HasDue, HoldsFed, IsDueAfter, TellsDue, found_so_far, found_whole};
ghost use Rattle.msrp_c.specs.Opening.{IsMisuse, IsOpened, Opens};
ghost use Rattle.msrp_c.specs.Whys.{AreReasons, HandsWords, TellsReasons};
ghost use Rattle.msrp_c.specs.declared.turns.MsrpRow.{MsrpRow as Numbers};

use crate::answers::{GOOD, MEMORY, MsrpFound, USAGE, is_long, tell, unfailed};
use crate::content::Content;
use crate::handle::MsrpHandle;
use crate::held::FedAuditor;
use crate::loading::load;
use crate::numbers::numbers_of_row;
use crate::opening::open;
use crate::turns::MsrpRow;
use crate::whys::hand_words;
use msrp_audit::Fault;
use msrp_engine::CliFault;
use msrp_plan::{CoreId, Memory, Row};
use msrp_view_engine::Words;
use std::alloc::Global;

// An auditor of the plan of a text, before the first row.
fn opened(alloc: Global, plan: &[u8]) -> Result<Content, CliFault>
    ensures { OrUnread result (IsOpened (λ plan held. HoldsFed plan [] held) (plan_of (csv_records plan.now)) result) }
{
    let loaded = load(alloc, plan)?;
    let fed = FedAuditor::new(alloc, loaded)?;
    Ok(Content::Auditor(fed))
}

/// Makes an auditor of a plan in a handle that holds nothing. If the answer isn't 0 it still holds
/// nothing.
#[unsafe(no_mangle)]
pub extern "C" fn msrp_auditor_new(
    alloc: Global,
    plan: &[u8],
    auditor: &mut MsrpHandle,
    found: &mut MsrpFound,
) -> u32
    ensures { Opens (λ plan held. HoldsFed plan [] held) (is_long plan.now) (plan_of (csv_records plan.now)) auditor.old.value auditor.new.value found.new result }
{
    if auditor.is_used(alloc) {
        return tell(Err(CliFault::Usage), found);
    }
    if is_long(plan) {
        return tell(Err(CliFault::Read), found);
    }
    let made = opened(alloc, plan);
    let what = open(alloc, made, auditor);
    tell(unfailed(what), found)
}

// The next row of the auditor that a handle holds.
fn feed(content: &mut Content, row: &MsrpRow) -> Result<Result<(), Fault>, CliFault>
    ensures fed { (plan : PlanModel) (turns : List Numbers) → HoldsFed plan turns (Some content.old) → HoldsFed plan (turns ++ row.now ∷ []) (Some content.new) }
    ensures found { (plan : PlanModel) (turns : List Numbers) → HoldsFed plan turns (Some content.old) → result ≡ found_so_far plan (turns ++ row.now ∷ []) }
    ensures other { auditor_in (Some content.old) ≡ None → (content.new ≡ content.old) × (result ≡ Err CliFault.Usage) }
{
    match content {
        Content::Auditor(fed) => fed.feed(row),
        _ => Err(CliFault::Usage),
    }
}

/// Takes the next row: the verdict on the rows so far, as `msrp_audit_rows` gives it.
#[unsafe(no_mangle)]
pub extern "C" fn msrp_auditor_feed(
    alloc: Global,
    auditor: &mut MsrpHandle,
    row: &MsrpRow,
    found: &mut MsrpFound,
) -> u32
    ensures fed { (plan : PlanModel) (turns : List Numbers) → HoldsFed plan turns auditor.old.value → HoldsFed plan (turns ++ row.now ∷ []) auditor.new.value }
    ensures answer { (plan : PlanModel) (turns : List Numbers) → HoldsFed plan turns auditor.old.value → Tells (found_so_far plan (turns ++ row.now ∷ [])) found.new result }
    ensures misuse { auditor_in auditor.old.value ≡ None → IsMisuse auditor.old.value auditor.new.value found.new result }
{
    let Some(mut content) = auditor.take(alloc) else {
        return tell(Err(CliFault::Usage), found);
    };
    let what = feed(&mut content, row);
    *auditor = MsrpHandle::held(content);
    tell(what, found)
}

// The verdict on what the auditor of a handle was fed as a whole trace.
fn end(content: &Content) -> Result<Result<(), Fault>, CliFault>
    ensures found { (plan : PlanModel) (turns : List Numbers) → HoldsFed plan turns (Some content.now) → result ≡ found_whole plan turns }
    ensures other { auditor_in (Some content.now) ≡ None → result ≡ Err CliFault.Usage }
{
    match content {
        Content::Auditor(fed) => fed.end(),
        _ => Err(CliFault::Usage),
    }
}

/// The verdict on the rows so far as a whole trace. Rows may be fed after it.
#[unsafe(no_mangle)]
pub extern "C" fn msrp_auditor_end(
    alloc: Global,
    auditor: &mut MsrpHandle,
    found: &mut MsrpFound,
) -> u32
    ensures same { auditor.new.value ≡ auditor.old.value }
    ensures answer { (plan : PlanModel) (turns : List Numbers) → HoldsFed plan turns auditor.old.value → Tells (found_whole plan turns) found.new result }
    ensures misuse { auditor_in auditor.old.value ≡ None → IsMisuse auditor.old.value auditor.new.value found.new result }
{
    let Some(content) = auditor.take(alloc) else {
        return tell(Err(CliFault::Usage), found);
    };
    let what = end(&content);
    *auditor = MsrpHandle::held(content);
    tell(what, found)
}

// The row that is due of a core by the auditor of a handle, or the status that tells why there is
// none.
fn due(alloc: Global, content: &Content, core: u32) -> Result<Row, u32>
    ensures row { IfOk result (λ due. (plan : PlanModel) (turns : List Numbers) → HoldsFed plan turns (Some content.now) → IsDueAfter plan turns core due) }
    ensures due { IfErr result (λ status. (plan : PlanModel) (turns : List Numbers) → HoldsFed plan turns (Some content.now) → HasDue plan turns core → status ≡ 4) }
    ensures done { (plan : PlanModel) (turns : List Numbers) → HoldsFed plan turns (Some content.now) → (result ≡ Err 8) ↔ (found_whole plan turns ≡ Ok (Ok tt)) }
    ensures status { IfErr result (λ status. (status ≡ 3) ⊎ (status ≡ 4) ⊎ (status ≡ 8)) }
    ensures other { auditor_in (Some content.now) ≡ None → result ≡ Err 3 }
{
    match content {
        Content::Auditor(fed) => fed.due(alloc, CoreId(core)),
        _ => Err(USAGE),
    }
}

/// The row that is due of a core: fed next, it has no fault. The auditor is as before.
#[unsafe(no_mangle)]
pub extern "C" fn msrp_auditor_due(
    alloc: Global,
    auditor: &mut MsrpHandle,
    core: u32,
    row: &mut MsrpRow,
) -> u32
    ensures same { auditor.new.value ≡ auditor.old.value }
    ensures row { (plan : PlanModel) (turns : List Numbers) → HoldsFed plan turns auditor.old.value → result ≡ 0 → TellsDue plan turns core row.new }
    ensures due { (plan : PlanModel) (turns : List Numbers) → HoldsFed plan turns auditor.old.value → HasDue plan turns core → (result ≡ 0) ⊎ (result ≡ 4) }
    ensures done { (plan : PlanModel) (turns : List Numbers) → HoldsFed plan turns auditor.old.value → (result ≡ 8) ↔ (found_whole plan turns ≡ Ok (Ok tt)) }
    ensures status { (result ≡ 0) ⊎ (result ≡ 3) ⊎ (result ≡ 4) ⊎ (result ≡ 8) }
    ensures kept { result ≢ 0 → row.new ≡ row.old }
    ensures misuse { auditor_in auditor.old.value ≡ None → result ≡ 3 }
{
    let Some(content) = auditor.take(alloc) else {
        return USAGE;
    };
    let told = due(alloc, &content, core);
    *auditor = MsrpHandle::held(content);
    match told {
        Ok(due) => {
            *row = numbers_of_row(due);
            GOOD
        }
        Err(status) => status,
    }
}

// The words on what the auditor of a handle found.
fn why(alloc: Global, content: &Content) -> Result<Words, CliFault>
    ensures words { (plan : PlanModel) (turns : List Numbers) → HoldsFed plan turns (Some content.now) → AreReasons (found_so_far plan turns) result }
    ensures other { auditor_in (Some content.now) ≡ None → result ≡ Err CliFault.Usage }
{
    match content {
        Content::Auditor(fed) => fed.why(alloc),
        _ => Err(CliFault::Usage),
    }
}

/// The verdict on the rows so far, with the words on it: of a fault the row, the rule and the row
/// that was due. While nothing is wrong there are no words.
#[unsafe(no_mangle)]
pub extern "C" fn msrp_auditor_why(
    alloc: Global,
    auditor: &mut MsrpHandle,
    text: &mut [u8],
    needed: &mut usize,
    found: &mut MsrpFound,
) -> u32
    ensures same { auditor.new.value ≡ auditor.old.value }
    ensures words { (plan : PlanModel) (turns : List Numbers) → HoldsFed plan turns auditor.old.value → TellsReasons (found_so_far plan turns) text.old text.new needed.new found.new result }
    ensures misuse { auditor_in auditor.old.value ≡ None → HandsWords (Err CliFault.Usage) text.old text.new needed.new found.new result }
{
    let Some(content) = auditor.take(alloc) else {
        return hand_words(Err(CliFault::Usage), text, needed, found);
    };
    let words = why(alloc, &content);
    *auditor = MsrpHandle::held(content);
    hand_words(words, text, needed, found)
}

// What the auditor of a handle was fed is forgotten.
fn begin_again(alloc: Global, content: &mut Content) -> u32
    ensures again { (plan : PlanModel) (turns : List Numbers) → HoldsFed plan turns (Some content.old) → result ≡ 0 → HoldsFed plan [] (Some content.new) }
    ensures same { result ≢ 0 → content.new ≡ content.old }
    ensures status { IsSome (auditor_in (Some content.old)) → (result ≡ 0) ⊎ (result ≡ 4) }
    ensures other { auditor_in (Some content.old) ≡ None → result ≡ 3 }
{
    let Content::Auditor(fed) = content else {
        return USAGE;
    };
    match fed.begin_again(alloc) {
        Ok(()) => GOOD,
        Err(Memory) => MEMORY,
    }
}

/// Begins a new trace of the same plan. Where memory is refused the auditor is as before.
#[unsafe(no_mangle)]
pub extern "C" fn msrp_auditor_again(alloc: Global, auditor: &mut MsrpHandle) -> u32
    ensures again { (plan : PlanModel) (turns : List Numbers) → HoldsFed plan turns auditor.old.value → result ≡ 0 → HoldsFed plan [] auditor.new.value }
    ensures same { result ≢ 0 → auditor.new.value ≡ auditor.old.value }
    ensures status { IsSome (auditor_in auditor.old.value) → (result ≡ 0) ⊎ (result ≡ 4) }
    ensures misuse { auditor_in auditor.old.value ≡ None → result ≡ 3 }
{
    let Some(mut content) = auditor.take(alloc) else {
        return USAGE;
    };
    let status = begin_again(alloc, &mut content);
    *auditor = MsrpHandle::held(content);
    status
}

/// Gives the auditor's memory back, but for that of the plan and its levels.
#[unsafe(no_mangle)]
pub extern "C" fn msrp_auditor_free(alloc: Global, auditor: &mut MsrpHandle)
    ensures { auditor.new.value ≡ None }
{
    let _freed = auditor.take(alloc);
}
