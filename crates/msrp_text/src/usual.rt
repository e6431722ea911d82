//! A short way for a plan's usual lines: `op,run,N`, `op,lock,NAME`, `op,unlock,NAME`,
//! `release,TICK`.
ghost use Rattle.std.specs.Prelude.{◌≡◌, ◌==◌};
ghost use Rattle.msrp_plan.specs.Common.{ℕ, List, Some, None, codes, false};
ghost use Rattle.std.specs.Option.{IfSome};
ghost use Rattle.msrp_text.specs.Fields.{number_of, text_of};
ghost use Rattle.msrp_text.specs.Reading.{resource_told};
ghost use Rattle.msrp_text.specs.Usual.{IsAdded, IsLast, StandsBehind, TellsStep};

use crate::fields::{number_of, text_of};
use crate::front::PlainLine;
use crate::positions::resource_told;
use msrp_plan::{PlanBuilder, PlanFault, ResId, Step, TextVersion};

// The last field of a line at the front of a text, and the line's end, if each byte of the field is
// above the comma, as in numbers and names.
fn last_field(text: &[u8]) -> Option<PlainLine>
    ensures { IfSome result (λ field. IsLast text.now field) }
{
    for at in 0..text.len() {
        let byte = text[at];
        if byte > b',' {
            continue;
        }
        if byte == b'\n' {
            return Some(PlainLine {
                length: at,
                taken: at + 1,
            });
        }
        if byte != b'\r' {
            return None;
        }
        let is_fed = at + 1 < text.len() && text[at + 1] == b'\n';
        let taken = if is_fed { at + 2 } else { at + 1 };
        return Some(PlainLine { length: at, taken });
    }
    None
}

// The number after these words, and the bytes of the line.
#[inline(always)]
fn number_behind(text: &[u8], front: &[u8]) -> Option<(u32, usize)>
    ensures { IfSome result (λ found. (field : List ℕ) × StandsBehind text.now front.now field (found.1) × (number_of field ≡ Some (found.0))) }
{
    let rest = text.strip_prefix(front)?;
    let field = last_field(rest)?;
    let number = number_of(&rest[..field.length])?;
    Some((number, front.len() + field.taken))
}

// The resource whose name follows these words, and the bytes of the line.
#[inline(always)]
fn resource_behind(builder: &PlanBuilder, text: &[u8], front: &[u8]) -> Option<(ResId, usize)>
    ensures { IfSome result (λ found. (field : List ℕ) × StandsBehind text.now front.now field (found.1) × (found.0 ≡ resource_told builder.now (text_of field))) }
{
    let rest = text.strip_prefix(front)?;
    let field = last_field(rest)?;
    let res = resource_told(builder, text_of(&rest[..field.length]));
    Some((res, front.len() + field.taken))
}

// The units of the line at a text's front, and its bytes; its fourth byte selects one of three.
fn step_ahead(builder: &PlanBuilder, text: &[u8]) -> Option<(Step, usize)>
    ensures { IfSome result (λ found. TellsStep builder.now text.now (found.0) (found.1)) }
{
    if text.len() < 4 {
        return None;
    }
    match text[3] {
        b'r' => {
            let (count, taken) = number_behind(text, b"op,run,")?;
            Some((Step::Run(count), taken))
        }
        b'l' => {
            let (res, taken) = resource_behind(builder, text, b"op,lock,")?;
            Some((Step::Lock(res), taken))
        }
        b'u' => {
            let (res, taken) = resource_behind(builder, text, b"op,unlock,")?;
            Some((Step::Unlock(res), taken))
        }
        _ => None,
    }
}

// Adds the release of the line at the front of a text of version 2, as [`add_ahead`] does.
fn add_release_ahead(
    builder: &mut PlanBuilder,
    text: &[u8],
) -> Option<(Result<(), PlanFault>, usize)>
    ensures added { IfSome result (λ found. IsAdded TextVersion.V2 builder.old builder.new text.now (found.0) (found.1)) }
    ensures kept { result ≡ None → builder.new ≡ builder.old }
{
    if !builder.takes_releases() {
        return None;
    }
    let (tick, taken) = number_behind(text, b"release,")?;
    Some((builder.release(tick), taken))
}

/// Adds what the line at the front of a text says, if it is a usual one in its place: the answer,
/// and the line's bytes with its end. After a refusal the plan means nothing.
pub(crate) fn add_ahead(
    version: TextVersion,
    builder: &mut PlanBuilder,
    text: &[u8],
) -> Option<(Result<(), PlanFault>, usize)>
    ensures added { IfSome result (λ found. IsAdded version builder.old builder.new text.now (found.0) (found.1)) }
    ensures kept { result ≡ None → builder.new ≡ builder.old }
{
    if builder.tasks() == 0 {
        return None;
    }
    if let Some((step, taken)) = step_ahead(builder, text) {
        return Some((builder.op(step), taken));
    }
    match version {
        TextVersion::V1 => None,
        TextVersion::V2 => add_release_ahead(builder, text),
    }
}
