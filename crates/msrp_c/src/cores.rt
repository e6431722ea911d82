//! The calls of a core of a run.
ghost use Rattle.std.specs.Prelude.{◌≡◌, ◌≢◌, ◌⊎◌, ◌↔◌, ◌++◌, ◌∷◌};
ghost use Rattle.msrp_plan.specs.Common.{[], Some, None, IfSome};
ghost use Rattle.msrp_c.specs.Contents.{core_in};
ghost use Rattle.msrp_c.specs.Hosting.{TakesTurn};
ghost use Rattle.msrp_hosted.specs.declared.steps.CoreStep.{CoreStep as Step};
ghost use Rattle.msrp_hosted.specs.declared.steps.Turned.{Turned as Answer};
ghost use Rattle.msrp_merge.specs.declared.logs.Turn.{Turn as TurnAt};

use crate::answers::{DONE, GOOD, USAGE, WAIT};
use crate::content::Content;
use crate::handle::MsrpHandle;
use crate::numbers::{numbers_of_row, place_number};
use crate::turns::MsrpRow;
use msrp_hosted::Turned;
use std::alloc::Global;

// The turn of the core that a handle holds, if it is let in. What is not a core is answered as one
// in its turn.
fn turn(content: &mut Content) -> Turned
    ensures waited { IfSome (core_in (Some content.old)) (λ old. (turn : TurnAt) → result ≡ Answer.Turn turn → old.step ≡ Step.Waiting) }
    ensures turn { IfSome (core_in (Some content.old)) (λ old. (turn : TurnAt) → result ≡ Answer.Turn turn → core_in (Some content.new) ≡ Some (record old { turns = old.turns ++ turn ∷ []; step = Step.InTurn })) }
    ensures waits { IfSome (core_in (Some content.old)) (λ old. result ≡ Answer.Waits → old.step ≡ Step.Waiting) }
    ensures ended { IfSome (core_in (Some content.old)) (λ old. result ≡ Answer.Ended → core_in (Some content.new) ≡ Some (record old { step = Step.Ended })) }
    ensures in_turn { IfSome (core_in (Some content.old)) (λ old. (result ≡ Answer.InTurn) ↔ (old.step ≡ Step.InTurn)) }
    ensures other { core_in (Some content.old) ≡ None → result ≡ Answer.InTurn }
    ensures same { (result ≡ Answer.Waits) ⊎ (result ≡ Answer.InTurn) → content.new ≡ content.old }
{
    match content {
        Content::Core(core) => core.turn(),
        _ => Turned::InTurn,
    }
}

/// The core's turn, if it is let into its tick: the row, and the place of its step on a global
/// resource.
#[unsafe(no_mangle)]
pub extern "C" fn msrp_core_turn(
    alloc: Global,
    core: &mut MsrpHandle,
    row: &mut MsrpRow,
    place: &mut u32,
) -> u32
    ensures turn { IfSome (core_in core.old.value) (λ old. result ≡ 0 → TakesTurn old (core_in core.new.value) row.new place.new) }
    ensures waits { IfSome (core_in core.old.value) (λ old. result ≡ 7 → old.step ≡ Step.Waiting) }
    ensures ended { IfSome (core_in core.old.value) (λ old. result ≡ 8 → core_in core.new.value ≡ Some (record old { step = Step.Ended })) }
    ensures in_turn { IfSome (core_in core.old.value) (λ old. (result ≡ 3) ↔ (old.step ≡ Step.InTurn)) }
    ensures misuse { core_in core.old.value ≡ None → result ≡ 3 }
    ensures status { (result ≡ 0) ⊎ (result ≡ 3) ⊎ (result ≡ 7) ⊎ (result ≡ 8) }
    ensures same { (result ≡ 3) ⊎ (result ≡ 7) → core.new.value ≡ core.old.value }
    ensures kept { result ≢ 0 → (row.new ≡ row.old) × (place.new ≡ place.old) }
{
    let Some(mut content) = core.take(alloc) else {
        return USAGE;
    };
    let turned = turn(&mut content);
    *core = MsrpHandle::held(content);
    match turned {
        Turned::Turn(turn) => {
            *row = numbers_of_row(turn.row);
            *place = place_number(turn.place);
            GOOD
        }
        Turned::Waits => WAIT,
        Turned::Ended => DONE,
        Turned::InTurn => USAGE,
    }
}

// Ends the turn of the core that a handle holds.
fn arrive(content: &mut Content) -> u32
    ensures arrived { IfSome (core_in (Some content.old)) (λ old. result ≡ 0 → (core_in (Some content.new) ≡ Some (record old { step = Step.Waiting })) ⊎ (core_in (Some content.new) ≡ Some (record old { step = Step.Ended }))) }
    ensures answer { IfSome (core_in (Some content.old)) (λ old. (result ≡ 0) ↔ (old.step ≡ Step.InTurn)) }
    ensures misuse { core_in (Some content.old) ≡ None → result ≡ 3 }
    ensures same { result ≢ 0 → (result ≡ 3) × (content.new ≡ content.old) }
{
    let Content::Core(core) = content else {
        return USAGE;
    };
    if core.arrive() { GOOD } else { USAGE }
}

/// Ends the core's turn.
#[unsafe(no_mangle)]
pub extern "C" fn msrp_core_arrive(alloc: Global, core: &mut MsrpHandle) -> u32
    ensures arrived { IfSome (core_in core.old.value) (λ old. result ≡ 0 → (core_in core.new.value ≡ Some (record old { step = Step.Waiting })) ⊎ (core_in core.new.value ≡ Some (record old { step = Step.Ended }))) }
    ensures answer { IfSome (core_in core.old.value) (λ old. (result ≡ 0) ↔ (old.step ≡ Step.InTurn)) }
    ensures misuse { core_in core.old.value ≡ None → result ≡ 3 }
    ensures same { result ≢ 0 → (result ≡ 3) × (core.new.value ≡ core.old.value) }
{
    let Some(mut content) = core.take(alloc) else {
        return USAGE;
    };
    let status = arrive(&mut content);
    *core = MsrpHandle::held(content);
    status
}

/// Gives up a core that isn't to be joined.
#[unsafe(no_mangle)]
pub extern "C" fn msrp_core_free(alloc: Global, core: &mut MsrpHandle)
    ensures { core.new.value ≡ None }
{
    let _freed = core.take(alloc);
}
