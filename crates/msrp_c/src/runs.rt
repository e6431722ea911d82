//! The calls of a run on threads of its caller's.
ghost use Rattle.std.specs.Prelude.{◌≡◌, ◌≢◌, ◌⊎◌, ◌↔◌};
ghost use Rattle.msrp_plan.specs.Common.{Some, None, Ok, Err, IfOk, IfErr, IfSome, IsSome, IsSomeAnd};
ghost use Rattle.msrp_engine.specs.Answered.{OrUnread};
ghost use Rattle.msrp_faults.specs.declared.faults.CliFault.{CliFault};
ghost use Rattle.msrp_hosted.specs.Hosted.{CanJoin, IsOfRun, new_core};
ghost use Rattle.msrp_text.specs.Reading.{csv_records, plan_of};
ghost use Rattle.msrp_c.specs.Answers.{is_long};
ghost use Rattle.msrp_c.specs.Contents.{core_in, open_in, settled_in};
ghost use Rattle.msrp_c.specs.Hosting.{AreOfOneRun, HoldsNewRun, IsTold, Joins, MayJoin, Settles, TellsRun, TellsText, one_more_out, with_joined};
ghost use Rattle.msrp_c.specs.Numbers.{version_named};
ghost use Rattle.msrp_c.specs.Opening.{IsOpened, Opens};

use crate::answers::{DONE, GOOD, MsrpFound, NOTHING, USAGE, hand_over, is_long, tell, unfailed};
use crate::content::Content;
use crate::handle::MsrpHandle;
use crate::loading::load;
use crate::open_run::OpenRun;
use crate::opening::open;
use crate::orders::version_of;
use msrp_engine::{CliFault, Made};
use msrp_hosted::{HostedCore, SettledRun};
use msrp_plan::TextVersion;
use msrp_plan::bytes::Sink;
use msrp_trace::write_trace;
use std::alloc::Global;
use std::mem::replace;

// A run of the plan of a text, before its first core is handed out.
fn opened(alloc: Global, plan: &[u8]) -> Result<Content, CliFault>
    ensures { OrUnread result (IsOpened HoldsNewRun (plan_of (csv_records plan.now)) result) }
{
    let loaded = load(alloc, plan)?;
    let run = OpenRun::new(alloc, loaded)?;
    Ok(Content::Open(run))
}

/// Makes a run of a plan in a handle that holds nothing. If the answer isn't 0 it still holds
/// nothing.
#[unsafe(no_mangle)]
pub extern "C" fn msrp_run_new(
    alloc: Global,
    plan: &[u8],
    run: &mut MsrpHandle,
    found: &mut MsrpFound,
) -> u32
    ensures { Opens HoldsNewRun (is_long plan.now) (plan_of (csv_records plan.now)) run.old.value run.new.value found.new result }
{
    if run.is_used(alloc) {
        return tell(Err(CliFault::Usage), found);
    }
    if is_long(plan) {
        return tell(Err(CliFault::Read), found);
    }
    let made = opened(alloc, plan);
    let what = open(alloc, made, run);
    tell(unfailed(what), found)
}

// The next core of the run that a handle holds, or the status that tells why there is none.
fn next_core(content: &mut Content) -> Result<Box<Content>, u32>
    ensures next { IfOk result (λ core. IsSomeAnd (open_in (Some content.old)) (λ run. (core_in (Some core.value) ≡ Some (new_core run)) × (open_in (Some content.new) ≡ Some (one_more_out run)))) }
    ensures all { IfSome (open_in (Some content.old)) (λ run. (result ≡ Err 8) ↔ (run.handed ≡ run.plan.cores)) }
    ensures none { IfErr result (λ status. ((status ≡ 3) ⊎ (status ≡ 4) ⊎ (status ≡ 8)) × (open_in (Some content.new) ≡ open_in (Some content.old))) }
    ensures settled { IsSome (settled_in (Some content.old)) → result ≡ Err 8 }
    ensures misuse { open_in (Some content.old) ≡ None → settled_in (Some content.old) ≡ None → result ≡ Err 3 }
    ensures other { open_in (Some content.old) ≡ None → content.new ≡ content.old }
{
    match content {
        Content::Open(run) => run.next_core(),
        Content::Settled(_) => Err(DONE),
        Content::Auditor(_) | Content::Log(_) | Content::Core(_) | Content::Spare => Err(USAGE),
    }
}

/// Hands out the next core, cores rising, into a handle that holds nothing.
#[unsafe(no_mangle)]
pub extern "C" fn msrp_run_core(alloc: Global, run: &mut MsrpHandle, core: &mut MsrpHandle) -> u32
    ensures next { result ≡ 0 → (core.old.value ≡ None) × IsSomeAnd (open_in run.old.value) (λ old. (core_in core.new.value ≡ Some (new_core old)) × (open_in run.new.value ≡ Some (one_more_out old))) }
    ensures all { core.old.value ≡ None → IfSome (open_in run.old.value) (λ old. (result ≡ 8) ↔ (old.handed ≡ old.plan.cores)) }
    ensures settled { core.old.value ≡ None → IsSome (settled_in run.old.value) → result ≡ 8 }
    ensures misuse { open_in run.old.value ≡ None → settled_in run.old.value ≡ None → result ≡ 3 }
    ensures used { IsSome core.old.value → result ≡ 3 }
    ensures status { (result ≡ 0) ⊎ (result ≡ 3) ⊎ (result ≡ 4) ⊎ (result ≡ 8) }
    ensures none { result ≢ 0 → (core.new.value ≡ core.old.value) × (open_in run.new.value ≡ open_in run.old.value) }
    ensures other { open_in run.old.value ≡ None → run.new.value ≡ run.old.value }
{
    if core.is_used(alloc) {
        return USAGE;
    }
    let Some(mut content) = run.take(alloc) else {
        return USAGE;
    };
    let next = next_core(&mut content);
    *run = MsrpHandle::held(content);
    match next {
        Ok(next) => {
            *core = MsrpHandle::held(next);
            GOOD
        }
        Err(status) => status,
    }
}

// Joins a core to the run that a handle holds. If it can't be joined it is given back.
fn join(content: &mut Content, core: HostedCore<'static>) -> Result<(), HostedCore<'static>>
    requires { IfSome (open_in (Some content.old)) (λ run. IsOfRun run core) }
    ensures joined { IfOk result (λ _. IsSomeAnd (open_in (Some content.old)) (λ run. CanJoin run core.entry × (open_in (Some content.new) ≡ Some (with_joined run core.entry)))) }
    ensures back { IfErr result (λ back. (back ≡ core.entry) × (content.new ≡ content.old) × IfSome (open_in (Some content.old)) (λ run. ¬ CanJoin run core.entry)) }
{
    match content {
        Content::Open(open) => open.join(core),
        Content::Settled(_)
        | Content::Auditor(_)
        | Content::Log(_)
        | Content::Core(_)
        | Content::Spare => Err(core),
    }
}

// Joins what another handle held, if it is a core that can be joined; else it is given back.
fn join_held(content: &mut Content, held: Content) -> Result<(), Content>
    requires { AreOfOneRun (Some content.old) (Some held) }
    ensures joined { IfOk result (λ _. Joins (Some content.old) (Some held) (Some content.new)) }
    ensures back { IfErr result (λ back. (back ≡ held) × (content.new ≡ content.old) × ¬ MayJoin (Some content.old) (Some held)) }
{
    match held {
        Content::Core(core) => match join(content, core) {
            Ok(()) => Ok(()),
            Err(back) => Err(Content::Core(back)),
        },
        other => Err(other),
    }
}

// Joins the core of a handle, which holds nothing then. If it can't be joined the handle still
// holds it.
fn join_core(alloc: Global, content: &mut Content, core: &mut MsrpHandle) -> u32
    requires { AreOfOneRun (Some content.old) core.old.value }
    ensures joined { result ≡ 0 → Joins (Some content.old) core.old.value (Some content.new) × (core.new.value ≡ None) }
    ensures other { result ≢ 0 → (result ≡ 3) × (content.new ≡ content.old) × (core.new.value ≡ core.old.value) × ¬ MayJoin (Some content.old) core.old.value }
{
    let Some(mut given) = core.take(alloc) else {
        return USAGE;
    };
    match join_held(content, replace(&mut *given, Content::Spare)) {
        Ok(()) => GOOD,
        Err(back) => {
            *given = back;
            *core = MsrpHandle::held(given);
            USAGE
        }
    }
}

/// Joins a core of this run that has ended, cores rising.
#[unsafe(no_mangle)]
pub extern "C" fn msrp_run_join(alloc: Global, run: &mut MsrpHandle, core: &mut MsrpHandle) -> u32
    requires { AreOfOneRun run.old.value core.old.value }
    ensures joined { result ≡ 0 → Joins run.old.value core.old.value run.new.value × (core.new.value ≡ None) }
    ensures misuse { result ≢ 0 → (result ≡ 3) × (run.new.value ≡ run.old.value) × (core.new.value ≡ core.old.value) × ¬ MayJoin run.old.value core.old.value }
{
    let Some(mut content) = run.take(alloc) else {
        return USAGE;
    };
    let status = join_core(alloc, &mut content, core);
    *run = MsrpHandle::held(content);
    status
}

// The run is settled, if all its cores were joined.
fn settled(content: Content) -> Content
    ensures { Settles (Some content) (Some result) }
{
    match content {
        Content::Open(open) => open.settled(),
        other => other,
    }
}

// The text of a run's trace.
fn text_of(
    alloc: Global,
    settled: &SettledRun<'static>,
    version: TextVersion,
) -> Result<Made, CliFault>
    ensures told { IfOk result (λ made. TellsRun version settled.now made.text.items × (made.found ≡ Ok tt)) }
    ensures fault { IfErr result (λ fault. fault ≡ CliFault.Memory) }
{
    let trace = settled.trace(alloc)?;
    let mut out = Sink::new(Vec::new(alloc));
    let Ok(()) = write_trace(&mut out, settled.plan(), &trace, version) else {
        return Err(CliFault::Memory);
    };
    Ok(Made {
        text: out.into_inner(),
        found: Ok(()),
    })
}

// The text of the trace of the run that a handle holds, in a version that is named by its number.
fn made_text(alloc: Global, content: &Content, version: u32) -> Result<Made, CliFault>
    ensures { IsTold (settled_in (Some content.now)) (version_named version) result }
{
    let Some(version) = version_of(version) else {
        return Err(CliFault::Usage);
    };
    match content {
        Content::Settled(settled) => text_of(alloc, settled, version),
        _ => Err(CliFault::Usage),
    }
}

/// The text of the run's trace, once all its cores were joined.
#[unsafe(no_mangle)]
pub extern "C" fn msrp_run_text(
    alloc: Global,
    run: &mut MsrpHandle,
    version: u32,
    text: &mut [u8],
    needed: &mut usize,
) -> u32
    ensures settles { Settles run.old.value run.new.value }
    ensures text { TellsText (settled_in run.new.value) (version_named version) text.old text.new needed.new result }
{
    let mut found = NOTHING;
    let Some(mut content) = run.take(alloc) else {
        return hand_over(Err(CliFault::Usage), text, needed, &mut found);
    };
    *content = settled(replace(&mut *content, Content::Spare));
    let made = made_text(alloc, &content, version);
    *run = MsrpHandle::held(content);
    hand_over(made, text, needed, &mut found)
}

/// Gives the run's memory back, but for that of the plan and its levels.
#[unsafe(no_mangle)]
pub extern "C" fn msrp_run_free(alloc: Global, run: &mut MsrpHandle)
    ensures { run.new.value ≡ None }
{
    let _freed = run.take(alloc);
}
