//! Texts of a plan: its run, its levels and ceilings, and its own text.
ghost use Rattle.msrp_plan.specs.Common.{Ok};
ghost use Rattle.msrp_engine.specs.CheckText.{check_text};
ghost use Rattle.msrp_engine.specs.Simulation.{IsTextOf, WhyNoText};
ghost use Rattle.msrp_text.specs.PlanText.{plan_text};
ghost use Rattle.msrp_text.specs.Reading.{csv_records, plan_of};
ghost use Rattle.msrp_sim.specs.Orders.{cores_of};
ghost use Rattle.msrp_c.specs.Answers.{Answers, is_long};
ghost use Rattle.msrp_c.specs.Numbers.{turns_named, version_named};
ghost use Rattle.msrp_c.specs.Texts.{IsRunOf, IsSimulated, Makes, WhyNoRun};

use crate::answers::{MsrpFound, hand_over, is_long, or_memory, unfailed};
use crate::orders::{order_of, version_of};
use msrp_engine::{CliFault, Made, check_text, plan_text, sim_text};
use msrp_plan::TextVersion;
use msrp_plan::bytes::{Sink, Source};
use msrp_sim::Order;
use std::alloc::Global;

// The text of a plan's run in this order.
fn run_of(alloc: Global, plan: &[u8], order: &Order, version: TextVersion) -> Result<Made, CliFault>
    ensures { Makes (IsRunOf version (cores_of order.now) (plan_of (csv_records plan.now))) (WhyNoRun (cores_of order.now) (plan_of (csv_records plan.now))) result }
{
    let mut plan = Source::new(plan);
    let mut out = Sink::new(Vec::new(alloc));
    match sim_text(alloc, &mut plan, &mut out, order, version) {
        Ok(_) => Ok(Made {
            text: out.into_inner(),
            found: Ok(()),
        }),
        Err(fault) => Err(or_memory(fault)),
    }
}

// The trace of a plan's run in the order and version of these numbers.
fn simulated(
    alloc: Global,
    plan: &[u8],
    order: u32,
    cores: &[u32],
    version: u32,
) -> Result<Made, CliFault>
    ensures { IsSimulated (version_named version) (turns_named order cores.now) (plan_of (csv_records plan.now)) result }
{
    let Some(version) = version_of(version) else {
        return Err(CliFault::Usage);
    };
    match order_of(alloc, order, cores) {
        Ok(order) => run_of(alloc, plan, &order, version),
        Err(fault) => Err(fault),
    }
}

// A plan's levels and ceilings.
fn checked(alloc: Global, plan: &[u8]) -> Result<Made, CliFault>
    ensures { Makes (IsTextOf check_text (plan_of (csv_records plan.now))) (WhyNoText (plan_of (csv_records plan.now))) result }
{
    let mut plan = Source::new(plan);
    let mut out = Sink::new(Vec::new(alloc));
    match check_text(alloc, &mut plan, &mut out) {
        Ok(_) => Ok(Made {
            text: out.into_inner(),
            found: Ok(()),
        }),
        Err(fault) => Err(or_memory(fault)),
    }
}

// A plan's own text.
fn own_text(alloc: Global, plan: &[u8]) -> Result<Made, CliFault>
    ensures { Makes (IsTextOf plan_text (plan_of (csv_records plan.now))) (WhyNoText (plan_of (csv_records plan.now))) result }
{
    let mut plan = Source::new(plan);
    let mut out = Sink::new(Vec::new(alloc));
    match plan_text(alloc, &mut plan, &mut out) {
        Ok(_) => Ok(Made {
            text: out.into_inner(),
            found: Ok(()),
        }),
        Err(fault) => Err(or_memory(fault)),
    }
}

/// The text of the trace of a plan's run on one thread. In each tick the cores rise (order 0), fall
/// (1), go round (2), or are the given ones (3). Versions are 1 and 2.
#[unsafe(no_mangle)]
pub extern "C" fn msrp_sim(
    alloc: Global,
    plan: &[u8],
    order: u32,
    cores: &[u32],
    version: u32,
    text: &mut [u8],
    needed: &mut usize,
    found: &mut MsrpFound,
) -> u32
    ensures { Answers (is_long plan.now) (IsSimulated (version_named version) (turns_named order cores.now) (plan_of (csv_records plan.now))) text.old text.new needed.new found.new result }
{
    if is_long(plan) {
        return hand_over(Err(CliFault::Read), text, needed, found);
    }
    let made = simulated(alloc, plan, order, cores, version);
    hand_over(unfailed(made), text, needed, found)
}

/// The levels and ceilings of a plan, as a text.
#[unsafe(no_mangle)]
pub extern "C" fn msrp_check(
    alloc: Global,
    plan: &[u8],
    text: &mut [u8],
    needed: &mut usize,
    found: &mut MsrpFound,
) -> u32
    ensures { Answers (is_long plan.now) (Makes (IsTextOf check_text (plan_of (csv_records plan.now))) (WhyNoText (plan_of (csv_records plan.now)))) text.old text.new needed.new found.new result }
{
    if is_long(plan) {
        return hand_over(Err(CliFault::Read), text, needed, found);
    }
    let made = checked(alloc, plan);
    hand_over(unfailed(made), text, needed, found)
}

/// A plan's own text, which reads as the same plan.
#[unsafe(no_mangle)]
pub extern "C" fn msrp_plan_text(
    alloc: Global,
    plan: &[u8],
    text: &mut [u8],
    needed: &mut usize,
    found: &mut MsrpFound,
) -> u32
    ensures { Answers (is_long plan.now) (Makes (IsTextOf plan_text (plan_of (csv_records plan.now))) (WhyNoText (plan_of (csv_records plan.now)))) text.old text.new needed.new found.new result }
{
    if is_long(plan) {
        return hand_over(Err(CliFault::Read), text, needed, found);
    }
    let made = own_text(alloc, plan);
    hand_over(unfailed(made), text, needed, found)
}
