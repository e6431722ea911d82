//! The numbers of tasks and resources, by their names.
ghost use Rattle.std.specs.Prelude.{◌≡◌};
ghost use Rattle.msrp_plan.specs.Common.{map, name_position};
ghost use Rattle.msrp_engine.specs.Answered.{OrUnread};
ghost use Rattle.msrp_text.specs.Fields.{text_of};
ghost use Rattle.msrp_text.specs.Reading.{csv_records, plan_of};
ghost use Rattle.msrp_c.specs.Answers.{is_long};
ghost use Rattle.msrp_c.specs.Names.{AnswersNumber, TellsNumber, number_in};

use crate::answers::{MsrpFound, is_long, tell, unfailed};
use msrp_engine::CliFault;
use msrp_plan::bytes::Source;
use msrp_text::read_plan;
use std::alloc::Global;
use std::str;

// A name; empty, so no name, if it isn't UTF-8.
fn text_of(name: &[u8]) -> &str
    ensures { result.now ≡ text_of name.now }
{
    match str::from_utf8(name) {
        Ok(text) => text,
        Err(_) => "",
    }
}

// The number of the plan's task with this name.
fn task_of(alloc: Global, plan: &[u8], name: &[u8]) -> Result<u32, CliFault>
    ensures { OrUnread result (result ≡ number_in (λ plan. name_position (map (λ task. task.name) plan.tasks) (text_of name.now)) (plan_of (csv_records plan.now))) }
{
    let mut source = Source::new(plan);
    let plan = read_plan(alloc, &mut source)?;
    match plan.task_of(text_of(name)) {
        Some(task) => Ok(task.0),
        None => Err(CliFault::Usage),
    }
}

// The number of the plan's resource with this name.
fn res_of(alloc: Global, plan: &[u8], name: &[u8]) -> Result<u32, CliFault>
    ensures { OrUnread result (result ≡ number_in (λ plan. name_position plan.resources (text_of name.now)) (plan_of (csv_records plan.now))) }
{
    let mut source = Source::new(plan);
    let plan = read_plan(alloc, &mut source)?;
    match plan.res_of(text_of(name)) {
        Some(res) => Ok(res.0),
        None => Err(CliFault::Usage),
    }
}

// Writes a number, or reports why there is none.
fn tell_number(what: Result<u32, CliFault>, number: &mut u32, found: &mut MsrpFound) -> u32
    ensures { TellsNumber what number.old number.new found.new result }
{
    match what {
        Ok(named) => {
            *number = named;
            tell(Ok(Ok(())), found)
        }
        Err(fault) => tell(Err(fault), found),
    }
}

/// The number of the plan's task with this name, from 0 in the order of declaration. It is wrong
/// use to ask for a name that no task has.
#[unsafe(no_mangle)]
pub extern "C" fn msrp_task_number(
    alloc: Global,
    plan: &[u8],
    name: &[u8],
    number: &mut u32,
    found: &mut MsrpFound,
) -> u32
    ensures { AnswersNumber (is_long plan.now) (number_in (λ plan. name_position (map (λ task. task.name) plan.tasks) (text_of name.now)) (plan_of (csv_records plan.now))) number.old number.new found.new result }
{
    if is_long(plan) {
        return tell_number(Err(CliFault::Read), number, found);
    }
    let what = task_of(alloc, plan, name);
    tell_number(unfailed(what), number, found)
}

/// The number of the plan's resource with this name, from 0 in the order of declaration. It is
/// wrong use to ask for a name that no resource has.
#[unsafe(no_mangle)]
pub extern "C" fn msrp_resource_number(
    alloc: Global,
    plan: &[u8],
    name: &[u8],
    number: &mut u32,
    found: &mut MsrpFound,
) -> u32
    ensures { AnswersNumber (is_long plan.now) (number_in (λ plan. name_position plan.resources (text_of name.now)) (plan_of (csv_records plan.now))) number.old number.new found.new result }
{
    if is_long(plan) {
        return tell_number(Err(CliFault::Read), number, found);
    }
    let what = res_of(alloc, plan, name);
    tell_number(unfailed(what), number, found)
}
