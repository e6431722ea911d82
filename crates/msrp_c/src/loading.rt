//! Reads a plan that is never freed, so that handles can borrow it.
ghost use Rattle.msrp_engine.specs.Answered.{OrUnread};
ghost use Rattle.msrp_text.specs.Reading.{csv_records, plan_of};
ghost use Rattle.msrp_c.specs.Loading.{IsLoaded};

use crate::held::Loaded;
use msrp_engine::CliFault;
use msrp_levels::Levels;
use msrp_plan::Plan;
use msrp_plan::bytes::Source;
use msrp_text::read_plan;
use std::alloc::Global;

/// The plan of a text, with its levels. They are never freed, so that handles can borrow them.
pub(crate) fn load(alloc: Global, text: &[u8]) -> Result<Loaded<'static>, CliFault>
    ensures { OrUnread result (IsLoaded (plan_of (csv_records text.now)) result) }
{
    let mut source = Source::new(text);
    let plan = read_plan(alloc, &mut source)?;
    let Ok(plan) = Box::new(alloc, plan) else {
        return Err(CliFault::Memory);
    };
    let plan: &'static Plan = Box::leak(plan);
    let levels = Levels::of(alloc, plan)?;
    let Ok(levels) = Box::new(alloc, levels) else {
        return Err(CliFault::Memory);
    };
    let levels: &'static Levels<'static> = Box::leak(levels);
    Ok(Loaded { plan, levels })
}
