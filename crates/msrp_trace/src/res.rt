//! The text of a resource, made once for the rows on it.
ghost use Rattle.std.specs.Prelude.{◌≡◌, ◌<◌, ◌≤◌};
ghost use Rattle.msrp_plan.specs.Common.{length, true, Some, None, PlanModel};
ghost use Rattle.msrp_trace.specs.Gathering.{next_field};
ghost use Rattle.msrp_trace.specs.Lines.{AreResTexts, IsResText};
ghost use Rattle.msrp_trace.specs.TraceText.{res_text};

use crate::text::Text;
use msrp_plan::limits::MOST_RESOURCES;
use msrp_plan::{Plan, ResId};
use std::array;

// Enough for a comma and a name of at most 16 letters.
const RES: usize = 24;

/// A resource, and its field in a record.
#[derive(Drop)]
pub(crate) struct ResText {
    res: Option<ResId>,
    text: Text<RES>,
}

// The name of a resource.
fn res_field(plan: &Plan, res: ResId) -> &[u8]
    requires { res.0 < length plan.now.resources }
    ensures name { result.now ≡ res_text plan.now (Some res) }
    ensures short { length result.now ≤ 16 }
{
    // This read proves that the plan is an accepted one.
    let _accepted = plan.resources();
    plan.res_name(res).as_bytes()
}

impl ResText {
    pub(crate) fn new() -> ResText
        ensures { result.res ≡ None }
    {
        ResText {
            res: None,
            text: Text::new(),
        }
    }

    fn is_of(&self, res: ResId) -> bool
        ensures { result ≡ true → self.now.res ≡ Some res }
    {
        match self.res {
            Some(last) => last == res,
            None => false,
        }
    }

    /// Makes the field of a resource, unless it is here already.
    #[inline(always)]
    pub(crate) fn show(&mut self, plan: &Plan, res: ResId)
        requires res { res.0 < length plan.now.resources }
        requires before { IsResText plan.now self.old }
        ensures after { IsResText plan.now self.new }
        ensures text { self.new.text ≡ next_field (res_text plan.now (Some res)) }
        ensures short { length self.new.text ≤ 17 }
    {
        if !self.is_of(res) {
            self.make(plan, res);
            self.res = Some(res);
        }
    }

    #[inline(never)]
    fn make(&mut self, plan: &Plan, res: ResId)
        requires { res.0 < length plan.now.resources }
        ensures text { self.new.text ≡ next_field (res_text plan.now (Some res)) }
        ensures short { length self.new.text ≤ 17 }
    {
        self.text.clear();
        self.text.next(res_field(plan, res));
    }

    /// The field.
    pub(crate) fn text(&self) -> &Text<RES>
        ensures { result.now ≡ self.now.text }
    {
        &self.text
    }
}

/// The resources' fields, by number; all cores share them.
#[derive(Drop)]
pub(crate) struct ResTexts {
    pub(crate) kept: [ResText; MOST_RESOURCES],
}

impl ResTexts {
    pub(crate) fn new() -> ResTexts
        ensures { (plan : PlanModel) → AreResTexts plan result }
    {
        ResTexts {
            kept: array::from_fn(
                |_|
                    ensures { result.res ≡ None }
                { ResText::new() },
            ),
        }
    }
}
