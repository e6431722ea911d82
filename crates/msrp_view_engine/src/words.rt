//! Words that are made in memory, and the answer to what is found.
ghost use Rattle.std.specs.Prelude.{◌≡◌};
ghost use Rattle.msrp_view_engine.specs.Answers.{answer_to};

use msrp_engine::CliFault;
use msrp_plan::Fault;

/// Words that were made in memory, and what is found: a verdict, or the refusal of a record.
#[derive(Debug, Drop)]
pub struct Words {
    pub text: Vec<u8>,
    pub found: Result<Result<(), Fault>, CliFault>,
}

/// Words in memory, or why there are none.
pub(crate) type Outcome = Result<Words, CliFault>;

/// The status of a verdict, or the refusal.
pub(crate) fn answer_to(found: Result<Result<(), Fault>, CliFault>) -> Result<u8, CliFault>
    ensures { result ≡ answer_to found }
{
    match found {
        Ok(Ok(())) => Ok(0),
        Ok(Err(_)) => Ok(1),
        Err(fault) => Err(fault),
    }
}
