//! Why a plan is refused, or what is odd in it, in words.
ghost use Rattle.std.specs.Prelude.{◌≡◌, ◌⊎◌, ◌-◌};
ghost use Rattle.msrp_plan.specs.Common.{ℕ, List, true, false, Ok, Some, Err, map, take, IfOk, IfErr, OnOk, source_failed, source_remaining, WroteSome};
ghost use Rattle.msrp_view_engine.specs.Common.{Ends, IsDone, OrUnread, answered, csv_records, fault_of, fields_of, is_sim_fault, plan_of};
ghost use Rattle.msrp_view_engine.specs.Answers.{IsOnPlan, answer_to, plan_found};

use crate::words::{Outcome, Words, answer_to};
use csv::ByteRecord;
use msrp_advice::{AcceptedPlan, RefusedPlan, warnings_of};
use msrp_engine::{CliFault, ending_of, write_answer};
use msrp_levels::Levels;
use msrp_plan::bytes::{Sink, Source};
use msrp_plan::{Plan, PlanFault};
use msrp_text::records::RecordReader;
use msrp_text::{TextError, read_plan};
use std::alloc::Global;
use std::io::{Read, Write};

/// All bytes of a text.
pub(crate) fn bytes_of<P: Read>(alloc: Global, text: &mut Source<P>) -> Result<Vec<u8>, CliFault>
    ensures bytes { (bytes : List ℕ) → source_remaining P.remaining text.old ≡ Some bytes → IfOk result (λ all. all.items ≡ bytes) }
    ensures faults { IfErr result (λ fault. (fault ≡ CliFault.Read) ⊎ (fault ≡ CliFault.Memory)) }
    ensures read { result ≡ Err CliFault.Read → source_failed text.new ≡ true }
    ensures memory { result ≡ Err CliFault.Memory → source_failed text.new ≡ false }
    ensures whole { OnOk result (source_failed text.new ≡ false) }
{
    let mut all = Vec::new(alloc);
    match text.read_to_end(&mut all) {
        Ok(_) if !text.failed() => Ok(all),
        _ => Err(ending_of(text)),
    }
}

fn first_records(alloc: Global, bytes: &[u8], most: u32) -> Result<Vec<ByteRecord>, CliFault>
    ensures records { IfOk result (λ records. map fields_of records.items ≡ take most (csv_records bytes.now)) }
    ensures fault { IfErr result (λ fault. fault ≡ CliFault.Memory) }
{
    let mut reader = RecordReader::new(alloc, bytes);
    let mut records = Vec::new(alloc);
    for _record in 0..most {
        let mut row = ByteRecord::new(alloc);
        // Bytes in memory are read without a fault.
        let Ok(found) = reader.read(&mut row) else {
            return Err(CliFault::Memory);
        };
        if !found {
            return Ok(records);
        }
        records.push(row)?;
    }
    Ok(records)
}

fn refusal_text<'a>(
    alloc: Global,
    name: &'a str,
    text: &'a [u8],
    fault: PlanFault,
    number: u32,
    before: &'a [ByteRecord],
    row: &'a ByteRecord,
) -> Result<Vec<u8>, CliFault>
    ensures { IfErr result (λ fault. fault ≡ CliFault.Memory) }
{
    let words = RefusedPlan {
        name,
        text,
        fault,
        number,
        before,
        row,
    };
    Ok(format!(in alloc; "{words}")?.into_bytes())
}

fn refusal_words(alloc: Global, name: &str, text: &[u8], fault: PlanFault, number: u32) -> Outcome
    ensures found { IfOk result (λ words. words.found ≡ Err (fault_of (TextError.At fault number))) }
    ensures memory { IfErr result (λ fault. fault ≡ CliFault.Memory) }
{
    let records = first_records(alloc, text, number)?;
    let none = ByteRecord::new(alloc);
    let place = number.saturating_sub(1) as usize;
    let before = records.get(..place).unwrap_or(records.as_slice());
    let row = records.get(place).unwrap_or(&none);
    Ok(Words {
        text: refusal_text(alloc, name, text, fault, number, before, row)?,
        found: Err(CliFault::from(TextError::At { fault, number })),
    })
}

fn plan_words(alloc: Global, plan: &Plan) -> Outcome
    ensures found { IfOk result (λ words. words.found ≡ Ok (Ok tt)) }
    ensures memory { IfErr result (λ fault. fault ≡ CliFault.Memory) }
{
    let levels = Levels::of(alloc, plan)?;
    let warnings = warnings_of(alloc, plan, &levels)?;
    let words = AcceptedPlan {
        plan,
        warnings: warnings.as_slice(),
    };
    Ok(Words {
        text: format!(in alloc; "{words}")?.into_bytes(),
        found: Ok(Ok(())),
    })
}

/// The words on a plan, and its refusal if it is refused, as [`why_plan_text`] writes them.
pub fn why_of_plan<P: Read>(alloc: Global, name: &str, plan: &mut Source<P>) -> Outcome
    ensures found { (bytes : List ℕ) → source_remaining P.remaining plan.old ≡ Some bytes → IfOk result (λ words. words.found ≡ plan_found (plan_of (csv_records bytes))) }
    ensures plan { IfOk result (λ words. IsOnPlan words.found) }
    ensures faults { IfErr result (λ fault. (fault ≡ CliFault.Read) ⊎ (fault ≡ CliFault.Memory)) }
    ensures read { result ≡ Err CliFault.Read → source_failed plan.new ≡ true }
    ensures memory { result ≡ Err CliFault.Memory → source_failed plan.new ≡ false }
{
    let bytes = bytes_of(alloc, plan)?;
    match read_plan(alloc, &mut Source::new(bytes.as_slice())) {
        Ok(plan) => plan_words(alloc, &plan),
        Err(TextError::At { fault, number }) => {
            refusal_words(alloc, name, bytes.as_slice(), fault, number)
        }
        Err(_) => Err(CliFault::Memory),
    }
}

/// Reads a plan of that name, and writes what is wrong with it or odd in it, as [`RefusedPlan`] and
/// [`AcceptedPlan`] say it. The answer to a refused plan is its refusal, as every engine gives it.
///
/// All memory is taken before anything is written: after any fault but a refusal or a failed write,
/// nothing was written.
#[tactic(auto, using(crate::proofs::Answering::writes))]
pub fn why_plan_text<P: Read, W: Write>(
    alloc: Global,
    name: &str,
    plan: &mut Source<P>,
    out: &mut Sink<W>,
) -> Result<u8, CliFault>
    ensures answer { (bytes : List ℕ) → source_remaining P.remaining plan.old ≡ Some bytes → OrUnread result (result ≡ answered (answer_to (plan_found (plan_of (csv_records bytes)))) out.new) }
    ensures wrote { WroteSome W.contents out.old out.new }
    ensures read { result ≡ Err CliFault.Read → source_failed plan.new ≡ true }
    ensures memory { result ≡ Err CliFault.Memory → source_failed plan.new ≡ false }
    ensures ends { Ends IsDone (λ fault. is_sim_fault fault ≡ true) out.new result }
    ensures silent { (result ≡ Err CliFault.Memory) ⊎ (result ≡ Err CliFault.Read) → out.new ≡ out.old }
{
    let words = why_of_plan(alloc, name, plan)?;
    write_answer(out, words.text.as_slice(), answer_to(words.found))
}
