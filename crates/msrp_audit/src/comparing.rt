//! A row compared with the expected one: the lowest rule that it violates.
ghost use Rattle.std.specs.Prelude.{◌≡◌};
ghost use Rattle.msrp_plan.specs.Common.{same_choice, same_res, same_kind};
ghost use Rattle.msrp_audit.specs.Foresight.{same_action, same_ahead, does_alike, replied_alike, unlike, unlike_turn};

use msrp_plan::{Kind, Row, Rule};

// Whether the kinds are equal, up to the answer.
#[inline(always)]
fn is_same_action(kind: Kind, due: Kind) -> bool
    ensures { result ≡ same_action kind due }
{
    match (kind, due) {
        (Kind::Take | Kind::Queue, Kind::Take | Kind::Queue) => true,
        (Kind::Grant | Kind::Spin, Kind::Grant | Kind::Spin) => true,
        _ => kind == due,
    }
}

#[inline(always)]
fn does_as(row: Row, due: Row) -> bool
    ensures { result ≡ does_alike row due }
{
    row.res == due.res && is_same_action(row.kind, due.kind)
}

#[inline(always)]
fn replied_as(row: Row, due: Row) -> bool
    ensures { result ≡ replied_alike row due }
{
    row.kind == due.kind && (row.ahead.is_none() || row.ahead == due.ahead)
}

// The lower of the rules on job and action that the row violates, given the expected row.
#[inline(always)]
pub(crate) fn unlike_turn(row: Row, due: Row) -> Option<Rule>
    ensures { result ≡ unlike_turn row due }
{
    if row.job != due.job {
        Some(Rule::A3)
    } else if !does_as(row, due) {
        Some(Rule::A4)
    } else {
        None
    }
}

// The lowest of the rules on job, action and reply that the row violates, given the expected row.
#[inline(always)]
pub(crate) fn unlike_due(row: Row, due: Row) -> Option<Rule>
    ensures { result ≡ unlike row due }
{
    match unlike_turn(row, due) {
        Some(rule) => Some(rule),
        None if replied_as(row, due) => None,
        None => Some(Rule::A5),
    }
}
