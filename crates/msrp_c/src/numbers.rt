//! The numbers of a row, and of its place on a board, for C.
ghost use Rattle.std.specs.Prelude.{◌≡◌};
ghost use Rattle.msrp_c.specs.RowNumbers.{numbers_of_row, or_none_number, place_number};

use crate::turns::{MsrpRow, NONE};
use msrp_merge::Place;
use msrp_plan::Row;

fn or_none(number: Option<u32>) -> u32
    ensures { result ≡ or_none_number number }
{
    match number {
        Some(number) => number,
        None => NONE,
    }
}

pub(crate) fn numbers_of_row(row: Row) -> MsrpRow
    ensures { result ≡ numbers_of_row row }
{
    MsrpRow {
        tick: row.tick,
        core: row.core.0,
        kind: row.kind as u32,
        task: or_none(row.job.map(|job| job.task.0)),
        job: or_none(row.job.map(|job| job.k)),
        resource: or_none(row.res.map(|res| res.0)),
        ahead: or_none(row.ahead),
    }
}

/// The number of a turn's place.
pub(crate) fn place_number(place: Option<Place>) -> u32
    ensures { result ≡ place_number place }
{
    or_none(place.map(|place| place.number))
}
