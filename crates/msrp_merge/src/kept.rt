//! A turn in a log: without its tick and core, in as few bytes as possible.
ghost use Rattle.std.specs.Prelude.{◌≡◌};
ghost use Rattle.msrp_plan.specs.Common.{ahead_of_kind, job_of_kind, res_of_kind};
ghost use Rattle.msrp_merge.specs.Keeping.{place_of_touch, turn_of};

use crate::logs::{Place, Turn};
use msrp_plan::{CoreId, JobId, Kind, ResId, Row, TaskId};
use std::mem::size_of;

/// How a turn used a global resource.
#[derive(Clone, Copy, Debug, PartialEq, Eq)]
pub(crate) enum Touch {
    Nothing,
    Step,
    Poll,
}

/// A turn without its tick and core, which its log knows. A part that a row of this kind lacks has
/// some value and isn't read.
#[derive(Clone, Copy, Debug, PartialEq, Eq)]
pub(crate) struct Kept {
    kind: Kind,
    touch: Touch,
    carries: bool,
    job: JobId,
    res: ResId,
    ahead: u32,
    number: u32,
}

const _: () = prove!(size_of::<Kept>() == 24);

const NO_JOB: JobId = JobId {
    task: TaskId(0),
    k: 0,
};

const NO_RES: ResId = ResId(0);

// How a turn with this place used its resource, and the number of the place.
fn touch_of(place: Option<Place>) -> (Touch, u32)
    ensures { place_of_touch result.0 result.1 ≡ place }
{
    match place {
        None => (Touch::Nothing, 0),
        Some(place) if place.polled => (Touch::Poll, place.number),
        Some(place) => (Touch::Step, place.number),
    }
}

impl Kept {
    pub(crate) fn of(row: Row, place: Option<Place>) -> Kept
        ensures { turn_of row.core.0 row.tick result ≡ record { row = row; place = place } }
    {
        let (touch, number) = touch_of(place);
        let carries = row.ahead.is_some();
        let job = row.job.unwrap_or(NO_JOB);
        let res = row.res.unwrap_or(NO_RES);
        let ahead = row.ahead.unwrap_or(0);
        Kept {
            kind: row.kind,
            touch,
            carries,
            job,
            res,
            ahead,
            number,
        }
    }

    fn job(&self) -> Option<JobId>
        ensures { result ≡ job_of_kind self.now.kind self.now.job }
    {
        match self.kind {
            Kind::Idle => None,
            _ => Some(self.job),
        }
    }

    fn res(&self) -> Option<ResId>
        ensures { result ≡ res_of_kind self.now.kind self.now.res }
    {
        match self.kind {
            Kind::Idle | Kind::Run => None,
            _ => Some(self.res),
        }
    }

    fn ahead(&self) -> Option<u32>
        ensures { result ≡ ahead_of_kind self.now.kind self.now.carries self.now.ahead }
    {
        match self.kind {
            Kind::Queue if self.carries => Some(self.ahead),
            _ => None,
        }
    }

    fn place(&self) -> Option<Place>
        ensures { result ≡ place_of_touch self.now.touch self.now.number }
    {
        let number = self.number;
        match self.touch {
            Touch::Nothing => None,
            Touch::Step => Some(Place {
                number,
                polled: false,
            }),
            Touch::Poll => Some(Place {
                number,
                polled: true,
            }),
        }
    }

    /// The turn, of this core in this tick.
    pub(crate) fn turn(&self, core: CoreId, tick: u32) -> Turn
        ensures { result ≡ turn_of core.0 tick self.now }
    {
        let job = self.job();
        let res = self.res();
        let ahead = self.ahead();
        let place = self.place();
        let row = Row {
            tick,
            core,
            kind: self.kind,
            job,
            res,
            ahead,
        };
        Turn { row, place }
    }
}
