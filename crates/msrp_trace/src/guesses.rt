//! Guesses at the names in a row, which save a search for most of them.
ghost use Rattle.std.specs.Prelude.{◌≡◌, ◌<◌};
ghost use Rattle.msrp_plan.specs.Common.{most_cores};
ghost use Rattle.std.specs.Option.{IfSome};

use msrp_plan::limits::MOST_CORES;
use msrp_plan::{ResId, Row, TaskId};

/// A task and a resource that a row may name.
#[derive(Clone, Copy)]
pub(crate) struct Guess {
    pub(crate) task: TaskId,
    pub(crate) res: ResId,
}

// The guess before any row of the core.
const FIRST: Guess = Guess {
    task: TaskId(0),
    res: ResId(0),
};

/// What each core's last row named. Most rows of a core name the same, so a reader compares these
/// names before it searches. The guess never changes what is read.
#[derive(Drop)]
pub(crate) struct Guesses {
    of_core: [Guess; MOST_CORES as usize],
}

impl Guesses {
    ghost use Rattle.msrp_trace.specs.Guesses.{guess_of};

    /// Before any row.
    pub(crate) fn new() -> Guesses {
        Guesses {
            of_core: [FIRST; MOST_CORES as usize],
        }
    }

    /// What the next row of a core may name.
    pub(crate) fn of(&self, core: u32) -> Guess
        ensures { result ≡ guess_of self.now core }
    {
        let core = core as usize;
        if core < self.of_core.len() {
            self.of_core[core]
        } else {
            FIRST
        }
    }

    /// Stores what a row named.
    pub(crate) fn keep(&mut self, row: &Row)
        ensures task { row.now.core.0 < most_cores → IfSome row.now.job (λ job. (guess_of self.new row.now.core.0).task ≡ job.task) }
        ensures res { row.now.core.0 < most_cores → IfSome row.now.res (λ res. (guess_of self.new row.now.core.0).res ≡ res) }
    {
        let core = row.core.0 as usize;
        if core < self.of_core.len() {
            let last = self.of_core[core];
            self.of_core[core] = Guess {
                task: row.job.map_or(last.task, |job| job.task),
                res: row.res.unwrap_or(last.res),
            };
        }
    }
}
