//! One job's counts, updated by each of its rows.
ghost use Rattle.std.specs.Prelude.{◌≡◌, ◌<◌, ◌≤◌, ◌+◌, ◌^◌};
ghost use Rattle.msrp_plan.specs.Common.{unwrap_or};
ghost use Rattle.msrp_report.specs.Inside.Counts.{CanCount, counted_as, spun, HasRoom};

use msrp_plan::Kind;

/// One job's counts over the rows so far.
#[derive(Clone, Copy)]
pub(crate) struct JobCount {
    pub(crate) rows: u32,
    /// The units that it has done.
    pub(crate) done: u32,
    /// The tick of its last row.
    pub(crate) last_tick: u32,
    pub(crate) spins: u32,
    /// Its spins since it joined the queue in which it waits.
    pub(crate) wait: Option<u32>,
    /// The most spins in one wait.
    pub(crate) longest_wait: u32,
}

impl JobCount {
    /// A job without a row.
    pub(crate) const NONE: JobCount = JobCount {
        rows: 0,
        done: 0,
        last_tick: 0,
        spins: 0,
        wait: None,
        longest_wait: 0,
    };

    // Counts a spin.
    #[inline(always)]
    fn spin(&mut self)
        requires spins { self.old.spins + 1 < 2 ^ 32 }
        requires wait { HasRoom self.old.wait }
        requires longest { unwrap_or self.old.wait 0 ≤ self.old.longest_wait }
        ensures { self.new ≡ spun self.old }
    {
        self.spins += 1;
        if let Some(spins) = self.wait {
            self.wait = Some(spins + 1);
            self.longest_wait = self.longest_wait.max(spins + 1);
        }
    }

    /// Counts a row of the job, of this tick and kind. Writes only what changes. Most rows do a
    /// unit; a table finds these without a branch.
    #[inline(always)]
    pub(crate) fn add(&mut self, tick: u32, kind: Kind)
        requires { CanCount self.old }
        ensures { self.new ≡ counted_as tick kind self.old }
    {
        self.rows += 1;
        self.last_tick = tick;
        if matches!(kind, Kind::Queue) {
            self.wait = Some(self.wait.unwrap_or(0));
        } else if matches!(kind, Kind::Spin) {
            self.spin();
        } else {
            self.done += 1;
            if matches!(kind, Kind::Grant) {
                self.wait = None;
            }
        }
    }
}
