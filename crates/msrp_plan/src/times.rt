//! When the jobs of a task are released: once a period from an offset on, or at listed ticks.
ghost use Rattle.std.specs.Prelude.{◌≡◌, ◌<◌, ◌≤◌, ◌*◌, ◌^◌, ◌==◌, ℕ, length, nat_lt, IsSome, Some, OnOk, OnErr, vec_len};
ghost use Rattle.msrp_plan.specs.ReleaseTimes.{AreTimes, is_listed, lacks_release, listed_ticks, tick_of, with_tick};
ghost use Rattle.msrp_plan.specs.Limits.{longest_time};
ghost use Rattle.msrp_plan.specs.Inside.Tasks.{comes_before, times_view};
ghost use Rattle.msrp_plan.specs.Times.{times_told};

use std::alloc::AllocError;

/// The release times of a task, in ticks.
#[derive(Clone, Copy, Debug, PartialEq, Eq)]
pub enum Times {
    /// Job `k` is released at `offset + k * period`.
    Every { period: u32, offset: u32 },
    /// The jobs are released at `count` listed ticks.
    Listed { count: u32 },
}

// The release times of a task as they are stored.
#[derive(Debug, Drop)]
pub(crate) enum Releases {
    Every { period: u32, offset: u32 },
    Listed(Vec<u32>),
}

impl Releases {
    // The release times as a plan's reader sees them.
    pub(crate) fn times(&self) -> Times
        requires { AreTimes (times_view self.now) }
        ensures { result ≡ times_told (times_view self.now) }
    {
        match self {
            Releases::Every { period, offset } => Times::Every {
                period: *period,
                offset: *offset,
            },
            Releases::Listed(ticks) => Times::Listed {
                count: ticks.len() as u32,
            },
        }
    }

    // The tick of the k-th release.
    pub(crate) fn tick(&self, k: u32) -> u64
        requires times { AreTimes (times_view self.now) }
        requires released { IsSome (tick_of (times_view self.now) k) }
        ensures value { tick_of (times_view self.now) k ≡ Some result }
        ensures bound { result ≤ longest_time * 2 ^ 32 }
    {
        match self {
            Releases::Every { period, offset } => {
                u64::from(*offset) + u64::from(k) * u64::from(*period)
            }
            Releases::Listed(ticks) => u64::from(ticks[k as usize]),
        }
    }

    // The number of releases before a tick.
    pub(crate) fn count_before(&self, tick: u32) -> u32
        requires { AreTimes (times_view self.now) }
        ensures { (k : ℕ) → comes_before (times_view self.now) tick k ≡ nat_lt k result }
    {
        match self {
            Releases::Every { period, offset } => tick.saturating_sub(*offset).div_ceil(*period),
            Releases::Listed(ticks) => ticks.partition_point(|release| *release < tick) as u32,
        }
    }

    pub(crate) fn is_listed(&self) -> bool
        ensures { result ≡ is_listed (times_view self.now) }
    {
        matches!(self, Releases::Listed(_))
    }

    // The ticks of a list; none for a periodic task.
    pub(crate) fn listed(&self) -> &[u32]
        ensures { result.now ≡ listed_ticks (times_view self.now) }
    {
        match self {
            Releases::Every { .. } => &[],
            Releases::Listed(ticks) => ticks.as_slice(),
        }
    }

    // Whether they are a list that is still empty.
    pub(crate) fn is_empty(&self) -> bool
        ensures { result ≡ lacks_release (times_view self.now) }
    {
        self.is_listed() && self.listed().is_empty()
    }

    // Adds a tick to the list.
    pub(crate) fn push(&mut self, tick: u32) -> Result<(), AllocError>
        ensures added { OnOk result (times_view self.new ≡ with_tick (times_view self.old) tick) }
        ensures kept { OnErr result (times_view self.new ≡ times_view self.old) }
    {
        if let Releases::Listed(ticks) = self {
            ticks.push(tick)?;
        }
        Ok(())
    }
}
