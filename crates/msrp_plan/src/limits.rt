//! The limits of every plan. Beyond one, the builder refuses too many jobs as P13, all else as P7.
ghost use Rattle.std.specs.Prelude.{◌≡◌};
ghost use Rattle.msrp_plan.specs.Limits.{most_cores, most_ticks, most_tasks, most_resources, most_units, most_held, most_jobs, most_releases, longest_time, most_bytes, most_calls};

use crate::bytes::{BYTE_LIMIT, CALL_LIMIT};

/// The most cores of a plan.
pub const MOST_CORES: u32 = 8;

/// The most ticks of a plan.
pub const MOST_TICKS: u32 = 20_000;

/// The most tasks of a plan.
pub const MOST_TASKS: usize = 64;

/// The most resources of a plan.
pub const MOST_RESOURCES: usize = 32;

/// The most units of a task.
pub const MOST_UNITS: usize = 4_096;

/// The most resources that a task holds at once.
pub const MOST_HELD: usize = 8;

/// The most jobs of a plan.
pub const MOST_JOBS: u32 = 8_192;

/// The most releases of a listed task, those after the plan's end included.
pub const MOST_RELEASES: usize = 8_192;

/// The greatest period, relative deadline, offset and tick of a listed release, in ticks.
pub const LONGEST_TIME: u32 = 1_000_000;

/// These constants are the limits that the definitions name, those of a source of bytes included.
pub fn stated()
    ensures cores { MOST_CORES ≡ most_cores }
    ensures ticks { MOST_TICKS ≡ most_ticks }
    ensures tasks { MOST_TASKS ≡ most_tasks }
    ensures resources { MOST_RESOURCES ≡ most_resources }
    ensures units { MOST_UNITS ≡ most_units }
    ensures held { MOST_HELD ≡ most_held }
    ensures jobs { MOST_JOBS ≡ most_jobs }
    ensures releases { MOST_RELEASES ≡ most_releases }
    ensures time { LONGEST_TIME ≡ longest_time }
    ensures bytes { BYTE_LIMIT ≡ most_bytes }
    ensures calls { CALL_LIMIT ≡ most_calls }
{}
