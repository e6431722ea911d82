//! The signals of a dump: those of each track, and their names.

use crate::signals::Track;
use msrp_advice::{res_name, task_name};
use msrp_plan::{Plan, ResId};
use std::fmt;

/// A signal of a track: its letter in a dump, what its name ends with, and the kind of its values.
pub(crate) type Signal = (char, &'static str, Kind);

/// The type of values in a dump, and the flags with which GTKWave draws them.
type Kind = (&'static str, &'static str);

const TEXT: Kind = ("string 1", "@20");

const FLAG: Kind = ("wire 1", "@28");

const NUMBER: Kind = ("real 64", "@8420");

const OF_CORE: &[Signal] = &[
    ('k', "action", TEXT),
    ('j', "job", TEXT),
    ('g', "resource", TEXT),
];

const OF_TASK: &[Signal] = &[('t', "state", TEXT), ('l', "late", FLAG)];

const OF_LOCAL: &[Signal] = &[('h', "holder", TEXT)];

const OF_GLOBAL: &[Signal] = &[('h', "holder", TEXT), ('q', "queue_length", NUMBER)];

/// Whether tasks of at least two cores use a resource: only for such a one jobs queue.
pub(crate) fn has_queue(plan: &Plan, res: ResId) -> bool {
    res.0 < plan.resources() && plan.is_global(res)
}

/// The signals of a track.
pub(crate) fn signals_of(plan: &Plan, track: Track) -> &'static [Signal] {
    match track {
        Track::Core(_) => OF_CORE,
        Track::Task(_) => OF_TASK,
        Track::Resource(res) if has_queue(plan, res) => OF_GLOBAL,
        Track::Resource(_) => OF_LOCAL,
    }
}

/// What the names of a track's signals begin with.
#[derive(Clone, Copy)]
pub(crate) struct TrackName<'a>(pub(crate) &'a Plan, pub(crate) Track);

impl fmt::Display for TrackName<'_> {
    fn fmt<W: fmt::Write>(&self, f: &mut fmt::Formatter<W>) -> fmt::Result {
        match self.1 {
            Track::Core(core) => write!(f, "core_{}", core.0),
            Track::Task(task) => f.write_str(task_name(self.0, task)),
            Track::Resource(res) => f.write_str(res_name(self.0, res)),
        }
    }
}
