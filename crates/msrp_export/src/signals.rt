//! The tracks of cores, tasks and resources, and their states in a tick and in the tick before.
ghost use Rattle.std.specs.Prelude.{◌≡◌, ◌<◌, ◌+◌, ◌^◌};
ghost use Rattle.msrp_plan.specs.Common.{[], List, IfSome, IsPlan};
ghost use Rattle.msrp_export.specs.Signals.{Row as TraceRow, IsTrack, Summarizes, TellTick, state_before, state_in, state_of};

use crate::summary::{Summary, next};
use crate::tasks::{TaskStatus, task_status};
use msrp_plan::{CoreId, JobId, Plan, ResId, Row, TaskId};

/// Whose track it is. Perfetto shows those of cores, of tasks and of resources as the threads of a
/// process each.
#[derive(Clone, Copy)]
pub(crate) enum Track {
    Core(CoreId),
    Task(TaskId),
    Resource(ResId),
}

impl Track {
    pub(crate) fn number(self) -> u32 {
        match self {
            Track::Core(core) => core.0,
            Track::Task(task) => task.0,
            Track::Resource(resource) => resource.0,
        }
    }
}

/// How many tracks a plan has.
pub(crate) fn track_count(plan: &Plan) -> u32 {
    let many = plan.cores().saturating_add(plan.tasks());
    many.saturating_add(plan.resources())
}

/// The track of this place: those of cores come first, then those of tasks.
pub(crate) fn track_at(plan: &Plan, place: u32) -> Option<Track>
    ensures plan { IsPlan plan.now }
    ensures track { IfSome result (IsTrack plan.now) }
{
    let Some(task) = place.checked_sub(plan.cores()) else {
        return Some(Track::Core(CoreId(place)));
    };
    let Some(res) = task.checked_sub(plan.tasks()) else {
        return Some(Track::Task(TaskId(task)));
    };
    (res < plan.resources()).then_some(Track::Resource(ResId(res)))
}

/// Who holds a resource, and how many jobs are in its queue, the holder among them.
#[derive(Clone, Copy, PartialEq, Eq)]
pub(crate) struct ResourceState {
    pub(crate) holder: Option<JobId>,
    pub(crate) queue_length: u32,
}

/// What a core, a task or a resource does in a tick; a core does what its last row says.
#[derive(Clone, Copy)]
pub(crate) enum State {
    Core(Row),
    Task(TaskStatus),
    Resource(ResourceState),
}

// The state on a track in a tick, by the rows before the tick and those up to its end. A core has
// none before its first row.
fn state_of(plan: &Plan, before: &Summary, now: &Summary, tick: u32, track: Track) -> Option<State>
    requires plan { IsPlan plan.now }
    requires track { IsTrack plan.now track }
    ensures { (earlier rows : List TraceRow) → Summarizes before.now earlier → Summarizes now.now rows → result ≡ state_of plan.now earlier rows tick track }
{
    match track {
        Track::Core(core) => now.last_row(core).map(State::Core),
        Track::Task(task) => Some(State::Task(task_status(plan, before, now, tick, task))),
        Track::Resource(resource) => Some(State::Resource(now.resource_state(resource))),
    }
}

/// What a tick changes on a track: the state in the tick before, if there is one, and in the tick.
#[derive(Clone, Copy)]
pub(crate) struct Change<'a> {
    pub(crate) plan: &'a Plan,
    pub(crate) tick: u32,
    pub(crate) track: Track,
    pub(crate) before: Option<State>,
    pub(crate) now: Option<State>,
}

/// All states in a tick and in the tick before, from the rows so far.
#[derive(Drop)]
pub(crate) struct Signals<'a> {
    pub(crate) plan: &'a Plan,
    pub(crate) tick: u32,
    // What the rows say: those before the previous tick, those before the tick, and all.
    earlier: Summary,
    before: Summary,
    pub(crate) latest: Summary,
}

impl<'a> Signals<'a> {
    /// Before the first row.
    pub(crate) fn new(plan: &'a Plan) -> Signals<'a>
        ensures plan { result.plan.now ≡ plan.now }
        ensures tick { result.tick ≡ 0 }
        ensures told { TellTick result [] }
    {
        let none = Summary::new();
        Signals {
            plan,
            tick: 0,
            earlier: none,
            before: none,
            latest: none,
        }
    }

    /// Goes on to the next tick.
    pub(crate) fn end_tick(&mut self)
        ensures plan { self.new.plan ≡ self.old.plan }
        ensures next { self.old.tick + 1 < 2 ^ 32 → self.new ≡ record self.old { tick = self.old.tick + 1; earlier = self.old.before; before = self.old.latest } }
    {
        self.earlier = self.before;
        self.before = self.latest;
        self.tick = next(self.tick);
    }

    /// What the tick changes on a track.
    pub(crate) fn change(&self, track: Track) -> Change<'a>
        requires plan { IsPlan self.now.plan.now }
        requires track { IsTrack self.now.plan.now track }
        ensures before { (rows : List TraceRow) → TellTick self.now rows → result.before ≡ state_before self.now.plan.now rows self.now.tick track }
        ensures now { (rows : List TraceRow) → TellTick self.now rows → result.now ≡ state_in self.now.plan.now rows self.now.tick track }
    {
        let (plan, tick) = (self.plan, self.tick);
        Change {
            plan,
            tick,
            track,
            before: self.state_before(track),
            now: state_of(plan, &self.before, &self.latest, tick, track),
        }
    }

    // The state on a track in the tick before, if there is one.
    fn state_before(&self, track: Track) -> Option<State>
        requires plan { IsPlan self.now.plan.now }
        requires track { IsTrack self.now.plan.now track }
        ensures { (rows : List TraceRow) → TellTick self.now rows → result ≡ state_before self.now.plan.now rows self.now.tick track }
    {
        if self.tick == 0 {
            return None;
        }
        let tick = self.tick - 1;
        state_of(self.plan, &self.earlier, &self.before, tick, track)
    }
}
