//! A core's calls of the global resources, for any implementation of them.
ghost use Rattle.std.specs.Prelude.{◌≡◌, ◌<◌};
ghost use Rattle.msrp_core.specs.Ports.{Adds, HasAhead, asked, claim_in};

use msrp_plan::{Call, CoreId, Phase, ResId};

/// The answer to a request.
#[derive(Clone, Copy, Debug, PartialEq, Eq)]
pub enum Reply {
    /// The resource was free: it is granted at once.
    Taken,
    /// This many are ahead in the queue, one or more.
    Queued(u32),
}

/// A call of a core, with its resource and its answer.
#[derive(Clone, Copy, Debug, PartialEq, Eq)]
pub struct PortCall {
    pub core: CoreId,
    pub res: ResId,
    pub call: Call,
}

/// Where cores request, poll and release global resources.
///
/// A port's model has the list of its calls, and for each core its room: how many more calls the
/// core may make. Each call is listed once, with its answer, and uses one of its core's room. The
/// only promise on answers is that a queued request has somebody ahead. First-in-first-out service
/// is the promise of a particular port, not of this trait.
pub trait Port {
    ghost use Rattle.std.specs.Prelude.{ℕ};
    ghost use Rattle.msrp_core.specs.Ports.{PortModel};

    /// The calls so far, the rooms of the cores and the number of resources.
    ghost port: { Self → PortModel };

    /// A core that is free requests a resource.
    fn ask(&mut self, core: CoreId, res: ResId) -> Reply
        requires room { 0 < (port self.old).rooms core.0 }
        requires free { claim_in core.0 (port self.old).calls ≡ Phase.Free }
        requires resource { res.0 < (port self.old).resources }
        ensures call { Adds core res (asked result) (port self.old) (port self.new) }
        ensures ahead { HasAhead result };

    /// A queued core polls the resource that it waits for: is it granted?
    fn poll(&mut self, core: CoreId, res: ResId) -> bool
        requires room { 0 < (port self.old).rooms core.0 }
        requires queued { claim_in core.0 (port self.old).calls ≡ Phase.Queued res }
        ensures { Adds core res (Call.Poll result) (port self.old) (port self.new) };

    /// A core releases the resource that it holds.
    fn leave(&mut self, core: CoreId, res: ResId)
        requires room { 0 < (port self.old).rooms core.0 }
        requires holding { claim_in core.0 (port self.old).calls ≡ Phase.Holding res }
        ensures { Adds core res Call.Leave (port self.old) (port self.new) };

    /// How many more calls the core may make.
    fn room(&self, core: CoreId) -> u32
        ensures { result ≡ (port self.now).rooms core.0 };

    /// The number of resources, which never changes.
    fn resources(&self) -> u32
        ensures { result ≡ (port self.now).resources };
}
