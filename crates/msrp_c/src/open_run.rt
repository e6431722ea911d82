//! An open run, with the memory of the cores that it hands out.
ghost use Rattle.std.specs.Prelude.{◌≡◌, ◌⊎◌, ◌↔◌};
ghost use Rattle.msrp_plan.specs.Common.{Some, Err, IfOk, IfErr, IsSomeAnd};
ghost use Rattle.msrp_hosted.specs.Hosted.{CanJoin, IsOfRun, new_core};
ghost use Rattle.msrp_c.specs.Contents.{core_in, open_in, settled_in};
ghost use Rattle.msrp_c.specs.Hosting.{IsNewRun, IsSettledBy, one_more_out, with_joined};

use crate::answers::{DONE, MEMORY};
use crate::content::Content;
use crate::held::Loaded;
use msrp_hosted::{HostedCore, HostedRun};
use msrp_plan::Memory;
use std::alloc::Global;

/// A run that hands out its cores and joins them.
#[derive(Drop)]
#[cycle(held)]
pub struct OpenRun {
    pub(crate) run: HostedRun<'static>,
    // Memory for each core that isn't handed out yet.
    spare: Vec<Box<Content>>,
}

// Memory for this many cores.
fn spare_for(alloc: Global, cores: u32) -> Result<Vec<Box<Content>>, Memory> {
    let mut spare = Vec::with_capacity(alloc, cores as usize)?;
    for _core in 0..cores {
        let Ok(one) = Box::new(alloc, Content::Spare) else {
            return Err(Memory);
        };
        spare.push(one)?;
    }
    Ok(spare)
}

impl OpenRun {
    /// A run of a plan before its first core is handed out, with all the memory of its turns.
    pub(crate) fn new(alloc: Global, loaded: Loaded<'static>) -> Result<OpenRun, Memory>
        ensures { IfOk result (λ made. IsNewRun loaded.entry.plan.now made.run) }
    {
        let run = HostedRun::new(alloc, loaded.plan, loaded.levels)?;
        let spare = spare_for(alloc, loaded.plan.cores())?;
        Ok(OpenRun { run, spare })
    }

    /// Hands out the next core, in rising order, or returns the status that says why there is none.
    pub(crate) fn next_core(&mut self) -> Result<Box<Content>, u32>
        ensures next { IfOk result (λ core. core_in (Some core.value) ≡ Some (new_core self.old.run)) }
        ensures handed { IfOk result (λ _. self.new.run ≡ one_more_out self.old.run) }
        ensures all { (result ≡ Err 8) ↔ (self.old.run.handed ≡ self.old.run.plan.cores) }
        ensures none { IfErr result (λ status. ((status ≡ 8) ⊎ (status ≡ 4)) × (self.new.run ≡ self.old.run)) }
    {
        if self.run.is_all_out() {
            return Err(DONE);
        }
        let Some(mut place) = self.spare.pop() else {
            return Err(MEMORY);
        };
        match self.run.next_core() {
            Ok(core) => {
                *place = Content::Core(core);
                Ok(place)
            }
            Err(_) => Err(MEMORY),
        }
    }

    /// Joins a core of this run that has ended, in rising order; otherwise gives it back.
    pub(crate) fn join(&mut self, core: HostedCore<'static>) -> Result<(), HostedCore<'static>>
        requires { IsOfRun self.old.run core }
        ensures joined { IfOk result (λ _. CanJoin self.old.run core.entry × (self.new.run ≡ with_joined self.old.run core.entry)) }
        ensures back { IfErr result (λ back. (¬ CanJoin self.old.run core.entry) × (back ≡ core.entry) × (self.new ≡ self.old)) }
    {
        self.run.join(core)
    }

    /// The run, settled if all its cores were joined.
    pub(crate) fn settled(self) -> Content
        ensures { IsSomeAnd (settled_in (Some result)) (IsSettledBy self.run) ⊎ (open_in (Some result) ≡ Some self.run) }
    {
        let OpenRun { run, spare } = self;
        match run.settle() {
            Ok(settled) => Content::Settled(settled),
            Err(run) => Content::Open(OpenRun { run, spare }),
        }
    }
}
