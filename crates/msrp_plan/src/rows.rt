//! Rows of a trace: each is one turn of one core in one tick (POLICY rules 10 to 14).
ghost use Rattle.std.specs.Prelude.{◌≡◌, ◌≤◌, length, true};
ghost use Rattle.msrp_plan.specs.Shape.{has_shape, may_carry};
ghost use Rattle.msrp_plan.specs.Words.{kind_text};

use crate::ids::{CoreId, JobId, ResId};

/// What a core did in a turn.
#[derive(Clone, Copy, Debug, PartialEq, Eq)]
pub enum Kind {
    /// Nothing: no job could run.
    Idle,
    /// A unit of work.
    Run,
    /// A lock of a local resource.
    Lock,
    /// An unlock of a local resource.
    Unlock,
    /// A request of a global resource that was free: it is granted at once.
    Take,
    /// A request of a global resource that joins the end of the queue.
    Queue,
    /// A poll of a job that others in the queue are before.
    Spin,
    /// A poll of the first job in the queue: it holds the resource from now on.
    Grant,
    /// A release of a global resource.
    Release,
}

impl Kind {
    /// The kind's word in texts.
    #[tactic(auto, unfolding(crate::specs::Words::kind_text))]
    pub fn word(self) -> &'static [u8]
        ensures word { result.now ≡ kind_text self }
        ensures short { length result.now ≤ 7 }
    {
        match self {
            Kind::Idle => b"idle",
            Kind::Run => b"run",
            Kind::Lock => b"lock",
            Kind::Unlock => b"unlock",
            Kind::Take => b"take",
            Kind::Queue => b"queue",
            Kind::Spin => b"spin",
            Kind::Grant => b"grant",
            Kind::Release => b"release",
        }
    }
}

/// One turn of one core in one tick. An idle row has neither job nor resource, a row of work has
/// only a job, every other row has both. Trace text of version 1 carries no ahead.
#[derive(Clone, Copy, Debug, PartialEq, Eq)]
pub struct Row {
    pub tick: u32,
    pub core: CoreId,
    pub kind: Kind,
    pub job: Option<JobId>,
    pub res: Option<ResId>,
    /// On a queue row the number of jobs that were in the queue, if known; on any other row none.
    pub ahead: Option<u32>,
    ghost shape: { has_shape kind job res ≡ true },
    ghost carrier: { may_carry kind ahead ≡ true },
}

impl Row {
    ghost use Rattle.msrp_plan.specs.Aheads.{without_ahead};

    /// The row, in another tick.
    #[inline(always)]
    pub fn in_tick(self, tick: u32) -> Row
        ensures { result ≡ record self { tick = tick } }
    {
        Row {
            tick,
            core: self.core,
            kind: self.kind,
            job: self.job,
            res: self.res,
            ahead: self.ahead,
        }
    }

    /// The row without the number of jobs ahead.
    #[inline(always)]
    pub fn without_ahead(self) -> Row
        ensures { result ≡ without_ahead self }
    {
        Row {
            tick: self.tick,
            core: self.core,
            kind: self.kind,
            job: self.job,
            res: self.res,
            ahead: None,
        }
    }
}

/// The versions of plan text and trace text.
#[derive(Clone, Copy, Debug, PartialEq, Eq)]
pub enum TextVersion {
    /// Periodic tasks only; rows without aheads.
    V1,
    /// Listed tasks too; each queue row has its ahead.
    V2,
}
