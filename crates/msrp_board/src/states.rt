//! A seat's states of its cores, as a chain with a node for each core, so a seat is as small as its
//! books. Splitting and joining seats moves the nodes and allocates nothing.
ghost use Rattle.std.specs.Prelude.{◌≡◌, ◌==◌};
ghost use Rattle.msrp_plan.specs.Common.{ℕ, not, replicate, Some, IfOk, option_or};
ghost use Rattle.std.specs.Option.{is_some};
ghost use Rattle.msrp_board.specs.Common.{Page, View};
ghost use Rattle.msrp_board.specs.Inside.Held.{AreStates, IsOwn, state_of, kept_of, kept_if, with_own};
ghost use Rattle.msrp_board.specs.Inside.Rule.{empty_page};

use crate::held::CoreState;
use crossbeam_utils::CachePadded;
use msrp_plan::CoreId;
use std::alloc::{AllocError, Global};
use std::mem;

/// The states of some cores.
#[cycle(states)]
#[derive(Drop)]
pub(crate) enum States {
    End,
    Of(Box<Kept>),
}

/// A core, its state, and the other cores' states. Its thread writes the state in each tick, so the
/// state has its own cache lines.
#[cycle(states)]
#[derive(Drop)]
pub(crate) struct Kept {
    core: CoreId,
    state: CachePadded<CoreState>,
    more: States,
}

impl States {
    /// The states of this many empty books.
    pub(crate) fn fresh(alloc: Global, cores: u32) -> Result<States, AllocError>
        ensures { IfOk result (λ s. AreStates s (replicate cores (Some empty_page))) }
    {
        let mut states = States::End;
        for core in 0..cores {
            let kept = Kept {
                core: CoreId(core),
                state: CachePadded::new(CoreState::EMPTY),
                more: states,
            };
            states = States::Of(Box::new(alloc, kept)?);
        }
        Ok(states)
    }

    /// The state of the core of a core's seat.
    pub(crate) fn own(&self) -> CoreState
        requires { (v : View) × (c : ℕ) × (b : Page) × IsOwn self.now v c b }
        ensures { (v : View) (c : ℕ) (b : Page) → IsOwn self.now v c b → result ≡ state_of b }
    {
        match self {
            States::Of(kept) => *kept.state,
            States::End => unreachable!(),
        }
    }

    /// Changes the state of the core of a core's seat. Rewrites the tag too: so a seat that is
    /// handed on has no bytes after the tag that another thread wrote.
    pub(crate) fn set_own(&mut self, state: CoreState)
        ensures { self.new ≡ with_own state self.old }
    {
        *self = match mem::replace(self, States::End) {
            States::Of(mut kept) => {
                *kept.state = state;
                States::Of(kept)
            }
            States::End => States::End,
        };
    }

    /// Whether there is a state of the core.
    pub(crate) fn has(&self, core: CoreId) -> bool
        ensures { result ≡ is_some (kept_of self.now core.0) }
    {
        match self {
            States::End => false,
            States::Of(kept) => kept.core == core || kept.more.has(core),
        }
    }

    /// The state of the core, and those of the others.
    pub(crate) fn part(self, core: CoreId) -> (States, States)
        ensures own { (d : ℕ) → kept_of result.0 d ≡ kept_if (d == core.0) (kept_of self d) }
        ensures others { (d : ℕ) → kept_of result.1 d ≡ kept_if (not (d == core.0)) (kept_of self d) }
    {
        match self {
            States::End => (States::End, States::End),
            States::Of(mut kept) => {
                let more = mem::replace(&mut kept.more, States::End);
                let (own, others) = more.part(core);
                if kept.core == core {
                    kept.more = own;
                    (States::Of(kept), others)
                } else {
                    kept.more = others;
                    (own, States::Of(kept))
                }
            }
        }
    }

    /// Both chains in one; no core is in both.
    pub(crate) fn and(self, others: States) -> States
        ensures { (d : ℕ) → kept_of result d ≡ option_or (kept_of self d) (kept_of others d) }
    {
        match self {
            States::End => others,
            States::Of(mut kept) => {
                let more = mem::replace(&mut kept.more, States::End);
                kept.more = more.and(others);
                States::Of(kept)
            }
        }
    }
}
