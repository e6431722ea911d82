//! What a seat stores of a core whose book it has: enough for its readers, without the entries.
ghost use Rattle.std.specs.Prelude.{◌≡◌, ◌<◌, ◌+◌, ◌-◌};
ghost use Rattle.msrp_plan.specs.Common.{ℕ, suc, nat_lt};
ghost use Rattle.msrp_board.specs.Common.{Ask, Leave, Page, Poll};
ghost use Rattle.msrp_board.specs.Books.{phase_by};
ghost use Rattle.msrp_board.specs.Inside.Held.{state_of, phase_of, look_of};
ghost use Rattle.msrp_board.specs.Inside.Newest.{TicksNewest};
ghost use Rattle.msrp_board.specs.Inside.Rule.{IsTicket, page_with_arrival, page_with_entry, page_after_look};

use crate::answers::{Look, SeatPhase};
use crate::words::{TicketWord, high_half, low_half};
use msrp_plan::limits::MOST_TICKS;
use msrp_plan::{Phase, ResId};

/// What a core holds or waits for.
#[derive(Clone, Copy, Drop)]
pub(crate) enum Claim {
    Nothing,
    /// It waits for the resource: its ticket isn't served yet.
    Waits { res: u32, ticket: u32 },
    /// It was granted the resource.
    Holds { res: u32, ticket: u32 },
}

impl Claim {
    pub(crate) fn phase(self) -> Phase
        ensures { result ≡ phase_of self }
    {
        match self {
            Claim::Nothing => Phase::Free,
            Claim::Waits { res, .. } => Phase::Queued(ResId(res)),
            Claim::Holds { res, .. } => Phase::Holding(ResId(res)),
        }
    }
}

/// What a book says of its core.
#[derive(Clone, Copy, Drop)]
pub(crate) struct CoreState {
    pub(crate) tick: u32,
    pub(crate) claim: Claim,
    pub(crate) admitted: bool,
    pub(crate) stopped: bool,
    /// Whether the book has an entry of this tick.
    pub(crate) acted: bool,
}

impl CoreState {
    /// The state of an empty book.
    pub(crate) const EMPTY: CoreState = CoreState {
        tick: 0,
        claim: Claim::Nothing,
        admitted: false,
        stopped: false,
        acted: false,
    };

    /// The core's phase, on a board of this many ticks.
    pub(crate) fn phase(self, ticks: u32) -> SeatPhase
        ensures { result ≡ phase_by self.stopped self.admitted (nat_lt self.tick ticks) }
    {
        if self.stopped {
            SeatPhase::Stopped
        } else if self.admitted {
            SeatPhase::Admitted
        } else if self.tick < ticks {
            SeatPhase::Waiting
        } else {
            SeatPhase::Done
        }
    }

    /// After a request that found this ticket word.
    pub(crate) fn with_ask(self, res: u32, word: TicketWord) -> CoreState
        requires { IsTicket word }
        ensures { (b : Page) → self ≡ state_of b → result ≡ state_of (page_with_entry res (word.next + word.serving) (Ask (word.next - word.serving)) b) }
    {
        let ticket = word.next;
        let claim = if word.next == word.serving {
            Claim::Holds { res, ticket }
        } else {
            Claim::Waits { res, ticket }
        };
        CoreState {
            claim,
            acted: true,
            ..self
        }
    }

    /// After a poll of its resource, granted or not.
    pub(crate) fn with_poll(self, res: u32, ticket: u32, granted: bool) -> CoreState
        requires { self.claim ≡ Claim.Waits res ticket }
        ensures { (b : Page) (p : ℕ) → self ≡ state_of b → result ≡ state_of (page_with_entry res p (Poll granted) b) }
    {
        let claim = if granted {
            Claim::Holds { res, ticket }
        } else {
            self.claim
        };
        CoreState {
            claim,
            acted: true,
            ..self
        }
    }

    /// After a release.
    pub(crate) fn with_leave(self) -> CoreState
        ensures { (b : Page) (g p : ℕ) → self ≡ state_of b → result ≡ state_of (page_with_entry g p Leave b) }
    {
        CoreState {
            claim: Claim::Nothing,
            acted: true,
            ..self
        }
    }

    /// After an arrival.
    pub(crate) fn with_arrival(self) -> CoreState
        requires { self.tick < MOST_TICKS }
        ensures { (b : Page) → self ≡ state_of b → TicksNewest (suc b.tick) b.newest → result ≡ state_of (page_with_arrival b) }
    {
        CoreState {
            tick: self.tick + 1,
            admitted: false,
            acted: false,
            ..self
        }
    }

    /// What a look finds, on a board of this many cores with the barrier word `found`.
    pub(crate) fn finds(self, cores: u32, found: u64) -> Look
        ensures { result ≡ look_of cores found self.tick }
    {
        if high_half(found) > 0 {
            Look::Stopped
        } else if low_half(found) as u64 >= 1 + cores as u64 * self.tick as u64 {
            Look::Go
        } else {
            Look::Wait
        }
    }

    /// After a look with this answer.
    pub(crate) fn after_look(self, look: Look) -> CoreState
        ensures { (b : Page) (m n : ℕ) → self ≡ state_of b → look ≡ look_of m n b.tick → result ≡ state_of (page_after_look m n b) }
    {
        match look {
            Look::Wait => self,
            Look::Go => CoreState {
                admitted: true,
                ..self
            },
            Look::Stopped => CoreState {
                stopped: true,
                ..self
            },
        }
    }
}
