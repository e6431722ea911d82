//! The words of a board, each of 64 bits. A ticket word counts requests in its high half and
//! releases in its low half. The barrier word counts the abort in its high half, the opening and
//! the arrivals in its low half.
ghost use Rattle.std.specs.Prelude.{◌≡◌};
ghost use Rattle.msrp_board.specs.Words.{high, low};

/// Adds one to the high half of a word.
pub(crate) const HIGH_ONE: u64 = 4_294_967_296;

/// The high half of a word.
pub(crate) fn high_half(word: u64) -> u32
    ensures { result ≡ high word }
{
    (word / HIGH_ONE) as u32
}

/// The low half of a word.
pub(crate) fn low_half(word: u64) -> u32
    ensures { result ≡ low word }
{
    (word % HIGH_ONE) as u32
}

/// A ticket word's counts. A step's place is the sum of both before it.
#[derive(Clone, Copy)]
pub(crate) struct TicketWord {
    /// Requests: also the ticket of the next request.
    pub(crate) next: u32,
    /// Releases: also the ticket that is served.
    pub(crate) serving: u32,
}

impl TicketWord {
    pub(crate) fn of(word: u64) -> TicketWord
        ensures { (result.next ≡ high word) × (result.serving ≡ low word) }
    {
        TicketWord {
            next: high_half(word),
            serving: low_half(word),
        }
    }
}
