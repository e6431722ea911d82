//! The rule of the board's words: what always holds of the words and of what all seats know, and
//! what each step adds to its seat's knowledge. No value of these types is ever built.

use crate::books::{BoardSize, Conductor, Entry};
use atomic_table::{Join, Play, Seat, Shared, Split, TableRule};
use std::collections::LinkedList;
use std::marker::{Brand, PhantomData};

/// A core's book as the rule has it, the newest entry first.
pub(crate) struct Page {
    pub(crate) newest: LinkedList<Entry>,
    pub(crate) tick: u32,
    pub(crate) admitted: bool,
    pub(crate) stopped: bool,
}

/// What a seat has: the pages of some cores, by number, and perhaps the conductor's.
pub(crate) struct View {
    pub(crate) pages: LinkedList<Option<Page>>,
    pub(crate) conductor: Option<Conductor>,
}

/// The rule of a board's words.
pub(crate) struct Tickets;

impl TableRule<(), View, BoardSize> for Tickets {
    ghost use Rattle.msrp_board.specs.Inside.Rule.{Ruled, first_view};

    ghost holds = { Ruled };

    ghost first = { first_view };
}

/// The step of a request.
pub(crate) struct Asks;

impl Play<(), View> for Asks {
    ghost use Rattle.msrp_board.specs.Inside.Rule.{Tells, page_with_ask};

    ghost then = { Tells page_with_ask };
}

/// The step of a poll.
pub(crate) struct Polls;

impl Play<(), View> for Polls {
    ghost use Rattle.msrp_board.specs.Inside.Rule.{Tells, page_with_poll};

    ghost then = { Tells page_with_poll };
}

/// The step of a release.
pub(crate) struct Leaves;

impl Play<(), View> for Leaves {
    ghost use Rattle.msrp_board.specs.Inside.Rule.{Tells, page_with_leave};

    ghost then = { Tells page_with_leave };
}

/// Names a number in a step's rule that its view doesn't have: a core, or the number of cores.
pub(crate) trait Named {
    ghost use Rattle.std.specs.Prelude.{ℕ};

    ghost number: { ℕ };
}

impl Named for Brand {
    ghost number = { 0 };
}

/// Names the size of a board, as [`Named`] names a number.
pub(crate) trait OfSize {
    ghost use Rattle.msrp_board.specs.declared.books.BoardSize.{BoardSize};

    ghost size: { BoardSize };
}

impl OfSize for Brand {
    ghost size = { record { cores = 0; resources = 0; ticks = 0 } };
}

/// Separates the page of core `N` from the others.
pub(crate) struct Parts<N: Named> {
    core: PhantomData<N>,
}

impl<N: Named> Split<View> for Parts<N> {
    ghost use Rattle.msrp_board.specs.Inside.Rule.{view_alone, view_without};

    ghost left = { view_alone N.number };

    ghost right = { view_without N.number };
}

/// Joins the pages of two seats.
pub(crate) struct Both;

impl Join<View> for Both {
    ghost use Rattle.msrp_board.specs.Inside.Rule.{view_both, spent};

    ghost both = { view_both };

    ghost spent = { spent };
}

/// The step of an arrival.
pub(crate) struct Arrives;

impl Play<(), View> for Arrives {
    ghost use Rattle.msrp_board.specs.Inside.Rule.{TellsChange, page_with_arrival, with_pages};

    ghost then = { TellsChange (with_pages page_with_arrival) };
}

/// The step of a look, on a board of `N` cores.
pub(crate) struct Looks<N: Named> {
    cores: PhantomData<N>,
}

impl<N: Named> Play<(), View> for Looks<N> {
    ghost use Rattle.msrp_board.specs.Inside.Rule.{TellsLook};

    ghost then = { TellsLook N.number };
}

/// The step that confirms the rule, on a board of size `Z`.
pub(crate) struct Confirms<Z: OfSize> {
    size: PhantomData<Z>,
}

impl<Z: OfSize> Play<(), View> for Confirms<Z> {
    ghost use Rattle.msrp_board.specs.Inside.Rule.{TellsRule};

    ghost then = { TellsRule Z.size };
}

/// The step of the opening.
pub(crate) struct Opens;

impl Play<(), View> for Opens {
    ghost use Rattle.msrp_board.specs.Common.{Opened};
    ghost use Rattle.msrp_board.specs.Inside.Rule.{TellsChange, view_with_conductor};

    ghost then = { TellsChange (view_with_conductor Opened) };
}

/// The step of an abort.
pub(crate) struct Aborts;

impl Play<(), View> for Aborts {
    ghost use Rattle.msrp_board.specs.Common.{Aborted};
    ghost use Rattle.msrp_board.specs.Inside.Rule.{TellsChange, view_with_conductor};

    ghost then = { TellsChange (view_with_conductor Aborted) };
}

pub(crate) type Words = Shared<(), View, BoardSize, Tickets>;

pub(crate) type TableSeat = Seat<(), View>;
