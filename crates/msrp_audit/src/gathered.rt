//! The rows of an audit in pieces: how they are gathered, and how a piece reads them.
ghost use Rattle.std.specs.Prelude.{◌≡◌, ◌<◌, ◌++◌, ◌∷◌};
ghost use Rattle.msrp_plan.specs.Common.{[], length, slice_index_or, take, IfErr, IfOk, OnOk, is_of, is_on};
ghost use Rattle.msrp_plan.specs.declared.rows.Row.{Row as TraceRow};

use crate::small_row::SmallRow;
use msrp_plan::{CoreId, Memory, Plan, ResId, Row};
use std::alloc::Global;
use std::marker::Model;

/// The rows that a piece reads: the small ones, then the others.
#[derive(Drop)]
pub(crate) struct Rows<'a> {
    small: &'a [SmallRow],
    others: &'a [Row],
}

impl<'a> Model for Rows<'a> {
    ghost use Rattle.std.specs.Prelude.{List};
    ghost use Rattle.msrp_plan.specs.declared.rows.Row.{Row};

    ghost Value = { List Row };

    ghost use Rattle.msrp_audit.specs.Inside.SmallRows.{rows_of};

    ghost view = { λ rows. rows_of rows.small.now rows.others.now };
}

impl<'a> Rows<'a> {
    /// The rows of a trace.
    pub(crate) fn of(rows: &'a [Row]) -> Rows<'a>
        ensures { result ≡ rows.now }
    {
        Rows {
            small: &[],
            others: rows,
        }
    }

    /// The number of rows.
    #[inline(always)]
    pub(crate) fn len(&self) -> usize
        ensures { result ≡ length self.now }
    {
        self.small.len() + self.others.len()
    }

    /// The row at this index.
    #[inline(always)]
    pub(crate) fn row(&self, index: usize) -> Row
        requires { index < length self.now }
        ensures { (d : TraceRow) → result ≡ slice_index_or self.now index d }
    {
        match self.small.get(index) {
            Some(small) => small.row(),
            None => self.others[index - self.small.len()],
        }
    }

    /// Whether the row at this index is one of the core.
    #[inline(always)]
    pub(crate) fn is_of(&self, index: usize, core: CoreId) -> bool
        requires { index < length self.now }
        ensures { (d : TraceRow) → result ≡ is_of core.0 (slice_index_or self.now index d) }
    {
        match self.small.get(index) {
            Some(small) => small.is_of(core),
            None => self.others[index - self.small.len()].core == core,
        }
    }

    /// Whether the row at this index names the resource.
    #[inline(always)]
    pub(crate) fn names(&self, index: usize, res: ResId) -> bool
        requires { index < length self.now }
        ensures { (d : TraceRow) → result ≡ is_on res.0 (slice_index_or self.now index d).res }
    {
        match self.small.get(index) {
            Some(small) => small.names(res),
            None => self.others[index - self.small.len()].res == Some(res),
        }
    }
}

/// Rows gathered before they are judged: in eight bytes each, up to the first too large number.
#[derive(Drop)]
pub struct Gathered {
    small: Vec<SmallRow>,
    others: Vec<Row>,
}

impl Model for Gathered {
    ghost use Rattle.std.specs.Prelude.{List};
    ghost use Rattle.msrp_plan.specs.declared.rows.Row.{Row};

    ghost Value = { List Row };

    ghost use Rattle.msrp_audit.specs.Inside.SmallRows.{rows_of};

    ghost view = { λ rows. rows_of rows.small.items rows.others.items };
}

impl Gathered {
    /// No row yet, with room for one row more than a run; [`Memory`] only if memory runs out.
    pub fn with_room(alloc: Global, plan: &Plan) -> Result<Gathered, Memory>
        ensures { IfOk result (λ rows. rows ≡ []) }
    {
        let most = plan.cores() as usize * plan.ticks() as usize + 1;
        Ok(Gathered {
            small: Vec::with_capacity(alloc, most)?,
            others: Vec::new(alloc),
        })
    }

    /// Adds a row.
    #[inline(always)]
    pub fn push(&mut self, row: Row) -> Result<(), Memory>
        ensures pushed { OnOk result (self.new ≡ self.old ++ row ∷ []) }
        ensures kept { IfErr result (λ _. self.new ≡ self.old) }
    {
        if self.others.is_empty() {
            if let Some(small) = SmallRow::of(row) {
                self.small.push(small)?;
                return Ok(());
            }
        }
        self.others.push(row)?;
        Ok(())
    }

    /// The number of rows.
    pub fn len(&self) -> usize
        ensures { result ≡ length self.now }
    {
        // As slices, whose greatest size in bytes is known, so the sum fits.
        self.small.as_slice().len() + self.others.as_slice().len()
    }

    /// The first rows, `most` at most.
    pub(crate) fn first(&self, most: usize) -> Rows<'_>
        ensures { result ≡ take most self.now }
    {
        let small = self.small.len().min(most);
        let others = self.others.len().min(most - small);
        Rows {
            small: &self.small[..small],
            others: &self.others[..others],
        }
    }
}
