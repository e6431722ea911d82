//! The rows of a trace's text, each judged as it is read.
//!
//! The text says which core's row is next. That core runs, which gives its one legal row, and the
//! text of that row is compared with the text that is next. So a legal row is never read field by
//! field. As long as a core's rows differ in their ticks alone, its text is made once.
ghost use Rattle.std.specs.Prelude.{◌≡◌, ◌<◌, ◌*◌, ◌/◌, ◌%◌};
ghost use Rattle.msrp_plan.specs.Common.{ℕ, List, IfSome, Some, None, Ok, Err, true, false, source_failed, IsPlan, is_in_turn, IsSomeAnd, length, in_tick};
ghost use Rattle.msrp_audit.specs.Audits.{Awaits, HasFed, IsDueInAudit};
ghost use Rattle.msrp_plan.specs.declared.rows.Row.{Row as TraceRow};
ghost use Rattle.msrp_trace.specs.Reading.{Told};
ghost use Rattle.msrp_trace.specs.Readers.{BeginsAt, GivesNext, HasReadBehind, HasReadIn, source_of};
ghost use Rattle.msrp_core.specs.CoreStates.{IsStateAfter};
ghost use Rattle.msrp_trace.specs.Texts.{text_of_core};
ghost use Rattle.msrp_engine.specs.Inside.Kept.{IsKept, KeepsRows, row_of_core};

use msrp_audit::Auditor;
use msrp_core::CoreState;
use msrp_plan::limits::MOST_CORES;
use msrp_plan::{CoreId, Fault, Kind, Plan, Row};
use msrp_trace::{RowTexts, TraceError, TraceReader};
use std::io::Read;

/// Why a row is refused: its fault, and the row expected of its core, where the row is in its turn.
#[derive(Clone, Copy, Debug)]
pub struct Broken {
    pub fault: Fault,
    pub expected: Option<Row>,
}

/// What is next in the text of a trace.
#[derive(Clone, Copy, Debug)]
pub enum Judgement {
    /// A row that obeys each rule.
    Legal(Row),
    /// A row that violates a rule. It is the last that is judged.
    Broken(Row, Broken),
    /// The end of the text.
    End,
}

impl Judgement {
    ghost use Rattle.msrp_engine.specs.Judging.{row_told};

    /// The row that was read, whatever was found.
    pub fn row(self) -> Option<Row>
        ensures { row_told (Ok self) ≡ Ok result }
    {
        match self {
            Judgement::Legal(row) | Judgement::Broken(row, _) => Some(row),
            Judgement::End => None,
        }
    }
}

/// The rows of a trace's text, each judged as it is read.
#[derive(Drop)]
pub struct JudgedRows<'p, 't, T> {
    auditor: Auditor<'p>,
    rows: TraceReader<'t, T>,
    // Of each core its last row that was chosen, and the text of that, but for the tick.
    lasts: [Option<Row>; MOST_CORES as usize],
    texts: RowTexts<'p>,
    // What decided before the last row who had its core's turn, if that was asked.
    state: Option<CoreState>,
    // The last answer that was read field by field. A local in its place would be zeroed for each
    // row.
    judged: Result<Judgement, TraceError>,
    ghost plan: { rows.plan.now ≡ auditor.plan },
    ghost texts_plan: { texts.plan ≡ auditor.plan },
    ghost version: { texts.version ≡ rows.version },
    ghost kept: { KeepsRows rows.version auditor.plan auditor.cores texts lasts },
}

// No core's row.
const NO_ROW: Row = Row {
    tick: 0,
    core: CoreId(0),
    kind: Kind::Idle,
    job: None,
    res: None,
    ahead: None,
};

// Keeps the row of a core.
#[inline(always)]
fn keep_row(lasts: &mut [Option<Row>], core: CoreId, row: Row)
    requires { length lasts.old ≡ 8 }
    ensures here { row_of_core lasts.new core.0 ≡ Some row }
    ensures others { (c : ℕ) → ¬ (c % 8 ≡ core.0 % 8) → row_of_core lasts.new c ≡ row_of_core lasts.old c }
{
    // Field by field, so that the bytes between the fields aren't written.
    lasts[(core.0 % MOST_CORES) as usize] = Some(Row {
        tick: row.tick,
        core: row.core,
        kind: row.kind,
        job: row.job,
        res: row.res,
        ahead: row.ahead,
    });
}

// The row that is kept of a core.
#[inline(always)]
fn kept_row(lasts: &[Option<Row>], core: CoreId) -> Option<Row>
    requires { length lasts.now ≡ 8 }
    ensures { result ≡ row_of_core lasts.now core.0 }
{
    lasts[(core.0 % MOST_CORES) as usize]
}

impl<'p, 't, T: Read> JudgedRows<'p, 't, T> {
    ghost use Rattle.msrp_engine.specs.Judging.{IfCame, IsJudged, rows_left, row_told};

    /// The rows that a reader has left, judged by this auditor. Both are of this plan.
    pub fn new(
        plan: &'p Plan,
        auditor: Auditor<'p>,
        rows: TraceReader<'t, T>,
    ) -> JudgedRows<'p, 't, T>
        requires auditor { auditor.plan ≡ plan.now }
        requires rows { rows.plan.now ≡ plan.now }
        ensures auditor { result.auditor ≡ auditor.entry }
        ensures rows { result.rows ≡ rows.entry }
    {
        let texts = RowTexts::new(plan, rows.version());
        JudgedRows {
            auditor,
            rows,
            lasts: [None; MOST_CORES as usize],
            texts,
            state: None,
            judged: Ok(Judgement::End),
        }
    }

    /// The auditor, which was fed each legal row.
    pub fn auditor(&self) -> &Auditor<'p>
        ensures { result.now ≡ self.now.auditor }
    {
        &self.auditor
    }

    /// The reader of the rows.
    pub fn reader(&self) -> &TraceReader<'t, T>
        ensures { result.now ≡ self.now.rows }
    {
        &self.rows
    }

    /// What decided before the last row who had its core's turn, as [`JudgedRows::next_with_state`]
    /// found it.
    pub fn state(&self) -> Option<CoreState>
        ensures { result ≡ self.now.state }
    {
        self.state
    }

    // Looks what decides who has the core's turn, where that is asked.
    #[inline(always)]
    fn look(&mut self, core: CoreId, asked: bool)
        ensures auditor { self.new.auditor ≡ self.old.auditor }
        ensures rows { self.new.rows ≡ self.old.rows }
        ensures state { asked ≡ true → (rows : List TraceRow) → HasFed self.old.auditor rows → self.old.auditor.fault ≡ None → IsStateAfter self.old.auditor.plan rows core.0 self.new.state }
    {
        if asked {
            self.state = self.auditor.state(core);
        }
    }

    // The core's next row, which is chosen anew. It is kept, and its text is made.
    #[inline(never)]
    fn choose(&mut self, core: CoreId)
        requires accepted { IsPlan self.old.auditor.plan }
        requires due { IsDueInAudit self.old.auditor core.0 }
        ensures plan { self.new.auditor.plan ≡ self.old.auditor.plan }
        ensures fed { self.new.auditor.fed ≡ self.old.auditor.fed }
        ensures rows { self.new.rows ≡ self.old.rows }
        ensures state { self.new.state ≡ self.old.state }
        ensures core { IsSomeAnd (row_of_core self.new.lasts core.0) (λ last. last.core.0 ≡ core.0) }
        ensures awaits { (rows : List TraceRow) → HasFed self.old.auditor rows → IfSome (row_of_core self.new.lasts core.0) (λ last. Awaits self.new.auditor rows core.0 (in_tick (length rows / self.new.auditor.plan.cores) last)) }
    {
        let expected = self.auditor.turn_anew(core);
        keep_row(&mut self.lasts, core, expected);
        self.texts.show(&self.rows.as_read(expected));
    }

    // The core's next row: its last one in the next tick, where that is known, or one that is
    // chosen.
    #[inline(always)]
    fn expect(&mut self, core: CoreId)
        requires accepted { IsPlan self.old.auditor.plan }
        requires due { IsDueInAudit self.old.auditor core.0 }
        ensures plan { self.new.auditor.plan ≡ self.old.auditor.plan }
        ensures fed { self.new.auditor.fed ≡ self.old.auditor.fed }
        ensures rows { self.new.rows ≡ self.old.rows }
        ensures state { self.new.state ≡ self.old.state }
        ensures core { IsSomeAnd (row_of_core self.new.lasts core.0) (λ last. last.core.0 ≡ core.0) }
        ensures awaits { (rows : List TraceRow) → HasFed self.old.auditor rows → IfSome (row_of_core self.new.lasts core.0) (λ last. Awaits self.new.auditor rows core.0 (in_tick (length rows / self.new.auditor.plan.cores) last)) }
    {
        if kept_row(&self.lasts, core).is_none() {
            return self.choose(core);
        }
        match self.auditor.repeat(core) {
            Some(_expected) => {}
            None => self.choose(core),
        }
    }

    // The row in that tick that is expected of a core.
    #[inline(always)]
    fn expected(&self, tick: u32, core: CoreId) -> Row
        requires core { core.0 < self.now.auditor.plan.cores }
        requires kept { IsSomeAnd (row_of_core self.now.lasts core.0) (λ last. last.core.0 ≡ core.0) }
        ensures row { IfSome (row_of_core self.now.lasts core.0) (λ last. result ≡ in_tick tick last) }
        ensures core { result.core.0 ≡ core.0 }
        ensures tick { result.tick ≡ tick }
        ensures kept { IsKept self.now.rows.version self.now.auditor.plan (text_of_core self.now.texts core.0) result }
    {
        let Some(last) = kept_row(&self.lasts, core) else {
            return NO_ROW;
        };
        last.in_tick(tick)
    }

    // A row that was read in its turn, compared with the expected one.
    fn judge(&mut self, expected: Row, row: Row) -> Judgement
        requires left { self.old.auditor.fed < self.old.auditor.plan.cores * self.old.auditor.plan.ticks }
        ensures plan { self.new.auditor.plan ≡ self.old.auditor.plan }
        ensures rows { self.new.rows ≡ self.old.rows }
        ensures state { self.new.state ≡ self.old.state }
        ensures told { row_told (Ok result) ≡ Ok (Some row) }
        ensures judged { (rows : List TraceRow) → Awaits self.old.auditor rows row.core.0 expected → row.tick ≡ expected.tick → IsJudged self.old.auditor.plan rows (Ok result) self.new }
    {
        match self.auditor.judge(expected, row) {
            Ok(()) => Judgement::Legal(row),
            Err(fault) => Judgement::Broken(
                row,
                Broken {
                    fault,
                    expected: Some(expected),
                },
            ),
        }
    }

    // The next row, read field by field. Its text begins with that tick and that core, of which a
    // row is expected.
    fn read_expected(&mut self, tick: u32, core: CoreId) -> Result<Judgement, TraceError>
        requires core { core.0 < self.old.auditor.plan.cores }
        requires kept { IsSomeAnd (row_of_core self.old.lasts core.0) (λ last. last.core.0 ≡ core.0) }
        requires left { self.old.auditor.fed < self.old.auditor.plan.cores * self.old.auditor.plan.ticks }
        ensures plan { self.new.auditor.plan ≡ self.old.auditor.plan }
        ensures gives { (told : Told) → rows_left T.remaining self.old ≡ Some told → GivesNext told (row_told result) (rows_left T.remaining self.new) }
        ensures judged { (rows : List TraceRow) → IfSome (row_of_core self.old.lasts core.0) (λ last. Awaits self.old.auditor rows core.0 (in_tick tick last)) → IsJudged self.old.auditor.plan rows result self.new }
        ensures lines { (text : List ℕ) → HasReadIn T.remaining text self.old.rows → HasReadBehind T.remaining text (row_told result) self.new.rows }
        ensures core { IfCame (λ row. row.core.0 ≡ core.0) result }
        ensures state { self.new.state ≡ self.old.state }
        ensures read { (told : Told) → rows_left T.remaining self.old ≡ Some told → BeginsAt tick core told → result ≡ Err TraceError.Read → source_failed (source_of self.new.rows) ≡ true }
    {
        let expected = self.expected(tick, core);
        match self.rows.next_row()? {
            Some(row) if row.tick == tick && row.core == core => Ok(self.judge(expected, row)),
            // No reader gives another row than the bytes that it has read ahead.
            _ => Err(TraceError::Read),
        }
    }

    // The same, where the answer is kept.
    #[inline(never)]
    fn keep_expected(&mut self, tick: u32, core: CoreId)
        requires core { core.0 < self.old.auditor.plan.cores }
        requires kept { IsSomeAnd (row_of_core self.old.lasts core.0) (λ last. last.core.0 ≡ core.0) }
        requires left { self.old.auditor.fed < self.old.auditor.plan.cores * self.old.auditor.plan.ticks }
        ensures plan { self.new.auditor.plan ≡ self.old.auditor.plan }
        ensures gives { (told : Told) → rows_left T.remaining self.old ≡ Some told → GivesNext told (row_told self.new.judged) (rows_left T.remaining self.new) }
        ensures judged { (rows : List TraceRow) → IfSome (row_of_core self.old.lasts core.0) (λ last. Awaits self.old.auditor rows core.0 (in_tick tick last)) → IsJudged self.old.auditor.plan rows self.new.judged self.new }
        ensures lines { (text : List ℕ) → HasReadIn T.remaining text self.old.rows → HasReadBehind T.remaining text (row_told self.new.judged) self.new.rows }
        ensures core { IfCame (λ row. row.core.0 ≡ core.0) self.new.judged }
        ensures state { self.new.state ≡ self.old.state }
        ensures read { (told : Told) → rows_left T.remaining self.old ≡ Some told → BeginsAt tick core told → self.new.judged ≡ Err TraceError.Read → source_failed (source_of self.new.rows) ≡ true }
    {
        self.judged = self.read_expected(tick, core);
    }

    // The next row, read field by field.
    fn read(&mut self, asked: bool) -> Result<Judgement, TraceError>
        requires { IsPlan self.old.auditor.plan }
        ensures plan { self.new.auditor.plan ≡ self.old.auditor.plan }
        ensures gives { (told : Told) → rows_left T.remaining self.old ≡ Some told → GivesNext told (row_told result) (rows_left T.remaining self.new) }
        ensures judged { (rows : List TraceRow) → HasFed self.old.auditor rows → self.old.auditor.fault ≡ None → IsJudged self.old.auditor.plan rows result self.new }
        ensures lines { (text : List ℕ) → HasReadIn T.remaining text self.old.rows → HasReadBehind T.remaining text (row_told result) self.new.rows }
        ensures state { asked ≡ true → (rows : List TraceRow) → HasFed self.old.auditor rows → self.old.auditor.fault ≡ None → IfCame (λ row. IsStateAfter self.old.auditor.plan rows row.core.0 self.new.state) result }
        ensures read { result ≡ Err TraceError.Read → source_failed (source_of self.new.rows) ≡ true }
    {
        let Some(row) = self.rows.next_row()? else {
            return Ok(Judgement::End);
        };
        self.look(row.core, asked);
        if !self.auditor.is_in_turn(row) {
            let fault = self.auditor.fault_out_of_turn();
            return Ok(Judgement::Broken(
                row,
                Broken {
                    fault,
                    expected: None,
                },
            ));
        }
        self.expect(row.core);
        let expected = self.expected(row.tick, row.core);
        Ok(self.judge(expected, row))
    }

    // The same, where the answer is kept.
    #[inline(never)]
    fn keep_read(&mut self, asked: bool)
        requires { IsPlan self.old.auditor.plan }
        ensures plan { self.new.auditor.plan ≡ self.old.auditor.plan }
        ensures gives { (told : Told) → rows_left T.remaining self.old ≡ Some told → GivesNext told (row_told self.new.judged) (rows_left T.remaining self.new) }
        ensures judged { (rows : List TraceRow) → HasFed self.old.auditor rows → self.old.auditor.fault ≡ None → IsJudged self.old.auditor.plan rows self.new.judged self.new }
        ensures lines { (text : List ℕ) → HasReadIn T.remaining text self.old.rows → HasReadBehind T.remaining text (row_told self.new.judged) self.new.rows }
        ensures state { asked ≡ true → (rows : List TraceRow) → HasFed self.old.auditor rows → self.old.auditor.fault ≡ None → IfCame (λ row. IsStateAfter self.old.auditor.plan rows row.core.0 self.new.state) self.new.judged }
        ensures read { self.new.judged ≡ Err TraceError.Read → source_failed (source_of self.new.rows) ≡ true }
    {
        self.judged = self.read(asked);
    }

    /// The next row, and how it is judged, as long as none has violated a rule.
    #[inline(always)]
    pub fn next_row(&mut self) -> Result<Judgement, TraceError>
        ensures plan { self.new.auditor.plan ≡ self.old.auditor.plan }
        ensures gives { (told : Told) → rows_left T.remaining self.old ≡ Some told → GivesNext told (row_told result) (rows_left T.remaining self.new) }
        ensures judged { (rows : List TraceRow) → HasFed self.old.auditor rows → self.old.auditor.fault ≡ None → IsJudged self.old.auditor.plan rows result self.new }
        ensures read { (told : Told) (rows : List TraceRow) → rows_left T.remaining self.old ≡ Some told → HasFed self.old.auditor rows → self.old.auditor.fault ≡ None → result ≡ Err TraceError.Read → source_failed (source_of self.new.rows) ≡ true }
        ensures lines { (text : List ℕ) → HasReadIn T.remaining text self.old.rows → HasReadBehind T.remaining text (row_told result) self.new.rows }
    {
        self.next_by(false)
    }

    /// The same, and [`JudgedRows::state`] then tells what decided before that row who had its
    /// core's turn.
    #[inline(always)]
    pub fn next_with_state(&mut self) -> Result<Judgement, TraceError>
        ensures plan { self.new.auditor.plan ≡ self.old.auditor.plan }
        ensures gives { (told : Told) → rows_left T.remaining self.old ≡ Some told → GivesNext told (row_told result) (rows_left T.remaining self.new) }
        ensures judged { (rows : List TraceRow) → HasFed self.old.auditor rows → self.old.auditor.fault ≡ None → IsJudged self.old.auditor.plan rows result self.new }
        ensures read { (told : Told) (rows : List TraceRow) → rows_left T.remaining self.old ≡ Some told → HasFed self.old.auditor rows → self.old.auditor.fault ≡ None → result ≡ Err TraceError.Read → source_failed (source_of self.new.rows) ≡ true }
        ensures lines { (text : List ℕ) → HasReadIn T.remaining text self.old.rows → HasReadBehind T.remaining text (row_told result) self.new.rows }
        ensures state { (rows : List TraceRow) → HasFed self.old.auditor rows → self.old.auditor.fault ≡ None → IfCame (λ row. IsStateAfter self.old.auditor.plan rows row.core.0 self.new.state) result }
    {
        self.next_by(true)
    }

    // The next row, and how it is judged.
    #[inline(always)]
    fn next_by(&mut self, asked: bool) -> Result<Judgement, TraceError>
        ensures plan { self.new.auditor.plan ≡ self.old.auditor.plan }
        ensures gives { (told : Told) → rows_left T.remaining self.old ≡ Some told → GivesNext told (row_told result) (rows_left T.remaining self.new) }
        ensures judged { (rows : List TraceRow) → HasFed self.old.auditor rows → self.old.auditor.fault ≡ None → IsJudged self.old.auditor.plan rows result self.new }
        ensures read { (told : Told) (rows : List TraceRow) → rows_left T.remaining self.old ≡ Some told → HasFed self.old.auditor rows → self.old.auditor.fault ≡ None → result ≡ Err TraceError.Read → source_failed (source_of self.new.rows) ≡ true }
        ensures lines { (text : List ℕ) → HasReadIn T.remaining text self.old.rows → HasReadBehind T.remaining text (row_told result) self.new.rows }
        ensures state { asked ≡ true → (rows : List TraceRow) → HasFed self.old.auditor rows → self.old.auditor.fault ≡ None → IfCame (λ row. IsStateAfter self.old.auditor.plan rows row.core.0 self.new.state) result }
    {
        let tick = self.auditor.tick();
        let Some(core) = self.rows.core_ahead(tick) else {
            self.keep_read(asked);
            return self.judged;
        };
        if !self.auditor.is_due(core) {
            self.keep_read(asked);
            return self.judged;
        }
        self.look(core, asked);
        self.expect(core);
        if !self.rows.comes_behind(tick, &self.texts, core) {
            self.keep_expected(tick, core);
            return self.judged;
        }
        self.auditor.accept();
        let expected = self.expected(tick, core);
        Ok(Judgement::Legal(self.rows.as_read(expected).in_tick(tick)))
    }
}
