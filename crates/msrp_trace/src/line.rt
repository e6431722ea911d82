//! The text of one record, and what a core's next record can reuse of it.
ghost use Rattle.msrp_plan.specs.Common.{[], decimal, length, true, Some, None, flat_map};
ghost use Rattle.msrp_plan.specs.Words.{kind_text};
ghost use Rattle.std.specs.Prelude.{◌≡◌, ◌≤◌, ◌<◌, ◌+◌, ◌++◌, IsSomeAnd};
ghost use Rattle.msrp_trace.specs.Gathering.{next_field, after_tick};
ghost use Rattle.msrp_trace.specs.Lines.{AreResTexts, IsCoreText, IsJobText, IsLine, is_same_place, job_fields};
ghost use Rattle.msrp_trace.specs.TraceText.{ahead_fields, dash, head_text, is_named, is_res_of, is_task_of, res_text};

use crate::job::JobText;
use crate::res::ResTexts;
use crate::text::Text;
use crate::words::{DASH, TRACE_WORD, version_word};
use msrp_plan::limits::MOST_RESOURCES;
use msrp_plan::{CoreId, JobId, Kind, Plan, ResId, Row, TextVersion};
use std::marker::Model;

// Enough for a record: a number has at most 10 digits, a name at most 16 letters.
pub(crate) const LINE: usize = 80;

/// The text of a record, as far as it is made.
#[derive(Drop)]
pub(crate) struct LineText {
    text: Text<LINE>,
}

impl Model for LineText {
    ghost use Rattle.std.specs.Prelude.{ℕ, List};

    ghost Value = { List ℕ };

    ghost view = { λ l. l.text };
}

// The field of a kind, with its padding, so that each copy has the same length.
#[inline(always)]
#[tactic(auto, unfolding(msrp_plan::specs::Words::kind_text, crate::specs::Gathering::next_field))]
fn kind_field(kind: Kind) -> Text<8>
    ensures { result ≡ next_field (kind_text kind) }
{
    match kind {
        Kind::Idle => Text::first(b",idle   ", 5),
        Kind::Run => Text::first(b",run    ", 4),
        Kind::Lock => Text::first(b",lock   ", 5),
        Kind::Unlock => Text::first(b",unlock ", 7),
        Kind::Take => Text::first(b",take   ", 5),
        Kind::Queue => Text::first(b",queue  ", 6),
        Kind::Spin => Text::first(b",spin   ", 5),
        Kind::Grant => Text::first(b",grant  ", 6),
        Kind::Release => Text::first(b",release", 8),
    }
}

impl LineText {
    /// An empty record.
    pub(crate) fn new() -> LineText
        ensures { result ≡ [] }
    {
        LineText { text: Text::new() }
    }

    /// The text.
    pub(crate) fn text(&self) -> &Text<LINE>
        ensures { result.now ≡ self.now }
    {
        &self.text
    }

    /// Removes everything.
    pub(crate) fn clear(&mut self)
        ensures { self.new ≡ [] }
    {
        self.text.clear();
    }

    // A field without a value.
    #[tactic(auto, unfolding(crate::specs::TraceText::dash))]
    fn next_dash(&mut self)
        requires { length self.old + 2 ≤ LINE }
        ensures text { self.new ≡ self.old ++ next_field dash }
        ensures size { length self.new ≡ length self.old + 2 }
    {
        self.text.next(DASH);
    }

    // The first two fields after the tick: core and kind. A core always has one digit, so its field
    // has two bytes and the next one's place is known.
    #[inline(always)]
    fn begin(&mut self, core: CoreId, kind: Kind)
        ensures text { self.new ≡ next_field (decimal core.0) ++ next_field (kind_text kind) }
        ensures size { length self.new ≤ 19 }
    {
        self.clear();
        if core.0 < 10 {
            self.text.add(&[b',', b'0' + core.0 as u8]);
            self.text.add_text(&kind_field(kind));
        } else {
            self.text.next_number(core.0);
            self.text.next(kind.word());
        }
    }

    // The two fields of a job: its task's name and its number, stored for its next row.
    #[inline(always)]
    fn next_job(&mut self, plan: &Plan, kept: &mut JobText, job: Option<JobId>)
        requires task { is_task_of plan.now job ≡ true }
        requires room { length self.old + 32 ≤ LINE }
        requires before { IsJobText plan.now kept.old }
        ensures after { IsJobText plan.now kept.new }
        ensures text { self.new ≡ self.old ++ job_fields plan.now job }
        ensures size { length self.new ≤ length self.old + 32 }
    {
        match job {
            Some(job) => {
                kept.show(plan, job);
                self.text.add_text(kept.text());
            }
            None => {
                self.next_dash();
                self.next_dash();
            }
        }
    }

    // The field of a resource, stored for the next rows on it.
    #[inline(always)]
    fn next_resource(&mut self, plan: &Plan, kept: &mut ResTexts, res: Option<ResId>)
        requires res { is_res_of plan.now res ≡ true }
        requires room { length self.old + 24 ≤ LINE }
        requires before { AreResTexts plan.now kept.old }
        ensures after { AreResTexts plan.now kept.new }
        ensures text { self.new ≡ self.old ++ next_field (res_text plan.now res) }
        ensures size { length self.new ≤ length self.old + 17 }
    {
        match res {
            Some(res) => {
                let kept = &mut kept.kept[res.0 as usize % MOST_RESOURCES];
                kept.show(plan, res);
                self.text.add_text(kept.text());
            }
            None => self.next_dash(),
        }
    }

    // The field of an ahead, which version 1 omits.
    fn next_ahead(&mut self, version: TextVersion, ahead: Option<u32>)
        requires { length self.old + 11 ≤ LINE }
        ensures text { self.new ≡ self.old ++ flat_map next_field (ahead_fields version ahead) }
        ensures size { length self.new ≤ length self.old + 11 }
    {
        match (version, ahead) {
            (TextVersion::V1, _) => {}
            (TextVersion::V2, Some(ahead)) => self.text.next_number(ahead),
            (TextVersion::V2, None) => self.next_dash(),
        }
    }

    /// Makes the first record of a trace.
    pub(crate) fn head(&mut self, plan: &Plan, version: TextVersion)
        requires { self.old ≡ [] }
        ensures { self.new ≡ head_text version plan.now }
    {
        self.text.add(TRACE_WORD);
        self.text.next(version_word(version));
        self.text.next_number(plan.cores());
        self.text.next_number(plan.ticks());
        self.text.add(b"\n");
    }

    // Makes the record of a row, without its tick.
    #[inline(always)]
    fn make(
        &mut self,
        plan: &Plan,
        version: TextVersion,
        row: &Row,
        job: &mut JobText,
        res: &mut ResTexts,
    )
        requires named { is_named plan.now row.now ≡ true }
        requires job_before { IsJobText plan.now job.old }
        requires res_before { AreResTexts plan.now res.old }
        ensures job_after { IsJobText plan.now job.new }
        ensures res_after { AreResTexts plan.now res.new }
        ensures text { self.new ≡ after_tick version plan.now row.now }
    {
        self.begin(row.core, row.kind);
        self.next_job(plan, job, row.job);
        self.next_resource(plan, res, row.res);
        self.next_ahead(version, row.ahead);
        self.text.add(b"\n");
    }
}

/// The text of a core's record after the tick, and what the next one reuses.
#[derive(Drop)]
pub(crate) struct CoreText {
    line: LineText,
    // The job that the core ran last.
    job: JobText,
}

impl CoreText {
    pub(crate) fn new() -> CoreText
        ensures line { result.line ≡ [] }
        ensures job { result.job.job ≡ None }
    {
        CoreText {
            line: LineText::new(),
            job: JobText::new(),
        }
    }

    /// Makes the record of a row, without its tick.
    #[inline(always)]
    pub(crate) fn make(&mut self, plan: &Plan, version: TextVersion, row: &Row, res: &mut ResTexts)
        requires named { is_named plan.now row.now ≡ true }
        requires before { IsCoreText plan.now self.old }
        requires res_before { AreResTexts plan.now res.old }
        ensures after { IsCoreText plan.now self.new }
        ensures res_after { AreResTexts plan.now res.new }
        ensures text { self.new.line ≡ after_tick version plan.now row.now }
    {
        self.line.make(plan, version, row, &mut self.job, res);
    }

    /// Makes it, kept apart from the code of its caller, which rarely needs it.
    #[inline(never)]
    pub(crate) fn make_apart(
        &mut self,
        plan: &Plan,
        version: TextVersion,
        row: &Row,
        res: &mut ResTexts,
    )
        requires named { is_named plan.now row.now ≡ true }
        requires before { IsCoreText plan.now self.old }
        requires res_before { AreResTexts plan.now res.old }
        ensures after { IsCoreText plan.now self.new }
        ensures res_after { AreResTexts plan.now res.new }
        ensures text { self.new.line ≡ after_tick version plan.now row.now }
    {
        self.make(plan, version, row, res);
    }

    /// The text of the record after the tick.
    pub(crate) fn text(&self) -> &Text<LINE>
        ensures { result.now ≡ self.now.line }
    {
        self.line.text()
    }
}

/// A written row, and its text. While its core does the same, its next rows differ only in the
/// tick.
#[derive(Drop)]
pub(crate) struct RowLine {
    row: Option<Row>,
    text: CoreText,
}

fn is_same_kind(a: Kind, b: Kind) -> bool
    ensures { result ≡ true → a ≡ b }
{
    a == b
}

// Whether two rows are of the same core, job and resource, and carry no ahead.
fn is_same_place(a: &Row, b: &Row) -> bool
    ensures { result ≡ is_same_place a.now b.now }
{
    a.core == b.core && a.job == b.job && a.res == b.res && a.ahead.is_none() && b.ahead.is_none()
}

impl RowLine {
    pub(crate) fn new() -> RowLine
        ensures row { result.row ≡ None }
        ensures job { result.text.job.job ≡ None }
    {
        RowLine {
            row: None,
            text: CoreText::new(),
        }
    }

    // Whether the row differs from this one only in the tick; false for one with an ahead.
    fn is_of(&self, row: &Row) -> bool
        ensures kind { result ≡ true → IsSomeAnd self.now.row (λ last. last.kind ≡ row.now.kind) }
        ensures place { result ≡ true → IsSomeAnd self.now.row (λ last. is_same_place last row.now ≡ true) }
    {
        match self.row {
            Some(last) => is_same_kind(last.kind, row.kind) && is_same_place(&last, row),
            None => false,
        }
    }

    /// Makes the record of a row, without its tick, unless it is here already.
    #[inline(always)]
    pub(crate) fn show(&mut self, plan: &Plan, version: TextVersion, row: &Row, res: &mut ResTexts)
        requires named { is_named plan.now row.now ≡ true }
        requires before { IsLine version plan.now self.old }
        requires res_before { AreResTexts plan.now res.old }
        ensures after { IsLine version plan.now self.new }
        ensures res_after { AreResTexts plan.now res.new }
        ensures text { self.new.text.line ≡ after_tick version plan.now row.now }
    {
        if !self.is_of(row) {
            // Field by field, so that a row that repeats is never built in memory as a whole.
            let made = Row {
                tick: row.tick,
                core: row.core,
                kind: row.kind,
                job: row.job,
                res: row.res,
                ahead: row.ahead,
            };
            self.text.make_apart(plan, version, &made, res);
            self.row = Some(made);
        }
    }

    /// The text of the record after the tick.
    pub(crate) fn text(&self) -> &Text<LINE>
        ensures { result.now ≡ self.now.text.line }
    {
        self.text.text()
    }
}
