//! A row in eight bytes, so that an audit in pieces can store all rows cheaply.
ghost use Rattle.std.specs.Prelude.{◌≡◌, ◌-◌};
ghost use Rattle.msrp_plan.specs.Common.{IfSome, nat_le, is_of, is_on, ahead_of_kind, job_of_kind, res_of_kind};
ghost use Rattle.msrp_audit.specs.Inside.SmallRows.{job_in, kind_coded, res_in, row_of};

use msrp_plan::{CoreId, JobId, Kind, ResId, Row, TaskId};
use std::mem::size_of;

/// A row in eight bytes, if its numbers are small. A part that it lacks is zero and isn't read.
#[derive(Clone, Copy)]
pub(crate) struct SmallRow {
    tick: u16,
    k: u16,
    task: u8,
    res: u8,
    core: u8,
    // The index of the row's kind in `KINDS`, or `QUEUE_LENGTH` plus the ahead that it carries.
    code: u8,
}

const _: () = prove!(size_of::<SmallRow>() == 8);

const QUEUE_LENGTH: u64 = 9;

const KINDS: [Kind; 9] = [
    Kind::Idle,
    Kind::Run,
    Kind::Lock,
    Kind::Unlock,
    Kind::Take,
    Kind::Queue,
    Kind::Spin,
    Kind::Grant,
    Kind::Release,
];

const NO_JOB: JobId = JobId {
    task: TaskId(0),
    k: 0,
};

const NO_RES: ResId = ResId(0);

// The code of the row's kind and queue length.
#[inline(always)]
fn code_of(row: Row) -> u64
    ensures kind { kind_coded result ≡ row.kind }
    ensures ahead { ahead_of_kind row.kind (nat_le 9 result) (result - 9) ≡ row.ahead }
{
    match row.ahead {
        Some(ahead) => QUEUE_LENGTH + ahead as u64,
        None => row.kind as u64,
    }
}

impl SmallRow {
    /// The row in eight bytes, if its numbers are small enough.
    #[inline(always)]
    pub(crate) fn of(row: Row) -> Option<SmallRow>
        ensures { IfSome result (λ small. row_of small ≡ row) }
    {
        let job = row.job.unwrap_or(NO_JOB);
        let res = row.res.unwrap_or(NO_RES);
        let code = code_of(row);
        let wide = row.tick.max(job.k);
        let narrow = job.task.0.max(res.0).max(row.core.0);
        if wide > u16::MAX as u32 || narrow > u8::MAX as u32 || code > u8::MAX as u64 {
            return None;
        }
        Some(SmallRow {
            tick: row.tick as u16,
            k: job.k as u16,
            task: job.task.0 as u8,
            res: res.0 as u8,
            core: row.core.0 as u8,
            code: code as u8,
        })
    }

    #[inline(always)]
    fn kind(&self) -> Kind
        ensures { result ≡ kind_coded self.now.code }
    {
        match KINDS.get(self.code as usize) {
            Some(kind) => *kind,
            None => Kind::Queue,
        }
    }

    #[inline(always)]
    fn job(&self) -> Option<JobId>
        ensures { result ≡ job_of_kind (kind_coded self.now.code) (job_in self.now) }
    {
        match self.kind() {
            Kind::Idle => None,
            _ => Some(JobId {
                task: TaskId(self.task as u32),
                k: self.k as u32,
            }),
        }
    }

    #[inline(always)]
    fn res(&self) -> Option<ResId>
        ensures { result ≡ res_of_kind (kind_coded self.now.code) (res_in self.now) }
    {
        match self.kind() {
            Kind::Idle | Kind::Run => None,
            _ => Some(ResId(self.res as u32)),
        }
    }

    #[inline(always)]
    fn ahead(&self) -> Option<u32>
        ensures { result ≡ (row_of self.now).ahead }
    {
        match self.kind() {
            Kind::Queue if self.code as u64 >= QUEUE_LENGTH => {
                Some(self.code as u32 - QUEUE_LENGTH as u32)
            }
            _ => None,
        }
    }

    /// Whether the row is one of the core.
    #[inline(always)]
    pub(crate) fn is_of(&self, core: CoreId) -> bool
        ensures { result ≡ is_of core.0 (row_of self.now) }
    {
        self.core as u32 == core.0
    }

    /// Whether the row names the resource.
    #[inline(always)]
    pub(crate) fn names(&self, res: ResId) -> bool
        ensures { result ≡ is_on res.0 (row_of self.now).res }
    {
        self.res as u32 == res.0 && !matches!(self.kind(), Kind::Idle | Kind::Run)
    }

    /// The row itself.
    #[inline(always)]
    pub(crate) fn row(&self) -> Row
        ensures { result ≡ row_of self.now }
    {
        let job = self.job();
        let res = self.res();
        let ahead = self.ahead();
        Row {
            tick: self.tick as u32,
            core: CoreId(self.core as u32),
            kind: self.kind(),
            job,
            res,
            ahead,
        }
    }
}
