//! Stages whose cores wait for each other, and that store or count the turns.

use crossbeam_utils::Backoff;
use msrp_board::{Board, BoardSeat};
use msrp_core::Machine;
use msrp_merge::CoreLog;
use msrp_plan::{CoreId, Plan, Row};
use msrp_run::{Stage, turn_on};
use std::alloc::{AllocError, Global};
use std::sync::atomic::{AtomicBool, AtomicU64, Ordering};

// The most looks of a core for another.
const MOST_LOOKS: u32 = 1_000_000;

// Whether the flag was seen raised before the looks ran out.
fn sees(flag: &AtomicBool) -> bool {
    let backoff = Backoff::new();
    for _ in 0..MOST_LOOKS {
        if flag.load(Ordering::SeqCst) {
            return true;
        }
        backoff.snooze();
    }
    false
}

/// The rows of the turns, as one word for each core and tick, since a turn takes no lock.
#[derive(Drop)]
pub(super) struct Rows {
    cores: u32,
    words: Vec<AtomicU64>,
}

// A row as a word, without tick and core: kind and resource in a byte each; ahead, task and job
// number in two; 1 marks a part that is there.
fn word_of(row: &Row) -> u64 {
    let job = match row.job {
        Some(job) => 1 | u64::from(job.task.0) << 1 | u64::from(job.k) << 16,
        None => 0,
    };
    let res = row.res.map_or(0, |res| 1 | u64::from(res.0) << 1);
    let ahead = row.ahead.map_or(0, |ahead| 1 | u64::from(ahead) << 1);
    1 | (row.kind as u64) << 1 | res << 8 | ahead << 16 | job << 32
}

impl Rows {
    fn of(alloc: Global, plan: &Plan) -> Result<Rows, AllocError> {
        let mut words = Vec::new(alloc);
        for _ in 0..plan.cores() * plan.ticks() {
            words.push(AtomicU64::new(0))?;
        }
        Ok(Rows {
            cores: plan.cores(),
            words,
        })
    }

    /// The number of words.
    pub(super) fn len(&self) -> usize {
        self.words.len()
    }

    fn word(&self, row: &Row) -> Option<&AtomicU64> {
        let first = row.tick.checked_mul(self.cores)?;
        self.words.get(first.checked_add(row.core.0)? as usize)
    }

    // A second row of the same core and tick would change the word.
    fn keep(&self, row: &Row) {
        if let Some(word) = self.word(row) {
            word.fetch_add(word_of(row), Ordering::SeqCst);
        }
    }

    /// Whether exactly this row was stored for its core and tick.
    pub(super) fn has_just(&self, row: &Row) -> bool {
        match self.word(row) {
            Some(word) => word.load(Ordering::SeqCst) == word_of(row),
            None => false,
        }
    }
}

/// In tick 0 each core raises a flag and waits for all flags.
#[derive(Drop)]
pub(super) struct Meeting {
    raised: Vec<AtomicBool>,
    seen: Vec<AtomicBool>,
    rows: Rows,
}

// A flag for each core.
fn flags(alloc: Global, plan: &Plan) -> Result<Vec<AtomicBool>, AllocError> {
    let mut flags = Vec::new(alloc);
    for _ in 0..plan.cores() {
        flags.push(AtomicBool::new(false))?;
    }
    Ok(flags)
}

impl Meeting {
    pub(super) fn of(alloc: Global, plan: &Plan) -> Result<Meeting, AllocError> {
        Ok(Meeting {
            raised: flags(alloc, plan)?,
            seen: flags(alloc, plan)?,
            rows: Rows::of(alloc, plan)?,
        })
    }

    fn meet(&self, core: CoreId) {
        let mine = core.0 as usize;
        if let Some(raised) = self.raised.get(mine) {
            raised.store(true, Ordering::SeqCst);
        }
        let has_seen = self.raised.iter().all(|raised| sees(raised));
        if let Some(seen) = self.seen.get(mine) {
            seen.store(has_seen, Ordering::SeqCst);
        }
    }

    pub(super) fn all_met(&self) -> bool {
        self.seen.iter().all(|seen| seen.load(Ordering::SeqCst))
    }

    pub(super) fn rows(&self) -> &Rows {
        &self.rows
    }
}

impl Stage for Meeting {
    fn turn(
        &self,
        machine: &mut Machine<'_>,
        log: &mut CoreLog,
        board: &Board,
        seat: BoardSeat,
    ) -> (Row, BoardSeat) {
        if machine.tick() == 0 {
            self.meet(machine.core());
        }
        let (row, back) = turn_on(machine, log, board, seat);
        self.rows.keep(&row);
        (row, back)
    }
}

/// In tick 0 the other core waits for the leader's flag, which is raised after its turn.
#[derive(Drop)]
pub(super) struct OneFirst {
    leader: CoreId,
    raised: AtomicBool,
    seen: AtomicBool,
    rows: Rows,
}

impl OneFirst {
    pub(super) fn of(alloc: Global, plan: &Plan, leader: CoreId) -> Result<OneFirst, AllocError> {
        Ok(OneFirst {
            leader,
            raised: AtomicBool::new(false),
            seen: AtomicBool::new(false),
            rows: Rows::of(alloc, plan)?,
        })
    }

    pub(super) fn followed(&self) -> bool {
        self.seen.load(Ordering::SeqCst)
    }

    pub(super) fn rows(&self) -> &Rows {
        &self.rows
    }
}

impl Stage for OneFirst {
    fn turn(
        &self,
        machine: &mut Machine<'_>,
        log: &mut CoreLog,
        board: &Board,
        seat: BoardSeat,
    ) -> (Row, BoardSeat) {
        let leads = machine.core() == self.leader;
        if machine.tick() == 0 && !leads {
            self.seen.store(sees(&self.raised), Ordering::SeqCst);
        }
        let (row, back) = turn_on(machine, log, board, seat);
        if leads {
            self.raised.store(true, Ordering::SeqCst);
        }
        self.rows.keep(&row);
        (row, back)
    }
}

/// Counts the turns.
#[derive(Drop)]
pub(super) struct Counting(AtomicU64);

impl Counting {
    pub(super) fn new() -> Counting {
        Counting(AtomicU64::new(0))
    }

    pub(super) fn turns(&self) -> u64 {
        self.0.load(Ordering::SeqCst)
    }
}

impl Stage for Counting {
    fn turn(
        &self,
        machine: &mut Machine<'_>,
        log: &mut CoreLog,
        board: &Board,
        seat: BoardSeat,
    ) -> (Row, BoardSeat) {
        self.0.fetch_add(1, Ordering::SeqCst);
        turn_on(machine, log, board, seat)
    }
}
