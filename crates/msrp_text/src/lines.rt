//! A text read ahead in blocks, whose plain lines are found there, and its empty lines counted.
ghost use Rattle.std.specs.Prelude.{◌^◌, ◌≡◌, ◌≤◌, ◌<◌, ◌+◌, ◌++◌, ◌⊎◌, ◌==◌, ◌&&◌};
ghost use Rattle.msrp_plan.specs.Common.{IsSome, not, ℕ, List, [], Some, None, IfOk, true, false, length, map, take, list_all};
ghost use Rattle.msrp_text.specs.declared.front.TheConstants.{LONGEST};
ghost use Rattle.msrp_text.specs.declared.lines.TheConstants.{ROOM};
ghost use Rattle.std.specs.Io.{ReadsAtMost};
ghost use Rattle.std.specs.Io.KnownBytes.{IsAtEnd, Keeps, ReadConsumes};
ghost use Rattle.csv.specs.Records.{fields_of};
ghost use Rattle.msrp_text.specs.Plain.{EndsLine, IsPeeked, NoLine, is_plain, split_commas};

use crate::breaks::{begins_record, counted, is_break};
use crate::csv_records::CsvRecords;
use crate::front::{Front, PlainLine, front_of};
use csv::ByteRecord;
use std::alloc::{AllocError, Global};
use std::io;
use std::io::{ErrorKind, Read};

/// The most bytes read ahead, plus one that is free for a line feed.
pub(crate) const ROOM: usize = 16_384;

/// The bytes of a text, some of them read ahead.
#[derive(Drop)]
pub(crate) struct Lines<R> {
    source: R,
    buffer: [u8; ROOM],
    at: usize,
    end: usize,
    // Whether a line was taken: the rest isn't the text's start, and the last byte is before `at`.
    begun: bool,
    // The number of empty lines passed, while it fits.
    passed: Option<u32>,
    // Why a read ahead failed, if one did.
    failed: Option<ErrorKind>,
    ghost front: { begun ≡ true → 1 ≤ at },
    ghost order: { at ≤ end },
    ghost within: { end ≤ length buffer },
    ghost room: { end ≤ ROOM },
}

impl<R: Read> Lines<R> {
    ghost use Rattle.msrp_text.specs.Ahead.{buffered, has_failed, lines_ahead, unread};
    ghost use Rattle.msrp_text.specs.Lines.{BeginsIn, HasTaken, byte_before, ends_line};
    ghost use Rattle.msrp_text.specs.Records.{GivesLine, HasNone, KeepsRecords, csv_left, records_ahead};

    /// The bytes of the rest of a reader.
    pub(crate) fn new(source: R) -> Lines<R>
        ensures bytes { unread R.remaining result ≡ R.remaining source }
        ensures begun { result.begun ≡ false }
        ensures passed { result.passed ≡ Some 0 }
    {
        Lines {
            source,
            buffer: [0; ROOM],
            at: 1,
            end: 1,
            begun: false,
            passed: Some(0),
            failed: None,
        }
    }

    /// The reader underneath.
    pub(crate) fn source(&self) -> &R
        ensures { result.now ≡ self.now.source }
    {
        &self.source
    }

    /// The bytes that were read ahead.
    pub(crate) fn ahead(&self) -> &[u8]
        ensures { result.now ≡ lines_ahead self.now }
    {
        &self.buffer[self.at..self.end]
    }

    /// Takes bytes that were read ahead.
    pub(crate) fn take(&mut self, count: usize)
        requires count { count ≤ length (lines_ahead self.old) }
        requires some { 0 < count }
        ensures gives { (line : List ℕ) → EndsLine line (take count (lines_ahead self.old)) → is_plain line ≡ true → GivesLine (records_ahead R.remaining self.old) (split_commas line) (records_ahead R.remaining self.new) }
        ensures taken { (line bytes : List ℕ) (number : ℕ) → EndsLine line (take count (lines_ahead self.old)) → is_plain line ≡ true → HasTaken R.remaining bytes number self.old → HasTaken R.remaining bytes (number + 1) self.new }
        ensures begins { (line bytes : List ℕ) (number empty : ℕ) → EndsLine line (take count (lines_ahead self.old)) → is_plain line ≡ true → HasTaken R.remaining bytes number self.old → self.new.passed ≡ Some empty → BeginsIn bytes (number + 1) (number + 1 + empty) }
    {
        self.at += count;
        self.begun = true;
    }

    // Whether a line ends at that next byte: not at an LF after a CR, since the two are one end.
    fn ends_line(&self, byte: u8) -> bool
        ensures { result ≡ ends_line (byte_before self.now) byte }
    {
        byte == b'\r' || (byte == b'\n' && !(self.begun && self.buffer[self.at - 1] == b'\r'))
    }

    // Reads ahead if no byte is there.
    fn look(&mut self)
        ensures kept { Keeps (unread R.remaining self.old) (unread R.remaining self.new) }
        ensures begun { self.new.begun ≡ self.old.begun }
        ensures before { byte_before self.new ≡ byte_before self.old }
        ensures passed { self.new.passed ≡ self.old.passed }
        ensures grows { (more : List ℕ) × (lines_ahead self.new ≡ lines_ahead self.old ++ more) }
    {
        if self.at == self.end {
            self.fetch();
        }
    }

    // Passes a line end, or a part of one; false if none is next. The line that ends there is
    // empty.
    fn pass_end(&mut self) -> bool
        ensures none { NoLine LONGEST (lines_ahead self.new) → NoLine LONGEST (lines_ahead self.old) }
        ensures same { KeepsRecords (records_ahead R.remaining self.old) (records_ahead R.remaining self.new) }
        ensures taken { (bytes : List ℕ) (number : ℕ) → HasTaken R.remaining bytes number self.old → HasTaken R.remaining bytes number self.new }
    {
        self.look();
        if self.at == self.end {
            return false;
        }
        let byte = self.buffer[self.at];
        if !is_break(byte) {
            return false;
        }
        self.passed = counted(self.passed, self.ends_line(byte));
        self.at += 1;
        self.begun = true;
        true
    }

    // Passes all line ends that are next: an empty line is no record.
    fn pass_ends(&mut self)
        ensures none { NoLine LONGEST (lines_ahead self.new) → NoLine LONGEST (lines_ahead self.old) }
        ensures same { KeepsRecords (records_ahead R.remaining self.old) (records_ahead R.remaining self.new) }
        ensures taken { (bytes : List ℕ) (number : ℕ) → HasTaken R.remaining bytes number self.old → HasTaken R.remaining bytes number self.new }
    {
        for _passed in 0..u64::MAX {
            if !self.pass_end() {
                return;
            }
        }
    }

    /// Reads the next line's fields into `row` if it is plain; takes nothing, reads no further.
    pub(crate) fn peek(&mut self, row: &mut ByteRecord) -> Result<Option<PlainLine>, AllocError>
        ensures line { IfOk result (λ found. IsPeeked (lines_ahead self.new) (fields_of row.new) found) }
        ensures none { NoLine LONGEST (lines_ahead self.new) → NoLine LONGEST (lines_ahead self.old) }
        ensures same { KeepsRecords (records_ahead R.remaining self.old) (records_ahead R.remaining self.new) }
        ensures taken { (bytes : List ℕ) (number : ℕ) → HasTaken R.remaining bytes number self.old → HasTaken R.remaining bytes number self.new }
    {
        self.pass_ends();
        loop {
            match front_of(self.ahead(), row)? {
                Front::Line(line) => return Ok(Some(line)),
                Front::Part if self.fetch() => {}
                _ => return Ok(None),
            }
        }
    }

    /// Reads ahead once more; false if no byte came. After a failed read nothing more is read
    /// ahead, and the read after the bytes that are there fails.
    #[inline(never)]
    pub(crate) fn fetch(&mut self) -> bool
        ensures kept { Keeps (unread R.remaining self.old) (unread R.remaining self.new) }
        ensures begun { self.new.begun ≡ self.old.begun }
        ensures before { byte_before self.new ≡ byte_before self.old }
        ensures passed { self.new.passed ≡ self.old.passed }
        ensures grows { (more : List ℕ) × (lines_ahead self.new ≡ lines_ahead self.old ++ more) × (result ≡ false → more ≡ []) }
        ensures more { result ≡ true → buffered self.old < buffered self.new }
        ensures end { result ≡ false → length (lines_ahead self.new) + 1 < ROOM → (has_failed self.new ≡ true) ⊎ IsAtEnd (R.remaining self.new.source) }
    {
        if self.failed.is_some() {
            return false;
        }
        // The byte before the next one stays.
        let front = self.at.min(1);
        let start = self.at - front;
        self.buffer.copy_within(start..self.end, 0);
        self.at = front;
        self.end -= start;
        match self.source.read(&mut self.buffer[self.end..]) {
            Ok(more) => {
                self.end += more;
                more > 0
            }
            Err(error) => {
                self.failed = Some(error.kind());
                false
            }
        }
    }

    /// Whether no byte is left; reads ahead to find out. A failed read ahead isn't the end.
    pub(crate) fn is_at_end(&mut self) -> bool
        ensures same { KeepsRecords (records_ahead R.remaining self.old) (records_ahead R.remaining self.new) }
        ensures none { result ≡ true → HasNone (records_ahead R.remaining self.new) }
        ensures taken { (bytes : List ℕ) (number : ℕ) → HasTaken R.remaining bytes number self.old → HasTaken R.remaining bytes number self.new }
    {
        if self.at < self.end {
            return false;
        }
        !self.fetch() && self.failed.is_none()
    }

    /// The number of empty lines passed, while it fits.
    pub(crate) fn passed(&self) -> Option<u32>
        ensures { result ≡ self.now.passed }
    {
        self.passed
    }

    /// The number of empty lines before the next record, if one begins with the next byte.
    pub(crate) fn empty_before(&self) -> Option<u32>
        ensures { (bytes : List ℕ) (number empty : ℕ) → HasTaken R.remaining bytes number self.now → result ≡ Some empty → BeginsIn bytes (number + 1) (number + 1 + empty) }
    {
        if self.at < self.end && begins_record(self.buffer[self.at]) {
            return self.passed;
        }
        None
    }

    /// The remaining records, read by `csv`.
    pub(crate) fn into_records(self, alloc: Global) -> CsvRecords<Lines<R>>
        ensures left { KeepsRecords (records_ahead R.remaining self) (csv_left (unread R.remaining) result) }
        ensures goes { result.stopped ≡ None }
    {
        let mut rest = self;
        if rest.begun {
            // `csv` drops a byte order mark at the front. After a line feed it finds none.
            let front = rest.at - 1;
            rest.at = front;
            rest.begun = false;
            rest.buffer[front] = b'\n';
        }
        CsvRecords::new(alloc, rest)
    }
}

impl<R: Read> Read for Lines<R> {
    ghost use Rattle.msrp_text.specs.Ahead.{unread};

    ghost remaining = { unread R.remaining };

    fn read(&mut self, buf: &mut [u8]) -> io::Result<usize>
        ensures bound { ReadsAtMost result buf.new }
        ensures bytes { ReadConsumes (unread R.remaining self.old) (unread R.remaining self.new) result buf.new }
    {
        if self.at == self.end {
            return match self.failed {
                Some(kind) => Err(io::Error::from(kind)),
                None => self.source.read(buf),
            };
        }
        let count = (self.end - self.at).min(buf.len());
        buf[..count].copy_from_slice(&self.buffer[self.at..self.at + count]);
        self.at += count;
        Ok(count)
    }
}
