//! The records of a text, one by one: plain lines where they are, all others by `csv`.
ghost use Rattle.std.specs.Prelude.{◌≡◌, ◌≤◌, ◌<◌, ◌+◌, ◌++◌, ◌∷◌, ◌^◌};
ghost use Rattle.msrp_plan.specs.Common.{[], codes, ℕ, List, Some, None, Err, IfOk, IfErr, OnOk, OnErr, Ok, IsSome, option_map, length, take, true, false};
ghost use Rattle.std.specs.Option.{IfSome};
ghost use Rattle.csv.specs.Records.{fields_of};
ghost use Rattle.msrp_text.specs.declared.front.TheConstants.{LONGEST};
ghost use Rattle.msrp_text.specs.Lines.{BeginsIn, HasRead, HasTakenBy, empty_before};
ghost use Rattle.msrp_text.specs.Plain.{BeginsWith, BeginsWithDigit, EndsLine, IsPeeked, NoLine, is_plain, is_plain_field, split_commas};
ghost use Rattle.msrp_text.specs.Records.{FirstBegins, GivesLine, GivesNext, HasNone, KeepsRecords, bytes_ahead, csv_records, is_csv, left_at, reader_under, reads_csv, records_left, stop_at, stop_of};

use crate::csv_records::CsvRecords;
use crate::front::{
    LONGEST, PlainLine, ROW, begins_with, begins_with_long, digit_after, ends_line, line_behind,
};
use crate::lines::Lines;
use core::mem;
use csv::ByteRecord;
use std::alloc::{AllocError, Global};
use std::io::Read;
use thiserror::Error;

/// Why no further record can be had.
#[derive(Clone, Copy, Debug, Error, PartialEq, Eq)]
pub enum Stopped {
    /// A read failed.
    #[error("a read failed")]
    Read,
    /// Out of memory.
    #[error("memory was refused")]
    Memory,
}

// How records are read: from plain lines or, from the first other line on, by `csv`.
#[derive(Drop)]
enum Way<R> {
    Lines(Lines<R>),
    Csv(CsvRecords<Lines<R>>),
}

// The way by `csv`, from the current line on.
fn by_csv<R: Read>(way: Way<R>, alloc: Global) -> (Way<R>, ())
    ensures same { KeepsRecords (left_at R.remaining way) (left_at R.remaining result.0) }
    ensures stop { stop_at result.0 ≡ stop_at way }
    ensures csv { is_csv result.0 ≡ true }
{
    match way {
        Way::Lines(lines) => (Way::Csv(lines.into_records(alloc)), ()),
        Way::Csv(records) => (Way::Csv(records), ()),
    }
}

/// The records of a text: fields between commas, no header row; an empty line is no record.
///
/// Plain lines are taken where they are: lines without a quote or a byte order mark, not empty,
/// shorter than [`LONGEST`], that end with LF, CR or CRLF. `csv` reads the first other line and all
/// that follows.
#[derive(Drop)]
pub struct RecordReader<R> {
    alloc: Global,
    way: Way<R>,
    // The number of empty lines before the record that `csv` has read last, if known: for its first
    // one.
    first: Option<u32>,
}

impl<R: Read> RecordReader<R> {
    /// The records of the rest of a reader.
    pub fn new(alloc: Global, text: R) -> RecordReader<R>
        ensures left { records_left R.remaining result ≡ option_map csv_records (R.remaining text) }
        ensures goes { stop_of result ≡ None }
        ensures start { (bytes : List ℕ) → R.remaining text ≡ Some bytes → HasRead R.remaining bytes 0 result }
    {
        RecordReader {
            alloc,
            way: Way::Lines(Lines::new(text)),
            first: None,
        }
    }

    /// The reader underneath.
    pub fn reader(&self) -> &R
        ensures { result.now ≡ reader_under self.now }
    {
        match &self.way {
            Way::Lines(lines) => lines.source(),
            Way::Csv(records) => records.reader().source(),
        }
    }

    /// The number of empty lines before the record read last. Known until `csv` reads, and mostly
    /// for the first record that it reads; until then each record took one line.
    pub fn empty_lines(&self) -> Option<u32>
        ensures value { result ≡ empty_before self.now }
        ensures line { (bytes : List ℕ) (number empty : ℕ) → HasRead R.remaining bytes number self.now → 1 ≤ number → result ≡ Some empty → BeginsIn bytes number (number + empty) }
        ensures known { (bytes : List ℕ) (number : ℕ) → HasRead R.remaining bytes number self.now → length bytes < 2 ^ 32 → reads_csv self.now ≡ false → IsSome result }
    {
        match &self.way {
            Way::Lines(lines) => lines.passed(),
            Way::Csv(_) => self.first,
        }
    }

    /// The bytes read ahead, from the next record on; none once `csv` reads.
    pub fn ahead(&self) -> &[u8]
        ensures { result.now ≡ bytes_ahead self.now }
    {
        match &self.way {
            Way::Lines(lines) => lines.ahead(),
            Way::Csv(_) => &[],
        }
    }

    /// Takes the next line if it is these two texts, the first known to be next, as from
    /// [`RecordReader::digit_after`], and the second with a line feed; CR or CRLF may replace that.
    /// Otherwise takes nothing. Reads nothing more.
    #[inline(always)]
    pub fn meets_behind(&mut self, front: &[u8], line: &[u8]) -> bool
        requires { (after : List ℕ) × (bytes_ahead self.old ≡ front.now ++ after) }
        ensures taken { result ≡ true → (rest : List ℕ) → line.now ≡ rest ++ codes "\n" → is_plain (front.now ++ rest) ≡ true → GivesLine (records_left R.remaining self.old) (split_commas (front.now ++ rest)) (records_left R.remaining self.new) }
        ensures kept { result ≡ false → KeepsRecords (records_left R.remaining self.old) (records_left R.remaining self.new) }
        ensures stop { stop_of self.new ≡ stop_of self.old }
        ensures ahead { (rest : List ℕ) → line.now ≡ rest ++ codes "\n" → BeginsWith (front.now ++ rest) (bytes_ahead self.old) → result ≡ true }
        ensures begins { result ≡ true → (rest : List ℕ) → line.now ≡ rest ++ codes "\n" → BeginsWith (front.now ++ rest) (bytes_ahead self.old) }
        ensures line { result ≡ true → (rest : List ℕ) → line.now ≡ rest ++ codes "\n" → is_plain (front.now ++ rest) ≡ true → (bytes : List ℕ) (number : ℕ) → HasRead R.remaining bytes number self.old → HasRead R.remaining bytes (number + 1) self.new }
        ensures still { result ≡ false → (bytes : List ℕ) (number : ℕ) → HasRead R.remaining bytes number self.old → HasRead R.remaining bytes number self.new }
        ensures same { result ≡ false → self.new ≡ self.old }
        ensures ended { result ≡ true → (rest : List ℕ) × (line.now ≡ rest ++ codes "\n") }
    {
        let Way::Lines(lines) = &self.way else {
            return self.meets_apart(front, line);
        };
        let next = &lines.ahead()[front.len()..];
        if ends_line(line) && begins_with_long(next, line) {
            self.take_line(front.len() + line.len());
            return true;
        }
        self.meets_apart(front, line)
    }

    // As `meets_behind`, if the first text may not be next, or the line end differs.
    #[inline(never)]
    fn meets_apart(&mut self, front: &[u8], line: &[u8]) -> bool
        ensures taken { result ≡ true → (rest : List ℕ) → line.now ≡ rest ++ codes "\n" → is_plain (front.now ++ rest) ≡ true → GivesLine (records_left R.remaining self.old) (split_commas (front.now ++ rest)) (records_left R.remaining self.new) }
        ensures kept { result ≡ false → KeepsRecords (records_left R.remaining self.old) (records_left R.remaining self.new) }
        ensures stop { stop_of self.new ≡ stop_of self.old }
        ensures ahead { (rest : List ℕ) → line.now ≡ rest ++ codes "\n" → BeginsWith (front.now ++ rest) (bytes_ahead self.old) → result ≡ true }
        ensures begins { result ≡ true → (rest : List ℕ) → line.now ≡ rest ++ codes "\n" → BeginsWith (front.now ++ rest) (bytes_ahead self.old) }
        ensures line { result ≡ true → (rest : List ℕ) → line.now ≡ rest ++ codes "\n" → is_plain (front.now ++ rest) ≡ true → (bytes : List ℕ) (number : ℕ) → HasRead R.remaining bytes number self.old → HasRead R.remaining bytes (number + 1) self.new }
        ensures still { result ≡ false → (bytes : List ℕ) (number : ℕ) → HasRead R.remaining bytes number self.old → HasRead R.remaining bytes number self.new }
        ensures same { result ≡ false → self.new ≡ self.old }
        ensures ended { result ≡ true → (rest : List ℕ) × (line.now ≡ rest ++ codes "\n") }
    {
        if !ends_line(line) || !begins_with(self.ahead(), front) {
            return false;
        }
        match line_behind(self.ahead(), front, &line[..line.len() - 1]) {
            Some(taken) => {
                self.take_line(taken);
                true
            }
            None => false,
        }
    }

    /// The second field of the next record, if it is one digit after that first field, both
    /// unquoted in the bytes read ahead; otherwise none, and nothing is known. Reads until a whole
    /// line is there, or more bytes than a row of a trace has.
    #[inline(always)]
    pub fn digit_after(&mut self, first: &[u8]) -> Option<u8>
        ensures next { IfSome result (λ digit. is_plain_field first.now ≡ true → (left : List (List (List ℕ))) → records_left R.remaining self.new ≡ Some left → FirstBegins (first.now ∷ (digit ∷ []) ∷ []) left) }
        ensures ahead { IfSome result (λ digit. BeginsWithDigit first.now digit (bytes_ahead self.new)) }
        ensures finds { (digit : ℕ) → BeginsWithDigit first.now digit (bytes_ahead self.new) → result ≡ Some digit }
        ensures same { KeepsRecords (records_left R.remaining self.old) (records_left R.remaining self.new) }
        ensures stop { stop_of self.new ≡ stop_of self.old }
        ensures still { (bytes : List ℕ) (number : ℕ) → HasRead R.remaining bytes number self.old → HasRead R.remaining bytes number self.new }
    {
        if first.len() <= 8 && self.ahead().len() > ROW {
            if let Some(digit) = digit_after(self.ahead(), first) {
                return Some(digit);
            }
        }
        self.digit_apart(first)
    }

    // The same, kept apart from the code of most lines.
    #[inline(never)]
    fn digit_apart(&mut self, first: &[u8]) -> Option<u8>
        ensures next { IfSome result (λ digit. is_plain_field first.now ≡ true → (left : List (List (List ℕ))) → records_left R.remaining self.new ≡ Some left → FirstBegins (first.now ∷ (digit ∷ []) ∷ []) left) }
        ensures ahead { IfSome result (λ digit. BeginsWithDigit first.now digit (bytes_ahead self.new)) }
        ensures finds { (digit : ℕ) → BeginsWithDigit first.now digit (bytes_ahead self.new) → result ≡ Some digit }
        ensures same { KeepsRecords (records_left R.remaining self.old) (records_left R.remaining self.new) }
        ensures stop { stop_of self.new ≡ stop_of self.old }
        ensures still { (bytes : List ℕ) (number : ℕ) → HasRead R.remaining bytes number self.old → HasRead R.remaining bytes number self.new }
    {
        self.read_line_ahead();
        digit_after(self.ahead(), first)
    }

    // Reads until a whole line is there, or as many bytes as the longest has, or no more follow.
    #[inline(never)]
    fn read_line_ahead(&mut self)
        ensures same { KeepsRecords (records_left R.remaining self.old) (records_left R.remaining self.new) }
        ensures stop { stop_of self.new ≡ stop_of self.old }
        ensures still { (bytes : List ℕ) (number : ℕ) → HasRead R.remaining bytes number self.old → HasRead R.remaining bytes number self.new }
    {
        while self.ahead().len() <= LONGEST
            && !self.ahead().contains(&b'\n')
            && self.read_ahead()
        {}
    }

    // Reads ahead once more; whether a byte came. None does once `csv` reads.
    fn read_ahead(&mut self) -> bool
        ensures same { KeepsRecords (records_left R.remaining self.old) (records_left R.remaining self.new) }
        ensures stop { stop_of self.new ≡ stop_of self.old }
        ensures still { (bytes : List ℕ) (number : ℕ) → HasRead R.remaining bytes number self.old → HasRead R.remaining bytes number self.new }
        ensures more { result ≡ true → length (bytes_ahead self.old) < length (bytes_ahead self.new) }
    {
        match &mut self.way {
            Way::Lines(lines) => lines.fetch(),
            Way::Csv(_) => false,
        }
    }

    /// Takes bytes read ahead: a plain line with its end, whose fields were the next record.
    #[inline]
    pub(crate) fn take_line(&mut self, count: usize)
        requires count { count ≤ length (bytes_ahead self.old) }
        requires some { 0 < count }
        ensures next { (line : List ℕ) → EndsLine line (take count (bytes_ahead self.old)) → is_plain line ≡ true → GivesLine (records_left R.remaining self.old) (split_commas line) (records_left R.remaining self.new) }
        ensures stop { stop_of self.new ≡ stop_of self.old }
        ensures way { reads_csv self.new ≡ reads_csv self.old }
        ensures line { (line bytes : List ℕ) (number : ℕ) → EndsLine line (take count (bytes_ahead self.old)) → is_plain line ≡ true → HasTakenBy R.remaining bytes number self.old.way → HasRead R.remaining bytes (number + 1) self.new }
    {
        match &mut self.way {
            Way::Lines(lines) => lines.take(count),
            // No byte is ahead.
            Way::Csv(_) => unreachable!(),
        }
    }

    // The next record's fields in `row` if it is a plain line, and the line's length, without
    // taking it. If memory runs out for its fields, no read has failed before.
    fn peek_line(&mut self, row: &mut ByteRecord) -> Result<Option<PlainLine>, AllocError>
        ensures line { IfOk result (λ found. IsPeeked (bytes_ahead self.new) (fields_of row.new) found) }
        ensures none { NoLine LONGEST (bytes_ahead self.new) → NoLine LONGEST (bytes_ahead self.old) }
        ensures same { KeepsRecords (records_left R.remaining self.old) (records_left R.remaining self.new) }
        ensures stop { stop_of self.new ≡ stop_of self.old }
        ensures way { reads_csv self.new ≡ reads_csv self.old }
        ensures found { IfOk result (λ found. IsSome found → stop_of self.new ≡ None) }
        ensures refused { OnErr result (stop_of self.new ≡ None) }
        ensures taken { (bytes : List ℕ) (number : ℕ) → HasTakenBy R.remaining bytes number self.old.way → HasTakenBy R.remaining bytes number self.new.way }
    {
        match &mut self.way {
            Way::Lines(lines) => lines.peek(row),
            Way::Csv(_) => Ok(None),
        }
    }

    // Whether surely no record is left, as known without `csv`. Then no read has failed.
    fn is_at_end(&mut self) -> bool
        ensures same { KeepsRecords (records_left R.remaining self.old) (records_left R.remaining self.new) }
        ensures none { result ≡ true → HasNone (records_left R.remaining self.new) }
        ensures stop { stop_of self.new ≡ stop_of self.old }
        ensures goes { result ≡ true → stop_of self.new ≡ None }
        ensures way { reads_csv self.new ≡ reads_csv self.old }
        ensures taken { (bytes : List ℕ) (number : ℕ) → HasTakenBy R.remaining bytes number self.old.way → HasTakenBy R.remaining bytes number self.new.way }
    {
        match &mut self.way {
            Way::Lines(lines) => lines.is_at_end(),
            Way::Csv(_) => false,
        }
    }

    /// Reads the next record into `row`; false at the end. Neither a plain line read ahead nor the
    /// text's end needs `csv`.
    pub fn read(&mut self, row: &mut ByteRecord) -> Result<bool, Stopped>
        ensures next { IfOk result (λ found. (left : List (List (List ℕ))) → records_left R.remaining self.old ≡ Some left → GivesNext left found (fields_of row.new) (records_left R.remaining self.new)) }
        ensures goes { OnOk result (stop_of self.new ≡ None) }
        ensures stops { IfErr result (λ why. stop_of self.new ≡ Some why) }
        ensures stopped { (why : Stopped) → stop_of self.old ≡ Some why → result ≡ Err why }
        ensures finds { OnOk result (reads_csv self.new ≡ true → NoLine LONGEST (bytes_ahead self.old)) }
        ensures line { result ≡ Ok true → (bytes : List ℕ) (number : ℕ) → HasRead R.remaining bytes number self.old → HasRead R.remaining bytes (number + 1) self.new }
    {
        match self.peek_line(row) {
            Ok(Some(line)) => {
                self.take_line(line.taken);
                Ok(true)
            }
            Ok(None) if self.is_at_end() => Ok(false),
            Ok(None) => {
                self.turn();
                self.read_csv(row)
            }
            Err(_) => {
                self.turn();
                self.stop(Stopped::Memory)
            }
        }
    }

    // The number of empty lines before the record that begins with the next byte; unknown to `csv`.
    fn empty_ahead(&self) -> Option<u32>
        ensures { (bytes : List ℕ) (number empty : ℕ) → HasTakenBy R.remaining bytes number self.now.way → result ≡ Some empty → BeginsIn bytes (number + 1) (number + 1 + empty) }
    {
        match &self.way {
            Way::Lines(lines) => lines.empty_before(),
            Way::Csv(_) => None,
        }
    }

    // Lets `csv` read from here on.
    fn turn(&mut self)
        ensures same { KeepsRecords (records_left R.remaining self.old) (records_left R.remaining self.new) }
        ensures stop { stop_of self.new ≡ stop_of self.old }
        ensures csv { reads_csv self.new ≡ true }
        ensures line { (bytes : List ℕ) (number empty : ℕ) → HasTakenBy R.remaining bytes number self.old.way → self.new.first ≡ Some empty → BeginsIn bytes (number + 1) (number + 1 + empty) }
    {
        self.first = self.empty_ahead();
        if matches!(self.way, Way::Lines(_)) {
            mem::replace_with(&mut self.way, self.alloc, by_csv);
        }
    }

    // The next record by `csv`.
    fn read_csv(&mut self, row: &mut ByteRecord) -> Result<bool, Stopped>
        requires { reads_csv self.old ≡ true }
        ensures next { IfOk result (λ found. (left : List (List (List ℕ))) → records_left R.remaining self.old ≡ Some left → GivesNext left found (fields_of row.new) (records_left R.remaining self.new)) }
        ensures goes { OnOk result (stop_of self.new ≡ None) }
        ensures stops { IfErr result (λ why. stop_of self.new ≡ Some why) }
        ensures stopped { (why : Stopped) → stop_of self.old ≡ Some why → result ≡ Err why }
        ensures csv { reads_csv self.new ≡ true }
        ensures first { self.new.first ≡ self.old.first }
    {
        match &mut self.way {
            Way::Csv(records) => records.read(row),
            Way::Lines(_) => unreachable!(),
        }
    }

    // Makes each later read fail, for that reason.
    fn stop(&mut self, why: Stopped) -> Result<bool, Stopped>
        requires { reads_csv self.old ≡ true }
        ensures fails { result ≡ Err why }
        ensures stops { stop_of self.new ≡ Some why }
    {
        match &mut self.way {
            Way::Csv(records) => records.stop(why),
            Way::Lines(_) => unreachable!(),
        }
        Err(why)
    }
}
