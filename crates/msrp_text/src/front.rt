//! Plain lines, whose fields are between commas: such a line isn't empty, has no quote, doesn't
//! begin like a byte order mark, is shorter than [`LONGEST`], and ends with LF, CR or CRLF.
ghost use Rattle.std.specs.Prelude.{◌≡◌, ◌==◌, ◌&&◌, ◌||◌, ◌≤◌, ◌<◌, ◌+◌, ◌⊎◌, ◌++◌, ◌∷◌};
ghost use Rattle.msrp_plan.specs.Common.{codes, ℕ, List, [], Some, IfOk, IsSome, true, false, slice_index, length, take, drop};
ghost use Rattle.std.specs.Option.{IfSome};
ghost use Rattle.csv.specs.Records.{fields_of, partial_of};
ghost use Rattle.msrp_text.specs.Plain.{BeginsWith, BeginsWithDigit, EndsLine, Stands, is_plain, split_commas};

use csv::ByteRecord;
use std::alloc::AllocError;

// `csv` reads lines this long or longer. No line of a plan or a trace is so long.
pub(crate) const LONGEST: usize = 256;

// No row of a trace, as it is written, has so many bytes with its line end.
pub(crate) const ROW: usize = 96;

// The first byte of a byte order mark. `csv` reads a line that begins with it.
pub(crate) const MARK: u8 = 0xEF;

/// A plain line at the front of a text.
#[derive(Clone, Copy, Debug, PartialEq, Eq)]
pub(crate) struct PlainLine {
    /// Its bytes, without its end.
    pub(crate) length: usize,
    /// Its bytes with its end. If the end so far is a CR, an LF may follow.
    pub(crate) taken: usize,
}

/// The front of a text that may continue.
#[derive(Clone, Copy, Debug, PartialEq, Eq)]
pub(crate) enum Front {
    /// A plain line.
    Line(PlainLine),
    /// The start of a line that may be plain.
    Part,
    /// Anything else.
    Other,
}

// The line of that length, whose last field begins at `start` and isn't in `row` yet.
fn line_to(
    text: &[u8],
    start: usize,
    at: usize,
    taken: usize,
    row: &mut ByteRecord,
) -> Result<Front, AllocError>
    requires inside { at < taken }
    requires within { taken ≤ length text.now }
    requires ended { EndsLine (take at text.now) (take taken text.now) }
    requires start { start ≤ at }
    requires plain { is_plain (take at text.now) ≡ true }
    requires whole { partial_of row.old ≡ [] }
    requires fields { split_commas (take at text.now) ≡ fields_of row.old ++ (drop start (take at text.now) ∷ []) }
    ensures { IfOk result (λ front. Stands text.now (fields_of row.new) front) }
{
    row.push_field(&text[start..at])?;
    Ok(Front::Line(PlainLine { length: at, taken }))
}

// The front of a text whose first line ends at a line feed or a carriage return.
fn front_to(text: &[u8], start: usize, at: usize, row: &mut ByteRecord) -> Result<Front, AllocError>
    requires within { at < length text.now }
    requires end { (slice_index text.now at ≡ 10) ⊎ (slice_index text.now at ≡ 13) }
    requires start { start ≤ at }
    requires plain { 0 < at → is_plain (take at text.now) ≡ true }
    requires whole { partial_of row.old ≡ [] }
    requires fields { split_commas (take at text.now) ≡ fields_of row.old ++ (drop start (take at text.now) ∷ []) }
    ensures { IfOk result (λ front. Stands text.now (fields_of row.new) front) }
{
    if at == 0 {
        return Ok(Front::Other);
    }
    if text[at] == b'\r' && at + 1 < text.len() && text[at + 1] == b'\n' {
        return line_to(text, start, at, at + 2, row);
    }
    line_to(text, start, at, at + 1, row)
}

// Whether no plain line has this byte here: a quote, or at the start a byte order mark's.
fn is_other(byte: u8, at: usize) -> bool
    ensures { result ≡ ((byte == 34) || ((at == 0) && (byte == 239))) }
{
    byte == b'"' || (at == 0 && byte == MARK)
}

// Whether a byte is surely inside a field, wherever it is: it is above the comma, as most are.
fn is_inside(byte: u8) -> bool
    ensures above { result ≡ true → 44 < byte }
    ensures first { result ≡ true → (byte == 239) ≡ false }
{
    byte > b',' && byte != MARK
}

/// The front of a text. Puts the fields of a plain line into `row`.
pub(crate) fn front_of(text: &[u8], row: &mut ByteRecord) -> Result<Front, AllocError>
    ensures { IfOk result (λ front. Stands text.now (fields_of row.new) front) }
{
    row.clear();
    let mut start = 0;
    for at in 0..text.len().min(LONGEST) {
        let byte = text[at];
        if is_inside(byte) {
            continue;
        }
        if byte == b'\n' || byte == b'\r' {
            return front_to(text, start, at, row);
        }
        if is_other(byte, at) {
            return Ok(Front::Other);
        }
        if byte == b',' {
            row.push_field(&text[start..at])?;
            start = at + 1;
        }
    }
    if text.len() < LONGEST {
        Ok(Front::Part)
    } else {
        Ok(Front::Other)
    }
}

// Whether two chunks are equal, by one comparison of numbers.
#[inline(always)]
fn is_same_4(chunk: &[u8; 4], other: &[u8; 4]) -> bool
    ensures same { result ≡ true → chunk.now ≡ other.now }
    ensures finds { chunk.now ≡ other.now → result ≡ true }
{
    u32::from_le_bytes(*chunk) == u32::from_le_bytes(*other)
}

// Whether two chunks are equal, by one comparison of numbers.
#[inline(always)]
fn is_same_8(chunk: &[u8; 8], other: &[u8; 8]) -> bool
    ensures same { result ≡ true → chunk.now ≡ other.now }
    ensures finds { chunk.now ≡ other.now → result ≡ true }
{
    u64::from_le_bytes(*chunk) == u64::from_le_bytes(*other)
}

// Whether two texts of the same length, 4 to 8 bytes, are equal: their first and last chunks are.
#[inline(always)]
fn is_short_same(text: &[u8], other: &[u8]) -> bool
    requires length { length text.now ≡ length other.now }
    requires one { 4 ≤ length text.now }
    requires two { length text.now ≤ 8 }
    ensures same { result ≡ true → text.now ≡ other.now }
    ensures finds { text.now ≡ other.now → result ≡ true }
{
    let (Some(first), Some(same_first)) = (text.first_chunk::<4>(), other.first_chunk::<4>()) else {
        return false;
    };
    let (Some(last), Some(same_last)) = (text.last_chunk::<4>(), other.last_chunk::<4>()) else {
        return false;
    };
    // Both are compared, without a branch in between.
    is_same_4(first, same_first) & is_same_4(last, same_last)
}

// Whether two texts of the same length, 8 to 16 bytes, are equal.
#[inline(always)]
fn is_same(text: &[u8], other: &[u8]) -> bool
    requires length { length text.now ≡ length other.now }
    requires one { 8 ≤ length text.now }
    requires two { length text.now ≤ 16 }
    ensures same { result ≡ true → text.now ≡ other.now }
    ensures finds { text.now ≡ other.now → result ≡ true }
{
    let (Some(first), Some(same_first)) = (text.first_chunk::<8>(), other.first_chunk::<8>()) else {
        return false;
    };
    let (Some(last), Some(same_last)) = (text.last_chunk::<8>(), other.last_chunk::<8>()) else {
        return false;
    };
    // Both are compared, without a branch in between.
    is_same_8(first, same_first) & is_same_8(last, same_last)
}

// Whether two texts of the same length, 16 to 32 bytes, are equal.
#[inline(always)]
fn is_long_same(text: &[u8], other: &[u8]) -> bool
    requires length { length text.now ≡ length other.now }
    requires one { 16 ≤ length text.now }
    requires two { length text.now ≤ 32 }
    ensures same { result ≡ true → text.now ≡ other.now }
    ensures finds { text.now ≡ other.now → result ≡ true }
{
    let last = text.len() - 16;
    is_same(&text[..16], &other[..16]) & is_same(&text[last..], &other[last..])
}

// Whether two texts of the same length, 32 to 64 bytes, are equal.
#[inline(always)]
fn is_longest_same(text: &[u8], other: &[u8]) -> bool
    requires length { length text.now ≡ length other.now }
    requires one { 32 ≤ length text.now }
    requires two { length text.now ≤ 64 }
    ensures same { result ≡ true → text.now ≡ other.now }
    ensures finds { text.now ≡ other.now → result ≡ true }
{
    let last = text.len() - 32;
    // The end first, so that this isn't merged with a shorter text's comparison.
    is_long_same(&text[last..], &other[last..]) & is_long_same(&text[..32], &other[..32])
}

// Whether a text begins with another; without a call if that has 4 to 8 bytes, as most ticks have.
#[inline(always)]
pub(crate) fn begins_with(text: &[u8], front: &[u8]) -> bool
    ensures begins { result ≡ true → (after : List ℕ) × (text.now ≡ front.now ++ after) }
    ensures finds { (after : List ℕ) → text.now ≡ front.now ++ after → result ≡ true }
{
    let count = front.len();
    if count < 4 || count > 8 {
        return text.starts_with(front);
    }
    if text.len() < count {
        return false;
    }
    is_short_same(&text[..count], front)
}

// Whether a text begins with another; without a call if that has 8 to 64 bytes.
#[inline(always)]
fn begins_with_any(text: &[u8], front: &[u8]) -> bool
    ensures begins { result ≡ true → (after : List ℕ) × (text.now ≡ front.now ++ after) }
    ensures finds { (after : List ℕ) → text.now ≡ front.now ++ after → result ≡ true }
{
    let count = front.len();
    if count < 8 || count > 64 {
        return text.starts_with(front);
    }
    if text.len() < count {
        return false;
    }
    let text = &text[..count];
    if count <= 16 {
        if !is_same(text, front) {
            return false;
        }
    } else if count <= 32 {
        if !is_long_same(text, front) {
            return false;
        }
    } else if !is_longest_same(text, front) {
        return false;
    }
    true
}

// The same, soonest if the other has 17 to 32 bytes, as most rows have.
#[inline(always)]
pub(crate) fn begins_with_long(text: &[u8], front: &[u8]) -> bool
    ensures begins { result ≡ true → (after : List ℕ) × (text.now ≡ front.now ++ after) }
    ensures finds { (after : List ℕ) → text.now ≡ front.now ++ after → result ≡ true }
{
    let count = front.len();
    if count <= 16 || count > 32 {
        return begins_with_any(text, front);
    }
    if text.len() < count {
        return false;
    }
    if !is_long_same(&text[..count], front) {
        return false;
    }
    true
}

/// Whether a text ends with a line feed.
#[inline(always)]
pub(crate) fn ends_line(text: &[u8]) -> bool
    ensures ended { result ≡ true → (rest : List ℕ) × (text.now ≡ rest ++ codes "\n") }
    ensures finds { (rest : List ℕ) → text.now ≡ rest ++ codes "\n" → result ≡ true }
{
    text.ends_with(b"\n")
}

/// The bytes of a whole line with its end, if it is at the front of a text that has its first part.
pub(crate) fn line_behind(text: &[u8], front: &[u8], rest: &[u8]) -> Option<usize>
    requires { (after : List ℕ) × (text.now ≡ front.now ++ after) }
    ensures line { IfSome result (λ taken. (0 < taken) × (taken ≤ length text.now) × EndsLine (front.now ++ rest.now) (take taken text.now)) }
    ensures finds { BeginsWith (front.now ++ rest.now) text.now → IsSome result }
{
    let middle = &text[front.len()..];
    if !begins_with_long(middle, rest) {
        return None;
    }
    let end = &middle[rest.len()..];
    let length = front.len() + rest.len();
    if end.starts_with(b"\n") {
        return Some(length + 1);
    }
    if end.starts_with(b"\r\n") {
        return Some(length + 2);
    }
    if end.starts_with(b"\r") {
        return Some(length + 1);
    }
    None
}

/// The digit that is a text's second field, after that first field, each with a comma after it.
#[inline(always)]
pub(crate) fn digit_after(text: &[u8], first: &[u8]) -> Option<u8>
    ensures digit { IfSome result (λ digit. BeginsWithDigit first.now digit text.now) }
    ensures finds { (digit : ℕ) → BeginsWithDigit first.now digit text.now → result ≡ Some digit }
{
    if text.len() < first.len() + 3 {
        return None;
    }
    if !begins_with(text, first) {
        return None;
    }
    let rest = &text[first.len()..];
    if rest[0] == b',' && rest[1].is_ascii_digit() && rest[2] == b',' {
        return Some(rest[1]);
    }
    None
}
