//! Short text in a fixed array: copied whole, with lengths known to the compiler.
ghost use Rattle.std.specs.Prelude.{◌≡◌, ◌≤◌, ◌<◌, ◌+◌, ◌-◌, ◌++◌, ◌∷◌};
ghost use Rattle.msrp_plan.specs.Common.{ℕ, [], decimal, length, slice_index, take};
ghost use Rattle.msrp_trace.specs.Gathering.{next_field};

use itoa::Buffer;
use std::marker::Model;
use std::simd::{u8x16, u8x32};

// Most texts of a longer type aren't longer.
const SHORT: usize = 48;

/// A text of at most `N` bytes.
#[derive(Drop)]
pub(crate) struct Text<const N: usize> {
    bytes: [u8; N],
    // The number of bytes of the text. The bytes after them mean nothing.
    len: usize,
}

impl<const N: usize> Model for Text<N> {
    ghost use Rattle.std.specs.Prelude.{ℕ, List, ◌≤◌, take};

    ghost Value = { List ℕ };

    ghost view = { λ t. take t.len t.bytes };

    ghost invariant = { λ t. t.len ≤ N };
}

// Writes bytes into an array, from an index on.
#[inline(always)]
fn lay(array: &mut [u8], place: usize, bytes: &[u8])
    requires { place + length bytes.now ≤ length array.old }
    ensures front { take (place + length bytes.now) array.new ≡ take place array.old ++ bytes.now }
    ensures size { length array.new ≡ length array.old }
{
    let end = place + bytes.len();
    array[place..end].copy_from_slice(bytes);
}

// Writes the first 48 of these bytes into an array from an index on, in two pieces.
#[inline(always)]
fn lay_short(array: &mut [u8], place: usize, bytes: &[u8])
    requires some { SHORT ≤ length bytes.now }
    requires room { place + SHORT ≤ length array.old }
    ensures front { take (place + SHORT) array.new ≡ take place array.old ++ take SHORT bytes.now }
    ensures size { length array.new ≡ length array.old }
{
    u8x32::from_slice(bytes).copy_to_slice(&mut array[place..]);
    u8x16::from_slice(&bytes[32..]).copy_to_slice(&mut array[place + 32..]);
}

// Writes a text into an array from an index on, with room for the longest one of its type: so the
// copy has one of two lengths.
#[inline(always)]
fn lay_text<const M: usize>(array: &mut [u8], place: usize, text: &Text<M>)
    requires { place + M ≤ length array.old }
    ensures front { take (place + length text.now) array.new ≡ take place array.old ++ text.now }
    ensures size { length array.new ≡ length array.old }
{
    if SHORT < M {
        lay_short(array, place, &text.bytes);
        if text.len > SHORT {
            // Taken out first, so that no check for an overlap is needed.
            let bytes = text.bytes;
            let all = &bytes[..];
            lay(array, place + SHORT, &all[SHORT..]);
        }
    } else {
        let bytes = text.bytes;
        lay(array, place, &bytes);
    }
}

impl<const N: usize> Text<N> {
    /// The empty text.
    pub(crate) fn new() -> Text<N>
        ensures { result ≡ [] }
    {
        Text {
            bytes: [0; N],
            len: 0,
        }
    }

    /// The first bytes of these.
    #[inline(always)]
    pub(crate) fn first(bytes: &[u8; N], len: usize) -> Text<N>
        requires { len ≤ N }
        ensures { result ≡ take len bytes.now }
    {
        Text { bytes: *bytes, len }
    }

    /// The text.
    pub(crate) fn as_bytes(&self) -> &[u8]
        ensures { result.now ≡ self.now }
    {
        &self.bytes[..self.len]
    }

    /// The number of its bytes.
    pub(crate) fn len(&self) -> usize
        ensures { result ≡ length self.now }
    {
        self.len
    }

    /// Removes everything.
    pub(crate) fn clear(&mut self)
        ensures { self.new ≡ [] }
    {
        self.len = 0;
    }

    /// The last byte.
    pub(crate) fn last(&self) -> u8
        requires { 0 < length self.now }
        ensures { result ≡ slice_index self.now (length self.now - 1) }
    {
        self.bytes[self.len - 1]
    }

    /// Replaces the last byte.
    pub(crate) fn set_last(&mut self, byte: u8)
        requires { 0 < length self.old }
        ensures { self.new ≡ take (length self.old - 1) self.old ++ byte ∷ [] }
    {
        self.bytes[self.len - 1] = byte;
    }

    /// Adds bytes, for which there is room.
    #[inline(always)]
    pub(crate) fn add(&mut self, bytes: &[u8])
        requires { length self.old + length bytes.now ≤ N }
        ensures text { self.new ≡ self.old ++ bytes.now }
        ensures size { length self.new ≡ length self.old + length bytes.now }
    {
        let len = self.len;
        lay(&mut self.bytes, len, bytes);
        self.len = len + bytes.len();
    }

    /// Adds another text; there is room for the longest one of its type.
    #[inline(always)]
    pub(crate) fn add_text<const M: usize>(&mut self, text: &Text<M>)
        requires { length self.old + M ≤ N }
        ensures text { self.new ≡ self.old ++ text.now }
        ensures size { length self.new ≤ length self.old + M }
        ensures length { length self.new ≡ length self.old + length text.now }
    {
        let len = self.len;
        lay_text(&mut self.bytes, len, text);
        self.len = len + text.len;
    }

    // Adds a number of any length.
    #[inline(never)]
    fn digits(&mut self, number: u32)
        requires { length self.old + 10 ≤ N }
        ensures text { self.new ≡ self.old ++ decimal number }
        ensures size { length self.new ≤ length self.old + 10 }
    {
        let mut digits = Buffer::new();
        self.add(digits.format(number).as_bytes());
    }

    /// Adds a number. One digit, the usual case, is written in place.
    #[inline(always)]
    #[tactic(auto, using(std::proofs::lemmas::Fmt::decimal_digit))]
    pub(crate) fn number(&mut self, number: u32)
        requires { length self.old + 10 ≤ N }
        ensures text { self.new ≡ self.old ++ decimal number }
        ensures size { length self.new ≤ length self.old + 10 }
    {
        if number < 10 {
            self.add(&[b'0' + number as u8]);
        } else {
            self.digits(number);
        }
    }

    /// Adds a further field of a record, after a comma.
    #[inline(always)]
    pub(crate) fn next(&mut self, field: &[u8])
        requires { length self.old + length field.now < N }
        ensures text { self.new ≡ self.old ++ next_field field.now }
        ensures size { length self.new ≡ length self.old + length field.now + 1 }
    {
        self.add(b",");
        self.add(field);
    }

    /// Adds a further field that is a number.
    #[inline(always)]
    pub(crate) fn next_number(&mut self, number: u32)
        requires { length self.old + 11 ≤ N }
        ensures text { self.new ≡ self.old ++ next_field (decimal number) }
        ensures size { length self.new ≤ length self.old + 11 }
    {
        self.add(b",");
        self.number(number);
    }
}
