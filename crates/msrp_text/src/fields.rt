//! The fields of a record: words, numbers and names.
ghost use Rattle.std.specs.Prelude.{◌≡◌};
ghost use Rattle.msrp_plan.specs.Common.{list_all, is_ascii_digit};
ghost use Rattle.csv.specs.Records.{fields_of};
ghost use Rattle.msrp_text.specs.Fields.{has_word, is_number, name_at, number_at, number_of, text_of};

use csv::ByteRecord;
use std::str;

/// Whether the field at an index, from 0, is that word.
pub fn has_word(row: &ByteRecord, i: usize, word: &[u8]) -> bool
    ensures { result ≡ has_word (fields_of row.now) i word.now }
{
    match row.get(i) {
        Some(field) => field == word,
        None => false,
    }
}

/// The number in the field at an index, if it is one.
pub fn number_at(row: &ByteRecord, i: usize) -> Option<u32>
    ensures { result ≡ number_at (fields_of row.now) i }
{
    match row.get(i) {
        Some(field) => number_of(field),
        None => None,
    }
}

/// The name in the field at an index; empty, so no name, if the field is missing or isn't UTF-8.
pub fn name_at(row: &ByteRecord, i: usize) -> &str
    ensures { result.now ≡ name_at (fields_of row.now) i }
{
    match row.get(i) {
        Some(field) => text_of(field),
        None => "",
    }
}

/// The text of a field; empty if it isn't UTF-8.
pub(crate) fn text_of(field: &[u8]) -> &str
    ensures { result.now ≡ text_of field.now }
{
    match str::from_utf8(field) {
        Ok(text) => text,
        Err(_) => "",
    }
}

/// The number that a text denotes: `0`, or one to nine digits, the first not 0.
pub fn number_of(text: &[u8]) -> Option<u32>
    ensures { result ≡ number_of text.now }
{
    if !is_number(text) {
        return None;
    }
    let mut number = 0u32;
    for digit in text {
        number = number * 10 + u32::from(*digit - b'0');
    }
    Some(number)
}

// Whether a text is a number.
fn is_number(text: &[u8]) -> bool
    ensures { result ≡ is_number text.now }
{
    1 <= text.len() && text.len() <= 9 && (text.len() == 1 || text[0] != b'0') && are_digits(text)
}

// Whether each byte is a decimal digit.
fn are_digits(text: &[u8]) -> bool
    ensures { result ≡ list_all is_ascii_digit text.now }
{
    text.iter().all(|byte| byte.is_ascii_digit())
}
