//! Numbers of up to 19 digits, as times in ns are.
ghost use Rattle.std.specs.Prelude.{◌≡◌};
ghost use Rattle.msrp_plan.specs.Common.{list_all, is_ascii_digit};
ghost use Rattle.csv.specs.Records.{fields_of};
ghost use Rattle.msrp_event_text.specs.Numbers.{is_long_number, long_number_of, long_number_at, optional_number_at};

use csv::ByteRecord;
use msrp_text::fields::has_word;

// Whether each byte is a decimal digit.
fn are_digits(text: &[u8]) -> bool
    ensures { result ≡ list_all is_ascii_digit text.now }
{
    text.iter().all(|byte| byte.is_ascii_digit())
}

fn is_long_number(text: &[u8]) -> bool
    ensures { result ≡ is_long_number text.now }
{
    1 <= text.len() && text.len() <= 19 && (text.len() == 1 || text[0] != b'0') && are_digits(text)
}

// The number that a text writes: `0`, or one to 19 digits, the first of them not 0.
fn long_number_of(text: &[u8]) -> Option<u64>
    ensures { result ≡ long_number_of text.now }
{
    if !is_long_number(text) {
        return None;
    }
    let mut number = 0u64;
    for digit in text {
        number = number * 10 + u64::from(*digit - b'0');
    }
    Some(number)
}

/// The number that a record has at a place, if there is one.
pub(crate) fn long_number_at(fields: &ByteRecord, i: usize) -> Option<u64>
    ensures { result ≡ long_number_at (fields_of fields.now) i }
{
    match fields.get(i) {
        Some(field) => long_number_of(field),
        None => None,
    }
}

/// The number that a record has at a place where the field may be empty.
pub(crate) fn optional_number_at(fields: &ByteRecord, i: usize) -> Option<Option<u64>>
    ensures { result ≡ optional_number_at (fields_of fields.now) i }
{
    if has_word(fields, i, b"") {
        return Some(None);
    }
    match long_number_at(fields, i) {
        Some(number) => Some(Some(number)),
        None => None,
    }
}
