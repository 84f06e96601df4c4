//! The length of a body.
ghost use Rattle.std.specs.Prelude.{◌≡◌, length, map, All, None};
ghost use Rattle.httparse.specs.Spans.{IsHeaderWithin, header_bytes};
ghost use Rattle.http_messages.specs.Lengths.{decimal_of, agrees, with_field, length_from};

use crate::fields::has_name;
use httparse::spans::HeaderSpan;
use std::str;

/// The number that a text writes in decimal digits (RFC 9110, section 8.6): one digit or more, and
/// nothing else, no sign either. None where it writes none, or one of 2^64 or more.
pub fn decimal(text: &[u8]) -> Option<u64>
    ensures { result ≡ decimal_of text.now }
{
    let Ok(text) = str::from_utf8(text) else {
        return None;
    };
    if text.starts_with('+') {
        return None;
    }
    match text.parse::<u64>() {
        Ok(number) => Some(number),
        Err(_) => None,
    }
}

fn agrees(seen: Option<u64>, number: u64) -> bool
    ensures { result ≡ agrees seen number }
{
    match seen {
        None => true,
        Some(other) => other == number,
    }
}

/// What is known of the length with one field more.
fn with_field(bytes: &[u8], field: &HeaderSpan, seen: Option<u64>) -> Option<Option<u64>>
    requires { IsHeaderWithin (length bytes.now) field.now }
    ensures { result ≡ with_field seen (header_bytes bytes.now field.now) }
{
    if !has_name(field.name.of(bytes), b"content-length") {
        return Some(seen);
    }
    let number = decimal(field.value.of(bytes))?;
    if agrees(seen, number) {
        Some(Some(number))
    } else {
        None
    }
}

/// The length that the fields give, if any does; None where one is no number, or two differ as numbers.
#[tactic(auto, unfolding(crate::specs::Lengths::length_from))]
pub(crate) fn content_length(bytes: &[u8], fields: &[HeaderSpan]) -> Option<Option<u64>>
    requires { All (IsHeaderWithin (length bytes.now)) fields.now }
    ensures { result ≡ length_from None (map (header_bytes bytes.now) fields.now) }
{
    let mut seen = None;
    for field in fields {
        seen = with_field(bytes, field, seen)?;
    }
    Some(seen)
}
