//! What the fields of a head say.
ghost use Rattle.std.specs.Prelude.{◌≡◌, ◌==◌, ◌||◌, length, map, All};
ghost use Rattle.std.specs.List.{list_any};
ghost use Rattle.std.specs.Char.{to_ascii_lowercase};
ghost use Rattle.httparse.specs.Spans.{IsHeaderWithin, header_bytes};
ghost use Rattle.http_messages.specs.Lengths.{is_named};
ghost use Rattle.http_messages.specs.Fields.{is_transfer_coding, is_close, body_size, size_of, within_limit};

use crate::lengths::content_length;
use httparse::spans::HeaderSpan;
use refusals::RefusalNumber;

/// How many fields a head may have.
const FIELD_LIMIT: usize = 32;

/// How many bytes a body may have.
const BODY_LIMIT: u64 = 65_536;

/// Whether a name, or a value, is this one, in letters of either case. It is given in lower case.
pub(crate) fn has_name(name: &[u8], wanted: &[u8]) -> bool
    requires lower { map to_ascii_lowercase wanted.now ≡ wanted.now }
    ensures { result ≡ is_named wanted.now name.now }
{
    name.eq_ignore_ascii_case(wanted)
}

fn is_transfer_coding(bytes: &[u8], field: &HeaderSpan) -> bool
    requires { IsHeaderWithin (length bytes.now) field.now }
    ensures { result ≡ is_transfer_coding (header_bytes bytes.now field.now) }
{
    has_name(field.name.of(bytes), b"transfer-encoding")
}

fn is_close(bytes: &[u8], field: &HeaderSpan) -> bool
    requires { IsHeaderWithin (length bytes.now) field.now }
    ensures { result ≡ is_close (header_bytes bytes.now field.now) }
{
    has_name(field.name.of(bytes), b"connection") && has_name(field.value.of(bytes), b"close")
}

fn has_transfer_coding(bytes: &[u8], fields: &[HeaderSpan]) -> bool
    requires { All (IsHeaderWithin (length bytes.now)) fields.now }
    ensures { result ≡ list_any is_transfer_coding (map (header_bytes bytes.now) fields.now) }
{
    for field in fields {
        if is_transfer_coding(bytes, field) {
            return true;
        }
    }
    false
}

/// Whether a field asks that the connection ends.
pub(crate) fn asks_to_close(bytes: &[u8], fields: &[HeaderSpan]) -> bool
    requires { All (IsHeaderWithin (length bytes.now)) fields.now }
    ensures { result ≡ list_any is_close (map (header_bytes bytes.now) fields.now) }
{
    for field in fields {
        if is_close(bytes, field) {
            return true;
        }
    }
    false
}

fn within_limit(size: u64) -> Result<u64, RefusalNumber>
    ensures { result ≡ within_limit size }
{
    if size > BODY_LIMIT {
        return Err(RefusalNumber::BodyTooLarge);
    }
    Ok(size)
}

/// How many bytes the body has, or the first reason why the fields are refused.
pub(crate) fn body_size(bytes: &[u8], fields: &[HeaderSpan]) -> Result<u64, RefusalNumber>
    requires { All (IsHeaderWithin (length bytes.now)) fields.now }
    ensures { result ≡ body_size (map (header_bytes bytes.now) fields.now) }
{
    if fields.len() > FIELD_LIMIT {
        return Err(RefusalNumber::HeadTooLarge);
    }
    if has_transfer_coding(bytes, fields) {
        return Err(RefusalNumber::TransferCoding);
    }
    match content_length(bytes, fields) {
        Some(seen) => within_limit(seen.unwrap_or(0)),
        None => Err(RefusalNumber::BadContentLength),
    }
}
