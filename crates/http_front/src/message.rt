//! The text of an answer over HTTP.
ghost use Rattle.std.specs.Prelude.{◌≡◌, ◌++◌, length, IfOk, OnOk, OnErr, string_bytes};
ghost use Rattle.http_front.specs.Messages.{status_line, field, allow_field, close_field};
ghost use Rattle.http_front.specs.AnswerTexts.{answer_data, head_of, body_of, answer_text};

use crate::phrase::phrase_of;
use http_routes::Route;
use itoa::Buffer;
use std::alloc::{AllocError, Global};

/// An answer over HTTP: a status line, fields and a body of JSON.
#[derive(Clone, Copy, Debug)]
pub struct AnswerMessage<'a> {
    /// The status code (RFC 9110, section 15).
    pub status: u16,
    /// The body.
    pub body: &'a [u8],
    /// Where a route was asked with another method: the route whose method is allowed.
    pub allow: Option<Route>,
    /// Whether the connection ends after this answer.
    pub closes: bool,
    /// Whether a `HEAD` is answered, so that the head comes alone (RFC 9110, section 9.3.2).
    pub head_only: bool,
}

/// For how many bytes of a head memory is taken at first: few heads have more.
const ROOM: usize = 160;

/// The status line (RFC 9112, section 4), with room for the fields.
fn status_line(alloc: Global, status: u16) -> Result<String, AllocError>
    ensures { IfOk result (λ text. string_bytes text ≡ status_line status) }
{
    let mut digits = Buffer::new();
    let mut head = String::with_capacity(alloc, ROOM)?;
    head.push_str("HTTP/1.1 ")?;
    head.push_str(digits.format(status))?;
    head.push_str(" ")?;
    head.push_str(phrase_of(status))?;
    head.push_str("\r\n")?;
    Ok(head)
}

/// Adds a field's line.
fn add_field(head: &mut String, name: &str, value: &str) -> Result<(), AllocError>
    ensures { OnOk result (string_bytes head.new ≡ string_bytes head.old ++ field name.now value.now) }
{
    head.push_str(name)?;
    head.push_str(": ")?;
    head.push_str(value)?;
    head.push_str("\r\n")
}

/// Adds the method that is allowed.
fn add_allow(head: &mut String, allow: Option<Route>) -> Result<(), AllocError>
    ensures { OnOk result (string_bytes head.new ≡ string_bytes head.old ++ allow_field allow) }
{
    match allow {
        Some(route) => add_field(head, "Allow", route.method()),
        None => Ok(()),
    }
}

/// Adds that the connection ends.
fn add_close(head: &mut String, closes: bool) -> Result<(), AllocError>
    ensures { OnOk result (string_bytes head.new ≡ string_bytes head.old ++ close_field closes) }
{
    if closes {
        return add_field(head, "Connection", "close");
    }
    Ok(())
}

/// The head, with the empty line behind it.
fn head_of(alloc: Global, answer: &AnswerMessage<'_>) -> Result<String, AllocError>
    ensures { IfOk result (λ text. string_bytes text ≡ head_of (answer_data answer.now)) }
{
    let mut digits = Buffer::new();
    let mut head = status_line(alloc, answer.status)?;
    add_field(&mut head, "Content-Type", "application/json")?;
    add_field(
        &mut head,
        "Content-Length",
        digits.format(answer.body.len()),
    )?;
    add_allow(&mut head, answer.allow)?;
    add_close(&mut head, answer.closes)?;
    head.push_str("\r\n")?;
    Ok(head)
}

/// What follows the head.
fn body_of<'a>(answer: &AnswerMessage<'a>) -> &'a [u8]
    ensures { result.now ≡ body_of (answer_data answer.now) }
{
    if answer.head_only { b"" } else { answer.body }
}

/// Writes an answer behind the text that is there (RFC 9112, section 4). The error is want of memory; then
/// the text is as before.
pub fn write_answer(
    alloc: Global,
    text: &mut Vec<u8>,
    answer: &AnswerMessage<'_>,
) -> Result<(), AllocError>
    ensures written { OnOk result (text.new.items ≡ text.old.items ++ answer_text (answer_data answer.now)) }
    ensures unchanged { OnErr result (text.new.items ≡ text.old.items) }
{
    let head = head_of(alloc, answer)?;
    let body = body_of(answer);
    text.reserve(head.len() + body.len())?;
    text.extend_from_slice(head.as_bytes())?;
    text.extend_from_slice(body)
}
