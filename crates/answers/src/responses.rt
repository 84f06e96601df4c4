//! The text of a response, and its status.
ghost use Rattle.std.specs.Prelude.{◌≡◌, IfOk, OnOk};
ghost use Rattle.service.specs.Asked.{response_data};
ghost use Rattle.answers.specs.Texts.{reply_status};
ghost use Rattle.answers.specs.Responses.{response_json, body, status};
ghost use Rattle.answers.specs.Writing.{Adds, tokens_of};

use crate::pages::page;
use crate::values;
use book::Reply;
use json::Writer;
use service::Response;
use std::alloc::{AllocError, Global};

/// For how many bytes of a body memory is taken at first: all but a page and some readings have fewer.
const ROOM: usize = 192;

fn reply_status(reply: Reply) -> u16
    ensures { result ≡ reply_status reply }
{
    match reply {
        Reply::Refused(number) => number.status(),
        _ => 200,
    }
}

/// The HTTP status of a response (RFC 9110, section 15): 200 for a success, else that of the refusal.
pub fn status(response: &Response) -> u16
    ensures { result ≡ status (response_data response.now) }
{
    match response {
        Response::Reply(reply) => reply_status(*reply),
        Response::Reading(_) | Response::Page { .. } | Response::HandedOut(_) => 200,
        Response::ProgramRefused(refusal) => refusal.number.status(),
    }
}

/// Writes a response as a JSON value.
pub(crate) fn put_response(out: &mut Writer, response: &Response) -> Result<(), AllocError>
    ensures { OnOk result (Adds (tokens_of (response_json (response_data response.now))) out.old out.new) }
{
    match response {
        Response::Reply(reply) => values::reply(out, *reply),
        Response::Reading(reading) => values::reading(out, reading),
        Response::Page { from, entries } => page(out, entries, *from),
        Response::HandedOut(entries) => values::handed_out(out, entries.len() as u64),
        Response::ProgramRefused(refusal) => values::program_refusal(out, *refusal),
    }
}

/// Writes the body of a response: compact JSON (RFC 8259) with its keys in ascending byte order. The body of a page has
/// its entries, each with what happened, when, and what was answered, and the number from which the next page goes on.
/// Of the entries that a cut or a roll hands out, the body has the count alone. The only error is want of memory.
pub fn body(alloc: Global, response: &Response) -> Result<Vec<u8>, AllocError>
    ensures { IfOk result (λ text. text.items ≡ body (response_data response.now)) }
{
    let mut out = Writer::new(Vec::with_capacity(alloc, ROOM)?);
    put_response(&mut out, response)?;
    Ok(out.into_inner())
}
