//! The front of a message.
ghost use Rattle.std.specs.Prelude.{◌≡◌, ◌≤◌, All, length, map, take, vec_len};
ghost use Rattle.http_messages.specs.Heads.{field_room, searched};
ghost use Rattle.http_messages.specs.Fields.{is_head_method};
ghost use Rattle.http_messages.specs.Messages.{no_head};
ghost use Rattle.http_messages.specs.Fronts.{IsFront, front_of};
ghost use Rattle.httparse.specs.Spans.{IsHeaderWithin, IsWithin, header_bytes};

use crate::fields::{asks_to_close, body_size};
use httparse::Status;
use httparse::spans::{EMPTY_HEADER_SPAN, HeaderSpan, RequestSpans, Span, parse_request};
use refusals::RefusalNumber;
use std::alloc::{AllocError, Global};

/// How many bytes of a message are searched for its head.
pub const HEAD_LIMIT: usize = 8_192;

/// How many fields the search has room for.
const FIELD_ROOM: usize = 4_096;

/// The head of a message whose fields are not refused: offsets into the bytes that it was found in.
#[derive(Clone, Copy, Debug, PartialEq, Eq)]
pub struct Head {
    /// The method, as GET.
    pub method: Span,
    /// The request target (RFC 9112, section 3.2), which is UTF-8.
    pub target: Span,
    /// How many bytes the head has, with the empty line that ends it: from 16 to 8,192.
    pub size: usize,
    /// How many bytes the body has, right behind the head: at most 65,536.
    pub body: usize,
    /// Whether no further read is made behind the message: it is one of HTTP/1.0, or has the field
    /// `Connection: close`.
    pub closes: bool,
}

/// Why a message is refused. No further read is made behind it.
#[derive(Clone, Copy, Debug, PartialEq, Eq)]
pub struct Fault {
    /// `BadHead`, `HeadTooLarge`, `TransferCoding`, `BadContentLength` or `BodyTooLarge`, the first of them.
    pub number: RefusalNumber,
    /// Whether there is a method and it is HEAD, so that the answer has no body.
    pub to_head: bool,
}

/// What the first bytes of a message say of it.
#[derive(Clone, Copy, Debug, PartialEq, Eq)]
pub enum Front {
    /// A whole head, and its fields are not refused.
    Whole(Head),
    /// The message is refused, whatever comes behind the bytes.
    Refused(Fault),
    /// Not yet a head: more bytes are needed.
    Part,
}

/// Finds heads, with room for their fields that is taken once.
#[derive(Drop)]
pub struct HeadParser {
    spans: Vec<HeaderSpan>,
    ghost room: { vec_len spans ≡ field_room },
}

fn at_most(bytes: &[u8], limit: usize) -> &[u8]
    ensures value { result.now ≡ take limit bytes.now }
    ensures short { length result.now ≤ limit }
{
    if bytes.len() <= limit {
        bytes
    } else {
        &bytes[..limit]
    }
}

/// Whether a method is `HEAD`, to which a head is answered alone (RFC 9110, section 9.3.2).
pub fn is_head_method(method: &[u8]) -> bool
    ensures { result ≡ is_head_method method.now }
{
    method == b"HEAD".as_slice()
}

/// What a whole head says.
fn front_of(bytes: &[u8], spans: &RequestSpans, fields: &[HeaderSpan]) -> Front
    requires method { IsWithin (length bytes.now) spans.now.method }
    requires fields { All (IsHeaderWithin (length bytes.now)) fields.now }
    ensures { result ≡ front_of bytes.now spans.now (map (header_bytes bytes.now) fields.now) }
{
    match body_size(bytes, fields) {
        Ok(size) => Front::Whole(Head {
            method: spans.method,
            target: spans.path,
            size: spans.len,
            body: size as usize,
            closes: spans.version == 0 || asks_to_close(bytes, fields),
        }),
        Err(number) => Front::Refused(Fault {
            number,
            to_head: is_head_method(spans.method.of(bytes)),
        }),
    }
}

fn without_head(number: RefusalNumber) -> Front
    ensures { result ≡ Front.Refused (no_head number) }
{
    Front::Refused(Fault {
        number,
        to_head: false,
    })
}

/// What the bytes are as the front of a message, with this room for fields.
fn front_in(bytes: &[u8], room: &mut [HeaderSpan]) -> Front
    requires room { field_room ≤ length room.old }
    ensures { IsFront bytes.now result }
{
    let searched = at_most(bytes, HEAD_LIMIT);
    match parse_request(searched, room) {
        Ok(Status::Complete(spans)) => front_of(searched, &spans, &room[..spans.headers]),
        Ok(Status::Partial) if bytes.len() < HEAD_LIMIT => Front::Part,
        Ok(Status::Partial) => without_head(RefusalNumber::HeadTooLarge),
        Err(_) => without_head(RefusalNumber::BadHead),
    }
}

impl HeadParser {
    /// Takes the room for the fields of a head, some 128 KiB.
    pub fn new(alloc: Global) -> Result<HeadParser, AllocError> {
        let spans = vec![in alloc; EMPTY_HEADER_SPAN; FIELD_ROOM]?;
        Ok(HeadParser { spans })
    }

    /// Looks for the head of the message that these bytes begin with. It takes no memory.
    pub fn front(&mut self, bytes: &[u8]) -> Front
        ensures { IsFront bytes.now result }
    {
        front_in(bytes, &mut self.spans)
    }
}
