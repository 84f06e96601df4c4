//! Heads, and what their fields say.
use crate::checks::{is_true, same, same_at};
use http_messages::{Fault, Front, Head, HeadParser};
use refusals::RefusalNumber;
use std::alloc::Global;
use std::process::Abort;

fn front(rt: &impl Abort, alloc: Global, bytes: &[u8]) -> Front {
    let mut parser = HeadParser::new(alloc).expect(rt, "ample memory");
    parser.front(bytes)
}

/// The head at the front of a text.
fn head(rt: &impl Abort, alloc: Global, text: &str) -> Option<Head> {
    match front(rt, alloc, text.as_bytes()) {
        Front::Whole(head) => Some(head),
        _ => None,
    }
}

/// A refusal of a message whose method isn't HEAD.
fn refused(number: RefusalNumber) -> Front {
    Front::Refused(Fault {
        number,
        to_head: false,
    })
}

/// What a request with these fields is as the front of a message.
fn with_fields(rt: &impl Abort, alloc: Global, fields: &str) -> Front {
    let text = format!(in alloc; "PUT /v1/services/pay/program HTTP/1.1\r\n{fields}\r\n");
    front(rt, alloc, text.expect(rt, "ample memory").as_bytes())
}

/// The head of a request with these fields.
fn head_with_fields(rt: &impl Abort, alloc: Global, fields: &str) -> Head {
    match with_fields(rt, alloc, fields) {
        Front::Whole(head) => Some(head),
        _ => None,
    }
    .expect(rt, "a head")
}

/// A head of this many bytes, with this many fields.
fn long_head(rt: &impl Abort, alloc: Global, size: usize, fields: usize) -> String {
    let mut text = String::new(alloc);
    push(rt, &mut text, "GET / HTTP/1.1\r\n");
    for _ in 1..fields {
        push(rt, &mut text, "a:b\r\n");
    }
    push(rt, &mut text, "c:");
    for _ in 0..size.saturating_sub(text.len().saturating_add(4)) {
        push(rt, &mut text, "d");
    }
    push(rt, &mut text, "\r\n\r\n");
    text
}

fn push(rt: &impl Abort, text: &mut String, more: &str) {
    text.push_str(more).expect(rt, "ample memory");
}

#[test]
fn parts_of_a_head_are_found(rt: HostRuntime) {
    let rt = &rt;
    let text = "POST /v1/services/pay/acquire?x HTTP/1.1\r\nHost: a\r\n\r\nbody";
    let found = head(rt, rt.alloc(), text).expect(rt, "a head");
    same(
        rt,
        text.get(found.method.start..found.method.end),
        Some("POST"),
    );
    let target = text.get(found.target.start..found.target.end);
    same(rt, target, Some("/v1/services/pay/acquire?x"));
    same(rt, found.size, 53);
    same(rt, found.body, 0);
    is_true(rt, !found.closes);
}

/// The beginnings of a text are parts of its head, until that is whole.
fn comes_in_parts(rt: &impl Abort, alloc: Global, text: &[u8], size: usize) {
    let mut parser = HeadParser::new(alloc).expect(rt, "ample memory");
    for count in 0..=text.len() {
        let found = match parser.front(&text[..count]) {
            Front::Part => None,
            Front::Whole(head) => Some(head.size),
            Front::Refused(_) => Some(0),
        };
        let wanted = if count < size { None } else { Some(size) };
        same_at(rt, found, wanted, count);
    }
}

#[test]
fn heads_come_in_parts(rt: HostRuntime) {
    comes_in_parts(&rt, rt.alloc(), b"\r\n\nGET / HTTP/1.1\nHost:\n\nx", 25);
}

/// A head of 8,192 bytes is whole, and a part where its last byte is missing.
fn is_a_long_head(rt: &impl Abort, alloc: Global, fields: usize) {
    let long = long_head(rt, alloc, 8_192, fields);
    same_at(rt, long.len(), 8_192, fields);
    let found = head(rt, alloc, long.as_str()).expect(rt, "a head");
    same_at(rt, found.size, 8_192, fields);
    let cut = long.get(..8_191).expect(rt, "bytes");
    same_at(rt, front(rt, alloc, cut.as_bytes()), Front::Part, fields);
}

/// A head of 8,193 bytes is refused from its byte 8,192 on.
fn is_too_long(rt: &impl Abort, alloc: Global) {
    let longer = long_head(rt, alloc, 8_193, 32);
    for count in 8_192..8_194 {
        let cut = longer.get(..count).expect(rt, "bytes");
        let found = front(rt, alloc, cut.as_bytes());
        same_at(rt, found, refused(RefusalNumber::HeadTooLarge), count);
    }
}

#[test]
fn heads_have_at_most_8192_bytes(rt: HostRuntime) {
    is_a_long_head(&rt, rt.alloc(), 1);
    is_a_long_head(&rt, rt.alloc(), 32);
    is_too_long(&rt, rt.alloc());
}

/// A head with so many fields is refused.
fn has_too_many_fields(rt: &impl Abort, alloc: Global, fields: usize) {
    let more = long_head(rt, alloc, 0, fields);
    let found = front(rt, alloc, more.as_bytes());
    same_at(rt, found, refused(RefusalNumber::HeadTooLarge), fields);
}

#[test]
fn heads_have_at_most_32_fields(rt: HostRuntime) {
    let rt = &rt;
    let alloc = rt.alloc();
    let most = long_head(rt, alloc, 0, 32);
    is_true(rt, head(rt, alloc, most.as_str()).is_some());
    has_too_many_fields(rt, alloc, 33);
    has_too_many_fields(rt, alloc, 1_000);
}

/// Fields, with the length of the body that they tell.
fn are_lengths(rt: &impl Abort, alloc: Global, rows: &[(&str, usize)]) {
    for row in rows {
        let (fields, size) = *row;
        same_at(rt, head_with_fields(rt, alloc, fields).body, size, fields);
    }
}

#[test]
fn lengths_are_read(rt: HostRuntime) {
    are_lengths(
        &rt,
        rt.alloc(),
        &[
            ("", 0),
            ("Content-Length: 16\r\n", 16),
            ("CONTENT-LENGTH:\t0016 \r\n", 16),
            ("Content-Length: 5\r\nHost: a\r\nContent-Length: 05\r\n", 5),
            ("Content-Length: 65536\r\n", 65_536),
            ("X-Content-Length: x\r\n", 0),
        ],
    );
}

/// A message that is refused, and whether its method is HEAD.
fn is_to_head(rt: &impl Abort, alloc: Global, text: &str, to_head: bool) {
    let fault = Fault {
        number: RefusalNumber::TransferCoding,
        to_head,
    };
    let found = front(rt, alloc, text.as_bytes());
    same_at(rt, found, Front::Refused(fault), text);
}

#[test]
fn answers_to_head_have_no_body(rt: HostRuntime) {
    let upper = "HEAD / HTTP/1.1\r\nTransfer-Encoding: x\r\n\r\n";
    is_to_head(&rt, rt.alloc(), upper, true);
    let lower = "head / HTTP/1.1\r\nTransfer-Encoding: x\r\n\r\n";
    is_to_head(&rt, rt.alloc(), lower, false);
}
