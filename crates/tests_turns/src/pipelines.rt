//! Many messages at once, cut at each place.
use crate::checks::same_at;
use crate::echo::{Outcome, by_serve, play};
use crate::streams::Cut;
use counted_io::{Halves, Wire};
use http_connection::Ended;
use std::alloc::Global;
use std::process::Abort;
use std::sync::Wait;

/// So many messages, one after another; each seventh has a body.
fn messages(rt: &impl Abort, alloc: Global, count: u64) -> Vec<u8> {
    let mut bytes = Vec::new(alloc);
    for number in 0..count {
        let message = if number % 7 == 3 {
            format!(in alloc; "PUT /{number} HTTP/1.1\r\nContent-Length: 3\r\n\r\nxyz")
        } else {
            format!(in alloc; "GET /{number} HTTP/1.1\r\n\r\n")
        };
        let message = message.expect(rt, "ample memory");
        bytes
            .extend_from_slice(message.as_bytes())
            .expect(rt, "ample memory");
    }
    bytes
}

/// Their answers, one after another: the target and the body of each.
fn answers(rt: &impl Abort, alloc: Global, count: u64) -> Vec<u8> {
    let mut text = Vec::new(alloc);
    for number in 0..count {
        let answer = if number % 7 == 3 {
            format!(in alloc; "/{number}xyz\n")
        } else {
            format!(in alloc; "/{number}\n")
        };
        let answer = answer.expect(rt, "ample memory");
        text.extend_from_slice(answer.as_bytes())
            .expect(rt, "ample memory");
    }
    text
}

/// What serving so many messages comes to.
fn wanted(rt: &impl Abort, alloc: Global, count: u64) -> Outcome {
    Outcome {
        text: answers(rt, alloc, count),
        ended: Some(Ended::Closed),
        asked: count,
        readings: count,
    }
}

/// Serves the bytes whole, by `serve`.
fn is_served_whole(rt: &(impl Wait + Abort), alloc: Global, bytes: &[u8], wanted: &Outcome) {
    let outcome = by_serve(rt, alloc, bytes);
    same_at(rt, outcome.text.as_slice(), wanted.text.as_slice(), 0);
    same_at(
        rt,
        (outcome.ended, outcome.asked, outcome.readings),
        (wanted.ended, wanted.asked, wanted.readings),
        0,
    );
}

/// Serves the bytes in turns, where the reader would have to wait behind the first of them.
fn is_cut(rt: &impl Abort, alloc: Global, bytes: &[u8], at: usize, wanted: &Outcome) {
    let (first, rest) = bytes.split_at(at.min(bytes.len()));
    let mut wire = Wire::new(Halves {
        reader: Cut {
            first,
            rest,
            has_waited: false,
        },
        writer: Vec::new(alloc),
    });
    let (ended, asked, readings) = play(rt, alloc, &mut wire);
    same_at(
        rt,
        wire.inner().writer.as_slice(),
        wanted.text.as_slice(),
        at,
    );
    same_at(
        rt,
        (ended, asked, readings),
        (wanted.ended, wanted.asked, wanted.readings),
        at,
    );
    same_at(
        rt,
        (wire.failures().0, wire.waits().0, wire.ends()),
        (0, 1, 1),
        at,
    );
}

/// Cuts so many messages at each place that is a multiple of a number.
fn are_cut(rt: &(impl Wait + Abort), alloc: Global, count: u64, every: usize) {
    let bytes = messages(rt, alloc, count);
    let wanted = wanted(rt, alloc, count);
    is_served_whole(rt, alloc, &bytes, &wanted);
    let mut at = 0;
    for _ in 0..bytes.len() {
        if at < bytes.len() {
            is_cut(rt, alloc, &bytes, at, &wanted);
        }
        at = at.saturating_add(every);
    }
}

#[test]
fn messages_are_cut_anywhere(rt: HostRuntime) {
    are_cut(&rt, rt.alloc(), 20, 1);
}

#[test]
fn a_hundred_messages_are_cut(rt: HostRuntime) {
    are_cut(&rt, rt.alloc(), 100, 11);
}
