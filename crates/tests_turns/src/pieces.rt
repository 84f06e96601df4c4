//! Inputs that come byte by byte, answers that go byte by byte, and calls that fail.
use crate::checks::same_at;
use crate::echo::{by_serve, play};
use crate::streams::Slow;
use counted_io::{Halves, Wire};
use http_connection::Ended;
use std::alloc::Global;
use std::process::Abort;
use std::sync::Wait;

/// An input, what is written for it, how serving ends, and how often the responder is asked and the clock read.
type Served<'a> = (&'a str, &'a str, Ended, u64);

/// Serves an input in turns over streams that would have to wait before each piece, and compares what comes of it.
fn is_served_in_pieces(rt: &impl Abort, alloc: Global, row: Served<'_>, piece: usize) {
    let (input, text, end, times) = row;
    let mut wire = Wire::new(Halves {
        reader: Slow::new(input.as_bytes(), piece),
        writer: Slow::new(Vec::new(alloc), piece),
    });
    let (ended, asked, readings) = play(rt, alloc, &mut wire);
    same_at(
        rt,
        wire.inner().writer.inner.as_slice(),
        text.as_bytes(),
        input,
    );
    same_at(
        rt,
        (ended, asked, readings),
        (Some(end), times, times),
        input,
    );
    same_at(rt, wire.failures(), (0, 0), input);
}

/// Serves an input whole, by `serve`, and compares what comes of it.
fn is_served_whole(rt: &(impl Wait + Abort), alloc: Global, row: Served<'_>) {
    let (input, text, end, times) = row;
    let outcome = by_serve(rt, alloc, input.as_bytes());
    same_at(rt, outcome.text.as_slice(), text.as_bytes(), input);
    same_at(
        rt,
        (outcome.ended, outcome.asked, outcome.readings),
        (Some(end), times, times),
        input,
    );
}

/// Serves each input in such pieces.
fn are_served_in_pieces(rt: &impl Abort, alloc: Global, piece: usize, rows: &[Served<'_>]) {
    for row in rows {
        is_served_in_pieces(rt, alloc, *row, piece);
    }
}

/// Serves each input whole.
fn are_served_whole(rt: &(impl Wait + Abort), alloc: Global, rows: &[Served<'_>]) {
    for row in rows {
        is_served_whole(rt, alloc, *row);
    }
}

const INPUTS: &[Served<'static>] = &[
    ("", "", Ended::Closed, 0),
    ("GET /a HTTP/1.1\r\n\r\n", "/a\n", Ended::Closed, 1),
    ("\r\n", "", Ended::Truncated, 0),
    ("GET /a HTTP/1.1\r\n\r", "", Ended::Truncated, 0),
    (
        "GET /a HTTP/1.1\r\n\r\nPUT /b HTTP/1.1\r\nContent-Length: 4\r\n\r\nxyz",
        "/a\n",
        Ended::Truncated,
        1,
    ),
    (
        "GET /a HTTP/1.1\r\n\r\nPUT /b HTTP/1.1\r\nContent-Length: 4\r\n\r\nwxyz",
        "/a\n/bwxyz\n",
        Ended::Closed,
        2,
    ),
    (
        "GET /a HTTP/1.0\r\n\r\nGET /b HTTP/1.1\r\n\r\n",
        "/a\n",
        Ended::Finished,
        1,
    ),
    (
        "GET /a HTTP/1.1\r\n\r\nGET /b HTTP/1.1\r\nConnection: Close\r\n\r\nGET /c HTTP/1.1\r\n\r\n",
        "/a\n/b\n",
        Ended::Finished,
        2,
    ),
    (
        "GET /a HTTP/1.1\r\n\r\nGET\r\n\r\nGET /c HTTP/1.1\r\n\r\n",
        "/a\nrefused\n",
        Ended::Finished,
        1,
    ),
    (
        "GET /a HTTP/1.1\r\nTransfer-Encoding: chunked\r\n\r\n",
        "refused\n",
        Ended::Finished,
        0,
    ),
];

#[test]
fn inputs_are_served_alike(rt: HostRuntime) {
    are_served_whole(&rt, rt.alloc(), INPUTS);
    are_served_in_pieces(&rt, rt.alloc(), 1, INPUTS);
    are_served_in_pieces(&rt, rt.alloc(), 7, INPUTS);
    are_served_in_pieces(&rt, rt.alloc(), 100_000, INPUTS);
}

/// Two messages, the second with a body.
const TWO: &[u8] = b"GET /a HTTP/1.1\r\n\r\nPOST /b HTTP/1.1\r\nContent-Length: 3\r\n\r\nxyz";

/// The answers to both.
const BOTH: &[u8] = b"/a\n/bxyz\n";

/// How it ends, what is written, how often the responder is asked, and how many calls fail.
type Fails = (Option<Ended>, usize, u64, u64);

/// Serves both messages in turns, byte by byte, where the streams fail behind so many calls.
fn fails(rt: &impl Abort, alloc: Global, reads: u64, writes: u64, wanted: Fails) {
    let (end, length, times, failures) = wanted;
    let mut slow = Slow::new(TWO, 1);
    slow.calls_left = reads;
    let mut full = Slow::new(Vec::new(alloc), 1);
    full.calls_left = writes;
    let mut wire = Wire::new(Halves {
        reader: slow,
        writer: full,
    });
    let (ended, asked, _) = play(rt, alloc, &mut wire);
    let written = BOTH.get(..length).expect(rt, "a beginning");
    same_at(
        rt,
        wire.inner().writer.inner.as_slice(),
        written,
        (reads, writes),
    );
    let (read_failures, write_failures) = wire.failures();
    let failed = read_failures.saturating_add(write_failures);
    same_at(
        rt,
        (ended, asked, failed),
        (end, times, failures),
        (reads, writes),
    );
}

/// Two calls a byte: the first message has 19 bytes, both together have 61, and one read more finds the end.
#[test]
fn failed_reads_leave_whole_messages(rt: HostRuntime) {
    for reads in 0..126 {
        let wanted = match reads {
            0..38 => (Some(Ended::ReadFailed), 0, 0, 1),
            38..122 => (Some(Ended::ReadFailed), 3, 1, 1),
            122..124 => (Some(Ended::ReadFailed), 9, 2, 1),
            _ => (Some(Ended::Closed), 9, 2, 0),
        };
        fails(&rt, rt.alloc(), reads, 1_000, wanted);
    }
}

/// Two calls a byte: the first answer has 3 bytes, both together have 9.
#[test]
fn failed_writes_leave_a_beginning(rt: HostRuntime) {
    for writes in 0..20 {
        let length = (writes / 2) as usize;
        let wanted = match writes {
            0..6 => (Some(Ended::WriteFailed), length, 1, 1),
            6..18 => (Some(Ended::WriteFailed), length, 2, 1),
            _ => (Some(Ended::Closed), 9, 2, 0),
        };
        fails(&rt, rt.alloc(), 1_000, writes, wanted);
    }
}

#[test]
fn writes_of_nothing_fail(rt: HostRuntime) {
    let mut wire = Wire::new(Halves {
        reader: TWO,
        writer: Slow::new(Vec::new(rt.alloc()), 0),
    });
    let (ended, asked, _) = play(&rt, rt.alloc(), &mut wire);
    same_at(&rt, (ended, asked), (Some(Ended::WriteFailed), 1), 0);
    same_at(&rt, (wire.failures().1, wire.waits().1), (1, 1), 0);
}
