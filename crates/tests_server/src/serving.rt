//! Inputs that are served over memory, whole, in pieces, and with calls that fail.
use crate::checks::{same, same_at};
use crate::fixtures::FailsAt;
use counted_io::Counted;
use http_connection::{Clock, Ended, HttpRequest, Responder, serve};
use http_messages::Fault;
use std::alloc::{AllocError, Global};
use std::process::Abort;
use std::sync::Wait;

/// How often it was asked.
#[derive(Drop)]
struct Asked {
    times: u64,
}

/// Answers with the target and the body.
#[derive(Drop)]
struct Echo;

impl Responder<Asked> for Echo {
    ghost use Rattle.std.specs.Prelude.{◌≡◌, ◌++◌, codes};

    ghost refusal = { λ fault. codes "refused\n" };

    ghost responds = { λ old moment request text new. text ≡ request.target ++ request.body ++ codes "\n" };

    fn refuse(&self, _fault: Fault, text: &mut Vec<u8>) -> Result<(), AllocError> {
        text.clear();
        text.extend_from_slice(b"refused\n")
    }

    fn respond(
        &self,
        state: &mut Asked,
        _moment: u64,
        request: &HttpRequest<'_>,
        text: &mut Vec<u8>,
    ) -> Result<(), AllocError> {
        state.times = state.times.saturating_add(1);
        text.clear();
        text.extend_from_slice(request.target)?;
        text.extend_from_slice(request.body)?;
        text.extend_from_slice(b"\n")
    }
}

/// How often it was read.
#[derive(Drop)]
struct Readings {
    times: u64,
}

impl Clock for Readings {
    ghost use Rattle.std.specs.Prelude.{◌≡◌};

    ghost ticks = { λ old moment new. moment ≡ new.times };

    fn now_ms(&mut self) -> u64 {
        self.times = self.times.saturating_add(1);
        self.times
    }
}

/// An input, how many bytes a read gives and a write takes at most, and at which read and which write these
/// begin to fail.
#[derive(Clone, Copy)]
struct Input<'a> {
    bytes: &'a [u8],
    piece: usize,
    reads: u64,
    writes: u64,
}

/// What is written, how serving ended, how often the responder was asked, and how many calls failed.
type Outcome<'a> = (&'a [u8], Ended, u64, u64);

/// Serves an input, and compares what comes of it.
fn is_served(rt: &(impl Wait + Abort), alloc: Global, input: Input<'_>, wanted: Outcome<'_>) {
    let (text, end, times, failures) = wanted;
    let mut reader = Counted::new(FailsAt {
        inner: input.bytes,
        calls_left: input.reads,
        piece: input.piece,
    });
    let mut writer = Counted::new(FailsAt {
        inner: Vec::new(alloc),
        calls_left: input.writes,
        piece: input.piece,
    });
    let mut asked = Asked { times: 0 };
    let mut clock = Readings { times: 0 };
    let ended = serve(
        rt,
        alloc,
        &mut reader,
        &mut writer,
        &Echo,
        &mut asked,
        &mut clock,
    );
    same(rt, asked.times, clock.times);
    same_at(rt, writer.inner().inner.as_slice(), text, input.bytes);
    let failed = reader.failures().saturating_add(writer.failures());
    same_at(
        rt,
        (ended, asked.times, failed),
        (end, times, failures),
        input.bytes,
    );
}

/// An input, what is written for it, how serving ends, and how often the responder is asked.
type Served<'a> = (&'a str, &'a str, Ended, u64);

/// Serves each input, where a read gives and a write takes at most so many bytes, and none fails.
fn are_served(rt: &(impl Wait + Abort), alloc: Global, piece: usize, rows: &[Served<'_>]) {
    for row in rows {
        let (bytes, text, end, times) = *row;
        let input = Input {
            bytes: bytes.as_bytes(),
            piece,
            reads: 1_000,
            writes: 1_000,
        };
        is_served(rt, alloc, input, (text.as_bytes(), end, times, 0));
    }
}

const INPUTS: &[Served<'static>] = &[
    ("", "", Ended::Closed, 0),
    ("GET /a HTTP/1.1\r\n\r\n", "/a\n", Ended::Closed, 1),
    ("\r\n", "", Ended::Truncated, 0),
    ("GET /a HTTP/1.1\r\n\r", "", Ended::Truncated, 0),
    (
        "GET /a HTTP/1.1\r\n\r\nPUT /b HTTP/1.1\r\nContent-Length: 4\r\n\r\nxyz",
        "/a\n",
        Ended::Truncated,
        1,
    ),
    (
        "GET /a HTTP/1.0\r\n\r\nGET /b HTTP/1.1\r\n\r\n",
        "/a\n",
        Ended::Finished,
        1,
    ),
    (
        "GET /a HTTP/1.1\r\n\r\nGET /b HTTP/1.1\r\nConnection: Close\r\n\r\nGET /c HTTP/1.1\r\n\r\n",
        "/a\n/b\n",
        Ended::Finished,
        2,
    ),
    (
        "GET /a HTTP/1.1\r\n\r\nGET\r\n\r\nGET /c HTTP/1.1\r\n\r\n",
        "/a\nrefused\n",
        Ended::Finished,
        1,
    ),
    (
        "GET /a HTTP/1.1\r\nTransfer-Encoding: chunked\r\n\r\n",
        "refused\n",
        Ended::Finished,
        0,
    ),
];

#[test]
fn inputs_are_served(rt: HostRuntime) {
    are_served(&rt, rt.alloc(), 1, INPUTS);
    are_served(&rt, rt.alloc(), 7, INPUTS);
    are_served(&rt, rt.alloc(), 100_000, INPUTS);
}

/// So many times the letter `x` between two texts.
fn long_text(rt: &impl Abort, alloc: Global, before: &str, count: u64, after: &str) -> Vec<u8> {
    let mut text = Vec::from_slice(alloc, before.as_bytes()).expect(rt, "ample memory");
    for _ in 0..count {
        text.push(b'x').expect(rt, "ample memory");
    }
    text.extend_from_slice(after.as_bytes())
        .expect(rt, "ample memory");
    text
}

#[test]
fn long_bodies_are_whole(rt: HostRuntime) {
    let alloc = rt.alloc();
    let head = "PUT / HTTP/1.1\r\nContent-Length: 65536\r\n\r\n";
    let bytes = long_text(&rt, alloc, head, 65_536, "GET /b HTTP/1.1\r\n\r\n");
    let text = long_text(&rt, alloc, "/", 65_536, "\n/b\n");
    let input = Input {
        bytes: &bytes,
        piece: 1_000,
        reads: 1_000,
        writes: 1_000,
    };
    is_served(&rt, alloc, input, (&text, Ended::Closed, 2, 0));
}

/// Two messages, the second with a body.
const TWO: &[u8] = b"GET /a HTTP/1.1\r\n\r\nPOST /b HTTP/1.1\r\nContent-Length: 3\r\n\r\nxyz";

/// The answers to both.
const BOTH: &[u8] = b"/a\n/bxyz\n";

/// One byte a call: the first message has 19 bytes, both together have 61, and one read more finds the end.
fn reads_fail(rt: &(impl Wait + Abort), alloc: Global, reads: u64) {
    let (length, times, end, failures) = match reads {
        0..19 => (0, 0, Ended::ReadFailed, 1),
        19..61 => (3, 1, Ended::ReadFailed, 1),
        61 => (9, 2, Ended::ReadFailed, 1),
        _ => (9, 2, Ended::Closed, 0),
    };
    let input = Input {
        bytes: TWO,
        piece: 1,
        reads,
        writes: 1_000,
    };
    is_served(rt, alloc, input, (&BOTH[..length], end, times, failures));
}

#[test]
fn failed_reads_leave_whole_messages(rt: HostRuntime) {
    for reads in 0..63 {
        reads_fail(&rt, rt.alloc(), reads);
    }
}

/// One byte a call: the first answer has 3 bytes, both together have 9.
fn writes_fail(rt: &(impl Wait + Abort), alloc: Global, writes: u64) {
    let (times, end, failures) = match writes {
        0..3 => (1, Ended::WriteFailed, 1),
        3..9 => (2, Ended::WriteFailed, 1),
        _ => (2, Ended::Closed, 0),
    };
    let input = Input {
        bytes: TWO,
        piece: 1,
        reads: 1_000,
        writes,
    };
    let text = BOTH.get(..writes as usize).expect(rt, "a beginning");
    is_served(rt, alloc, input, (text, end, times, failures));
}

#[test]
fn failed_writes_leave_a_beginning(rt: HostRuntime) {
    for writes in 0..10 {
        writes_fail(&rt, rt.alloc(), writes);
    }
}

#[test]
fn writes_of_nothing_fail(rt: HostRuntime) {
    let input = Input {
        bytes: b"GET /a HTTP/1.1\r\n\r\n",
        piece: 0,
        reads: 1_000,
        writes: 5,
    };
    is_served(&rt, rt.alloc(), input, (b"", Ended::WriteFailed, 1, 1));
}
