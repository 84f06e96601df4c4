//! How long a turn is, what a connection waits for, and what it is about meanwhile.
use crate::checks::same;
use crate::echo::{Asked, Echo, Readings};
use crate::streams::Slow;
use counted_io::{Halves, Stream, Wire};
use http_connection::{Connection, Ended, Intake, Phase, Turned, Want, turn};
use std::alloc::Global;
use std::process::Abort;

/// Gives a connection a turn, and answers how it ended, what it is about then, and how many answers were begun.
fn turned<T: Stream>(
    rt: &impl Abort,
    alloc: Global,
    connection: &mut Connection,
    wire: &mut Wire<T>,
) -> (Turned, Phase, u64) {
    let mut intake = Intake::new(alloc).expect(rt, "ample memory");
    let mut asked = Asked { times: 0 };
    let mut clock = Readings { times: 0 };
    let turned = turn(connection, &mut intake, wire, &Echo, &mut asked, &mut clock);
    (turned, connection.phase(), connection.answers())
}

/// A round reads, and each further one answers a message: the sixty-fourth answers the sixty-third.
#[test]
fn turns_are_short(rt: HostRuntime) {
    let rt = &rt;
    let alloc = rt.alloc();
    let mut bytes = Vec::new(alloc);
    for _ in 0..100 {
        bytes
            .extend_from_slice(b"GET / HTTP/1.1\r\n\r\n")
            .expect(rt, "ample memory");
    }
    let mut wire = Wire::new(Halves {
        reader: bytes.as_slice(),
        writer: Vec::new(alloc),
    });
    let mut connection = Connection::new(alloc);
    let first = turned(rt, alloc, &mut connection, &mut wire);
    same(rt, first, (Turned::GoesOn, Phase::Answer, 63));
    let second = turned(rt, alloc, &mut connection, &mut wire);
    same(rt, second, (Turned::Ended(Ended::Closed), Phase::Idle, 100));
    same(rt, wire.inner().writer.len(), 200);
}

/// The reader would have to wait before each piece of 10 bytes, and the writer before each of 2.
#[test]
fn waits_say_for_what(rt: HostRuntime) {
    let alloc = rt.alloc();
    let mut wire = Wire::new(Halves {
        reader: Slow::new(b"GET /a HTTP/1.1\r\n\r\n".as_slice(), 10),
        writer: Slow::new(Vec::new(alloc), 2),
    });
    let mut connection = Connection::new(alloc);
    for wanted in &[
        (Turned::Waits(Want::Bytes), Phase::Idle, 0),
        (Turned::Waits(Want::Bytes), Phase::Message, 0),
        (Turned::Waits(Want::Room), Phase::Answer, 1),
        (Turned::Waits(Want::Room), Phase::Answer, 1),
        (Turned::Waits(Want::Bytes), Phase::Idle, 1),
        (Turned::Ended(Ended::Closed), Phase::Idle, 1),
    ] {
        let found = turned(&rt, alloc, &mut connection, &mut wire);
        same(&rt, found, *wanted);
    }
}
