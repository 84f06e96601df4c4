//! Servers on the loopback address. A client connects and asks before its connection is accepted, so that one
//! thread is both.
use crate::checks::{is_true_at, same};
use crate::fixtures::{ACQUIRE, ACQUIRED, is_unanswered};
use counted_io::Counted;
use http_front::Clock;
use refusals::RefusalNumber;
use sidecar_server::{LogLines, ServerEnd, ServerStatus, SystemClock, serve_file, serve_path};
use std::alloc::Global;
use std::io::{ErrorKind, Read, Write};
use std::net::{Net, Shutdown, TcpListener, TcpStream};
use std::process::Abort;
use std::sync::Wait;
use std::thread::Threads;
use std::{io, time};

const STATE: &str = "GET /v1/services/pay/state HTTP/1.0\r\n\r\n";

/// How the service stands behind one ticket.
const STANDING: &str =
    "\"entries\":1,\"failed\":0,\"failureRate\":-1,\"free\":24,\"notPermitted\":0,\"open\":1,\"period\":1,\"slow\":0,\"slowRate\":-1,\"state\":\"CLOSED\",\"total\":0,\"version\":1}";

/// A writer that, when it is told the address of a server, connects to it for each input, and asks it.
#[derive(Drop)]
struct Caller<'a, R: Net<Listener = TcpListener, Stream = TcpStream>> {
    rt: &'a R,
    inputs: &'a [&'a str],
    line: Vec<u8>,
    streams: Vec<TcpStream>,
    /// Whether what was written can't be flushed.
    is_full: bool,
}

impl<'a, R: Net<Listener = TcpListener, Stream = TcpStream>> Caller<'a, R> {
    fn new(rt: &'a R, alloc: Global, inputs: &'a [&'a str], is_full: bool) -> Caller<'a, R> {
        Caller {
            rt,
            inputs,
            line: Vec::new(alloc),
            streams: Vec::new(alloc),
            is_full,
        }
    }

    /// Connects and asks, where it was told an address.
    fn call(&mut self) -> io::Result<()> {
        let Some(address) = self
            .line
            .as_slice()
            .strip_prefix(b"listening ".as_slice())
            .and_then(|rest| rest.strip_suffix(b"\n".as_slice()))
            .and_then(|address| str::from_utf8(address).ok())
        else {
            return Ok(());
        };
        for input in self.inputs {
            let stream = ask(self.rt, address, input)?;
            self.streams.push(stream)?;
        }
        Ok(())
    }
}

/// Connects to an address, asks, and sends no more.
fn ask<R>(rt: &R, address: &str, input: &str) -> io::Result<TcpStream>
where
    R: Net<Listener = TcpListener, Stream = TcpStream>,
{
    let stream = TcpStream::connect(rt, address)?;
    (&stream).write_all(input.as_bytes())?;
    stream.shutdown(Shutdown::Write)?;
    Ok(stream)
}

impl<'a, R: Net<Listener = TcpListener, Stream = TcpStream>> Write for Caller<'a, R> {
    fn write(&mut self, piece: &[u8]) -> io::Result<usize> {
        self.line.extend_from_slice(piece)?;
        Ok(piece.len())
    }

    fn flush(&mut self) -> io::Result<()> {
        self.call()?;
        if self.is_full {
            return Err(io::Error::from(ErrorKind::StorageFull));
        }
        Ok(())
    }
}

/// What the other side sent, to its end.
fn answer(rt: &impl Abort, alloc: Global, stream: &TcpStream) -> Vec<u8> {
    let mut text = Vec::new(alloc);
    let read = (&mut &*stream).read_to_end(&mut text);
    read.expect(rt, "an answer, to its end");
    text
}

/// What four connections were answered: a ticket, nothing, and how the service stands. The fourth was one too many.
fn are_answered(rt: &impl Abort, alloc: Global, streams: &[TcpStream]) {
    assert_eq!(rt; streams.len(), 4);
    let acquired = answer(rt, alloc, &streams[0]);
    same(rt, acquired.as_slice(), ACQUIRED.as_bytes());
    // A message that is cut short ends its connection alone.
    same(rt, answer(rt, alloc, &streams[1]).len(), 0);
    let state = answer(rt, alloc, &streams[2]);
    is_true_at(rt, state.ends_with(STANDING.as_bytes()), state.as_slice());
    same(rt, is_unanswered(alloc, &streams[3]), true);
}

/// The number of the last entry in a server's one journal.
fn last_number(end: &ServerEnd) -> u64 {
    match end.books.as_slice() {
        [book] => book.last_number(),
        _ => 0,
    }
}

#[test]
fn connections_are_served(rt: HostRuntime) {
    let rt = &rt;
    let file =
        "{\"listen\":\"127.0.0.1:0\",\"workers\":1,\"connections\":3,\"services\":[{\"name\":\"pay\"}]}";
    let alloc = rt.alloc();
    let inputs = &[ACQUIRE, "POST", STATE, ACQUIRE];
    let mut out = Counted::new(Caller::new(rt, alloc, inputs, false));
    let mut clock = SystemClock::new(rt);
    let mut err = Counted::new(Vec::new(alloc));
    let end = serve_file(rt, alloc, file.as_bytes(), &mut out, &mut err, &mut clock);
    same(rt, (end.status, end.status.code()), (ServerStatus::Done, 0));
    // The book comes back as its three connections left it: without the ticket that the fourth asked for.
    same(rt, (last_number(&end), end.counts.len()), (1, 0));
    same(rt, (out.failures(), err.inner().len()), (0, 0));
    are_answered(rt, alloc, &out.inner().streams);
}

/// A clock that stands still.
#[derive(Clone, Copy)]
struct Still {
    moment: u64,
}

impl Clock for Still {
    ghost use Rattle.std.specs.Prelude.{◌≡◌};

    ghost ticks = { λ old moment new. moment ≡ new.moment };

    fn now_ms(&mut self) -> u64 {
        self.moment
    }
}

/// The first ticket of a server by this file, whose clock stands at a moment, has this number.
fn begins_at<R>(rt: &R, alloc: Global, file: &str, moment: u64, number: u64)
where
    R: Threads
        + Wait
        + Sync
        + Abort
        + LogLines
        + time::Clock
        + Net<Listener = TcpListener, Stream = TcpStream>,
{
    let mut out = Counted::new(Caller::new(rt, alloc, &[ACQUIRE], false));
    let mut err = Counted::new(Vec::new(alloc));
    let mut clock = Still { moment };
    let end = serve_file(rt, alloc, file.as_bytes(), &mut out, &mut err, &mut clock);
    same(rt, end.status, ServerStatus::Done);
    let streams = &out.inner().streams;
    assert_eq!(rt; streams.len(), 1);
    let found = answer(rt, alloc, &streams[0]);
    let wanted = format!(in alloc; "{{\"state\":\"CLOSED\",\"ticket\":{number},\"version\":1}}");
    let wanted = wanted.expect(rt, "ample memory");
    is_true_at(rt, found.ends_with(wanted.as_bytes()), found.as_slice());
}

#[test]
fn tickets_begin_by_the_clock(rt: HostRuntime) {
    let by_one =
        "{\"listen\":\"127.0.0.1:0\",\"workers\":1,\"connections\":1,\"tickets\":\"by the clock\",\"services\":[{\"name\":\"pay\"}]}";
    let behind_locks =
        "{\"listen\":\"127.0.0.1:0\",\"workers\":2,\"connections\":1,\"tickets\":\"by the clock\",\"services\":[{\"name\":\"pay\"}]}";
    let with_a_log =
        "{\"listen\":\"127.0.0.1:0\",\"workers\":1,\"connections\":1,\"tickets\":\"by the clock\",\"log\":\"changes\",\"services\":[{\"name\":\"pay\"}]}";
    let in_slots =
        "{\"listen\":\"127.0.0.1:0\",\"workers\":2,\"keeper\":\"slot\",\"connections\":1,\"tickets\":\"by the clock\",\"services\":[{\"name\":\"pay\"}]}";
    for row in [
        (by_one, 0, 1),
        (by_one, 1_700_000_000_000, 1_740_800_000_000_000),
        // The last moment with numbers of its own, and a later one.
        (by_one, 8_796_093_022_207, 9_007_199_254_739_968),
        (by_one, u64::MAX, 9_007_199_254_739_968),
        (with_a_log, 7, 7_168),
        (behind_locks, 7, 7_168),
        (in_slots, 7, 7_168),
    ] {
        let (file, moment, number) = row;
        begins_at(&rt, rt.alloc(), file, moment, number);
    }
}

/// A server whose line can't be flushed says so, and serves nobody: the client that has asked is not answered.
fn serves_nobody<R>(rt: &R, alloc: Global, file: &str)
where
    R: Threads
        + Wait
        + Sync
        + Abort
        + LogLines
        + time::Clock
        + Net<Listener = TcpListener, Stream = TcpStream>,
{
    let mut out = Counted::new(Caller::new(rt, alloc, &[ACQUIRE], true));
    let mut err = Counted::new(Vec::new(alloc));
    let mut clock = SystemClock::new(rt);
    let end = serve_file(rt, alloc, file.as_bytes(), &mut out, &mut err, &mut clock);
    same(
        rt,
        (end.status, end.status.code()),
        (ServerStatus::FlushFailed, 1),
    );
    same(rt, (end.books.len(), end.counts.len()), (0, 0));
    same(rt, (out.failures(), err.inner().len()), (1, 0));
    let streams = &out.inner().streams;
    assert_eq!(rt; streams.len(), 1);
    same(rt, is_unanswered(alloc, &streams[0]), true);
}

#[test]
fn nobody_is_served_where_the_line_cannot_be_flushed(rt: HostRuntime) {
    let by_one =
        "{\"listen\":\"127.0.0.1:0\",\"workers\":1,\"connections\":1,\"services\":[{\"name\":\"pay\"}]}";
    serves_nobody(&rt, rt.alloc(), by_one);
    let by_two =
        "{\"listen\":\"127.0.0.1:0\",\"workers\":2,\"connections\":1,\"services\":[{\"name\":\"pay\"}]}";
    serves_nobody(&rt, rt.alloc(), by_two);
}

/// A server was refused, and the line of the refusal, which is whole, couldn't be flushed.
fn is_refused_unflushed<R>(rt: &R, end: &ServerEnd, out: &Counted<Caller<'_, R>>)
where
    R: Abort + Net<Listener = TcpListener, Stream = TcpStream>,
{
    same(
        rt,
        (end.status, end.status.code()),
        (ServerStatus::FlushFailed, 1),
    );
    same(rt, out.failures(), 1);
    let line = out.inner().line.as_slice();
    same(rt, line, b"refused 47 BadConfig\n".as_slice());
}

#[test]
fn refusals_that_cannot_be_flushed_are_failures(rt: HostRuntime) {
    let rt = &rt;
    let alloc = rt.alloc();
    let mut err = Counted::new(Vec::new(alloc));
    let mut clock = SystemClock::new(rt);
    let mut out = Counted::new(Caller::new(rt, alloc, &[], true));
    let end = serve_file(rt, alloc, b"{}", &mut out, &mut err, &mut clock);
    is_refused_unflushed(rt, &end, &out);
    let mut out = Counted::new(Caller::new(rt, alloc, &[], true));
    let path = "no such file";
    let end = serve_path(rt, alloc, path, &mut out, &mut err, &mut clock);
    is_refused_unflushed(rt, &end, &out);
    same(rt, err.inner().len(), 0);
}

/// What a server prints for a file that it refuses: on standard output, and on standard error.
fn refused<R>(rt: &R, alloc: Global, file: &str) -> (ServerStatus, Vec<u8>, Vec<u8>)
where
    R: Threads
        + Wait
        + Sync
        + LogLines
        + time::Clock
        + Net<Listener = TcpListener, Stream = TcpStream>,
{
    let mut out = Counted::new(Vec::new(alloc));
    let mut err = Counted::new(Vec::new(alloc));
    let mut clock = SystemClock::new(rt);
    let end = serve_file(rt, alloc, file.as_bytes(), &mut out, &mut err, &mut clock);
    (end.status, out.into_inner(), err.into_inner())
}

#[test]
fn busy_addresses_are_refused(rt: HostRuntime) {
    let rt = &rt;
    let listener = TcpListener::bind(rt, "127.0.0.1:0").expect(rt, "a free port");
    let port = listener.local_addr().expect(rt, "its address").port();
    let file = format!(in rt.alloc();
        "{{\"listen\":\"127.0.0.1:{port}\",\"workers\":1,\"connections\":1,\"services\":[{{\"name\":\"pay\"}}]}}"
    );
    let file = file.expect(rt, "ample memory");
    let (status, text, why) = refused(rt, rt.alloc(), &file);
    let listen = ServerStatus::Refused(RefusalNumber::Listen);
    same(rt, (status, status.code()), (listen, 1));
    same(rt, text.as_slice(), b"refused 48 Listen\n".as_slice());
    let told = format!(in rt.alloc(); "127.0.0.1:{port}: Address already in use (os error 98)\n");
    let told = told.expect(rt, "ample memory");
    same(rt, why.as_slice(), told.as_bytes());
}

#[test]
fn files_that_cannot_be_used_are_refused(rt: HostRuntime) {
    let rt = &rt;
    let (status, text, why) = refused(rt, rt.alloc(), "{}");
    let bad_config = ServerStatus::Refused(RefusalNumber::BadConfig);
    same(rt, (status, status.code()), (bad_config, 1));
    same(rt, text.as_slice(), b"refused 47 BadConfig\n".as_slice());
    same(
        rt,
        why.as_slice(),
        b"listen: the key is missing\n".as_slice(),
    );
    let mut out = Counted::new(Vec::new(rt.alloc()));
    let mut err = Counted::new(Vec::new(rt.alloc()));
    let mut clock = SystemClock::new(rt);
    let end = serve_path(
        rt,
        rt.alloc(),
        "no such file",
        &mut out,
        &mut err,
        &mut clock,
    );
    same(rt, (end.status, end.status.code()), (bad_config, 1));
    same(
        rt,
        out.inner().as_slice(),
        b"refused 47 BadConfig\n".as_slice(),
    );
    same(
        rt,
        err.inner().as_slice(),
        b"no such file: No such file or directory (os error 2)\n".as_slice(),
    );
}

#[test]
fn the_clock_tells_milliseconds(rt: HostRuntime) {
    let mut clock = SystemClock::new(&rt);
    // 2020 to 2200.
    let moment = clock.now_ms();
    is_true_at(
        &rt,
        1_577_836_800_000 < moment && moment < 7_258_118_400_000,
        &moment,
    );
}
