//! A server with four workers, which is to serve four connections, and whose five clients are connected at the same
//! time. Of the first four the client that connected last asks first; the fifth is one too many. The books lie behind
//! locks, or in slots.
use crate::checks::{is_true_at, same};
use crate::fixtures::is_unanswered;
use counted_io::Counted;
use sidecar_server::{LogLines, ServerStatus, SystemClock, serve_file};
use std::alloc::Global;
use std::io::{Read, Write};
use std::net::{IpAddr, Ipv4Addr, Net, SocketAddr, TcpListener, TcpStream};
use std::process::Abort;
use std::sync::Wait;
use std::sync::atomic::{AtomicU64, Ordering};
use std::thread::Threads;
use std::time::Duration;
use std::{io, thread, time};

const LOCKS: &str =
    "{\"listen\":\"127.0.0.1:0\",\"workers\":4,\"connections\":4,\"services\":[{\"name\":\"pay\"}]}";

const SLOTS: &str =
    "{\"listen\":\"127.0.0.1:0\",\"workers\":4,\"keeper\":\"slot\",\"connections\":4,\"services\":[{\"name\":\"pay\"}]}";

const ACQUIRE: &str = "POST /v1/services/pay/acquire HTTP/1.1\r\n\r\n";

/// How many bytes the answer to each of the first nine acquires has.
const ACQUIRED_LENGTH: usize = 112;

const JOURNAL: &str = "GET /v1/services/pay/journal/1 HTTP/1.1\r\nConnection: close\r\n\r\n";

/// A writer that tells the port of a server once its line is flushed.
#[derive(Drop)]
struct Teller<'a> {
    line: Vec<u8>,
    port: &'a AtomicU64,
}

/// The address in the line that a server prints.
fn address_in(line: &[u8]) -> Option<SocketAddr> {
    let address = line
        .strip_prefix(b"listening ".as_slice())?
        .strip_suffix(b"\n".as_slice())?;
    SocketAddr::parse_ascii(address).ok()
}

impl<'a> Write for Teller<'a> {
    fn write(&mut self, piece: &[u8]) -> io::Result<usize> {
        self.line.extend_from_slice(piece)?;
        Ok(piece.len())
    }

    fn flush(&mut self) -> io::Result<()> {
        if let Some(address) = address_in(&self.line) {
            self.port.store(address.port() as u64, Ordering::SeqCst);
        }
        Ok(())
    }
}

/// How the server ended, the number of the last entry in its one journal, and what its workers' seats count.
type Ended = (ServerStatus, u64, Vec<u64>);

/// Serves by a file, and tells the port.
fn serve<R>(rt: &R, alloc: Global, file: &str, port: &AtomicU64) -> Ended
where
    R: Threads
        + Wait
        + Sync
        + LogLines
        + time::Clock
        + Net<Listener = TcpListener, Stream = TcpStream>,
{
    let mut out = Counted::new(Teller {
        line: Vec::new(alloc),
        port,
    });
    let mut err = Counted::new(Vec::new(alloc));
    let mut clock = SystemClock::new(rt);
    let end = serve_file(rt, alloc, file.as_bytes(), &mut out, &mut err, &mut clock);
    let last = match end.books.as_slice() {
        [book] => book.last_number(),
        _ => 0,
    };
    (end.status, last, end.counts)
}

/// The address that is told. It is waited for ten seconds at most.
fn told(rt: &impl time::Clock, port: &AtomicU64) -> Option<SocketAddr> {
    for _ in 0..10_000 {
        let port = port.load(Ordering::SeqCst);
        if port != 0 {
            let port = u16::try_from(port).ok()?;
            return Some(SocketAddr::new(IpAddr::V4(Ipv4Addr::LOCALHOST), port));
        }
        thread::sleep(rt, Duration::from_millis(1));
    }
    None
}

/// What clients are answered, and the connection of the one too many, who has asked.
#[derive(Drop)]
struct Answers {
    acquired: Vec<Vec<u8>>,
    journal: Vec<u8>,
    further: TcpStream,
}

/// Asks for a ticket over a connection that stays open.
fn acquire(rt: &impl Abort, alloc: Global, stream: &TcpStream) -> Vec<u8> {
    let sent = (&mut &*stream).write_all(ACQUIRE.as_bytes());
    sent.expect(rt, "a message is sent");
    let room = vec![in alloc; 0; ACQUIRED_LENGTH];
    let mut answer = room.expect(rt, "ample memory");
    let read = (&mut &*stream).read_exact(&mut answer);
    read.expect(rt, "an answer");
    answer
}

/// Asks for the journal, and ends the connection.
fn journal(rt: &impl Abort, alloc: Global, stream: &TcpStream) -> Vec<u8> {
    let sent = (&mut &*stream).write_all(JOURNAL.as_bytes());
    sent.expect(rt, "a message is sent");
    let mut answer = Vec::new(alloc);
    let read = (&mut &*stream).read_to_end(&mut answer);
    read.expect(rt, "an answer, to its end");
    answer
}

/// A connection to an address, whose client waits ten seconds at most for each piece of an answer.
fn connect<R>(rt: &R, address: SocketAddr) -> TcpStream
where
    R: Abort + Net<Listener = TcpListener, Stream = TcpStream>,
{
    let stream = TcpStream::connect(rt, address).expect(rt, "a connection");
    let set = stream.set_read_timeout(Some(Duration::from_secs(10)));
    set.expect(rt, "a limit");
    stream
}

/// Four connections, in the order in which they were made.
fn connections<R>(rt: &R, alloc: Global, address: SocketAddr) -> Vec<TcpStream>
where
    R: Abort + Net<Listener = TcpListener, Stream = TcpStream>,
{
    let mut streams = Vec::new(alloc);
    for _ in 0..4 {
        let pushed = streams.push(connect(rt, address));
        pushed.expect(rt, "ample memory");
    }
    streams
}

/// One connection more, whose client asks at once.
fn one_too_many<R>(rt: &R, address: SocketAddr) -> TcpStream
where
    R: Abort + Net<Listener = TcpListener, Stream = TcpStream>,
{
    let stream = connect(rt, address);
    let sent = (&mut &stream).write_all(ACQUIRE.as_bytes());
    sent.expect(rt, "a message is sent");
    stream
}

/// Asks for a ticket over each connection, over the last one first.
fn acquire_over_all(rt: &impl Abort, alloc: Global, streams: &[TcpStream]) -> Vec<Vec<u8>> {
    let mut acquired = Vec::new(alloc);
    for stream in streams.iter().rev() {
        let pushed = acquired.push(acquire(rt, alloc, stream));
        pushed.expect(rt, "ample memory");
    }
    acquired
}

/// Five clients. The one too many connects last and asks first; of the others the one that connected last asks first.
fn call<R>(rt: &R, alloc: Global, port: &AtomicU64) -> Answers
where
    R: Abort + time::Clock + Net<Listener = TcpListener, Stream = TcpStream>,
{
    let address = told(rt, port).expect(rt, "the address of a server");
    let streams = connections(rt, alloc, address);
    let further = one_too_many(rt, address);
    let acquired = acquire_over_all(rt, alloc, &streams);
    let first = streams.first().expect(rt, "a first connection");
    let journal = journal(rt, alloc, first);
    Answers {
        acquired,
        journal,
        further,
    }
}

/// A server in a thread of its own, by a file, and its clients.
fn serve_and_call<R>(rt: &R, alloc: Global, file: &str) -> (Ended, Answers)
where
    R: Abort
        + Threads
        + Wait
        + Sync
        + LogLines
        + time::Clock
        + Net<Listener = TcpListener, Stream = TcpStream>,
{
    let told = AtomicU64::new(0);
    let port = &told;
    thread::join(
        rt,
        move || serve(rt, alloc, file, port),
        move || call(rt, alloc, port),
    )
}

/// All ask the same service: the tickets are given in the order of asking.
fn are_in_order(rt: &impl Abort, alloc: Global, acquired: &[Vec<u8>]) {
    same(rt, acquired.len(), 4);
    for (answer, ticket) in acquired.iter().zip(1u64..) {
        is_acquired(rt, alloc, answer, ticket);
    }
}

/// An answer brings this ticket.
fn is_acquired(rt: &impl Abort, alloc: Global, answer: &[u8], ticket: u64) {
    let text = format!(in alloc;
        "HTTP/1.1 200 OK\r\nContent-Type: application/json\r\nContent-Length: 41\r\n\r\n{{\"state\":\"CLOSED\",\"ticket\":{ticket},\"version\":1}}"
    );
    let text = text.expect(rt, "ample memory");
    same(rt, answer, text.as_bytes());
}

/// Each worker has a seat of its own.
fn have_seats(rt: &impl Abort, journal: &[u8], seats: &[&str]) {
    let text = str::from_utf8(journal)
        .ok()
        .expect(rt, "the journal is text");
    for seat in seats {
        is_true_at(rt, text.contains(seat), text);
    }
}

/// Four workers serve at once by a file, each by a seat of its own.
fn four_workers_serve<R>(rt: &R, alloc: Global, file: &str)
where
    R: Abort
        + Threads
        + Wait
        + Sync
        + LogLines
        + time::Clock
        + Net<Listener = TcpListener, Stream = TcpStream>,
{
    let ((status, last, counts), answers) = serve_and_call(rt, alloc, file);
    same(rt, status, ServerStatus::Done);
    // The desk was closed with all its seats: its journal has the four entries that they count, and no fifth.
    same(rt, last, 4);
    same(rt, counts.as_slice(), [1, 1, 1, 1].as_slice());
    let Answers {
        acquired,
        journal,
        further,
    } = answers;
    are_in_order(rt, alloc, &acquired);
    have_seats(
        rt,
        &journal,
        &["\"seat\":1", "\"seat\":2", "\"seat\":3", "\"seat\":4"],
    );
    same(rt, is_unanswered(alloc, &further), true);
}

#[test]
fn four_workers_serve_at_once(rt: HostRuntime) {
    four_workers_serve(&rt, rt.alloc(), LOCKS);
}

#[test]
fn four_workers_serve_at_once_from_slots(rt: HostRuntime) {
    four_workers_serve(&rt, rt.alloc(), SLOTS);
}
