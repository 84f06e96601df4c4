//! Pools on the loopback address. Clients connect and ask before their connections are accepted, so that
//! the thread that starts the workers is all clients.
ghost use Rattle.std.specs.Prelude.{◌≡◌};

use crate::checks::{is_true_at, same};
use crate::fixtures::{ACQUIRE, entries, pay};
use http_front::{Books, Clock};
use http_pool::{
    DEFAULT_OPEN, Limits, ListenerFailed, Worker, pool, serve_connections, threads_at_once,
};
use std::alloc::Global;
use std::io::{Read, Write};
use std::net::{Net, Shutdown, SocketAddr, TcpListener, TcpStream};
use std::os::fd::OwnedFd;
use std::process::Abort;
use std::sync::Wait;
use std::thread::Threads;
use std::{io, time};

/// Tells how often it was read.
#[derive(Drop)]
struct Readings {
    times: u64,
}

impl Clock for Readings {
    ghost ticks = { λ old moment new. moment ≡ new.times };

    fn now_ms(&mut self) -> u64 {
        self.times = self.times.saturating_add(1);
        self.times
    }
}

/// Workers with a service each, whose clocks were read 0, 100, 200 times and so on.
fn workers(rt: &impl Abort, alloc: Global, count: u64) -> Vec<Worker<Books, Readings>> {
    let mut workers = Vec::new(alloc);
    for number in 0..count {
        let times = number.saturating_mul(100);
        let worker = Worker::new(pay(rt, alloc), Readings { times });
        workers.push(worker).expect(rt, "ample memory");
    }
    workers
}

/// Connects to an address, asks, and sends no more.
fn ask<R>(rt: &R, address: SocketAddr, input: &str) -> TcpStream
where
    R: Abort + Net<Listener = TcpListener, Stream = TcpStream>,
{
    let stream = TcpStream::connect(rt, address).expect(rt, "a connection");
    let sent = (&stream).write_all(input.as_bytes());
    sent.expect(rt, "a message is sent");
    let ended = stream.shutdown(Shutdown::Write);
    ended.expect(rt, "a client ends its side");
    stream
}

/// What the other side sent, to its end.
fn answer(rt: &impl Abort, alloc: Global, stream: &TcpStream) -> Vec<u8> {
    let mut text = Vec::new(alloc);
    let read = (&mut &*stream).read_to_end(&mut text);
    read.expect(rt, "an answer, to its end");
    text
}

/// The other side's answer begins so, and has this ending.
fn is_answered(rt: &impl Abort, alloc: Global, stream: &TcpStream, ending: &str) {
    let text = answer(rt, alloc, stream);
    let text = text.as_slice();
    is_true_at(rt, text.starts_with(b"HTTP/1.1 200 OK\r\n"), text);
    is_true_at(rt, text.ends_with(ending.as_bytes()), text);
}

/// The other side of each connection sent an answer that begins so, and has this ending.
fn are_answered(rt: &impl Abort, alloc: Global, streams: &[TcpStream], ending: &str) {
    for stream in streams {
        is_answered(rt, alloc, stream, ending);
    }
}

/// Each message was answered once, at the clock of the worker that has its entry: so many in all.
fn have_answered(rt: &impl Abort, workers: &[Worker<Books, Readings>], wanted: u64) {
    let mut answered: u64 = 0;
    let mut times: u64 = 0;
    for worker in workers {
        let made = entries(&worker.answerer);
        same(rt, worker.clock.times, times.saturating_add(made));
        answered = answered.saturating_add(made);
        times = times.saturating_add(100);
    }
    same(rt, answered, wanted);
}

/// So many connections, each of which asks.
fn connect<R>(rt: &R, alloc: Global, address: SocketAddr, count: u64) -> Vec<TcpStream>
where
    R: Abort + Net<Listener = TcpListener, Stream = TcpStream>,
{
    let mut streams = Vec::new(alloc);
    for _ in 0..count {
        let pushed = streams.push(ask(rt, address, ACQUIRE));
        pushed.expect(rt, "ample memory");
    }
    streams
}

/// A listener on a free port of the loopback address, and its address.
fn listening<R>(rt: &R) -> (TcpListener, SocketAddr)
where
    R: Abort + Net<Listener = TcpListener, Stream = TcpStream>,
{
    let listener = TcpListener::bind(rt, "127.0.0.1:0").expect(rt, "a free port");
    let address = listener.local_addr().expect(rt, "its address");
    (listener, address)
}

/// Whether this is the failure of a listener that doesn't listen (EINVAL), by its text.
fn is_deafness(rt: &impl Abort, alloc: Global, failure: Option<ListenerFailed>) -> bool {
    let Some(failure) = failure else {
        return false;
    };
    let error = io::Error::from_raw_os_error(22);
    let wanted = format!(in alloc; "the listener accepts no more connections: {error}");
    let told = format!(in alloc; "{failure}").expect(rt, "ample memory");
    told == wanted.expect(rt, "ample memory")
}

/// How many workers met that failure.
fn failures(rt: &impl Abort, alloc: Global, workers: &[Worker<Books, Readings>]) -> u64 {
    let mut met: u64 = 0;
    for worker in workers {
        if is_deafness(rt, alloc, worker.failure) {
            met = met.saturating_add(1);
        }
    }
    met
}

/// No worker met a failure.
fn none_failed(rt: &impl Abort, workers: &[Worker<Books, Readings>]) {
    for worker in workers {
        same(rt, worker.failure, None);
    }
}

/// A socket that doesn't listen, since it is an end of a connection, and its other end.
fn deaf_listener<R>(rt: &R) -> (TcpListener, TcpStream)
where
    R: Abort + Net<Listener = TcpListener, Stream = TcpStream>,
{
    let (listener, address) = listening(rt);
    let one = TcpStream::connect(rt, address).expect(rt, "a connection");
    let (other, _) = listener.accept().expect(rt, "its other end");
    (TcpListener::from(OwnedFd::from(one)), other)
}

/// One connection is left to the listener, with all that its client sent, and no other.
fn one_is_left(rt: &impl Abort, alloc: Global, listener: &TcpListener) {
    let set = listener.set_nonblocking(true);
    set.expect(rt, "a listener that doesn't wait");
    let (left, _) = listener.accept().expect(rt, "a connection that is left");
    let set = left.set_nonblocking(false);
    set.expect(rt, "a connection that waits");
    same(rt, answer(rt, alloc, &left).as_slice(), ACQUIRE.as_bytes());
    same(rt, listener.accept().is_err(), true);
}

#[test]
fn workers_share_the_connections(rt: HostRuntime) {
    let rt = &rt;
    let alloc = rt.alloc();
    let (listener, address) = listening(rt);
    let streams = connect(rt, alloc, address, 8);
    // The pool is to serve eight: it ends, and the ninth is not answered.
    let further = ask(rt, address, ACQUIRE);
    let workers = workers(rt, alloc, 3);
    assert_eq!(rt; workers.len(), 3);
    let workers = pool(rt, alloc, &listener, 8, workers).expect(rt, "a pool");
    same(rt, workers.len(), 3);
    none_failed(rt, &workers);
    have_answered(rt, &workers, 8);
    are_answered(rt, alloc, &streams, "\"version\":1}");
    one_is_left(rt, alloc, &listener);
    same(rt, answer(rt, alloc, &further).len(), 0);
}

/// A pool of two workers, which is to serve so many connections. Each worker brings back the failure of the listener,
/// and nothing was answered.
fn a_pool_fails<R>(rt: &R, alloc: Global, connections: u64)
where
    R: Threads
        + Wait
        + Sync
        + Abort
        + time::Clock
        + Net<Listener = TcpListener, Stream = TcpStream>,
{
    let (listener, _other) = deaf_listener(rt);
    let workers = workers(rt, alloc, 2);
    assert_eq!(rt; workers.len(), 2);
    let workers = pool(rt, alloc, &listener, connections, workers).expect(rt, "a pool");
    same(rt, workers.len(), 2);
    same(rt, failures(rt, alloc, &workers), 2);
    have_answered(rt, &workers, 0);
}

#[test]
fn a_pool_ends_where_the_listener_fails(rt: HostRuntime) {
    a_pool_fails(&rt, rt.alloc(), 0);
    // Fewer connections were served than it was to serve.
    a_pool_fails(&rt, rt.alloc(), 5);
}

/// Serves so many connections. It ends with the failure of the listener.
fn serving_fails<R>(rt: &R, alloc: Global, connections: u64)
where
    R: Wait + Abort + time::Clock + Net<Listener = TcpListener, Stream = TcpStream>,
{
    let (listener, _other) = deaf_listener(rt);
    let mut books = pay(rt, alloc);
    let mut clock = Readings { times: 0 };
    let limits = Limits {
        connections,
        most_open: DEFAULT_OPEN,
    };
    let ended = serve_connections(rt, alloc, &listener, limits, &mut books, &mut clock);
    same(rt, is_deafness(rt, alloc, ended.err()), true);
    same(rt, (entries(&books), clock.times), (0, 0));
}

#[test]
fn serving_ends_where_the_listener_fails(rt: HostRuntime) {
    serving_fails(&rt, rt.alloc(), 0);
    serving_fails(&rt, rt.alloc(), 5);
}

#[test]
fn connections_are_served_by_one_worker(rt: HostRuntime) {
    let rt = &rt;
    let alloc = rt.alloc();
    let (listener, address) = listening(rt);
    let first = ask(rt, address, ACQUIRE);
    // A message that is cut short ends its connection alone.
    let cut = ask(rt, address, "POST");
    let last = ask(rt, address, ACQUIRE);
    let mut books = pay(rt, alloc);
    let mut clock = Readings { times: 0 };
    let limits = Limits {
        connections: 3,
        most_open: DEFAULT_OPEN,
    };
    let ended = serve_connections(rt, alloc, &listener, limits, &mut books, &mut clock);
    same(rt, ended, Ok(()));
    same(rt, (entries(&books), clock.times), (2, 2));
    same(rt, answer(rt, alloc, &cut).len(), 0);
    let ending = "{\"state\":\"CLOSED\",\"ticket\":1,\"version\":1}";
    is_answered(rt, alloc, &first, ending);
    let ending = "{\"state\":\"CLOSED\",\"ticket\":2,\"version\":1}";
    is_answered(rt, alloc, &last, ending);
}

#[test]
fn threads_run_at_once(rt: HostRuntime) {
    let running = threads_at_once(&rt, rt.alloc(), 8);
    same(&rt, running.expect(&rt, "ample memory"), 8);
}
