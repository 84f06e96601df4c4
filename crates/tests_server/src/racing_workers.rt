//! Two workers of a pool, each with a seat of one desk. The report of one connection is held between its look
//! and its finish until the report of the other connection was answered.
ghost use Rattle.std.specs.Prelude.{◌≡◌, map};
ghost use Rattle.desk.specs.Services.{service_of};

use crate::checks::{is_true, is_true_at, same};
use crate::fixtures::{open_desk, pay_to_open};
use book::{Config, Entry, Event, Reply};
use desk::{Desk, Gate, Offered, Seat};
use http_front::Clock;
use http_pool::{Worker, pool};
use http_seats::SeatedAnswerer;
use std::alloc::Global;
use std::io::{Read, Write};
use std::marker::Brand;
use std::net::{Net, Shutdown, SocketAddr, TcpListener, TcpStream};
use std::process::Abort;
use std::sync::Wait;
use std::sync::atomic::{AtomicU64, Ordering};
use std::sync::ledger::{Blank, Ledger};
use std::thread::Threads;
use std::{thread, time};
use verifier::Verified;

/// How often a thread looks whether another one is there yet.
const MOST_TURNS: u32 = 1_000_000;

const FIRST_REPORT: &str =
    "POST /v1/services/pay/report HTTP/1.1\r\nContent-Length: 37\r\n\r\n{\"ticket\":1,\"outcome\":{\"status\":500}}";

/// A report, and behind it a message at which the clock is read once more.
const SECOND_REPORT: &str =
    "POST /v1/services/pay/report HTTP/1.1\r\nContent-Length: 37\r\n\r\n{\"ticket\":2,\"outcome\":{\"status\":200}}GET /v1/services/pay/state HTTP/1.1\r\n\r\n";

/// Something that one thread says and another waits for.
#[derive(Drop)]
pub(crate) struct Flag(AtomicU64);

impl Flag {
    fn new() -> Flag {
        Flag(AtomicU64::new(0))
    }

    fn raise(&self) {
        self.0.store(1, Ordering::SeqCst);
    }

    pub(crate) fn is_raised(&self) -> bool {
        self.0.load(Ordering::SeqCst) != 0
    }

    /// Gives way until it is raised, but not for ever.
    fn wait(&self) {
        for _ in 0..MOST_TURNS {
            if self.is_raised() {
                return;
            }
            thread::yield_now();
        }
    }
}

/// Holds the report of ticket 1 until that of ticket 2 was answered, and the latter until the former looked.
#[derive(Drop)]
pub(crate) struct OvertakingGate {
    first_looked: Flag,
    second_answered: Flag,
    pub(crate) overtaken: Flag,
}

impl OvertakingGate {
    pub(crate) fn new() -> OvertakingGate {
        OvertakingGate {
            first_looked: Flag::new(),
            second_answered: Flag::new(),
            overtaken: Flag::new(),
        }
    }
}

impl Gate for OvertakingGate {
    fn between(&self, ticket: u64) {
        if ticket == 1 {
            self.first_looked.raise();
            self.second_answered.wait();
            if self.second_answered.is_raised() {
                self.overtaken.raise();
            }
        } else {
            self.first_looked.wait();
        }
    }
}

/// A worker's clock. It is read once a message, so at its second reading the first message was answered.
#[derive(Drop)]
pub(crate) struct Readings<'a> {
    times: u64,
    gate: &'a OvertakingGate,
}

impl<'a> Readings<'a> {
    pub(crate) fn new(gate: &'a OvertakingGate) -> Self {
        Readings { times: 0, gate }
    }
}

impl<'a> Clock for Readings<'a> {
    ghost ticks = { λ old moment new. moment ≡ 7 };

    fn now_ms(&mut self) -> u64 {
        self.times = self.times.saturating_add(1);
        if self.times == 2 {
            self.gate.second_answered.raise();
        }
        7
    }
}

/// Connects to an address, asks, and sends no more.
fn ask<R>(rt: &R, address: SocketAddr, input: &str) -> TcpStream
where
    R: Abort + Net<Listener = TcpListener, Stream = TcpStream>,
{
    let stream = TcpStream::connect(rt, address).expect(rt, "a connection");
    let sent = (&stream).write_all(input.as_bytes());
    sent.expect(rt, "a message is sent");
    let ended = stream.shutdown(Shutdown::Write);
    ended.expect(rt, "a client ends its side");
    stream
}

/// A listener, and the connections that report to it: that whose report is held, and that which overtakes it.
pub(crate) fn connections<R>(rt: &R) -> (TcpListener, TcpStream, TcpStream)
where
    R: Abort + Net<Listener = TcpListener, Stream = TcpStream>,
{
    let listener = TcpListener::bind(rt, "127.0.0.1:0").expect(rt, "a free port");
    let address = listener.local_addr().expect(rt, "its address");
    let held = ask(rt, address, FIRST_REPORT);
    let overtaking = ask(rt, address, SECOND_REPORT);
    (listener, held, overtaking)
}

/// The other side sent, to its end, that a report was recorded.
fn is_recorded(rt: &impl Abort, alloc: Global, stream: &TcpStream) {
    let mut text = Vec::new(alloc);
    let read = (&mut &*stream).read_to_end(&mut text);
    read.expect(rt, "an answer, to its end");
    let text = str::from_utf8(&text).ok().expect(rt, "an answer is text");
    is_true_at(rt, text.contains("\"fate\":\"recorded\""), text);
}

/// Both reports were recorded.
pub(crate) fn are_recorded(
    rt: &impl Abort,
    alloc: Global,
    held: &TcpStream,
    overtaking: &TcpStream,
) {
    is_recorded(rt, alloc, held);
    is_recorded(rt, alloc, overtaking);
}

/// A seat gets the ticket of this number.
fn get_ticket<L: Ledger, M: Ledger + Offered, R: Wait + Abort>(
    rt: &R,
    desk: &Desk<L, M>,
    seat: &mut Seat<L, M>,
    number: u64,
) {
    let service = desk.find("pay").expect(rt, "a service of the desk");
    assert!(rt; seat.count() < 1_000_000);
    let given = match desk.acquire(rt, seat, service, 1) {
        Reply::Permitted { ticket, .. } => Some(ticket),
        _ => None,
    };
    same(rt, given, Some(number));
}

/// A worker for each of two seats, in their order.
fn workers<'a, L: Ledger, M: Ledger + Offered, R: Wait + Abort>(
    rt: &'a R,
    alloc: Global,
    desk: &'a Desk<L, M>,
    seats: (Seat<L, M>, Seat<L, M>),
    gate: &'a OvertakingGate,
) -> Vec<Worker<SeatedAnswerer<'a, Desk<L, M>, Seat<L, M>, OvertakingGate, R>, Readings<'a>>> {
    let mut workers = Vec::new(alloc);
    let first = SeatedAnswerer::new(rt, alloc, desk, &[], seats.0, gate);
    let pushed = workers.push(Worker::new(first, Readings::new(gate)));
    pushed.expect(rt, "ample memory");
    let second = SeatedAnswerer::new(rt, alloc, desk, &[], seats.1, gate);
    let pushed = workers.push(Worker::new(second, Readings::new(gate)));
    pushed.expect(rt, "ample memory");
    workers
}

/// Whether an entry is the finish of a ticket.
pub(crate) fn finishes(entry: &Entry, ticket: u64) -> bool {
    match entry.event() {
        Event::Finish(_, finished) => *finished == ticket,
        _ => false,
    }
}

/// Both reports were entered, in the order of their finishes.
fn are_in_order<L: Ledger, M: Ledger + Offered, R: Wait + Abort>(
    rt: &R,
    desk: &Desk<L, M>,
    seat: &mut Seat<L, M>,
) {
    let service = desk.find("pay").expect(rt, "a service of the desk");
    let page = desk.page(rt, seat, service, 3);
    let made = page.expect(rt, "entries 3 and 4");
    assert_eq!(rt; made.len(), 2);
    is_true(rt, finishes(&made[0], 2));
    is_true(rt, finishes(&made[1], 1));
}

/// Serves two connections by two workers, each with one of the seats.
fn serve_both<
    L: Ledger + Send + Sync,
    M: Ledger + Offered + Send + Sync,
    R: Threads
        + Wait
        + time::Clock
        + Sync
        + Abort
        + Net<Listener = TcpListener, Stream = TcpStream>,
>(
    rt: &R,
    alloc: Global,
    listener: &TcpListener,
    desk: &Desk<L, M>,
    seats: (Seat<L, M>, Seat<L, M>),
    gate: &OvertakingGate,
) {
    let workers = workers(rt, alloc, desk, seats, gate);
    assert_eq!(rt; workers.len(), 2);
    let workers = pool(rt, alloc, listener, 2, workers).expect(rt, "a pool");
    same(rt, workers.len(), 2);
}

/// Lets two connections report to one service, whose workers have these seats. The one overtakes the other, and both are
/// recorded.
fn report_both<
    L: Ledger + Send + Sync,
    M: Ledger + Offered + Send + Sync,
    R: Threads
        + Wait
        + time::Clock
        + Sync
        + Abort
        + Net<Listener = TcpListener, Stream = TcpStream>,
>(rt: &R, alloc: Global, desk: &Desk<L, M>, seats: (Seat<L, M>, Seat<L, M>)) {
    let gate = OvertakingGate::new();
    let (listener, held, overtaking) = connections(rt);
    serve_both(rt, alloc, &listener, desk, seats, &gate);
    is_true(rt, gate.overtaken.is_raised());
    are_recorded(rt, alloc, &held, &overtaking);
}

/// Two reports to one service are entered in the order of their finishes.
fn reports_of_two_workers<
    L: Ledger + Send + Sync,
    M: Ledger + Offered + Send + Sync,
    R: Threads
        + Wait
        + time::Clock
        + Sync
        + Abort
        + Net<Listener = TcpListener, Stream = TcpStream>,
>(rt: &R, alloc: Global, entries: Blank, cuts: Blank, services: Vec<(String, Config, Verified)>)
    requires entries_name { entries.name ≡ L.name }
    requires entries_parts { (entries.parts ≡ L.parts) × (L.parts ≡ 193) }
    requires cuts_name { cuts.name ≡ M.name }
    requires cuts_parts { (cuts.parts ≡ M.parts) × (M.parts ≡ 193) }
    requires offered { M.services ≡ map service_of services.items }
{
    let mut desk = open_desk::<L, M, R>(rt, alloc, entries, cuts, services);
    let mut caller = desk.sit().expect(rt, "a seat for the tickets");
    let first = desk.sit().expect(rt, "a first worker's seat");
    let second = desk.sit().expect(rt, "a second worker's seat");
    get_ticket(rt, &desk, &mut caller, 1);
    get_ticket(rt, &desk, &mut caller, 2);
    report_both(rt, alloc, &desk, (first, second));
    are_in_order(rt, &desk, &mut caller);
}

#[test]
fn a_held_report_is_overtaken(rt: HostRuntime) {
    let services = pay_to_open(&rt, rt.alloc());
    reports_of_two_workers::<Brand, Brand, HostRuntime>(
        &rt,
        rt.alloc(),
        Blank::new(193),
        Blank::new(193),
        services,
    );
}
