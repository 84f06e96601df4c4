//! Two workers of a pool, each with a seat of one desk whose books lie in slots. The report of one connection is held
//! between its look and its finish until the report of the other connection was answered.
ghost use Rattle.std.specs.Prelude.{◌≡◌};
ghost use Rattle.slot_desk.specs.Seats.{IsSeatOf};

use crate::checks::{is_true, same};
use crate::fixtures::pay_to_open;
use crate::racing_workers::{OvertakingGate, Readings, are_recorded, connections, finishes};
use book::Reply;
use http_pool::{Worker, pool};
use http_seats::SeatedAnswerer;
use slot_desk::{Desk, Seat};
use std::alloc::Global;
use std::net::{Net, TcpListener, TcpStream};
use std::process::Abort;
use std::sync::Wait;
use std::thread::Threads;
use std::time;

/// A new seat of a desk.
fn seat_of(rt: &impl Abort, alloc: Global, desk: &mut Desk) -> Seat
    ensures seat { IsSeatOf desk.new result }
    ensures same { desk.new.tables ≡ desk.old.tables }
{
    desk.sit(alloc).expect(rt, "a seat that is left")
}

/// A seat gets the ticket of this number.
fn get_ticket<R: Wait + Abort>(rt: &R, desk: &Desk, seat: &mut Seat, number: u64)
    requires seat { IsSeatOf desk.now seat.old }
    ensures seat { IsSeatOf desk.now seat.new }
{
    let service = desk.find("pay").expect(rt, "a service of the desk");
    assert!(rt; seat.count() < 1_000_000);
    let given = match desk.acquire(rt, seat, service, 1) {
        Reply::Permitted { ticket, .. } => Some(ticket),
        _ => None,
    };
    same(rt, given, Some(number));
}

/// A worker for each of two seats, in their order.
fn workers<'a, R: Wait + Abort>(
    rt: &'a R,
    alloc: Global,
    desk: &'a Desk,
    first: Seat,
    second: Seat,
    gate: &'a OvertakingGate,
) -> Vec<Worker<SeatedAnswerer<'a, Desk, Seat, OvertakingGate, R>, Readings<'a>>>
    requires first { IsSeatOf desk.now first }
    requires second { IsSeatOf desk.now second }
{
    let mut workers = Vec::new(alloc);
    let first = SeatedAnswerer::new(rt, alloc, desk, &[], first, gate);
    let pushed = workers.push(Worker::new(first, Readings::new(gate)));
    pushed.expect(rt, "ample memory");
    let second = SeatedAnswerer::new(rt, alloc, desk, &[], second, gate);
    let pushed = workers.push(Worker::new(second, Readings::new(gate)));
    pushed.expect(rt, "ample memory");
    workers
}

/// Both reports were entered, in the order of their finishes.
fn are_in_order<R: Wait + Abort>(rt: &R, desk: &Desk, seat: &mut Seat)
    requires seat { IsSeatOf desk.now seat.old }
{
    let service = desk.find("pay").expect(rt, "a service of the desk");
    let page = desk.page(rt, seat, service, 3);
    let made = page.expect(rt, "entries 3 and 4");
    assert_eq!(rt; made.len(), 2);
    is_true(rt, finishes(&made[0], 2));
    is_true(rt, finishes(&made[1], 1));
}

/// Serves two connections by two workers, each with one of the seats.
fn serve_both<R>(
    rt: &R,
    alloc: Global,
    listener: &TcpListener,
    desk: &Desk,
    first: Seat,
    second: Seat,
    gate: &OvertakingGate,
)
where
    R: Threads
        + Wait
        + time::Clock
        + Sync
        + Abort
        + Net<Listener = TcpListener, Stream = TcpStream>,
    requires first { IsSeatOf desk.now first }
    requires second { IsSeatOf desk.now second }
{
    let workers = workers(rt, alloc, desk, first, second, gate);
    assert_eq!(rt; workers.len(), 2);
    let workers = pool(rt, alloc, listener, 2, workers).expect(rt, "a pool");
    same(rt, workers.len(), 2);
}

/// Lets two connections report to one service, whose workers have these seats. The one overtakes the other, and both are
/// recorded.
fn report_both<R>(rt: &R, alloc: Global, desk: &Desk, first: Seat, second: Seat)
where
    R: Threads
        + Wait
        + time::Clock
        + Sync
        + Abort
        + Net<Listener = TcpListener, Stream = TcpStream>,
    requires first { IsSeatOf desk.now first }
    requires second { IsSeatOf desk.now second }
{
    let gate = OvertakingGate::new();
    let (listener, held, overtaking) = connections(rt);
    serve_both(rt, alloc, &listener, desk, first, second, &gate);
    is_true(rt, gate.overtaken.is_raised());
    are_recorded(rt, alloc, &held, &overtaking);
}

/// Two reports to one service are entered in the order of their finishes.
fn two_workers_report<R>(rt: &R, alloc: Global, mut desk: Desk)
where
    R: Threads
        + Wait
        + time::Clock
        + Sync
        + Abort
        + Net<Listener = TcpListener, Stream = TcpStream>,
{
    let mut caller = seat_of(rt, alloc, &mut desk);
    let first = seat_of(rt, alloc, &mut desk);
    let second = seat_of(rt, alloc, &mut desk);
    get_ticket(rt, &desk, &mut caller, 1);
    get_ticket(rt, &desk, &mut caller, 2);
    report_both(rt, alloc, &desk, first, second);
    are_in_order(rt, &desk, &mut caller);
}

#[test]
fn a_held_report_is_overtaken_at_a_slot(rt: HostRuntime) {
    let services = pay_to_open(&rt, rt.alloc());
    assert!(rt; services.len() <= 64);
    let desk = Desk::open(rt.alloc(), services).expect(&rt, "ample memory");
    two_workers_report(&rt, rt.alloc(), desk);
}
