//! Four threads with a seat each ask two services. All their calls are counted, and each journal has them
//! as they were made and answered.
use crate::checks::{is_true, same};
use crate::desk_fixtures::{Caller, Scene, ask, close_late, play_at_a_desk};
use book::{Book, ConfigParts, Reply};
use desk::{Desk, Offered, Seat};
use service::OpenGate;
use std::alloc::{AllocError, Global};
use std::process::Abort;
use std::sync::Wait;
use std::sync::ledger::Ledger;
use std::thread;
use std::thread::Threads;
use worked_histories::{Made, Wish, are_calls};

/// The calls that a seat made on both services.
#[derive(Drop)]
struct Calls {
    pay: Vec<Made>,
    ship: Vec<Made>,
}

/// A seat, with its calls.
#[derive(Drop)]
struct Worked<L: Ledger, M: Ledger> {
    seat: Seat<L, M>,
    calls: Calls,
}

/// Makes a call.
fn call<L: Ledger, M: Ledger + Offered, R: Wait + Abort>(
    rt: &R,
    alloc: Global,
    desk: &Desk<L, M>,
    seat: &mut Seat<L, M>,
    name: &str,
    moment: u64,
    wish: Wish,
) -> Made {
    let reply = ask(rt, alloc, desk, seat, name, moment, wish, &OpenGate);
    Made {
        wish,
        moment,
        reply,
    }
}

/// So many times a ticket and its report, by moments that differ from those of other seats.
fn make_calls<L: Ledger, M: Ledger + Offered, R: Wait + Abort>(
    rt: &R,
    alloc: Global,
    desk: &Desk<L, M>,
    seat: &mut Seat<L, M>,
    name: &str,
    times: u16,
) -> Vec<Made> {
    let mut made = Vec::new(alloc);
    for round in 0..times {
        let moment = round as u64 * 10 + seat.number() as u64;
        let acquired = call(rt, alloc, desk, seat, name, moment, Wish::Acquire);
        let ticket = match acquired.reply {
            Reply::Permitted { ticket, .. } => ticket,
            _ => 0,
        };
        let wish = Wish::Report(ticket, 200);
        let reported = call(rt, alloc, desk, seat, name, moment + 5, wish);
        made.push(acquired).expect(rt, "ample memory");
        made.push(reported).expect(rt, "ample memory");
    }
    made
}

/// What one thread does.
fn work<L: Ledger, M: Ledger + Offered, R: Wait + Abort>(
    rt: &R,
    alloc: Global,
    caller: Caller<'_, L, M>,
) -> Worked<L, M> {
    let Caller { desk, mut seat } = caller;
    let pay = make_calls(rt, alloc, desk, &mut seat, "pay", 100);
    let ship = make_calls(rt, alloc, desk, &mut seat, "ship", 50);
    let calls = Calls { pay, ship };
    Worked { seat, calls }
}

/// Four threads, with what each of them did, in the order of their seats.
fn work_at_once<
    L: Ledger + Send + Sync,
    M: Ledger + Offered + Send + Sync,
    R: Threads + Wait + Abort + Sync,
>(
    rt: &R,
    alloc: Global,
    desk: &Desk<L, M>,
    seats: Vec<Seat<L, M>>,
) -> Result<Vec<Worked<L, M>>, AllocError> {
    let mut callers = Vec::new(alloc);
    for seat in seats {
        callers.push(Caller { desk, seat })?;
    }
    thread::map_vec(rt, callers, &|caller| work(rt, alloc, caller))
}

/// The journals of both services have the calls of each seat.
fn check_books(rt: &impl Abort, books: &[Book], seats: &[u32], made: &[Calls]) {
    assert_eq!(rt; books.len(), 2);
    same(rt, books[0].last_number(), 800);
    same(rt, books[1].last_number(), 400);
    same(rt, made.len(), seats.len());
    for (seat, calls) in seats.iter().zip(made) {
        is_true(rt, are_calls(&[], books[0].entries(0), *seat, &calls.pay));
        is_true(rt, are_calls(&[], books[1].entries(0), *seat, &calls.ship));
    }
}

/// How many entries a seat made, and how many both services have.
fn check_counts<L: Ledger, M: Ledger + Offered, R: Wait + Abort>(
    rt: &R,
    desk: &Desk<L, M>,
    seat: &mut Seat<L, M>,
    services: &[(&str, u64)],
) {
    same(rt, seat.count(), 300);
    for (name, entries) in services {
        let service = desk.find(name).expect(rt, "a service of the desk");
        same(rt, desk.read(rt, seat, service, 0).entries, *entries);
    }
}

/// Four seats of a new desk.
fn four_seats<L: Ledger, M: Ledger + Offered>(
    rt: &impl Abort,
    alloc: Global,
    desk: &mut Desk<L, M>,
) -> Vec<Seat<L, M>> {
    let mut seats = Vec::new(alloc);
    for _ in 0..4 {
        let seat = desk.sit().expect(rt, "a seat that is left");
        seats.push(seat).expect(rt, "ample memory");
    }
    seats
}

/// The seats, and the calls of each.
fn apart<L: Ledger, M: Ledger>(
    rt: &impl Abort,
    alloc: Global,
    worked: Vec<Worked<L, M>>,
) -> (Vec<Seat<L, M>>, Vec<Calls>) {
    let mut seats = Vec::new(alloc);
    let mut made = Vec::new(alloc);
    for Worked { seat, calls } in worked {
        seats.push(seat).expect(rt, "ample memory");
        made.push(calls).expect(rt, "ample memory");
    }
    (seats, made)
}

/// Four threads, and a desk that is closed once all four seats are back.
pub(crate) fn call_from_four_threads<
    L: Ledger + Send + Sync,
    M: Ledger + Offered + Send + Sync,
    R: Threads + Wait + Abort + Sync,
>(rt: &R, alloc: Global, desk: Desk<L, M>) {
    let mut desk = desk;
    let seats = four_seats(rt, alloc, &mut desk);
    let worked = work_at_once(rt, alloc, &desk, seats).expect(rt, "ample memory");
    let (mut seats, made) = apart(rt, alloc, worked);
    assert!(rt; !seats.is_empty());
    check_counts(rt, &desk, &mut seats[0], &[("pay", 800), ("ship", 400)]);
    let books = close_late(rt, alloc, desk, seats);
    check_books(rt, &books, &[1, 2, 3, 4], &made);
}

#[test]
fn four_threads_make_all_entries(rt: HostRuntime) {
    play_at_a_desk(
        &rt,
        rt.alloc(),
        &["pay", "ship"],
        ConfigParts::DEFAULT,
        Scene::FourThreads,
    );
}
