//! Four threads with a seat each ask two services. All their calls are counted, and each journal has them as they were
//! made and answered.
use crate::callers::Caller;
use crate::checks::same;
use crate::fixtures::{close, open_desk, seats_of};
use crate::workers::{Done, Log, Work, check_calls, count_of, make_calls, work_at_once};
use book::Book;
use std::alloc::Global;
use std::process::Abort;
use std::sync::Wait;

/// So many tickets of each service, and their reports.
#[derive(Drop)]
struct Tickets {
    pay: u16,
    ship: u16,
}

impl Work for Tickets {
    fn work<R: Wait + Abort>(&self, rt: &R, alloc: Global, caller: &mut Caller<'_>, log: &mut Log) {
        make_calls(rt, alloc, caller, "pay", self.pay, &mut log.pay);
        make_calls(rt, alloc, caller, "ship", self.ship, &mut log.ship);
    }
}

/// A reading of both services, with so many entries.
#[derive(Drop)]
struct Readings {
    pay: u64,
    ship: u64,
}

impl Work for Readings {
    fn work<R: Wait + Abort>(
        &self,
        rt: &R,
        _alloc: Global,
        caller: &mut Caller<'_>,
        _log: &mut Log,
    ) {
        same(rt, caller.read(rt, "pay", 0).entries, self.pay);
        same(rt, caller.read(rt, "ship", 0).entries, self.ship);
    }
}

/// The journals of both services have the calls of each seat.
fn check_books<R: Abort>(rt: &R, books: &[Book], done: &[Done]) {
    assert_eq!(rt; books.len(), 2);
    same(rt, books[0].last_number(), 800);
    same(rt, books[1].last_number(), 400);
    for one in done {
        same(rt, one.count, 300);
        check_calls(rt, &[], &books[0], one.number, &one.log.pay);
        check_calls(rt, &[], &books[1], one.number, &one.log.ship);
    }
}

#[test]
fn four_threads_make_all_entries(rt: HostRuntime) {
    let rt = &rt;
    let alloc = rt.alloc();
    let mut desk = open_desk(rt, alloc, &["pay", "ship"]);
    let seats = seats_of(rt, alloc, &mut desk, 4);
    let tickets = Tickets { pay: 100, ship: 50 };
    let worked = work_at_once(rt, alloc, &desk, seats, &tickets);
    same(rt, worked.done.len(), 4);
    same(rt, count_of(&worked.done), 1200);
    let readings = Readings {
        pay: 800,
        ship: 400,
    };
    let read = work_at_once(rt, alloc, &desk, worked.seats, &readings);
    same(rt, count_of(&read.done), 1200);
    let books = close(rt, alloc, desk, read.seats);
    check_books(rt, &books, &worked.done);
}
