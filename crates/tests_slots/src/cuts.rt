//! Sixteen threads ask two services, and one of them cuts a journal in between. Numbers go on over the cut, and none is
//! missing.
ghost use Rattle.std.specs.Prelude.{◌≡◌};

use crate::callers::Caller;
use crate::checks::same;
use crate::fixtures::{close, open_desk, seats_of};
use crate::workers::{Done, Log, Work, check_calls, count_of, make_calls, work_at_once};
use book::{Book, Entry};
use refusals::RefusalNumber;
use std::alloc::Global;
use std::process::Abort;
use std::sync::Wait;
use std::thread;
use worked_histories::Flag;

/// How often a cut is tried.
const MOST_TRIES: u32 = 20_000_000;

/// Cuts the journal, as soon as no ticket is open.
fn cut_soon<R: Wait + Abort>(rt: &R, alloc: Global, caller: &mut Caller<'_>) -> Vec<Entry>
    ensures { caller.new ≡ caller.old }
{
    for _ in 0..MOST_TRIES {
        match caller.cut(rt, "pay") {
            Ok(entries) => return entries,
            Err(number) => same(rt, number, RefusalNumber::TicketsOpen),
        }
        thread::yield_now();
    }
    Vec::new(alloc)
}

/// Tickets of both services and their reports, before and after the cut that the first seat makes.
#[derive(Drop)]
struct AroundACut {
    is_cut: Flag,
}

impl Work for AroundACut {
    fn work<R: Wait + Abort>(&self, rt: &R, alloc: Global, caller: &mut Caller<'_>, log: &mut Log) {
        make_calls(rt, alloc, caller, "pay", 10, &mut log.pay);
        make_calls(rt, alloc, caller, "ship", 10, &mut log.ship);
        if caller.number() == 1 {
            log.handed_out = cut_soon(rt, alloc, caller);
            self.is_cut.raise();
        } else {
            self.is_cut.wait();
        }
        make_calls(rt, alloc, caller, "pay", 10, &mut log.pay);
        make_calls(rt, alloc, caller, "ship", 10, &mut log.ship);
    }
}

/// The entries that were handed out, and then those of the book, have the numbers from 1 to this one.
fn check_numbers<R: Abort>(rt: &R, handed_out: &[Entry], book: &Book, last: u64) {
    let mut number: u64 = 0;
    for entry in handed_out.iter().chain(book.entries(0)) {
        number = number.saturating_add(1);
        same(rt, entry.number(), number);
    }
    same(rt, number, last);
    same(rt, book.last_number(), last);
}

/// All entries of two books stand where the seats made them.
fn check_books<R: Abort>(rt: &R, books: &[Book], done: &[Done]) {
    assert_eq!(rt; books.len(), 2);
    assert!(rt; !done.is_empty());
    let handed_out = &done[0].log.handed_out;
    same(rt, handed_out.is_empty(), false);
    check_numbers(rt, handed_out, &books[0], 640);
    check_numbers(rt, &[], &books[1], 640);
    for one in done {
        same(rt, one.count, 80);
        check_calls(rt, handed_out, &books[0], one.number, &one.log.pay);
        check_calls(rt, &[], &books[1], one.number, &one.log.ship);
    }
}

#[test]
fn numbers_go_on_over_a_cut_among_16_threads(rt: HostRuntime) {
    let rt = &rt;
    let alloc = rt.alloc();
    let mut desk = open_desk(rt, alloc, &["pay", "ship"]);
    let seats = seats_of(rt, alloc, &mut desk, 16);
    let work = AroundACut {
        is_cut: Flag::new(),
    };
    let worked = work_at_once(rt, alloc, &desk, seats, &work);
    same(rt, worked.done.len(), 16);
    same(rt, count_of(&worked.done), 1280);
    let books = close(rt, alloc, desk, worked.seats);
    check_books(rt, &books, &worked.done);
}
