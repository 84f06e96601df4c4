//! The seats of a desk: how many there are, and that all are wanted at its end.
ghost use Rattle.std.specs.Prelude.{◌≡◌};
ghost use Rattle.std.specs.List.{AllByRecursion};
ghost use Rattle.slot_desk.specs.Seats.{IsSeatOf};

use crate::callers::Caller;
use crate::checks::same;
use crate::fixtures::{close, open_desk, seats_of};
use crate::workers::{Log, Work, work_at_once};
use book::{Book, Reply};
use refusals::RefusalNumber;
use service::OpenGate;
use slot_desk::{Desk, Seat, Unclosed};
use std::alloc::Global;
use std::process::Abort;
use std::sync::Wait;
use worked_histories::{Answer, Wish, reply};

/// The seats have the numbers from 1 on, and have made so many entries.
fn check_seats<R: Abort>(rt: &R, seats: &[Seat], count: u64) {
    let mut number: u64 = 0;
    for seat in seats {
        number = number.saturating_add(1);
        same(rt, (seat.number() as u64, seat.count()), (number, count));
    }
}

#[test]
fn there_are_128_seats(rt: HostRuntime) {
    let rt = &rt;
    let alloc = rt.alloc();
    let mut desk = open_desk(rt, alloc, &["pay"]);
    let seats = seats_of(rt, alloc, &mut desk, 128);
    check_seats(rt, &seats, 0);
    same(rt, seats.len(), 128);
    same(rt, desk.sit(alloc).err(), Some(RefusalNumber::SeatsFull));
    same(rt, close(rt, alloc, desk, seats).len(), 1);
}

/// A ticket of one service, and the release of one that was never issued at the other.
#[derive(Drop)]
struct TwoCalls;

impl Work for TwoCalls {
    fn work<R: Wait + Abort>(
        &self,
        rt: &R,
        alloc: Global,
        caller: &mut Caller<'_>,
        _log: &mut Log,
    ) {
        let acquired = caller.call(rt, alloc, "pay", 5, Wish::Acquire, &OpenGate);
        same(rt, matches!(acquired, Reply::Permitted { .. }), true);
        let released = caller.call(rt, alloc, "ship", 5, Wish::Release(7), &OpenGate);
        let never_issued = Answer::Refused(RefusalNumber::NoTicket);
        same(rt, released, reply(never_issued));
    }
}

/// Tries to close a desk for which a seat is missing.
fn stay_open<R: Abort>(rt: &R, alloc: Global, desk: Desk, seats: Vec<Seat>) -> Unclosed
    requires { AllByRecursion (IsSeatOf desk) seats.items }
    ensures same { result.desk ≡ desk }
    ensures same_seats { result.seats ≡ seats }
{
    desk.close(alloc, seats)
        .err()
        .expect(rt, "a seat is missing")
}

/// Closes a desk without the last of its seats, which is refused, and then with it.
fn close_late<R: Abort>(rt: &R, alloc: Global, desk: Desk, seats: Vec<Seat>) -> Vec<Book>
    requires { AllByRecursion (IsSeatOf desk) seats.items }
{
    let mut seats = seats;
    let last = seats.pop().expect(rt, "a last seat");
    let Unclosed {
        desk,
        mut seats,
        number,
    } = stay_open(rt, alloc, desk, seats);
    same(rt, number, RefusalNumber::SeatsMissing);
    same(rt, seats.len(), 3);
    check_seats(rt, &seats, 2);
    seats.push(last).expect(rt, "ample memory");
    close(rt, alloc, desk, seats)
}

/// Two books have so many entries.
fn check_books<R: Abort>(rt: &R, books: &[Book], first: u64, second: u64) {
    assert_eq!(rt; books.len(), 2);
    same(rt, books[0].last_number(), first);
    same(rt, books[1].last_number(), second);
}

#[test]
fn all_seats_are_wanted_to_close(rt: HostRuntime) {
    let rt = &rt;
    let alloc = rt.alloc();
    let mut desk = open_desk(rt, alloc, &["pay", "ship"]);
    let seats = seats_of(rt, alloc, &mut desk, 4);
    let worked = work_at_once(rt, alloc, &desk, seats, &TwoCalls);
    let books = close_late(rt, alloc, desk, worked.seats);
    check_books(rt, &books, 4, 4);
}
