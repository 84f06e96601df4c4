//! The seats of a desk: how many there are, and that all are wanted at its end.
use crate::checks::{is_true, same};
use crate::desk_fixtures::{Scene, ask, close, close_late, play_at_a_desk};
use book::ConfigParts;
use desk::{Desk, Offered, Seat};
use refusals::RefusalNumber;
use service::OpenGate;
use std::alloc::Global;
use std::process::Abort;
use std::sync::Wait;
use std::sync::ledger::Ledger;
use worked_histories::Wish;

/// A desk with as many seats as it has.
pub(crate) fn take_all_seats<L: Ledger, M: Ledger + Offered, R: Wait + Abort>(
    rt: &R,
    alloc: Global,
    desk: Desk<L, M>,
) {
    let mut desk = desk;
    let seats = take_seats(rt, alloc, &mut desk);
    same(rt, desk.sit().err(), Some(RefusalNumber::SeatsFull));
    is_true(rt, desk.find("ship").is_none());
    same(rt, close(rt, alloc, desk, seats).len(), 1);
}

/// All seats of a new desk, in their order.
fn take_seats<L: Ledger, M: Ledger + Offered>(
    rt: &impl Abort,
    alloc: Global,
    desk: &mut Desk<L, M>,
) -> Vec<Seat<L, M>> {
    let mut seats = Vec::new(alloc);
    for number in 1..=128 {
        let seat = desk.sit().expect(rt, "a seat that is left");
        same(rt, (seat.number(), seat.count()), (number, 0));
        seats.push(seat).expect(rt, "ample memory");
    }
    seats
}

#[test]
fn there_are_128_seats(rt: HostRuntime) {
    play_at_a_desk(
        &rt,
        rt.alloc(),
        &["pay"],
        ConfigParts::DEFAULT,
        Scene::AllSeats,
    );
}

/// A new seat, which makes these calls.
fn busy_seat<L: Ledger, M: Ledger + Offered, R: Wait + Abort>(
    rt: &R,
    alloc: Global,
    desk: &mut Desk<L, M>,
    calls: &[(&str, Wish)],
) -> Seat<L, M> {
    let mut seat = desk.sit().expect(rt, "a seat that is left");
    for (name, wish) in calls {
        ask(rt, alloc, desk, &mut seat, name, 5, *wish, &OpenGate);
    }
    seat
}

/// Four seats and two services: the desk is closed once all four are back.
pub(crate) fn use_four_seats<L: Ledger, M: Ledger + Offered, R: Wait + Abort>(
    rt: &R,
    alloc: Global,
    desk: Desk<L, M>,
) {
    let mut desk = desk;
    let seats = busy_seats(rt, alloc, &mut desk);
    let books = close_late(rt, alloc, desk, seats);
    assert_eq!(rt; books.len(), 2);
    same(rt, books[0].last_number(), 3);
    same(rt, books[1].last_number(), 4);
}

/// Three seats that ask both services, and a last one that asks one of them.
fn busy_seats<L: Ledger, M: Ledger + Offered, R: Wait + Abort>(
    rt: &R,
    alloc: Global,
    desk: &mut Desk<L, M>,
) -> Vec<Seat<L, M>> {
    let mut seats = Vec::new(alloc);
    for _ in 0..3 {
        let calls = &[("pay", Wish::Acquire), ("ship", Wish::Reset)];
        let seat = busy_seat(rt, alloc, desk, calls);
        seats.push(seat).expect(rt, "ample memory");
    }
    let last = busy_seat(rt, alloc, desk, &[("ship", Wish::Release(7))]);
    seats.push(last).expect(rt, "ample memory");
    seats
}

#[test]
fn all_seats_are_wanted_to_close(rt: HostRuntime) {
    play_at_a_desk(
        &rt,
        rt.alloc(),
        &["pay", "ship"],
        ConfigParts::DEFAULT,
        Scene::FourSeats,
    );
}
