//! What the tests of a desk share: a desk, its seats, and what is read in its books.
ghost use Rattle.std.specs.Prelude.{◌≡◌, ◌≤◌};
ghost use Rattle.std.specs.List.{AllByRecursion};
ghost use Rattle.service_profile.specs.Limits.{greatest_number};
ghost use Rattle.slot_desk.specs.Seats.{IsSeatOf};

use crate::checks::{is_true, same};
use book::{Book, Config, ConfigParts, Entry};
use slot_desk::{Desk, Seat};
use std::alloc::Global;
use std::process::Abort;
use verifier::Verified;
use worked_histories::{Entered, program};

/// A new desk with services of these names, with the default configuration and the default classifier.
pub(crate) fn open_desk<R: Abort>(rt: &R, alloc: Global, names: &[&str]) -> Desk {
    open_desk_with(rt, alloc, names, ConfigParts::DEFAULT)
}

/// A new desk with services of these names, of one configuration, with the default classifier.
pub(crate) fn open_desk_with<R: Abort>(
    rt: &R,
    alloc: Global,
    names: &[&str],
    parts: ConfigParts,
) -> Desk {
    let services = services(rt, alloc, names, parts);
    assert!(rt; services.len() <= 64);
    Desk::open(alloc, services).expect(rt, "ample memory")
}

/// A new desk with services of these names, with the default configuration and the default classifier, whose tickets
/// begin at this number.
pub(crate) fn open_desk_from<R: Abort>(
    rt: &R,
    alloc: Global,
    names: &[&str],
    first_ticket: u64,
) -> Desk
    requires least { 1 ≤ first_ticket }
    requires most { first_ticket ≤ greatest_number }
{
    let services = services(rt, alloc, names, ConfigParts::DEFAULT);
    assert!(rt; services.len() <= 64);
    Desk::open_from(alloc, services, first_ticket).expect(rt, "ample memory")
}

/// Services of these names, of one configuration.
fn services<R: Abort>(
    rt: &R,
    alloc: Global,
    names: &[&str],
    parts: ConfigParts,
) -> Vec<(String, Config, Verified)> {
    let mut services = Vec::new(alloc);
    for name in names {
        let service = service(rt, alloc, name, parts);
        services.push(service).expect(rt, "ample memory");
    }
    services
}

/// A service of this name and configuration.
fn service<R: Abort>(
    rt: &R,
    alloc: Global,
    name: &str,
    parts: ConfigParts,
) -> (String, Config, Verified) {
    let config = Config::new(parts).expect(rt, "parts in their ranges");
    let name = String::from_str(alloc, name).expect(rt, "ample memory");
    let classifier = program(alloc, false).expect(rt, "the default classifier");
    (name, config, classifier)
}

/// A new seat of a desk.
pub(crate) fn seat_of<R: Abort>(rt: &R, alloc: Global, desk: &mut Desk) -> Seat
    ensures seat { IsSeatOf desk.new result }
    ensures same { desk.new.tables ≡ desk.old.tables }
{
    desk.sit(alloc).expect(rt, "a seat that is left")
}

/// Two new seats of a desk.
pub(crate) fn two_seats<R: Abort>(rt: &R, alloc: Global, desk: &mut Desk) -> (Seat, Seat)
    ensures first { IsSeatOf desk.new result.0 }
    ensures second { IsSeatOf desk.new result.1 }
{
    let first = seat_of(rt, alloc, desk);
    let second = seat_of(rt, alloc, desk);
    (first, second)
}

/// So many new seats of a desk, in their order.
pub(crate) fn seats_of<R: Abort>(rt: &R, alloc: Global, desk: &mut Desk, count: u32) -> Vec<Seat>
    ensures { AllByRecursion (IsSeatOf desk.new) result.items }
{
    let mut seats = Vec::new(alloc);
    for _ in 0..count {
        let seat = seat_of(rt, alloc, desk);
        seats.push(seat).expect(rt, "ample memory");
    }
    seats
}

/// Closes a desk, for which all its seats are given.
pub(crate) fn close<R: Abort>(rt: &R, alloc: Global, desk: Desk, seats: Vec<Seat>) -> Vec<Book>
    requires { AllByRecursion (IsSeatOf desk) seats.items }
{
    desk.close(alloc, seats)
        .ok()
        .expect(rt, "all seats are given")
}

/// Closes a desk with one service, for which all its seats are given.
pub(crate) fn close_one<R: Abort>(rt: &R, alloc: Global, desk: Desk, seats: Vec<Seat>) -> Book
    requires { AllByRecursion (IsSeatOf desk) seats.items }
{
    let mut books = close(rt, alloc, desk, seats);
    same(rt, books.len(), 1);
    books.pop().expect(rt, "one book")
}

/// Closes a desk with one service and two seats.
pub(crate) fn close_both<R: Abort>(
    rt: &R,
    alloc: Global,
    desk: Desk,
    first: Seat,
    second: Seat,
) -> Book
    requires first { IsSeatOf desk first }
    requires second { IsSeatOf desk second }
{
    let seats = Vec::from_array(alloc, [first, second]).expect(rt, "ample memory");
    close_one(rt, alloc, desk, seats)
}

/// Entries are these.
pub(crate) fn are_entries<R: Abort>(rt: &R, entries: &[Entry], wanted: &[Entered]) {
    is_true(rt, worked_histories::are_entries(entries, wanted));
}

/// A book has these entries since it was opened, of which the last one is its last.
pub(crate) fn has_entries<R: Abort>(rt: &R, book: &Book, wanted: &[Entered], last_number: u64) {
    are_entries(rt, book.entries(0), wanted);
    same(rt, book.last_number(), last_number);
}
