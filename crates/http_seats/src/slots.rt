//! Seats of a desk whose books lie in slots.
ghost use Rattle.std.specs.Prelude.{◌≡◌, ◌≤◌, vec_len, IfOk};
ghost use Rattle.std.specs.List.{AllByRecursion};
ghost use Rattle.slot_desk.specs.Seats.{IsSeatOf};
ghost use Rattle.http_seats.specs.Slots.{AreClosed, closes, counts_of, dealt, seats_of};

use crate::seats::DeskSeat;
use book::Book;
use refusals::RefusalNumber;
use service::{Gate, Request, Response, Upkeep, ask};
use slot_desk::{Desk, Seat, ServiceId, ServicePlace};
use std::alloc::{AllocError, Global};
use std::sync::Wait;

/// So many seats of a desk that has given none.
fn seats(alloc: Global, desk: &mut Desk, count: u64) -> Result<Vec<Seat>, AllocError>
    requires fresh { desk.old.seats ≡ 0 }
    requires few { count ≤ 64 }
    ensures given { IfOk result (λ seats. seats.items ≡ seats_of desk.new.tables desk.new.origins 1 count) }
    ensures same { (desk.new.names ≡ desk.old.names) × (desk.new.tables ≡ desk.old.tables) × (desk.new.origins ≡ desk.old.origins) }
    ensures all { IfOk result (λ seats. desk.new.seats ≡ count) }
{
    let mut seats = Vec::new(alloc);
    for _ in 0..count {
        match desk.sit(alloc) {
            Ok(seat) => seats.push(seat)?,
            Err(RefusalNumber::SeatsFull) => unreachable!(),
            Err(_) => return Err(AllocError),
        }
    }
    Ok(seats)
}

/// Closes a desk to which all its seats came back, and hands out its books, and how many entries each seat has counted.
/// The error is want of memory.
fn closed(alloc: Global, desk: Desk, seats: Vec<Seat>) -> Result<(Vec<Book>, Vec<u64>), AllocError>
    requires here { AllByRecursion (IsSeatOf desk) seats.items }
    requires all { vec_len seats ≡ desk.seats }
    ensures books { IfOk result (λ left. AreClosed desk left.0.items seats.items) }
    ensures counts { IfOk result (λ left. left.1.items ≡ counts_of seats.items) }
{
    let counts = seats.iter().map(|seat| seat.count()).collect(alloc)?;
    match desk.close(alloc, seats) {
        Ok(books) => Ok((books, counts)),
        Err(unclosed) if unclosed.number == RefusalNumber::SeatsMissing => unreachable!(),
        Err(_) => Err(AllocError),
    }
}

impl DeskSeat<Desk> for Seat {
    ghost use Rattle.slot_desk.specs.Desks.{IsServiceOf};
    ghost use Rattle.slot_desk.specs.Seats.{IsSeatOf};
    ghost use Rattle.http_seats.specs.Slots.{names_at, asks, dealt, deals, closes};

    ghost names_of = { names_at };

    ghost has = { IsServiceOf };

    ghost sits_at = { IsSeatOf };

    ghost asks = { asks };

    ghost dealt = { dealt };

    ghost deals = { deals };

    ghost closes = { closes };

    fn service_count(desk: &Desk) -> usize {
        desk.count()
    }

    fn service_name(desk: &Desk, place: usize) -> &str {
        desk.name(ServiceId::at(place))
    }

    fn find(desk: &Desk, service: &str) -> Option<usize> {
        Some(desk.find(service)?.place())
    }

    fn ask<R: Wait, G: Gate>(
        &mut self,
        rt: &R,
        alloc: Global,
        desk: &Desk,
        upkeep: Upkeep,
        place: usize,
        moment: u64,
        request: Request,
        gate: &G,
    ) -> Response {
        let service = ServicePlace::new(rt, desk, ServiceId::at(place));
        ask(alloc, self, &service, upkeep, moment, request, gate)
    }

    fn deal(alloc: Global, desk: &mut Desk, count: u64) -> Result<Vec<Seat>, AllocError> {
        seats(alloc, desk, count)
    }

    fn close(
        alloc: Global,
        desk: Desk,
        seats: Vec<Seat>,
    ) -> Result<(Vec<Book>, Vec<u64>), AllocError>
        requires here { AllByRecursion (IsSeatOf desk) seats.items }
        requires all { vec_len seats ≡ dealt desk }
        ensures { IfOk result (λ left. closes desk seats.items left.0.items left.1.items) }
    {
        closed(alloc, desk, seats)
    }
}
