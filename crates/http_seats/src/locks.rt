//! Seats of a desk whose books lie behind locks.
ghost use Rattle.std.specs.Prelude.{◌≡◌, ◌≤◌, position, bytes_eq, vec_len, IfOk, IfSome};
ghost use Rattle.std.specs.List.{AllByRecursion};
ghost use Rattle.desk.specs.Desks.{IsServiceOf};
ghost use Rattle.http_seats.specs.Locks.{AreClosed, closes, counts_of, dealt, seats_of, sits_at};

use crate::seats::DeskSeat;
use book::Book;
use desk::{Desk, Offered, Seat, ServiceId, ServicePlace};
use refusals::RefusalNumber;
use service::{Gate, Request, Response, Upkeep, ask};
use std::alloc::{AllocError, Global};
use std::sync::Wait;
use std::sync::ledger::Ledger;

/// So many seats of a desk that has given none.
fn seats<L: Ledger, M: Ledger + Offered>(
    alloc: Global,
    desk: &mut Desk<L, M>,
    count: u64,
) -> Result<Vec<Seat<L, M>>, AllocError>
    requires fresh { desk.old.seats ≡ 0 }
    requires few { count ≤ 64 }
    ensures given { IfOk result (λ seats. seats.items ≡ seats_of 1 count) }
    ensures services { desk.new.services ≡ desk.old.services }
    ensures all { IfOk result (λ seats. desk.new.seats ≡ count) }
{
    let mut seats = Vec::new(alloc);
    for _ in 0..count {
        match desk.sit() {
            Ok(seat) => seats.push(seat)?,
            Err(_) => unreachable!(),
        }
    }
    Ok(seats)
}

/// Closes a desk to which all its seats came back, and hands out its books, and how many entries each seat has counted.
/// The error is want of memory.
fn closed<L: Ledger, M: Ledger + Offered>(
    alloc: Global,
    desk: Desk<L, M>,
    seats: Vec<Seat<L, M>>,
) -> Result<(Vec<Book>, Vec<u64>), AllocError>
    requires all { vec_len seats ≡ desk.seats }
    ensures books { IfOk result (λ left. AreClosed desk.services left.0.items seats.items) }
    ensures counts { IfOk result (λ left. left.1.items ≡ counts_of seats.items) }
{
    let counts = seats.iter().map(|seat| seat.count()).collect(alloc)?;
    match desk.close(alloc, seats) {
        Ok(books) => Ok((books, counts)),
        Err(unclosed) if unclosed.number == RefusalNumber::SeatsMissing => unreachable!(),
        Err(_) => Err(AllocError),
    }
}

/// Where the first of the desk's services with a name stands.
fn place_of<L: Ledger, M: Ledger + Offered>(desk: &Desk<L, M>, name: &str) -> Option<usize>
    ensures found { result ≡ position (λ service. bytes_eq service.name name.now) desk.now.services }
    ensures held { IfSome result (IsServiceOf desk.now) }
{
    Some(desk.find(name)?.place())
}

impl<L: Ledger, M: Ledger + Offered> DeskSeat<Desk<L, M>> for Seat<L, M> {
    ghost use Rattle.desk.specs.Desks.{IsServiceOf};
    ghost use Rattle.http_seats.specs.Locks.{names_at, sits_at, asks, dealt, deals, closes};

    ghost names_of = { names_at };

    ghost has = { IsServiceOf };

    ghost sits_at = { sits_at };

    ghost asks = { asks };

    ghost dealt = { dealt };

    ghost deals = { deals };

    ghost closes = { closes };

    fn service_count(desk: &Desk<L, M>) -> usize {
        desk.count()
    }

    fn service_name(desk: &Desk<L, M>, place: usize) -> &str {
        desk.name(ServiceId::at(place))
    }

    fn find(desk: &Desk<L, M>, service: &str) -> Option<usize> {
        place_of(desk, service)
    }

    fn ask<R: Wait, G: Gate>(
        &mut self,
        rt: &R,
        alloc: Global,
        desk: &Desk<L, M>,
        upkeep: Upkeep,
        place: usize,
        moment: u64,
        request: Request,
        gate: &G,
    ) -> Response {
        let service = ServicePlace::new(rt, desk, ServiceId::at(place));
        ask(alloc, self, &service, upkeep, moment, request, gate)
    }

    fn deal(
        alloc: Global,
        desk: &mut Desk<L, M>,
        count: u64,
    ) -> Result<Vec<Seat<L, M>>, AllocError> {
        seats(alloc, desk, count)
    }

    fn close(
        alloc: Global,
        desk: Desk<L, M>,
        seats: Vec<Seat<L, M>>,
    ) -> Result<(Vec<Book>, Vec<u64>), AllocError>
        requires here { AllByRecursion (sits_at desk) seats.items }
        requires all { vec_len seats ≡ dealt desk }
        ensures { IfOk result (λ left. closes desk seats.items left.0.items left.1.items) }
    {
        closed(alloc, desk, seats)
    }
}
