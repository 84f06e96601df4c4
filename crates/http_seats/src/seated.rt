//! An answerer with a seat at a desk.
ghost use Rattle.std.specs.Prelude.{◌≡◌};
ghost use Rattle.http_seats.specs.Seated.{seated};

use crate::seats::DeskSeat;
use http_front::Answerer;
use service::{Gate, Log, Request, Response, Upkeep, upkeep_at};
use std::alloc::Global;
use std::marker::Model;
use std::sync::Wait;

/// Answers for the services of a desk, by one seat. Contracts see the desk, what its services do for their own upkeep, and
/// the seat.
#[derive(Drop)]
pub struct SeatedAnswerer<'a, D, S: DeskSeat<D>, G: Gate, R: Wait> {
    rt: &'a R,
    alloc: Global,
    desk: &'a D,
    upkeeps: &'a [Upkeep],
    seat: S,
    gate: &'a G,
}

impl<'a, D, S: DeskSeat<D>, G: Gate, R: Wait> Model for SeatedAnswerer<'a, D, S, G, R> {
    ghost use Rattle.http_seats.specs.Seated.{SeatedData, seated};

    ghost Value = { SeatedData D S };

    ghost view = { λ answerer. seated answerer.desk.now answerer.upkeeps.now answerer.seat };

    ghost invariant = { λ answerer. S.sits_at answerer.desk.now answerer.seat };
}

impl<'a, D, S: DeskSeat<D>, G: Gate, R: Wait> SeatedAnswerer<'a, D, S, G, R> {
    /// Answers for a desk, by this seat of it. Each service does for its upkeep what stands at its place among these; one
    /// behind the last does nothing of its own. A report passes the gate in its middle.
    pub fn new(
        rt: &'a R,
        alloc: Global,
        desk: &'a D,
        upkeeps: &'a [Upkeep],
        seat: S,
        gate: &'a G,
    ) -> Self
        requires seat { S.sits_at desk.now seat }
        ensures { result ≡ seated desk.now upkeeps.now seat }
    {
        SeatedAnswerer {
            rt,
            alloc,
            desk,
            upkeeps,
            seat,
            gate,
        }
    }

    /// Gives the seat back.
    pub fn into_seat(self) -> S
        ensures seat { result ≡ self.entry.seat }
        // It is still one of its desk's.
        ensures held { S.sits_at self.entry.desk result }
    {
        let SeatedAnswerer { seat, .. } = self;
        seat
    }
}

impl<'a, D, S: DeskSeat<D>, G: Gate, R: Wait> Answerer for SeatedAnswerer<'a, D, S, G, R> {
    ghost use Rattle.http_seats.specs.Seated.{names_by, has_by, asks_by};

    ghost names_of = { names_by S.names_of };

    ghost has = { has_by S.has };

    ghost answers = { asks_by S.asks };

    fn count(&self) -> usize {
        S::service_count(self.desk)
    }

    fn name(&self, place: usize) -> &str {
        S::service_name(self.desk, place)
    }

    fn find(&self, service: &str) -> Option<usize> {
        S::find(self.desk, service)
    }

    fn refused(&self, place: usize, moment: u64, body: &[u8]) {
        if let Log::Changes(service) = upkeep_at(self.upkeeps, place).log {
            self.gate.refused(service, moment, body);
        }
    }

    fn ask(&mut self, place: usize, moment: u64, request: Request) -> Response {
        let SeatedAnswerer {
            rt,
            alloc,
            desk,
            upkeeps,
            seat,
            gate,
        } = self;
        let upkeep = upkeep_at(*upkeeps, place);
        seat.ask(*rt, *alloc, *desk, upkeep, place, moment, request, *gate)
    }
}
