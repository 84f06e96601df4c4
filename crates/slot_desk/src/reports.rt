//! Reports: a look at the ticket, the run of its classifier, and the finish.
ghost use Rattle.std.specs.Prelude.{◌≡◌, ◌<◌, ◌-◌, ◌^◌};
ghost use Rattle.book.specs.Counts.{IsCounted};
ghost use Rattle.service.specs.Asking.{IsReportServed};
ghost use Rattle.slot_desk.specs.Calls.{IsCalledAt};
ghost use Rattle.slot_desk.specs.Places.{report_of};
ghost use Rattle.slot_desk.specs.Desks.{IsServiceOf};
ghost use Rattle.slot_desk.specs.Seats.{IsSeatOf};

use crate::desks::Desk;
use crate::seats::Seat;
use crate::service_place::ServicePlace;
use crate::services::ServiceId;
use book::Reply;
use packed_outcomes::PackedOutcome;
use service::{Gate, Report, report};
use std::sync::Wait;

impl Desk {
    /// Judges the outcome of a call by its ticket's classifier, and ends the ticket. The look at the ticket and the finish take
    /// the book, each for itself; while the outcome is judged, the book is in its slot. A look that is refused makes no entry.
    pub fn report<R: Wait, G: Gate>(
        &self,
        rt: &R,
        seat: &mut Seat,
        service: ServiceId,
        moment: u64,
        ticket: u64,
        outcome: PackedOutcome,
        gate: &G,
    ) -> Reply
        requires seat { IsSeatOf self.now seat.old }
        requires service { IsServiceOf self.now service }
        requires room { seat.old.count < 2 ^ 64 - 8 }
        ensures reported { IsReportServed (IsCalledAt service) seat.old moment (report_of ticket outcome) result seat.new }
        ensures counted { IsCounted seat.old.count result seat.new.count }
    {
        let place = ServicePlace::new(rt, self, service);
        report(seat, &place, moment, Report { ticket, outcome }, gate)
    }
}
