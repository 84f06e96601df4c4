//! Reports: a look at the ticket, the run of its classifier, and the finish.
ghost use Rattle.std.specs.Prelude.{◌≡◌, ◌<◌, ◌-◌, ◌^◌};
ghost use Rattle.desk.specs.Desks.{IsServiceOf};
ghost use Rattle.book.specs.Counts.{IsCounted};
ghost use Rattle.desk.specs.AfterSome.{IsReported};

use crate::desks::{Desk, ServiceId};
use crate::offered::Offered;
use crate::seats::Seat;
use crate::service_place::ServicePlace;
use book::Reply;
use packed_outcomes::PackedOutcome;
use service::{Gate, Report, report};
use std::sync::Wait;
use std::sync::ledger::Ledger;

impl<L: Ledger, M: Ledger + Offered> Desk<L, M> {
    /// Judges the outcome of a call by its ticket's classifier, and ends the ticket. The look at the ticket
    /// and the finish hold the service's lock, each for itself; while the outcome is judged no lock is held.
    /// A look that is refused makes no entry. The program asks through `service::ask`, and doesn't call this.
    pub fn report<R: Wait, G: Gate>(
        &self,
        rt: &R,
        seat: &mut Seat<L, M>,
        service: ServiceId,
        moment: u64,
        ticket: u64,
        outcome: PackedOutcome,
        gate: &G,
    ) -> Reply
        requires held { IsServiceOf self.now service }
        requires room { seat.old.count < 2 ^ 64 - 8 }
        ensures reported { IsReported self.now.services seat.old moment ticket outcome result seat.new }
        ensures counted { IsCounted seat.old.count result seat.new.count }
    {
        let place = ServicePlace::new(rt, self, service);
        report(seat, &place, moment, Report { ticket, outcome }, gate)
    }
}
