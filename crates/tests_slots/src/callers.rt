//! Callers: a seat with the desk that it asks.
ghost use Rattle.std.specs.Prelude.{◌≡◌, ◌<◌, length};
ghost use Rattle.slot_desk.specs.Seats.{IsSeatOf};

use book::{Entry, Event, Reading, Reply};
use refusals::RefusalNumber;
use service::{Gate, Request, Response, Upkeep, ask};
use slot_desk::{Busy, Desk, Held, Seat, ServiceId, ServicePlace};
use std::alloc::Global;
use std::marker::Model;
use std::process::Abort;
use std::sync::{Arc, Wait};
use verifier::Verified;
use worked_histories::{Wish, outcome_of, shared_program};

/// More entries than a seat of a test makes.
const MANY: u64 = 1_000_000;

/// A seat at its desk: what a thread takes along. Contracts see the tables that the desk's books lie in.
#[derive(Drop)]
pub(crate) struct Caller<'a> {
    desk: &'a Desk,
    seat: Seat,
}

impl<'a> Model for Caller<'a> {
    ghost use Rattle.std.specs.Prelude.{List};
    ghost use Rattle.atomic_table.specs.Seated.{TableId};
    ghost use Rattle.slot_desk.specs.Seats.{IsSeatOf};

    ghost Value = { List TableId };

    ghost view = { λ caller. caller.desk.now.tables };

    ghost invariant = { λ caller. IsSeatOf caller.desk.now caller.seat };
}

impl<'a> Caller<'a> {
    /// A seat at its desk.
    pub(crate) fn new(desk: &'a Desk, seat: Seat) -> Caller<'a>
        requires seat { IsSeatOf desk.now seat }
        ensures { result ≡ desk.now.tables }
    {
        Caller { desk, seat }
    }

    /// Gives the seat back.
    pub(crate) fn into_seat(self) -> Seat
        ensures { result.tables ≡ self.entry }
    {
        let Caller { seat, .. } = self;
        seat
    }

    /// The number of the seat.
    pub(crate) fn number(&self) -> u32 {
        self.seat.number()
    }

    /// How many entries the calls of the seat have made.
    pub(crate) fn count(&self) -> u64 {
        self.seat.count()
    }

    /// The service of a name.
    fn service<R: Abort>(&self, rt: &R, name: &str) -> ServiceId
        ensures { result < length self.now }
    {
        self.desk.find(name).expect(rt, "a service of the desk")
    }

    /// Asks for a ticket.
    pub(crate) fn acquire<R: Wait + Abort>(&mut self, rt: &R, name: &str, moment: u64) -> Reply
        ensures { self.new ≡ self.old }
    {
        let service = self.service(rt, name);
        assert!(rt; self.seat.count() < MANY);
        self.desk.acquire(rt, &mut self.seat, service, moment)
    }

    /// Asks the service of a name for what makes an entry, by the call of that name; a report passes the gate.
    #[tactic(auto, using(crate::proofs::Keeping::called_stays, crate::proofs::Keeping::reported_stays))]
    pub(crate) fn call<R: Wait + Abort, G: Gate>(
        &mut self,
        rt: &R,
        alloc: Global,
        name: &str,
        moment: u64,
        wish: Wish,
        gate: &G,
    ) -> Reply
        ensures { self.new ≡ self.old }
    {
        let service = self.service(rt, name);
        assert!(rt; self.seat.count() < MANY);
        let Caller { desk, seat } = self;
        match wish {
            Wish::Acquire => desk.acquire(rt, seat, service, moment),
            Wish::Report(ticket, status) => {
                let outcome = outcome_of(alloc, status).expect(rt, "ample memory");
                desk.report(rt, seat, service, moment, ticket, outcome, gate)
            }
            Wish::Release(ticket) => desk.release(rt, seat, service, moment, ticket),
            Wish::InstallIgnoring => {
                desk.install(rt, seat, service, moment, shared(rt, alloc, true))
            }
            Wish::InstallDefault => {
                desk.install(rt, seat, service, moment, shared(rt, alloc, false))
            }
            Wish::Move(state) => desk.move_to(rt, seat, service, moment, state),
            Wish::Reset => desk.reset(rt, seat, service, moment),
        }
    }

    /// Reads how the service of a name stands.
    pub(crate) fn read<R: Wait + Abort>(&mut self, rt: &R, name: &str, moment: u64) -> Reading
        ensures { self.new ≡ self.old }
    {
        let service = self.service(rt, name);
        self.desk.read(rt, &mut self.seat, service, moment)
    }

    /// A page of the journal of a service, from a number on.
    pub(crate) fn page<R: Wait + Abort>(&mut self, rt: &R, name: &str, from: u64) -> Vec<Entry>
        ensures { self.new ≡ self.old }
    {
        let service = self.service(rt, name);
        self.desk
            .page(rt, &mut self.seat, service, from)
            .expect(rt, "ample memory")
    }

    /// Cuts the journal of a service.
    pub(crate) fn cut<R: Wait + Abort>(
        &mut self,
        rt: &R,
        name: &str,
    ) -> Result<Vec<Entry>, RefusalNumber>
        ensures { self.new ≡ self.old }
    {
        let service = self.service(rt, name);
        self.desk.cut(rt, &mut self.seat, service)
    }

    /// Hands out the entries of a service up to a number.
    pub(crate) fn roll<R: Wait + Abort>(&mut self, rt: &R, name: &str, last: u64) -> Vec<Entry>
        ensures { self.new ≡ self.old }
    {
        let service = self.service(rt, name);
        self.desk
            .roll(rt, &mut self.seat, service, last)
            .expect(rt, "ample memory")
    }

    /// Asks the service of a name as a front does; a report passes the gate.
    pub(crate) fn ask<R: Wait + Abort, G: Gate>(
        &mut self,
        rt: &R,
        alloc: Global,
        name: &str,
        moment: u64,
        request: Request,
        gate: &G,
    ) -> Response
        ensures { self.new ≡ self.old }
    {
        let service = self.service(rt, name);
        let place = ServicePlace::new(rt, self.desk, service);
        ask(
            alloc,
            &mut self.seat,
            &place,
            Upkeep::NONE,
            moment,
            request,
            gate,
        )
    }

    /// Tries to apply an event, and waits for nobody. There is no answer where the desk has no service of the name.
    pub(crate) fn try_call(
        &mut self,
        name: &str,
        moment: u64,
        event: Event,
    ) -> Option<Result<Reply, Busy>>
        ensures { self.new ≡ self.old }
    {
        let service = self.desk.find(name)?;
        if self.seat.count() >= MANY {
            return None;
        }
        Some(self.desk.try_call(&mut self.seat, service, moment, event))
    }

    /// The same, with something done while the book is out of its slot.
    pub(crate) fn try_call_with<H: Held>(
        &mut self,
        name: &str,
        moment: u64,
        event: Event,
        meanwhile: &mut H,
    ) -> Option<Result<Reply, Busy>>
        ensures { self.new ≡ self.old }
    {
        let service = self.desk.find(name)?;
        if self.seat.count() >= MANY {
            return None;
        }
        Some(
            self.desk
                .try_call_with(&mut self.seat, service, moment, event, meanwhile),
        )
    }

    /// Lets the seats of two callers at one desk compare what they have seen of a service.
    pub(crate) fn meet<R: Abort>(&mut self, rt: &R, other: &mut Caller<'_>, name: &str)
        requires { other.old ≡ self.old }
        ensures same { self.new ≡ self.old }
        ensures other_same { other.new ≡ other.old }
    {
        let service = self.service(rt, name);
        self.desk.meet(&mut self.seat, &mut other.seat, service);
    }
}

/// The program that ignores every outcome, or the default classifier.
fn shared<R: Abort>(rt: &R, alloc: Global, ignoring: bool) -> Arc<Verified> {
    shared_program(alloc, ignoring).expect(rt, "ample memory")
}
