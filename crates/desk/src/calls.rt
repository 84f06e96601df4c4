//! The calls of seats. Each holds the lock of its service for one call of its book.
ghost use Rattle.std.specs.Prelude.{◌≡◌, ◌<◌, ◌-◌, ◌^◌};
ghost use Rattle.std.specs.Arc.{arc_value};
ghost use Rattle.book.specs.Counts.{HasRoomFor};
ghost use Rattle.service_profile.specs.Answers.{map_ok};
ghost use Rattle.service_profile.specs.Events.{acquires, releases, installs, moves, resets};
ghost use Rattle.desk.specs.Desks.{IsServiceOf};
ghost use Rattle.desk.specs.Seats.{after_call, after_cut};
ghost use Rattle.desk.specs.AfterSome.{IsCalledAfter, IsReplied, IsShown, IsPageFrom, IsCutOff, IsRolledOff};
ghost use Rattle.desk.specs.Calls.{seat_after};

use crate::desks::{Desk, ServiceId};
use crate::offered::Offered;
use crate::seats::Seat;
use book::{Apply, Call, Cut, Entry, Event, Page, Read, Reading, Reply, Roll, State};
use refusals::RefusalNumber;
use std::sync::ledger::Ledger;
use std::sync::{Arc, Wait};
use verifier::Verified;

// Of each call: the answer is the documented machine's after some legal and sound history of one of the desk's
// services, since other threads may change what lies behind a lock at any time. A seat makes an event only where its
// count has room for the entry (`room`), and counts the entry where the event makes one (`counted`). The functions
// behind `call` make one kind of call each; the program asks through `service::ask`, and calls none of them.
impl<L: Ledger, M: Ledger + Offered> Desk<L, M> {
    /// Makes a call of a service by a seat, in one hold of the service's lock.
    pub fn call<R: Wait, C: Call>(
        &self,
        rt: &R,
        seat: &mut Seat<L, M>,
        service: ServiceId,
        call: C,
    ) -> C::Answer
        requires held { IsServiceOf self.now service }
        requires room { HasRoomFor seat.old.count (C.called call) }
        ensures called { IsCalledAfter self.now.services seat.old.number (C.called call) (C.answered result) }
        ensures counted { seat.new ≡ seat_after seat.old (C.called call) (C.answered result) }
    {
        let mut kept = self.services[service.place()].kept.lock(rt);
        kept.call(seat, call)
    }

    /// Asks for a ticket, before a call.
    pub fn acquire<R: Wait>(
        &self,
        rt: &R,
        seat: &mut Seat<L, M>,
        service: ServiceId,
        moment: u64,
    ) -> Reply
        requires held { IsServiceOf self.now service }
        requires room { seat.old.count < 2 ^ 64 - 8 }
        ensures replied { IsReplied self.now.services seat.old.number moment acquires result }
        ensures counted { seat.new ≡ after_call seat.old result }
    {
        self.call(rt, seat, service, Apply(moment, Event::Acquire))
    }

    /// Ends a ticket without an outcome.
    pub fn release<R: Wait>(
        &self,
        rt: &R,
        seat: &mut Seat<L, M>,
        service: ServiceId,
        moment: u64,
        ticket: u64,
    ) -> Reply
        requires held { IsServiceOf self.now service }
        requires room { seat.old.count < 2 ^ 64 - 8 }
        ensures replied { IsReplied self.now.services seat.old.number moment (releases ticket) result }
        ensures counted { seat.new ≡ after_call seat.old result }
    {
        self.call(rt, seat, service, Apply(moment, Event::Release(ticket)))
    }

    /// Makes a program the current version.
    pub fn install<R: Wait>(
        &self,
        rt: &R,
        seat: &mut Seat<L, M>,
        service: ServiceId,
        moment: u64,
        program: Arc<Verified>,
    ) -> Reply
        requires held { IsServiceOf self.now service }
        requires room { seat.old.count < 2 ^ 64 - 8 }
        ensures replied { IsReplied self.now.services seat.old.number moment (installs (arc_value program)) result }
        ensures counted { seat.new ≡ after_call seat.old result }
    {
        self.call(rt, seat, service, Apply(moment, Event::Install(program)))
    }

    /// Moves the breaker to a state.
    pub fn move_to<R: Wait>(
        &self,
        rt: &R,
        seat: &mut Seat<L, M>,
        service: ServiceId,
        moment: u64,
        state: State,
    ) -> Reply
        requires held { IsServiceOf self.now service }
        requires room { seat.old.count < 2 ^ 64 - 8 }
        ensures replied { IsReplied self.now.services seat.old.number moment (moves state) result }
        ensures counted { seat.new ≡ after_call seat.old result }
    {
        self.call(rt, seat, service, Apply(moment, Event::Move(state)))
    }

    /// Moves the breaker to CLOSED.
    pub fn reset<R: Wait>(
        &self,
        rt: &R,
        seat: &mut Seat<L, M>,
        service: ServiceId,
        moment: u64,
    ) -> Reply
        requires held { IsServiceOf self.now service }
        requires room { seat.old.count < 2 ^ 64 - 8 }
        ensures replied { IsReplied self.now.services seat.old.number moment resets result }
        ensures counted { seat.new ≡ after_call seat.old result }
    {
        self.call(rt, seat, service, Apply(moment, Event::Reset))
    }

    /// Reads how the service stands at a moment, in milliseconds, which is raised to the greatest that its book has
    /// seen, for this answer alone. Nothing is counted.
    pub fn read<R: Wait>(
        &self,
        rt: &R,
        seat: &mut Seat<L, M>,
        service: ServiceId,
        moment: u64,
    ) -> Reading
        requires held { IsServiceOf self.now service }
        ensures shown { IsShown self.now.services moment result }
        ensures uncounted { seat.new ≡ seat.old }
    {
        self.call(rt, seat, service, Read(moment))
    }

    /// Copies at most 100 entries of the journal, from a number on. The refusal is
    /// `ServiceOutOfMemory`, where there is no memory for the copies. Nothing is counted.
    pub fn page<R: Wait>(
        &self,
        rt: &R,
        seat: &mut Seat<L, M>,
        service: ServiceId,
        from: u64,
    ) -> Result<Vec<Entry>, RefusalNumber>
        requires held { IsServiceOf self.now service }
        ensures page { IsPageFrom self.now.services from (map_ok (λ entries. entries.items) result) }
        ensures uncounted { seat.new ≡ seat.old }
    {
        self.call(rt, seat, service, Page(from))
    }

    /// Hands out all entries of the journal, which opens anew. Numbers go on, and so
    /// does the count of entries. The seat counts a cut that handed out entries. The refusals are those of `Book::cut`,
    /// and change nothing.
    pub fn cut<R: Wait>(
        &self,
        rt: &R,
        seat: &mut Seat<L, M>,
        service: ServiceId,
    ) -> Result<Vec<Entry>, RefusalNumber>
        requires held { IsServiceOf self.now service }
        ensures cut { IsCutOff self.now.services (map_ok (λ entries. entries.items) result) }
        ensures counted { seat.new ≡ after_cut seat.old (map_ok (λ entries. entries.items) result) }
    {
        self.call(rt, seat, service, Cut)
    }

    /// Hands out the entries of the journal up to a number. All else of the service
    /// goes on as it is, and so does what is counted. What is handed out is the caller's to drop, outside the lock. The
    /// refusals are those of `Book::roll`, and change nothing.
    pub fn roll<R: Wait>(
        &self,
        rt: &R,
        seat: &mut Seat<L, M>,
        service: ServiceId,
        last: u64,
    ) -> Result<Vec<Entry>, RefusalNumber>
        requires held { IsServiceOf self.now service }
        ensures rolled { IsRolledOff self.now.services last (map_ok (λ entries. entries.items) result) }
        ensures uncounted { seat.new ≡ seat.old }
    {
        self.call(rt, seat, service, Roll(last))
    }
}
