//! The calls of seats that wait until they have the book of their service.
ghost use Rattle.std.specs.Prelude.{◌≡◌, ◌<◌, ◌-◌, ◌^◌};
ghost use Rattle.std.specs.Arc.{arc_value};
ghost use Rattle.book.specs.Counts.{HasRoomFor};
ghost use Rattle.service_profile.specs.Answers.{map_ok};
ghost use Rattle.service_profile.specs.Calls.{applies, reads, pages, cuts, rolls, replies, shows, hands};
ghost use Rattle.service_profile.specs.Events.{acquires, releases, installs, moves, resets};
ghost use Rattle.slot_desk.specs.Calls.{IsCalledAt};
ghost use Rattle.slot_desk.specs.Desks.{IsServiceOf};
ghost use Rattle.slot_desk.specs.Seats.{IsSeatOf};

use crate::desks::Desk;
use crate::seats::Seat;
use crate::services::ServiceId;
use book::{Apply, Call, Cut, Entry, Event, Page, Read, Reading, Reply, Roll, State};
use refusals::RefusalNumber;
use std::sync::{Arc, Wait};
use verifier::Verified;

// Of each call: the answer is the named service's book's to this seat, after a good history that begins with all that the seat
// has seen of that service and has just its own entries; what the call left is what the seat has seen after it; what it knows of
// the other services stays. The functions behind `call` make one kind of call each; the program asks through `service::ask`,
// and calls none of them.
impl Desk {
    /// Makes a call of a service by a seat. It waits until the service's book is in its slot.
    pub fn call<R: Wait, C: Call>(
        &self,
        rt: &R,
        seat: &mut Seat,
        service: ServiceId,
        call: C,
    ) -> C::Answer
        requires seat { IsSeatOf self.now seat.old }
        requires service { IsServiceOf self.now service }
        requires room { HasRoomFor seat.old.count (C.called call) }
        ensures called { IsCalledAt service seat.old (C.called call) (C.answered result) seat.new }
    {
        let at = service.place();
        let place = &mut seat.places[at];
        let (answer, made) = self.slots[at].call(rt, place, call);
        seat.count += made;
        answer
    }

    /// Asks for a ticket, before a call.
    pub fn acquire<R: Wait>(
        &self,
        rt: &R,
        seat: &mut Seat,
        service: ServiceId,
        moment: u64,
    ) -> Reply
        requires seat { IsSeatOf self.now seat.old }
        requires service { IsServiceOf self.now service }
        requires room { seat.old.count < 2 ^ 64 - 8 }
        ensures called { IsCalledAt service seat.old (applies moment acquires) (replies result) seat.new }
    {
        self.call(rt, seat, service, Apply(moment, Event::Acquire))
    }

    /// Ends a ticket without an outcome.
    pub fn release<R: Wait>(
        &self,
        rt: &R,
        seat: &mut Seat,
        service: ServiceId,
        moment: u64,
        ticket: u64,
    ) -> Reply
        requires seat { IsSeatOf self.now seat.old }
        requires service { IsServiceOf self.now service }
        requires room { seat.old.count < 2 ^ 64 - 8 }
        ensures called { IsCalledAt service seat.old (applies moment (releases ticket)) (replies result) seat.new }
    {
        self.call(rt, seat, service, Apply(moment, Event::Release(ticket)))
    }

    /// Makes a program the current version.
    pub fn install<R: Wait>(
        &self,
        rt: &R,
        seat: &mut Seat,
        service: ServiceId,
        moment: u64,
        program: Arc<Verified>,
    ) -> Reply
        requires seat { IsSeatOf self.now seat.old }
        requires service { IsServiceOf self.now service }
        requires room { seat.old.count < 2 ^ 64 - 8 }
        ensures called { IsCalledAt service seat.old (applies moment (installs (arc_value program))) (replies result) seat.new }
    {
        self.call(rt, seat, service, Apply(moment, Event::Install(program)))
    }

    /// Moves the breaker to a state.
    pub fn move_to<R: Wait>(
        &self,
        rt: &R,
        seat: &mut Seat,
        service: ServiceId,
        moment: u64,
        state: State,
    ) -> Reply
        requires seat { IsSeatOf self.now seat.old }
        requires service { IsServiceOf self.now service }
        requires room { seat.old.count < 2 ^ 64 - 8 }
        ensures called { IsCalledAt service seat.old (applies moment (moves state)) (replies result) seat.new }
    {
        self.call(rt, seat, service, Apply(moment, Event::Move(state)))
    }

    /// Moves the breaker to CLOSED.
    pub fn reset<R: Wait>(&self, rt: &R, seat: &mut Seat, service: ServiceId, moment: u64) -> Reply
        requires seat { IsSeatOf self.now seat.old }
        requires service { IsServiceOf self.now service }
        requires room { seat.old.count < 2 ^ 64 - 8 }
        ensures called { IsCalledAt service seat.old (applies moment resets) (replies result) seat.new }
    {
        self.call(rt, seat, service, Apply(moment, Event::Reset))
    }

    /// Reads how the service stands at a moment, in milliseconds, which is raised to the greatest that its book has
    /// seen, for this answer alone.
    pub fn read<R: Wait>(&self, rt: &R, seat: &mut Seat, service: ServiceId, moment: u64) -> Reading
        requires seat { IsSeatOf self.now seat.old }
        requires service { IsServiceOf self.now service }
        ensures called { IsCalledAt service seat.old (reads moment) (shows result) seat.new }
    {
        self.call(rt, seat, service, Read(moment))
    }

    /// Copies at most 100 entries of the journal, from a number on. The refusal is
    /// `ServiceOutOfMemory`, where there is no memory for the copies.
    pub fn page<R: Wait>(
        &self,
        rt: &R,
        seat: &mut Seat,
        service: ServiceId,
        from: u64,
    ) -> Result<Vec<Entry>, RefusalNumber>
        requires seat { IsSeatOf self.now seat.old }
        requires service { IsServiceOf self.now service }
        ensures called { IsCalledAt service seat.old (pages from) (hands (map_ok (λ entries. entries.items) result)) seat.new }
    {
        self.call(rt, seat, service, Page(from))
    }

    /// Hands out all entries of the journal, which opens anew. Numbers go on. The
    /// refusals are those of `Book::cut`, and change nothing.
    pub fn cut<R: Wait>(
        &self,
        rt: &R,
        seat: &mut Seat,
        service: ServiceId,
    ) -> Result<Vec<Entry>, RefusalNumber>
        requires seat { IsSeatOf self.now seat.old }
        requires service { IsServiceOf self.now service }
        ensures called { IsCalledAt service seat.old cuts (hands (map_ok (λ entries. entries.items) result)) seat.new }
    {
        self.call(rt, seat, service, Cut)
    }

    /// Hands out the entries of the journal up to a number. All else of the service
    /// goes on as it is. The refusals are those of `Book::roll`, and change nothing.
    pub fn roll<R: Wait>(
        &self,
        rt: &R,
        seat: &mut Seat,
        service: ServiceId,
        last: u64,
    ) -> Result<Vec<Entry>, RefusalNumber>
        requires seat { IsSeatOf self.now seat.old }
        requires service { IsServiceOf self.now service }
        ensures called { IsCalledAt service seat.old (rolls last) (hands (map_ok (λ entries. entries.items) result)) seat.new }
    {
        self.call(rt, seat, service, Roll(last))
    }
}
