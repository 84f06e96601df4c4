//! Calls of seats that wait for nobody.
ghost use Rattle.std.specs.Prelude.{◌≡◌, ◌<◌, ◌-◌, ◌^◌, IfOk, IfErr};
ghost use Rattle.book.specs.Accepted.{seen};
ghost use Rattle.service_profile.specs.Calls.{applies, replies};
ghost use Rattle.slot_desk.specs.Tries.{IsTriedAt, IsMissedAt, AgreeAt};
ghost use Rattle.slot_desk.specs.Desks.{IsServiceOf};
ghost use Rattle.slot_desk.specs.Seats.{IsSeatOf};

use crate::desks::Desk;
use crate::seats::Seat;
use crate::services::ServiceId;
use book::{Event, Reply};
use book_slot::{Busy, Held};

impl Desk {
    /// Applies an event at a moment, in milliseconds, where the service's book is in its slot. `Busy` where the one exchange
    /// found it out: the event comes back.
    pub fn try_call(
        &self,
        seat: &mut Seat,
        service: ServiceId,
        moment: u64,
        event: Event,
    ) -> Result<Reply, Busy>
        requires seat { IsSeatOf self.now seat.old }
        requires service { IsServiceOf self.now service }
        requires room { seat.old.count < 2 ^ 64 - 8 }
        ensures called { IfOk result (λ reply. IsTriedAt service seat.old (applies moment (seen event)) (replies reply) seat.new) }
        // Only a failed try counts a miss, and it changes nothing else.
        ensures busy { IfErr result (λ busy. (busy.event ≡ event) × IsMissedAt service seat.old seat.new) }
    {
        let at = service.place();
        let place = &mut seat.places[at];
        match self.slots[at].try_call(place, moment, event) {
            Ok((reply, made)) => {
                seat.count += made;
                Ok(reply)
            }
            Err(busy) => Err(busy),
        }
    }

    /// The same, with something done while the book is out of its slot.
    pub fn try_call_with<H: Held>(
        &self,
        seat: &mut Seat,
        service: ServiceId,
        moment: u64,
        event: Event,
        meanwhile: &mut H,
    ) -> Result<Reply, Busy>
        requires seat { IsSeatOf self.now seat.old }
        requires service { IsServiceOf self.now service }
        requires room { seat.old.count < 2 ^ 64 - 8 }
        ensures called { IfOk result (λ reply. IsTriedAt service seat.old (applies moment (seen event)) (replies reply) seat.new) }
        ensures busy { IfErr result (λ busy. (busy.event ≡ event) × IsMissedAt service seat.old seat.new) }
    {
        let at = service.place();
        let place = &mut seat.places[at];
        match self.slots[at].try_call_with(place, moment, event, meanwhile) {
            Ok((reply, made)) => {
                seat.count += made;
                Ok(reply)
            }
            Err(busy) => Err(busy),
        }
    }

    /// Lets two seats compare what they have seen of a service. Nothing changes.
    pub fn meet(&self, one: &mut Seat, other: &mut Seat, service: ServiceId)
        requires one { IsSeatOf self.now one.old }
        requires other { IsSeatOf self.now other.old }
        requires service { IsServiceOf self.now service }
        ensures one_same { one.new ≡ one.old }
        ensures other_same { other.new ≡ other.old }
        // Where both have seen one opening, what they have seen begins one good history.
        ensures met { AgreeAt service one.old other.old }
    {
        let at = service.place();
        let first = &mut one.places[at];
        let second = &mut other.places[at];
        self.slots[at].meet(first, second);
    }
}
