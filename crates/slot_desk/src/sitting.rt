//! New seats.
ghost use Rattle.std.specs.Prelude.{◌≡◌, ◌<◌, ◌≤◌, ◌+◌, ◌++◌, vec_len, vec_capacity, length, map, replicate, IfOk, IfErr};
ghost use Rattle.slot_desk.specs.Desks.{desk_of};
ghost use Rattle.slot_desk.specs.Dealing.{IsUnseated};
ghost use Rattle.slot_desk.specs.Sitting.{new_seat, newcomer_of};
ghost use Rattle.slot_desk.specs.Slots.{dealt_of, back_of, known_of, table_of, origin_of, table_at, number_at, view_at};

use crate::desks::Desk;
use crate::seats::Seat;
use book_slot::{Place, Slot};
use refusals::RefusalNumber;
use std::alloc::Global;

/// Takes a place of each slot, in their order.
fn deal(slots: &mut [Slot], places: &mut Vec<Place>, given: u32)
    requires few { given < 128 }
    requires alike { map dealt_of slots.old ≡ replicate (length slots.old) given }
    requires room { vec_len places.old + length slots.old ≤ vec_capacity places.old }
    ensures dealt { map dealt_of slots.new ≡ replicate (length slots.old) (given + 1) }
    ensures back { map back_of slots.new ≡ map back_of slots.old }
    ensures known { map known_of slots.new ≡ map known_of slots.old }
    ensures tables { map table_of slots.new ≡ map table_of slots.old }
    ensures origins { map origin_of slots.new ≡ map origin_of slots.old }
    ensures here { map table_at places.new.items ≡ map table_at places.old.items ++ map table_of slots.old }
    ensures numbers { map number_at places.new.items ≡ map number_at places.old.items ++ replicate (length slots.old) (given + 1) }
    ensures views { map view_at places.new.items ≡ map view_at places.old.items ++ map (newcomer_of (given + 1)) (map origin_of slots.old) }
{
    if let Some((first, rest)) = slots.split_first_mut() {
        let Some(place) = first.sit() else {
            unreachable!()
        };
        places.push_reserved(place);
        deal(rest, places, given);
    }
}

impl Desk {
    /// A new seat, with the next number, which has made no calls. The refusal is `SeatsFull` for the 129th,
    /// `ServiceOutOfMemory` where there is no memory for its places; it changes nothing.
    pub fn sit(&mut self, alloc: Global) -> Result<Seat, RefusalNumber>
        ensures given { IfOk result (λ seat. seat ≡ new_seat (self.old.seats + 1) self.old.tables self.old.origins) }
        ensures desk { IfOk result (λ seat. self.new ≡ desk_of self.old.names self.old.tables self.old.origins (self.old.seats + 1)) }
        ensures refused { IfErr result (λ number. IsUnseated self.old.seats number × (self.new ≡ self.old)) }
    {
        if self.given >= 128 {
            return Err(RefusalNumber::SeatsFull);
        }
        let Ok(mut places) = Vec::with_capacity(alloc, self.slots.len()) else {
            return Err(RefusalNumber::ServiceOutOfMemory);
        };
        deal(self.slots.as_mut_slice(), &mut places, self.given);
        self.given += 1;
        Ok(Seat {
            number: self.given,
            count: 0,
            places,
        })
    }
}
