//! Seats: who makes calls.
ghost use Rattle.std.specs.Prelude.{◌≡◌};

use book_slot::Place;
use std::marker::Model;

/// Who makes calls at a desk, by a place at each service. Contracts see its number, how many entries its calls have made, and of
/// each service the table of the book and what the seat knows of it.
#[derive(Drop)]
pub struct Seat {
    pub(crate) number: u32,
    pub(crate) count: u64,
    pub(crate) places: Vec<Place>,
}

impl Model for Seat {
    ghost use Rattle.std.specs.Prelude.{◌≡◌, map, replicate, vec_len};
    ghost use Rattle.slot_desk.specs.Seats.{SeatData, seat_of, entries_in};
    ghost use Rattle.slot_desk.specs.Slots.{table_at, number_at, view_at};

    ghost Value = { SeatData };

    ghost view = { λ seat. seat_of seat.number seat.count (map table_at seat.places.items) (map view_at seat.places.items) };

    // Its places all have its number, and it counts the entries that were made by them.
    ghost invariant = { λ seat. (map number_at seat.places.items ≡ replicate (vec_len seat.places) seat.number) × (seat.count ≡ entries_in (map view_at seat.places.items)) };
}

impl Seat {
    /// Its number at its desk, from 1 on: the entries of its calls carry it.
    pub fn number(&self) -> u32
        ensures { result ≡ self.now.number }
    {
        self.number
    }

    /// How many entries its calls have made, in all journals of its desk.
    pub fn count(&self) -> u64
        ensures { result ≡ self.now.count }
    {
        self.count
    }
}
