//! The places that calls take.
ghost use Rattle.std.specs.Prelude.{◌≡◌, ◌<◌, ◌-◌, nat_lt};
ghost use Rattle.bulkhead.specs.Taken.{entered};

use std::marker::Model;

/// How many calls may be made at once, and how many are. Contracts see both numbers.
#[derive(Clone, Copy, Debug, PartialEq, Eq)]
pub struct Bulkhead {
    places: u32,
    taken: u32,
}

impl Model for Bulkhead {
    ghost use Rattle.std.specs.Prelude.{◌≤◌};
    ghost use Rattle.bulkhead.specs.Taken.{Taken};

    ghost Value = { Taken };

    ghost view = { λ b. record { places = b.places; taken = b.taken } };

    ghost invariant = { λ b. b.taken ≤ b.places };

    ghost inverse = { λ b. record { places = b.places; taken = b.taken } };
}

impl Bulkhead {
    /// A bulkhead with so many places, all of them free.
    pub fn new(places: u32) -> Bulkhead
        ensures { result ≡ record { places = places; taken = 0 } }
    {
        Bulkhead { places, taken: 0 }
    }

    /// Takes a place and answers true, or answers false where none is free.
    pub fn enter(&mut self) -> bool
        ensures answer { result ≡ nat_lt self.old.taken self.old.places }
        ensures places { self.new ≡ entered self.old }
    {
        if self.taken < self.places {
            self.taken += 1;
            true
        } else {
            false
        }
    }

    /// Gives a place back. One is taken.
    pub fn leave(&mut self)
        requires { 0 < self.old.taken }
        ensures { self.new ≡ record { places = self.old.places; taken = self.old.taken - 1 } }
    {
        self.taken -= 1;
    }

    /// How many places are free.
    pub fn free(&self) -> u32
        ensures { result ≡ self.now.places - self.now.taken }
    {
        self.places - self.taken
    }
}
