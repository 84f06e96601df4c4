//! Names of services.
ghost use Rattle.std.specs.Prelude.{◌≡◌};

use std::marker::Model;

/// Which of a desk's services is asked. Contracts see its place.
#[derive(Clone, Copy, Debug, PartialEq, Eq)]
pub struct ServiceId {
    place: usize,
}

impl Model for ServiceId {
    ghost use Rattle.std.specs.Prelude.{ℕ};

    ghost Value = { ℕ };

    ghost view = { λ service. service.place };

    ghost inverse = { λ place. record { place = place } };
}

impl ServiceId {
    /// The service at a place, from 0 on, in the order in which the desk opened them.
    pub fn at(place: usize) -> ServiceId
        ensures { result ≡ place }
    {
        ServiceId { place }
    }

    /// Where the service stands.
    pub fn place(self) -> usize
        ensures { result ≡ self }
    {
        self.place
    }
}
