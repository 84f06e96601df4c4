//! The calls of a seat on a service of its desk, as whoever asks a service makes them.
ghost use Rattle.std.specs.Prelude.{◌≡◌};
ghost use Rattle.slot_desk.specs.Places.{service_place};
ghost use Rattle.slot_desk.specs.Desks.{IsServiceOf};

use crate::desks::Desk;
use crate::seats::Seat;
use crate::services::ServiceId;
use book::Call;
use service::BookCalls;
use std::marker::Model;
use std::sync::Wait;

/// Where the calls of a seat go: a service of a desk. Contracts see the desk and the service.
#[derive(Drop)]
pub struct ServicePlace<'a, R: Wait> {
    rt: &'a R,
    desk: &'a Desk,
    service: ServiceId,
}

impl<'a, R: Wait> Model for ServicePlace<'a, R> {
    ghost use Rattle.slot_desk.specs.Places.{ServicePlaceData, service_place};
    ghost use Rattle.slot_desk.specs.Desks.{IsServiceOf};

    ghost Value = { ServicePlaceData };

    ghost view = { λ place. service_place place.desk.now place.service };

    ghost invariant = { λ place. IsServiceOf place.desk.now place.service };
}

impl<'a, R: Wait> ServicePlace<'a, R> {
    /// A service of a desk. Its calls wait by `rt` until the service's book is in its slot.
    pub fn new(rt: &'a R, desk: &'a Desk, service: ServiceId) -> Self
        requires held { IsServiceOf desk.now service }
        ensures { result ≡ service_place desk.now service }
    {
        ServicePlace { rt, desk, service }
    }
}

impl<'a, R: Wait> BookCalls<ServicePlace<'a, R>> for Seat {
    ghost use Rattle.slot_desk.specs.Calls.{IsAskedAt};
    ghost use Rattle.slot_desk.specs.Places.{fits};

    ghost fits = { fits };

    ghost calls = { λ place. IsAskedAt place.service };

    fn call<C: Call>(&mut self, place: &ServicePlace<'a, R>, call: C) -> C::Answer {
        if let Some(answer) = call.answer_at_count(self.count) {
            return answer;
        }
        place.desk.call(place.rt, self, place.service, call)
    }
}
