//! The calls of a seat on a service of its desk, as whoever asks a service makes them.
ghost use Rattle.std.specs.Prelude.{◌≡◌};
ghost use Rattle.desk.specs.Desks.{IsServiceOf};

use crate::desks::{Desk, ServiceId};
use crate::offered::Offered;
use crate::seats::Seat;
use book::Call;
use service::BookCalls;
use std::marker::Model;
use std::sync::Wait;
use std::sync::ledger::Ledger;

/// Where the calls of a seat go: a service of a desk. Contracts see the desk's services.
#[derive(Drop)]
pub struct ServicePlace<'a, L: Ledger, M: Ledger + Offered, R: Wait> {
    rt: &'a R,
    desk: &'a Desk<L, M>,
    service: ServiceId,
}

impl<'a, L: Ledger, M: Ledger + Offered, R: Wait> Model for ServicePlace<'a, L, M, R> {
    ghost use Rattle.std.specs.Prelude.{List};
    ghost use Rattle.desk.specs.Desks.{IsServiceOf};
    ghost use Rattle.desk.specs.Services.{ServiceData};

    ghost Value = { List ServiceData };

    ghost view = { λ place. place.desk.now.services };

    ghost invariant = { λ place. IsServiceOf place.desk.now place.service };
}

impl<'a, L: Ledger, M: Ledger + Offered, R: Wait> ServicePlace<'a, L, M, R> {
    /// A service of a desk. Its calls wait by `rt` for the service's lock.
    pub fn new(rt: &'a R, desk: &'a Desk<L, M>, service: ServiceId) -> Self
        requires held { IsServiceOf desk.now service }
        ensures { result ≡ desk.now.services }
    {
        ServicePlace { rt, desk, service }
    }
}

impl<'a, L: Ledger, M: Ledger + Offered, R: Wait> BookCalls<ServicePlace<'a, L, M, R>>
    for Seat<L, M> {
    ghost use Rattle.std.specs.Prelude.{⊤};
    ghost use Rattle.desk.specs.Calls.{IsCalledAt};

    // its types name the desk's ledgers, and no more is asked of a seat
    ghost fits = { λ _ _. ⊤ };

    ghost calls = { IsCalledAt };

    fn call<C: Call>(&mut self, place: &ServicePlace<'a, L, M, R>, call: C) -> C::Answer {
        if let Some(answer) = call.answer_at_count(self.count) {
            return answer;
        }
        place.desk.call(place.rt, self, place.service, call)
    }
}
