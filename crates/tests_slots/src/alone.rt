//! A desk with one service and one seat, as one caller has it to itself.
ghost use Rattle.std.specs.Prelude.{◌≡◌};

use crate::checks::same;
use crate::fixtures::{close_one, open_desk_from, open_desk_with, seat_of};
use book::{Book, Call, ConfigParts};
use service::BookCalls;
use slot_desk::{Desk, Seat, ServiceId};
use std::alloc::Global;
use std::marker::Model;
use std::process::Abort;
use std::sync::Wait;
use worked_histories::LATER_TICKET;

/// A desk with one service, and its only seat. That they belong together is kept here, whatever is called.
#[derive(Drop)]
pub(crate) struct Alone {
    desk: Desk,
    service: ServiceId,
    seat: Seat,
}

impl Model for Alone {
    ghost use Rattle.std.specs.Prelude.{⊤};
    ghost use Rattle.slot_desk.specs.Desks.{IsServiceOf};
    ghost use Rattle.slot_desk.specs.Seats.{IsSeatOf};

    ghost Value = { ⊤ };

    ghost view = { λ _. tt };

    ghost invariant = { λ alone. IsSeatOf alone.desk alone.seat × IsServiceOf alone.desk alone.service };
}

impl Alone {
    /// A new desk, whose service has a configuration of these parts and the default classifier.
    pub(crate) fn open<R: Abort>(rt: &R, alloc: Global, parts: ConfigParts) -> Alone {
        Alone::at(rt, alloc, open_desk_with(rt, alloc, &["pay"], parts))
    }

    /// The same, with the default configuration, where the tickets begin at a later number.
    pub(crate) fn open_later<R: Abort>(rt: &R, alloc: Global) -> Alone {
        Alone::at(rt, alloc, open_desk_from(rt, alloc, &["pay"], LATER_TICKET))
    }

    /// At a desk that has given no seat.
    fn at<R: Abort>(rt: &R, alloc: Global, desk: Desk) -> Alone {
        let mut desk = desk;
        let seat = seat_of(rt, alloc, &mut desk);
        let service = desk.find("pay").expect(rt, "a service of the desk");
        Alone {
            desk,
            service,
            seat,
        }
    }

    /// Closes the desk. The book that is left has as many entries as the calls of the seat have made.
    pub(crate) fn close<R: Abort>(self, rt: &R, alloc: Global) -> Book {
        let Alone { desk, seat, .. } = self;
        let count = seat.count();
        let seats = Vec::from_array(alloc, [seat]).expect(rt, "ample memory");
        let book = close_one(rt, alloc, desk, seats);
        same(rt, book.last_number(), count);
        book
    }
}

impl<R: Wait> BookCalls<R> for Alone {
    ghost use Rattle.std.specs.Prelude.{⊤};

    ghost fits = { λ _ _. ⊤ };

    ghost calls = { λ _ _ _ _ _. ⊤ };

    fn call<C: Call>(&mut self, rt: &R, call: C) -> C::Answer {
        if let Some(answer) = call.answer_at_count(self.seat.count()) {
            return answer;
        }
        self.desk.call(rt, &mut self.seat, self.service, call)
    }
}
