//! Who calls a service's book.
ghost use Rattle.service_profile.specs.Calls.{CallData, CallAnswer};

use book::{Book, Call};

/// The seat that makes all calls of a book which one caller has to itself.
pub const ONLY_SEAT: u32 = 1;

/// Who calls the book of a service: the book itself, where one caller has it, or a seat of a desk that keeps the book
/// behind a lock or in a slot. A call changes the caller, and is lent a place, which says what else it needs: of a book
/// the number of the seat that makes the call, and of a seat at a desk the desk and the service.
pub trait BookCalls<Place> {
    // whether a caller may be lent a place, as a seat its own desk
    ghost fits: { Place → Self → Type 0 };

    // how a place, the caller before a call, the call, its answer and the caller after it are related
    ghost calls: { Place → Self → CallData → CallAnswer → Self → Type 0 };

    /// Makes a call: applies an event, looks at a ticket, reads, copies a page, cuts or rolls.
    fn call<C: Call>(&mut self, place: &Place, call: C) -> C::Answer
        requires fits { fits place.now self.old }
        ensures called { calls place.now self.old (C.called call) (C.answered result) self.new }
        ensures fits { fits place.now self.new };
}

impl BookCalls<u32> for Book {
    ghost use Rattle.std.specs.Prelude.{⊤};
    ghost use Rattle.service_profile.specs.Calls.{IsCalled};

    // a book takes a seat of any number
    ghost fits = { λ _ _. ⊤ };

    // what the documented machine answers to the seat of this number, and the history after it
    ghost calls = { IsCalled };

    fn call<C: Call>(&mut self, seat: &u32, call: C) -> C::Answer {
        call.make(self, *seat)
    }
}
