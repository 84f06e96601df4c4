//! The call of a place that waits until it has the book: it takes the book out of its slot, after as many tries as that takes,
//! calls it once, and puts it back.
ghost use Rattle.std.specs.Prelude.{◌≡◌};
ghost use Rattle.book.specs.Counts.{made_by};
ghost use Rattle.service_profile.specs.Calls.{IsCalled};
ghost use Rattle.book_slot.specs.Called.{CalledAfterTries};
ghost use Rattle.book_slot.specs.Places.{with_view};

use crate::exchange::{put, take_waiting};
use crate::held;
use crate::slots::{Place, Slot};
use book::Call;
use std::sync::Wait;

impl Slot {
    /// Makes a call by a place, and tells how many entries that made. It waits until the book is in its slot.
    pub fn call<R: Wait, C: Call>(&self, rt: &R, place: &mut Place, call: C) -> (C::Answer, u64)
        requires here { place.old.table ≡ self.now.table }
        ensures same { place.new ≡ with_view place.old place.new.view }
        // The answer is the book's to this place, after a good history that begins with all that the place has seen and has
        // just its own entries; and what the call left is what the place has seen after it.
        ensures called { CalledAfterTries (λ before after. IsCalled place.old.number before (C.called call) (C.answered result.0) after) place.old.view place.new.view }
        ensures made { result.1 ≡ made_by (C.called call) (C.answered result.0) }
    {
        let number = place.number;
        take_waiting(rt, &self.table.shared, &mut place.seat);
        let answer = held::call(&self.table.shared, &mut place.seat, number, call);
        put(&self.table.shared, &mut place.seat);
        answer
    }
}
