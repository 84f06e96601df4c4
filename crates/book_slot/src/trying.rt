//! Calls of places that wait for nobody: one exchange takes the book, or finds it out.
ghost use Rattle.std.specs.Prelude.{◌≡◌, IfOk, IfErr};
ghost use Rattle.book.specs.Counts.{entries_made};
ghost use Rattle.book.specs.Accepted.{seen};
ghost use Rattle.service_profile.specs.Calls.{IsCalled, applies, replies};
ghost use Rattle.book_slot.specs.Trying.{missing};
ghost use Rattle.book_slot.specs.Called.{Called};
ghost use Rattle.book_slot.specs.Places.{with_view};

use crate::exchange::{put, take};
use crate::held;
use crate::slots::{Place, Slot};
use book::{Apply, Event, Reply};

/// Another place has the book. The event comes back.
#[derive(Drop)]
pub struct Busy {
    pub event: Event,
}

/// What is done while the book is out of its slot. It is given nothing, so it can't change the book.
pub trait Held {
    /// Called once, between the take and the event.
    fn held(&mut self);
}

/// What `try_call` does meanwhile.
#[derive(Drop)]
struct Nothing;

impl Held for Nothing {
    fn held(&mut self) {}
}

impl Slot {
    /// Applies an event at a moment, in milliseconds, where the book is in its slot, and tells how many entries that made. `Busy`
    /// where the one exchange found it out.
    pub fn try_call(
        &self,
        place: &mut Place,
        moment: u64,
        event: Event,
    ) -> Result<(Reply, u64), Busy>
        requires here { place.old.table ≡ self.now.table }
        ensures same { place.new ≡ with_view place.old place.new.view }
        ensures called { IfOk result (λ answer. Called (λ before after. IsCalled place.old.number before (applies moment (seen event)) (replies answer.0) after) place.old.view place.new.view) }
        ensures made { IfOk result (λ answer. answer.1 ≡ entries_made answer.0) }
        // Only a failed try counts a miss, and it changes nothing else.
        ensures busy { IfErr result (λ busy. (busy.event ≡ event) × (place.new.view ≡ missing place.old.view)) }
    {
        self.try_call_with(place, moment, event, &mut Nothing)
    }

    /// The same, with something done while the book is out of its slot.
    pub fn try_call_with<H: Held>(
        &self,
        place: &mut Place,
        moment: u64,
        event: Event,
        meanwhile: &mut H,
    ) -> Result<(Reply, u64), Busy>
        requires here { place.old.table ≡ self.now.table }
        ensures same { place.new ≡ with_view place.old place.new.view }
        ensures called { IfOk result (λ answer. Called (λ before after. IsCalled place.old.number before (applies moment (seen event)) (replies answer.0) after) place.old.view place.new.view) }
        ensures made { IfOk result (λ answer. answer.1 ≡ entries_made answer.0) }
        ensures busy { IfErr result (λ busy. (busy.event ≡ event) × (place.new.view ≡ missing place.old.view)) }
    {
        if !take(&self.table.shared, &mut place.seat) {
            return Err(Busy { event });
        }
        meanwhile.held();
        let number = place.number;
        let answer = held::call(
            &self.table.shared,
            &mut place.seat,
            number,
            Apply(moment, event),
        );
        put(&self.table.shared, &mut place.seat);
        Ok(answer)
    }
}
