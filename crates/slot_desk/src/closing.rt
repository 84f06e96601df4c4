//! The end of a desk.
ghost use Rattle.std.specs.Prelude.{◌≡◌, ◌<◌, ◌≤◌, ◌+◌, ◌++◌, List, suc, vec_len, vec_capacity, length, map, reverse, IfOk, IfErr};
ghost use Rattle.std.specs.List.{AllByRecursion};
ghost use Rattle.book_slot.specs.Courses.{Course};
ghost use Rattle.slot_desk.specs.Closing.{AreOf, HaveCourses, NumbersAgree, last_of, traces_row};
ghost use Rattle.slot_desk.specs.Gathering.{added, all_added, Finished};
ghost use Rattle.service.specs.Desks.{IsUnclosed};
ghost use Rattle.slot_desk.specs.Seats.{IsSeatOf, IsTallied};
ghost use Rattle.slot_desk.specs.Slots.{table_of, origin_of, dealt_of, back_of, known_of, table_at, trace_at};

use crate::desks::Desk;
use crate::seats::Seat;
use book::Book;
use book_slot::{Place, Slot};
use refusals::RefusalNumber;
use std::alloc::Global;

/// A desk that was not closed, with the seats that were given, and why: `SeatsMissing` where they are not
/// all seats of the desk, `ServiceOutOfMemory` without memory.
#[derive(Drop)]
pub struct Unclosed {
    pub desk: Desk,
    pub seats: Vec<Seat>,
    pub number: RefusalNumber,
}

/// Gives each slot its place back. The first slot's is the last of the list.
fn give_back_all(slots: &mut [Slot], mut places: Vec<Place>)
    requires here { map table_at (reverse places.items) ≡ map table_of slots.old }
    requires some { AllByRecursion (λ slot. slot.back < slot.dealt) slots.old }
    ensures tables { map table_of slots.new ≡ map table_of slots.old }
    ensures origins { map origin_of slots.new ≡ map origin_of slots.old }
    ensures dealt { map dealt_of slots.new ≡ map dealt_of slots.old }
    ensures back { map back_of slots.new ≡ map suc (map back_of slots.old) }
    ensures known { map known_of slots.new ≡ added (map known_of slots.old) (map trace_at (reverse places.items)) }
{
    if let Some((first, rest)) = slots.split_first_mut() {
        let Some(place) = places.pop() else {
            unreachable!()
        };
        first.give_back(place);
        give_back_all(rest, places);
    }
}

/// Gives the slots the places of all seats back, seat by seat. The first seat is the last of the list.
fn gather_reversed(slots: &mut [Slot], mut seats: Vec<Seat>)
    requires here { AllByRecursion (λ seat. seat.tables ≡ map table_of slots.old) (reverse seats.items) }
    requires some { AllByRecursion (λ slot. slot.back + vec_len seats ≤ slot.dealt) slots.old }
    ensures origins { map origin_of slots.new ≡ map origin_of slots.old }
    ensures dealt { map dealt_of slots.new ≡ map dealt_of slots.old }
    ensures back { map back_of slots.new ≡ map (λ n. n + vec_len seats) (map back_of slots.old) }
    ensures known { map known_of slots.new ≡ all_added (map known_of slots.old) (map traces_row (reverse seats.items)) }
    ensures tallied { AllByRecursion IsTallied (reverse seats.items) }
{
    if let Some(seat) = seats.pop() {
        let Seat { mut places, .. } = seat;
        places.reverse();
        give_back_all(slots, places);
        gather_reversed(slots, seats);
    }
}

/// Gives the slots the places of all seats back, in the order of the seats.
fn gather(slots: &mut [Slot], mut seats: Vec<Seat>)
    requires here { AllByRecursion (λ seat. seat.tables ≡ map table_of slots.old) seats.items }
    requires some { AllByRecursion (λ slot. slot.back + vec_len seats ≤ slot.dealt) slots.old }
    ensures origins { map origin_of slots.new ≡ map origin_of slots.old }
    ensures dealt { map dealt_of slots.new ≡ map dealt_of slots.old }
    ensures back { map back_of slots.new ≡ map (λ n. n + vec_len seats) (map back_of slots.old) }
    ensures known { map known_of slots.new ≡ all_added (map known_of slots.old) (map traces_row seats.items) }
    ensures tallied { AllByRecursion IsTallied seats.items }
{
    seats.reverse();
    gather_reversed(slots, seats);
}

/// Takes the books out of the slots. The first book's slot is the last of the list.
fn finish_all(mut slots: Vec<Slot>, books: &mut Vec<Book>)
    requires all { AllByRecursion (λ slot. slot.back ≡ slot.dealt) (reverse slots.items) }
    requires room { vec_len books.old + vec_len slots ≤ vec_capacity books.old }
    ensures { (more : List Course) × (books.new.items ≡ books.old.items ++ map last_of more) × Finished more (reverse slots.items) }
{
    if let Some(slot) = slots.pop() {
        books.push_reserved(slot.finish());
        finish_all(slots, books);
    }
}

impl Desk {
    /// Closes the desk, where `seats` are all the seats that it has given, and hands out the books, in the order of the
    /// services. Else the desk and the seats come back.
    pub fn close(self, alloc: Global, seats: Vec<Seat>) -> Result<Vec<Book>, Unclosed>
        requires seats { AllByRecursion (λ seat. IsSeatOf self seat) seats.items }
        ensures all_seats { IfOk result (λ books. vec_len seats ≡ self.seats) }
        ensures all_books { IfOk result (λ books. vec_len books ≡ length self.tables) }
        // Each book has a good history, and is what became of the book that the desk opened for the service at its
        // place.
        ensures good { IfOk result (λ books. AreOf self.origins books.items) }
        // Of each service there is one history of each opening, the last one that of its book, and all that any seat had seen of the
        // service begins that of its opening. Nobody but these seats has changed the books.
        ensures begun { IfOk result (λ books. HaveCourses self.origins books.items seats.items) }
        // The numbers of the last entries add up to those with which the books opened, and the counts of the seats.
        ensures agree { IfOk result (λ books. NumbersAgree self.origins books.items seats.items) }
        ensures unclosed { IfErr result (λ e. IsUnclosed (vec_len seats) self.seats e.number) }
        ensures unchanged { IfErr result (λ e. (e.desk ≡ self) × (e.seats ≡ seats)) }
    {
        if seats.len() != self.given as usize {
            return Err(Unclosed {
                desk: self,
                seats,
                number: RefusalNumber::SeatsMissing,
            });
        }
        let mut books = Vec::new(alloc);
        if books.reserve(self.slots.len()).is_err() {
            return Err(Unclosed {
                desk: self,
                seats,
                number: RefusalNumber::ServiceOutOfMemory,
            });
        }
        let Desk { mut slots, .. } = self;
        gather(slots.as_mut_slice(), seats);
        slots.reverse();
        finish_all(slots, &mut books);
        Ok(books)
    }
}
