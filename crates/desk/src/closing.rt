//! The end of a desk.
ghost use Rattle.std.specs.Prelude.{◌≡◌, ◌≢◌, ◌⊎◌, ◌+◌, ◌*◌, ◌≤◌, ℕ, List, [], length, map, sum, vec_len, vec_capacity, IfOk, IfErr};
ghost use Rattle.std.specs.List.{AllByRecursion};
ghost use Rattle.desk.specs.Kept.{AreOfSome, last_number, most_numbers, most_cuts};
ghost use Rattle.book.specs.Good.{IsGood};
ghost use Rattle.service.specs.Desks.{IsUnclosed};

use crate::desks::{Desk, LockedService};
use crate::offered::Offered;
use crate::seats::Seat;
use book::Book;
use refusals::RefusalNumber;
use std::alloc::Global;
use std::sync::ledger::{Ledger, Share};

/// A desk that was not closed, with the seats that were given, and why: `SeatsMissing` where they are not
/// all seats of the desk, `ServiceOutOfMemory` without memory.
#[derive(Drop)]
pub struct Unclosed<L: Ledger, M: Ledger + Offered> {
    pub desk: Desk<L, M>,
    pub seats: Vec<Seat<L, M>>,
    pub number: RefusalNumber,
}

impl<L: Ledger, M: Ledger + Offered> Desk<L, M> {
    /// Closes the desk, where `seats` are all the seats that it has given, and hands out the books, in
    /// the order of the services. Else the desk and the seats come back.
    pub fn close(self, alloc: Global, seats: Vec<Seat<L, M>>) -> Result<Vec<Book>, Unclosed<L, M>>
        ensures all_seats { IfOk result (λ books. vec_len seats ≡ self.seats) }
        ensures all_books { IfOk result (λ books. vec_len books ≡ length self.services) }
        ensures good { IfOk result (λ books. AllByRecursion IsGood books.items) }
        // Each book is that of one of the desk's services, after some cuts: as many in all as the seats
        // have counted.
        ensures of_services { IfOk result (λ books. (cuts : List ℕ) × AreOfSome self.services cuts books.items × (sum cuts ≡ sum (map (λ seat. seat.cuts) seats.items))) }
        // All journals together have had as many entries as the seats have counted.
        ensures agree { IfOk result (λ books. sum (map last_number books.items) ≡ sum (map (λ seat. seat.count) seats.items)) }
        ensures unclosed { IfErr result (λ e. IsUnclosed (vec_len seats) self.seats e.number) }
        ensures unchanged { IfErr result (λ e. (e.desk ≡ self) × (e.seats ≡ seats)) }
    {
        if seats.len() != self.given as usize {
            return Err(Unclosed {
                desk: self,
                seats,
                number: RefusalNumber::SeatsMissing,
            });
        }
        let mut books = Vec::new(alloc);
        if books.reserve(self.services.len()).is_err() {
            return Err(Unclosed {
                desk: self,
                seats,
                number: RefusalNumber::ServiceOutOfMemory,
            });
        }
        let Desk {
            services,
            given: _,
            mut entries,
            mut cuts,
        } = self;
        merge_seats(&mut entries.left, &mut cuts.left, seats);
        merge_services(&mut entries.left, &mut cuts.left, services, &mut books);
        entries.audit();
        cuts.audit();
        Ok(books)
    }
}

/// Puts the seats' tokens together.
fn merge_seats<L: Ledger, M: Ledger>(
    entries: &mut Share<L>,
    cuts: &mut Share<M>,
    mut seats: Vec<Seat<L, M>>,
)
    ensures entry_parts { entries.new.parts ≡ entries.old.parts + vec_len seats }
    ensures entries { entries.new.amount ≡ entries.old.amount + sum (map (λ seat. seat.count) seats.items) }
    ensures cut_parts { cuts.new.parts ≡ cuts.old.parts + vec_len seats }
    ensures cuts { cuts.new.amount ≡ cuts.old.amount + sum (map (λ seat. seat.cuts) seats.items) }
{
    while let Some(seat) = seats.pop() {
        let (counted, cut) = seat.into_shares();
        entries.merge(counted);
        cuts.merge(cut);
    }
}

/// Puts the tokens together that the services have left, and takes their books.
fn merge_services<L: Ledger, M: Ledger + Offered>(
    entries: &mut Share<L>,
    cuts: &mut Share<M>,
    mut services: Vec<LockedService<L, M>>,
    books: &mut Vec<Book>,
)
    requires room { vec_len services ≤ vec_capacity books.old }
    requires none { books.old.items ≡ [] }
    ensures entry_parts { entries.new.parts ≡ entries.old.parts + vec_len services }
    ensures entries { entries.new.amount + sum (map last_number books.new.items) ≡ entries.old.amount + vec_len services * most_numbers }
    ensures cut_parts { cuts.new.parts ≡ cuts.old.parts + vec_len services }
    ensures cuts { (numbers : List ℕ) × AreOfSome M.services numbers books.new.items × (cuts.new.amount + sum numbers ≡ cuts.old.amount + vec_len services * most_cuts) }
    ensures count { vec_len books.new ≡ vec_len services }
    ensures good { AllByRecursion IsGood books.new.items }
{
    services.reverse();
    while let Some(service) = services.pop() {
        let (book, entries_left, cuts_left) = service.kept.into_inner().into_parts();
        entries.merge(entries_left);
        cuts.merge(cuts_left);
        books.push_reserved(book);
    }
}
