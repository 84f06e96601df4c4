//! What lies under the locks: the book of a service, and the tokens that count its entries and its cuts.
ghost use Rattle.std.specs.Prelude.{◌≡◌};
ghost use Rattle.service_profile.specs.Histories.{past_of, next_line};
ghost use Rattle.desk.specs.Kept.{IsOfOne, IsKept, most_numbers, most_cuts};
ghost use Rattle.book.specs.Counts.{HasRoomFor};
ghost use Rattle.book.specs.Good.{IsGood};
ghost use Rattle.desk.specs.AfterSome.{IsCalledAfter};
ghost use Rattle.desk.specs.Calls.{seat_after};

use crate::offered::Offered;
use crate::seats::Seat;
use book::{Book, Call};
use std::marker::Model;
use std::sync::ledger::{Ledger, Share};

/// A service's book, which contracts see, with the tokens that are left for its entries and its cuts. The book is that of one of the
/// services that the desk has opened.
#[derive(Drop)]
pub(crate) struct Kept<L: Ledger, M: Ledger + Offered> {
    pub(crate) book: Book,
    pub(crate) entries: Share<L>,
    pub(crate) cuts: Share<M>,
}

impl<L: Ledger, M: Ledger + Offered> Model for Kept<L, M> {
    ghost use Rattle.service_profile.specs.Events.{History};
    ghost use Rattle.desk.specs.Kept.{IsKept};

    ghost Value = { History };

    ghost view = { λ kept. kept.book };

    ghost invariant = { λ kept. IsKept M.services kept.book kept.entries.parts kept.entries.amount kept.cuts.parts kept.cuts.amount };
}

impl<L: Ledger, M: Ledger + Offered> Kept<L, M> {
    /// A book that has no entry yet, with all tokens.
    pub(crate) fn new(book: Book, entries: Share<L>, cuts: Share<M>) -> Kept<L, M>
        requires good { IsGood book }
        requires of_service { IsOfOne M.services 0 book }
        requires unwritten { next_line (past_of book) ≡ 1 }
        requires one_part { (entries.parts ≡ 1) × (cuts.parts ≡ 1) }
        requires all_entries { entries.amount ≡ most_numbers }
        requires all_cuts { cuts.amount ≡ most_cuts }
        ensures { result ≡ book }
    {
        Kept {
            book,
            entries,
            cuts,
        }
    }

    /// The book and what is left of the tokens.
    pub(crate) fn into_parts(self) -> (Book, Share<L>, Share<M>)
        ensures book { result.0 ≡ self }
        ensures kept { IsKept M.services self result.1.parts result.1.amount result.2.parts result.2.amount }
    {
        let Kept {
            book,
            entries: entries_left,
            cuts: cuts_left,
            ..
        } = self;
        (book, entries_left, cuts_left)
    }

    /// Makes a call by a seat, which counts the entry and the cut that the call makes.
    pub(crate) fn call<C: Call>(&mut self, seat: &mut Seat<L, M>, call: C) -> C::Answer
        requires room { HasRoomFor seat.old.count (C.called call) }
        ensures called { IsCalledAfter M.services seat.old.number (C.called call) (C.answered result) }
        ensures counted { seat.new ≡ seat_after seat.old (C.called call) (C.answered result) }
    {
        let Kept {
            book,
            entries,
            cuts,
            ..
        } = self;
        let last = book.last_number();
        let answer = call.make(book, seat.number());
        let made = book.last_number() - last;
        seat.take_entries(entries, made);
        seat.take_cuts(cuts, C::cuts(&answer));
        answer
    }
}
