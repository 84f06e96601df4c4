//! The exchanges that take the book out of its slot and put it back.
ghost use Rattle.std.specs.Prelude.{◌≡◌, ℕ, [], true, MatchBool};
ghost use Rattle.book_slot.specs.Rules.{putting, MayPut};
ghost use Rattle.book_slot.specs.Views.{missed};
ghost use Rattle.book_slot.specs.Trying.{missing};
ghost use Rattle.book_slot.specs.Calls.{HoldsOne, Holds, IsResting};

use crate::view::{OneHistory, Puts, Takes, View};
use book::Book;
use ghost_list::GhostList;
use std::sync::Wait;
use std::thread;

/// What all threads share of the table of a slot.
pub(crate) type SharedTable = atomic_table::Shared<Book, View, GhostList<Book>, OneHistory>;

/// A seat of the table.
pub(crate) type TableSeat = atomic_table::Seat<Book, View>;

/// Takes the book out of its slot, by one exchange, or finds it out with another seat.
pub(crate) fn take(table: &SharedTable, seat: &mut TableSeat) -> bool
    requires here { seat.old.table_id ≡ table.now.table_id }
    requires sized { (table.now.table_id.words ≡ 1) × (table.now.table_id.slots ≡ 1) }
    requires rest { IsResting seat.old.me }
    ensures here { seat.new.table_id ≡ seat.old.table_id }
    // The history that it holds is one that it must find; else it has one miss more.
    ensures taken { MatchBool result (Holds seat.old.me seat.new.me) ((seat.new.me.0 ≡ missing seat.old.me.0) × (seat.new.me.1 ≡ [])) }
{
    table.compare_exchange::<Takes>(seat, 0, 1, 0) == 1
}

/// Puts the book back into its slot, by one exchange.
pub(crate) fn put(table: &SharedTable, seat: &mut TableSeat)
    requires here { seat.old.table_id ≡ table.now.table_id }
    requires sized { (table.now.table_id.words ≡ 1) × (table.now.table_id.slots ≡ 1) }
    requires rest { (seat.old.me.0.holds ≡ true) × (seat.old.me.0.sits ≡ true) }
    // It is good, and what may be put in the place of the history that was taken.
    requires held { HoldsOne seat.old.me (MayPut seat.old.me.0) }
    ensures here { seat.new.table_id ≡ seat.old.table_id }
    ensures put { HoldsOne seat.old.me (λ after. seat.new.me.0 ≡ putting seat.old.me.0 after) }
    ensures rest { seat.new.me.1 ≡ [] }
{
    table.swap::<Puts>(seat, 0, 1);
}

/// Takes the book out of its slot, after as many tries as that takes.
pub(crate) fn take_waiting<R: Wait>(rt: &R, table: &SharedTable, seat: &mut TableSeat)
    requires here { seat.old.table_id ≡ table.now.table_id }
    requires sized { (table.now.table_id.words ≡ 1) × (table.now.table_id.slots ≡ 1) }
    requires rest { IsResting seat.old.me }
    ensures here { seat.new.table_id ≡ seat.old.table_id }
    ensures taken { (tries : ℕ) × Holds (missed tries seat.old.me.0, []) seat.new.me }
{
    for _ in rt.forever() {
        if take(table, seat) {
            return;
        }
        thread::yield_now();
    }
    unreachable!()
}
