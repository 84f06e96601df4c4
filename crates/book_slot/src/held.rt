//! Calls of the book that a seat holds.
ghost use Rattle.std.specs.Prelude.{◌≡◌};
ghost use Rattle.book.specs.Counts.{made_by};
ghost use Rattle.book.specs.Good.{IsGood};
ghost use Rattle.service_profile.specs.Calls.{IsCalled};
ghost use Rattle.book_slot.specs.Calls.{HoldsOne, Does};

use crate::exchange::{SharedTable, TableSeat};
use book::Call;

/// Makes a call by the seat of this number, and tells how many entries that made.
pub(crate) fn call<C: Call>(
    table: &SharedTable,
    seat: &mut TableSeat,
    number: u32,
    call: C,
) -> (C::Answer, u64)
    requires here { seat.old.table_id ≡ table.now.table_id }
    requires held { HoldsOne seat.old.me IsGood }
    ensures here { seat.new.table_id ≡ seat.old.table_id }
    ensures did { Does (λ before after. IsCalled number before (C.called call) (C.answered result.0) after) seat.old.me seat.new.me }
    ensures made { result.1 ≡ made_by (C.called call) (C.answered result.0) }
{
    let book = seat.slot_mut(table, 0);
    let last = book.last_number();
    let answer = call.make(book, number);
    let made = book.last_number() - last;
    (answer, made)
}
