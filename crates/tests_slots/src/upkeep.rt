//! Services in slots that do their own upkeep: one whose last entries are kept, and one whose tickets get at most a second old.
use crate::checks::{is_true, same};
use crate::fixtures::{close_one, open_desk, seat_of};
use slot_desk::ServicePlace;
use worked_histories::{LAST, failed_calls, unlike_aged};

/// The only seat of a desk makes 14,464 entries more than a journal holds, and no call is refused: the older half was rolled out
/// once, when the journal was full.
#[test]
fn last_entries_are_kept_in_a_slot(rt: HostRuntime) {
    let alloc = rt.alloc();
    let mut desk = open_desk(&rt, alloc, &["pay"]);
    let mut seat = seat_of(&rt, alloc, &mut desk);
    let service = desk.find("pay").expect(&rt, "a service of the desk");
    let place = ServicePlace::new(&rt, &desk, service);
    same(&rt, failed_calls(alloc, &mut seat, &place, LAST, 40_000), 0);
    let seats = Vec::from_array(alloc, [seat]).expect(&rt, "ample memory");
    let book = close_one(&rt, alloc, desk, seats);
    same(&rt, book.last_number(), 80_000);
    same(&rt, book.entries(0).len(), 47_232);
    is_true(
        &rt,
        book.entries(0).first().map(|entry| entry.number()) == Some(32_769),
    );
}

#[test]
fn tickets_that_are_a_second_old_are_released_in_a_slot(rt: HostRuntime) {
    let alloc = rt.alloc();
    let mut desk = open_desk(&rt, alloc, &["pay"]);
    let mut seat = seat_of(&rt, alloc, &mut desk);
    let service = desk.find("pay").expect(&rt, "a service of the desk");
    let place = ServicePlace::new(&rt, &desk, service);
    same(&rt, unlike_aged(alloc, &mut seat, &place), 0);
}
