//! Places by hand.
use crate::checks::{is_true, same};
use bulkhead::Bulkhead;

#[test]
fn places_are_taken_and_given_back(rt: HostRuntime) {
    let mut bulkhead = Bulkhead::new(2);
    same(&rt, bulkhead.free(), 2);
    is_true(&rt, bulkhead.enter());
    is_true(&rt, bulkhead.enter());
    same(&rt, bulkhead.free(), 0);
    is_true(&rt, !bulkhead.enter());
    bulkhead.leave();
    same(&rt, bulkhead.free(), 1);
    is_true(&rt, bulkhead.enter());
    is_true(&rt, !bulkhead.enter());
}

#[test]
fn no_place_is_free_of_none(rt: HostRuntime) {
    let mut bulkhead = Bulkhead::new(0);
    is_true(&rt, !bulkhead.enter());
    same(&rt, bulkhead.free(), 0);
}
