//! What may cross threads.
use crate::desks::Desk;
use crate::seats::Seat;

fn shared<T: Sync>(_it: &T) {}

fn sent<T: Send + Drop>(it: T) {
    drop(it);
}

/// A desk may be shared by threads.
pub fn desks_are_shared(desk: &Desk) {
    shared(desk)
}

/// A seat may go to another thread, with the desk that it asks.
pub fn seats_are_sent(desk: &Desk, seat: Seat) {
    sent(Asking { desk, seat })
}

/// A seat with the desk that it asks.
#[derive(Drop)]
pub struct Asking<'a> {
    pub desk: &'a Desk,
    pub seat: Seat,
}
