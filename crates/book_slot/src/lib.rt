//! The book of one service in a slot. Whoever takes it out of the slot holds it alone, and puts it back longer by one
//! entry, rolled, opened anew or as it was.
#![tactic(auto)]

mod calls;
mod exchange;
mod held;
mod slots;
mod trying;
mod view;

pub use slots::{Place, Slot};
pub use trying::{Busy, Held};
pub use view::{OneHistory, Trace, View};
