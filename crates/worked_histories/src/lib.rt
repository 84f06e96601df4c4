//! Worked histories of a service, as rows of constants, and what plays them by whoever calls the service's book: the book
//! itself, or a seat of a desk. Tests alone call this.
#![tactic(auto)]

mod answers;
mod asking;
mod entries;
mod gates;
mod histories;
mod journals;
mod parts;
mod playing;
mod readings;
mod steps;
mod upkeep;
mod wishes;

pub use answers::{Answer, FAILURE, FULL, NO_TICKET, NOT_PERMITTED, SPENT, SUCCESS, reply};
pub use asking::{outcome_of, program, request_of, shared_program};
pub use entries::{Entered, Made, are_calls, are_entries, is_entry};
pub use gates::{Flag, HoldingGate};
pub use histories::{HISTORIES, STATE_CHANGES, state_change};
pub use journals::{
    EACH_CALL, JOURNALS, LAST_TICKET, LAST_TICKETS, LATER_TICKET, LATER_TICKETS, LONG_JOURNALS,
};
pub use parts::{Part, config_parts};
pub use playing::{Found, Missed, asked, is_answered, play};
pub use readings::{FRESH, Shown, reading};
pub use steps::{Handed, History, Step, history_at};
pub use upkeep::{A_SECOND, AgedAcquire, LAST, acquire_at, failed_calls, unlike_aged};
pub use wishes::Wish;
