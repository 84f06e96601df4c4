//! The registry of a service: the programs that are held, by version, and the tickets that are open, by number.
//! Each call takes constant time, or time that grows with the logarithm of the number of open tickets.
#![tactic(auto)]

mod holdings;
mod installing;
mod issuing;
mod programs;
mod ticket_map;
mod tickets;

pub use holdings::Registry;
