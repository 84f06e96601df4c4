//! Tests of connections that are served in turns, by the public functions of their crates. The library itself has one
//! function, whose clause says what a turn of a session comes to where the bytes of its stream are known.
#![tactic(auto)]

#[cfg(test)]
mod checks;
#[cfg(test)]
mod counted_calls;
#[cfg(test)]
mod echo;
#[cfg(test)]
mod limits;
mod memory;
#[cfg(test)]
mod pieces;
#[cfg(test)]
mod pipelines;
#[cfg(test)]
mod polls;
#[cfg(test)]
mod sessions;
#[cfg(test)]
mod streams;

pub use memory::turn_in_memory;
