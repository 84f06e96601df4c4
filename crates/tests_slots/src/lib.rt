//! Tests of a desk whose books lie in slots, by the public functions of its crates. The library itself is empty.
#![tactic(auto)]

#[cfg(test)]
mod alone;
#[cfg(test)]
mod callers;
#[cfg(test)]
mod calls;
#[cfg(test)]
mod checks;
#[cfg(test)]
mod cuts;
#[cfg(test)]
mod fixtures;
#[cfg(test)]
mod gates;
#[cfg(test)]
mod histories;
#[cfg(test)]
mod meetings;
#[cfg(test)]
mod seats;
#[cfg(test)]
mod threads;
#[cfg(test)]
mod tries;
#[cfg(test)]
mod upkeep;
#[cfg(test)]
mod workers;
