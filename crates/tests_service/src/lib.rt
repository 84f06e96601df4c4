//! Tests of a service: its parts, its book and its desk, by the public functions of their crates. The library
//! itself is empty.
#![tactic(auto)]

#[cfg(test)]
mod books;
#[cfg(test)]
mod breakers;
#[cfg(test)]
mod bulkheads;
#[cfg(test)]
mod checks;
#[cfg(test)]
mod configurations;
#[cfg(test)]
mod desk_calls;
#[cfg(test)]
mod desk_fixtures;
#[cfg(test)]
mod desk_histories;
#[cfg(test)]
mod gates;
#[cfg(test)]
mod histories;
#[cfg(test)]
mod layouts;
#[cfg(test)]
mod registries;
#[cfg(test)]
mod rolls;
#[cfg(test)]
mod seats;
#[cfg(test)]
mod sliding_windows;
#[cfg(test)]
mod threads;
#[cfg(test)]
mod upkeep;
