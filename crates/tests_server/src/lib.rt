//! Tests of the commands and of the server, by the public functions of their crates. The library itself is
//! empty.
#![tactic(auto)]

#[cfg(test)]
mod answerers;
#[cfg(test)]
mod checks;
#[cfg(test)]
mod clocks;
#[cfg(test)]
mod commands;
#[cfg(test)]
mod failing_connections;
#[cfg(test)]
mod file_layouts;
#[cfg(test)]
mod fixtures;
#[cfg(test)]
mod heads;
#[cfg(test)]
mod longest_stays;
#[cfg(test)]
mod many_workers;
#[cfg(test)]
mod pools;
#[cfg(test)]
mod query_layouts;
#[cfg(test)]
mod racing_slots;
#[cfg(test)]
mod racing_workers;
#[cfg(test)]
mod request_bodies;
#[cfg(test)]
mod routes;
#[cfg(test)]
mod seats_over_http;
#[cfg(test)]
mod servers;
#[cfg(test)]
mod service_files;
#[cfg(test)]
mod services_over_http;
#[cfg(test)]
mod serving;
