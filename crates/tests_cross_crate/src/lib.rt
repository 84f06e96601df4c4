//! Tests that cross crates: the fast run beside the plain machine, and programs from their text to
//! their verdicts. The library itself is empty.
#![tactic(auto)]

#[cfg(test)]
mod arithmetic;
#[cfg(test)]
mod assembling;
#[cfg(test)]
mod branches;
#[cfg(test)]
mod changed;
#[cfg(test)]
mod checks;
#[cfg(test)]
mod comparisons;
#[cfg(test)]
mod conversions;
#[cfg(test)]
mod decoding;
#[cfg(test)]
mod domains;
#[cfg(test)]
mod edges;
#[cfg(test)]
mod encoding;
#[cfg(test)]
mod flows;
#[cfg(test)]
mod instructions;
#[cfg(test)]
mod judging;
#[cfg(test)]
mod layouts;
#[cfg(test)]
mod loads;
#[cfg(test)]
mod memory;
#[cfg(test)]
mod program_texts;
#[cfg(test)]
mod programs;
#[cfg(test)]
mod records;
#[cfg(test)]
mod refusal_table;
#[cfg(test)]
mod sizes;
#[cfg(test)]
mod told;
#[cfg(test)]
mod tracing;
#[cfg(test)]
mod verifying;
