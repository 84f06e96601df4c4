//! Tests of the domains and of what the analysis knows of registers, of the stack and of states, by the
//! public functions of their crates. The library itself is empty.
#![tactic(auto)]

#[cfg(test)]
mod arithmetic;
#[cfg(test)]
mod bits;
#[cfg(test)]
mod bounds;
#[cfg(test)]
mod checks;
#[cfg(test)]
mod flat;
#[cfg(test)]
mod product;
#[cfg(test)]
mod registers;
#[cfg(test)]
mod stacks;
#[cfg(test)]
mod states;
