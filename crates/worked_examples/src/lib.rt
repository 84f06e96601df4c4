//! Worked examples of the documented machine, each as a law over its definitions: what is done on a
//! fresh service with the default classifier, and what its caller hears. Nothing here runs: the prover
//! computes the definitions.
#![tactic(auto)]

pub mod openings;
pub mod promises;
pub mod rows;
