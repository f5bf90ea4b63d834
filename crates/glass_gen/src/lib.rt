//! Instances to try things on, drawn from a number that the user chooses.
#![tactic(auto)]

mod draws;
mod generator;

pub use generator::generate;
