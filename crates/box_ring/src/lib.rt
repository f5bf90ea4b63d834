//! Deques of boxes in a ring: each worker has one, and steals from the next worker's.
//!
//! A deque keeps one rule between any two steps, whoever makes them: what was put in is what was taken out and what it holds.
#![tactic(auto)]

mod arm;
mod deque;
mod gathered;
pub mod laws;
mod neighbour;
mod rings;
mod tally;

pub use arm::Arm;
pub use gathered::Gathered;
pub use rings::{gather, ring};
pub use tally::Tally;
