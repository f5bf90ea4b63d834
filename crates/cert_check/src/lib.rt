//! A check of certificates: one walk over the nodes, which keeps the path from the root to the box at hand.
#![tactic(auto)]

mod bounding;
mod checking;
mod ends;
mod filling;
mod free;
mod gaps;
pub mod laws;
mod looks;
mod meetings;
mod numbers;
mod path;
mod placed;
mod reasoning;
mod refuting;
mod scratch;
mod steps;
mod taken;
pub mod verdict;
mod walk;

pub use checking::check_cert;
pub use reasoning::reasoned;
pub use verdict::{Verdict, Why};
