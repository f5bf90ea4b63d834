//! The batch file: the items to be cut.
#![tactic(auto)]

pub mod reading;

pub use reading::read_batch;
