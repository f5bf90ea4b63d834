//! The improvement board: the plans that several workers found, each better than the one before, in a list that they share under a lock.
#![tactic(auto)]

pub mod board;
mod copying;
pub mod entries;
pub mod entry;
pub mod settling;

pub use board::Board;
pub use copying::copy_trace;
pub use entries::Entries;
pub use entry::{Entry, Offered};
pub use settling::settle;
