//! The two words that all workers share: the best loss that is known, and the next ticket.
//!
//! A worker reads and changes them through a seat of its own, and of the others it knows what it reads there.
#![tactic(auto)]

mod best;
mod seat;
mod view;

pub use best::{NONE, SharedBest};
pub use seat::Seat;
pub use view::View;
