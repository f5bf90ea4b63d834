//! A first plan: that of two beams, or the draft where that is shorter; a better one for more work; and what a search begins with that asks what fronts show.
#![tactic(auto)]

mod beaming;
mod choosing;
mod comparing;
mod improving;
mod starting;
mod tails;

pub use choosing::first_plan;
pub use improving::{Effort, Team, improve};
pub use starting::{Start, better_first, start_by_fronts};
