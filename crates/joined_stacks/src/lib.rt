//! Equal single items are one stack. Stacks all of whose items have one size, and the same one as each other, are joined into one: what no course of the
//! joined instance is shorter than, none of the first one is. The joined instance has far fewer fronts.
#![tactic(auto)]

mod checking;
mod grouping;
pub mod joining;

pub use joining::{Joined, join_stacks, joined_or};
