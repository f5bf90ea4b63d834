//! The table of all fronts of an instance: what leads on from each, where strips from it can end, and the least length from it to the end of a plan.
#![tactic(auto)]

pub mod bands;
mod behind;
mod building;
pub mod ends;
mod facts;
pub mod far;
pub mod fronts;
pub mod halt;
pub mod labels;
pub mod lanes;
pub mod lattice;
pub mod levels;
pub mod moves;
pub mod packed;
pub mod pools;
pub mod probe;
pub mod rows;
mod search;
pub mod sets;
mod stairs;
pub mod strips;
pub mod table;
pub mod tails;
