//! A plan along the fronts: what comes of it is a guess, which is asked of the rules.
#![tactic(auto)]

mod cells;
mod cutting;
mod ends_at;
mod heights;
mod needs;
mod piling;
mod plan_search;
mod planning;
pub mod plans;
mod taking_back;
