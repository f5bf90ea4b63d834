//! The judge of a plan's cuts.
#![tactic(auto)]

pub mod cut_rule;
pub mod judge;
pub mod laws;
mod rules;

pub use cut_rule::CutRule;
pub use judge::judge_cuts;
