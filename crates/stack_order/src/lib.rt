//! The judge of the order in which a plan cuts its items.
#![tactic(auto)]

mod breaches;
pub mod cuts;
pub mod judge;
pub mod laws;
mod order_rule;

pub use judge::judge_order;
