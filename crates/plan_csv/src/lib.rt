//! The solution file: a plan as the challenge's table of nodes.
#![tactic(auto)]

pub mod bad_plan;
mod checks;
mod fields;
mod growing;
pub mod laws;
mod nodes;
pub mod reading;
pub mod writing;

pub use bad_plan::BadPlan;
pub use reading::read_plan;
pub use writing::write_plan;
