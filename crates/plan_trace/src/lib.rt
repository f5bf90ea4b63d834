//! Traces: their rules, the canonical plan of a trace that meets them, and the trace of a lawful plan.
#![tactic(auto)]

mod growing;
mod here;
pub mod laid;
pub mod laws;
pub mod level;
mod lines;
pub mod meeting;
pub mod planning;
mod rules;
pub mod trace_rule;
pub mod tracing;

pub use meeting::{TraceBroken, first_broken, meets};
pub use planning::plan_of;
pub use trace_rule::TraceRule;
pub use tracing::trace_of;
