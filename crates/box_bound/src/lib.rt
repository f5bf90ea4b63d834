//! Least values, bounds and refutations of boxes, the trace at the least values, and the choice of a variable to split.
#![tactic(auto)]

mod bounding;
mod choosing;
mod cuts;
mod ends;
mod filling;
mod gaps;
mod kept;
mod leasts;
mod looks;
mod meetings;
mod numbers;
mod placed;
mod probing;
mod refuting;
mod seen;
mod walking;

pub use bounding::{bound, bound_at};
pub use choosing::{choose, choose_at};
pub use leasts::Leasts;
pub use probing::{broken_at, probe, probe_at};
pub use refuting::{refuted, refuted_at};
