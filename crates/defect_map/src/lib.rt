//! Queries on the defects of the plates.
#![tactic(auto)]

mod columns;
mod frame;
mod ground;
pub mod map;

pub use ground::Ground;
pub use map::DefectMap;
