//! The program that draws a plan, over files and a sink that may be real or in memory.
#![tactic(auto)]

mod drawing;
pub mod laws;
pub mod program;
pub mod run;

pub use program::run_picture;
pub use run::glass_picture;
