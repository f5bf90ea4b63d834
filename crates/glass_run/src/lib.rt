//! The commands of Glass, over files and a sink that may be real or in memory.
#![tactic(auto)]

mod answering;
pub mod laws;
pub mod program;
pub mod run;
pub mod telling;

pub use box_workers::{Gate, HeldGate, OpenGate};
pub use program::run_program;
pub use run::glass;
pub use run_frame::Status;
