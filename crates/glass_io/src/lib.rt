//! Files and a place to print to, by what they hold and by how often they failed.
#![tactic(auto)]

mod decisions;
mod faults;
pub mod files;
pub mod memory;
mod storing;
pub mod system;

pub use decisions::FileId;
pub use files::{Fetched, Files, Sink, Trouble};
pub use memory::{MemFiles, MemSink};
pub use system::{StdFiles, StdSink};
