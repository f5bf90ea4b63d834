//! What is told of tables that are likely meant otherwise: each begins with a header, which is not read, so that a
//! table without one loses its first row.
#![tactic(auto)]

pub mod lines;
pub mod notes;
pub mod noting;

pub use notes::{TableNote, note_on};
pub use noting::NotingFiles;
