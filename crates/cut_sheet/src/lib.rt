//! The cut sheet of a plan: the instructions by which a cutting table makes its pieces, their text both ways, and the table itself.
#![tactic(auto)]

mod amounts;
pub mod bad_sheet;
pub mod instr;
pub mod laws;
mod numbers;
mod parts;
pub mod piece;
pub mod reading;
pub mod replaying;
pub mod sheeting;
mod table;
pub mod text;
pub mod why;

pub use amounts::{cuts, waste};
pub use bad_sheet::BadSheet;
pub use instr::{Instr, Made, Stuck};
pub use reading::read_sheet;
pub use replaying::replay;
pub use sheeting::sheet_of;
pub use text::write_sheet;
pub use why::Why;
