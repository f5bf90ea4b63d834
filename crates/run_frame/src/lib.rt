//! The frame of a run: which files a command line has read, what is told where they cannot be, and how a reply is stored and printed. It knows
//! nothing of glass: which answers are right is said by the crates above it.
#![tactic(auto)]

pub mod asking;
pub mod delivering;
pub mod fetching;
pub mod lines;
pub mod notices;
pub mod refusals;
pub mod reply;
pub mod status;
pub mod texts;
pub mod words;

pub use asking::{answer_otherwise, tell_usage};
pub use delivering::deliver;
pub use fetching::{NoReply, fetch_files};
pub use lines::{USAGE_LINE, read_fault_line};
pub use notices::{Stop, bad_input, refused, reply_at, reply_with, stop_at};
pub use refusals::{Refusal, lists_refusal, numbered, text_refusal};
pub use reply::{Notice, Output, Reply, one_output};
pub use status::Status;
pub use texts::{Text, limit, text_of_role, text_or_empty};
