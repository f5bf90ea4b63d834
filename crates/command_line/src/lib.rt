//! The command lines of the programs: a table of commands, each a row with the files that it reads and stores, its
//! numbers and its options, one parser for all of them, and what the programs tell of them.
#![tactic(auto)]

pub mod kinds;
pub mod laws;
pub mod line;
pub mod manual;
pub mod options;
pub mod questions;
pub mod rows;
mod words;

pub use kinds::{Count, Flag, Lead, Product, Verb};
pub use line::{CommandLine, line_named, picture_line, verb_named};
pub use manual::{answer_to, picture_usage_line, usage_line};
pub use options::role_word;
pub use questions::{Program, Question, question_asked};
pub use rows::FETCH_ORDER;
