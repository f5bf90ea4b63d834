//! The picture of a plan: its plates, pieces, cuts and defects as one SVG text.
#![tactic(auto)]

mod adding;
mod canvas;
mod drawing;
mod labels;
mod layout;
mod legend;
pub mod mark;
mod over;
mod sheet;
mod survey;
mod words;
mod writing;

pub use drawing::picture;
pub use mark::{Fill, Key, Line, Mark, PictureSize, PieceLook, PlacedText, Words};
