//! The draft: item by item the least step with which the steps so far meet the rules of a trace.
#![tactic(auto)]

mod bands;
mod drafting;
pub mod laws;
mod lefts;
mod lines;
mod place;
mod places;
mod site;
mod stepping;
mod strips;

pub use drafting::draft;
