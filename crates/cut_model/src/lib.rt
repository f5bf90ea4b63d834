//! Cutting plans: what they mean as one tree of pieces, the rows of the challenge's solution table, the rules of a lawful
//! plan, and one walk that tells any visitor a plan's pieces.
#![tactic(auto)]

pub mod broken;
pub mod family;
pub mod laws;
mod levels;
pub mod listing;
pub mod numbered;
mod part;
pub mod plan;
pub mod range;
pub mod steps;
pub mod traversal;
pub mod visitor;

pub use broken::{Broken, Rule, Verdict};
pub use family::{Along, Area, Children, Family, Row, Sort};
pub use listing::rows;
pub use numbered::item_numbered;
pub use plan::{Body1, Body2, Body3, Body4, Leaf4, Piece1, Piece2, Piece3, Plan, Plate};
pub use range::{fits, plates_used};
pub use steps::{Step, Trace};
pub use traversal::walk;
pub use visitor::Visitor;
