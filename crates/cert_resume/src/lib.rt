//! Going on from a certificate that leaves boxes open: these boxes, and the certificate in which each of them has a tree of its own.
#![tactic(auto)]

mod joining;
mod opening;

pub use joining::join;
pub use opening::left_boxes;
