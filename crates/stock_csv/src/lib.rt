//! The files that tell of the stock of plates: their defects, the parameters of plates and cuts, and plates of their own width.
#![tactic(auto)]

pub mod defects;
pub mod parameters;
pub mod plates;
pub mod widening;

pub use defects::read_defects;
pub use parameters::read_params;
pub use plates::read_plates;
