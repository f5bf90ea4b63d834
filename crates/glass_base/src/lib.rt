//! What every crate of Glass stands on: lists with room taken ahead of time, parameters, items, defects, instances, and who
//! is told how far the work is.
#![tactic(auto)]

pub mod bad_text;
pub mod digits;
pub mod instance;
pub mod item;
pub mod laws;
pub mod limits;
pub mod listener;
pub mod memory;
pub mod params;
mod plates;
pub mod role;
pub mod run;
pub mod sizes;
mod stacks;

pub use bad_text::BadText;
pub use digits::{are_digits, number_within};
pub use instance::{BadInstance, Instance};
pub use item::{Defect, Item};
pub use listener::{Listener, News, Nobody};
pub use memory::Memory;
pub use params::{BadParams, Params};
pub use plates::same_widths;
pub use role::Role;
pub use run::{Run, append};
pub use sizes::Sizes;
pub use stacks::stack_numbers;
