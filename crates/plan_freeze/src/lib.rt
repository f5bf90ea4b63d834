//! Plates that are cut already: the instance and the plan that are left behind them, what they lose, and how plans are put together again.
#![tactic(auto)]

mod copying;
mod gathering;
pub mod gluing;
pub mod laws;
pub mod losing;
pub mod resting;

pub use gluing::glue;
pub use losing::frozen_loss;
pub use resting::rest;
