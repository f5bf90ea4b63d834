//! The handling of boxes by a worker, and the search.
#![tactic(auto)]

mod collecting;
mod dealing;
mod desk;
mod draining;
mod enlisting;
mod finishing;
pub mod gate;
pub mod hand;
pub mod handling;
pub mod held_gate;
pub mod laws;
mod member;
pub mod patient_gate;
pub mod poster;
mod posting;
mod running;
pub mod searching;
mod spares;
mod spreading;
pub mod starting;
mod teaming;
mod turning;
pub mod watching;
mod workers;
pub mod working;

pub use gate::{Gate, OpenGate};
pub use hand::Hand;
pub use handling::{Done, handle};
pub use held_gate::HeldGate;
pub use patient_gate::PatientGate;
pub use poster::{BoardPoster, NoPoster, Poster};
pub use searching::search;
pub use starting::{first_loss, start_boxes};
pub use watching::search_watched;
pub use working::{Rest, work};
