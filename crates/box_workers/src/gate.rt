//! What a search tells as it goes on.

use glass_base::Listener;

/// Is told of each box before it is handled, and of each turn without a box. As a listener it hears the loss of the plan
/// that a worker holds at each box, in mm², where `shared_best::NONE` is none. Its calls change nothing of the search of
/// boxes.
pub trait Gate: Listener {
    /// This worker is about to handle the box of this identity.
    fn pass(&self, worker: u32, id: u64);

    /// This worker found no box.
    fn idle(&self, worker: u32);
}

/// A gate that does nothing.
#[derive(Clone, Copy)]
pub struct OpenGate;

impl Listener for OpenGate {}

impl Gate for OpenGate {
    fn pass(&self, _worker: u32, _id: u64) {}

    fn idle(&self, _worker: u32) {}
}
