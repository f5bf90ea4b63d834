//! What is known of a deque by one who uses it.
use plan_box::{Frame, PlanBox};
use std::alloc::Global;
use std::collections::LinkedList;

/// What the holder of a pass has put into a deque and taken from it. No value of it is made: contracts alone speak of it, and see the
/// lists as plain ones.
pub struct Tally {
    /// How many of the two parts of the deque's pass the holder has. Who has both knows all that was put and taken.
    pub parts: u64,
    /// Whether the frame is known.
    pub framed: bool,
    /// The frame of all boxes in the deque.
    pub frame: Frame,
    /// The boxes that the holder has put in, in order.
    pub put: LinkedList<PlanBox>,
    /// The boxes that the holder has taken, in order.
    pub taken: LinkedList<PlanBox>,
}
