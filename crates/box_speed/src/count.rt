//! What is told of a search.

/// How a search went.
pub struct Count {
    /// How many boxes were handled.
    pub boxes: usize,
    /// How many were left.
    pub open: usize,
    /// The least loss of the plan that it began with and of those that were found, in mm², where there is one.
    pub loss: Option<u64>,
}
