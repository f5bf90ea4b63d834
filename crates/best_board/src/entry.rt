//! What a board keeps of a plan, and what it answers to one.

use cut_model::Trace;

/// A plan that was found, by its trace, with its loss in mm².
#[derive(Drop)]
pub struct Entry {
    pub loss: u64,
    pub trace: Trace,
}

/// What became of a trace that was offered.
#[derive(Clone, Copy, Debug, PartialEq, Eq)]
pub enum Offered {
    /// It stands at the end of the list.
    Entered,
    /// The last plan of the list, which has this loss, loses no more.
    Late(u64),
    /// It has not a step for each item, or breaks a rule.
    Broken,
}
