//! What a seat knows. Only contracts speak of it: no value of it is made.
use std::alloc::Global;
use std::collections::LinkedList;

/// What a seat has seen, announced and drawn. Losses are in mm², or `NONE` where there is none.
pub struct View {
    /// The seat has not been joined into another one.
    pub live: bool,
    /// The first value of the best loss.
    pub first: u64,
    /// The least loss that it knows of by a look: its own last one, one of the seat that it was split off from, or one of a seat that was
    /// joined into it. `NONE` before.
    pub seen: u64,
    /// The least loss that it announced, or a seat that was joined into it. `NONE` before.
    pub announced: u64,
    /// For each look the ticket that the seat drew last before it, or `NONE`, and the loss that was found: its own looks in order, those of
    /// a seat that was joined into it behind.
    pub looks: LinkedList<(u64, u64)>,
    /// The tickets that it drew, in order, those of a seat that was joined into it behind.
    pub tickets: LinkedList<u64>,
    /// How many tickets it may still draw: at most 2^62.
    pub allowance: u64,
}
