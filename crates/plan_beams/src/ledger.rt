//! What a lane keeps, and what it took.

use crate::lists::List;
use crate::measure::Amount;
use crate::node::Candidate;
use crate::task::Task;
use crate::ticks::Ticks;
use glass_base::Memory;
use std::alloc::Global;

/// The children that a lane keeps, in a list for those of one item more and one for those of two; and the ticks that
/// it took.
#[derive(Drop)]
pub struct Ledger {
    /// Those of one item more than their nodes.
    pub one: List,
    /// Those of two.
    pub two: List,
    /// A list that is longer is cut down to its better half.
    most: usize,
    pub ticks: Ticks,
}

impl Ledger {
    pub fn new(alloc: Global) -> Ledger {
        Ledger {
            one: List::new(alloc),
            two: List::new(alloc),
            most: usize::MAX,
            ticks: Ticks { spent: 0 },
        }
    }

    /// From these keys on a child of one item more, or of two, is of no use, and no list gets longer than `most`.
    pub fn limit_to(&mut self, one: Amount, two: Amount, most: usize) {
        self.one.cut = one;
        self.two.cut = two;
        self.most = most;
    }

    /// What the waste and the charge of a child, in 1/1024 mm², have to be below together, where it has so many items
    /// more than its node and is worth so much.
    pub fn limit(&self, task: &Task, more: u16, value: Amount) -> Amount {
        let cut = if more > 1 { self.two.cut } else { self.one.cut };
        let rest = task.stock.value - value;
        if cut <= rest {
            return Amount::ZERO;
        }
        (cut - rest).min(Amount(1024) * task.best)
    }

    /// Takes a child in.
    pub fn offer(&mut self, candidate: &Candidate) -> Result<(), Memory> {
        let most = self.most;
        if candidate.node.above.is_some() {
            self.two.add(candidate, most)
        } else {
            self.one.add(candidate, most)
        }
    }
}
