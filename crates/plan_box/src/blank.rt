//! Memory for the ranges that a box stores.

use crate::packed::Packed;
use glass_base::{Memory, Run};
use std::alloc::Global;
use std::marker::Model;

/// Memory for the ranges of one box, to be taken by a half of another one. Contracts see for how many steps there is room.
#[derive(Drop)]
pub struct Blank {
    ranges: Run<Packed>,
}

impl Model for Blank {
    ghost use Rattle.std.specs.Prelude.{◌≡◌, ℕ, []};

    ghost Value = { ℕ };

    ghost view = { λ b. b.ranges.spare };

    ghost invariant = { λ b. b.ranges.items ≡ [] };
}

impl Blank {
    ghost use Rattle.std.specs.Prelude.{◌≡◌, ◌≤◌, [], OnOk};

    /// No memory.
    pub fn new(alloc: Global) -> Blank {
        Blank {
            ranges: Run::new(alloc),
        }
    }

    /// The memory of these ranges, which are no longer wanted.
    pub(crate) fn of(ranges: Run<Packed>) -> Blank {
        let mut ranges = ranges;
        while ranges.pop().is_some() {}
        Blank { ranges }
    }

    /// Takes memory for so many steps.
    pub(crate) fn reserve(&mut self, steps: usize) -> Result<(), Memory>
        ensures { OnOk result (steps ≤ self.new) }
    {
        self.ranges.reserve(steps)
    }

    /// An empty list with this room.
    pub(crate) fn list(self) -> Run<Packed>
        ensures empty { result.items ≡ [] }
        ensures room { result.spare ≡ self }
    {
        self.ranges
    }
}
