//! Partial traces: each ends in a node, and a node knows the one before it.

use crate::measure::{Amount, Length};
use crate::shapes::{Cell, ClosedBand, Reach};
use crate::task::LANES;

/// What a cell begins.
#[derive(Clone, Copy)]
pub enum Begins {
    /// A strip on a new plate.
    Plate,
    /// A strip beside the one before.
    Strip,
    /// A band over the one before.
    Band,
    /// Itself alone, beside the cell before.
    Cell,
}

impl Begins {
    /// The number of this kind in a step of a trace.
    pub fn kind(self) -> u32 {
        match self {
            Begins::Plate => 0,
            Begins::Strip => 1,
            Begins::Band => 2,
            Begins::Cell => 3,
        }
    }

    pub fn is_plate(self) -> bool {
        self.kind() == 0
    }

    pub fn is_strip(self) -> bool {
        self.kind() <= 1
    }

    pub fn is_band(self) -> bool {
        self.kind() <= 2
    }
}

/// The next item of a stack, as it is laid.
#[derive(Clone, Copy)]
pub struct LaidItem {
    pub stack: u16,
    pub turned: bool,
}

/// One cell put down. All lengths are in mm; the least `b` and `d` of the strip and the band so far are those of
/// their last node, which later cells may raise.
#[derive(Clone, Copy)]
pub struct LaidCell {
    /// The node before, by its place in the arena; none for the first cell.
    pub parent: Option<u32>,
    pub part: LaidItem,
    /// The item above in the cell.
    pub above: Option<LaidItem>,
    pub begins: Begins,
    pub lifted: bool,
    pub plate: u16,
    /// How many items are cut so far.
    pub items: u16,
    pub a: u16,
    pub b: u16,
    pub c: u16,
    pub d: u16,
    pub e: u16,
    pub width: u16,
    pub height: u16,
    /// The right side of the last closed strip of the plate that may be wider by any number, or 0.
    pub lax_b: u16,
    /// The upper side of the last closed band of the strip that may be higher by any number, or 0.
    pub lax_d: u16,
}

impl LaidCell {
    /// The state before the first cell.
    pub fn start() -> LaidCell {
        LaidCell {
            parent: None,
            part: LaidItem {
                stack: 0,
                turned: false,
            },
            above: None,
            begins: Begins::Plate,
            lifted: false,
            plate: 0,
            items: 0,
            a: 0,
            b: 0,
            c: 0,
            d: 0,
            e: 0,
            width: 0,
            height: 0,
            lax_b: 0,
            lax_d: 0,
        }
    }

    /// The node before this one, where there is one.
    pub fn parent_in<'n>(&self, arena: &'n [LaidCell]) -> Option<&'n LaidCell> {
        arena.get(self.parent? as usize)
    }

    /// Marks the node before this one.
    pub fn mark_parent(&self, marks: &mut [bool]) {
        if let Some(parent) = self.parent {
            if let Some(mark) = marks.get_mut(parent as usize) {
                *mark = true;
            }
        }
    }

    /// Notes that the node before this one has another place now: that of each node is told.
    pub fn move_parent(&mut self, places: &[u32]) {
        if let Some(parent) = self.parent {
            self.parent = places.get(parent as usize).copied();
        }
    }

    /// The right side of the cell.
    pub fn right(&self) -> Length {
        Length::from(self.e) + Length::from(self.width)
    }

    pub fn cell(&self) -> Cell {
        Cell {
            e: self.e.into(),
            width: self.width.into(),
            height: self.height.into(),
            two: self.above.is_some(),
            lifted: self.lifted,
        }
    }

    /// From where on what is on its plate and in its strip may be moved.
    pub fn lax(&self) -> Reach {
        Reach {
            b: self.lax_b.into(),
            d: self.lax_d.into(),
        }
    }

    /// The band that ends with this cell.
    pub fn band(&self) -> ClosedBand {
        ClosedBand {
            c: self.c.into(),
            d: self.d.into(),
            right: self.right(),
        }
    }
}

/// A node with its sums.
#[derive(Clone, Copy)]
pub struct Candidate {
    pub node: LaidCell,
    /// The least is the best.
    pub key: Amount,
    /// The area of the items so far.
    pub area: Amount,
    /// Their value.
    pub value: Amount,
    /// The glass that is lost for certain; with all items, the loss.
    pub waste: Amount,
    /// The sum over the items of the mixes of their stacks, which tells sets of items apart.
    pub mix: u64,
}

impl Candidate {
    /// The state before the first cell.
    pub fn start() -> Candidate {
        Candidate {
            node: LaidCell::start(),
            key: Amount::ZERO,
            area: Amount::ZERO,
            value: Amount::ZERO,
            waste: Amount::ZERO,
            mix: 0,
        }
    }

    /// The sieve to which it goes.
    pub fn sieve(&self) -> u32 {
        (self.mix % LANES as u64) as u32
    }
}
