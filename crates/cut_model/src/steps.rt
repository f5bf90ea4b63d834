//! A plan told by its items alone: one step for each item, in the order in which they are cut.

use glass_base::Run;

/// The place of the next item. All lengths are in mm.
#[derive(Clone, Copy, Debug, PartialEq, Eq)]
pub struct Step {
    /// The stack, by first appearance from 0, whose next item is cut.
    pub stack: u32,
    /// 0 where the item's length lies along x, 1 where the item is turned. It is 0 for a square.
    pub turn: u32,
    /// The outermost piece that is new since the item before: 0 a plate, 1 a strip, 2 a band, 3 a cell; 4 where the item
    /// lies over the one before in the same cell.
    pub kind: u32,
    /// 1 where a waste lies under the item in its cell, else 0.
    pub lift: u32,
    /// The left side of the strip.
    pub a: u32,
    /// The right side of the strip.
    pub b: u32,
    /// The lower side of the band.
    pub c: u32,
    /// The upper side of the band.
    pub d: u32,
    /// The left side of the cell.
    pub e: u32,
}

impl Step {
    /// A step of zeros: what stands where no step is known yet.
    pub const NONE: Step = Step {
        stack: 0,
        turn: 0,
        kind: 0,
        lift: 0,
        a: 0,
        b: 0,
        c: 0,
        d: 0,
        e: 0,
    };
}

/// A list of steps. A trace of a plan has a step for each item.
#[derive(Drop)]
pub struct Trace {
    pub steps: Run<Step>,
}
