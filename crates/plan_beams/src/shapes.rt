//! Defects, cells and bands on a plate. All lengths are in mm.

use crate::measure::Length;

/// The open rectangle of a defect. Their order is from left to right.
#[derive(Clone, Copy, PartialEq, Eq, PartialOrd, Ord)]
pub struct Rectangle {
    pub x0: Length,
    pub y0: Length,
    pub x1: Length,
    pub y1: Length,
}

impl Rectangle {
    /// Whether the upright line at `x` runs through it, if it is long enough.
    pub fn is_crossed_x(&self, x: Length) -> bool {
        self.x0 < x && x < self.x1
    }

    /// Whether the level line at `y` runs through it, if it is long enough.
    pub fn is_crossed_y(&self, y: Length) -> bool {
        self.y0 < y && y < self.y1
    }

    /// Whether it reaches between `left` and `right`.
    pub fn is_along_x(&self, left: Length, right: Length) -> bool {
        self.x0 < right && left < self.x1
    }

    /// Whether it reaches between `low` and `top`.
    pub fn is_along_y(&self, low: Length, top: Length) -> bool {
        self.y0 < top && low < self.y1
    }
}

/// A cell of a band: one item, or two of the same width one over the other.
#[derive(Clone, Copy)]
pub struct Cell {
    /// The left side.
    pub e: Length,
    pub width: Length,
    /// The height of its items together.
    pub height: Length,
    pub two: bool,
    /// Whether a waste lies under its item.
    pub lifted: bool,
}

impl Cell {
    pub fn right(&self) -> Length {
        self.e + self.width
    }
}

/// A band of the strip that is closed.
#[derive(Clone, Copy)]
pub struct ClosedBand {
    /// The lower side.
    pub c: Length,
    /// The upper side.
    pub d: Length,
    /// The right side of its last cell.
    pub right: Length,
}

/// How far a strip and its band reach: the right side of the one, and the upper side of the other.
#[derive(Clone, Copy, PartialEq, Eq)]
pub struct Reach {
    pub b: Length,
    pub d: Length,
}

impl Reach {
    pub const ZERO: Reach = Reach {
        b: Length::ZERO,
        d: Length::ZERO,
    };
}
