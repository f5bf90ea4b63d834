//! Moves from a front to a later one: a cell, or a band.

use crate::labels::FrontLabel;

/// How far pieces that follow each other may reach: together along, and each across, in mm.
#[derive(Clone, Copy)]
pub struct Extent {
    pub along: u32,
    pub across: u32,
}

/// A piece that leads to the row of another front, and the sizes that it can have.
#[derive(Clone, Copy)]
pub struct Move {
    pub to: u32,
    pub label: FrontLabel,
}
