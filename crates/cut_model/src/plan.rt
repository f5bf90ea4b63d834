//! A cutting plan: plates, cut by at most four levels of guillotine cuts.

use glass_base::Run;

/// A cutting plan: the plates that it uses, by number from 0.
#[derive(Drop)]
pub struct Plan {
    pub plates: Run<Plate>,
}

/// A plate, cut by vertical 1-cuts into pieces from left to right.
#[derive(Drop)]
pub struct Plate {
    pub pieces: Run<Piece1>,
}

/// A piece that 1-cuts make of a plate. It is as high as the plate.
#[derive(Drop)]
pub struct Piece1 {
    /// In mm.
    pub width: u32,
    pub body: Body1,
}

/// What becomes of such a piece.
#[derive(Drop)]
pub enum Body1 {
    Waste,
    /// What is left of the last plate and is not lost.
    Residual,
    /// The item of this number.
    Item(u32),
    /// Horizontal 2-cuts, from bottom to top.
    Cut(Run<Piece2>),
}

/// A piece that 2-cuts make of a 1-piece. It is as wide as that piece.
#[derive(Drop)]
pub struct Piece2 {
    /// In mm.
    pub height: u32,
    pub body: Body2,
}

/// What becomes of such a piece.
#[derive(Drop)]
pub enum Body2 {
    Waste,
    /// The item of this number.
    Item(u32),
    /// Vertical 3-cuts, from left to right.
    Cut(Run<Piece3>),
}

/// A piece that 3-cuts make of a 2-piece. It is as high as that piece.
#[derive(Clone, Copy)]
pub struct Piece3 {
    /// In mm.
    pub width: u32,
    pub body: Body3,
}

/// What becomes of such a piece.
#[derive(Clone, Copy)]
pub enum Body3 {
    Waste,
    /// The item of this number.
    Item(u32),
    /// One horizontal 4-cut. The first leaf is the lower one.
    Two(Leaf4, Leaf4),
}

/// A piece that a 4-cut makes of a 3-piece. It is as wide as that piece.
#[derive(Clone, Copy)]
pub struct Leaf4 {
    /// In mm.
    pub height: u32,
    pub body: Body4,
}

/// What becomes of such a piece.
#[derive(Clone, Copy)]
pub enum Body4 {
    Waste,
    /// The item of this number.
    Item(u32),
}
