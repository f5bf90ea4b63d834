//! What a cut sheet says, and what comes of it.

/// One instruction to the cutting table.
#[derive(Clone, Copy, Debug, PartialEq, Eq)]
pub enum Instr {
    /// Puts the plate of this number on the empty table.
    Load(u32),
    /// Cuts the first so many mm off the top piece, from side to side. They lie on what is left of it.
    Off(u32),
    /// Takes the top piece, or what is left of it, as a whole for a piece of the next level.
    Whole,
    /// Takes the top piece from the table. It is of this type: an item's number, -1 for a waste, -3 for the residual.
    Done(i64),
}

/// A piece that left the table. All lengths are in mm.
#[derive(Clone, Copy, Debug, PartialEq, Eq)]
pub struct Made {
    /// The number of its plate, from 0.
    pub plate: u32,
    /// The left side on its plate.
    pub x: u32,
    /// The lower side on its plate.
    pub y: u32,
    pub width: u32,
    pub height: u32,
    /// What it left the table as.
    pub kind: i64,
    /// The level of the cut that made it, 1 to 4.
    pub cut: u32,
}

/// The first instruction of a sheet that the table cannot follow.
#[derive(Clone, Copy, Debug, PartialEq, Eq)]
pub struct Stuck {
    /// The line of the sheet's text, counted from 1; the first line is the head.
    pub line: u64,
    /// The number of the reason, 1 to 7.
    pub why: u32,
}
