//! The elements of a picture.

use cut_model::{Broken, Row, Rule};
use glass_base::Defect;

/// One element of a picture, between its beginning and its end. All places and sizes are in mm. The y axis of a picture points down, that of a plate's group up.
#[derive(Clone, Copy)]
pub enum Mark {
    /// The beginning of the group of a plate: its number, and where its lower left corner stands.
    Plate { number: u32, x: u64, y: u64 },
    /// The rectangle of a row.
    Piece(Row, PieceLook),
    /// A cut.
    Cut(Line),
    /// A defect.
    Defect(Defect),
    /// The outline of the piece that breaks a rule.
    Outline(Row),
    /// A ring around the defect by which the rule is broken.
    Ring { x: u32, y: u32 },
    /// The end of a plate's group.
    PlateEnd,
    /// A round spot of the legend.
    Sample { x: u64, y: u64, fill: Fill },
    /// A line of text.
    Label(PlacedText),
}

/// The sizes of a picture.
#[derive(Clone, Copy)]
pub struct PictureSize {
    pub width: u64,
    pub height: u64,
    /// The size of its plain text, from which the widths of its lines follow.
    pub size: u64,
    /// The height of a printed page in px, where 1200 px are the width of the picture.
    pub page: u64,
}

/// What a piece looks like.
#[derive(Clone, Copy)]
pub enum PieceLook {
    /// An item, by its number, and its stack, counted from 0 by the first appearance of the stacks in the batch. An item that the
    /// batch does not have has none.
    Item(u32, Option<usize>),
    Waste,
    /// A plate, or a piece that is cut.
    Branch,
    Residual,
}

/// A straight line that stands for a cut of this level, 1 to 4.
#[derive(Clone, Copy)]
pub struct Line {
    pub level: u32,
    pub x1: u64,
    pub y1: u64,
    pub x2: u64,
    pub y2: u64,
}

/// How a spot of the legend is filled.
#[derive(Clone, Copy)]
pub enum Fill {
    /// As the items of this stack.
    Stack(usize),
    Waste,
    Residual,
    Defect,
}

/// A line of text, and where its base line stands: its left end, or its middle where it belongs to a piece.
#[derive(Clone, Copy)]
pub struct PlacedText {
    pub x: u64,
    pub y: u64,
    pub size: u64,
    /// Whether it reads upwards.
    pub upright: bool,
    pub words: Words,
}

/// What a line of text says.
#[derive(Clone, Copy)]
pub enum Words {
    /// The number of an item, and whether it is turned.
    Number(u32, bool),
    /// The sides of a piece.
    Sides(u32, u32),
    /// The number of an item, whether it is turned, and its sides.
    Item(u32, bool, u32, u32),
    /// That a piece is the residual.
    Residual,
    /// The number of a plate and its sides.
    Plate(u32, u32, u32),
    /// What a plan loses, in mm² and in thousandths of the glass that it uses.
    Loss(u64, u64),
    /// The first breach of a plan.
    Unlawful(Broken),
    /// What it means to break a rule.
    Reason(Rule),
    /// How many plates a plan uses, and how many items it cuts.
    Counts(u64, u64),
    /// What a spot or a line of the legend stands for.
    Key(Key),
}

/// What a spot or a line of the legend stands for.
#[derive(Clone, Copy)]
pub enum Key {
    Stacks,
    Waste,
    Residual,
    Defect,
    /// The letter behind the number of an item that is turned.
    Turned,
    Cuts,
}
