//! Why a table is stuck.

ghost use Rattle.std.specs.Prelude.{◌≡◌};
ghost use Rattle.cut_sheet.specs.Table.{why_number};

/// Why an instruction cannot be done: the first reason that applies.
#[derive(Clone, Copy, Debug, PartialEq, Eq)]
pub enum Why {
    /// A plate is to be loaded while a piece lies on the table.
    Loaded,
    /// The plate is not the next one, or there is none of its number.
    Plate,
    /// Nothing lies on the table.
    Bare,
    /// A piece of level 4 is cut no more.
    Deep,
    /// Nothing would be cut off, or nothing would be left.
    Size,
    /// The piece is a plate, or something was cut off it.
    Begun,
    /// A piece lies on the table behind the last instruction.
    Kept,
}

impl Why {
    pub fn number(self) -> u32
        ensures { result ≡ why_number self }
    {
        match self {
            Why::Loaded => 1,
            Why::Plate => 2,
            Why::Bare => 3,
            Why::Deep => 4,
            Why::Size => 5,
            Why::Begun => 6,
            Why::Kept => 7,
        }
    }
}
