//! Why a text is no sheet's.

ghost use Rattle.std.specs.Prelude.{◌≡◌};
ghost use Rattle.cut_sheet.specs.declared.bad_sheet.BadSheet.TheVariants.{Memory as OutOfMemory};

use glass_base::Memory;

/// The first refusal of a text. Lines are counted from 1; the first line is line 1.
#[derive(Clone, Copy, Debug, PartialEq, Eq)]
pub enum BadSheet {
    /// Memory ran out.
    Memory,
    /// The first line is not the head, or has no line feed.
    Head,
    /// The first further line that is no instruction, or has no line feed.
    Line(u64),
}

impl From<Memory> for BadSheet {
    ghost from_gives = { λ _ e. e ≡ OutOfMemory };

    fn from(_refused: Memory) -> BadSheet {
        BadSheet::Memory
    }
}
