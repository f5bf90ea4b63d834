//! Where strips end.

ghost use Rattle.std.specs.Prelude.{◌≤◌};
ghost use Rattle.glass_base.specs.declared.limits.TheConstants.{MOST_PLATES};

use glass_base::Instance;

/// A row at which strips of a plate end: their right sides are offered there. That the plate is one that an instance can have goes with it.
#[derive(Clone, Copy)]
pub struct Ending<'a> {
    pub instance: &'a Instance,
    pub plate: u32,
    /// The row.
    pub row: usize,
    /// What is to go from it, in mm.
    pub far: u64,
    /// A right side, with what is to go behind it, is no more than this, in mm.
    pub most: u64,
    ghost few: { plate ≤ MOST_PLATES },
}
