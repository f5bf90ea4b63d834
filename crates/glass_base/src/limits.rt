//! The limits of what is read and of what is planned. Lengths are in mm.

/// The greatest side of a plate, an item or a piece, and the greatest place of a corner on its plate.
pub const MOST_SIDE: u32 = 20_000;

/// The greatest place of a defect's right and upper side: a corner and a side together.
pub const MOST_REACH: u32 = 40_000;

/// The greatest number of an item, a stack, a place in a stack, a defect, a plate or a node in a file, and the greatest
/// value in a file of parameters.
pub const MOST_NUMBER: u32 = 999_999_999;

/// The most plates.
pub const MOST_PLATES: u32 = 1000;

/// The most items of an instance, and so of its stacks and of a plan's steps.
pub const MOST_ITEMS: usize = 800;

/// The most defects of an instance.
pub const MOST_DEFECTS: usize = 20_000;

/// The greatest length over all plates, each of the greatest reach.
pub const MOST_LENGTH: u64 = 40_000_000;

/// The most rows of a plan.
pub const MOST_ROWS: u64 = 2_000_000_000;

/// The most boxes that a search may close or split.
pub const MOST_BUDGET: u32 = 10_000_000;

/// The most bytes of a certificate's text. Each box that it leaves open takes one at least, so there are no more of them.
pub const MOST_CERT_BYTES: u64 = 160_000_000;
