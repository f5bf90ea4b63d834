//! Decided steps.

ghost use Rattle.std.specs.Prelude.{◌≡◌};

use glass_base::Item;
use plan_trace::level::Level;

/// A decided step with what is known of it: what its discrete numbers and those of the steps before it determine, and the least value and
/// the high end of each cut. Lengths are in mm, areas in mm².
#[derive(Clone, Copy)]
pub struct Decided {
    pub level: Level,
    pub stack: u32,
    pub turn: u32,
    pub kind: u32,
    pub lift: u32,
    /// The item that it draws, if its stack has one left.
    pub item: Option<Item>,
    /// The plates begun so far.
    pub plates: u32,
    /// The sides of the item as it lies, 0 where there is none.
    pub w: u32,
    pub h: u32,
    /// The width of the cell, and the heights of its items so far with a waste for each that is lifted.
    pub cell_w: u32,
    pub cell_h: u32,
    /// The widths of the band's cells so far, and the greatest such sum among the strip's bands.
    pub band_w: u32,
    pub strip_w: u32,
    /// The areas of the band's items so far, and of the items of all steps so far.
    pub band_area: u64,
    pub area: u64,
    /// The least value and the high end of each cut.
    pub least_a: u32,
    pub high_a: u32,
    pub least_b: u32,
    pub high_b: u32,
    pub least_c: u32,
    pub high_c: u32,
    pub least_d: u32,
    pub high_d: u32,
    pub least_e: u32,
    pub high_e: u32,
}

impl Decided {
    ghost use Rattle.std.specs.Prelude.{◌≡◌, ◌-◌};
    ghost use Rattle.cert_check.specs.inner.Knowns.{nothing};

    /// What stands before the first step.
    pub fn none() -> Decided
        ensures { result ≡ nothing }
    {
        Decided {
            level: Level::NewPlate,
            stack: 0,
            turn: 0,
            kind: 0,
            lift: 0,
            item: None,
            plates: 0,
            w: 0,
            h: 0,
            cell_w: 0,
            cell_h: 0,
            band_w: 0,
            strip_w: 0,
            band_area: 0,
            area: 0,
            least_a: 0,
            high_a: 0,
            least_b: 0,
            high_b: 0,
            least_c: 0,
            high_c: 0,
            least_d: 0,
            high_d: 0,
            least_e: 0,
            high_e: 0,
        }
    }

    /// The number of the plate, 0 where none is begun.
    pub fn plate(&self) -> u32
        ensures { result ≡ self.now.plates - 1 }
    {
        self.plates.saturating_sub(1)
    }
}
