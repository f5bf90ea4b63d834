//! The fronts of an instance.

ghost use Rattle.std.specs.Prelude.{◌*◌, ◌≤◌};
ghost use Rattle.front_table.specs.Lattice.{IsLattice};

use crate::levels::RowFacts;
use crate::rows::FrontRow;
use glass_base::Instance;

/// The fronts of an instance, a row for each, the classes of widths of its strips, and what is known of the first rows: of none before a table is made, of
/// all behind that. That the rows are a lattice, and how much glass a strip has at the most, goes with them.
#[derive(Clone, Copy)]
pub struct Fronts<'a> {
    pub instance: &'a Instance,
    /// The fronts, from the one at which nothing is left.
    pub rows: &'a [FrontRow],
    /// For each class of strips the widest, in mm.
    pub tops: &'a [u32],
    /// What is known of the first rows.
    pub levels: &'a [RowFacts],
    /// No strip has more glass than this, in mm².
    pub cover: u64,
    ghost lattice: { ∥ IsLattice instance.now rows.now ∥₁ },
    ghost covered: { instance.now.params.max1 * instance.now.params.height ≤ cover },
}
