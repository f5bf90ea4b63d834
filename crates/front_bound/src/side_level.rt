//! A level of rows, from which strips set out at once.

ghost use Rattle.std.specs.Prelude.{◌≡◌, ◌<◌, ◌≤◌, length};
ghost use Rattle.front_table.specs.Ready.{AreFronts};

use front_table::fronts::Fronts;
use front_table::pools::LabelPool;
use front_table::rows::{FrontRow, links_of};

/// The rows of a level, from which strips set out at once: behind what is held at them before, since none leads from one
/// of them to another. Each of the lanes works off every so-manyth of them. That all is known of the fronts goes with it.
#[derive(Clone, Copy)]
pub struct SideLevel<'a> {
    pub fronts: Fronts<'a>,
    /// The right sides that were found before.
    pub sides: &'a LabelPool,
    /// The first row, and the one behind the last.
    pub first: usize,
    pub end: usize,
    pub lanes: usize,
    /// A right side, with what is to go behind it, is no more than this, in mm.
    pub most: u64,
    /// So many labels may be looked at.
    pub labels: u64,
    ghost some: { 1 ≤ lanes },
    ghost inside: { end ≤ length fronts.rows.now },
    ghost even: { length fronts.levels.now ≡ length fronts.rows.now },
    ghost whole: { length sides.now ≡ length fronts.rows.now },
    ghost built: { ∥ AreFronts fronts ∥₁ },
}

/// The greater of a row and of those at which one item more is taken than at another.
fn highest_link(rows: &[FrontRow], row: usize, highest: usize) -> usize
    requires { row < length rows.now }
{
    let mut highest = highest;
    for to in links_of(rows, row) {
        highest = highest.max(*to as usize);
    }
    highest
}

/// The first row of the level that ends before a row: a guess, by the rows at which one item more is taken. Where it
/// were wrong, it shows when right sides are joined.
pub fn level_start(rows: &[FrontRow], end: usize) -> usize
    requires some { 1 < end }
    requires inside { end ≤ length rows.now }
    ensures some { 1 ≤ result }
    ensures down { result < end }
{
    let mut first = end - 1;
    let mut highest = 0;
    for done in 1..end {
        let row = end - done;
        highest = highest_link(rows, row, highest);
        if highest >= row {
            return first;
        }
        first = row;
    }
    first
}
