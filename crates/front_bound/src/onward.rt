//! How a label goes on.

ghost use Rattle.std.specs.Prelude.{◌<◌, length};
ghost use Rattle.front_bound.specs.inner.Placed.{IsSlack, IsSlack-prop};

use crate::stretch::Stretch;
use front_table::labels::FrontLabel;

/// A label that leads to a row, and goes on from there by bands. That it is one of the rows, and that no band leaves more than the slack, goes with it.
#[derive(Clone, Copy)]
pub struct Onward<'a> {
    pub stretch: &'a Stretch<'a>,
    /// The row.
    pub row: usize,
    pub label: &'a FrontLabel,
    /// A band leaves no more than this beside and over its cells, in mm².
    pub slack: u64,
    ghost inside: { row < length stretch.now.fronts.rows.now },
    ghost lean: { IsSlack stretch.now row label.now slack } by { IsSlack-prop stretch.now row label.now slack },
}
