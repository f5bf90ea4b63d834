//! A row of which it is asked what is to go from it.

ghost use Rattle.front_table.specs.Ready.{Opened};

use crate::fronts::Fronts;
use crate::levels::RowFacts;

/// A row of which it is asked what is to go from it, while the table is made: it leads to the fronts of which something
/// is known alone. That all is known of these, and of the row what leads on from it, goes with it.
#[derive(Clone, Copy)]
pub struct Behind<'a> {
    pub fronts: Fronts<'a>,
    /// The row, from which the strips are.
    pub start: usize,
    /// What is known of it.
    pub facts: &'a RowFacts,
    ghost opened: { ∥ Opened fronts.instance.now fronts.rows.now fronts.tops.now fronts.cover
        fronts.levels.now start facts.now ∥₁ },
}
