//! From where strips set out.

ghost use Rattle.std.specs.Prelude.{◌≡◌, ◌<◌, length};
ghost use Rattle.front_table.specs.Ready.{AreFronts};

use front_table::fronts::Fronts;

/// A row from which strips set out. That it is one of the fronts, and that all is known of these, goes with it.
#[derive(Clone, Copy)]
pub struct Outset<'a> {
    pub fronts: Fronts<'a>,
    /// The row.
    pub row: usize,
    /// A right side, with what is to go behind it, is no more than this, in mm.
    pub most: u64,
    ghost inside: { row < length fronts.rows.now },
    ghost even: { length fronts.levels.now ≡ length fronts.rows.now },
    ghost built: { ∥ AreFronts fronts ∥₁ },
}
