//! What a plan is looked for in.

ghost use Rattle.std.specs.Prelude.{◌≡◌, length};
ghost use Rattle.front_table.specs.Ready.{AreFronts};

use defect_map::Ground;
use front_table::fronts::Fronts;
use std::alloc::Global;

/// What a plan is looked for in: all fronts, and the ground that its pieces lie on. That all is known of the fronts goes with the two.
#[derive(Clone, Copy)]
pub struct PlanSearch<'a> {
    pub alloc: Global,
    pub ground: Ground<'a>,
    pub fronts: Fronts<'a>,
    ghost even: { length fronts.levels.now ≡ length fronts.rows.now },
    ghost built: { ∥ AreFronts fronts ∥₁ },
}
