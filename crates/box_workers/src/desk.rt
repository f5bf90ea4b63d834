//! What all workers of a search share.

ghost use Rattle.std.specs.Prelude.{◌≤◌};
ghost use Rattle.glass_base.specs.declared.limits.TheConstants.{MOST_BUDGET, MOST_CERT_BYTES};

use defect_map::Ground;
use shared_best::SharedBest;
use std::alloc::Global;

/// What all workers of a search share, each with a hand and a seat of its own: the instance with its defects, the words that hold the
/// best loss and count the tickets, the number of boxes that the search began with, and the gate that each box passes.
#[derive(Drop)]
pub(crate) struct Desk<'a, G> {
    pub(crate) alloc: Global,
    pub(crate) ground: Ground<'a>,
    pub(crate) shared: &'a SharedBest,
    pub(crate) starts: u64,
    pub(crate) gate: &'a G,
    ghost limits: { (starts ≤ MOST_CERT_BYTES) × (shared.now.budget ≤ MOST_BUDGET) },
}
