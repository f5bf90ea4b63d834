//! The range of plans that Glass handles.

ghost use Rattle.std.specs.Prelude.{◌≡◌, ◌↔◌, IsTrue};
ghost use Rattle.cut_model.specs.Fits.{Fits};
ghost use Rattle.cut_model.specs.Tree.{neighbour_count, tree};

use crate::part::room_after;
use crate::plan::Plan;
use glass_base::limits::MOST_ROWS;

/// Whether every size, and the sum of every list of children, is at most 20,000 mm, every item number at most 999,999,999,
/// and the plan has at most 2,000,000,000 rows. It takes no memory.
#[tactic(auto, using(crate::proofs::Fitting::plates_fit, crate::proofs::Fitting::fits_plates))]
pub fn fits(plan: &Plan) -> bool
    ensures { IsTrue result ↔ Fits (tree plan.now) }
{
    room_after(MOST_ROWS, plan.plates.as_slice()).is_some()
}

/// How many plates a plan uses.
pub fn plates_used(plan: &Plan) -> u64
    ensures { result ≡ neighbour_count (tree plan.now) }
{
    plan.plates.len() as u64
}
