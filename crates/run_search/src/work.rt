//! How much work a search may be.

ghost use Rattle.std.specs.Prelude.{◌≡◌, ◌*◌, ◌<◌, ◌≤◌, MatchResult};
ghost use Rattle.run_frame.specs.Answers.{bad_input as bad_input_of};
ghost use Rattle.run_frame.specs.Forms.{OnTold};
ghost use Rattle.run_search.specs.declared.work.TheConstants.{MOST_WORK};

use glass_base::Role;
use run_frame::{Stop, numbered, stop_at};
use std::alloc::Global;

/// The most that the number of items times that of boxes may be. Below it a run keeps to some 7 GB.
pub(crate) const MOST_WORK: u64 = 160_000_000;

/// Goes on where so many items times so many boxes are no more than 160,000,000; else that is told, as the refusal of this
/// file with this number.
pub(crate) fn within_work(
    alloc: Global,
    items: u64,
    boxes: u64,
    role: Role,
    number: u32,
) -> Result<(), Stop>
    ensures { MatchResult result (λ _. items * boxes ≤ MOST_WORK)
        (OnTold (λ answer. (MOST_WORK < items * boxes)
        × (answer ≡ bad_input_of role number items boxes))) }
{
    if items.saturating_mul(boxes) > MOST_WORK {
        return Err(stop_at(alloc, numbered(role, number, items, boxes)));
    }
    Ok(())
}
