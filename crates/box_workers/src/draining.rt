//! The boxes that are left in the deques of a ring.
ghost use Rattle.std.specs.Prelude.{◌≡◌, All, IfOk};
ghost use Rattle.plan_box.specs.declared.frame.Frame.{Frame as PlainFrame};
ghost use Rattle.plan_box.specs.Ranges.{PlainBox};
ghost use Rattle.box_ring.specs.Gathers.{IsLeft, AllFramed};

use box_ring::Gathered;
use glass_base::{Memory, Run, append};
use plan_box::PlanBox;
use std::alloc::Global;

/// All boxes that are left.
pub(crate) fn drain_all(alloc: Global, gathered: Gathered) -> Result<Run<PlanBox>, Memory>
    ensures left { IfOk result (λ boxes. IsLeft gathered boxes.items) }
    ensures frames { IfOk result (λ boxes. (f : PlainFrame) → AllFramed f gathered
        → All (λ (x : PlainBox). x.frame ≡ f) boxes.items) }
{
    let mut gathered = gathered;
    let mut boxes = Run::new(alloc);
    while let Some(bx) = gathered.drain_one() {
        append(&mut boxes, bx)?;
    }
    Ok(boxes)
}
