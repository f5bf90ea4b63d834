//! Plates that are cut already, and a plan behind them.

ghost use Rattle.std.specs.Prelude.{◌≡◌, ◌≤◌, IfOk};
ghost use Rattle.cut_model.specs.Tree.{neighbour_count, tree};
ghost use Rattle.plan_freeze.specs.Frozen.{first_plates, joined};

use crate::copying::add_plates;
use cut_model::Plan;
use glass_base::{Memory, Run};
use std::alloc::Global;

/// The first `k` plates of a plan, and then the plates of another one. It fails only where memory runs out.
pub fn glue(alloc: Global, plan: &Plan, k: u32, tail: &Plan) -> Result<Plan, Memory>
    requires { k ≤ neighbour_count (tree plan.now) }
    ensures { IfOk result (λ whole. tree whole
        ≡ joined (first_plates k (tree plan.now)) (tree tail.now)) }
{
    let mut plates = Run::new(alloc);
    let first = &plan.plates.as_slice()[..k as usize];
    add_plates(alloc, &mut plates, first)?;
    add_plates(alloc, &mut plates, tail.plates.as_slice())?;
    Ok(Plan { plates })
}
