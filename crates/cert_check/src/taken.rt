//! How many items of each stack are drawn.

ghost use Rattle.std.specs.Prelude.{◌≡◌, ◌+◌, ◌<◌, ◌≤◌, All, [], length, slice_index_or, slice_set};
ghost use Rattle.plan_box.specs.Packed.{unpacked};
ghost use Rattle.plan_box.specs.Within.{AreRangesWithin};
ghost use Rattle.cert_check.specs.inner.Taken.{HaveDrawn};

use glass_base::Run;
use glass_base::limits::MOST_ITEMS;
use plan_box::{Packed, Var};

/// Makes the counts of the stacks 0 that these steps draw from.
pub fn clear(taken: &mut Run<u32>, ranges: &[Packed])
    requires many { length taken.old.items ≡ MOST_ITEMS }
    requires within { All (λ x. AreRangesWithin (unpacked x)) ranges.now }
    ensures { HaveDrawn ranges.now [] taken.new.items }
{
    for here in ranges {
        taken.set(here.range(Var::Stack).0 as usize, 0);
    }
}

/// The count of the stack that a step draws from, before it; the step is then counted.
pub fn draw(taken: &mut Run<u32>, step: &Packed) -> u32
    requires inside { (unpacked step.now).stack.low < length taken.old.items }
    requires few { slice_index_or taken.old.items (unpacked step.now).stack.low 0 ≤ MOST_ITEMS }
    ensures count { result ≡ slice_index_or taken.old.items (unpacked step.now).stack.low 0 }
    ensures counts { taken.new.items ≡ slice_set taken.old.items
        (unpacked step.now).stack.low (result + 1) }
{
    let stack = step.range(Var::Stack).0 as usize;
    let count = taken.as_slice()[stack];
    taken.set(stack, count + 1);
    count
}
