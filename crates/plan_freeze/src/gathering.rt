//! The items on a plan's first plates.

ghost use Rattle.std.specs.Prelude.{◌≡◌, ◌++◌, map, IfOk};
ghost use Rattle.cut_model.specs.Fits.{Fits};
ghost use Rattle.cut_model.specs.Tree.{tree};
ghost use Rattle.plan_freeze.specs.Rests.{numbers_before, numbers_frozen};

use cut_model::{Family, Plan, Sort, Visitor, walk};
use glass_base::{Instance, Memory, Run, append};
use std::alloc::Global;

/// The numbers of the items told so far, as far as they lie on the first plates.
#[derive(Drop)]
struct NumbersTold {
    plates: u32,
    numbers: Run<u32>,
}

impl Visitor for NumbersTold {
    type Stop = Memory;

    ghost has_seen = { λ start now seen.
        (now.plates ≡ start.plates) × (now.numbers.items ≡ start.numbers.items ++ numbers_before start.plates (map (λ f. f.row) seen)) };

    fn visit(&mut self, family: &Family) -> Result<(), Memory> {
        if family.row.plate < self.plates {
            if let Sort::Item(number) = family.sort {
                append(&mut self.numbers, number)?;
            }
        }
        Ok(())
    }
}

/// The numbers of the items on the first `k` plates, in the order in which they are cut.
pub(crate) fn frozen_numbers(
    alloc: Global,
    instance: &Instance,
    plan: &Plan,
    k: u32,
) -> Result<Run<u32>, Memory>
    requires { Fits (tree plan.now) }
    ensures { IfOk result (λ numbers. numbers.items
        ≡ numbers_frozen instance.now (tree plan.now) k) }
{
    let mut gathering = NumbersTold {
        plates: k,
        numbers: Run::new(alloc),
    };
    walk(&mut gathering, instance, plan)?;
    Ok(gathering.numbers)
}
