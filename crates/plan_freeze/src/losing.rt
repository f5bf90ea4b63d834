//! What the first plates of a plan lose.

ghost use Rattle.std.specs.Prelude.{◌≡◌, ◌<◌, ◌≤◌};
ghost use Rattle.cut_model.specs.Fits.{Fits};
ghost use Rattle.cut_model.specs.Lawful.{IsLawful};
ghost use Rattle.cut_model.specs.Tree.{neighbour_count, tree};
ghost use Rattle.plan_freeze.specs.Rests.{frozen_loss as frozen_loss_of};
ghost use Rattle.plan_freeze.specs.inner.Wasted.{IsWasted};

use cut_model::{Family, Plan, Visitor, walk};
use glass_base::Instance;
use loss_area::area_lost;
use std::convert::Infallible;

/// The area of the wastes told so far, as far as they lie on the first plates.
#[derive(Drop)]
struct FrozenWastes {
    plates: u32,
    area: u64,
}

impl Visitor for FrozenWastes {
    type Stop = Infallible;

    ghost has_seen = { λ start now seen. (now.plates ≡ start.plates) × IsWasted start.plates start.area now.area seen };

    fn visit(&mut self, family: &Family) -> Result<(), Infallible> {
        if family.row.plate < self.plates {
            self.area = self.area.saturating_add(area_lost(family));
        }
        Ok(())
    }
}

/// What the first `k` plates of a lawful plan lose, in mm²: all of their glass but their items, since the residual lies on the last plate.
/// It takes no memory.
pub fn frozen_loss(instance: &Instance, plan: &Plan, k: u32) -> u64
    requires fits { Fits (tree plan.now) }
    requires lawful { IsLawful instance.now (tree plan.now) }
    requires fewer { k < neighbour_count (tree plan.now) }
    ensures { result ≡ frozen_loss_of instance.now (tree plan.now) k }
{
    let mut wastes = FrozenWastes { plates: k, area: 0 };
    match walk(&mut wastes, instance, plan) {
        Ok(()) => wastes.area,
        Err(never) => match never {},
    }
}
