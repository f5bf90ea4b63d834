//! What is counted of a plan before it is drawn.

ghost use Rattle.std.specs.Prelude.{◌≡◌, ◌+◌, ◌^◌, ◌<◌, ◌≤◌, length, map};
ghost use Rattle.cut_model.specs.Families.{rows_of};
ghost use Rattle.cut_model.specs.Fits.{Fits};
ghost use Rattle.cut_model.specs.Order.{cut_order};
ghost use Rattle.cut_model.specs.Tree.{tree};
ghost use Rattle.plan_picture.specs.inner.Surveys.{HasCounted, items_of};
ghost use Rattle.glass_base.specs.declared.limits.TheConstants.{MOST_SIDE};

use cut_model::{Family, Plan, Row, Sort, Visitor, walk};
use glass_base::Instance;
use std::convert::Infallible;

/// How many items a plan cuts, and how wide its widest plate is, in mm. Without a plate it is as wide as the parameters say.
#[derive(Drop)]
pub(crate) struct Survey {
    pub items: u64,
    pub widest: u32,
    ghost narrow: { widest ≤ MOST_SIDE },
}

/// One more than this number, where the piece is an item. It stops at the greatest number.
fn one_more(items: u64, sort: Sort) -> u64
    ensures { items + items_of sort < 2 ^ 64 → result ≡ items + items_of sort }
{
    match sort {
        Sort::Item(_) => items.saturating_add(1),
        Sort::Waste | Sort::Branch | Sort::Residual => items,
    }
}

/// The greater width, where the row is a plate.
fn wider(widest: u32, row: &Row) -> u32
    requires widest { widest ≤ MOST_SIDE }
    requires width { row.now.width ≤ MOST_SIDE }
    ensures { result ≤ MOST_SIDE }
{
    if row.cut == 0 {
        widest.max(row.width)
    } else {
        widest
    }
}

impl Visitor for Survey {
    type Stop = Infallible;

    // The items are counted up to the greatest number, and of the widest plate nothing is promised.
    ghost has_seen = { λ start now seen. HasCounted start.items now.items (map (λ f. f.row) seen) };

    fn visit(&mut self, family: &Family) -> Result<(), Infallible> {
        self.items = one_more(self.items, family.sort);
        self.widest = wider(self.widest, &family.row);
        Ok(())
    }
}

/// The survey of a plan. It takes no memory.
pub(crate) fn survey_of(instance: &Instance, plan: &Plan) -> Survey
    requires { Fits (tree plan.now) }
    ensures { result.items ≡ length (cut_order (rows_of instance.now (tree plan.now))) }
{
    let widest = if plan.plates.is_empty() {
        instance.params().width
    } else {
        0
    };
    let mut found = Survey { items: 0, widest };
    match walk(&mut found, instance, plan) {
        Ok(()) => found,
        Err(never) => match never {},
    }
}
