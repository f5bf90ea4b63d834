//! What is to be planned: an instance, or what is left of it behind the first plates of a plan.

ghost use Rattle.std.specs.Prelude.{◌≡◌, ◌<◌, length};

use cut_model::Step;
use glass_base::{Instance, Item, Memory};
use std::alloc::Global;

/// What is to be planned: the plates behind the first ones, and the items that are not on these.
#[derive(Drop)]
pub struct Remainder {
    /// How many plates stay as they are.
    pub plates: u32,
    /// How many items of each stack are on them.
    places: Vec<usize>,
    /// How many items are left, in how many stacks, and what they are together in mm².
    pub items: usize,
    stacks: u32,
    pub area: u64,
    /// The least side of one of them, in mm.
    pub small: u32,
}

/// How many items of each stack these steps cut.
fn places_behind(alloc: Global, stacks: u32, steps: &[Step]) -> Result<Vec<usize>, Memory> {
    let mut places = Vec::new(alloc);
    places.resize(stacks as usize, 0usize)?;
    for step in steps {
        if let Some(place) = places.get_mut(step.stack as usize) {
            *place = place.saturating_add(1);
        }
    }
    Ok(places)
}

impl Remainder {
    /// What is left behind the first plates of a plan, where these are its steps on them.
    pub fn behind(
        alloc: Global,
        instance: &Instance,
        plates: u32,
        steps: &[Step],
    ) -> Result<Remainder, Memory> {
        let mut rest = Remainder {
            plates,
            places: places_behind(alloc, instance.stacks(), steps)?,
            items: 0,
            stacks: 0,
            area: 0,
            small: u32::MAX,
        };
        let items = instance.items();
        for stack in 0..instance.stacks() {
            let left = rest.left(instance, stack);
            for position in left {
                if let Some(item) = items.get(*position as usize) {
                    rest.add(item);
                }
            }
            rest.stacks = rest.stacks.saturating_add(u32::from(!left.is_empty()));
        }
        Ok(rest)
    }

    /// The mean area of a stack of which something is left, in mm².
    pub fn mean_stack(&self) -> u64 {
        self.area.checked_div(u64::from(self.stacks)).unwrap_or(0)
    }

    fn add(&mut self, item: &Item) {
        let area = u64::from(item.length).wrapping_mul(u64::from(item.width));
        self.items = self.items.saturating_add(1);
        self.area = self.area.saturating_add(area);
        self.small = self.small.min(item.length).min(item.width);
    }

    /// The positions in the batch of the items of a stack that are left, in the order in which they are cut.
    pub fn left<'i>(&self, instance: &'i Instance, stack: u32) -> &'i [u32]
        requires { stack < length instance.now.stacks }
    {
        let place = self.places.get(stack as usize).copied().unwrap_or(0);
        instance.stack(stack).get(place..).unwrap_or(&[])
    }
}
