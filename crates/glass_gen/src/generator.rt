//! The items and defects that are drawn, and the instance of them.

ghost use Rattle.std.specs.Prelude.{◌≡◌, ◌+◌, ◌++◌, ◌*◌, ◌/◌, ◌≤◌, IfOk, OnOk};
ghost use Rattle.glass_base.specs.declared.instance.BadInstance.TheVariants.{Memory as OutOfMemory};
ghost use Rattle.glass_gen.specs.Drawn.{defect_from, defects_drawn, item_from, items_drawn, IsDrawn};
ghost use Rattle.glass_gen.specs.Draws.{state_after};

use crate::draws::draw;
use glass_base::limits::{MOST_DEFECTS, MOST_ITEMS};
use glass_base::{BadInstance, Defect, Instance, Item, Memory, Params, Run, append};
use std::alloc::Global;

/// Draws the item of this number, in one of so many stacks.
#[tactic(auto, unfolding(crate::specs::Drawn::item_from, crate::specs::Draws::drawn, crate::specs::Draws::state_after))]
fn draw_item(state: &mut u32, stacks: u32, number: u32) -> Item
    requires { 1 ≤ stacks }
    ensures state { state.new ≡ state_after state.old 3 }
    ensures item { result ≡ item_from state.old stacks number }
{
    let length = 200 + draw(state, 1300);
    let width = 150 + draw(state, 850);
    let stack = draw(state, stacks);
    Item {
        id: number,
        length,
        width,
        stack,
        sequence: number,
    }
}

/// Draws a defect.
#[tactic(auto, unfolding(crate::specs::Drawn::defect_from, crate::specs::Draws::drawn, crate::specs::Draws::state_after))]
fn draw_defect(state: &mut u32) -> Defect
    ensures state { state.new ≡ state_after state.old 5 }
    ensures defect { result ≡ defect_from state.old }
{
    let plate = draw(state, 10);
    let x0 = draw(state, 5900);
    let y0 = draw(state, 3100);
    let x1 = x0 + 5 + draw(state, 20);
    let y1 = y0 + 5 + draw(state, 20);
    Defect {
        plate,
        x0,
        y0,
        x1,
        y1,
    }
}

/// Draws the items.
fn draw_items(alloc: Global, state: &mut u32, count: u32) -> Result<Run<Item>, Memory>
    requires { count ≤ MOST_ITEMS }
    ensures state { OnOk result (state.new ≡ state_after state.old (3 * count)) }
    ensures items { IfOk result (λ items. items.items
        ≡ items_drawn state.old (1 + count / 20) count) }
{
    let stacks = 1 + count / 20;
    let mut items = Run::new(alloc);
    for number in 0..count {
        append(&mut items, draw_item(state, stacks, number))?;
    }
    Ok(items)
}

/// Draws the defects.
fn draw_defects(alloc: Global, state: &mut u32, count: u32) -> Result<Run<Defect>, Memory>
    requires { count ≤ MOST_DEFECTS }
    ensures { IfOk result (λ defects. defects.items ≡ defects_drawn state.old count) }
{
    let mut defects = Run::new(alloc);
    for _number in 0..count {
        append(&mut defects, draw_defect(state))?;
    }
    Ok(defects)
}

/// Want of memory, where nothing else refuses an instance.
fn only_memory(bad: BadInstance) -> Memory
    requires { bad ≡ OutOfMemory }
{
    match bad {
        BadInstance::Memory => Memory,
        _ => unreachable!(),
    }
}

/// The instance of so many items and defects that a start gives, on plates of the usual parameters.
///
/// Items are numbered from 0, each with its number as its sequence, so the instance is never refused. It fails only where
/// memory runs out.
pub fn generate(alloc: Global, start: u32, items: u32, defects: u32) -> Result<Instance, Memory>
    requires some { 1 ≤ items }
    requires few_items { items ≤ MOST_ITEMS }
    requires few_defects { defects ≤ MOST_DEFECTS }
    ensures { IfOk result (λ instance. IsDrawn instance start items defects) }
{
    let mut state = start;
    let drawn_items = draw_items(alloc, &mut state, items)?;
    let drawn_defects = draw_defects(alloc, &mut state, defects)?;
    match Instance::new(alloc, Params::usual(), drawn_items, drawn_defects) {
        Ok(instance) => Ok(instance),
        Err(bad) => Err(only_memory(bad)),
    }
}
