//! Which stacks can be joined: a guess, which is tested when the joined instance is made.

ghost use Rattle.std.specs.Prelude.{◌<◌, ◌≤◌, length};

use glass_base::{Instance, Item, Memory, Run, append};
use std::alloc::Global;

fn has_sides_of(one: &Item, other: &Item) -> bool {
    one.length == other.length && one.width == other.width
}

/// The first item of a stack, where all others have its sides.
pub fn like_all(instance: &Instance, stack: u32) -> Option<Item>
    requires { stack < length instance.now.stacks }
{
    let first = instance.item_of(stack, 0)?;
    for place in 0..instance.stack(stack).len() {
        let item = instance.item_of(stack, place)?;
        if !has_sides_of(&item, &first) {
            return None;
        }
    }
    Some(first)
}

/// The first stack whose items have the sides of all items of this one; itself where there is none before it.
pub fn first_like(instance: &Instance, stack: u32) -> u32
    requires { stack < length instance.now.stacks }
    ensures { result ≤ stack }
{
    let Some(own) = like_all(instance, stack) else {
        return stack;
    };
    for before in 0..stack {
        if let Some(item) = like_all(instance, before) {
            if has_sides_of(&item, &own) {
                return before;
            }
        }
    }
    stack
}

/// For each stack the number of the stack that its items come into.
pub fn homes_of(alloc: Global, instance: &Instance) -> Result<Run<u32>, Memory> {
    let mut homes = Run::new(alloc);
    let mut next = 0;
    for stack in 0..instance.stacks() {
        let first = first_like(instance, stack);
        let found = homes.get(first as usize).copied();
        append(&mut homes, found.unwrap_or(next))?;
        if found.is_none() {
            next += 1;
        }
    }
    Ok(homes)
}
