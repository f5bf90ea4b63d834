//! The instance in which stacks of equal items are joined.

ghost use Rattle.std.specs.Prelude.{◌≡◌, ◌<◌, ◌≤◌, All, IfOk, IfSome, OnOk, length};
ghost use Rattle.glass_base.specs.Items.{IsItemInRange};
ghost use Rattle.joined_stacks.specs.Bounds.{BoundsToo};
ghost use Rattle.joined_stacks.specs.inner.Homes.{SamePlates};

use crate::checking::are_homes;
use crate::grouping::{first_like, homes_of, like_all};
use glass_base::{BadInstance, Instance, Item, Memory, Run, append};
use std::alloc::Global;

/// An instance with the same items on the same plates, where stacks of equal items are one.
#[derive(Drop)]
pub struct Joined {
    pub instance: Instance,
    /// For each stack of the first instance the number of the stack that has its items.
    pub homes: Run<u32>,
}

/// An item as one of the stack of another. Where all items of its stack have its sides, their order is that of their numbers.
fn in_stack_of(item: &Item, other: &Item, are_equal: bool) -> Item
    requires item { IsItemInRange item.now }
    requires other { IsItemInRange other.now }
    ensures { IsItemInRange result }
{
    Item {
        id: item.id,
        length: item.length,
        width: item.width,
        stack: other.stack,
        sequence: if are_equal { item.id } else { item.sequence },
    }
}

/// Appends the items of a stack, as items of the first one that is like it.
fn append_stack(items: &mut Run<Item>, instance: &Instance, stack: u32) -> Result<(), Memory>
    requires stack { stack < length instance.now.stacks }
    requires range { All IsItemInRange items.old.items }
    ensures { OnOk result (All IsItemInRange items.new.items) }
{
    let Some(first) = instance.item_of(first_like(instance, stack), 0) else {
        return Ok(());
    };
    let are_equal = like_all(instance, stack).is_some();
    for place in 0..instance.stack(stack).len() {
        if let Some(item) = instance.item_of(stack, place) {
            append(items, in_stack_of(&item, &first, are_equal))?;
        }
    }
    Ok(())
}

/// The items, stack by stack, each as one of the first stack that is like its own.
fn items_joined(alloc: Global, instance: &Instance) -> Result<Run<Item>, Memory>
    ensures { IfOk result (λ items. All IsItemInRange items.items) }
{
    let mut items = Run::new(alloc);
    for stack in 0..instance.stacks() {
        append_stack(&mut items, instance, stack)?;
    }
    Ok(items)
}

/// The widths of all plates.
fn widths_of(alloc: Global, instance: &Instance) -> Result<Run<u32>, Memory>
    ensures { IfOk result (λ widths. widths.items ≡ instance.now.widths) }
{
    let mut widths = Run::new(alloc);
    for plate in 0..instance.params().plates {
        append(&mut widths, instance.width(plate))?;
    }
    Ok(widths)
}

/// The items in joined stacks, on the same plates with their defects, where they make an instance.
fn instance_joined(alloc: Global, instance: &Instance) -> Result<Option<Instance>, Memory>
    ensures { IfOk result (λ joined. IfSome joined (SamePlates instance.now)) }
{
    let items = items_joined(alloc, instance)?;
    let mut defects = Run::new(alloc);
    defects.extend_from_slice(instance.defects())?;
    let widths = widths_of(alloc, instance)?;
    match Instance::on_plates(alloc, *instance.params(), items, defects, widths) {
        Ok(joined) => Ok(Some(joined)),
        Err(BadInstance::Memory) => Err(Memory),
        Err(_) => Ok(None),
    }
}

/// The same items, plates and defects, where those stacks that hold items of one and the same size alone are one stack; none where no two stacks are. Only
/// want of memory is refused.
pub fn join_stacks(alloc: Global, instance: &Instance) -> Result<Option<Joined>, Memory>
    ensures bounds { IfOk result (λ joined. IfSome joined
        (λ j. BoundsToo instance.now j.instance)) }
    ensures fewer { IfOk result (λ joined. IfSome joined
        (λ j. length j.instance.stacks < length instance.now.stacks)) }
{
    let homes = homes_of(alloc, instance)?;
    let Some(other) = instance_joined(alloc, instance)? else {
        return Ok(None);
    };
    if other.stacks() >= instance.stacks() || !are_homes(instance, &other, homes.as_slice()) {
        return Ok(None);
    }
    Ok(Some(Joined {
        instance: other,
        homes,
    }))
}

/// The instance of joined stacks where there is one, and else the one at hand.
pub fn joined_or<'a>(joined: &'a Option<Joined>, instance: &'a Instance) -> &'a Instance
    requires { IfSome joined.now (λ j. BoundsToo instance.now j.instance) }
    ensures { BoundsToo instance.now result.now }
{
    match joined {
        Some(joined) => &joined.instance,
        None => instance,
    }
}
