//! What is left to be planned behind plates that are cut already.

ghost use Rattle.std.specs.Prelude.{◌≡◌, ◌-◌, ◌<◌, ◌≤◌, IfOk};
ghost use Rattle.glass_base.specs.declared.instance.BadInstance.TheVariants.{Memory as OutOfMemory};
ghost use Rattle.glass_base.specs.BadParams.{HasSizes};
ghost use Rattle.cut_model.specs.Fits.{Fits};
ghost use Rattle.cut_model.specs.Lawful.{IsLawful};
ghost use Rattle.cut_model.specs.Tree.{neighbour_count, tree};
ghost use Rattle.plan_freeze.specs.Frozen.{later_plates};
ghost use Rattle.plan_freeze.specs.Rests.{IsRest, defects_from as defects_from_of, is_among as is_among_of, items_besides as items_besides_of, numbers_frozen};
ghost use Rattle.plan_freeze.specs.inner.Widths.{AreWidthsFrom};

use crate::copying::add_plates;
use crate::gathering::frozen_numbers;
use cut_model::Plan;
use glass_base::{BadInstance, Defect, Instance, Item, Memory, Params, Run, append};
use std::alloc::Global;

/// Whether the item has one of these numbers.
fn is_among(numbers: &[u32], item: &Item) -> bool
    ensures { result ≡ is_among_of numbers.now item.now }
{
    numbers.iter().any(|number| *number == item.id)
}

/// The items that have none of these numbers.
fn items_besides(alloc: Global, numbers: &[u32], items: &[Item]) -> Result<Run<Item>, Memory>
    ensures { IfOk result (λ left. left.items ≡ items_besides_of numbers.now items.now) }
{
    let mut left = Run::new(alloc);
    for item in items {
        if !is_among(numbers, item) {
            append(&mut left, *item)?;
        }
    }
    Ok(left)
}

/// The defects of the plates from `k` on, as those of plates that are counted from there.
fn defects_from(alloc: Global, k: u32, defects: &[Defect]) -> Result<Run<Defect>, Memory>
    ensures { IfOk result (λ left. left.items ≡ defects_from_of k defects.now) }
{
    let mut left = Run::new(alloc);
    for defect in defects {
        if defect.plate >= k {
            let moved = Defect {
                plate: defect.plate - k,
                ..*defect
            };
            append(&mut left, moved)?;
        }
    }
    Ok(left)
}

/// The widths of the plates from `k` on.
fn widths_from(alloc: Global, instance: &Instance, k: u32) -> Result<Run<u32>, Memory>
    requires { k ≤ instance.now.params.plates }
    ensures { IfOk result (λ widths. AreWidthsFrom instance.now k widths.items) }
{
    let mut widths = Run::new(alloc);
    for plate in k..instance.params().plates {
        append(&mut widths, instance.width(plate))?;
    }
    Ok(widths)
}

/// The parameters with so many plates less.
fn params_from(params: &Params, k: u32) -> Params
    requires { k < params.now.plates }
    ensures { let p = params.now in HasSizes result
        (p.plates - k) p.width p.height p.min1 p.max1 p.min2 p.waste }
{
    Params {
        plates: params.plates - k,
        width: params.width,
        height: params.height,
        min1: params.min1,
        max1: params.max1,
        min2: params.min2,
        waste: params.waste,
    }
}

/// Want of memory, where that is the reason: what is left of an instance makes an instance.
fn only_memory(reason: BadInstance) -> Memory
    requires { reason ≡ OutOfMemory }
{
    match reason {
        BadInstance::Memory => Memory,
        _ => unreachable!(),
    }
}

/// The instance on the plates from `k` on, with the items that have none of these numbers.
fn rest_instance(
    alloc: Global,
    instance: &Instance,
    plan: &Plan,
    k: u32,
    numbers: &[u32],
) -> Result<Instance, Memory>
    requires lawful { IsLawful instance.now (tree plan.now) }
    requires fewer { k < neighbour_count (tree plan.now) }
    requires numbers { numbers.now ≡ numbers_frozen instance.now (tree plan.now) k }
    ensures { IfOk result (λ left. IsRest instance.now (tree plan.now) k left) }
{
    let items = items_besides(alloc, numbers, instance.items())?;
    let defects = defects_from(alloc, k, instance.defects())?;
    let widths = widths_from(alloc, instance, k)?;
    let params = params_from(instance.params(), k);
    match Instance::on_plates(alloc, params, items, defects, widths) {
        Ok(left) => Ok(left),
        Err(reason) => Err(only_memory(reason)),
    }
}

/// The plan of the plates from `k` on.
fn later_plan(alloc: Global, plan: &Plan, k: u32) -> Result<Plan, Memory>
    requires { k ≤ neighbour_count (tree plan.now) }
    ensures { IfOk result (λ tail. tree tail ≡ later_plates k (tree plan.now)) }
{
    let (_, later) = plan.plates.as_slice().split_at(k as usize);
    let mut plates = Run::new(alloc);
    add_plates(alloc, &mut plates, later)?;
    Ok(Plan { plates })
}

/// What is left to be planned where the first `k` plates of a plan are cut already: the instance with the other items, on the other plates with
/// their defects, which are counted from 0 again, and the plan of these plates, which is a lawful one. It fails only where memory runs out.
pub fn rest(
    alloc: Global,
    instance: &Instance,
    plan: &Plan,
    k: u32,
) -> Result<(Instance, Plan), Memory>
    requires fits { Fits (tree plan.now) }
    requires lawful { IsLawful instance.now (tree plan.now) }
    requires fewer { k < neighbour_count (tree plan.now) }
    ensures instance { IfOk result (λ r. IsRest instance.now (tree plan.now) k r.0) }
    ensures plan { IfOk result (λ r. tree r.1 ≡ later_plates k (tree plan.now)) }
    ensures lawful { IfOk result (λ r. IsLawful r.0 (tree r.1)) }
    ensures fits { IfOk result (λ r. Fits (tree r.1)) }
{
    // Read for its rules.
    let _items = instance.items();
    let numbers = frozen_numbers(alloc, instance, plan, k)?;
    let left = rest_instance(alloc, instance, plan, k, numbers.as_slice())?;
    let tail = later_plan(alloc, plan, k)?;
    Ok((left, tail))
}
