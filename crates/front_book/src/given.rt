//! Instances that a line gives.

ghost use Rattle.std.specs.Prelude.{◌≡◌, ◌≤◌, ◌<◌, length, All, IfOk};
ghost use Rattle.glass_base.specs.Items.{IsItemInRange, IsDefectInRange};

use crate::numbers::numbers_of;
use anyhow::{bail, ensure};
use glass_base::{Defect, Instance, Item, Params, Run, append};
use std::alloc::Global;

/// The parameters of these numbers, in the order of `Params`.
fn params_of(numbers: &[u32]) -> anyhow::Result<Params> {
    match numbers {
        [plates, width, height, min1, max1, min2, waste] => Ok(Params::check(
            *plates, *width, *height, *min1, *max1, *min2, *waste,
        )?),
        _ => bail!("there are seven parameters"),
    }
}

/// The item of this number, its sides and its stack.
fn item_of(number: usize, length: u32, width: u32, stack: u32) -> anyhow::Result<Item>
    ensures { IfOk result (λ item. IsItemInRange item) }
{
    ensure!(
        length <= 20_000 && width <= 20_000 && stack <= 800 && number <= 800,
        "an item is too large, or there are too many"
    );
    Ok(Item {
        id: number as u32,
        length,
        width,
        stack,
        sequence: number as u32,
    })
}

/// Adds the items of these numbers, three for each.
fn items_of(alloc: Global, numbers: &[u32]) -> anyhow::Result<Run<Item>>
    ensures { IfOk result (λ items. All IsItemInRange items.items) }
{
    let mut items = Run::new(alloc);
    for number in 0..numbers.len() / 3 {
        let at = 3 * number;
        let item = item_of(number, numbers[at], numbers[at + 1], numbers[at + 2])?;
        append(&mut items, item)?;
    }
    Ok(items)
}

/// The defect on this plate with this lower left corner and these sides.
fn defect_of(plate: u32, x: u32, y: u32, width: u32, height: u32) -> anyhow::Result<Defect>
    ensures { IfOk result (λ defect. IsDefectInRange defect) }
{
    ensure!(
        x <= 20_000
            && y <= 20_000
            && 1 <= width
            && width <= 20_000
            && 1 <= height
            && height <= 20_000,
        "a defect is too large, or has no sides"
    );
    Ok(Defect {
        plate,
        x0: x,
        y0: y,
        x1: x + width,
        y1: y + height,
    })
}

/// The defects of these numbers, five for each.
fn defects_of(alloc: Global, numbers: &[u32]) -> anyhow::Result<Run<Defect>>
    ensures { IfOk result (λ defects. All IsDefectInRange defects.items) }
{
    let mut defects = Run::new(alloc);
    for number in 0..numbers.len() / 5 {
        let at = 5 * number;
        let defect = defect_of(
            numbers[at],
            numbers[at + 1],
            numbers[at + 2],
            numbers[at + 3],
            numbers[at + 4],
        )?;
        append(&mut defects, defect)?;
    }
    Ok(defects)
}

/// The instance that a line gives: its parameters, items and defects, with ` / ` between them.
pub fn given(alloc: Global, line: &str) -> anyhow::Result<Instance> {
    let Some((params, lists)) = line.split_once(" / ") else {
        bail!("a line that gives an instance has parameters and items");
    };
    let (items, defects) = lists.split_once(" / ").unwrap_or((lists, ""));
    let params = params_of(numbers_of(alloc, params)?.as_slice())?;
    let items = items_of(alloc, numbers_of(alloc, items)?.as_slice())?;
    let defects = defects_of(alloc, numbers_of(alloc, defects)?.as_slice())?;
    Ok(Instance::new(alloc, params, items, defects)?)
}
