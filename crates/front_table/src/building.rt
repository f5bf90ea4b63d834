//! Makes the table of fronts. What it makes is looked at by `lattice` before it is used, so nothing is promised of it.
//!
//! Rows are in the order of how many items are left at them, so that those of as many can be worked on at once: links
//! lead only to rows with fewer.

use crate::halt::Halt;
use crate::labels::FrontLabel;
use crate::lattice::{due, heights, sides};
use crate::moves::Move;
use crate::rows::{FrontRow, area_left};
use crate::sets::SizeSet;
use glass_base::{Instance, Item, Params};
use std::alloc::Global;

/// Into so many classes the widths of strips are divided.
const CLASSES: u32 = 16;

/// A front, by what is left at it.
#[derive(Clone, Copy)]
struct FrontPlace {
    /// How many items are left.
    left: u32,
    /// How many items of each stack are left, each by the step of its stack: no two fronts have the same number.
    number: u32,
}

/// All fronts, in the order of their rows: by how many items are left, and then by number.
#[derive(Drop)]
pub struct Shape {
    /// What an item of each stack weighs, so that what is taken at a row weighs less than at the row before it.
    pub weights: Vec<u64>,
    /// By how much a front's number falls with one item of each stack.
    steps: Vec<u64>,
    /// The front of each row.
    places: Vec<FrontPlace>,
    /// The row of each front, by its number.
    rows: Vec<u32>,
}

/// A row and the item that leads to it.
#[derive(Clone, Copy)]
struct ItemStep {
    to: u32,
    item: Item,
}

/// Adds the fronts at which some of the items of one more stack are left, where there are then no more than `limit`.
fn push_places(places: &mut Vec<FrontPlace>, items: usize, limit: u64) -> Result<(), Halt> {
    let step = places.len() as u64;
    let all = step.saturating_mul((items as u64).saturating_add(1));
    if all > limit {
        return Err(Halt::Fronts);
    }
    for number in step..all {
        let Ok(own) = u32::try_from(number) else {
            return Err(Halt::Limit);
        };
        // (the front with one item of the stack less)
        let fewer = places.get(number.saturating_sub(step) as usize);
        let left = fewer.map_or(0, |place| place.left).saturating_add(1);
        places.push(FrontPlace { left, number: own })?;
    }
    Ok(())
}

/// What an item of each stack weighs. An item more counts for more than all that numbers of fronts differ by; where as
/// many are taken, the greater number weighs less.
fn weights_of(alloc: Global, steps: &[u64], fronts: usize) -> Result<Vec<u64>, Halt> {
    let mut weights = Vec::new(alloc);
    for step in steps {
        weights.push(step.saturating_add(fronts as u64))?;
    }
    Ok(weights)
}

/// The row of each front, by its number.
fn rows_by_number(alloc: Global, places: &[FrontPlace]) -> Result<Vec<u32>, Halt> {
    let mut rows = vec![in alloc; 0u32; places.len()]?;
    for (row, place) in places.iter().enumerate() {
        let Ok(row) = u32::try_from(row) else {
            return Err(Halt::Limit);
        };
        if let Some(own) = rows.get_mut(place.number as usize) {
            *own = row;
        }
    }
    Ok(rows)
}

/// The fronts of an instance, where there are no more than `limit`.
pub fn shape_of(alloc: Global, instance: &Instance, limit: u64) -> Result<Shape, Halt> {
    let mut steps = Vec::new(alloc);
    let mut places = Vec::new(alloc);
    places.push(FrontPlace { left: 0, number: 0 })?;
    for stack in 0..instance.stacks() {
        steps.push(places.len() as u64)?;
        push_places(&mut places, instance.stack(stack).len(), limit)?;
    }
    // (a stable sort, which leaves them in the order of their numbers where as many items are left)
    places.sort_by_key(|place| place.left)?;
    let weights = weights_of(alloc, steps.as_slice(), places.len())?;
    let rows = rows_by_number(alloc, places.as_slice())?;
    Ok(Shape {
        weights,
        steps,
        places,
        rows,
    })
}

/// The number of a row's front.
fn number_of(shape: &Shape, row: usize) -> u64 {
    shape
        .places
        .get(row)
        .map_or(0, |place| u64::from(place.number))
}

/// How many items of each stack are taken at a row.
fn taken_at(
    alloc: Global,
    instance: &Instance,
    shape: &Shape,
    row: usize,
) -> Result<Vec<u32>, Halt> {
    let number = number_of(shape, row);
    let mut taken = Vec::new(alloc);
    for stack in 0..instance.stacks() {
        let items = instance.stack(stack).len() as u64;
        let step = shape.steps.get(stack as usize).copied().unwrap_or(1);
        let left = number
            .checked_div(step)
            .unwrap_or(0)
            .checked_rem(items.saturating_add(1))
            .unwrap_or(0);
        let Ok(count) = u32::try_from(items.saturating_sub(left)) else {
            return Err(Halt::Limit);
        };
        taken.push(count)?;
    }
    Ok(taken)
}

/// The fronts that are made, the later ones of which are in the table.
#[derive(Clone, Copy)]
struct Making<'a> {
    instance: &'a Instance,
    shape: &'a Shape,
    rows: &'a [FrontRow],
}

/// The row with one item more of a stack, where there is one.
fn step_by(shape: &Shape, row: usize, stack: u32, item: Option<Item>) -> Option<ItemStep> {
    let item = item?;
    let step = shape.steps.get(stack as usize).copied()?;
    let number = number_of(shape, row).checked_sub(step)?;
    let to = shape.rows.get(number as usize).copied()?;
    Some(ItemStep { to, item })
}

/// Appends a cell.
fn push_cell(moves: &mut Vec<Move>, to: u32, wide: u32, across: SizeSet) -> Result<(), Halt> {
    let label = FrontLabel {
        along: SizeSet::only(wide),
        across,
        right: SizeSet::all(),
        up: 0,
    };
    moves.push(Move { to, label })?;
    Ok(())
}

/// Appends the cells of an item, in this turn, with each item over it.
fn push_pairs(
    making: &Making<'_>,
    moves: &mut Vec<Move>,
    mid: usize,
    low: (u32, u32),
) -> Result<(), Halt> {
    for stack in 0..making.instance.stacks() {
        let item = due(making.instance, making.rows, mid, stack);
        if let Some(step) = step_by(making.shape, mid, stack, item) {
            for turn in 0..2 {
                let over = sides(&step.item, turn);
                if over.0 == low.0 {
                    push_cell(
                        moves,
                        step.to,
                        low.0,
                        SizeSet::only(low.1.saturating_add(over.1)),
                    )?;
                }
            }
        }
    }
    Ok(())
}

/// Appends the cells that an item begins.
fn push_cells(making: &Making<'_>, moves: &mut Vec<Move>, step: &ItemStep) -> Result<(), Halt> {
    let waste = making.instance.params().waste;
    for turn in 0..2 {
        let own = sides(&step.item, turn);
        if turn == 0 || own.0 != own.1 {
            push_cell(moves, step.to, own.0, heights(own.0, own.1, waste))?;
            push_pairs(making, moves, step.to as usize, own)?;
        }
    }
    Ok(())
}

/// A front, of which the later ones are in the table.
fn row_at(alloc: Global, making: &Making<'_>, row: usize) -> Result<FrontRow, Halt> {
    let instance = making.instance;
    let shape = making.shape;
    let taken = taken_at(alloc, instance, shape, row)?;
    let mut links = Vec::new(alloc);
    let mut moves = Vec::new(alloc);
    let mut area = 0;
    for stack in 0..instance.stacks() {
        let count = taken.get(stack as usize).copied().unwrap_or(0);
        if let Some(step) = step_by(shape, row, stack, instance.item_of(stack, count as usize)) {
            let own = u64::from(step.item.length) * u64::from(step.item.width);
            area = area_left(making.rows, step.to as usize).saturating_add(own);
            links.push(step.to)?;
            push_cells(making, &mut moves, &step)?;
        }
    }
    moves.shrink_to_fit();
    Ok(FrontRow {
        taken,
        area,
        links,
        moves,
    })
}

/// All fronts, from the one at which nothing is left.
pub fn rows_of(alloc: Global, instance: &Instance, shape: &Shape) -> Result<Vec<FrontRow>, Halt> {
    let mut rows = Vec::new(alloc);
    for row in 0..shape.places.len() {
        let making = Making {
            instance,
            shape,
            rows: rows.as_slice(),
        };
        let next = row_at(alloc, &making, row)?;
        rows.push(next)?;
    }
    Ok(rows)
}

/// For each class of strips the widest.
pub fn tops_of(alloc: Global, params: &Params) -> Result<Vec<u32>, Halt> {
    let step = params.max1.saturating_sub(params.min1) / CLASSES;
    let mut low = params.min1;
    let mut tops = Vec::new(alloc);
    for _ in 0..CLASSES {
        let top = low.saturating_add(step);
        tops.push(top)?;
        low = top.saturating_add(1);
    }
    Ok(tops)
}
