//! The items to be cut, stack by stack, and what each is worth.

ghost use Rattle.std.specs.Prelude.{◌<◌, length};

use crate::guide::Guide;
use crate::measure::{Amount, Length};
use crate::rest::Remainder;
use glass_base::{Instance, Item, Memory};
use std::alloc::Global;

/// An item. All lengths are in mm.
#[derive(Clone, Copy)]
pub struct StockItem {
    pub length: Length,
    pub width: Length,
    pub area: Amount,
    /// What it is worth when it is cut, in 1/1024 mm² of waste: more where much stands behind it in its stack, so
    /// that the stacks are kept even.
    pub value: Amount,
    /// Whether the item behind it in its stack has a side of its length, and one of its width.
    pub pairs_length: bool,
    pub pairs_width: bool,
}

impl StockItem {
    /// The sides along x and y.
    pub fn sides(&self, turned: bool) -> (Length, Length) {
        if turned {
            (self.width, self.length)
        } else {
            (self.length, self.width)
        }
    }
}

/// A stack of which something is left.
#[derive(Drop)]
pub struct Stack {
    /// Its number in the instance.
    pub number: u32,
    /// Its items, in the order in which they are cut.
    pub pieces: Vec<StockItem>,
    /// A number below 2^48. Sets of items are told apart by the sums of these.
    pub mix: u64,
}

/// The items that are to be planned.
#[derive(Drop)]
pub struct Stock {
    pub stacks: Vec<Stack>,
    /// How many items there are.
    pub items: usize,
    /// The value of all items.
    pub value: Amount,
}

/// The next state of the generator of mixes.
fn next_state(state: u64) -> u64 {
    1_664_525u64.wrapping_mul(state).wrapping_add(1_013_904_223) % (1 << 32)
}

/// Draws a mix of three numbers below 2^16.
fn draw_mix(state: &mut u64) -> u64 {
    let first = next_state(*state);
    let second = next_state(first);
    let third = next_state(second);
    *state = third;
    let high = (first / 65_536).wrapping_mul(1 << 32);
    let middle = (second / 65_536).wrapping_mul(1 << 16);
    high.wrapping_add(middle).wrapping_add(third / 65_536)
}

/// What an item of this area is worth that so much area stands behind, where `mean` is the mean area of a stack.
fn value_of(area: u64, behind: u64, guide: &Guide, mean: u64) -> u64 {
    let rest = behind.wrapping_mul(2).wrapping_add(area);
    let share = rest
        .wrapping_mul(guide.even)
        .checked_div(mean.wrapping_mul(2))
        .unwrap_or(0);
    let loss = guide.rate.wrapping_mul(area) / 1024;
    loss.wrapping_mul(share.wrapping_add(512))
}

/// Whether an item, if there is one, has a side of this length.
fn has_side(item: Option<&Item>, side: u32) -> bool {
    match item {
        Some(item) => item.length == side || item.width == side,
        None => false,
    }
}

/// The items at these positions of the batch, from the last to the first.
fn pieces_of(
    alloc: Global,
    instance: &Instance,
    positions: &[u32],
    guide: &Guide,
    mean: u64,
) -> Result<Vec<StockItem>, Memory> {
    let items = instance.items();
    let mut pieces = Vec::new(alloc);
    let mut behind = 0u64;
    let mut next = None;
    for position in positions.iter().rev() {
        if let Some(item) = items.get(*position as usize) {
            let area = u64::from(item.length).wrapping_mul(u64::from(item.width));
            pieces.push(StockItem {
                length: Length(item.length),
                width: Length(item.width),
                area: Amount(area),
                value: Amount(value_of(area, behind, guide, mean)),
                pairs_length: has_side(next, item.length),
                pairs_width: has_side(next, item.width),
            })?;
            next = Some(item);
            behind = behind.wrapping_add(area);
        }
    }
    pieces.reverse();
    Ok(pieces)
}

fn total_value(stacks: &[Stack]) -> Amount {
    let mut total = Amount::ZERO;
    for stack in stacks {
        for piece in &stack.pieces {
            total = total + piece.value;
        }
    }
    total
}

fn stacks_of(
    alloc: Global,
    instance: &Instance,
    rest: &Remainder,
    guide: &Guide,
) -> Result<Vec<Stack>, Memory> {
    let mean = rest.mean_stack().max(1);
    let mut state = 12_345;
    let mut stacks = Vec::new(alloc);
    for number in 0..instance.stacks() {
        let left = rest.left(instance, number);
        if !left.is_empty() {
            stacks.push(Stack {
                number,
                pieces: pieces_of(alloc, instance, left, guide, mean)?,
                mix: draw_mix(&mut state),
            })?;
        }
    }
    Ok(stacks)
}

impl Stock {
    /// The items that are to be planned, and what they are worth for a beam that goes by `guide`.
    pub fn new(
        alloc: Global,
        instance: &Instance,
        rest: &Remainder,
        guide: &Guide,
    ) -> Result<Stock, Memory> {
        let stacks = stacks_of(alloc, instance, rest, guide)?;
        let value = total_value(stacks.as_slice());
        Ok(Stock {
            stacks,
            items: rest.items,
            value,
        })
    }

    /// The item of this stack that is cut next but one, where so many are cut already.
    pub fn second(&self, stack: usize, places: &[u16]) -> Option<StockItem> {
        match (self.stacks.get(stack), places.get(stack)) {
            (Some(held), Some(place)) => {
                let second = usize::from(*place).saturating_add(1);
                held.pieces.get(second).copied()
            }
            _ => None,
        }
    }
}
