//! How many items of each stack the nodes of a level have cut.

use crate::node::{LaidCell, LaidItem};
use glass_base::Memory;
use std::alloc::Global;

/// The numbers of items that are cut of each stack, for the nodes of one level.
#[derive(Drop)]
struct Seats {
    /// The level's first node, by its place in the arena.
    first: usize,
    /// The numbers, node by node.
    places: Vec<u16>,
}

/// How many items of each stack the nodes of three levels have cut, by their numbers of items modulo 3.
#[derive(Drop)]
pub struct Seating {
    levels: [Seats; 3],
}

impl Seats {
    fn new(alloc: Global) -> Seats {
        Seats {
            first: 0,
            places: Vec::new(alloc),
        }
    }

    /// The numbers of a node, by its place in the arena, where there are so many stacks.
    fn of(&self, node: usize, stacks: usize) -> Option<&[u16]> {
        let from = node.saturating_sub(self.first).saturating_mul(stacks);
        self.places.get(from..from.saturating_add(stacks))
    }
}

/// The numbers of the node before this one, where there is one.
fn parent_seat<'l>(levels: &'l [Seats; 3], node: &LaidCell, stacks: usize) -> Option<&'l [u16]> {
    let more = if node.above.is_some() { 2 } else { 1 };
    let level = usize::from(node.items.saturating_sub(more)) % 3;
    levels[level].of(node.parent? as usize, stacks)
}

/// Counts one more item of a stack.
fn count(seat: &mut [u16], part: LaidItem) {
    if let Some(place) = seat.get_mut(usize::from(part.stack)) {
        *place = place.saturating_add(1);
    }
}

/// Notes the numbers of a node.
fn fill_seat(levels: &[Seats; 3], node: &LaidCell, seat: &mut [u16]) {
    match parent_seat(levels, node, seat.len()) {
        Some(parent) => {
            for (place, other) in seat.iter_mut().zip(parent.iter()) {
                *place = *other;
            }
        }
        None => seat.fill(0),
    }
    count(seat, node.part);
    if let Some(above) = node.above {
        count(seat, above);
    }
}

impl Seating {
    /// Nobody is seated.
    pub fn new(alloc: Global) -> Seating {
        Seating {
            levels: [Seats::new(alloc), Seats::new(alloc), Seats::new(alloc)],
        }
    }

    /// Begins a level whose first node has this place in the arena.
    pub fn begin(&mut self, level: usize, first: usize) {
        let seats = &mut self.levels[level % 3];
        seats.first = first;
        seats.places.clear();
    }

    /// The level's first node, by its place in the arena.
    pub fn first(&self, level: usize) -> usize {
        self.levels[level % 3].first
    }

    /// Notes that the level's first node has another place now.
    pub fn moves(&mut self, level: usize, first: u32) {
        self.levels[level % 3].first = first as usize;
    }

    /// Notes the numbers of a node of the next level in a list of its own, which has a place for each stack.
    pub fn fill(&self, node: &LaidCell, seat: &mut [u16]) {
        fill_seat(&self.levels, node, seat);
    }

    /// Notes the numbers of the level's next nodes.
    pub fn extend(&mut self, level: usize, places: &[u16]) -> Result<(), Memory> {
        self.levels[level % 3].places.extend_from_slice(places)?;
        Ok(())
    }
}
