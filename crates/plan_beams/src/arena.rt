//! All nodes of a beam from which a candidate comes.

use crate::node::LaidCell;
use crate::pools::Pool;
use crate::seats::Seating;
use glass_base::Memory;
use std::alloc::Global;

/// From so many nodes on the arena is swept.
const MANY_NODES: usize = 1 << 20;

/// The nodes that were expanded; parents are places here.
#[derive(Drop)]
pub struct Arena {
    pub nodes: Vec<LaidCell>,
    /// How many there were after it was swept last.
    live: usize,
}

impl Arena {
    pub fn new(alloc: Global) -> Arena {
        Arena {
            nodes: Vec::new(alloc),
            live: 0,
        }
    }

    /// Which nodes are of use: those from `first` on, and those from which a candidate comes.
    fn marks(
        &self,
        alloc: Global,
        first: usize,
        next: &Pool,
        after: &Pool,
    ) -> Result<Vec<bool>, Memory> {
        let mut marks = vec![in alloc; false; self.nodes.len()]?;
        for (place, mark) in marks.iter_mut().enumerate() {
            *mark = place >= first;
        }
        next.mark_parents(marks.as_mut_slice());
        after.mark_parents(marks.as_mut_slice());
        for place in (0..self.nodes.len()).rev() {
            let is_marked = marks.get(place).copied().unwrap_or(false);
            if let (true, Some(node)) = (is_marked, self.nodes.get(place)) {
                node.mark_parent(marks.as_mut_slice());
            }
        }
        Ok(marks)
    }

    /// Moves the marked nodes to the front, and tells where each went.
    fn keep(&mut self, alloc: Global, marks: &[bool]) -> Result<Vec<u32>, Memory> {
        let mut places = Vec::new(alloc);
        let mut kept = 0u32;
        for (place, mark) in marks.iter().enumerate() {
            places.push(kept)?;
            if let (true, Some(node)) = (*mark, self.nodes.get(place).copied()) {
                let mut moved = node;
                moved.move_parent(places.as_slice());
                if let Some(seat) = self.nodes.get_mut(kept as usize) {
                    *seat = moved;
                }
                kept = kept.saturating_add(1);
            }
        }
        self.nodes.truncate(kept as usize);
        Ok(places)
    }

    /// Drops the nodes from which no candidate comes, where there are many and twice as many as were left the last
    /// time. Those of this level and of the one before stay together, since they are seated by their places.
    pub fn sweep(
        &mut self,
        alloc: Global,
        level: usize,
        seating: &mut Seating,
        next: &mut Pool,
        after: &mut Pool,
    ) -> Result<(), Memory> {
        if self.nodes.len() < MANY_NODES.max(self.live.saturating_mul(2)) {
            return Ok(());
        }
        let before = level.saturating_sub(1);
        let first = seating.first(level).min(seating.first(before));
        let marks = self.marks(alloc, first, next, after)?;
        let places = self.keep(alloc, marks.as_slice())?;
        self.live = self.nodes.len();
        next.move_parents(places.as_slice());
        after.move_parents(places.as_slice());
        for seated in [before, level] {
            if let Some(place) = places.get(seating.first(seated)) {
                seating.moves(seated, *place);
            }
        }
        Ok(())
    }
}
