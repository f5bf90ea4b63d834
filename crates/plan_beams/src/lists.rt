//! Children that a lane keeps.

use crate::measure::Amount;
use crate::node::Candidate;
use glass_base::Memory;
use std::alloc::Global;

/// Where a candidate stands in an order: by its key, and then by its place. Its sieve says nothing beside these.
#[derive(Clone, Copy, PartialEq, Eq, PartialOrd, Ord)]
pub struct Ranked {
    pub key: Amount,
    pub place: u32,
    pub sieve: u32,
}

impl Ranked {
    /// Where a candidate stands that has this place.
    fn of(candidate: &Candidate, place: usize) -> Ranked {
        Ranked {
            key: candidate.key,
            place: place.min(u32::MAX as usize) as u32,
            sieve: candidate.sieve(),
        }
    }
}

/// Children of the same number of items.
#[derive(Drop)]
pub struct List {
    pub held: Vec<Candidate>,
    /// Their order, once the lane is done.
    pub ranks: Vec<Ranked>,
    /// From this key on a child is of no use.
    pub cut: Amount,
}

impl List {
    pub fn new(alloc: Global) -> List {
        List {
            held: Vec::new(alloc),
            ranks: Vec::new(alloc),
            cut: Amount::TOP,
        }
    }

    /// Empties it.
    pub fn clear(&mut self) {
        self.held.clear();
        self.ranks.clear();
    }

    /// Sorts the order of the children.
    pub fn rank(&mut self) -> Result<(), Memory> {
        self.ranks.clear();
        for (place, candidate) in self.held.iter().enumerate() {
            self.ranks.push(Ranked::of(candidate, place))?;
        }
        self.ranks.sort_unstable();
        Ok(())
    }

    /// Keeps the best children alone, so many of them, in the order in which they came.
    fn shrink(&mut self, most: usize) -> Result<(), Memory> {
        self.rank()?;
        let Some(bar) = self.ranks.get(most).copied() else {
            return Ok(());
        };
        self.cut = bar.key;
        let mut kept = 0usize;
        for place in 0..self.held.len() {
            if let Some(candidate) = self.held.get(place).copied() {
                if Ranked::of(&candidate, place) < bar {
                    if let Some(seat) = self.held.get_mut(kept) {
                        *seat = candidate;
                    }
                    kept = kept.saturating_add(1);
                }
            }
        }
        self.held.truncate(kept);
        Ok(())
    }

    /// Takes a child in. Where there are more than `most` then, the better half of them stays.
    pub fn add(&mut self, candidate: &Candidate, most: usize) -> Result<(), Memory> {
        self.held.push(*candidate)?;
        if self.held.len() > most {
            self.shrink(most / 2)?;
        }
        Ok(())
    }
}
