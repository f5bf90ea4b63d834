//! Sieves, to which the candidates of a level are dealt out by the items that they hold: of those that hold the same
//! items they keep the ones that none before them dominates. They do not see one another, so that any number of
//! threads may work on them.

use crate::crew::Labour;
use crate::guide::Tolerance;
use crate::pools::Pool;
use crate::taken::{Outline, Taken};
use crate::task::LANES;
use crate::ticks::Ticks;
use crossbeam_utils::CachePadded;
use glass_base::Memory;
use std::alloc::Global;

/// Candidates are found by the rest that their mixes leave by this prime.
const BUCKETS: u64 = 4_093;

/// A candidate: its number in the order of its level, and its place in the pool.
#[derive(Clone, Copy)]
struct Ranked {
    number: u32,
    place: u32,
}

/// A sieve, which has its share of the sets of items.
#[derive(Drop)]
pub struct Sieve {
    entries: Vec<Ranked>,
    /// The numbers of those that none before them dominates.
    pub good: Vec<u32>,
    taken: Taken,
    pub ticks: Ticks,
    /// Whether memory ran out.
    pub is_short: bool,
    /// Keeps it off the cache lines of the next sieve, which another thread writes to.
    apart: CachePadded<()>,
}

impl Sieve {
    pub fn new(alloc: Global) -> Result<Sieve, Memory> {
        Ok(Sieve {
            entries: Vec::new(alloc),
            good: Vec::new(alloc),
            taken: Taken::new(alloc, BUCKETS as usize)?,
            ticks: Ticks { spent: 0 },
            is_short: false,
            apart: CachePadded::new(()),
        })
    }

    /// Empties it.
    pub fn clear(&mut self) {
        self.entries.clear();
        self.good.clear();
        self.taken.clear();
    }

    /// Takes a candidate in, which is no better than those before it.
    pub fn put(&mut self, number: u32, place: u32) -> Result<(), Memory> {
        self.entries.push(Ranked { number, place })?;
        Ok(())
    }

    /// Notes those that none before them dominates.
    fn sift(&mut self, pool: &Pool, tolerance: Tolerance) -> Result<(), Memory> {
        for entry in &self.entries {
            if let Some(candidate) = pool.get(entry.place) {
                let bucket = (candidate.mix / LANES as u64 % BUCKETS) as usize;
                let front = Outline::of(candidate);
                if self
                    .taken
                    .admit(&front, bucket, tolerance, &mut self.ticks)?
                {
                    self.good.push(entry.number)?;
                }
            }
        }
        Ok(())
    }
}

/// What the sieves of a level read.
#[derive(Clone, Copy)]
pub struct Sifting<'s> {
    pub pool: &'s Pool,
    pub tolerance: Tolerance,
}

impl Labour<Sieve> for Sifting<'_> {
    fn work(&self, _number: usize, sieve: &mut Sieve) {
        sieve.is_short = sieve.sift(self.pool, self.tolerance).is_err();
    }
}
