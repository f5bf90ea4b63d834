//! The nodes of a level that are taken, and which candidates they make needless.

use crate::chains::Chains;
use crate::guide::Tolerance;
use crate::node::Candidate;
use crate::ticks::Ticks;
use glass_base::Memory;
use std::alloc::Global;

/// At most so many nodes of a bucket are looked at.
const MOST_LOOKS: u32 = 1000;

/// The front of a candidate, and which items it holds: all by which others are compared with it.
#[derive(Clone, Copy)]
pub struct Outline {
    /// The sum over its items of the mixes of their stacks.
    mix: u64,
    plate: u16,
    a: u16,
    b: u16,
    c: u16,
    d: u16,
    right: u16,
    /// Whether a strip of its plate, and a band of its strip, may reach further.
    is_lax_right: bool,
    is_lax_above: bool,
}

/// The nodes of a level that are taken.
#[derive(Drop)]
pub struct Taken {
    list: Vec<Outline>,
    chains: Chains,
}

/// Whether `one` is no more than the other, but for the tolerance.
fn is_no_more(one: u16, other: u16, tolerance: Tolerance) -> bool {
    match tolerance {
        Tolerance::Slack(slack) => u32::from(one) <= u32::from(other).saturating_add(slack.0),
        Tolerance::Gap(waste) => {
            one == other || u32::from(one).saturating_add(waste.0) <= u32::from(other)
        }
    }
}

impl Outline {
    pub fn of(candidate: &Candidate) -> Outline {
        let node = &candidate.node;
        Outline {
            mix: candidate.mix,
            plate: node.plate,
            a: node.a,
            b: node.b,
            c: node.c,
            d: node.d,
            right: node.right().short(),
            is_lax_right: node.lax_b > 0,
            is_lax_above: node.lax_d > 0,
        }
    }

    /// Whether its band and what lies in it reach no further than those of the other.
    fn is_band_no_more(&self, other: &Outline, tolerance: Tolerance) -> bool {
        if is_no_more(self.d, other.c, tolerance) {
            return true;
        }
        is_no_more(self.c, other.c, tolerance)
            && is_no_more(self.d, other.d, tolerance)
            && is_no_more(self.right, other.right, tolerance)
    }

    /// Whether it is nowhere worse than the other, but for the tolerance.
    fn is_no_more(&self, other: &Outline, tolerance: Tolerance) -> bool {
        if self.plate != other.plate {
            return self.plate < other.plate;
        }
        if tolerance.is_exact() && other.is_lax_right && !self.is_lax_right {
            return false;
        }
        if is_no_more(self.b, other.a, tolerance) {
            return true;
        }
        if tolerance.is_exact() && other.is_lax_above && !self.is_lax_above {
            return false;
        }
        is_no_more(self.a, other.a, tolerance)
            && is_no_more(self.b, other.b, tolerance)
            && self.is_band_no_more(other, tolerance)
    }

    /// Whether it holds the same items as the other, and is nowhere worse but for the tolerance.
    fn dominates(&self, other: &Outline, tolerance: Tolerance) -> bool {
        self.mix == other.mix && self.is_no_more(other, tolerance)
    }
}

impl Taken {
    /// No nodes, in so many buckets.
    pub fn new(alloc: Global, buckets: usize) -> Result<Taken, Memory> {
        Ok(Taken {
            list: Vec::new(alloc),
            chains: Chains::new(alloc, buckets)?,
        })
    }

    pub fn clear(&mut self) {
        self.list.clear();
        self.chains.clear();
    }

    /// Whether a node of this bucket dominates a candidate.
    fn is_dominated(
        &self,
        front: &Outline,
        bucket: usize,
        tolerance: Tolerance,
        ticks: &mut Ticks,
    ) -> bool {
        let mut element = self.chains.last(bucket);
        for _ in 0..MOST_LOOKS {
            let Some(place) = element else {
                return false;
            };
            ticks.spend(u64::from(place) % 2);
            if let Some(taken) = self.list.get(place as usize) {
                if taken.dominates(front, tolerance) {
                    return true;
                }
            }
            element = self.chains.before(place);
        }
        false
    }

    /// Takes a candidate of this bucket where none that was taken dominates it, and tells whether it did.
    pub fn admit(
        &mut self,
        front: &Outline,
        bucket: usize,
        tolerance: Tolerance,
        ticks: &mut Ticks,
    ) -> Result<bool, Memory> {
        if self.is_dominated(front, bucket, tolerance, ticks) {
            return Ok(false);
        }
        self.chains.push(bucket)?;
        self.list.push(*front)?;
        Ok(true)
    }
}
