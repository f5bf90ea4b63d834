//! Lanes, to which the nodes of a level are dealt out. They do not see one another, so that any number of threads may
//! work on them.

use crate::crew::Labour;
use crate::expanding::Bench;
use crate::form::Base;
use crate::ledger::Ledger;
use crate::lists::List;
use crate::measure::{Amount, Length};
use crate::node::{Candidate, LaidCell};
use crate::pools::Pool;
use crate::seats::Seating;
use crate::strip::ROOM;
use crate::task::{AHEAD, LANES, Task};
use crossbeam_utils::CachePadded;
use glass_base::Memory;
use std::alloc::Global;
use std::sync::Mutex;

/// What the lanes of a level read.
#[derive(Clone, Copy)]
pub struct Shift<'s> {
    pub task: &'s Task<'s>,
    pub arena: &'s [LaidCell],
    /// The nodes that are to be expanded, by their places in the pool.
    pub taken: &'s [u32],
    pub pool: &'s Pool,
    pub seating: &'s Seating,
    /// The number of the first of these lanes.
    pub first: usize,
}

impl Shift<'_> {
    /// The place in the arena that the first node of a lane will have: behind those of the lanes before it.
    fn first_of(&self, lane: usize) -> usize {
        let all = self.taken.len();
        let before = (all / LANES)
            .saturating_mul(lane)
            .saturating_add(lane.min(all % LANES));
        self.arena.len().saturating_add(before)
    }
}

/// A lane: it expands its share of the nodes of each level.
#[derive(Drop)]
pub struct Lane {
    pub ledger: Ledger,
    bench: Bench,
    /// Its nodes of a level, and how many items of each stack they have cut.
    pub nodes: Vec<LaidCell>,
    pub seats: Vec<u16>,
    /// The same of the node that is expanded.
    places: Vec<u16>,
    /// Whether memory ran out.
    pub is_short: bool,
    /// Keeps it off the cache lines of the next lane, which another thread writes to.
    apart: CachePadded<()>,
}

/// Of so many stacks nothing is cut.
fn no_places(alloc: Global, stacks: usize) -> Result<Vec<u16>, Memory> {
    let mut places = Vec::with_capacity(alloc, stacks.max(ROOM))?;
    places.resize(stacks, 0)?;
    Ok(places)
}

impl Lane {
    /// A lane for so many stacks; there will be no form wider than `widest`.
    pub fn new(alloc: Global, stacks: usize, widest: Length) -> Result<Lane, Memory> {
        Ok(Lane {
            ledger: Ledger::new(alloc),
            bench: Bench::new(alloc, widest)?,
            nodes: Vec::new(alloc),
            seats: Vec::new(alloc),
            places: no_places(alloc, stacks)?,
            is_short: false,
            apart: CachePadded::new(()),
        })
    }

    /// Offers the first cells.
    pub fn begin(&mut self, task: &Task) -> Result<(), Memory> {
        let start = Candidate::start();
        let base = Base {
            candidate: &start,
            places: self.places.as_slice(),
            arena: &[],
            parent: None,
        };
        self.bench.expand(task, &mut self.ledger, &base)?;
        self.rank()
    }

    /// Expands one node of a level, which will have this place in the arena.
    fn expand(&mut self, shift: &Shift, place: usize, candidate: &Candidate) -> Result<(), Memory> {
        shift
            .seating
            .fill(&candidate.node, self.places.as_mut_slice());
        self.nodes.push(candidate.node)?;
        self.seats.extend_from_slice(self.places.as_slice())?;
        let base = Base {
            candidate,
            places: self.places.as_slice(),
            arena: shift.arena,
            parent: Some(place.min(u32::MAX as usize) as u32),
        };
        self.bench.expand(shift.task, &mut self.ledger, &base)
    }

    /// Sorts the orders of its children.
    fn rank(&mut self) -> Result<(), Memory> {
        self.ledger.one.rank()?;
        self.ledger.two.rank()
    }

    /// Expands its share of a level: the node at `lane` and each one that is so many lanes further on.
    fn work_off(&mut self, shift: &Shift, lane: usize) -> Result<(), Memory> {
        self.nodes.clear();
        self.seats.clear();
        let first = shift.first_of(lane);
        for turn in 0..(shift.taken.len() / LANES).saturating_add(1) {
            let number = turn.saturating_mul(LANES).saturating_add(lane);
            if let Some(taken) = shift.taken.get(number) {
                if let Some(candidate) = shift.pool.get(*taken) {
                    self.expand(shift, first.saturating_add(turn), candidate)?;
                }
            }
        }
        self.rank()
    }
}

impl Labour<Lane> for Shift<'_> {
    fn work(&self, number: usize, lane: &mut Lane) {
        let all = self.first.saturating_add(number);
        lane.is_short = lane.work_off(self, all).is_err();
    }
}

/// Adds the keys of a list's children.
fn note_keys(list: &List, keys: &mut Vec<Amount>) -> Result<(), Memory> {
    for rank in &list.ranks {
        keys.push(rank.key)?;
    }
    Ok(())
}

/// The key from which on a child is of no use to the lanes that did not go ahead, where a level holds so many
/// candidates and the children of those that went ahead have these keys.
fn cut_of(keys: &mut Vec<Amount>, room: usize) -> Result<Amount, Memory> {
    keys.sort()?;
    let rank = (room.saturating_mul(AHEAD) / LANES).saturating_mul(5) / 4;
    let key = keys.get(rank.saturating_add(8)).copied();
    Ok(key.unwrap_or(Amount::TOP))
}

/// The keys from which on a child of one item more, or of two, is of no use to the lanes that did not go ahead.
pub fn cuts(
    ahead: &mut [Mutex<Lane>],
    keys: &mut Vec<Amount>,
    room: usize,
) -> Result<(Amount, Amount), Memory> {
    keys.clear();
    for lane in ahead.iter_mut() {
        note_keys(&lane.get_mut().ledger.one, keys)?;
    }
    let one = cut_of(keys, room)?;
    keys.clear();
    for lane in ahead.iter_mut() {
        note_keys(&lane.get_mut().ledger.two, keys)?;
    }
    Ok((one, cut_of(keys, room)?))
}
