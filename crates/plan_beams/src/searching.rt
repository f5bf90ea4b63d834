//! A beam: the best nodes of each level are expanded, as many as its effort allows. A level is dealt out to lanes, on
//! which several threads work.

use crate::arena::Arena;
use crate::hands::Hands;
use crate::lanes::{Lane, Shift, cuts};
use crate::measure::{Amount, Length};
use crate::pace::Pace;
use crate::paths::{FoundPath, path_to};
use crate::pools::Pool;
use crate::seats::Seating;
use crate::sieves::{Sieve, Sifting};
use crate::task::{AHEAD, LANES, Task, room_for};
use glass_base::{Listener, Memory};
use std::alloc::{AllocError, Global};
use std::mem;
use std::sync::Mutex;

/// A beam at work.
#[derive(Drop)]
struct Search {
    spent: u64,
    arena: Arena,
    seating: Seating,
    /// The candidates of this level, and of the next two.
    now: Pool,
    next: Pool,
    after: Pool,
    /// Of the candidates of this level by rank, which none before them dominates.
    good: Vec<bool>,
    /// The places in the pool of those that are expanded.
    taken: Vec<u32>,
    /// The keys of the children of the lanes that went ahead.
    keys: Vec<Amount>,
    ahead: Vec<Mutex<Lane>>,
    others: Vec<Mutex<Lane>>,
    sieves: Vec<Mutex<Sieve>>,
}

/// So many lanes.
fn lanes(
    alloc: Global,
    count: usize,
    stacks: usize,
    widest: Length,
) -> Result<Vec<Mutex<Lane>>, Memory> {
    let mut lanes = Vec::new(alloc);
    for _ in 0..count {
        lanes.push(Mutex::new(Lane::new(alloc, stacks, widest)?))?;
    }
    Ok(lanes)
}

fn sieves(alloc: Global) -> Result<Vec<Mutex<Sieve>>, Memory> {
    let mut sieves = Vec::new(alloc);
    for _ in 0..LANES {
        sieves.push(Mutex::new(Sieve::new(alloc)?))?;
    }
    Ok(sieves)
}

/// Says from which keys on a child is of no use to these lanes, and how long their lists may get.
fn limit(lanes: &mut [Mutex<Lane>], one: Amount, two: Amount, most: usize) {
    for lane in lanes.iter_mut() {
        lane.get_mut().ledger.limit_to(one, two, most);
    }
}

/// Deals the candidates of a level out to the sieves.
fn deal(sieves: &mut [Mutex<Sieve>], pool: &Pool) -> Result<(), Memory> {
    for sieve in sieves.iter_mut() {
        sieve.get_mut().clear();
    }
    for (number, rank) in pool.ranks.iter().enumerate() {
        if let Some(sieve) = sieves.get_mut(rank.sieve as usize) {
            sieve
                .get_mut()
                .put(number.min(u32::MAX as usize) as u32, rank.place)?;
        }
    }
    Ok(())
}

/// Notes what a sieve says of the candidates of a level, and tells the ticks that it took. It refuses where its
/// memory ran out.
fn note_good(sieve: &mut Sieve, good: &mut Vec<bool>) -> Result<u64, Memory> {
    if sieve.is_short {
        return Err(Memory::from(AllocError));
    }
    for number in &sieve.good {
        if let Some(good) = good.get_mut(*number as usize) {
            *good = true;
        }
    }
    Ok(mem::replace(&mut sieve.ticks.spent, 0))
}

/// Notes the nodes of a level that a lane expanded, and tells the ticks that it took. It refuses where its memory ran
/// out.
fn note_nodes(
    lane: &mut Lane,
    level: usize,
    arena: &mut Arena,
    seating: &mut Seating,
) -> Result<u64, Memory> {
    if lane.is_short {
        return Err(Memory::from(AllocError));
    }
    arena.nodes.extend_from_slice(lane.nodes.as_slice())?;
    seating.extend(level, lane.seats.as_slice())?;
    Ok(mem::replace(&mut lane.ledger.ticks.spent, 0))
}

/// Notes the best candidates of a level that are good, at most `width` of them.
fn take_good(taken: &mut Vec<u32>, good: &[bool], pool: &Pool, width: usize) -> Result<(), Memory> {
    taken.clear();
    for (is_good, rank) in good.iter().zip(pool.ranks.iter()) {
        if taken.len() >= width {
            return Ok(());
        }
        if *is_good {
            taken.push(rank.place)?;
        }
    }
    Ok(())
}

impl Search {
    fn new(alloc: Global, task: &Task) -> Result<Search, Memory> {
        let stacks = task.stock.stacks.len();
        let widest = task.sheet.max1;
        Ok(Search {
            spent: 0,
            arena: Arena::new(alloc),
            seating: Seating::new(alloc),
            now: Pool::new(alloc)?,
            next: Pool::new(alloc)?,
            after: Pool::new(alloc)?,
            good: Vec::new(alloc),
            taken: Vec::new(alloc),
            keys: Vec::new(alloc),
            ahead: lanes(alloc, AHEAD, stacks, widest)?,
            others: lanes(alloc, LANES - AHEAD, stacks, widest)?,
            sieves: sieves(alloc)?,
        })
    }

    /// Offers the first cells, by the first lane.
    fn begin(&mut self, task: &Task) -> Result<(), Memory> {
        if let Some(lane) = self.ahead.first_mut() {
            lane.get_mut().begin(task)?;
        }
        self.gather(0)
    }

    /// Takes the best candidates of a level that none before them dominates, at most `width` of them.
    fn take<H: Hands>(&mut self, hands: &H, task: &Task, width: usize) -> Result<(), Memory>
        requires hands { H.can_work }
    {
        self.now.sort(room_for(width))?;
        deal(self.sieves.as_mut_slice(), &self.now)?;
        let sifting = Sifting {
            pool: &self.now,
            tolerance: task.guide.tolerance,
        };
        hands.sift(self.sieves.as_slice(), &sifting);
        self.good.clear();
        self.good.resize(self.now.ranks.len(), false)?;
        for sieve in self.sieves.iter_mut() {
            let ticks = note_good(sieve.get_mut(), &mut self.good)?;
            self.spent = self.spent.wrapping_add(ticks);
        }
        take_good(&mut self.taken, self.good.as_slice(), &self.now, width)
    }

    /// Expands the nodes of a level that are taken, of which there are at most `width`: some lanes go ahead.
    fn expand<H: Hands>(&mut self, hands: &H, task: &Task, width: usize) -> Result<(), Memory>
        requires hands { H.can_work }
    {
        let room = room_for(width);
        let most = (room / LANES).saturating_mul(4).saturating_add(64);
        let ahead = Shift {
            task,
            arena: self.arena.nodes.as_slice(),
            taken: self.taken.as_slice(),
            pool: &self.now,
            seating: &self.seating,
            first: 0,
        };
        limit(self.ahead.as_mut_slice(), Amount::TOP, Amount::TOP, most);
        hands.expand(self.ahead.as_slice(), &ahead);
        let (one, two) = cuts(self.ahead.as_mut_slice(), &mut self.keys, room)?;
        limit(self.others.as_mut_slice(), one, two, most);
        let others = Shift {
            first: AHEAD,
            ..ahead
        };
        hands.expand(self.others.as_slice(), &others);
        Ok(())
    }

    /// Brings what the lanes have of a level together, and goes on to the next one.
    fn gather(&mut self, level: usize) -> Result<(), Memory> {
        self.seating.begin(level, self.arena.nodes.len());
        let lanes = self.ahead.iter_mut().chain(self.others.iter_mut());
        for (number, lane) in lanes.enumerate() {
            let lane = lane.get_mut();
            let ticks = note_nodes(lane, level, &mut self.arena, &mut self.seating)?;
            self.spent = self.spent.wrapping_add(ticks);
            self.after.swap(number, &mut lane.ledger.two);
            self.next
                .swap(number.wrapping_add(LANES), &mut lane.ledger.one);
        }
        self.now.clear();
        mem::swap(&mut self.now, &mut self.next);
        mem::swap(&mut self.next, &mut self.after);
        Ok(())
    }

    /// Works a level off, of which at most `width` nodes are expanded, and tells how many ticks one took.
    fn work_off<H: Hands>(
        &mut self,
        alloc: Global,
        hands: &H,
        task: &Task,
        level: usize,
        width: usize,
    ) -> Result<Option<u64>, Memory>
        requires hands { H.can_work }
    {
        let before = self.spent;
        self.take(hands, task, width)?;
        self.expand(hands, task, width)?;
        self.gather(level)?;
        self.arena.sweep(
            alloc,
            level,
            &mut self.seating,
            &mut self.now,
            &mut self.next,
        )?;
        let spent = self.spent.wrapping_sub(before);
        let mean = spent.checked_div(self.taken.len() as u64);
        Ok(mean.map(|ticks| ticks.saturating_add(1)))
    }

    /// The path to the best candidate that holds all items, if one has less waste than is known.
    fn path(&self, alloc: Global, task: &Task) -> Result<Option<FoundPath>, Memory> {
        match self.now.least(task.best) {
            Some(last) => Ok(Some(path_to(alloc, last, self.arena.nodes.as_slice())?)),
            None => Ok(None),
        }
    }
}

/// The path to the best plan that a beam finds, if it finds one, and the ticks that it took.
pub fn beam<H: Hands, L: Listener>(
    alloc: Global,
    hands: &H,
    task: &Task,
    pace: &Pace<L>,
) -> Result<(Option<FoundPath>, u64), Memory>
    requires hands { H.can_work }
{
    let mut search = Search::new(alloc, task)?;
    let items = task.stock.items;
    let mut cost = (task.stock.stacks.len() as u64)
        .saturating_mul(2)
        .saturating_add(40);
    search.begin(task)?;
    for level in 1..items {
        let left = task.left(search.spent).min(pace.left(search.spent));
        let width = task.width(left, level, cost);
        let mean = search.work_off(alloc, hands, task, level, width)?;
        cost = mean.unwrap_or(cost);
        pace.tell(search.spent);
    }
    Ok((search.path(alloc, task)?, search.spent))
}
