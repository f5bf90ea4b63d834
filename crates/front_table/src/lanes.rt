//! The rows of a level, on several threads: no strip leads from one of them to another.

ghost use Rattle.std.specs.Prelude.{◌≡◌, ℕ, ◌<◌, ◌≤◌, All, IfOk, IfSome, None, OnOk, length, slice_index_or};
ghost use Rattle.front_table.specs.declared.lanes.MadeRow.{MadeRow as MadeOf};
ghost use Rattle.front_table.specs.declared.lanes.RowLane.{RowLane as LaneOf};
ghost use Rattle.front_table.specs.Lanes.{HasMade, InLanes, IsMade, IsReady};
ghost use Rattle.front_table.specs.Ready.{Built};

use crate::facts::facts_of;
use crate::fronts::Fronts;
use crate::halt::Halt;
use crate::levels::RowFacts;
use crate::pools::LabelPool;
use std::alloc::Global;
use std::thread;
use std::thread::Threads;

/// A row of which all is known.
#[derive(Drop)]
pub struct MadeRow {
    pub row: usize,
    pub facts: RowFacts,
}

/// What one thread works with, and what it has made: rows of a level, the last first.
#[derive(Drop)]
pub struct RowLane {
    pub pool: LabelPool,
    pub made: Vec<MadeRow>,
    /// Why it has not made all of its rows.
    pub halt: Option<Halt>,
}

/// The rows of a level: from those of which all is known up to another one. With `lanes` of them each lane makes every
/// so-manyth.
#[derive(Clone, Copy)]
pub struct FrontLevel<'a> {
    pub alloc: Global,
    pub fronts: Fronts<'a>,
    pub end: usize,
    pub lanes: usize,
    /// So many labels may be offered.
    pub labels: u64,
}

/// No more lanes than this.
pub const MOST_LANES: u32 = 8;

/// For so many rows of a level a thread is worth its while.
const ROWS_A_THREAD: usize = 4;

/// How many threads are worth their while for so many rows of a level, with so many lanes.
pub fn threads_for(rows: usize, lanes: usize) -> usize
    ensures { 1 ≤ result }
{
    rows.div_ceil(ROWS_A_THREAD).min(lanes).max(1)
}

/// A lane that has made nothing.
fn new_lane(alloc: Global, rows: usize) -> Result<RowLane, Halt>
    ensures { IfOk result (IsReady rows) }
{
    let pool = LabelPool::new(alloc, rows, 0)?;
    Ok(RowLane {
        pool,
        made: Vec::new(alloc),
        halt: None,
    })
}

/// So many lanes, from 1 to 8, that have made nothing.
pub fn new_lanes(alloc: Global, rows: usize, many: u32) -> Result<Vec<RowLane>, Halt>
    ensures some { IfOk result (λ lanes. 1 ≤ length lanes.items) }
    ensures ready { IfOk result (λ lanes. All (IsReady rows) lanes.items) }
{
    let mut lanes = Vec::new(alloc);
    let first = new_lane(alloc, rows)?;
    lanes.push(first)?;
    for _ in 1..many.min(MOST_LANES) {
        let lane = new_lane(alloc, rows)?;
        lanes.push(lane)?;
    }
    Ok(lanes)
}

/// Makes a row, and notes it.
fn make_row(level: &FrontLevel<'_>, lane: &mut RowLane, row: usize) -> Result<(), Halt>
    requires low { length level.now.fronts.levels.now ≤ row }
    requires rows { row < length level.now.fronts.rows.now }
    requires ready { IsReady (length level.now.fronts.rows.now) lane.old }
    requires made { All (IsMade level.now.fronts) lane.old.made.items }
    requires built { Built level.now.fronts.instance.now level.now.fronts.rows.now
        level.now.fronts.tops.now level.now.fronts.cover level.now.fronts.levels.now }
    ensures ready { OnOk result (IsReady (length level.now.fronts.rows.now) lane.new) }
    ensures made { OnOk result (All (IsMade level.now.fronts) lane.new.made.items) }
{
    let facts = facts_of(level.alloc, &level.fronts, &mut lane.pool, row)?;
    lane.made.push(MadeRow { row, facts })?;
    Ok(())
}

/// Makes the rows of a lane.
fn make_rows(level: &FrontLevel<'_>, number: usize, lane: &mut RowLane) -> Result<(), Halt>
    requires lanes { 1 ≤ level.now.lanes }
    requires end { level.now.end ≤ length level.now.fronts.rows.now }
    requires ready { IsReady (length level.now.fronts.rows.now) lane.old }
    requires built { Built level.now.fronts.instance.now level.now.fronts.rows.now
        level.now.fronts.tops.now level.now.fronts.cover level.now.fronts.levels.now }
    ensures ready { OnOk result (IsReady (length level.now.fronts.rows.now) lane.new) }
    ensures made { OnOk result (All (IsMade level.now.fronts) lane.new.made.items) }
{
    lane.pool.allow(level.labels);
    lane.made.clear();
    let first = level.fronts.levels.len();
    for done in 0..level.end.saturating_sub(first) {
        let row = level.end - 1 - done;
        if (row - first) % level.lanes == number {
            make_row(level, lane, row)?;
        }
    }
    Ok(())
}

/// Makes the rows of a lane, and notes why where it could not.
fn make_lane(level: &FrontLevel<'_>, number: usize, lane: &mut RowLane)
    requires lanes { 1 ≤ level.now.lanes }
    requires end { level.now.end ≤ length level.now.fronts.rows.now }
    requires ready { IsReady (length level.now.fronts.rows.now) lane.old }
    requires built { Built level.now.fronts.instance.now level.now.fronts.rows.now
        level.now.fronts.tops.now level.now.fronts.cover level.now.fronts.levels.now }
    ensures { HasMade level.now.fronts lane.new }
{
    lane.halt = make_rows(level, number, lane).err();
}

/// Makes the rows of a level, each lane its own, in a thread of its own where one can be made and is worth its while.
pub fn make_level<R: Threads + Sync>(rt: &R, level: &FrontLevel<'_>, lanes: &mut [RowLane])
    requires lanes { 1 ≤ level.now.lanes }
    requires end { level.now.end ≤ length level.now.fronts.rows.now }
    requires ready { All (IsReady (length level.now.fronts.rows.now)) lanes.old }
    requires built { Built level.now.fronts.instance.now level.now.fronts.rows.now
        level.now.fronts.tops.now level.now.fronts.cover level.now.fronts.levels.now }
    ensures len { length lanes.new ≡ length lanes.old }
    ensures each { (i : ℕ) (d : LaneOf) → i < length lanes.old
        → HasMade level.now.fronts (slice_index_or lanes.new i d) }
{
    let rows = level.end.saturating_sub(level.fronts.levels.len());
    let threads = threads_for(rows, lanes.len());
    thread::for_each_mut(
        rt,
        lanes,
        threads,
        &|number, lane| { make_lane(level, number, lane) },
    );
}

/// How many labels are left behind those that the lanes have offered, where each has made its rows.
pub fn labels_left(lanes: &[RowLane], labels: u64) -> Result<u64, Halt>
    ensures { IfOk result (λ _. (i : ℕ) (d : LaneOf) → i < length lanes.now
        → (slice_index_or lanes.now i d).halt ≡ None) }
{
    let mut left = labels;
    for lane in lanes {
        if let Some(halt) = lane.halt {
            return Err(halt);
        }
        let offered = labels.saturating_sub(lane.pool.left());
        let Some(rest) = left.checked_sub(offered) else {
            return Err(Halt::Limit);
        };
        left = rest;
    }
    Ok(left)
}

/// The next row that a lane has made.
pub fn pop_made(lanes: &mut [RowLane], number: usize) -> Option<MadeRow>
    requires { number < length lanes.old }
    ensures len { length lanes.new ≡ length lanes.old }
    ensures ready { (rows : ℕ) → All (IsReady rows) lanes.old → All (IsReady rows) lanes.new }
    ensures made { IfSome result (InLanes lanes.old) }
    ensures others { (m : MadeOf) → InLanes lanes.new m → InLanes lanes.old m }
{
    lanes[number].made.pop()
}
