//! Right sides of strips from the rows of a level, on several threads: each has lists of its own.

ghost use Rattle.std.specs.Prelude.{◌≡◌, ℕ, ◌+◌, ◌<◌, ◌≤◌, All, IfOk, None, OnOk, length, slice_index_or};
ghost use Rattle.front_bound.specs.declared.side_lanes.SideLane.{SideLane as LaneOf};
ghost use Rattle.front_bound.specs.inner.SideLanes.{HasOffered, HasRoom, IsOwn, OwnOffered, RowOffered};
ghost use Rattle.front_bound.specs.Sides.{RowGoesOn};
ghost use Rattle.front_table.specs.Levels.{to_go_at};
ghost use Rattle.front_table.specs.Pools.{HeldAt, Spreads, row_at};
ghost use Rattle.front_table.specs.Sets.{Held};

use crate::begins::begins_of;
use crate::classes::handle_plates;
use crate::nearby::{Space, new_space};
use crate::outset::Outset;
use crate::side_level::SideLevel;
use front_table::halt::Halt;
use front_table::labels::FrontLabel;
use front_table::lanes::{MOST_LANES, threads_for};
use front_table::levels::to_go;
use front_table::pools::LabelPool;
use front_table::rows::FrontRow;
use std::alloc::Global;
use std::thread;
use std::thread::Threads;

/// What one thread works with, and what it has found behind its rows of a level.
#[derive(Drop)]
pub struct SideLane {
    pub space: Space,
    /// Where strips from a row can begin.
    pub begins: Vec<FrontLabel>,
    /// The right sides that it offers, by the row at which their strips end.
    pub offered: LabelPool,
    /// Why it has not worked off all of its rows.
    pub halt: Option<Halt>,
}

/// A lane that has found nothing.
fn new_side_lane(alloc: Global, rows: &[FrontRow]) -> Result<SideLane, Halt>
    ensures { IfOk result (HasRoom rows.now) }
{
    Ok(SideLane {
        space: new_space(alloc, rows, 0)?,
        begins: Vec::new(alloc),
        offered: LabelPool::new(alloc, rows.len(), 0)?,
        halt: None,
    })
}

/// So many lanes, as far as that is of use, and one at least.
pub fn new_side_lanes(alloc: Global, rows: &[FrontRow], many: u32) -> Result<Vec<SideLane>, Halt>
    ensures some { IfOk result (λ lanes. 1 ≤ length lanes.items) }
    ensures room { IfOk result (λ lanes. All (HasRoom rows.now) lanes.items) }
{
    let mut lanes = Vec::new(alloc);
    let first = new_side_lane(alloc, rows)?;
    lanes.push(first)?;
    for _ in 1..many.min(MOST_LANES) {
        let lane = new_side_lane(alloc, rows)?;
        lanes.push(lane)?;
    }
    Ok(lanes)
}

impl SideLane {
    ghost use Rattle.std.specs.Prelude.{List};
    ghost use Rattle.front_table.specs.declared.rows.FrontRow.{FrontRow as RowOf};
    ghost use Rattle.front_bound.specs.inner.SideLanes.{HasRoom};

    /// Forgets what it has offered; in each of its lists so many labels may be looked at from now on.
    fn begin(&mut self, labels: u64)
        ensures { (rows : List RowOf) → HasRoom rows self.old → HasRoom rows self.new }
    {
        self.offered.clear();
        self.offered.allow(labels);
        self.space.strips.allow(labels);
        self.space.near.allow(labels);
        self.space.cells.pool.allow(labels);
    }

    /// How many labels it has looked at since so many might be in each of its lists.
    fn looked_at(&self, labels: u64) -> u64 {
        let offered = labels.saturating_sub(self.offered.left());
        let strips = labels.saturating_sub(self.space.strips.left());
        let near = labels.saturating_sub(self.space.near.left());
        let cells = labels.saturating_sub(self.space.cells.pool.left());
        offered
            .saturating_add(strips)
            .saturating_add(near)
            .saturating_add(cells)
    }
}

/// Offers where the strips from a row end.
fn handle_row(outset: &Outset<'_>, sides: &LabelPool, lane: &mut SideLane) -> Result<(), Halt>
    requires sides { length sides.now ≡ length outset.now.fronts.rows.now }
    requires room { HasRoom outset.now.fronts.rows.now lane.old }
    ensures room { OnOk result (HasRoom outset.now.fronts.rows.now lane.new) }
    ensures spreads { OnOk result (Spreads outset.now.row lane.old.offered lane.new.offered) }
    ensures goes_on { OnOk result
        (RowGoesOn outset.now.fronts.instance.now outset.now.fronts.rows.now
        (to_go_at outset.now.fronts.levels.now) outset.now.most
        (row_at sides.now outset.now.row) lane.new.offered outset.now.row) }
{
    let far = to_go(outset.fronts.levels, outset.row);
    begins_of(
        outset.fronts.instance,
        &mut lane.begins,
        sides.labels(outset.row),
        far,
        outset.most,
    )?;
    handle_plates(
        outset,
        &mut lane.space,
        &mut lane.offered,
        lane.begins.as_slice(),
    )?;
    Ok(())
}

/// Offers where the strips from a row of a level end, where it is one of the lane's.
fn handle_own(
    level: &SideLevel<'_>,
    number: usize,
    lane: &mut SideLane,
    row: usize,
) -> Result<(), Halt>
    requires low { level.now.first ≤ row }
    requires end { row < level.now.end }
    requires room { HasRoom level.now.fronts.rows.now lane.old }
    ensures room { OnOk result (HasRoom level.now.fronts.rows.now lane.new) }
    ensures spreads { OnOk result (Spreads row lane.old.offered lane.new.offered) }
    ensures offered { OnOk result (IsOwn level.now number row → RowOffered level.now lane.new row) }
{
    if (row - level.first) % level.lanes != number {
        return Ok(());
    }
    let outset = Outset {
        fronts: level.fronts,
        row,
        most: level.most,
    };
    handle_row(&outset, level.sides, lane)?;
    Ok(())
}

/// Offers where the strips from the rows of a lane end.
fn handle_rows(level: &SideLevel<'_>, number: usize, lane: &mut SideLane) -> Result<(), Halt>
    requires room { HasRoom level.now.fronts.rows.now lane.old }
    ensures room { OnOk result (HasRoom level.now.fronts.rows.now lane.new) }
    ensures offered { OnOk result (OwnOffered level.now number lane.new level.now.end) }
{
    lane.begin(level.labels);
    for row in level.first..level.end {
        handle_own(level, number, lane, row)?;
    }
    Ok(())
}

/// Offers where the strips from the rows of a lane end, and notes why where it could not.
fn handle_lane(level: &SideLevel<'_>, number: usize, lane: &mut SideLane)
    requires room { HasRoom level.now.fronts.rows.now lane.old }
    ensures { HasOffered level.now number lane.new }
{
    lane.halt = handle_rows(level, number, lane).err();
}

/// From how many rows of a level strips can set out at all.
fn busy_rows(level: &SideLevel<'_>) -> usize {
    let mut busy: usize = 0;
    for row in level.first..level.end {
        if !level.sides.labels(row).is_empty() {
            busy = busy.saturating_add(1);
        }
    }
    busy
}

/// Offers where the strips from the rows of a level end, each lane its own, in a thread of its own where one can be made
/// and is worth its while.
pub fn handle_level<R: Threads + Sync>(rt: &R, level: &SideLevel<'_>, lanes: &mut [SideLane])
    requires room { All (HasRoom level.now.fronts.rows.now) lanes.old }
    ensures len { length lanes.new ≡ length lanes.old }
    ensures each { (i : ℕ) (d : LaneOf) → i < length lanes.old
        → HasOffered level.now i (slice_index_or lanes.new i d) }
{
    let threads = threads_for(busy_rows(level), lanes.len());
    thread::for_each_mut(
        rt,
        lanes,
        threads,
        &|number, lane| { handle_lane(level, number, lane) },
    );
}

/// How many labels are left behind those that the lanes have looked at, where each has worked off its rows.
pub fn labels_left_behind(lanes: &[SideLane], labels: u64) -> Result<u64, Halt>
    ensures { IfOk result (λ _. (i : ℕ) (d : LaneOf) → i < length lanes.now
        → (slice_index_or lanes.now i d).halt ≡ None) }
{
    let mut left = labels;
    for lane in lanes {
        if let Some(halt) = lane.halt {
            return Err(halt);
        }
        let Some(rest) = left.checked_sub(lane.looked_at(labels)) else {
            return Err(Halt::Limit);
        };
        left = rest;
    }
    Ok(left)
}

/// Adds right sides to those of a row.
fn join_row(sides: &mut LabelPool, row: usize, offered: &[FrontLabel]) -> Result<(), Halt>
    requires { row < length sides.old }
    ensures spreads { OnOk result (Spreads (row + 1) sides.old sides.new) }
    ensures held { OnOk result ((x y : ℕ) → Held offered.now x y → HeldAt sides.new row x y) }
{
    for side in offered {
        sides.offer(row, side)?;
    }
    Ok(())
}

/// Adds right sides that a lane has offered, all of which are at rows below one.
fn join_sides(sides: &mut LabelPool, offered: &LabelPool, below: usize) -> Result<(), Halt>
    requires len { length offered.now ≡ length sides.old }
    requires below { below ≤ length sides.old }
    ensures spreads { OnOk result (Spreads below sides.old sides.new) }
    ensures held { OnOk result ((n x y : ℕ) → HeldAt offered.now n x y → HeldAt sides.new n x y) }
{
    // (a strip that ends within the level would have to set out again from there)
    if !offered.ends_before(below) {
        return Err(Halt::Limit);
    }
    for row in offered.low()..below {
        join_row(sides, row, offered.labels(row))?;
    }
    Ok(())
}

/// Adds the right sides that lanes have offered, all of which are at rows below one.
pub fn join_lanes(sides: &mut LabelPool, lanes: &[SideLane], below: usize) -> Result<(), Halt>
    requires len { All (λ lane. length lane.offered ≡ length sides.old) lanes.now }
    requires below { below ≤ length sides.old }
    ensures spreads { OnOk result (Spreads below sides.old sides.new) }
    ensures held { OnOk result ((i : ℕ) (d : LaneOf) → i < length lanes.now → (n x y : ℕ)
        → HeldAt (slice_index_or lanes.now i d).offered n x y → HeldAt sides.new n x y) }
{
    for lane in lanes {
        join_sides(sides, &lane.offered, below)?;
    }
    Ok(())
}
