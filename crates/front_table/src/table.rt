//! The table of all rows: their bands, ends, and what is to go from each, from the last front on.

ghost use Rattle.std.specs.Prelude.{◌≡◌, ℕ, ◌+◌, ◌*◌, ◌<◌, ◌≤◌, All, length, IfOk, OnOk};
ghost use Rattle.front_table.specs.declared.lanes.MadeRow.{MadeRow as MadeOf};
ghost use Rattle.front_table.specs.Lanes.{InLanes, IsReady};
ghost use Rattle.front_table.specs.Ready.{Built, IsKnown, IsLast, IsTable, SameLevel};

use crate::building::{rows_of, shape_of, tops_of};
use crate::fronts::Fronts;
use crate::halt::Halt;
use crate::lanes::{FrontLevel, MadeRow, RowLane, labels_left, make_level, new_lanes, pop_made};
use crate::lattice::is_lattice;
use crate::levels::{RowFacts, push_level, to_go};
use crate::probe::Probe;
use crate::rows::{FrontRow, links_lead_below};
use glass_base::{Instance, Listener, News};
use std::thread::Threads;

/// All fronts, with what is known of them.
#[derive(Drop)]
pub struct FrontTable {
    /// The fronts, from the one at which nothing is left.
    pub rows: Vec<FrontRow>,
    /// For each class of strips the widest, in mm.
    pub tops: Vec<u32>,
    /// What is known of each front.
    pub levels: Vec<RowFacts>,
    /// No strip has more glass than this, in mm².
    pub cover: u64,
}

impl FrontTable {
    ghost use Rattle.front_table.specs.Ready.{AreFronts, IsTable};

    /// The fronts of the instance whose table this is, with all that is known of them.
    pub fn lend<'a>(&'a self, instance: &'a Instance) -> Fronts<'a>
        requires { IsTable instance.now self.now }
        ensures fronts { AreFronts result }
        ensures instance { result.instance.now ≡ instance.now }
    {
        Fronts {
            instance,
            rows: self.rows.as_slice(),
            tops: self.tops.as_slice(),
            levels: self.levels.as_slice(),
            cover: self.cover,
        }
    }
}

/// The first row behind a level, which is of the rows that lead to those of which something is known alone.
fn level_end(fronts: &Fronts<'_>) -> usize
    ensures { result ≤ length fronts.now.rows.now }
{
    let first = fronts.levels.len();
    for row in first..fronts.rows.len() {
        if !links_lead_below(fronts.rows, row, first) {
            return row;
        }
    }
    fronts.rows.len()
}

/// Appends a row that was made.
fn push_made(levels: &mut Vec<RowFacts>, made: MadeRow) -> Result<(), Halt>
    ensures row { OnOk result (made.row ≡ length levels.old.items) }
    ensures len { OnOk result (length levels.new.items ≡ length levels.old.items + 1) }
    ensures same { OnOk result ((n : ℕ) → n < length levels.old.items
        → SameLevel levels.old.items levels.new.items n) }
    ensures new { OnOk result (IsLast levels.new.items (length levels.old.items) made.facts) }
{
    if made.row != levels.len() {
        return Err(Halt::Limit);
    }
    push_level(levels, made.facts)
}

/// Appends the rows of a level that lanes have made.
fn push_level_of(
    fronts: &Fronts<'_>,
    levels: &mut Vec<RowFacts>,
    lanes: &mut [RowLane],
    end: usize,
) -> Result<(), Halt>
    requires some { 1 ≤ length lanes.old }
    requires made { (m : MadeOf) → InLanes lanes.old m → IsKnown fronts.now.instance.now
        fronts.now.rows.now fronts.now.tops.now fronts.now.cover levels.old.items m.row m.facts }
    requires built { Built fronts.now.instance.now fronts.now.rows.now fronts.now.tops.now
        fronts.now.cover levels.old.items }
    ensures len { OnOk result (length lanes.new ≡ length lanes.old) }
    ensures ready { OnOk result ((rows : ℕ) → All (IsReady rows) lanes.old
        → All (IsReady rows) lanes.new) }
    ensures built { OnOk result (Built fronts.now.instance.now fronts.now.rows.now
        fronts.now.tops.now fronts.now.cover levels.new.items) }
{
    let first = levels.len();
    for at in 0..end.saturating_sub(first) {
        let Some(made) = pop_made(lanes, at % lanes.len()) else {
            return Err(Halt::Limit);
        };
        push_made(levels, made)?;
    }
    Ok(())
}

/// Adds the rows of the next level to those of which all is known, and gives how many labels may still be offered.
fn add_level<R: Threads + Sync, L>(
    probe: &Probe<'_, R, L>,
    fronts: &Fronts<'_>,
    levels: &mut Vec<RowFacts>,
    lanes: &mut [RowLane],
    labels: u64,
) -> Result<u64, Halt>
    requires some { 1 ≤ length lanes.old }
    requires ready { All (IsReady (length fronts.now.rows.now)) lanes.old }
    requires built { Built fronts.now.instance.now fronts.now.rows.now fronts.now.tops.now
        fronts.now.cover levels.old.items }
    ensures len { OnOk result (length lanes.new ≡ length lanes.old) }
    ensures ready { OnOk result (All (IsReady (length fronts.now.rows.now)) lanes.new) }
    ensures built { OnOk result (Built fronts.now.instance.now fronts.now.rows.now
        fronts.now.tops.now fronts.now.cover levels.new.items) }
{
    let known = Fronts {
        instance: fronts.instance,
        rows: fronts.rows,
        tops: fronts.tops,
        levels: levels.as_slice(),
        cover: fronts.cover,
    };
    let end = level_end(&known);
    let level = FrontLevel {
        alloc: probe.alloc,
        fronts: known,
        end,
        lanes: lanes.len(),
        labels,
    };
    make_level(probe.rt, &level, lanes);
    let left = labels_left(lanes, labels)?;
    push_level_of(fronts, levels, lanes, end)?;
    Ok(left)
}

/// What is known of all rows.
fn levels_of<R: Threads + Sync, L: Listener>(
    probe: &Probe<'_, R, L>,
    fronts: &Fronts<'_>,
) -> Result<Vec<RowFacts>, Halt>
    ensures len { IfOk result (λ levels. length levels.items ≡ length fronts.now.rows.now) }
    ensures built { IfOk result (λ levels. Built fronts.now.instance.now fronts.now.rows.now
        fronts.now.tops.now fronts.now.cover levels.items) }
{
    let all = fronts.rows.len();
    let mut lanes = new_lanes(probe.alloc, all, probe.threads)?;
    let mut levels = Vec::new(probe.alloc);
    let mut labels = probe.limit;
    for _ in 0..all {
        if levels.len() == all {
            return Ok(levels);
        }
        probe.listener.hear(News::Fronts {
            done: levels.len(),
            all,
        });
        labels = add_level(probe, fronts, &mut levels, lanes.as_mut_slice(), labels)?;
    }
    if levels.len() != all {
        return Err(Halt::Limit);
    }
    Ok(levels)
}

/// All fronts of an instance, with what is known of them, where they count for no more than the limit.
pub fn table_of<R: Threads + Sync, L: Listener>(probe: &Probe<'_, R, L>) -> Result<FrontTable, Halt>
    ensures { IfOk result (IsTable probe.now.instance.now) }
{
    let alloc = probe.alloc;
    let instance = probe.instance;
    let shape = shape_of(alloc, instance, probe.most_fronts())?;
    let rows = rows_of(alloc, instance, &shape)?;
    if !is_lattice(instance, shape.weights.as_slice(), rows.as_slice()) {
        return Err(Halt::Limit);
    }
    let params = instance.params();
    let tops = tops_of(alloc, params)?;
    let cover = u64::from(params.max1) * u64::from(params.height);
    let unknown = Fronts {
        instance,
        rows: rows.as_slice(),
        tops: tops.as_slice(),
        levels: &[],
        cover,
    };
    let levels = levels_of(probe, &unknown)?;
    if levels.is_empty() || to_go(levels.as_slice(), 0) != 0 {
        return Err(Halt::Limit);
    }
    Ok(FrontTable {
        rows,
        tops,
        levels,
        cover,
    })
}
