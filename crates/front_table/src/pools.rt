//! Labels by the row of the front that they lead to, in lists that are used again.

ghost use Rattle.std.specs.Prelude.{◌≡◌, ℕ, ◌+◌, ◌<◌, ◌≤◌, [], length, map, slice_index_or, IsTrue, OnOk, IfOk};
ghost use Rattle.front_table.specs.Pools.{HeldAt, IsSpan, Joined, Spreads, row_at};
ghost use Rattle.front_table.specs.Sets.{Fits, HeldTo, Stands};

use crate::halt::Halt;
use crate::labels::{FrontLabel, offer, sort_by_least, sort_by_plate};
use crate::moves::{Extent, Move};
use crate::sets::SizeSet;
use std::alloc::Global;
use std::marker::Model;

/// For each row the labels that lead there.
#[derive(Drop)]
pub struct LabelPool {
    rows: Vec<Vec<FrontLabel>>,
    /// Rows before `low`, and those behind `last`, have no labels: a search comes to few of all rows.
    low: usize,
    last: usize,
    /// How many labels may still be offered.
    left: u64,
}

impl Model for LabelPool {
    ghost use Rattle.std.specs.Prelude.{List, map};
    ghost use Rattle.front_table.specs.declared.labels.FrontLabel.{FrontLabel as LabelOf};
    ghost use Rattle.front_table.specs.Pools.{IsSpan};

    ghost Value = { List (List LabelOf) };

    ghost view = { λ p. map (λ row. row.items) p.rows.items };

    ghost invariant = { λ p. IsSpan p.low p.last (map (λ row. row.items) p.rows.items) };
}

/// Takes the labels of each of the rows between two away, where the others have none.
fn clear_rows(rows: &mut Vec<Vec<FrontLabel>>, low: usize, last: usize)
    requires { IsSpan low last (map (λ row. row.items) rows.old.items) }
    ensures len { length rows.new.items ≡ length rows.old.items }
    ensures empty { (n : ℕ) → row_at (map (λ row. row.items) rows.new.items) n ≡ [] }
{
    for row in low..rows.len() {
        if row > last {
            return;
        }
        rows[row].clear();
    }
}

impl LabelPool {
    /// So many rows with no label. No more labels than `limit` can be offered.
    pub fn new(alloc: Global, rows: usize, limit: u64) -> Result<LabelPool, Halt>
        ensures { IfOk result (λ pool. length pool ≡ rows) }
    {
        let mut all = Vec::new(alloc);
        for _ in 0..rows {
            all.push(Vec::new(alloc))?;
        }
        Ok(LabelPool {
            rows: all,
            low: 0,
            last: rows,
            left: limit,
        })
    }

    /// How many rows there are.
    pub fn len(&self) -> usize
        ensures { result ≡ length self.now }
    {
        self.rows.len()
    }

    /// So many labels may be offered from now on.
    pub fn allow(&mut self, labels: u64)
        ensures { self.new ≡ self.old }
    {
        self.left = labels;
    }

    /// How many labels may still be offered.
    pub fn left(&self) -> u64 {
        self.left
    }

    /// A row before which none has labels.
    pub fn low(&self) -> usize
        ensures { (n : ℕ) → n < result → row_at self.now n ≡ [] }
    {
        self.low
    }

    /// Whether no row from one on has labels; `false` says nothing.
    pub fn ends_before(&self, row: usize) -> bool
        ensures { IsTrue result → (n : ℕ) → row ≤ n → row_at self.now n ≡ [] }
    {
        self.last < row
    }

    /// The labels that lead to a row.
    pub fn labels(&self, row: usize) -> &[FrontLabel]
        requires { row < length self.now }
        ensures { result.now ≡ row_at self.now row }
    {
        self.rows[row].as_slice()
    }

    /// One of the labels that lead to a row.
    pub fn label(&self, row: usize, at: usize) -> FrontLabel
        requires row { row < length self.now }
        requires at { at < length (row_at self.now row) }
        ensures { result ≡ slice_index_or (row_at self.now row) at result }
    {
        self.labels(row)[at]
    }

    /// Adds a label to a row, unless one that is there covers it.
    pub fn offer(&mut self, row: usize, label: &FrontLabel) -> Result<(), Halt>
        requires { row < length self.old }
        ensures spreads { OnOk result (Spreads (row + 1) self.old self.new) }
        ensures stands { OnOk result ((x y right up : ℕ) → Stands label.now x y right up
            → HeldTo (row_at self.new row) x y right up) }
        ensures held { OnOk result ((x y : ℕ) → Fits label.now x y → HeldAt self.new row x y) }
    {
        if self.left == 0 {
            return Err(Halt::Limit);
        }
        self.left -= 1;
        self.low = self.low.min(row);
        self.last = self.last.max(row);
        offer(&mut self.rows[row], label)?;
        Ok(())
    }

    /// Puts the labels of a row in the order of their least sizes along.
    pub fn sort(&mut self, row: usize)
        requires { row < length self.old }
        ensures { Spreads (row + 1) self.old self.new }
    {
        self.low = self.low.min(row);
        self.last = self.last.max(row);
        sort_by_least(&mut self.rows[row]);
    }

    /// Puts the labels of a row, which are right sides, in the order of their plates.
    pub fn sort_by_plate(&mut self, row: usize)
        requires { row < length self.old }
        ensures { Spreads (row + 1) self.old self.new }
    {
        self.low = self.low.min(row);
        self.last = self.last.max(row);
        sort_by_plate(&mut self.rows[row]);
    }

    /// Takes the labels of each row away.
    pub fn clear(&mut self)
        ensures { length self.new ≡ length self.old }
    {
        clear_rows(&mut self.rows, self.low, self.last);
        self.low = self.rows.len();
        self.last = 0;
    }
}

/// Goes on from a label by a move, as far as the sizes stay within these.
pub fn join(
    pool: &mut LabelPool,
    label: &FrontLabel,
    next: &Move,
    within: Extent,
) -> Result<(), Halt>
    requires { next.now.to < length pool.old }
    ensures spreads { OnOk result (Spreads (next.now.to + 1) pool.old pool.new) }
    ensures joined { OnOk result (Joined within.along within.across pool.new label.now next.now) }
{
    let Some(sum) = label.along.plus(&next.label.along, within.along) else {
        return Ok(());
    };
    let shared = label.across.meet(&next.label.across);
    if shared.least > within.across {
        return Ok(());
    }
    let joined = FrontLabel {
        along: sum,
        across: shared,
        right: SizeSet::all(),
        up: 0,
    };
    pool.offer(next.to as usize, &joined)?;
    Ok(())
}
