//! The search for strips whose items have places around defects.

ghost use Rattle.std.specs.Prelude.{◌≡◌, ℕ, ◌+◌, ◌<◌, ◌≤◌, ◌⊎◌, IfOk, IfSome, OnOk, length};
ghost use Rattle.front_bound.specs.inner.Placed.{AreCells, Extended, IsStretch, RowPlaced};
ghost use Rattle.front_table.specs.Pools.{Spreads, row_at};
ghost use Rattle.front_table.specs.Sets.{Has, HeldTo};
ghost use Rattle.plan_trace.specs.TraceRules.{Gap};

use crate::onward::Onward;
use crate::placed_bands::{join_moves, join_rows};
use crate::placed_cells::{CellSpace, cells_from};
use crate::slack::{most_slack, slack_of};
use crate::stretch::{Sought, Stretch};
use front_table::halt::Halt;
use front_table::labels::FrontLabel;
use front_table::pools::LabelPool;
use front_table::sets::SizeSet;
use glass_base::Defect;

/// Cells above a label that leave no more than this: those that were made before, where they serve, or all anew, for all labels with the same least place.
fn cells_above(
    cells: &mut CellSpace,
    onward: &Onward<'_>,
    labels: &[FrontLabel],
    made: Option<Sought>,
) -> Result<Sought, Halt>
    requires cells { length cells.old.pool ≡ length onward.now.stretch.now.fronts.rows.now }
    requires stretch { IsStretch onward.now.stretch.now }
    requires made { IfSome made (AreCells onward.now.stretch.now onward.now.row cells.old.pool) }
    ensures len { OnOk result (length cells.new.pool ≡ length cells.old.pool) }
    ensures are { IfOk result (AreCells onward.now.stretch.now onward.now.row cells.new.pool) }
    ensures low { IfOk result (λ s. s.low ≤ onward.now.label.now.along.least) }
    ensures slack { IfOk result (λ s. onward.now.slack ≤ s.slack) }
{
    let stretch = onward.stretch;
    let row = onward.row;
    let low = onward.label.along.least;
    let slack = onward.slack;
    match made {
        Some(old) => {
            if old.low == low && slack <= old.slack {
                return Ok(old);
            }
        }
        None => {}
    }
    let sought = Sought {
        start: row,
        low,
        slack: most_slack(stretch, row, labels, low, slack),
    };
    cells_from(cells, stretch, &sought)?;
    Ok(sought)
}

/// Whether one of the defects reaches above a height.
fn is_below(holes: &[Defect], low: u32) -> bool {
    for hole in holes {
        if hole.y1 > low {
            return true;
        }
    }
    false
}

/// Goes on from a label of a row by each band from there on.
fn extend_freely(pool: &mut LabelPool, onward: &Onward<'_>) -> Result<(), Halt>
    requires pool { onward.now.row < length pool.old }
    requires stretch { IsStretch onward.now.stretch.now }
    ensures spreads { OnOk result (Spreads onward.now.row pool.old pool.new) }
    ensures extended { OnOk result (Extended onward.now.stretch.now pool.new onward.now.row
        onward.now.label.now) }
{
    join_moves(pool, onward)?;
    Ok(())
}

/// Goes on from a label of a row by each band whose items have places.
fn extend_around(
    pool: &mut LabelPool,
    cells: &mut CellSpace,
    onward: &Onward<'_>,
    made: Option<Sought>,
) -> Result<Sought, Halt>
    requires pool { onward.now.row < length pool.old }
    requires cells { length cells.old.pool ≡ length onward.now.stretch.now.fronts.rows.now }
    requires stretch { IsStretch onward.now.stretch.now }
    requires made { IfSome made (AreCells onward.now.stretch.now onward.now.row cells.old.pool) }
    ensures len { OnOk result (length cells.new.pool ≡ length cells.old.pool) }
    ensures are { IfOk result (AreCells onward.now.stretch.now onward.now.row cells.new.pool) }
    ensures spreads { OnOk result (Spreads onward.now.row pool.old pool.new) }
    ensures extended { OnOk result (Extended onward.now.stretch.now pool.new onward.now.row
        onward.now.label.now) }
{
    let sought = cells_above(cells, onward, pool.labels(onward.row), made)?;
    join_rows(pool, onward, &cells.pool)?;
    Ok(sought)
}

/// Goes on from a label of a row by each band. `made` are the cells that were made before, and then those that are made now.
fn extend(
    pool: &mut LabelPool,
    cells: &mut CellSpace,
    stretch: &Stretch<'_>,
    row: usize,
    label: &FrontLabel,
    made: Option<Sought>,
) -> Result<Option<Sought>, Halt>
    requires pool { row < length pool.old }
    requires row { row < length stretch.now.fronts.rows.now }
    requires cells { length cells.old.pool ≡ length stretch.now.fronts.rows.now }
    requires stretch { IsStretch stretch.now }
    requires made { IfSome made (AreCells stretch.now row cells.old.pool) }
    ensures len { OnOk result (length cells.new.pool ≡ length cells.old.pool) }
    ensures made { IfOk result (λ after. IfSome after (AreCells stretch.now row cells.new.pool)) }
    ensures spreads { OnOk result (Spreads row pool.old pool.new) }
    ensures extended { OnOk result (Extended stretch.now pool.new row label.now) }
{
    let Some(slack) = slack_of(stretch, row, label) else {
        return Ok(made);
    };
    let onward = Onward {
        stretch,
        row,
        label,
        slack,
    };
    // (further on defects are looked at only where one is near: elsewhere the bands of the table serve)
    if !is_below(stretch.near, label.along.least) {
        extend_freely(pool, &onward)?;
        return Ok(made);
    }
    let sought = extend_around(pool, cells, &onward, made)?;
    Ok(Some(sought))
}

/// Goes on from each label of a row by each band.
fn extend_row(
    pool: &mut LabelPool,
    cells: &mut CellSpace,
    stretch: &Stretch<'_>,
    row: usize,
) -> Result<(), Halt>
    requires pool { row < length pool.old }
    requires row { row < length stretch.now.fronts.rows.now }
    requires cells { length cells.old.pool ≡ length stretch.now.fronts.rows.now }
    requires stretch { IsStretch stretch.now }
    ensures len { OnOk result (length cells.new.pool ≡ length cells.old.pool) }
    ensures spreads { OnOk result (Spreads (row + 1) pool.old pool.new) }
    ensures placed { OnOk result (RowPlaced stretch.now pool.new row) }
{
    // (those with the same least place come one behind the other, so that cells that are made serve for all of them)
    pool.sort(row);
    let mut made = None;
    for at in 0..pool.labels(row).len() {
        let label = pool.label(row, at);
        let next = extend(pool, cells, stretch, row, &label, made)?;
        made = next;
    }
    Ok(())
}

/// All strips from a row on that begin at a place, are at least `low` wide and within the limits.
pub fn placed_from(
    pool: &mut LabelPool,
    cells: &mut CellSpace,
    stretch: &Stretch<'_>,
    start: usize,
    low: u32,
) -> Result<(), Halt>
    requires start { start < length stretch.now.fronts.rows.now }
    requires pool { start < length pool.old }
    requires cells { length cells.old.pool ≡ length stretch.now.fronts.rows.now }
    requires stretch { IsStretch stretch.now }
    ensures cells { OnOk result (length cells.new.pool ≡ length cells.old.pool) }
    ensures len { OnOk result (length pool.new ≡ length pool.old) }
    ensures begun { OnOk result ((at left w : ℕ) → Gap stretch.now.site.waste 0 at → low ≤ w
        → Has stretch.now.site.left left → HeldTo (row_at pool.new start) at w (left + w) 0) }
    ensures placed { OnOk result ((n : ℕ) → n ≤ start → RowPlaced stretch.now pool.new n) }
{
    pool.clear();
    let none = FrontLabel {
        along: SizeSet {
            least: 0,
            more: stretch.site.waste,
        },
        across: SizeSet {
            least: low,
            more: 0,
        },
        right: SizeSet::above(u64::from(stretch.site.left.least) + u64::from(low)),
        up: 0,
    };
    pool.offer(start, &none)?;
    for done in 0..start + 1 {
        let row = start - done;
        let first = pool.low();
        if row < first {
            return Ok(());
        }
        extend_row(pool, cells, stretch, row)?;
    }
    Ok(())
}
