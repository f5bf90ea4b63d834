//! Strips around defects, by one band more.

ghost use Rattle.std.specs.Prelude.{ℕ, ◌+◌, ◌<◌, ◌≤◌, Contains, OnOk, length};
ghost use Rattle.front_table.specs.declared.moves.Move.{Move as MoveOf};
ghost use Rattle.front_table.specs.Levels.{bands_at};
ghost use Rattle.front_bound.specs.inner.Placed.{BandJoined, IsStretch, MoveJoined, RunJoined, RunsJoined, WasteJoined};
ghost use Rattle.front_table.specs.Pools.{Spreads, row_at};

use crate::onward::Onward;
use crate::stretch::Stretch;
use front_table::bands::band_of;
use front_table::halt::Halt;
use front_table::labels::FrontLabel;
use front_table::levels::{bands_of, tails_of};
use front_table::moves::Move;
use front_table::packed::{packed_width, unpacked_at};
use front_table::pools::LabelPool;
use front_table::rows::waste_left;
use front_table::sets::SizeSet;
use front_table::tails::{tail_in, unit_of, units_in};

/// Goes on from a label by a band, where the strip can still end near enough.
fn join_band(
    pool: &mut LabelPool,
    stretch: &Stretch<'_>,
    label: &FrontLabel,
    to: usize,
    band: &FrontLabel,
) -> Result<(), Halt>
    requires pool { to < length pool.old }
    requires levels { to < length stretch.now.fronts.levels.now }
    ensures spreads { OnOk result (Spreads (to + 1) pool.old pool.new) }
    ensures joined { OnOk result (BandJoined stretch.now pool.new label.now to band.now) }
{
    let limits = stretch.limits;
    let Some(sum) = label.along.plus(&band.along, limits.height) else {
        return Ok(());
    };
    let waste = stretch.site.waste;
    let above = sum.closed(waste).meet(&SizeSet::above(u64::from(band.up)));
    if above.least > limits.height {
        return Ok(());
    }
    let shared = label.across.meet(&band.across);
    if shared.least > limits.bound {
        return Ok(());
    }
    let wide = u64::from(shared.least);
    if wide > limits.most {
        return Ok(());
    }
    let right = label.right.meet(&band.right);
    let end = u64::from(right.least);
    if end > stretch.reach {
        return Ok(());
    }
    let left = limits.height - above.least;
    let tails = tails_of(stretch.fronts.levels, to, limits.class);
    let tail = tail_in(tails, units_in(left, unit_of(limits.height)));
    let within = (limits.most - wide).min(stretch.reach - end);
    if tail > within {
        return Ok(());
    }
    let joined = FrontLabel {
        along: above,
        across: shared,
        right,
        up: 0,
    };
    pool.offer(to, &joined)?;
    Ok(())
}

/// Goes on from a label of a row by the band that a run of cells makes, where it leaves no more than it may.
fn join_run(
    pool: &mut LabelPool,
    onward: &Onward<'_>,
    to: usize,
    cells: &FrontLabel,
) -> Result<(), Halt>
    requires pool { to < length pool.old }
    requires levels { to < length onward.now.stretch.now.fronts.levels.now }
    ensures spreads { OnOk result (Spreads (to + 1) pool.old pool.new) }
    ensures joined { OnOk result (RunJoined onward.now.stretch.now pool.new onward.now.row
        onward.now.label.now to cells.now) }
{
    let stretch = onward.stretch;
    let label = onward.label;
    let band = band_of(cells, stretch.site.waste);
    let top = stretch.limits.top;
    let waste = waste_left(stretch.fronts.rows, onward.row, to, top, band.along.least);
    if waste > onward.slack {
        return Ok(());
    }
    join_band(pool, stretch, label, to, &band)?;
    Ok(())
}

/// Goes on from a label of a row by the bands that runs of cells to another row make.
fn join_runs(
    pool: &mut LabelPool,
    onward: &Onward<'_>,
    to: usize,
    runs: &[FrontLabel],
) -> Result<(), Halt>
    requires pool { to < length pool.old }
    requires levels { to < length onward.now.stretch.now.fronts.levels.now }
    ensures spreads { OnOk result (Spreads (to + 1) pool.old pool.new) }
    ensures joined { OnOk result (RunsJoined onward.now.stretch.now pool.new onward.now.row
        onward.now.label.now to runs.now) }
{
    for cells in runs {
        join_run(pool, onward, to, cells)?;
    }
    Ok(())
}

/// Goes on from a label of a row by the bands that all runs of cells make.
pub fn join_rows(pool: &mut LabelPool, onward: &Onward<'_>, cells: &LabelPool) -> Result<(), Halt>
    requires pool { onward.now.row < length pool.old }
    requires cells { onward.now.row < length cells.now }
    requires levels { onward.now.row < length onward.now.stretch.now.fronts.levels.now }
    ensures spreads { OnOk result (Spreads onward.now.row pool.old pool.new) }
    ensures joined { OnOk result ((to : ℕ) → to < onward.now.row
        → RunsJoined onward.now.stretch.now pool.new onward.now.row onward.now.label.now to
        (row_at cells.now to)) }
{
    let low = cells.low();
    for to in low..onward.row {
        join_runs(pool, onward, to, cells.labels(to))?;
    }
    Ok(())
}

/// Goes on from a label of a row by a band that no defect is in the way of.
fn join_move(
    pool: &mut LabelPool,
    stretch: &Stretch<'_>,
    row: usize,
    label: &FrontLabel,
    band: &Move,
) -> Result<(), Halt>
    requires pool { row < length pool.old }
    requires levels { row < length stretch.now.fronts.levels.now }
    ensures spreads { OnOk result (Spreads row pool.old pool.new) }
    ensures joined { OnOk result (MoveJoined stretch.now pool.new row label.now band.now) }
{
    let to = band.to as usize;
    if to >= row {
        return Ok(());
    }
    let free = FrontLabel {
        along: band.label.along,
        across: band.label.across,
        right: SizeSet::all(),
        up: 0,
    };
    join_band(pool, stretch, label, to, &free)?;
    Ok(())
}

/// Goes on from a label of a row by a band that no defect is in the way of, where it leaves no more than it may.
fn join_wasting(pool: &mut LabelPool, onward: &Onward<'_>, band: &Move) -> Result<(), Halt>
    requires pool { onward.now.row < length pool.old }
    requires levels { onward.now.row < length onward.now.stretch.now.fronts.levels.now }
    ensures spreads { OnOk result (Spreads onward.now.row pool.old pool.new) }
    ensures joined { OnOk result (WasteJoined onward.now.stretch.now pool.new onward.now.row
        onward.now.label.now onward.now.slack band.now) }
{
    let stretch = onward.stretch;
    let top = stretch.limits.top;
    let high = band.label.along.least;
    let waste = waste_left(stretch.fronts.rows, onward.row, band.to as usize, top, high);
    if waste > onward.slack {
        return Ok(());
    }
    join_move(pool, stretch, onward.row, onward.label, band)?;
    Ok(())
}

/// Goes on from a label of a row by each band of the row that is no wider than the strips and leaves no more than it may, where no defect is in the way.
pub fn join_moves(pool: &mut LabelPool, onward: &Onward<'_>) -> Result<(), Halt>
    requires pool { onward.now.row < length pool.old }
    requires stretch { IsStretch onward.now.stretch.now }
    ensures spreads { OnOk result (Spreads onward.now.row pool.old pool.new) }
    ensures joined { OnOk result ((m : MoveOf)
        → Contains (bands_at onward.now.stretch.now.fronts.levels.now onward.now.row) m
        → m.label.across.least ≤ onward.now.stretch.now.limits.top
        → WasteJoined onward.now.stretch.now pool.new onward.now.row onward.now.label.now
        onward.now.slack m) }
{
    let stretch = onward.stretch;
    let top = stretch.limits.top;
    let bands = bands_of(stretch.fronts.levels, onward.row);
    for at in 0..bands.len() {
        if packed_width(bands, at) > top {
            return Ok(());
        }
        let band = unpacked_at(bands, at);
        join_wasting(pool, onward, &band)?;
    }
    Ok(())
}
