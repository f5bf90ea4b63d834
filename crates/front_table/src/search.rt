//! The search: from each row on by each move, from the row at which it begins down to the first one.

ghost use Rattle.std.specs.Prelude.{◌≡◌, ℕ, ◌+◌, ◌<◌, ◌≤◌, length, All, OnOk};
ghost use Rattle.front_table.specs.Lattice.{LeadDown, moves_at};
ghost use Rattle.front_table.specs.Pools.{GoesOn, Joined, Spreads};

use crate::halt::Halt;
use crate::labels::FrontLabel;
use crate::moves::{Extent, Move};
use crate::pools::{LabelPool, join};
use crate::rows::{FrontRow, moves_of};

/// Goes on from a label of a row by each of the moves.
fn join_all(
    pool: &mut LabelPool,
    row: usize,
    label: &FrontLabel,
    moves: &[Move],
    within: Extent,
) -> Result<(), Halt>
    requires row { row ≤ length pool.old }
    requires down { All (λ m. m.to < row) moves.now }
    ensures spreads { OnOk result (Spreads row pool.old pool.new) }
    ensures joined { OnOk result
        (All (Joined within.along within.across pool.new label.now) moves.now) }
{
    for next in moves {
        join(pool, label, next, within)?;
    }
    Ok(())
}

/// Goes on from each label of a row by each of the moves.
fn grow(pool: &mut LabelPool, row: usize, moves: &[Move], within: Extent) -> Result<(), Halt>
    requires row { row < length pool.old }
    requires down { All (λ m. m.to < row) moves.now }
    ensures spreads { OnOk result (Spreads row pool.old pool.new) }
    ensures goes_on { OnOk result (GoesOn within.along within.across pool.new row moves.now) }
{
    for at in 0..pool.labels(row).len() {
        let label = pool.label(row, at);
        join_all(pool, row, &label, moves, within)?;
    }
    Ok(())
}

/// Goes on from this row, and from each row that comes to have labels.
pub fn spread(
    pool: &mut LabelPool,
    rows: &[FrontRow],
    start: usize,
    within: Extent,
) -> Result<(), Halt>
    requires start { start < length rows.now }
    requires pool { length pool.old ≡ length rows.now }
    requires down { LeadDown rows.now }
    ensures spreads { OnOk result (Spreads start pool.old pool.new) }
    ensures goes_on { OnOk result ((n : ℕ) → n ≤ start
        → GoesOn within.along within.across pool.new n (moves_at rows.now n)) }
{
    for done in 0..start + 1 {
        let row = start - done;
        let low = pool.low();
        if row < low {
            return Ok(());
        }
        grow(pool, row, moves_of(rows, row), within)?;
    }
    Ok(())
}
