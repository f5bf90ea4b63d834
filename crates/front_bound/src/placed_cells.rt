//! Bands around defects: cells one behind the other, each item at one of its least places.

ghost use Rattle.std.specs.Prelude.{◌≡◌, ℕ, ◌+◌, ◌<◌, ◌≤◌, All, IsTrue, length, OnOk};
ghost use Rattle.front_bound.specs.inner.Clear.{Covered};
ghost use Rattle.front_table.specs.Lattice.{LeadDown, moves_at};
ghost use Rattle.front_bound.specs.inner.Placed.{CellJoined, CellsGoOn, CellsPlaced, IsLean};
ghost use Rattle.front_table.specs.Pools.{Spreads, row_at};
ghost use Rattle.front_table.specs.Sets.{HeldTo, Stands};

use crate::places::{Corner, CornerLists, PieceToPlace, least_places};
use crate::stretch::{Sought, Stretch};
use front_table::halt::Halt;
use front_table::labels::FrontLabel;
use front_table::moves::Move;
use front_table::pools::LabelPool;
use front_table::rows::{area_left, glass_of, moves_of};
use front_table::sets::SizeSet;

/// What a search for cells uses again.
#[derive(Drop)]
pub struct CellSpace {
    /// For each row the labels of the cells that lead there.
    pub pool: LabelPool,
    pub lists: CornerLists,
}

/// Offers a label whose last piece lies at a place, or right of it and above it.
fn join_place(
    pool: &mut LabelPool,
    to: usize,
    joined: &FrontLabel,
    piece: &PieceToPlace,
    place: &Corner,
) -> Result<(), Halt>
    requires { to < length pool.old }
    ensures spreads { OnOk result (Spreads (to + 1) pool.old pool.new) }
    ensures held { OnOk result ((x y left low top next : ℕ) → Stands joined.now x y next top
        → place.now.x ≤ left → left + piece.now.wide ≤ next → place.now.y ≤ low
        → low + piece.now.high ≤ top → HeldTo (row_at pool.new to) x y next top) }
{
    let end = u64::from(place.x) + u64::from(piece.wide);
    let label = FrontLabel {
        along: joined.along,
        across: joined.across,
        right: joined.right.meet(&SizeSet::above(end)),
        up: joined.up.max(place.y.saturating_add(piece.high)),
    };
    pool.offer(to, &label)?;
    Ok(())
}

/// Offers a label whose last piece lies at one of the places, or right of it and above it, for each of them.
fn join_places(
    pool: &mut LabelPool,
    to: usize,
    joined: &FrontLabel,
    piece: &PieceToPlace,
    places: &[Corner],
) -> Result<(), Halt>
    requires { to < length pool.old }
    ensures spreads { OnOk result (Spreads (to + 1) pool.old pool.new) }
    ensures held { OnOk result ((x y left low top next : ℕ) → Stands joined.now x y next top
        → Covered places.now left low → left + piece.now.wide ≤ next → low + piece.now.high ≤ top
        → HeldTo (row_at pool.new to) x y next top) }
{
    for place in places {
        join_place(pool, to, joined, piece, place)?;
    }
    Ok(())
}

/// Whether cells that lead to a row, at least so wide in a band at least so high, leave more beside and over them than the band may.
fn is_wasteful(stretch: &Stretch<'_>, sought: &Sought, to: usize, wide: u32, high: u32) -> bool
    ensures { IsTrue result → (x y : ℕ) → wide ≤ x → high ≤ y
        → IsLean stretch.now sought.now to x y → ⊥ }
{
    let used = glass_of(wide, high).saturating_add(area_left(stretch.fronts.rows, to));
    let most = sought
        .slack
        .saturating_add(area_left(stretch.fronts.rows, sought.start));
    if used > most {
        return true;
    }
    false
}

/// Goes on from a label by a cell.
fn join_cell(
    space: &mut CellSpace,
    stretch: &Stretch<'_>,
    sought: &Sought,
    label: &FrontLabel,
    cell: &Move,
) -> Result<(), Halt>
    requires { cell.now.to < length space.old.pool }
    ensures spreads { OnOk result (Spreads (cell.now.to + 1) space.old.pool space.new.pool) }
    ensures joined { OnOk result
        (CellJoined stretch.now sought.now space.new.pool label.now cell.now) }
{
    let site = stretch.site;
    let Some(sum) = label.along.plus(&cell.label.along, site.widest) else {
        return Ok(());
    };
    let shared = label.across.meet(&cell.label.across);
    if shared.least > site.height {
        return Ok(());
    }
    let top = sought.low.saturating_add(shared.least);
    if top > site.height {
        return Ok(());
    }
    if is_wasteful(stretch, sought, cell.to as usize, sum.least, shared.least) {
        return Ok(());
    }
    let Some(beside) = label.right.plus(&cell.label.along, site.room) else {
        return Ok(());
    };
    let piece = PieceToPlace {
        wide: cell.label.along.least,
        high: cell.label.across.least,
        room: site.room,
        height: site.height,
    };
    least_places(
        &mut space.lists,
        stretch.holes,
        &piece,
        label.right.least,
        sought.low,
    )?;
    let joined = FrontLabel {
        along: sum,
        across: shared,
        right: beside.closed(site.waste),
        up: label.up,
    };
    join_places(
        &mut space.pool,
        cell.to as usize,
        &joined,
        &piece,
        space.lists.found.as_slice(),
    )?;
    Ok(())
}

/// Goes on from a label of a row by each of the cells.
fn join_cells(
    space: &mut CellSpace,
    stretch: &Stretch<'_>,
    sought: &Sought,
    row: usize,
    label: &FrontLabel,
    cells: &[Move],
) -> Result<(), Halt>
    requires row { row ≤ length space.old.pool }
    requires down { All (λ m. m.to < row) cells.now }
    ensures spreads { OnOk result (Spreads row space.old.pool space.new.pool) }
    ensures joined { OnOk result (All (CellJoined stretch.now sought.now space.new.pool
        label.now) cells.now) }
{
    for cell in cells {
        join_cell(space, stretch, sought, label, cell)?;
    }
    Ok(())
}

/// Goes on from each label of a row by each of the cells.
fn grow_cells(
    space: &mut CellSpace,
    stretch: &Stretch<'_>,
    sought: &Sought,
    row: usize,
    cells: &[Move],
) -> Result<(), Halt>
    requires row { row < length space.old.pool }
    requires down { All (λ m. m.to < row) cells.now }
    ensures spreads { OnOk result (Spreads row space.old.pool space.new.pool) }
    ensures goes_on { OnOk result (CellsGoOn stretch.now sought.now space.new.pool row cells.now) }
{
    for at in 0..space.pool.labels(row).len() {
        let label = space.pool.label(row, at);
        join_cells(space, stretch, sought, row, &label, cells)?;
    }
    Ok(())
}

/// Goes on from the row at which the bands begin, and from each row that comes to have labels.
fn spread_cells(space: &mut CellSpace, stretch: &Stretch<'_>, sought: &Sought) -> Result<(), Halt>
    requires start { sought.now.start < length stretch.now.fronts.rows.now }
    requires pool { length space.old.pool ≡ length stretch.now.fronts.rows.now }
    requires down { LeadDown stretch.now.fronts.rows.now }
    ensures spreads { OnOk result (Spreads sought.now.start space.old.pool space.new.pool) }
    ensures goes_on { OnOk result ((n : ℕ) → n ≤ sought.now.start
        → CellsGoOn stretch.now sought.now space.new.pool n
        (moves_at stretch.now.fronts.rows.now n)) }
{
    let start = sought.start;
    for done in 0..start + 1 {
        let row = start - done;
        let low = space.pool.low();
        if row < low {
            return Ok(());
        }
        grow_cells(
            space,
            stretch,
            sought,
            row,
            moves_of(stretch.fronts.rows, row),
        )?;
    }
    Ok(())
}

/// All cells of bands of strips that begin where the stretch does.
pub fn cells_from(space: &mut CellSpace, stretch: &Stretch<'_>, sought: &Sought) -> Result<(), Halt>
    requires start { sought.now.start < length stretch.now.fronts.rows.now }
    requires pool { length space.old.pool ≡ length stretch.now.fronts.rows.now }
    requires down { LeadDown stretch.now.fronts.rows.now }
    ensures len { OnOk result (length space.new.pool ≡ length space.old.pool) }
    ensures placed { OnOk result (CellsPlaced stretch.now sought.now space.new.pool) }
{
    space.pool.clear();
    let none = FrontLabel {
        along: SizeSet {
            least: 0,
            more: stretch.site.waste,
        },
        across: SizeSet {
            least: stretch.site.least,
            more: 0,
        },
        right: stretch.site.left,
        up: 0,
    };
    space.pool.offer(sought.start, &none)?;
    spread_cells(space, stretch, sought)?;
    Ok(())
}
