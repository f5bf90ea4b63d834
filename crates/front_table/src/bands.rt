//! All bands from a front on.

ghost use Rattle.std.specs.Prelude.{◌≡◌, ℕ, ◌<◌, ◌≤◌, Contains, IsTrue, length, slice_index_or, OnOk, IfOk};
ghost use Rattle.front_table.specs.declared.moves.Move.{Move as MoveOf};
ghost use Rattle.front_table.specs.Lattice.{Led};
ghost use Rattle.front_table.specs.Leads.{BandsLead};
ghost use Rattle.front_table.specs.Pools.{HeldAt};
ghost use Rattle.front_table.specs.Sets.{Fits, Held};
ghost use Rattle.front_table.specs.Widths.{Rises, wide_in};

use crate::fronts::Fronts;
use crate::halt::Halt;
use crate::labels::{FrontLabel, offer};
use crate::moves::{Extent, Move};
use crate::pools::LabelPool;
use crate::search::spread;
use crate::sets::SizeSet;
use std::alloc::Global;

/// What cells one behind the other are as a band of a strip: along is its height, across the width of the strip.
pub fn band_of(cells: &FrontLabel, waste: u32) -> FrontLabel
    ensures sizes { (x y : ℕ) → Fits cells.now x y → Fits result y x }
    ensures right { result.right ≡ cells.now.right }
    ensures up { result.up ≡ cells.now.up }
{
    FrontLabel {
        // where bands are added up, a gap may follow each of them
        along: SizeSet {
            least: cells.across.least,
            more: cells.across.more.min(waste),
        },
        across: cells.along,
        right: cells.right,
        up: cells.up,
    }
}

/// Offers each run of cells as a band.
fn offer_bands(labels: &[FrontLabel], waste: u32, thinned: &mut Vec<FrontLabel>) -> Result<(), Halt>
    ensures { OnOk result ((x y : ℕ) → Held labels.now x y → Held thinned.new.items y x) }
{
    for label in labels {
        offer(thinned, &band_of(label, waste))?;
    }
    Ok(())
}

/// Appends labels as moves to a row.
fn append(moves: &mut Vec<Move>, labels: &[FrontLabel], to: u32) -> Result<(), Halt>
    ensures kept { OnOk result ((m : MoveOf) → Contains moves.old.items m
        → Contains moves.new.items m) }
    ensures new { OnOk result ((x y : ℕ) → Held labels.now x y → Led moves.new.items to x y) }
{
    for label in labels {
        moves.push(Move { to, label: *label })?;
    }
    Ok(())
}

/// Appends the bands that end at a row.
fn append_bands(
    bands: &mut Vec<Move>,
    thinned: &mut Vec<FrontLabel>,
    labels: &[FrontLabel],
    row: usize,
    waste: u32,
) -> Result<(), Halt>
    ensures kept { OnOk result ((m : MoveOf) → Contains bands.old.items m
        → Contains bands.new.items m) }
    ensures new { OnOk result ((x y : ℕ) → Held labels.now x y → Led bands.new.items row y x) }
{
    let Ok(to) = u32::try_from(row) else {
        return Err(Halt::Limit);
    };
    thinned.clear();
    offer_bands(labels, waste, thinned)?;
    append(bands, thinned.as_slice(), to)
}

/// The bands that runs of cells from a row on make.
fn gather(alloc: Global, pool: &LabelPool, start: usize, waste: u32) -> Result<Vec<Move>, Halt>
    requires { start < length pool.now }
    ensures { IfOk result (λ bands. (n x y : ℕ) → n < start → HeldAt pool.now n x y
        → Led bands.items n y x) }
{
    let mut bands = Vec::new(alloc);
    let mut thinned = Vec::new(alloc);
    let low = pool.low();
    for row in low..start {
        append_bands(&mut bands, &mut thinned, pool.labels(row), row, waste)?;
    }
    Ok(bands)
}

/// The least width of the strips of the band at a place.
pub(crate) fn wide_at(bands: &[Move], at: usize) -> u32
    requires { at < length bands.now }
    ensures { result ≡ wide_in bands.now at }
{
    bands[at].label.across.least
}

/// The band at a place.
pub(crate) fn band_at(bands: &[Move], at: usize) -> Move
    requires { at < length bands.now }
    ensures { result ≡ slice_index_or bands.now at result }
{
    bands[at]
}

/// Whether the widths rise.
fn rises(bands: &[Move]) -> bool
    ensures { IsTrue result → Rises bands.now }
{
    for at in 1..bands.len() {
        if wide_at(bands, at - 1) > wide_at(bands, at) {
            return false;
        }
    }
    true
}

/// Puts bands in the order of their widths: so those that are no wider than strips of a class stand side by side.
fn sort_by_width(bands: &mut Vec<Move>) -> Result<(), Halt>
    ensures kept { OnOk result ((n x y : ℕ) → Led bands.old.items n x y → Led bands.new.items n x y) }
    ensures rises { OnOk result (Rises bands.new.items) }
{
    bands.sort_unstable_by_key(|band| band.label.across.least);
    if !rises(bands.as_slice()) {
        return Err(Halt::Limit);
    }
    Ok(())
}

/// All bands from a row on, by rising width: along is the height of a band, across the width of its strip.
pub fn bands_from(
    alloc: Global,
    fronts: &Fronts<'_>,
    pool: &mut LabelPool,
    start: usize,
) -> Result<Vec<Move>, Halt>
    requires start { start < length fronts.now.rows.now }
    requires pool { length pool.old ≡ length fronts.now.rows.now }
    ensures len { OnOk result (length pool.new ≡ length pool.old) }
    ensures bands { IfOk result (λ bands. BandsLead fronts.now.instance.now fronts.now.rows.now
        start bands.items) }
    ensures rises { IfOk result (λ bands. Rises bands.items) }
{
    let params = fronts.instance.params();
    pool.clear();
    let none = FrontLabel {
        along: SizeSet {
            least: 0,
            more: params.waste,
        },
        across: SizeSet {
            least: params.min2,
            more: 0,
        },
        right: SizeSet::all(),
        up: 0,
    };
    pool.offer(start, &none)?;
    let within = Extent {
        along: params.max1,
        across: params.height,
    };
    spread(pool, fronts.rows, start, within)?;
    let mut bands = gather(alloc, pool, start, params.waste)?;
    sort_by_width(&mut bands)?;
    Ok(bands)
}
