//! The search for strips: from each row on by each band, as far as the strip can still end near enough.

ghost use Rattle.std.specs.Prelude.{◌≡◌, ℕ, ◌+◌, ◌*◌, ◌-◌, ◌<◌, ◌≤◌, Contains, length, OnOk};
ghost use Rattle.front_table.specs.declared.moves.Move.{Move as MoveOf};
ghost use Rattle.front_table.specs.Ends.{Falls};
ghost use Rattle.front_table.specs.Levels.{bands_at, ends_at};
ghost use Rattle.front_table.specs.Packed.{unpacked_all};
ghost use Rattle.front_table.specs.Pools.{HeldAt, Spreads};
ghost use Rattle.front_table.specs.Sets.{Has};
ghost use Rattle.front_table.specs.Tries.{BandTried, Extended, ExtendedBy, RowExtended, Searchable, Tried};
ghost use Rattle.front_table.specs.Widths.{Rises};

use crate::ends::{End, near};
use crate::fronts::Fronts;
use crate::halt::Halt;
use crate::labels::FrontLabel;
use crate::levels::{RowFacts, bands_of, ends_of, tails_of};
use crate::moves::Move;
use crate::packed::{PackedBand, packed_width, unpacked_at};
use crate::pools::LabelPool;
use crate::rows::waste_left;
use crate::sets::SizeSet;
use crate::tails::{tail_in, unit_of, units_in};

/// Which strips a search looks for.
#[derive(Clone, Copy)]
pub struct Limits {
    /// The class of their widths, and the widest of it, in mm.
    pub class: usize,
    pub top: u32,
    /// They are no wider than this, in mm.
    pub bound: u32,
    /// The height of the plates, in mm.
    pub height: u32,
    /// Their width and what is to go behind them is no more than this, in mm.
    pub most: u64,
}

/// The strips from a row on that are looked for.
#[derive(Clone, Copy)]
pub struct StripSearch<'a> {
    pub fronts: Fronts<'a>,
    pub limits: Limits,
    /// The row.
    pub start: usize,
}

/// The glass of this width above what is used of a height, in mm².
pub fn glass_above(width: u32, height: u32, used: u32) -> u64
    ensures { result ≡ width * (height - used) }
{
    u64::from(width) * u64::from(height.saturating_sub(used))
}

/// Goes on from a label by a band, where the strip can still end near enough.
fn try_band(
    pool: &mut LabelPool,
    search: &StripSearch<'_>,
    label: &FrontLabel,
    band: &Move,
) -> Result<(), Halt>
    requires pool { band.now.to < length pool.old }
    requires levels { band.now.to < length search.now.fronts.levels.now }
    ensures spreads { OnOk result (Spreads (band.now.to + 1) pool.old pool.new) }
    ensures tried { OnOk result
        (Tried search.now.fronts.levels.now search.now.limits pool.new label.now band.now) }
{
    let limits = search.limits;
    let Some(sum) = label.along.plus(&band.label.along, limits.height) else {
        return Ok(());
    };
    let shared = label.across.meet(&band.label.across);
    if shared.least > limits.bound {
        return Ok(());
    }
    if u64::from(shared.least) > limits.most {
        return Ok(());
    }
    let left = limits.height.saturating_sub(sum.least);
    let tails = tails_of(search.fronts.levels, band.to as usize, limits.class);
    let tail = tail_in(tails, units_in(left, unit_of(limits.height)));
    if tail > limits.most - u64::from(shared.least) {
        return Ok(());
    }
    let joined = FrontLabel {
        along: sum,
        across: shared,
        right: SizeSet::all(),
        up: 0,
    };
    pool.offer(band.to as usize, &joined)?;
    Ok(())
}

/// A row as a search sees it.
#[derive(Clone, Copy)]
struct RowView<'a> {
    row: usize,
    /// Its bands lead below this row.
    below: usize,
    bands: &'a [PackedBand],
    /// Where strips from it on can end.
    ends: &'a [End],
}

/// A label of a row from which bands are tried, and how much they may leave beside and over their cells in the widest of the strips, in mm².
#[derive(Clone, Copy)]
struct Extension<'a> {
    search: &'a StripSearch<'a>,
    view: RowView<'a>,
    label: &'a FrontLabel,
    slack: u64,
}

/// Goes on by a band, where it leads down and leaves no more than it may.
fn try_move(pool: &mut LabelPool, extension: &Extension<'_>, band: &Move) -> Result<(), Halt>
    requires pool { extension.now.view.row < length pool.old }
    requires below { extension.now.view.below ≤ extension.now.view.row }
    requires levels { extension.now.view.below ≤ length extension.now.search.now.fronts.levels.now }
    ensures spreads { OnOk result (Spreads extension.now.view.below pool.old pool.new) }
    ensures tried { OnOk result (BandTried extension.now.search.now.fronts.rows.now
        extension.now.search.now.fronts.levels.now extension.now.search.now.limits pool.new
        extension.now.view.row extension.now.view.below extension.now.label.now
        extension.now.slack band.now) }
{
    let search = extension.search;
    let row = extension.view.row;
    let to = band.to as usize;
    if to >= extension.view.below {
        return Ok(());
    }
    let high = band.label.along.least;
    let waste = waste_left(search.fronts.rows, row, to, search.limits.top, high);
    if waste > extension.slack {
        return Ok(());
    }
    try_band(pool, search, extension.label, band)?;
    Ok(())
}

/// Goes on by each band that is no wider than the strips and leaves no more than it may.
fn try_moves(pool: &mut LabelPool, extension: &Extension<'_>) -> Result<(), Halt>
    requires pool { extension.now.view.row < length pool.old }
    requires below { extension.now.view.below ≤ extension.now.view.row }
    requires levels { extension.now.view.below ≤ length extension.now.search.now.fronts.levels.now }
    requires rises { Rises (unpacked_all extension.now.view.bands.now) }
    ensures spreads { OnOk result (Spreads extension.now.view.below pool.old pool.new) }
    ensures tried { OnOk result ((m : MoveOf)
        → Contains (unpacked_all extension.now.view.bands.now) m
        → m.label.across.least ≤ extension.now.search.now.limits.top
        → BandTried extension.now.search.now.fronts.rows.now
        extension.now.search.now.fronts.levels.now extension.now.search.now.limits pool.new
        extension.now.view.row extension.now.view.below extension.now.label.now
        extension.now.slack m) }
{
    let bands = extension.view.bands;
    let top = extension.search.limits.top;
    for at in 0..bands.len() {
        if packed_width(bands, at) > top {
            return Ok(());
        }
        let band = unpacked_at(bands, at);
        try_move(pool, extension, &band)?;
    }
    Ok(())
}

/// Goes on from a label of a row by each band.
fn extend(
    pool: &mut LabelPool,
    search: &StripSearch<'_>,
    view: &RowView<'_>,
    label: &FrontLabel,
) -> Result<(), Halt>
    requires pool { view.now.row < length pool.old }
    requires below { view.now.below ≤ view.now.row }
    requires levels { view.now.below ≤ length search.now.fronts.levels.now }
    requires bound { search.now.limits.bound ≤ search.now.limits.top }
    requires rises { Rises (unpacked_all view.now.bands.now) }
    requires falls { Falls view.now.ends.now }
    ensures spreads { OnOk result (Spreads view.now.below pool.old pool.new) }
    ensures extended { OnOk result (Extended search.now.fronts.rows.now
        search.now.fronts.levels.now search.now.limits pool.new view.now.row view.now.below
        (unpacked_all view.now.bands.now) view.now.ends.now label.now) }
{
    let limits = search.limits;
    if u64::from(label.across.least) > limits.most {
        return Ok(());
    }
    let within = limits.most - u64::from(label.across.least);
    let Some(area) = near(view.ends, within) else {
        return Ok(());
    };
    let whole = glass_above(limits.top, limits.height, label.along.least);
    if whole < area {
        return Ok(());
    }
    let extension = Extension {
        search,
        view: *view,
        label,
        slack: whole - area,
    };
    try_moves(pool, &extension)?;
    Ok(())
}

/// Goes on from each label of a row by each band.
fn extend_row(
    pool: &mut LabelPool,
    search: &StripSearch<'_>,
    view: &RowView<'_>,
) -> Result<(), Halt>
    requires pool { view.now.row < length pool.old }
    requires below { view.now.below ≤ view.now.row }
    requires levels { view.now.below ≤ length search.now.fronts.levels.now }
    requires bound { search.now.limits.bound ≤ search.now.limits.top }
    requires rises { Rises (unpacked_all view.now.bands.now) }
    requires falls { Falls view.now.ends.now }
    ensures spreads { OnOk result (Spreads view.now.below pool.old pool.new) }
    ensures extended { OnOk result (ExtendedBy search.now.fronts.rows.now
        search.now.fronts.levels.now search.now.limits pool.new view.now.row view.now.below
        (unpacked_all view.now.bands.now) view.now.ends.now) }
{
    for at in 0..pool.labels(view.row).len() {
        let label = pool.label(view.row, at);
        extend(pool, search, view, &label)?;
    }
    Ok(())
}

/// Goes on from each label of a row of which all is known by each band.
fn extend_known(pool: &mut LabelPool, search: &StripSearch<'_>, row: usize) -> Result<(), Halt>
    requires pool { row < length pool.old }
    requires levels { row < length search.now.fronts.levels.now }
    requires bound { search.now.limits.bound ≤ search.now.limits.top }
    requires rises { Rises (bands_at search.now.fronts.levels.now row) }
    requires falls { Falls (ends_at search.now.fronts.levels.now row) }
    ensures spreads { OnOk result (Spreads row pool.old pool.new) }
    ensures extended { OnOk result (RowExtended search.now.fronts.rows.now
        search.now.fronts.levels.now search.now.limits pool.new row) }
{
    let levels = search.fronts.levels;
    let view = RowView {
        row,
        below: row,
        bands: bands_of(levels, row),
        ends: ends_of(levels, row),
    };
    extend_row(pool, search, &view)?;
    Ok(())
}

/// Begins with no band, at a row.
fn begin(pool: &mut LabelPool, row: usize, low: u32, waste: u32) -> Result<(), Halt>
    requires row { row < length pool.old }
    ensures len { OnOk result (length pool.new ≡ length pool.old) }
    ensures begun { OnOk result ((x w : ℕ) → Has (record { least = 0; more = waste }) x → low ≤ w
        → HeldAt pool.new row x w) }
{
    pool.clear();
    let none = FrontLabel {
        along: SizeSet {
            least: 0,
            more: waste,
        },
        across: SizeSet {
            least: low,
            more: 0,
        },
        right: SizeSet::all(),
        up: 0,
    };
    pool.offer(row, &none)
}

/// Goes on from each row below one that has labels.
fn extend_below(pool: &mut LabelPool, search: &StripSearch<'_>, below: usize) -> Result<(), Halt>
    requires pool { below ≤ length pool.old }
    requires levels { below ≤ length search.now.fronts.levels.now }
    requires bound { search.now.limits.bound ≤ search.now.limits.top }
    requires rises { (n : ℕ) → n < below → Rises (bands_at search.now.fronts.levels.now n) }
    requires falls { (n : ℕ) → n < below → Falls (ends_at search.now.fronts.levels.now n) }
    ensures spreads { OnOk result (Spreads below pool.old pool.new) }
    ensures extended { OnOk result ((n : ℕ) → n < below
        → RowExtended search.now.fronts.rows.now search.now.fronts.levels.now search.now.limits
        pool.new n) }
{
    for done in 0..below {
        let row = below - 1 - done;
        let first = pool.low();
        if row < first {
            return Ok(());
        }
        extend_known(pool, search, row)?;
    }
    Ok(())
}

/// All strips from a row on that are at least `low` wide and within the limits, from what is seen of the row.
fn strips_by(
    pool: &mut LabelPool,
    search: &StripSearch<'_>,
    view: &RowView<'_>,
    low: u32,
) -> Result<(), Halt>
    requires pool { view.now.row < length pool.old }
    requires searchable { Searchable search.now.fronts.levels.now search.now.limits view.now.row
        view.now.below (unpacked_all view.now.bands.now) view.now.ends.now }
    ensures len { OnOk result (length pool.new ≡ length pool.old) }
    ensures begun { OnOk result ((x w : ℕ)
        → Has (record { least = 0; more = search.now.fronts.instance.now.params.waste }) x
        → low ≤ w → HeldAt pool.new view.now.row x w) }
    ensures own { OnOk result (ExtendedBy search.now.fronts.rows.now search.now.fronts.levels.now
        search.now.limits pool.new view.now.row view.now.below (unpacked_all view.now.bands.now)
        view.now.ends.now) }
    ensures extended { OnOk result ((n : ℕ) → n < view.now.below
        → RowExtended search.now.fronts.rows.now search.now.fronts.levels.now search.now.limits
        pool.new n) }
{
    begin(pool, view.row, low, search.fronts.instance.params().waste)?;
    extend_row(pool, search, view)?;
    extend_below(pool, search, view.below)?;
    Ok(())
}

/// All strips from a row on that are at least `low` wide and within the limits, where all is known of the row.
pub fn strips_from(pool: &mut LabelPool, search: &StripSearch<'_>, low: u32) -> Result<(), Halt>
    requires pool { search.now.start < length pool.old }
    requires levels { search.now.start < length search.now.fronts.levels.now }
    requires searchable { Searchable search.now.fronts.levels.now search.now.limits
        search.now.start search.now.start (bands_at search.now.fronts.levels.now search.now.start)
        (ends_at search.now.fronts.levels.now search.now.start) }
    ensures len { OnOk result (length pool.new ≡ length pool.old) }
    ensures begun { OnOk result ((x w : ℕ)
        → Has (record { least = 0; more = search.now.fronts.instance.now.params.waste }) x
        → low ≤ w → HeldAt pool.new search.now.start x w) }
    ensures extended { OnOk result ((n : ℕ) → n ≤ search.now.start
        → RowExtended search.now.fronts.rows.now search.now.fronts.levels.now search.now.limits
        pool.new n) }
{
    let start = search.start;
    let levels = search.fronts.levels;
    let view = RowView {
        row: start,
        below: start,
        bands: bands_of(levels, start),
        ends: ends_of(levels, start),
    };
    strips_by(pool, search, &view, low)?;
    Ok(())
}

/// The same where it is not known yet what is to go from the row, and its bands lead to those that are known alone.
pub fn strips_behind(
    pool: &mut LabelPool,
    search: &StripSearch<'_>,
    facts: &RowFacts,
    low: u32,
) -> Result<(), Halt>
    requires pool { search.now.start < length pool.old }
    requires searchable { Searchable search.now.fronts.levels.now search.now.limits
        search.now.start (length search.now.fronts.levels.now) (unpacked_all facts.now.bands.items)
        facts.now.ends.items }
    ensures len { OnOk result (length pool.new ≡ length pool.old) }
    ensures begun { OnOk result ((x w : ℕ)
        → Has (record { least = 0; more = search.now.fronts.instance.now.params.waste }) x
        → low ≤ w → HeldAt pool.new search.now.start x w) }
    ensures own { OnOk result (ExtendedBy search.now.fronts.rows.now search.now.fronts.levels.now
        search.now.limits pool.new search.now.start (length search.now.fronts.levels.now)
        (unpacked_all facts.now.bands.items) facts.now.ends.items) }
    ensures extended { OnOk result ((n : ℕ) → n < length search.now.fronts.levels.now
        → RowExtended search.now.fronts.rows.now search.now.fronts.levels.now search.now.limits
        pool.new n) }
{
    let view = RowView {
        row: search.start,
        below: search.fronts.levels.len(),
        bands: facts.bands.as_slice(),
        ends: facts.ends.as_slice(),
    };
    strips_by(pool, search, &view, low)
}
