//! What is to go at least behind stacks of bands, by how high these are.

ghost use Rattle.std.specs.Prelude.{◌≡◌, ℕ, ◌+◌, ◌*◌, ◌<◌, ◌≤◌, IfOk, length};
ghost use Rattle.front_table.specs.Tails.{AllBehind, AllLower, AreBehindBand, AreBehindBands, IsLower, tail_at, tails_of_all, unit_in};
ghost use Rattle.front_table.specs.Widths.{Rises};

use crate::bands::{band_at, wide_at};
use crate::halt::Halt;
use crate::levels::{RowFacts, Tails, UNITS, tails_of};
use crate::moves::Move;
use std::alloc::Global;

/// More than is to go from any front, or as much as a tail can say.
const FAR: u16 = u16::MAX;

/// How high a unit is on plates of this height, in mm.
pub fn unit_of(height: u32) -> u32
    ensures { result ≡ unit_in height }
{
    height / UNITS + 1
}

/// How many whole units are in a height.
pub fn units_in(height: u32, unit: u32) -> usize
    requires { 1 ≤ unit }
    ensures least { result * unit ≤ height }
    ensures most { height < (result + 1) * unit }
{
    (height / unit) as usize
}

/// The tail at this place, or nothing where there is none.
pub fn tail_in(tails: &[u16], at: usize) -> u64
    ensures { result ≤ tail_at tails.now at }
{
    match tails.get(at) {
        Some(tail) => u64::from(*tail),
        None => 0,
    }
}

/// Makes the tail at a place no more than this.
fn lower_at(tails: &mut [u16], at: usize, most: u16)
    requires { at < length tails.old }
    ensures lower { IsLower tails.new tails.old }
    ensures at { tail_at tails.new at ≤ most }
{
    tails[at] = tails[at].min(most);
}

/// Makes each tail no more than another row's that is `skipped` places before it.
fn lower_by(tails: &mut [u16], others: &[u16], skipped: usize)
    requires { length tails.old ≤ length others.now + skipped }
    ensures lower { IsLower tails.new tails.old }
    ensures behind { (j : ℕ) → tail_at tails.new (j + skipped) ≤ tail_at others.now j }
{
    if skipped >= tails.len() {
        return;
    }
    for at in 0..tails.len() - skipped {
        lower_at(tails, at + skipped, others[at]);
    }
}

/// Makes each tail no more than this.
fn lower_to(tails: &mut [u16], most: u16)
    ensures lower { IsLower tails.new tails.old }
    ensures to { (k : ℕ) → tail_at tails.new k ≤ most }
{
    for at in 0..tails.len() {
        lower_at(tails, at, most);
    }
}

/// Makes the tails of a row no more than those behind a band.
fn lower_by_band(tails: &mut [u16], levels: &[RowFacts], class: usize, band: &Move, unit: u32)
    requires { 1 ≤ unit }
    ensures lower { IsLower tails.new tails.old }
    ensures behind { AreBehindBand tails.new levels.now class unit band.now }
{
    if band.to as usize >= levels.len() {
        return;
    }
    let others = tails_of(levels, band.to as usize, class);
    let skipped = units_in(band.label.along.least, unit);
    if skipped.saturating_add(others.len()) < tails.len() {
        lower_to(tails, 0);
        return;
    }
    lower_by(tails, others, skipped);
}

/// Makes the tails of a row no more than those behind each band that is no wider than this.
fn lower_by_bands(
    tails: &mut [u16],
    levels: &[RowFacts],
    class: usize,
    top: u32,
    bands: &[Move],
    unit: u32,
)
    requires unit { 1 ≤ unit }
    requires rises { Rises bands.now }
    ensures { AreBehindBands tails.new levels.now class top unit bands.now }
{
    for at in 0..bands.len() {
        if wide_at(bands, at) > top {
            return;
        }
        let band = band_at(bands, at);
        lower_by_band(tails, levels, class, &band, unit);
    }
}

/// The tails of a row in strips of a class that are no wider than this, of stacks of at least one band.
fn tails_behind(levels: &[RowFacts], class: usize, top: u32, bands: &[Move], unit: u32) -> Tails
    requires unit { 1 ≤ unit }
    requires rises { Rises bands.now }
    ensures { AreBehindBands result levels.now class top unit bands.now }
{
    let mut tails = [FAR; UNITS as usize];
    lower_by_bands(&mut tails, levels, class, top, bands, unit);
    tails
}

/// For each class of strips, which end at these widths, the tails of a row, of stacks of at least one band.
pub(crate) fn all_tails_behind(
    alloc: Global,
    levels: &[RowFacts],
    tops: &[u32],
    bands: &[Move],
    unit: u32,
) -> Result<Vec<Tails>, Halt>
    requires unit { 1 ≤ unit }
    requires rises { Rises bands.now }
    ensures { IfOk result (λ all. AllBehind all.items levels.now bands.now tops.now unit
        (length tops.now)) }
{
    let mut all = Vec::with_capacity(alloc, tops.len())?;
    for class in 0..tops.len() {
        all.push(tails_behind(levels, class, tops[class], bands, unit))?;
    }
    Ok(all)
}

/// Makes the tails of a class no more than this.
fn lower_class(all: &mut [Tails], class: usize, most: u16)
    requires { class < length all.old }
    ensures len { length all.new ≡ length all.old }
    ensures others { (k : ℕ) → (k ≡ class → ⊥) → tails_of_all all.new k ≡ tails_of_all all.old k }
    ensures lower { IsLower (tails_of_all all.new class) (tails_of_all all.old class) }
    ensures most { (j : ℕ) → tail_at (tails_of_all all.new class) j ≤ most }
{
    lower_to(&mut all[class], most);
}

/// Adds to the tails of a row the stack of no bands, behind which this is to go: none is more than that.
pub(crate) fn lower_all(all: &mut [Tails], to_go: u64)
    ensures { AllLower all.new all.old to_go (length all.old) }
{
    let most = to_go.min(u64::from(FAR)) as u16;
    for class in 0..all.len() {
        lower_class(all, class, most);
    }
}
