//! Bands as a table keeps them, in twelve bytes: there are hundreds from each front.

ghost use Rattle.std.specs.Prelude.{◌≡◌, ◌<◌, IfOk, IfSome, length, slice_index_or};
ghost use Rattle.front_table.specs.Packed.{unpacked, unpacked_all, unpacked_set};
ghost use Rattle.front_table.specs.Widths.{wide_in};

use crate::halt::Halt;
use crate::labels::FrontLabel;
use crate::moves::Move;
use crate::sets::SizeSet;
use std::alloc::Global;

/// A set of sizes of which none is more than 65,535 mm.
#[derive(Clone, Copy)]
pub struct PackedSet {
    least: u16,
    more: u16,
}

/// A band that leads to a row.
#[derive(Clone, Copy)]
pub struct PackedBand {
    to: u32,
    along: PackedSet,
    across: PackedSet,
}

/// The set, where its sizes are small enough.
fn pack_set(set: &SizeSet) -> Option<PackedSet>
    ensures { IfSome result (λ packed. unpacked_set packed ≡ set.now) }
{
    let least = u16::try_from(set.least).ok()?;
    let more = u16::try_from(set.more).ok()?;
    Some(PackedSet { least, more })
}

/// The set that is packed.
fn unpack_set(set: PackedSet) -> SizeSet
    ensures { result ≡ unpacked_set set }
{
    SizeSet {
        least: u32::from(set.least),
        more: u32::from(set.more),
    }
}

/// The band, where its sizes are small enough and no defects are told of with it.
fn pack(band: &Move) -> Option<PackedBand>
    ensures { IfSome result (λ packed. unpacked packed ≡ band.now) }
{
    let label = band.label;
    if label.right.least != 0 || label.right.more != 0 || label.up != 0 {
        return None;
    }
    let along = pack_set(&label.along)?;
    let across = pack_set(&label.across)?;
    Some(PackedBand {
        to: band.to,
        along,
        across,
    })
}

/// The band that is packed.
fn unpack(band: &PackedBand) -> Move
    ensures { result ≡ unpacked band.now }
{
    Move {
        to: band.to,
        label: FrontLabel {
            along: unpack_set(band.along),
            across: unpack_set(band.across),
            right: SizeSet::all(),
            up: 0,
        },
    }
}

/// The bands, in memory for no more than them.
pub fn pack_all(alloc: Global, bands: &[Move]) -> Result<Vec<PackedBand>, Halt>
    ensures { IfOk result (λ packed. unpacked_all packed.items ≡ bands.now) }
{
    let mut packed = Vec::with_capacity(alloc, bands.len())?;
    for at in 0..bands.len() {
        let Some(band) = pack(&bands[at]) else {
            return Err(Halt::Limit);
        };
        packed.push(band)?;
    }
    Ok(packed)
}

/// The band at a place.
pub fn unpacked_at(bands: &[PackedBand], at: usize) -> Move
    requires { at < length bands.now }
    ensures { result ≡ slice_index_or (unpacked_all bands.now) at result }
{
    unpack(&bands[at])
}

/// The least width of the strips of the band at a place.
pub fn packed_width(bands: &[PackedBand], at: usize) -> u32
    requires { at < length bands.now }
    ensures { result ≡ wide_in (unpacked_all bands.now) at }
{
    u32::from(bands[at].across.least)
}
