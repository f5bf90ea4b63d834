//! What is known of each row, from the last front on.

ghost use Rattle.std.specs.Prelude.{◌≡◌, ℕ, ◌+◌, ◌<◌, length, OnOk};
ghost use Rattle.front_table.specs.Ready.{IsLast, SameLevel, tails_in};
ghost use Rattle.front_table.specs.Packed.{unpacked_all};
ghost use Rattle.front_table.specs.Tails.{tails_at};
ghost use Rattle.front_table.specs.Levels.{bands_at, ends_at, to_go_at};

use crate::ends::End;
use crate::halt::Halt;
use crate::packed::PackedBand;

/// A plate's height has no more units than this.
pub const UNITS: u32 = 64;

/// For each height in units a tail.
pub type Tails = [u16; UNITS as usize];

/// What is known of a row.
#[derive(Drop)]
pub struct RowFacts {
    /// The bands from it on, by rising width: along is their height, across the width of their strip.
    pub bands: Vec<PackedBand>,
    /// Where strips from it on can end.
    pub ends: Vec<End>,
    /// The least width of strips from it to the last front, in mm.
    pub to_go: u64,
    /// The class of the first strip of those.
    pub class: usize,
    /// For each class of strips and each height in units: no more than is to go behind any stack of its bands that is lower than one unit more, in mm.
    pub tails: Vec<Tails>,
}

/// The bands from a row on.
pub fn bands_of(levels: &[RowFacts], row: usize) -> &[PackedBand]
    requires { row < length levels.now }
    ensures { unpacked_all result.now ≡ bands_at levels.now row }
{
    levels[row].bands.as_slice()
}

/// Where strips from a row on can end.
pub fn ends_of(levels: &[RowFacts], row: usize) -> &[End]
    requires { row < length levels.now }
    ensures { result.now ≡ ends_at levels.now row }
{
    levels[row].ends.as_slice()
}

/// The least width of strips from a row to the last front.
pub fn to_go(levels: &[RowFacts], row: usize) -> u64
    requires { row < length levels.now }
    ensures { result ≡ to_go_at levels.now row }
{
    levels[row].to_go
}

/// What is to go at least behind stacks of bands from a row in strips of a class.
pub fn tails_of_class(facts: &RowFacts, class: usize) -> &[u16]
    ensures { result.now ≡ tails_in facts.now class }
{
    match facts.tails.get(class) {
        Some(tails) => tails.as_slice(),
        None => &[],
    }
}

/// The same of a row of the table.
pub fn tails_of(levels: &[RowFacts], row: usize, class: usize) -> &[u16]
    requires { row < length levels.now }
    ensures { result.now ≡ tails_at levels.now row class }
{
    tails_of_class(&levels[row], class)
}

/// Appends a row.
pub fn push_level(levels: &mut Vec<RowFacts>, level: RowFacts) -> Result<(), Halt>
    ensures len { OnOk result (length levels.new.items ≡ length levels.old.items + 1) }
    ensures same { OnOk result ((n : ℕ) → n < length levels.old.items
        → SameLevel levels.old.items levels.new.items n) }
    ensures new { OnOk result (IsLast levels.new.items (length levels.old.items) level) }
{
    levels.push(level)?;
    Ok(())
}
