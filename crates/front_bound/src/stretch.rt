//! What a search for strips around defects looks at.

use front_table::fronts::Fronts;
use front_table::sets::SizeSet;
use front_table::strips::Limits;
use glass_base::Defect;

/// Where strips can begin, and how far they may reach, in mm.
#[derive(Clone, Copy)]
pub struct StripBegin {
    pub left: SizeSet,
    pub room: u32,
    pub height: u32,
    pub widest: u32,
    /// The least height of a band.
    pub least: u32,
    pub waste: u32,
}

/// The stretch of a plate behind its least left side, with the defects that lie there: which strips are looked for on it, and all fronts.
#[derive(Clone, Copy)]
pub struct Stretch<'a> {
    pub fronts: Fronts<'a>,
    pub limits: Limits,
    pub site: StripBegin,
    /// The defects behind the place where the strips begin, and those of them that lie within their widest.
    pub holes: &'a [Defect],
    pub near: &'a [Defect],
    /// A right side on the plate, with what is to go behind it, is no more than this, in mm.
    pub reach: u64,
}

/// Which bands are looked for, by which strips that end at a row go on.
#[derive(Clone, Copy)]
pub struct Sought {
    /// The row.
    pub start: usize,
    /// The bands lie above this, in mm.
    pub low: u32,
    /// They leave no more than this beside and over their cells, in mm².
    pub slack: u64,
}
