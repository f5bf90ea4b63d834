//! Strips that end at a right side: the right sides that a search within a length left say behind which of them a strip can begin.

ghost use Rattle.std.specs.Prelude.{◌≡◌, ◌<◌, length, OnOk};

use crate::plan_search::PlanSearch;
use front_bound::runs::end_by;
use front_table::far::low_of;
use front_table::halt::Halt;
use front_table::labels::FrontLabel;
use front_table::levels::to_go;
use front_table::pools::LabelPool;
use front_table::sets::SizeSet;
use front_table::strips::{Limits, StripSearch, strips_from};
use glass_base::Instance;
use std::alloc::Global;

/// A right side at which strips can end.
#[derive(Clone, Copy)]
pub struct Side {
    /// The row at which they end.
    pub row: usize,
    /// The side's plate, and where it stands on that, in mm.
    pub plate: u32,
    pub right: u32,
}

/// The strips that may lie between two rows.
#[derive(Clone, Copy)]
pub struct Between {
    /// The row from which they are.
    pub from: usize,
    /// Where they can begin on the plate.
    pub begins: SizeSet,
    pub end: Side,
    ghost down: { end.row < from },
}

/// A strip of a course.
#[derive(Clone, Copy)]
pub struct Strip {
    /// The row from which it is.
    pub from: usize,
    /// The class of its widths.
    pub class: usize,
    /// Its left side, in mm.
    pub left: u32,
    pub end: Side,
    ghost down: { end.row < from },
}

/// Where strips can begin on a plate behind a side: right of it on its own plate, at the left side of the next one where its own can end there.
pub fn begins_behind(instance: &Instance, side: &FrontLabel, plate: u32) -> Option<SizeSet> {
    let own = side.across.least;
    if own == plate {
        return Some(side.along);
    }
    if own.saturating_add(1) != plate || !side.along.has(instance.width(own)) {
        return None;
    }
    Some(SizeSet::only(0))
}

/// The right side of the strip that ends at a side of a row, where something begins at `left` on this plate: there may be a gap between the two.
pub fn side_before(
    instance: &Instance,
    row: usize,
    side: &FrontLabel,
    plate: u32,
    left: u32,
) -> Side {
    let own = side.across.least;
    let end = if own == plate {
        left
    } else {
        instance.width(own)
    };
    let least = side.along.least;
    let is_gap = least.saturating_add(instance.params().waste) <= end;
    Side {
        row,
        plate: own,
        right: if is_gap { least } else { end },
    }
}

/// The least length from `from` on at which a course ends, and the side at which its last plate does, of these sides of the last front.
pub fn last_side(instance: &Instance, sides: &[FrontLabel], from: u64) -> Option<(u64, Side)> {
    let mut found = None;
    let mut least = u64::MAX;
    for side in sides {
        let length = end_by(instance, side, u64::MAX);
        if from <= length && length < least {
            least = length;
            found = Some((length, side_before(instance, 0, side, u32::MAX, 0)));
        }
    }
    found
}

/// Searches for the strips of a class between two rows that end at a side and begin in a set of places.
pub fn strips_between(
    pool: &mut LabelPool,
    search: &PlanSearch<'_>,
    between: &Between,
    class: usize,
) -> Result<(), Halt>
    requires from { between.now.from < length search.now.fronts.rows.now }
    requires class { class < length search.now.fronts.tops.now }
    requires pool { length pool.old ≡ length search.now.fronts.rows.now }
    ensures { OnOk result (length pool.new ≡ length pool.old) }
{
    let fronts = search.fronts;
    let params = fronts.instance.params();
    let end = between.end;
    let room = end.right.saturating_sub(between.begins.least);
    let tops = search.fronts.tops;
    let top = tops[class];
    let strips = StripSearch {
        fronts,
        limits: Limits {
            class,
            top,
            bound: top.min(params.max1).min(room),
            height: params.height,
            most: u64::from(room).saturating_add(to_go(fronts.levels, end.row)),
        },
        start: between.from,
    };
    let low = low_of(tops, class, params.min1);
    strips_from(pool, &strips, low)
}

/// Where strips begin that these labels stand for, that fill the plate's height and end here.
pub fn lefts_of(
    alloc: Global,
    labels: &[FrontLabel],
    height: u32,
    begins: &SizeSet,
    right: u32,
) -> Result<Vec<u32>, Halt> {
    let mut lefts = Vec::new(alloc);
    for label in labels {
        if label.along.has(height) {
            if let Some((left, _width)) = begins.parts(&label.across, right) {
                if !lefts.as_slice().contains(&left) {
                    lefts.push(left)?;
                }
            }
        }
    }
    Ok(lefts)
}
