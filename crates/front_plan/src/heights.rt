//! Where a band of a strip can begin and end, in mm from the plate's lower side.

use crate::cutting::NextPiece;
use crate::ends_at::Strip;
use crate::plan_search::PlanSearch;
use front_table::halt::Halt;
use front_table::rows::count;
use glass_base::Defect;

/// A strip whose bands are looked for.
#[derive(Clone, Copy)]
pub struct StripFrame<'a> {
    pub search: &'a PlanSearch<'a>,
    pub strip: &'a Strip,
    /// Its first piece.
    pub spot: NextPiece,
    /// How high bands are at least from a row to the one at which the strip ends, for that row and those behind it.
    pub needs: &'a [u32],
}

/// A band that is looked for.
#[derive(Clone, Copy)]
pub struct SoughtBand {
    /// The place, among all piles, of the one that it is to stand on.
    pub below: usize,
    /// The rows between which it leads.
    pub from: usize,
    pub to: usize,
    /// From where to where it reaches.
    pub bottom: u32,
    pub top: u32,
}

/// Whether a defect lies in a strip.
fn is_inside(frame: &StripFrame<'_>, defect: &Defect) -> bool {
    let at = &frame.spot.step;
    defect.plate == frame.spot.plate && defect.x0 < at.b && at.a < defect.x1
}

/// Where a band can begin above others that end at `end`: there, a waste above, and at the upper ends of defects that
/// are higher up, up to `most`.
pub fn bottoms_of(frame: &StripFrame<'_>, end: u32, most: u32) -> Result<Vec<u32>, Halt> {
    let search = frame.search;
    let above = end.saturating_add(search.fronts.instance.params().waste);
    let mut bottoms = Vec::new(search.alloc);
    bottoms.push(end)?;
    if above <= most {
        bottoms.push(above)?;
    }
    for defect in search.fronts.instance.defects() {
        if is_inside(frame, defect) && above < defect.y1 && defect.y1 <= most {
            bottoms.push(defect.y1)?;
        }
    }
    Ok(bottoms)
}

/// Appends the tops above a band's own and up to `most` at which an item so high stands right above a defect.
fn push_lifted(
    tops: &mut Vec<u32>,
    frame: &StripFrame<'_>,
    band: &SoughtBand,
    most: u32,
    high: u32,
) -> Result<(), Halt> {
    let search = frame.search;
    for defect in search.fronts.instance.defects() {
        let top = defect.y1.saturating_add(high);
        if is_inside(frame, defect) && band.bottom < defect.y1 && band.top < top && top <= most {
            tops.push(top)?;
        }
    }
    Ok(())
}

/// The same for both turns of each of the items that a stack has in the band.
fn push_lifted_of(
    tops: &mut Vec<u32>,
    frame: &StripFrame<'_>,
    band: &SoughtBand,
    most: u32,
    stack: u32,
) -> Result<(), Halt> {
    let search = frame.search;
    let fronts = search.fronts;
    for taken in count(fronts.rows, band.from, stack)..count(fronts.rows, band.to, stack) {
        if let Some(item) = fronts.instance.item_of(stack, taken as usize) {
            push_lifted(tops, frame, band, most, item.length)?;
            push_lifted(tops, frame, band, most, item.width)?;
        }
    }
    Ok(())
}

/// Where a band can end that is no lower than this one, up to `most`: the higher ends first. It is as low as it can be,
/// leaves no more than the bands behind it need, or has an item right above a defect.
pub fn tops_of(frame: &StripFrame<'_>, least: &SoughtBand, most: u32) -> Result<Vec<u32>, Halt> {
    let search = frame.search;
    let mut tops = Vec::new(search.alloc);
    tops.push(least.top)?;
    tops.push(most)?;
    for stack in 0..search.fronts.instance.stacks() {
        push_lifted_of(&mut tops, frame, least, most, stack)?;
    }
    tops.sort_unstable();
    tops.dedup();
    tops.reverse();
    Ok(tops)
}
