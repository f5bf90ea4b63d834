//! How much of a strip's height its bands need.

ghost use Rattle.std.specs.Prelude.{◌≡◌, ◌<◌, length};

use crate::ends_at::Strip;
use crate::plan_search::PlanSearch;
use front_table::fronts::Fronts;
use front_table::halt::Halt;
use front_table::levels::bands_of;
use front_table::packed::{packed_width, unpacked_at};
use front_table::pools::LabelPool;

/// What is needed of a height from a row on; more than any height where it leads to no end.
pub fn need_at(needs: &[u32], end: usize, row: usize) -> u32 {
    match row.checked_sub(end) {
        Some(at) => needs.get(at).copied().unwrap_or(u32::MAX),
        None => u32::MAX,
    }
}

/// What is needed of a height by a row's bands of this width, and behind them.
fn need_from(fronts: &Fronts<'_>, needs: &[u32], end: usize, row: usize, width: u32) -> u32
    requires { row < length fronts.now.levels.now }
{
    let bands = bands_of(fronts.levels, row);
    let mut least = u32::MAX;
    for at in 0..bands.len() {
        if packed_width(bands, at) > width {
            return least;
        }
        let band = unpacked_at(bands, at);
        if band.label.across.has(width) {
            let behind = need_at(needs, end, band.to as usize);
            least = least.min(behind.saturating_add(band.label.along.least));
        }
    }
    least
}

/// What is needed of a height from the row at which a strip ends, and from each of those behind it to which its bands
/// come by the labels of a search.
pub fn needs_of(pool: &LabelPool, search: &PlanSearch<'_>, strip: &Strip) -> Result<Vec<u32>, Halt>
    requires from { strip.now.from < length search.now.fronts.rows.now }
    requires pool { length pool.now ≡ length search.now.fronts.rows.now }
{
    let end = strip.end.row;
    let width = strip.end.right.saturating_sub(strip.left);
    let mut needs = Vec::new(search.alloc);
    needs.push(0)?;
    for row in end.saturating_add(1)..strip.from.saturating_add(1) {
        let need = if pool.labels(row).is_empty() {
            u32::MAX
        } else {
            need_from(&search.fronts, needs.as_slice(), end, row, width)
        };
        needs.push(need)?;
    }
    Ok(needs)
}
