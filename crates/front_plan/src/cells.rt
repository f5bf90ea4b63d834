//! The cells of a band, found from its end back.

ghost use Rattle.std.specs.Prelude.{◌≡◌, ◌<◌, length};

use crate::plan_search::PlanSearch;
use front_table::fronts::Fronts;
use front_table::halt::Halt;
use front_table::labels::FrontLabel;
use front_table::moves::Move;
use front_table::pools::LabelPool;
use front_table::rows::moves_of;

/// A cell of a band.
#[derive(Clone, Copy)]
pub struct FrontCell {
    /// The rows between which it leads.
    pub from: usize,
    pub to: usize,
    /// Its width, and how much of the band's lies before it, in mm.
    pub width: u32,
    pub before: u32,
}

/// A band that is to be made of cells.
#[derive(Clone, Copy)]
pub struct FrontBand {
    /// The rows between which it leads.
    pub from: usize,
    pub to: usize,
    /// Its sizes in mm; all cells share the height.
    pub width: u32,
    pub height: u32,
}

/// A cell by a move behind what a label stands for, from a row, where it ends a band.
fn cell_by(label: &FrontLabel, next: &Move, from: usize, band: &FrontBand) -> Option<FrontCell> {
    if next.to as usize != band.to || !next.label.across.has(band.height) {
        return None;
    }
    let (before, width) = label.along.parts(&next.label.along, band.width)?;
    Some(FrontCell {
        from,
        to: band.to,
        width,
        before,
    })
}

/// Adds the cells that end a band by each of the moves from a row behind what a label stands for.
fn add_behind(
    cells: &mut Vec<FrontCell>,
    fronts: &Fronts<'_>,
    label: &FrontLabel,
    from: usize,
    band: &FrontBand,
) -> Result<(), Halt>
    requires { from < length fronts.now.rows.now }
{
    if !label.across.has(band.height) {
        return Ok(());
    }
    for next in moves_of(fronts.rows, from) {
        if let Some(cell) = cell_by(label, next, from, band) {
            cells.push(cell)?;
        }
    }
    Ok(())
}

/// The cells by which labels of a search from a row on can end a band.
fn last_cells(
    pool: &LabelPool,
    search: &PlanSearch<'_>,
    band: &FrontBand,
    start: usize,
) -> Result<Vec<FrontCell>, Halt>
    requires start { start < length search.now.fronts.rows.now }
    requires pool { length pool.now ≡ length search.now.fronts.rows.now }
{
    let mut cells = Vec::new(search.alloc);
    for from in band.to.saturating_add(1)..start.saturating_add(1) {
        for label in pool.labels(from) {
            add_behind(&mut cells, &search.fronts, label, from, band)?;
        }
    }
    Ok(cells)
}

/// One of some cells: which one the choice says, of which is left what chooses among the next ones.
fn chosen(cells: &[FrontCell], choice: &mut u64) -> Option<FrontCell> {
    let many = cells.len() as u64;
    let at = choice.checked_rem(many)?;
    *choice = choice.checked_div(many)?;
    cells.get(at as usize).copied()
}

/// The cells of a band, the last one first, by the labels that a search from its row left, and by a choice among all
/// that there are.
pub fn cells_of(
    pool: &LabelPool,
    search: &PlanSearch<'_>,
    band: &FrontBand,
    choice: &mut u64,
) -> Result<Option<Vec<FrontCell>>, Halt>
    requires band { band.now.from < length search.now.fronts.rows.now }
    requires pool { length pool.now ≡ length search.now.fronts.rows.now }
{
    let mut cells = Vec::new(search.alloc);
    let mut left = *band;
    for _ in 0..search.fronts.rows.len() {
        if left.to >= band.from {
            return Ok(Some(cells));
        }
        let found = last_cells(pool, search, &left, band.from)?;
        let Some(cell) = chosen(found.as_slice(), choice) else {
            return Ok(None);
        };
        cells.push(cell)?;
        left.to = cell.from;
        left.width = cell.before;
    }
    Ok(None)
}
