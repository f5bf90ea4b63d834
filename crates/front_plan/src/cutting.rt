//! The steps of a band: which cells it is made of is found from its end back. What comes of it is a guess, which has to
//! be asked of the rules.

ghost use Rattle.std.specs.Prelude.{◌≡◌, length};

use crate::cells::{FrontBand, FrontCell, cells_of};
use crate::plan_search::PlanSearch;
use cut_model::Step;
use front_table::halt::Halt;
use front_table::lattice::due;
use front_table::pools::LabelPool;
use front_table::rows::{FrontRow, count};
use glass_base::{Instance, Item, Run, append};

/// So often a cell is moved to the right, out of a defect.
const SHIFTS: u32 = 8;

/// Where the next piece goes: the plate, and the step that begins it.
#[derive(Clone, Copy)]
pub struct NextPiece {
    pub plate: u32,
    pub step: Step,
}

/// An item, and the stack that it is taken off.
#[derive(Clone, Copy)]
struct StackItem {
    stack: u32,
    item: Item,
}

/// The first stack from this one on off which an item is taken between two rows.
fn stack_between(
    instance: &Instance,
    rows: &[FrontRow],
    from: usize,
    to: usize,
    first: u32,
) -> Option<u32> {
    for stack in first..instance.stacks() {
        if count(rows, from, stack) < count(rows, to, stack) {
            return Some(stack);
        }
    }
    None
}

/// The turn in which an item is so wide.
fn turn_of(item: &Item, wide: u32) -> u32 {
    if item.length == wide { 0 } else { 1 }
}

/// The item over the first one of a cell, where there are two.
fn item_over(
    instance: &Instance,
    rows: &[FrontRow],
    cell: &FrontCell,
    stack: u32,
) -> Option<StackItem> {
    let taken = count(rows, cell.from, stack);
    if taken.saturating_add(1) < count(rows, cell.to, stack) {
        let item = instance.item_of(stack, taken.saturating_add(1) as usize)?;
        return Some(StackItem { stack, item });
    }
    let other = stack_between(instance, rows, cell.from, cell.to, stack.saturating_add(1))?;
    let item = due(instance, rows, cell.from, other)?;
    Some(StackItem { stack: other, item })
}

/// Whether a level line lies outside a cell, or runs through no defect there.
fn is_line_clear(search: &PlanSearch<'_>, spot: &NextPiece, y: u32, right: u32) -> bool {
    let at = &spot.step;
    if y <= at.c || y >= at.d || at.e >= right {
        return true;
    }
    search.ground.is_clear_y(spot.plate, y, at.e, right)
}

/// Whether an item that stands from one height to another in its cell meets no defect, and the lines over and below it
/// run through none.
fn is_item_clear(
    search: &PlanSearch<'_>,
    spot: &NextPiece,
    wide: u32,
    low: u32,
    high: u32,
) -> bool {
    let left = spot.step.e;
    let right = left.saturating_add(wide);
    if left >= right || low >= high {
        return false;
    }
    search.ground.is_clear(spot.plate, left, low, right, high)
        && is_line_clear(search, spot, low, right)
        && is_line_clear(search, spot, high, right)
}

/// Whether no side of a cell runs through a defect.
fn are_sides_clear(search: &PlanSearch<'_>, spot: &NextPiece, wide: u32) -> bool {
    let at = &spot.step;
    let right = at.e.saturating_add(wide);
    if at.c >= at.d {
        return true;
    }
    if at.e > at.a && !search.ground.is_clear_x(spot.plate, at.e, at.c, at.d) {
        return false;
    }
    right >= at.b || search.ground.is_clear_x(spot.plate, right, at.c, at.d)
}

/// Whether the waste of a cell lies below its item, where that is clear of defects there, or above, where it is clear
/// there; none where it is in neither place.
fn lift_of(
    search: &PlanSearch<'_>,
    spot: &NextPiece,
    wide: u32,
    high: u32,
    is_alone: bool,
) -> Option<u32> {
    let at = &spot.step;
    let top = at.c.saturating_add(high);
    if is_item_clear(search, spot, wide, at.c, top) {
        return Some(0);
    }
    let low = at.d.saturating_sub(high);
    if is_alone && is_item_clear(search, spot, wide, low, at.d) {
        return Some(1);
    }
    None
}

/// The height of an item in a turn.
fn height_of(item: &Item, turn: u32) -> u32 {
    if turn == 0 { item.width } else { item.length }
}

/// Appends the step of the item over another one; whether it is clear of defects there.
fn cut_over(
    search: &PlanSearch<'_>,
    steps: &mut Run<Step>,
    spot: &NextPiece,
    wide: u32,
    over: &StackItem,
) -> Result<bool, Halt> {
    let turn = turn_of(&over.item, wide);
    let low = spot.step.d.saturating_sub(height_of(&over.item, turn));
    if !is_item_clear(search, spot, wide, low, spot.step.d) {
        return Ok(false);
    }
    let step = Step {
        stack: over.stack,
        turn,
        kind: 4,
        ..spot.step
    };
    append(steps, step)?;
    Ok(true)
}

/// Appends the steps of a cell; whether there is such a cell, clear of defects.
fn cut_cell(
    search: &PlanSearch<'_>,
    steps: &mut Run<Step>,
    cell: &FrontCell,
    spot: &NextPiece,
) -> Result<bool, Halt> {
    let instance = search.fronts.instance;
    let rows = search.fronts.rows;
    let Some(stack) = stack_between(instance, rows, cell.from, cell.to, 0) else {
        return Ok(false);
    };
    let Some(item) = due(instance, rows, cell.from, stack) else {
        return Ok(false);
    };
    let over = item_over(instance, rows, cell, stack);
    let turn = turn_of(&item, cell.width);
    let high = height_of(&item, turn);
    let Some(lift) = lift_of(search, spot, cell.width, high, over.is_none()) else {
        return Ok(false);
    };
    if !are_sides_clear(search, spot, cell.width) {
        return Ok(false);
    }
    let step = Step {
        stack,
        turn,
        lift,
        ..spot.step
    };
    append(steps, step)?;
    match over {
        Some(over) => cut_over(search, steps, spot, cell.width, &over),
        None => Ok(true),
    }
}

/// Where a cell can begin that meets a defect where it would stand, behind the one of them that ends first, with a
/// waste before it.
fn begin_behind(search: &PlanSearch<'_>, spot: &NextPiece, left: u32, wide: u32) -> Option<u32> {
    let at = &spot.step;
    let right = at.e.saturating_add(wide);
    let least = left.saturating_add(search.fronts.instance.params().waste);
    let mut found = None;
    let mut begin = u32::MAX;
    for defect in search.fronts.instance.defects() {
        if defect.plate == spot.plate
            && defect.x0 < right
            && at.e < defect.x1
            && defect.y0 < at.d
            && at.c < defect.y1
        {
            begin = begin.min(defect.x1.max(least));
            found = Some(begin);
        }
    }
    found
}

/// Where such a cell can begin, with no more than `spare` before it: all of that where less than a waste would be left
/// of it.
fn begin_within(
    search: &PlanSearch<'_>,
    spot: &NextPiece,
    left: u32,
    wide: u32,
    spare: u32,
) -> Option<u32> {
    let most = left.saturating_add(spare);
    let begin = begin_behind(search, spot, left, wide)?;
    if begin > most {
        return None;
    }
    if most - begin < search.fronts.instance.params().waste {
        return Some(most);
    }
    Some(begin)
}

/// Appends the steps of a cell, behind a waste of no more than `spare` where it would meet a defect; where it begins,
/// if there is such a cell, clear of defects.
fn cut_cell_behind(
    search: &PlanSearch<'_>,
    steps: &mut Run<Step>,
    cell: &FrontCell,
    spot: &NextPiece,
    spare: u32,
) -> Result<Option<u32>, Halt> {
    let mut at = *spot;
    for _ in 0..SHIFTS {
        let many = steps.len();
        if cut_cell(search, steps, cell, &at)? {
            return Ok(Some(at.step.e));
        }
        for _ in many..steps.len() {
            let _step = steps.pop();
        }
        let Some(begin) = begin_within(search, &at, spot.step.e, cell.width, spare) else {
            return Ok(None);
        };
        if begin <= at.step.e {
            return Ok(None);
        }
        at.step.e = begin;
    }
    Ok(None)
}

/// How wide some cells are together.
fn width_of(cells: &[FrontCell]) -> u32 {
    let mut width: u32 = 0;
    for cell in cells {
        width = width.saturating_add(cell.width);
    }
    width
}

/// Appends the steps of a band whose cells these are, the last one first; whether they were found clear of defects.
/// What the cells leave of the band goes before those that would meet a defect.
fn cut_cells(
    search: &PlanSearch<'_>,
    steps: &mut Run<Step>,
    cells: &[FrontCell],
    spot: &NextPiece,
) -> Result<bool, Halt> {
    let mut at = *spot;
    let used = at.step.e.saturating_add(width_of(cells));
    let mut spare = at.step.b.saturating_sub(used);
    for cell in cells.iter().rev() {
        let Some(begin) = cut_cell_behind(search, steps, cell, &at, spare)? else {
            return Ok(false);
        };
        spare = spare.saturating_sub(begin.saturating_sub(at.step.e));
        at.step.kind = 3;
        at.step.e = begin.saturating_add(cell.width);
    }
    Ok(true)
}

/// The steps of a band that begins with this piece, by the cells that a search from its row left, and by a choice among
/// them, where they are found clear of defects.
pub fn cut_band(
    pool: &LabelPool,
    search: &PlanSearch<'_>,
    band: &FrontBand,
    spot: &NextPiece,
    choice: &mut u64,
) -> Result<Option<Run<Step>>, Halt>
    requires { length pool.now ≡ length search.now.fronts.rows.now }
{
    if band.from >= search.fronts.rows.len() {
        return Ok(None);
    }
    let Some(cells) = cells_of(pool, search, band, choice)? else {
        return Ok(None);
    };
    // what is left of the choice says that these cells were chosen before
    if *choice > 0 {
        return Ok(None);
    }
    let mut steps = Run::new(search.alloc);
    if cut_cells(search, &mut steps, cells.as_slice(), spot)? {
        return Ok(Some(steps));
    }
    Ok(None)
}
