//! Strips that begin near defects.

ghost use Rattle.std.specs.Prelude.{◌≡◌, ℕ, ◌+◌, ◌*◌, ◌<◌, ◌≤◌, false, true, [], ◌∷◌, Contains, length, slice_index_or, IfOk, OnOk};
ghost use Rattle.front_table.specs.declared.labels.FrontLabel.{FrontLabel as LabelOf};
ghost use Rattle.front_bound.specs.inner.Around.{IsClass, IsRoomy};
ghost use Rattle.front_table.specs.Levels.{to_go_at};
ghost use Rattle.front_table.specs.Pools.{Spreads};
ghost use Rattle.front_bound.specs.Sides.{BeginGoesOn, ClassGoesOn};

use crate::holes::holes_of;
use crate::outset::Outset;
use crate::placed_cells::CellSpace;
use crate::placed_sides::offer_placed_ends;
use crate::placed_strips::placed_from;
use crate::places::CornerLists;
use crate::stretch::{Stretch, StripBegin};
use front_table::halt::Halt;
use front_table::labels::FrontLabel;
use front_table::pools::LabelPool;
use front_table::rows::FrontRow;
use front_table::strips::Limits;
use glass_base::Defect;
use std::alloc::Global;

/// What is used again from row to row.
#[derive(Drop)]
pub struct Space {
    /// Labels of strips that begin clear of defects, of those that begin near them, and of the cells of these.
    pub strips: LabelPool,
    pub near: LabelPool,
    pub cells: CellSpace,
    /// The defects behind the place where strips begin, and those of them that lie within their widest.
    pub holes: Vec<Defect>,
    pub near_holes: Vec<Defect>,
    /// The begins that are clear of defects.
    pub clear: Vec<FrontLabel>,
}

/// Strips of a class that begin on a plate.
#[derive(Clone, Copy)]
pub struct Class {
    pub plate: u32,
    /// They are no narrower than this, in mm.
    pub low: u32,
    /// Behind the first begin there is so much of the plate, in mm.
    pub room: u32,
    pub limits: Limits,
}

/// Room for all rows.
pub fn new_space(alloc: Global, rows: &[FrontRow], limit: u64) -> Result<Space, Halt>
    ensures { IfOk result (IsRoomy rows.now) }
{
    Ok(Space {
        strips: LabelPool::new(alloc, rows.len(), limit)?,
        near: LabelPool::new(alloc, rows.len(), limit)?,
        cells: CellSpace {
            pool: LabelPool::new(alloc, rows.len(), limit)?,
            lists: CornerLists {
                found: Vec::new(alloc),
                next: Vec::new(alloc),
            },
        },
        holes: Vec::new(alloc),
        near_holes: Vec::new(alloc),
        clear: Vec::new(alloc),
    })
}

/// Offers where the strips of a class end that begin behind one label, where defects are near; whether they are.
fn place_begin(
    outset: &Outset<'_>,
    space: &mut Space,
    sides: &mut LabelPool,
    begin: &FrontLabel,
    class: &Class,
) -> Result<bool, Halt>
    requires space { IsRoomy outset.now.fronts.rows.now space.old }
    requires sides { length sides.old ≡ length outset.now.fronts.rows.now }
    requires class { IsClass outset.now.fronts class.now }
    ensures space { OnOk result (IsRoomy outset.now.fronts.rows.now space.new) }
    ensures clear { OnOk result (space.new.clear ≡ space.old.clear) }
    ensures spreads { OnOk result (Spreads outset.now.row sides.old sides.new) }
    ensures goes_on { IfOk result (λ done. done ≡ true
        → ClassGoesOn outset.now.fronts.instance.now outset.now.fronts.rows.now
        (to_go_at outset.now.fronts.levels.now) outset.now.most sides.new outset.now.row
        (begin.now ∷ []) class.now.plate class.now.low class.now.limits.top class.now.room
        class.now.limits.most) }
{
    if !begin.across.has(class.plate) {
        return Ok(true);
    }
    let instance = outset.fronts.instance;
    let left = begin.along.least;
    holes_of(
        instance,
        &mut space.near_holes,
        class.plate,
        left,
        class.limits.top,
    )?;
    if space.near_holes.is_empty() {
        return Ok(false);
    }
    // (a strip that begins behind a gap, or whose right side is moved out of a defect, meets those further on as well)
    holes_of(instance, &mut space.holes, class.plate, left, u32::MAX)?;
    let params = instance.params();
    let width = instance.width(class.plate);
    let reach = outset.most.saturating_sub(instance.before(class.plate));
    let bound = class.limits.bound.min(width.saturating_sub(left));
    let stretch = Stretch {
        fronts: outset.fronts,
        limits: Limits {
            class: class.limits.class,
            top: class.limits.top,
            bound,
            height: class.limits.height,
            most: reach.saturating_sub(u64::from(left)),
        },
        site: StripBegin {
            left: begin.along.closed(params.waste),
            room: width,
            height: params.height,
            widest: bound,
            least: params.min2,
            waste: params.waste,
        },
        holes: space.holes.as_slice(),
        near: space.near_holes.as_slice(),
        reach,
    };
    placed_from(
        &mut space.near,
        &mut space.cells,
        &stretch,
        outset.row,
        class.low,
    )?;
    offer_placed_ends(outset, &stretch, sides, &space.near, class.plate)?;
    Ok(true)
}

/// Keeps a begin that is clear of defects.
fn keep_clear(clear: &mut Vec<FrontLabel>, begin: &FrontLabel, done: bool) -> Result<(), Halt>
    ensures kept { OnOk result ((l : LabelOf) → Contains clear.old.items l
        → Contains clear.new.items l) }
    ensures new { OnOk result (done ≡ false → Contains clear.new.items begin.now) }
{
    if done {
        return Ok(());
    }
    clear.push(*begin)?;
    Ok(())
}

/// Offers where the strips of a class end that begin near defects, and keeps the begins that are clear of them.
pub fn place_begins(
    outset: &Outset<'_>,
    space: &mut Space,
    sides: &mut LabelPool,
    begins: &[FrontLabel],
    class: &Class,
) -> Result<(), Halt>
    requires space { IsRoomy outset.now.fronts.rows.now space.old }
    requires sides { length sides.old ≡ length outset.now.fronts.rows.now }
    requires class { IsClass outset.now.fronts class.now }
    ensures space { OnOk result (IsRoomy outset.now.fronts.rows.now space.new) }
    ensures spreads { OnOk result (Spreads outset.now.row sides.old sides.new) }
    ensures goes_on { OnOk result ((k : ℕ) (d : LabelOf) → k < length begins.now
        → BeginGoesOn outset.now.fronts.instance.now outset.now.fronts.rows.now
        (to_go_at outset.now.fronts.levels.now) outset.now.most sides.new outset.now.row
        space.new.clear.items (slice_index_or begins.now k d) class.now.plate class.now.low
        class.now.limits.top class.now.room class.now.limits.most) }
{
    space.clear.clear();
    for begin in begins {
        let done = place_begin(outset, space, sides, begin, class)?;
        keep_clear(&mut space.clear, begin, done)?;
    }
    Ok(())
}
