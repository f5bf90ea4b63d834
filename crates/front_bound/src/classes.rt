//! Where the strips from a row end, plate by plate and class by class.

ghost use Rattle.std.specs.Prelude.{◌≡◌, ℕ, ◌+◌, ◌<◌, ◌≤◌, length, OnOk};
ghost use Rattle.front_bound.specs.inner.Around.{IsClass, IsRoomy};
ghost use Rattle.front_table.specs.Levels.{to_go_at};
ghost use Rattle.front_table.specs.Pools.{Spreads};
ghost use Rattle.front_bound.specs.Sides.{ClassGoesOn, PlateGoesOn};

use crate::begins::first_at;
use crate::nearby::{Class, Space, place_begins};
use crate::outset::Outset;
use crate::sides::offer_ends;
use front_table::halt::Halt;
use front_table::labels::FrontLabel;
use front_table::pools::LabelPool;
use front_table::strips::{Limits, StripSearch, strips_from};
use glass_base::limits::MOST_PLATES;

/// Offers where the strips of a class end that begin on a plate.
fn handle_class(
    outset: &Outset<'_>,
    space: &mut Space,
    sides: &mut LabelPool,
    begins: &[FrontLabel],
    class: &Class,
) -> Result<(), Halt>
    requires space { IsRoomy outset.now.fronts.rows.now space.old }
    requires sides { length sides.old ≡ length outset.now.fronts.rows.now }
    requires class { IsClass outset.now.fronts class.now }
    ensures space { OnOk result (IsRoomy outset.now.fronts.rows.now space.new) }
    ensures spreads { OnOk result (Spreads outset.now.row sides.old sides.new) }
    ensures goes_on { OnOk result
        (ClassGoesOn outset.now.fronts.instance.now outset.now.fronts.rows.now
        (to_go_at outset.now.fronts.levels.now) outset.now.most sides.new outset.now.row begins.now
        class.now.plate class.now.low class.now.limits.top class.now.room class.now.limits.most) }
{
    let bound = class.limits.bound;
    if bound < class.low {
        return Ok(());
    }
    place_begins(outset, space, sides, begins, class)?;
    let clear = space.clear.as_slice();
    if clear.is_empty() {
        return Ok(());
    }
    let search = StripSearch {
        fronts: outset.fronts,
        limits: class.limits,
        start: outset.row,
    };
    strips_from(&mut space.strips, &search, class.low)?;
    offer_ends(outset, sides, &space.strips, clear, class.plate)?;
    Ok(())
}

/// Offers where the strips end that begin on a plate.
fn handle_plate(
    outset: &Outset<'_>,
    space: &mut Space,
    sides: &mut LabelPool,
    begins: &[FrontLabel],
    plate: u32,
) -> Result<(), Halt>
    requires space { IsRoomy outset.now.fronts.rows.now space.old }
    requires sides { length sides.old ≡ length outset.now.fronts.rows.now }
    requires plate { plate ≤ MOST_PLATES }
    ensures space { OnOk result (IsRoomy outset.now.fronts.rows.now space.new) }
    ensures spreads { OnOk result (Spreads outset.now.row sides.old sides.new) }
    ensures goes_on { OnOk result
        (PlateGoesOn outset.now.fronts.instance.now outset.now.fronts.rows.now
        (to_go_at outset.now.fronts.levels.now) outset.now.most sides.new outset.now.row begins.now
        plate (outset.now.fronts.instance.now.params.max1 + 1)) }
{
    let instance = outset.fronts.instance;
    let params = instance.params();
    let tops = outset.fronts.tops;
    let first = first_at(begins, plate);
    let start = instance.before(plate).saturating_add(u64::from(first));
    if start > outset.most {
        return Ok(());
    }
    let left = outset.most - start;
    let room = instance.width(plate).saturating_sub(first);
    let mut low = params.min1;
    for class in 0..tops.len() {
        let top = tops[class];
        let strips = Class {
            plate,
            low,
            room,
            limits: Limits {
                class,
                top,
                bound: top.min(params.max1).min(room),
                height: params.height,
                most: left,
            },
        };
        handle_class(outset, space, sides, begins, &strips)?;
        let Some(next) = top.checked_add(1) else {
            return Err(Halt::Limit);
        };
        low = next;
    }
    if low <= params.max1 {
        return Err(Halt::Limit);
    }
    Ok(())
}

/// Offers where the strips end that begin on any plate.
pub fn handle_plates(
    outset: &Outset<'_>,
    space: &mut Space,
    sides: &mut LabelPool,
    begins: &[FrontLabel],
) -> Result<(), Halt>
    requires space { IsRoomy outset.now.fronts.rows.now space.old }
    requires sides { length sides.old ≡ length outset.now.fronts.rows.now }
    ensures space { OnOk result (IsRoomy outset.now.fronts.rows.now space.new) }
    ensures spreads { OnOk result (Spreads outset.now.row sides.old sides.new) }
    ensures goes_on { OnOk result
        ((plate : ℕ) → plate < outset.now.fronts.instance.now.params.plates
        → PlateGoesOn outset.now.fronts.instance.now outset.now.fronts.rows.now
        (to_go_at outset.now.fronts.levels.now) outset.now.most sides.new outset.now.row begins.now
        plate (outset.now.fronts.instance.now.params.max1 + 1)) }
{
    let plates = outset.fronts.instance.params().plates;
    if plates > MOST_PLATES {
        return Err(Halt::Limit);
    }
    for plate in 0..plates {
        handle_plate(outset, space, sides, begins, plate)?;
    }
    Ok(())
}
