//! Where strips end whose items have places around defects.

ghost use Rattle.std.specs.Prelude.{◌≡◌, ℕ, ◌+◌, ◌<◌, ◌≤◌, [], ◌∷◌, length, OnOk};
ghost use Rattle.front_bound.specs.inner.Clear.{EndsPlaced, LineClear};
ghost use Rattle.front_table.specs.Sets.{Has};
ghost use Rattle.front_table.specs.Levels.{to_go_at};
ghost use Rattle.front_table.specs.Pools.{Spreads, row_at};

use crate::ending::Ending;
use crate::holes::past;
use crate::outset::Outset;
use crate::stretch::Stretch;
use front_table::halt::Halt;
use front_table::labels::FrontLabel;
use front_table::levels::to_go;
use front_table::pools::LabelPool;
use front_table::sets::SizeSet;
use glass_base::Defect;
use glass_base::limits::MOST_PLATES;

/// So often the least side is looked at.
const LOOKS: u32 = 8;

/// Of some sides those at which a line up to a height runs through no defect, and maybe others: while the least one is
/// barred, those behind what bars it are left.
fn clear_of(holes: &[Defect], sides: SizeSet, height: u32, width: u32) -> SizeSet
    ensures { (right : ℕ) → Has sides right → right ≤ width
        → (right < width → LineClear holes.now height right) → Has result right }
{
    let mut clear = sides;
    for _ in 0..LOOKS {
        if clear.least > width {
            return clear;
        }
        let side = past(holes, clear.least, height, width);
        if side == clear.least {
            return clear;
        }
        clear = clear.meet(&SizeSet::above(u64::from(side)));
    }
    clear
}

/// Offers the right sides of the strips that a label stands for and that begin at one of these places.
fn offer_placed(
    ending: &Ending<'_>,
    holes: &[Defect],
    sides: &mut LabelPool,
    begin: &SizeSet,
    strip: &FrontLabel,
) -> Result<(), Halt>
    requires { ending.now.row < length sides.old }
    ensures spreads { OnOk result (Spreads (ending.now.row + 1) sides.old sides.new) }
    ensures held { OnOk result (EndsPlaced ending.now.instance.now holes.now ending.now.far
        ending.now.most sides.new ending.now.row ending.now.plate begin.now (strip.now ∷ [])) }
{
    let instance = ending.instance;
    let plate = ending.plate;
    let params = instance.params();
    if !strip.along.has(params.height) {
        return Ok(());
    }
    let width = instance.width(plate);
    let Some(sum) = begin.plus(&strip.across, width) else {
        return Ok(());
    };
    let clear = clear_of(holes, sum.meet(&strip.right), params.height, width);
    if clear.least > width {
        return Ok(());
    }
    let end = instance
        .before(plate)
        .saturating_add(u64::from(clear.least))
        .saturating_add(ending.far);
    if end > ending.most {
        return Ok(());
    }
    let offered = FrontLabel {
        along: clear,
        across: SizeSet::only(plate),
        right: SizeSet::all(),
        up: 0,
    };
    sides.offer(ending.row, &offered)?;
    Ok(())
}

/// Offers the right sides of the strips that labels stand for and that begin at one of these places.
fn offer_all_placed(
    ending: &Ending<'_>,
    holes: &[Defect],
    sides: &mut LabelPool,
    begin: &SizeSet,
    strips: &[FrontLabel],
) -> Result<(), Halt>
    requires { ending.now.row < length sides.old }
    ensures spreads { OnOk result (Spreads (ending.now.row + 1) sides.old sides.new) }
    ensures held { OnOk result (EndsPlaced ending.now.instance.now holes.now ending.now.far
        ending.now.most sides.new ending.now.row ending.now.plate begin.now strips.now) }
{
    for strip in strips {
        offer_placed(ending, holes, sides, begin, strip)?;
    }
    Ok(())
}

/// Offers the right sides of all strips of a search on a stretch of a plate.
pub fn offer_placed_ends(
    outset: &Outset<'_>,
    stretch: &Stretch<'_>,
    sides: &mut LabelPool,
    pool: &LabelPool,
    plate: u32,
) -> Result<(), Halt>
    requires sides { outset.now.row < length sides.old }
    requires pool { outset.now.row < length pool.now }
    requires plate { plate ≤ MOST_PLATES }
    ensures spreads { OnOk result (Spreads outset.now.row sides.old sides.new) }
    ensures held { OnOk result ((m : ℕ) → m < outset.now.row
        → EndsPlaced outset.now.fronts.instance.now stretch.now.holes.now
        (to_go_at outset.now.fronts.levels.now m) outset.now.most sides.new m plate
        stretch.now.site.left (row_at pool.now m)) }
{
    let low = pool.low();
    for row in low..outset.row {
        let far = to_go(outset.fronts.levels, row);
        let ending = Ending {
            instance: outset.fronts.instance,
            plate,
            row,
            far,
            most: outset.most,
        };
        offer_all_placed(
            &ending,
            stretch.holes,
            sides,
            &stretch.site.left,
            pool.labels(row),
        )?;
    }
    Ok(())
}
