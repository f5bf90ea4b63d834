//! Where strips end, plate by plate.

ghost use Rattle.std.specs.Prelude.{◌≡◌, ℕ, suc, ◌+◌, ◌*◌, ◌<◌, ◌≤◌, length, OnOk};
ghost use Rattle.glass_base.specs.Plates.{Before, Width};
ghost use Rattle.plan_trace.specs.TraceRules.{Gap};
ghost use Rattle.front_table.specs.Levels.{to_go_at};
ghost use Rattle.front_table.specs.Pools.{HeldAt, Spreads};
ghost use Rattle.front_table.specs.Sets.{Fits, Has, Held};
ghost use Rattle.front_bound.specs.Sides.{EndsHeld, NextHeld};

use crate::ending::Ending;
use crate::outset::Outset;
use front_table::halt::Halt;
use front_table::labels::{FrontLabel, offer};
use front_table::levels::to_go;
use front_table::pools::LabelPool;
use front_table::sets::SizeSet;
use glass_base::limits::MOST_PLATES;

/// Offers the right sides of a strip, whose widths a label stands for, behind what a label of the same plate stands for.
fn offer_end(
    ending: &Ending<'_>,
    sides: &mut LabelPool,
    begin: &FrontLabel,
    strip: &FrontLabel,
) -> Result<(), Halt>
    requires { ending.now.row < length sides.old }
    ensures spreads { OnOk result (Spreads (ending.now.row + 1) sides.old sides.new) }
    ensures held { OnOk result ((from width : ℕ) → Has begin.now.along from
        → Has strip.now.across width → EndsHeld ending.now.instance.now ending.now.far
        ending.now.most sides.new ending.now.row ending.now.plate from width) }
{
    let instance = ending.instance;
    let plate = ending.plate;
    let Some(sum) = begin.along.plus(&strip.across, instance.width(plate)) else {
        return Ok(());
    };
    let end = instance
        .before(plate)
        .saturating_add(u64::from(sum.least))
        .saturating_add(ending.far);
    if end > ending.most {
        return Ok(());
    }
    let side = FrontLabel {
        along: sum.closed(instance.params().waste),
        across: SizeSet::only(plate),
        right: SizeSet::all(),
        up: 0,
    };
    sides.offer(ending.row, &side)?;
    Ok(())
}

/// Offers the right sides of a strip behind what a label stands for, where that is on the plate.
fn offer_end_of(
    ending: &Ending<'_>,
    sides: &mut LabelPool,
    begin: &FrontLabel,
    strip: &FrontLabel,
) -> Result<(), Halt>
    requires { ending.now.row < length sides.old }
    ensures spreads { OnOk result (Spreads (ending.now.row + 1) sides.old sides.new) }
    ensures held { OnOk result ((from width : ℕ) → Fits begin.now from ending.now.plate
        → Has strip.now.across width → EndsHeld ending.now.instance.now ending.now.far
        ending.now.most sides.new ending.now.row ending.now.plate from width) }
{
    if !begin.across.has(ending.plate) {
        return Ok(());
    }
    offer_end(ending, sides, begin, strip)
}

/// Offers the right sides of a strip behind each of the begins.
fn offer_ends_of(
    ending: &Ending<'_>,
    sides: &mut LabelPool,
    begins: &[FrontLabel],
    strip: &FrontLabel,
) -> Result<(), Halt>
    requires { ending.now.row < length sides.old }
    ensures spreads { OnOk result (Spreads (ending.now.row + 1) sides.old sides.new) }
    ensures held { OnOk result ((from width : ℕ) → Held begins.now from ending.now.plate
        → Has strip.now.across width → EndsHeld ending.now.instance.now ending.now.far
        ending.now.most sides.new ending.now.row ending.now.plate from width) }
{
    for begin in begins {
        offer_end_of(ending, sides, begin, strip)?;
    }
    Ok(())
}

/// Offers the right sides of a strip behind each of the begins, where it fills the plate's height.
fn offer_ends_by(
    ending: &Ending<'_>,
    sides: &mut LabelPool,
    begins: &[FrontLabel],
    strip: &FrontLabel,
    height: u32,
) -> Result<(), Halt>
    requires { ending.now.row < length sides.old }
    ensures spreads { OnOk result (Spreads (ending.now.row + 1) sides.old sides.new) }
    ensures held { OnOk result ((from width : ℕ) → Held begins.now from ending.now.plate
        → Fits strip.now height width → EndsHeld ending.now.instance.now ending.now.far
        ending.now.most sides.new ending.now.row ending.now.plate from width) }
{
    if !strip.along.has(height) {
        return Ok(());
    }
    offer_ends_of(ending, sides, begins, strip)
}

/// Offers the right sides of the strips that end at a row behind each of the begins.
fn offer_ends_at(
    ending: &Ending<'_>,
    sides: &mut LabelPool,
    begins: &[FrontLabel],
    strips: &[FrontLabel],
    height: u32,
) -> Result<(), Halt>
    requires { ending.now.row < length sides.old }
    ensures spreads { OnOk result (Spreads (ending.now.row + 1) sides.old sides.new) }
    ensures held { OnOk result ((from width : ℕ) → Held begins.now from ending.now.plate
        → Held strips.now height width → EndsHeld ending.now.instance.now ending.now.far
        ending.now.most sides.new ending.now.row ending.now.plate from width) }
{
    for strip in strips {
        offer_ends_by(ending, sides, begins, strip, height)?;
    }
    Ok(())
}

/// Offers the right sides of all strips of a search behind each of the begins.
pub fn offer_ends(
    outset: &Outset<'_>,
    sides: &mut LabelPool,
    pool: &LabelPool,
    begins: &[FrontLabel],
    plate: u32,
) -> Result<(), Halt>
    requires sides { outset.now.row < length sides.old }
    requires pool { outset.now.row < length pool.now }
    requires plate { plate ≤ MOST_PLATES }
    ensures spreads { OnOk result (Spreads outset.now.row sides.old sides.new) }
    ensures held { OnOk result ((m from width : ℕ) → m < outset.now.row → Held begins.now from plate
        → HeldAt pool.now m outset.now.fronts.instance.now.params.height width
        → EndsHeld outset.now.fronts.instance.now
        (to_go_at outset.now.fronts.levels.now m) outset.now.most sides.new m plate from width) }
{
    let height = outset.fronts.instance.params().height;
    let low = pool.low();
    for row in low..outset.row {
        let far = to_go(outset.fronts.levels, row);
        let ending = Ending {
            instance: outset.fronts.instance,
            plate,
            row,
            far,
            most: outset.most,
        };
        offer_ends_at(&ending, sides, begins, pool.labels(row), height)?;
    }
    Ok(())
}
