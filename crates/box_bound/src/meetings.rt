//! Items and cuts that meet one defect at every place of their ranges, each as a test of one decided step.

ghost use Rattle.std.specs.Prelude.{◌≡◌, ◌+◌, ◌<◌, ◌≤◌, ◌⊎◌, ◌↔◌, IsTrue};
ghost use Rattle.glass_base.specs.Plates.{Width};
ghost use Rattle.plan_trace.specs.declared.level.Level.TheVariants.{NewCell, Over};
ghost use Rattle.plan_box.specs.Reasons.{CrossesXAll, CrossesYAll, ItemR3, LiftR4, StepR4};
ghost use Rattle.box_bound.specs.Kept.{late};
ghost use Rattle.plan_box.specs.Facts.{BandMet, CellMet, StripMet};
ghost use Rattle.plan_box.specs.Within.{AreWithin};

use crate::kept::Kept;
use defect_map::{DefectMap, Ground};
use glass_base::limits::MOST_LENGTH;
use glass_base::{Instance, Params};
use plan_trace::level::Level;

/// With its lower side at the lower side of the band.
fn low_met(map: &DefectMap, here: &Kept) -> bool
    requires lift { here.now.place.lift ≡ 0 }
    requires within { AreWithin MOST_LENGTH (late here.now) }
    ensures { IsTrue result ↔ ItemR3 map.now NewCell here.now.place.lift (late here.now) }
{
    let k = &here.ends;
    let p = &here.place;
    map.hits_all(
        p.plate(),
        (k.least_e, k.high_e),
        p.w,
        (k.least_c, k.high_c),
        p.h,
    )
}

/// With its upper side at the upper side of the band.
fn high_met(map: &DefectMap, here: &Kept) -> bool
    requires within { AreWithin MOST_LENGTH (late here.now) }
    ensures { IsTrue result ↔ ItemR3 map.now Over here.now.place.lift (late here.now) }
{
    let k = &here.ends;
    let p = &here.place;
    if k.least_d < p.h {
        return false;
    }
    let low = k.least_d - p.h;
    let high = k.high_d.saturating_sub(p.h);
    map.hits_all(p.plate(), (k.least_e, k.high_e), p.w, (low, high), p.h)
}

/// That of a step that begins a cell.
fn begun_met(map: &DefectMap, here: &Kept) -> bool
    requires within { AreWithin MOST_LENGTH (late here.now) }
    ensures { IsTrue result ↔ ItemR3 map.now NewCell here.now.place.lift (late here.now) }
{
    if here.place.lift == 0 {
        low_met(map, here)
    } else {
        high_met(map, here)
    }
}

/// Whether the item meets one defect at every place of its ranges.
pub fn item_met(map: &DefectMap, here: &Kept) -> bool
    requires within { AreWithin MOST_LENGTH (late here.now) }
    ensures { IsTrue result ↔ ItemR3 map.now here.now.level here.now.place.lift (late here.now) }
{
    if matches!(here.level, Level::Over) {
        high_met(map, here)
    } else {
        begun_met(map, here)
    }
}

/// The sides of the strip.
fn strip_met(ground: Ground<'_>, here: &Kept) -> bool
    ensures { let b = ground.entry.instance.now in IsTrue result
        ↔ StripMet b b.defects (late here.now) }
{
    let k = &here.ends;
    let plate = here.place.plate();
    let height = ground.instance.params().height;
    (1 <= k.least_a
        && ground
            .map
            .crosses_x_all(plate, (k.least_a, k.high_a), 0, height))
        || (k.high_b < ground.instance.width(plate)
            && ground
                .map
                .crosses_x_all(plate, (k.least_b, k.high_b), 0, height))
}

/// The sides of the band.
fn band_met(params: &Params, map: &DefectMap, here: &Kept) -> bool
    ensures { IsTrue result ↔ BandMet params.now map.now (late here.now) }
{
    let k = &here.ends;
    let plate = here.place.plate();
    (1 <= k.least_c && map.crosses_y_all(plate, (k.least_c, k.high_c), k.high_a, k.least_b))
        || (k.high_d < params.height
            && map.crosses_y_all(plate, (k.least_d, k.high_d), k.high_a, k.least_b))
}

/// The sides of the item's cell.
fn cell_met(map: &DefectMap, here: &Kept) -> bool
    requires within { AreWithin MOST_LENGTH (late here.now) }
    ensures { IsTrue result ↔ CellMet map.now (late here.now) }
{
    let k = &here.ends;
    let plate = here.place.plate();
    let w = here.place.w;
    (k.high_a < k.least_e && map.crosses_x_all(plate, (k.least_e, k.high_e), k.high_c, k.least_d))
        || (k.high_e + w < k.least_b
            && map.crosses_x_all(plate, (k.least_e + w, k.high_e + w), k.high_c, k.least_d))
}

/// The line above an item that does not fill its cell.
fn upper_met(map: &DefectMap, here: &Kept) -> bool
    requires lift { here.now.place.lift ≡ 0 }
    requires within { AreWithin MOST_LENGTH (late here.now) }
    ensures { IsTrue result ↔ LiftR4 map.now NewCell here.now.place.lift (late here.now) }
{
    let k = &here.ends;
    let p = &here.place;
    k.high_c + p.h < k.least_d
        && map.crosses_y_all(
            p.plate(),
            (k.least_c + p.h, k.high_c + p.h),
            k.high_e,
            k.least_e + p.w,
        )
}

/// The line below an item that is lifted.
fn lower_met(map: &DefectMap, here: &Kept) -> bool
    requires lift { 1 ≤ here.now.place.lift }
    requires within { AreWithin MOST_LENGTH (late here.now) }
    ensures begun { IsTrue result ↔ LiftR4 map.now NewCell here.now.place.lift (late here.now) }
    ensures over { IsTrue result ↔ LiftR4 map.now Over here.now.place.lift (late here.now) }
{
    let k = &here.ends;
    let p = &here.place;
    if k.least_d < p.h {
        return false;
    }
    let low = k.least_d - p.h;
    let high = k.high_d.saturating_sub(p.h);
    map.crosses_y_all(p.plate(), (low, high), k.high_e, k.least_e + p.w)
}

/// The line of a step that begins a cell.
fn begun_line_met(map: &DefectMap, here: &Kept) -> bool
    requires within { AreWithin MOST_LENGTH (late here.now) }
    ensures { IsTrue result ↔ LiftR4 map.now NewCell here.now.place.lift (late here.now) }
{
    if here.place.lift == 0 {
        upper_met(map, here)
    } else {
        lower_met(map, here)
    }
}

/// The line of a step over another one.
fn over_line_met(map: &DefectMap, here: &Kept) -> bool
    requires within { AreWithin MOST_LENGTH (late here.now) }
    ensures { IsTrue result ↔ LiftR4 map.now Over here.now.place.lift (late here.now) }
{
    if here.place.lift == 0 {
        false
    } else {
        lower_met(map, here)
    }
}

/// The line above or below the item.
fn line_met(map: &DefectMap, here: &Kept) -> bool
    requires within { AreWithin MOST_LENGTH (late here.now) }
    ensures { IsTrue result ↔ LiftR4 map.now here.now.level here.now.place.lift (late here.now) }
{
    if matches!(here.level, Level::Over) {
        over_line_met(map, here)
    } else {
        begun_line_met(map, here)
    }
}

/// Whether a cut of a step runs through one defect at every place of its ranges.
pub fn cut_met(ground: Ground<'_>, last: &Kept, here: &Kept) -> bool
    requires within { AreWithin MOST_LENGTH (late here.now) }
    ensures { let b = ground.entry.instance.now in
        (StripMet b b.defects (late here.now) ⊎ BandMet b.params b.defects (late here.now)
        ⊎ CellMet b.defects (late here.now)
        ⊎ LiftR4 b.defects here.now.level here.now.place.lift (late here.now)) ↔ IsTrue result }
{
    let _last = last;
    strip_met(ground, here)
        || band_met(ground.instance.params(), ground.map, here)
        || cell_met(ground.map, here)
        || line_met(ground.map, here)
}
