//! Defects that an item or a cut of a decided step meets at every place of its ranges.

ghost use Rattle.std.specs.Prelude.{◌≡◌, ◌<◌, ◌≤◌, ◌↔◌, IsTrue, List};
ghost use Rattle.plan_trace.specs.declared.level.Level.{Level as LevelOf};
ghost use Rattle.plan_trace.specs.declared.level.Level.TheVariants.{NewCell, Over};
ghost use Rattle.plan_box.specs.Leasts.{Known};
ghost use Rattle.plan_box.specs.Reasons.{ItemR3, LiftR4, StepR4};
ghost use Rattle.cert_check.specs.inner.Knowns.{known_in};
ghost use Rattle.plan_box.specs.Facts.{CellMet, BandMet, StripMet};
ghost use Rattle.plan_box.specs.Within.{AreWithin};

use crate::steps::Decided;
use defect_map::{DefectMap, Ground};
use glass_base::limits::MOST_LENGTH;
use glass_base::{Instance, Params};
use plan_trace::level::Level;

/// Whether an item that hangs from the upper side of its band meets one defect everywhere.
fn hanging_met(defects: &DefectMap, here: &Decided) -> bool
    requires { AreWithin MOST_LENGTH (known_in here.now) }
    ensures { IsTrue result ↔ ItemR3 defects.now Over here.now.lift (known_in here.now) }
{
    let h = here.h;
    let along = (here.least_e, here.high_e);
    if h > here.least_d {
        return false;
    }
    let up = (here.least_d - h, here.high_d.saturating_sub(h));
    defects.hits_all(here.plate(), along, here.w, up, h)
}

/// Whether an item that stands on the lower side of its band does.
fn standing_met(defects: &DefectMap, here: &Decided) -> bool
    requires lift { here.now.lift ≡ 0 }
    requires within { AreWithin MOST_LENGTH (known_in here.now) }
    ensures { IsTrue result ↔ ItemR3 defects.now NewCell here.now.lift (known_in here.now) }
{
    let along = (here.least_e, here.high_e);
    let up = (here.least_c, here.high_c);
    defects.hits_all(here.plate(), along, here.w, up, here.h)
}

/// Whether the item meets one defect at every place of its ranges. It hangs where it is lifted, or lies over another one.
pub fn item_met(defects: &DefectMap, here: &Decided) -> bool
    requires { AreWithin MOST_LENGTH (known_in here.now) }
    ensures { IsTrue result ↔ ItemR3 defects.now here.now.level here.now.lift (known_in here.now) }
{
    if here.lift > 0 || matches!(here.level, Level::Over) {
        hanging_met(defects, here)
    } else {
        standing_met(defects, here)
    }
}

/// The sides of the strip.
fn strip_met(ground: Ground<'_>, here: &Decided) -> bool
    ensures { let b = ground.entry.instance.now in IsTrue result
        ↔ StripMet b b.defects (known_in here.now) }
{
    let plate = here.plate();
    let height = ground.instance.params().height;
    let left = 1 <= here.least_a
        && ground
            .map
            .crosses_x_all(plate, (here.least_a, here.high_a), 0, height);
    left || (here.high_b < ground.instance.width(plate)
        && ground
            .map
            .crosses_x_all(plate, (here.least_b, here.high_b), 0, height))
}

/// The sides of the band.
fn band_met(params: &Params, defects: &DefectMap, here: &Decided) -> bool
    ensures { IsTrue result ↔ BandMet params.now defects.now (known_in here.now) }
{
    let plate = here.plate();
    let lower = 1 <= here.least_c
        && defects.crosses_y_all(
            plate,
            (here.least_c, here.high_c),
            here.high_a,
            here.least_b,
        );
    lower
        || (here.high_d < params.height
            && defects.crosses_y_all(
                plate,
                (here.least_d, here.high_d),
                here.high_a,
                here.least_b,
            ))
}

/// The sides of the item's cell.
fn cell_met(defects: &DefectMap, here: &Decided) -> bool
    requires { AreWithin MOST_LENGTH (known_in here.now) }
    ensures { IsTrue result ↔ CellMet defects.now (known_in here.now) }
{
    let w = here.w;
    let plate = here.plate();
    let right = (here.least_e + w, here.high_e + w);
    let left = here.high_a < here.least_e
        && defects.crosses_x_all(
            plate,
            (here.least_e, here.high_e),
            here.high_c,
            here.least_d,
        );
    left || (right.1 < here.least_b
        && defects.crosses_x_all(plate, right, here.high_c, here.least_d))
}

/// The line below an item that is lifted.
fn lower_line_met(defects: &DefectMap, here: &Decided) -> bool
    requires lift { 1 ≤ here.now.lift }
    requires within { AreWithin MOST_LENGTH (known_in here.now) }
    ensures { IsTrue result ↔ LiftR4 defects.now NewCell here.now.lift (known_in here.now) }
{
    let h = here.h;
    if h > here.least_d {
        return false;
    }
    let up = (here.least_d - h, here.high_d.saturating_sub(h));
    defects.crosses_y_all(here.plate(), up, here.high_e, here.least_e + here.w)
}

/// The line above an item that is not lifted and does not fill its cell.
fn upper_line_met(defects: &DefectMap, here: &Decided) -> bool
    requires lift { here.now.lift ≡ 0 }
    requires within { AreWithin MOST_LENGTH (known_in here.now) }
    ensures { IsTrue result ↔ LiftR4 defects.now NewCell here.now.lift (known_in here.now) }
{
    let h = here.h;
    let up = (here.least_c + h, here.high_c + h);
    up.1 < here.least_d
        && defects.crosses_y_all(here.plate(), up, here.high_e, here.least_e + here.w)
}

/// The line above or below the item.
fn line_met(defects: &DefectMap, here: &Decided) -> bool
    requires { AreWithin MOST_LENGTH (known_in here.now) }
    ensures { IsTrue result ↔ LiftR4 defects.now here.now.level here.now.lift (known_in here.now) }
{
    if here.lift > 0 {
        lower_line_met(defects, here)
    } else {
        !matches!(here.level, Level::Over) && upper_line_met(defects, here)
    }
}

/// Whether a cut of the step runs through one defect at every place of its ranges.
pub fn cut_met(ground: Ground<'_>, here: &Decided) -> bool
    requires within { AreWithin MOST_LENGTH (known_in here.now) }
    ensures { (m : LevelOf) (j : Known) (later : List LevelOf) → IsTrue result
        ↔ StepR4 ground.entry.instance.now m j here.now.level (known_in here.now) later }
{
    strip_met(ground, here)
        || band_met(ground.instance.params(), ground.map, here)
        || cell_met(ground.map, here)
        || line_met(ground.map, here)
}
