//! The rules of a trace on defects, each as a test of one step that is in its place.

ghost use Rattle.std.specs.Prelude.{◌≡◌, ◌↔◌, ◌+◌, ◌-◌, ◌<◌, ◌≤◌, IsTrue};
ghost use Rattle.plan_trace.specs.inner.Laid.{BandClear, CellClear, cut_of, IsFitted, LowerClear, StripClear, UpperClear};
ghost use Rattle.plan_trace.specs.TraceRules.{LiftLine, TR8, TR9, bottom as bottom_of};

use crate::laid::Laid;
use crate::level::Level;
use defect_map::Ground;

/// The lower side of a step's item.
fn bottom(s: &Laid) -> u32
    requires { s.now.h ≤ s.now.step.d }
    ensures { result ≡ bottom_of s.now.level s.now.step.lift s.now.step.c s.now.step.d s.now.h }
{
    let high = s.step.d - s.h;
    let low = if s.step.lift == 0 { s.step.c } else { high };
    match s.level {
        Level::NewPlate => low,
        Level::NewStrip => low,
        Level::NewBand => low,
        Level::NewCell => low,
        Level::Over => high,
    }
}

/// Whether the inside of the item meets no defect.
pub fn keeps8(ground: Ground<'_>, s: &Laid) -> bool
    requires { IsFitted s.now }
    ensures { IsTrue result ↔ TR8 ground.entry.instance.now.defects s.now.level (cut_of s.now) }
{
    let y = bottom(s);
    ground.is_clear(
        s.plates.saturating_sub(1),
        s.step.e,
        y,
        s.step.e + s.w,
        y + s.h,
    )
}

/// Whether the sides of the strip run through no defect.
fn strip_clear(ground: Ground<'_>, s: &Laid) -> bool
    ensures { let b = ground.entry.instance.now in IsTrue result
        ↔ StripClear b b.defects (cut_of s.now) }
{
    let height = ground.instance.params().height;
    let plate = s.plates.saturating_sub(1);
    (s.step.a == 0 || ground.is_clear_x(plate, s.step.a, 0, height))
        && (s.step.b >= ground.instance.width(plate)
            || ground.is_clear_x(plate, s.step.b, 0, height))
}

/// Whether the sides of the band run through no defect.
fn band_clear(ground: Ground<'_>, s: &Laid) -> bool
    requires { IsFitted s.now }
    ensures { let b = ground.entry.instance.now in IsTrue result
        ↔ BandClear b.params b.defects (cut_of s.now) }
{
    let height = ground.instance.params().height;
    let plate = s.plates.saturating_sub(1);
    (s.step.c == 0 || ground.is_clear_y(plate, s.step.c, s.step.a, s.step.b))
        && (s.step.d >= height || ground.is_clear_y(plate, s.step.d, s.step.a, s.step.b))
}

/// Whether the sides of the item's cell run through no defect.
fn cell_clear(ground: Ground<'_>, s: &Laid) -> bool
    requires { IsFitted s.now }
    ensures { IsTrue result ↔ CellClear ground.entry.instance.now.defects (cut_of s.now) }
{
    let plate = s.plates.saturating_sub(1);
    let end = s.step.e + s.w;
    (s.step.e <= s.step.a || ground.is_clear_x(plate, s.step.e, s.step.c, s.step.d))
        && (end >= s.step.b || ground.is_clear_x(plate, end, s.step.c, s.step.d))
}

/// Whether the line above an item that does not fill its cell runs through no defect.
fn upper_clear(ground: Ground<'_>, s: &Laid) -> bool
    requires { IsFitted s.now }
    ensures { IsTrue result ↔ UpperClear ground.entry.instance.now.defects (cut_of s.now) }
{
    let top = s.step.c + s.h;
    top >= s.step.d || ground.is_clear_y(s.plates.saturating_sub(1), top, s.step.e, s.step.e + s.w)
}

/// Whether the line below a lifted item runs through no defect.
fn lower_clear(ground: Ground<'_>, s: &Laid) -> bool
    requires { IsFitted s.now }
    ensures { IsTrue result ↔ LowerClear ground.entry.instance.now.defects (cut_of s.now) }
{
    ground.is_clear_y(
        s.plates.saturating_sub(1),
        s.step.d - s.h,
        s.step.e,
        s.step.e + s.w,
    )
}

/// Whether the line between the item and the waste of its cell runs through no defect.
fn lift_clear(ground: Ground<'_>, s: &Laid) -> bool
    requires { IsFitted s.now }
    ensures { IsTrue result ↔ LiftLine ground.entry.instance.now.defects s.now.level s.now.step.lift
        (cut_of s.now) }
{
    if s.step.lift != 0 {
        return lower_clear(ground, s);
    }
    match s.level {
        Level::NewPlate => upper_clear(ground, s),
        Level::NewStrip => upper_clear(ground, s),
        Level::NewBand => upper_clear(ground, s),
        Level::NewCell => upper_clear(ground, s),
        Level::Over => true,
    }
}

/// Whether the sides of strip and band run through no defect.
fn outer_clear(ground: Ground<'_>, s: &Laid) -> bool
    requires { IsFitted s.now }
    ensures { let b = ground.entry.instance.now in IsTrue result
        ↔ (StripClear b b.defects (cut_of s.now) × BandClear b.params b.defects (cut_of s.now)) }
{
    strip_clear(ground, s) && band_clear(ground, s)
}

/// Whether the lines in the band run through no defect.
fn inner_clear(ground: Ground<'_>, s: &Laid) -> bool
    requires { IsFitted s.now }
    ensures { let defects = ground.entry.instance.now.defects in IsTrue result
        ↔ (CellClear defects (cut_of s.now)
        × LiftLine defects s.now.level s.now.step.lift (cut_of s.now)) }
{
    cell_clear(ground, s) && lift_clear(ground, s)
}

/// Whether the lines of the step's cuts run through no defect.
pub fn keeps9(ground: Ground<'_>, s: &Laid) -> bool
    requires { IsFitted s.now }
    ensures { let b = ground.entry.instance.now in IsTrue result
        ↔ TR9 b b.defects s.now.level (cut_of s.now) }
{
    outer_clear(ground, s) && inner_clear(ground, s)
}
