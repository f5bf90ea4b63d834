//! Gaps that can only be 1 to `waste - 1`, beside the pieces of a decided step.

ghost use Rattle.std.specs.Prelude.{◌≡◌, ◌+◌, ◌<◌, ◌⊎◌, ◌↔◌, ◌^◌, Bool, IsTrue};
ghost use Rattle.glass_base.specs.Plates.{Width};
ghost use Rattle.glass_base.specs.declared.params.Params.{Params as ParamsOf};
ghost use Rattle.plan_trace.specs.declared.level.Level.{Level as LevelOf};
ghost use Rattle.plan_box.specs.Leasts.{Known};
ghost use Rattle.plan_trace.specs.TraceRules.{is_last_band as last_band, is_last_cell as last_cell, is_last_strip as last_strip};
ghost use Rattle.plan_trace.specs.declared.level.Level.TheVariants.{NewCell, Over};
ghost use Rattle.plan_box.specs.Reasons.{BandR2, CellR2, StepR2, StripR2, Tight, TopR2};
ghost use Rattle.cert_check.specs.inner.Knowns.{known_in, levels_in};

use crate::looks::{is_last_band, is_last_cell, is_last_in_cell, is_last_strip};
use crate::steps::Decided;
use glass_base::{Instance, Params};
use plan_trace::level::Level;

/// A gap between two cuts, each of which is given as its least value and its high end.
#[derive(Clone, Copy)]
struct Gap {
    from: (u64, u64),
    to: (u64, u64),
}

/// Whether a gap can only be 1 to `waste - 1`.
fn is_tight(waste: u32, gap: Gap) -> bool
    requires { gap.from.0 < 2 ^ 40 }
    ensures { IsTrue result ↔ Tight waste gap.from.0 gap.from.1 gap.to.0 gap.to.1 }
{
    gap.from.1 < gap.to.0 && gap.to.1 < gap.from.0 + u64::from(waste)
}

/// Whether the gap before a piece can only be so narrow; or the one behind it, up to the end of the room, where the piece is
/// the last one.
fn is_wedged(waste: u32, before: Gap, is_last: bool, behind: Gap) -> bool
    requires before { before.from.0 < 2 ^ 40 }
    requires behind { behind.from.0 < 2 ^ 40 }
    ensures { IsTrue result
        ↔ (Tight waste before.from.0 before.from.1 before.to.0 before.to.1
        ⊎ (IsTrue is_last
        × Tight waste behind.from.0 behind.from.1 behind.to.0 behind.to.1)) }
{
    is_tight(waste, before) || (is_last && is_tight(waste, behind))
}

/// A cut with this least value and this high end.
fn cut(least: u32, high: u32) -> (u64, u64)
    ensures least { result.0 ≡ least }
    ensures high { result.1 ≡ high }
    ensures small { result.0 < 2 ^ 40 }
{
    (u64::from(least), u64::from(high))
}

/// The cut that lies so far behind this one.
fn cut_behind(least: u32, high: u32, by: u32) -> (u64, u64)
    ensures least { result.0 ≡ least + by }
    ensures high { result.1 ≡ high + by }
    ensures small { result.0 < 2 ^ 40 }
{
    (
        u64::from(least) + u64::from(by),
        u64::from(high) + u64::from(by),
    )
}

/// The gap before a strip that stands behind this, or behind the last one of a finished plate.
fn strip_behind(
    instance: &Instance,
    whole: bool,
    before: (u64, u64),
    here: &Decided,
    later: &[Decided],
) -> bool
    requires { before.0 < 2 ^ 40 }
    ensures { let k = known_in here.now in IsTrue result
        ↔ (Tight instance.now.params.waste before.0 before.1 k.least_a k.high_a
        ⊎ (IsTrue (last_strip whole (levels_in later.now))
        × Tight instance.now.params.waste k.least_b k.high_b (Width instance.now k.plate)
        (Width instance.now k.plate))) }
{
    let width = instance.width(here.plate());
    let gap = Gap {
        from: before,
        to: cut(here.least_a, here.high_a),
    };
    let behind = Gap {
        from: cut(here.least_b, here.high_b),
        to: cut(width, width),
    };
    is_wedged(
        instance.params().waste,
        gap,
        is_last_strip(whole, later),
        behind,
    )
}

/// The gaps beside a strip that the step begins.
fn strip_gap(
    instance: &Instance,
    whole: bool,
    last: &Decided,
    here: &Decided,
    later: &[Decided],
) -> bool
    ensures { IsTrue result ↔ StripR2 instance.now whole here.now.level (known_in last.now)
        (known_in here.now) (levels_in later.now) }
{
    let strip_before = cut(last.least_b, last.high_b);
    match here.level {
        Level::NewPlate => strip_behind(instance, whole, (0, 0), here, later),
        Level::NewStrip => strip_behind(instance, whole, strip_before, here, later),
        Level::NewBand | Level::NewCell | Level::Over => false,
    }
}

/// The gap before a band that stands behind this, or behind the last one of a finished strip.
fn band_behind(
    params: &Params,
    whole: bool,
    before: (u64, u64),
    here: &Decided,
    later: &[Decided],
) -> bool
    requires { before.0 < 2 ^ 40 }
    ensures { let k = known_in here.now in IsTrue result
        ↔ (Tight params.now.waste before.0 before.1 k.least_c k.high_c
        ⊎ (IsTrue (last_band whole (levels_in later.now))
        × Tight params.now.waste k.least_d k.high_d params.now.height params.now.height)) }
{
    let height = params.height;
    let gap = Gap {
        from: before,
        to: cut(here.least_c, here.high_c),
    };
    let behind = Gap {
        from: cut(here.least_d, here.high_d),
        to: cut(height, height),
    };
    is_wedged(params.waste, gap, is_last_band(whole, later), behind)
}

/// The gaps beside a band that the step begins.
fn band_gap(params: &Params, whole: bool, last: &Decided, here: &Decided, later: &[Decided]) -> bool
    ensures { IsTrue result ↔ BandR2 params.now whole here.now.level (known_in last.now)
        (known_in here.now) (levels_in later.now) }
{
    let band_before = cut(last.least_d, last.high_d);
    match here.level {
        Level::NewPlate | Level::NewStrip => band_behind(params, whole, (0, 0), here, later),
        Level::NewBand => band_behind(params, whole, band_before, here, later),
        Level::NewCell | Level::Over => false,
    }
}

/// The gap before a cell that stands behind this, or behind the last one of a finished band.
fn cell_behind(
    params: &Params,
    whole: bool,
    before: (u64, u64),
    here: &Decided,
    later: &[Decided],
) -> bool
    requires { before.0 < 2 ^ 40 }
    ensures { let k = known_in here.now in IsTrue result
        ↔ (Tight params.now.waste before.0 before.1 k.least_e k.high_e
        ⊎ (IsTrue (last_cell whole (levels_in later.now))
        × Tight params.now.waste (k.least_e + k.cell_w) (k.high_e + k.cell_w) k.least_b k.high_b)) }
{
    let gap = Gap {
        from: before,
        to: cut(here.least_e, here.high_e),
    };
    let behind = Gap {
        from: cut_behind(here.least_e, here.high_e, here.cell_w),
        to: cut(here.least_b, here.high_b),
    };
    is_wedged(params.waste, gap, is_last_cell(whole, later), behind)
}

/// The gaps beside a cell that the step begins.
fn cell_gap(params: &Params, whole: bool, last: &Decided, here: &Decided, later: &[Decided]) -> bool
    ensures { IsTrue result ↔ CellR2 params.now whole here.now.level (known_in last.now)
        (known_in here.now) (levels_in later.now) }
{
    let strip = cut(here.least_a, here.high_a);
    let cell_before = cut_behind(last.least_e, last.high_e, last.cell_w);
    match here.level {
        Level::NewPlate | Level::NewStrip | Level::NewBand => {
            cell_behind(params, whole, strip, here, later)
        }
        Level::NewCell => cell_behind(params, whole, cell_before, here, later),
        Level::Over => false,
    }
}

/// What is left over the only item of a finished cell, where it is not lifted.
fn over_one(params: &Params, whole: bool, here: &Decided, later: &[Decided]) -> bool
    ensures { (m : LevelOf) (j : Known) → IsTrue result
        ↔ TopR2 params.now whole m NewCell here.now.lift j (known_in here.now)
        (levels_in later.now) }
{
    here.lift == 0
        && is_last_in_cell(whole, later)
        && is_tight(
            params.waste,
            Gap {
                from: cut_behind(here.least_c, here.high_c, here.h),
                to: cut(here.least_d, here.high_d),
            },
        )
}

/// What is left over the second item of a cell with no third one.
fn over_two(last: &Decided, here: &Decided, later: &[Decided]) -> bool
    ensures { (p : ParamsOf) (whole : Bool) → IsTrue result
        ↔ TopR2 p whole last.now.level Over here.now.lift (known_in last.now) (known_in here.now)
        (levels_in later.now) }
{
    let high_c = here.high_c;
    let both = u64::from(last.h) + u64::from(here.h);
    let top = u64::from(high_c) + both;
    !matches!(last.level, Level::Over)
        && is_last_in_cell(true, later)
        && top < u64::from(here.least_d)
}

/// What is left over the items of a cell.
fn top_gap(params: &Params, whole: bool, last: &Decided, here: &Decided, later: &[Decided]) -> bool
    ensures { IsTrue result ↔ TopR2 params.now whole last.now.level here.now.level here.now.lift
        (known_in last.now) (known_in here.now) (levels_in later.now) }
{
    if matches!(here.level, Level::Over) {
        over_two(last, here, later)
    } else {
        over_one(params, whole, here, later)
    }
}

/// Whether some gap beside the pieces of a step can only be 1 to `waste - 1`; `whole` where all steps are decided.
pub fn has_narrow_gap(
    instance: &Instance,
    whole: bool,
    last: &Decided,
    here: &Decided,
    later: &[Decided],
) -> bool
    ensures { IsTrue result ↔ StepR2 instance.now whole last.now.level
        (known_in last.now) here.now.level (known_in here.now) (levels_in later.now) }
{
    let params = instance.params();
    strip_gap(instance, whole, last, here, later)
        || band_gap(params, whole, last, here, later)
        || cell_gap(params, whole, last, here, later)
        || top_gap(params, whole, last, here, later)
}
