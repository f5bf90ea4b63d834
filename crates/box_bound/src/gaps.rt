//! Gaps that can only be 1 to `waste - 1`, each as a test of one decided step.

ghost use Rattle.std.specs.Prelude.{◌≡◌, ◌+◌, ◌<◌, ◌≤◌, ◌⊎◌, ◌↔◌, ◌^◌, IsTrue, true};
ghost use Rattle.glass_base.specs.Plates.{Width};
ghost use Rattle.plan_trace.specs.TraceRules.{is_last_band as last_band, is_last_cell as last_cell, is_last_in_cell as last_in_cell, is_last_strip as last_strip};
ghost use Rattle.plan_trace.specs.declared.level.Level.TheVariants.{NewCell, Over};
ghost use Rattle.plan_box.specs.Reasons.{BandR2, CellR2, StepR2, StripR2, Tight, TopR2};
ghost use Rattle.box_bound.specs.Kept.{late};
ghost use Rattle.box_bound.specs.inner.Drawn.{levels_of};

use crate::kept::Kept;
use crate::looks::{is_last_band, is_last_cell, is_last_in_cell, is_last_strip};
use glass_base::{Instance, Params};
use plan_box::Packed;
use plan_trace::level::Level;

/// Whether the gap between two cuts with these least values and high ends can only be 1 to `waste - 1`.
fn is_tight(waste: u32, from: (u64, u64), to: (u64, u64)) -> bool
    requires { from.0 < 2 ^ 40 }
    ensures { IsTrue result ↔ Tight waste from.0 from.1 to.0 to.1 }
{
    from.1 < to.0 && to.1 < from.0 + u64::from(waste)
}

/// Two numbers, widened.
fn wide(low: u32, high: u32) -> (u64, u64)
    ensures low { result.0 ≡ low }
    ensures high { result.1 ≡ high }
{
    (u64::from(low), u64::from(high))
}

/// Where the cell of a step ends: at least, and at most.
fn cell_end(step: &Kept) -> (u64, u64)
    ensures low { result.0 ≡ step.now.ends.least_e + step.now.place.cell_w }
    ensures high { result.1 ≡ step.now.ends.high_e + step.now.place.cell_w }
    ensures small { result.0 < 2 ^ 40 }
{
    let least = step.ends.least_e;
    let high = step.ends.high_e;
    let w = step.place.cell_w;
    (
        u64::from(least) + u64::from(w),
        u64::from(high) + u64::from(w),
    )
}

/// The gap before a strip that stands behind what ends so, or behind the last one of a finished plate.
fn strip_from(
    instance: &Instance,
    whole: bool,
    from: (u64, u64),
    here: &Kept,
    later: &[Packed],
) -> bool
    requires { from.0 < 2 ^ 40 }
    ensures { let k = late here.now in IsTrue result
        ↔ (Tight instance.now.params.waste from.0 from.1 k.least_a k.high_a
        ⊎ (IsTrue (last_strip whole (levels_of later.now))
        × Tight instance.now.params.waste k.least_b k.high_b (Width instance.now k.plate)
        (Width instance.now k.plate))) }
{
    let k = &here.ends;
    let width = instance.width(here.place.plate());
    let waste = instance.params().waste;
    is_tight(waste, from, wide(k.least_a, k.high_a))
        || (is_tight(waste, wide(k.least_b, k.high_b), wide(width, width))
            && is_last_strip(whole, later))
}

/// The gaps beside a strip.
fn strip(instance: &Instance, whole: bool, last: &Kept, here: &Kept, later: &[Packed]) -> bool
    ensures { IsTrue result ↔ StripR2 instance.now whole here.now.level (late last.now)
        (late here.now) (levels_of later.now) }
{
    match here.level {
        Level::NewPlate => strip_from(instance, whole, (0, 0), here, later),
        Level::NewStrip => strip_from(
            instance,
            whole,
            wide(last.ends.least_b, last.ends.high_b),
            here,
            later,
        ),
        Level::NewBand | Level::NewCell | Level::Over => false,
    }
}

/// The gap before a band that stands behind what ends so, or behind the last one of a finished strip.
fn band_from(params: &Params, whole: bool, from: (u64, u64), here: &Kept, later: &[Packed]) -> bool
    requires { from.0 < 2 ^ 40 }
    ensures { let k = late here.now in IsTrue result
        ↔ (Tight params.now.waste from.0 from.1 k.least_c k.high_c
        ⊎ (IsTrue (last_band whole (levels_of later.now))
        × Tight params.now.waste k.least_d k.high_d params.now.height params.now.height)) }
{
    let k = &here.ends;
    let height = params.height;
    is_tight(params.waste, from, wide(k.least_c, k.high_c))
        || (is_tight(
            params.waste,
            wide(k.least_d, k.high_d),
            wide(height, height),
        ) && is_last_band(whole, later))
}

/// The gaps beside a band.
fn band(params: &Params, whole: bool, last: &Kept, here: &Kept, later: &[Packed]) -> bool
    ensures { IsTrue result ↔ BandR2 params.now whole here.now.level (late last.now) (late here.now)
        (levels_of later.now) }
{
    match here.level {
        Level::NewPlate | Level::NewStrip => band_from(params, whole, (0, 0), here, later),
        Level::NewBand => band_from(
            params,
            whole,
            wide(last.ends.least_d, last.ends.high_d),
            here,
            later,
        ),
        Level::NewCell | Level::Over => false,
    }
}

/// The gap before a cell that stands behind what ends so, or behind the last one of a finished band.
fn cell_from(params: &Params, whole: bool, from: (u64, u64), here: &Kept, later: &[Packed]) -> bool
    requires { from.0 < 2 ^ 40 }
    ensures { let k = late here.now in IsTrue result
        ↔ (Tight params.now.waste from.0 from.1 k.least_e k.high_e
        ⊎ (IsTrue (last_cell whole (levels_of later.now))
        × Tight params.now.waste (k.least_e + k.cell_w) (k.high_e + k.cell_w) k.least_b k.high_b)) }
{
    let k = &here.ends;
    is_tight(params.waste, from, wide(k.least_e, k.high_e))
        || (is_tight(params.waste, cell_end(here), wide(k.least_b, k.high_b))
            && is_last_cell(whole, later))
}

/// The gaps beside a cell.
fn cell(params: &Params, whole: bool, last: &Kept, here: &Kept, later: &[Packed]) -> bool
    ensures { IsTrue result ↔ CellR2 params.now whole here.now.level (late last.now) (late here.now)
        (levels_of later.now) }
{
    let left = wide(here.ends.least_a, here.ends.high_a);
    match here.level {
        Level::NewPlate | Level::NewStrip | Level::NewBand => {
            cell_from(params, whole, left, here, later)
        }
        Level::NewCell => cell_from(params, whole, cell_end(last), here, later),
        Level::Over => false,
    }
}

/// What is left over a single item of a finished cell that is not lifted.
fn alone(params: &Params, whole: bool, last: &Kept, here: &Kept, later: &[Packed]) -> bool
    ensures { IsTrue result ↔ TopR2 params.now whole last.now.level NewCell here.now.place.lift
        (late last.now) (late here.now) (levels_of later.now) }
{
    let k = &here.ends;
    let h = u64::from(here.place.h);
    let _last = last;
    if here.place.lift != 0 {
        return false;
    }
    let least = k.least_c;
    let high = k.high_c;
    let under = (u64::from(least) + h, u64::from(high) + h);
    is_tight(params.waste, under, wide(k.least_d, k.high_d)) && is_last_in_cell(whole, later)
}

/// What is left over two items in a cell with exactly two steps.
fn two(params: &Params, whole: bool, last: &Kept, here: &Kept, later: &[Packed]) -> bool
    ensures { IsTrue result ↔ TopR2 params.now whole last.now.level Over here.now.place.lift
        (late last.now) (late here.now) (levels_of later.now) }
{
    let k = &here.ends;
    let _params = params;
    let _whole = whole;
    let tops = u64::from(k.high_c) + (u64::from(last.place.h) + u64::from(here.place.h));
    !matches!(last.level, Level::Over)
        && tops < u64::from(k.least_d)
        && is_last_in_cell(true, later)
}

/// What is left over the items of a cell.
fn top(params: &Params, whole: bool, last: &Kept, here: &Kept, later: &[Packed]) -> bool
    ensures { IsTrue result ↔ TopR2 params.now whole last.now.level here.now.level
        here.now.place.lift (late last.now) (late here.now) (levels_of later.now) }
{
    if matches!(here.level, Level::Over) {
        two(params, whole, last, here, later)
    } else {
        alone(params, whole, last, here, later)
    }
}

/// Whether some gap beside a step can only be 1 to `waste - 1`; `whole` where all steps are decided.
pub fn has_tight_gap(
    instance: &Instance,
    whole: bool,
    last: &Kept,
    here: &Kept,
    later: &[Packed],
) -> bool
    ensures { IsTrue result ↔ StepR2 instance.now whole last.now.level
        (late last.now) here.now.level (late here.now) (levels_of later.now) }
{
    let params = instance.params();
    strip(instance, whole, last, here, later)
        || band(params, whole, last, here, later)
        || cell(params, whole, last, here, later)
        || top(params, whole, last, here, later)
}
