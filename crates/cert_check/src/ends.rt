//! The least values and the high ends of the cuts of a decided step.

ghost use Rattle.std.specs.Prelude.{◌≡◌, ◌+◌, ◌<◌, ◌≤◌, ◌^◌};
ghost use Rattle.plan_box.specs.Leasts.{band_known, cell_known, fixed, next_known, settled as settled_known, strip_known};
ghost use Rattle.plan_box.specs.Packed.{unpacked};
ghost use Rattle.plan_box.specs.Within.{AreRangesWithin};
ghost use Rattle.cert_check.specs.inner.Knowns.{fixed_of, known_in, place_in, with_place};

use crate::steps::Decided;
use glass_base::Instance;
use glass_base::limits::{MOST_LENGTH, MOST_SIDE};
use plan_box::{Packed, Var};
use plan_trace::level::Level;

/// With a cell whose left side is at `from` at least.
fn with_cell(instance: &Instance, step: Decided, from: u32, ranges: &Packed) -> Decided
    requires e { (unpacked ranges.now).e.low + step.cell_w < 2 ^ 32 }
    requires from { from + step.cell_w < 2 ^ 32 }
    requires d { step.least_c + step.cell_h < 2 ^ 32 }
    ensures { fixed_of result ≡ fixed step.level
        (cell_known instance.now (place_in step) (known_in step) from (unpacked ranges.now)) }
{
    let (low, high) = ranges.range(Var::E);
    let left = low.max(from);
    Decided {
        least_b: step.least_b.max(left + step.cell_w),
        least_d: step.least_d.max(step.least_c + step.cell_h),
        least_e: left,
        high_e: high.min(instance.width(step.plate())),
        ..step
    }
}

/// With a band whose lower side is at `from` at least, and its first cell.
fn with_band(instance: &Instance, step: Decided, from: u32, ranges: &Packed) -> Decided
    requires ranges { AreRangesWithin (unpacked ranges.now) }
    requires cell_w { step.cell_w ≤ MOST_SIDE }
    requires a { step.least_a ≤ MOST_LENGTH }
    requires from { from ≤ MOST_LENGTH }
    requires cell_h { step.cell_h ≤ MOST_LENGTH }
    ensures { fixed_of result ≡ fixed step.level
        (band_known instance.now (place_in step) (known_in step) from (unpacked ranges.now)) }
{
    let c = ranges.range(Var::C);
    let d = ranges.range(Var::D);
    let low = c.0.max(from);
    let begun = Decided {
        least_c: low,
        high_c: c.1,
        least_d: d.0.max(low + instance.params().min2),
        high_d: d.1,
        ..step
    };
    with_cell(instance, begun, begun.least_a, ranges)
}

/// With a strip whose left side is at `from` at least, and its first band and cell.
fn with_strip(instance: &Instance, step: Decided, from: u32, ranges: &Packed) -> Decided
    requires ranges { AreRangesWithin (unpacked ranges.now) }
    requires cell_w { step.cell_w ≤ MOST_SIDE }
    requires from { from ≤ MOST_LENGTH }
    requires cell_h { step.cell_h ≤ MOST_LENGTH }
    ensures { fixed_of result ≡ fixed step.level
        (strip_known instance.now (place_in step) (known_in step) from (unpacked ranges.now)) }
{
    let a = ranges.range(Var::A);
    let b = ranges.range(Var::B);
    let width = instance.width(step.plate());
    let left = a.0.max(from);
    let begun = Decided {
        least_a: left,
        high_a: a.1.min(width),
        least_b: b.0.max(left + instance.params().min1),
        high_b: b.1.min(width),
        ..step
    };
    with_band(instance, begun, 0, ranges)
}

/// A step in its place behind `last`, whose cuts it still has, with its own.
pub fn with_cuts(instance: &Instance, last: &Decided, step: Decided, ranges: &Packed) -> Decided
    requires ranges { AreRangesWithin (unpacked ranges.now) }
    requires cell_w { step.cell_w ≤ MOST_SIDE }
    requires cell_h { step.cell_h ≤ MOST_LENGTH }
    requires a { last.now.least_a ≤ MOST_LENGTH }
    requires b { last.now.least_b ≤ MOST_LENGTH }
    requires d { last.now.least_d ≤ MOST_LENGTH }
    requires e { last.now.least_e + last.now.cell_w ≤ MOST_LENGTH }
    requires c { last.now.least_c ≤ MOST_LENGTH }
    requires behind { known_in step ≡ with_place (known_in last.now) (place_in step) }
    ensures { fixed_of result ≡ fixed step.level
        (next_known instance.now step.level (place_in step) (known_in last.now)
        (unpacked ranges.now)) }
{
    match step.level {
        Level::NewPlate => with_strip(instance, step, 0, ranges),
        Level::NewStrip => with_strip(instance, step, last.least_b, ranges),
        Level::NewBand => with_band(instance, step, last.least_d, ranges),
        Level::NewCell => with_cell(instance, step, last.least_e + last.cell_w, ranges),
        Level::Over => Decided {
            least_d: step.least_d.max(step.least_c + step.cell_h),
            ..step
        },
    }
}

/// With the least values that the next step has for the same strip and band.
pub fn settled(step: Decided, next: &Decided) -> Decided
    ensures { fixed_of result ≡ fixed step.level
        (settled_known next.now.level (known_in step) (known_in next.now)) }
{
    match next.level {
        Level::NewPlate | Level::NewStrip => step,
        Level::NewBand => Decided {
            least_b: next.least_b,
            ..step
        },
        Level::NewCell | Level::Over => Decided {
            least_b: next.least_b,
            least_d: next.least_d,
            ..step
        },
    }
}
