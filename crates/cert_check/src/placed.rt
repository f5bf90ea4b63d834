//! Where a decided step stands, by its discrete numbers and those of the steps before it.

ghost use Rattle.std.specs.Prelude.{◌≡◌, ◌+◌, ◌*◌, ◌<◌, ◌≤◌, ◌^◌, IfSome, List};
ghost use Rattle.glass_base.specs.Items.{IsItemInRange};
ghost use Rattle.glass_base.specs.Problem.{IsProblem};
ghost use Rattle.plan_trace.specs.Marks.{Draw, begins, drawn as drawn_of, place_of};
ghost use Rattle.plan_box.specs.Decisions.{draw_at};
ghost use Rattle.plan_box.specs.Leasts.{fixed};
ghost use Rattle.plan_box.specs.Packed.{unpacked};
ghost use Rattle.plan_box.specs.Follows.{grown_place};
ghost use Rattle.plan_box.specs.Within.{AreRangesWithin};
ghost use Rattle.cert_check.specs.inner.Knowns.{fixed_of, known_in, place_in, with_place};

use crate::steps::Decided;
use glass_base::Instance;
use glass_base::limits::{MOST_LENGTH, MOST_REACH, MOST_SIDE};
use plan_box::{Packed, Var};
use plan_trace::laid::{height_in, plates_behind, width_in};
use plan_trace::level::Level;

/// The height that an item takes in its cell.
#[tactic(auto, using(plan_box::proofs::Sizes::times_bit))]
fn own_height(instance: &Instance, h: u32, lift: u32) -> u32
    requires h { h ≤ MOST_SIDE }
    requires lift { lift ≤ 1 }
    ensures value { result ≡ h + lift * instance.now.params.waste }
    ensures small { result ≤ MOST_REACH }
{
    h + lift * instance.params().waste
}

/// The step with the sizes of its cell, band and strip, and the areas.
fn grown(last: &Decided, step: Decided, own: u32) -> Decided
    requires w { step.w ≤ MOST_SIDE }
    requires h { step.h ≤ MOST_SIDE }
    requires own { own ≤ MOST_REACH }
    requires cell_h { last.now.cell_h ≤ MOST_LENGTH }
    requires band_w { last.now.band_w ≤ MOST_LENGTH }
    requires band_area { last.now.band_area ≤ 1000000000000 }
    requires area { last.now.area ≤ 1000000000000 }
    ensures item { result.item ≡ step.item }
    ensures value { fixed_of result ≡ fixed step.level
        (with_place (known_in step) (grown_place step.level (place_in last.now)
        (place_in step) own)) }
{
    let area = u64::from(step.w) * u64::from(step.h);
    let begun = Decided {
        cell_w: step.w,
        cell_h: own,
        band_w: step.w,
        strip_w: step.w,
        band_area: area,
        area: last.area + area,
        ..step
    };
    match step.level {
        Level::NewPlate | Level::NewStrip => begun,
        Level::NewBand => Decided {
            strip_w: last.strip_w.max(step.w),
            ..begun
        },
        Level::NewCell => Decided {
            band_w: last.band_w + step.w,
            strip_w: last.strip_w.max(last.band_w + step.w),
            band_area: last.band_area + area,
            ..begun
        },
        Level::Over => Decided {
            cell_w: last.cell_w,
            cell_h: last.cell_h + own,
            band_w: last.band_w,
            strip_w: last.strip_w.max(last.band_w),
            band_area: last.band_area + area,
            ..begun
        },
    }
}

/// The step of these ranges behind `last`, in its place, where so many steps before it draw from its stack. Its cuts are still those of `last`.
#[tactic(auto, using(plan_box::proofs::Sizes::width_small, plan_box::proofs::Sizes::height_small))]
pub fn next_place(
    instance: &Instance,
    taken: u32,
    last: &Decided,
    level: Level,
    ranges: &Packed,
) -> Decided
    requires ranges { AreRangesWithin (unpacked ranges.now) }
    requires plates { last.now.plates ≤ MOST_LENGTH }
    requires cell_h { last.now.cell_h ≤ MOST_LENGTH }
    requires band_w { last.now.band_w ≤ MOST_LENGTH }
    requires band_area { last.now.band_area ≤ 1000000000000 }
    requires area { last.now.area ≤ 1000000000000 }
    ensures value { (before : List Draw) → taken ≡ drawn_of before (unpacked ranges.now).stack.low
        → level ≡ begins before (unpacked ranges.now).kind.low
        → fixed_of result ≡ fixed level (with_place (known_in last.now)
        (place_of instance.now before (place_in last.now) (draw_at (unpacked ranges.now)))) }
    ensures item { IfSome result.item IsItemInRange }
    ensures rules { IsProblem instance.now }
{
    let stack = ranges.range(Var::Stack).0;
    let turn = ranges.range(Var::Turn).0;
    let kind = ranges.range(Var::Kind).0;
    let lift = ranges.range(Var::Lift).0;
    let item = instance.item_of(stack, taken as usize);
    let h = height_in(turn, item);
    let begun = Decided {
        level,
        stack,
        turn,
        kind,
        lift,
        item,
        plates: plates_behind(kind, last.plates),
        w: width_in(turn, item),
        h,
        ..*last
    };
    let own = own_height(instance, h, lift);
    grown(last, begun, own)
}
