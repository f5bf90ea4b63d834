//! The bound on the loss of the plans in a box.

ghost use Rattle.std.specs.Prelude.{◌≡◌, ◌+◌, ◌-◌, ◌*◌, ◌<◌, ◌≤◌, ◌^◌, All, List, [], length, max};
ghost use Rattle.std.specs.Prelude.{map as mapped};
ghost use Rattle.glass_base.specs.Items.{area_of};
ghost use Rattle.plan_box.specs.Bounds.{bound as bound_of, ceil_div as ceil_div_of, end_of_items, end_of_strip, least_length as least_length_of, reached as reached_of};
ghost use Rattle.plan_box.specs.Frames.{frame_of};
ghost use Rattle.plan_box.specs.Leasts.{Fixed, last_known, no_known};
ghost use Rattle.plan_box.specs.Packed.{unpacked};
ghost use Rattle.box_bound.specs.Kept.{late, late_fixed};
ghost use Rattle.plan_box.specs.Follows.{follow};
ghost use Rattle.box_bound.specs.Leastings.{IsFor};
ghost use Rattle.plan_box.specs.Within.{AreRangesWithin, AreWithin};

use crate::filling::decided_ranges;
use crate::kept::{Kept, drawn};
use crate::leasts::Leasts;
use glass_base::Instance;
use glass_base::limits::{MOST_ITEMS, MOST_LENGTH};
use loss_area::loss_of_length;
use plan_box::{Packed, PlanBox, Var};

/// The quotient, rounded up.
#[tactic(auto, using(plan_box::proofs::LeastLengths::ceil_small))]
fn ceil_div(n: u64, d: u64) -> u64
    requires divisor { 1 ≤ d }
    requires fits { n + d < 2 ^ 64 }
    ensures value { result ≡ ceil_div_of n d }
    ensures small { result ≤ n + d }
{
    (n + (d - 1)) / d
}

/// The least length by the last decided step, for items of this area together.
#[tactic(auto, using(plan_box::proofs::LeastLengths::product_small, glass_base::proofs::PlateLemmas::before_within))]
fn reached(instance: &Instance, total: u64, last: &Kept) -> u64
    requires total { total ≤ 320000000000 }
    requires within { AreWithin MOST_LENGTH (late last.now) }
    ensures value { let k = late last.now in result
        ≡ max (end_of_strip instance.now k) (end_of_items instance.now total k) }
    ensures small { result ≤ 810000000000000 }
{
    let params = instance.params();
    let before = instance.before(last.place.plate());
    let strip = before + u64::from(last.ends.least_b);
    let wide = u64::from(params.min1.max(last.place.strip_w));
    let least_c = u64::from(last.ends.least_c);
    let left = total.saturating_sub(last.place.area.saturating_sub(last.place.band_area));
    let high = ceil_div(wide * least_c + left, u64::from(params.height));
    strip.max(before + (u64::from(last.ends.least_a) + high))
}

/// The least length of a trace in a box by the last of so many decided steps, for items of this area together.
fn length_by(instance: &Instance, total: u64, count: usize, last: &Kept) -> u64
    requires total { total ≡ area_of instance.now.items }
    requires within { AreWithin MOST_LENGTH (late last.now) }
    ensures value { (ks : List Fixed) → length ks ≡ count → last_known no_known ks ≡ late last.now
        → result ≡ max (ceil_div_of (area_of instance.now.items) instance.now.params.height)
        (reached_of instance.now (area_of instance.now.items) ks) }
    ensures small { result ≤ 810000000000000 }
{
    let glass = ceil_div(total, u64::from(instance.params().height));
    if count == 0 {
        return glass;
    }
    glass.max(reached(instance, total, last))
}

/// The last of these decided steps, or what stands before the first one.
fn last_of(instance: &Instance, steps: &[Kept]) -> Kept
    requires within { All (λ k. AreWithin MOST_LENGTH (late k)) steps.now }
    ensures value { late result ≡ last_known no_known (mapped late_fixed steps.now) }
    ensures within { AreWithin MOST_LENGTH (late result) }
{
    if steps.len() == 0 {
        Kept::before_all(instance)
    } else {
        steps[steps.len() - 1]
    }
}

/// The least length of a trace in a box, where the leasts are for it.
pub fn length_at(instance: &Instance, leasts: &Leasts, bx: &PlanBox) -> u64
    requires leasts { IsFor instance.now bx.now leasts.now }
    ensures value { result ≡ least_length_of instance.now bx.now.ranges }
    ensures small { result ≤ 810000000000000 }
{
    let _bx = bx;
    let steps = leasts.kept();
    let last = last_of(instance, steps);
    length_by(instance, leasts.total(), steps.len(), &last)
}

/// The last of the decided steps of these ranges, or what stands before the first one.
fn last_step(instance: &Instance, ranges: &[Packed]) -> Kept
    requires few { length ranges.now ≤ MOST_ITEMS }
    requires within { All (λ x. AreRangesWithin (unpacked x)) ranges.now }
    ensures value { late result ≡ last_known no_known
        (follow instance.now [] no_known (mapped unpacked ranges.now)) }
    ensures within { AreWithin MOST_LENGTH (late result) }
{
    let _items = instance.items();
    let mut last = Kept::before_all(instance);
    for (i, here) in ranges.iter().enumerate() {
        let taken = drawn(&ranges[..i], here.range(Var::Stack).0);
        last = last.next(instance, &ranges[..i], taken, here);
    }
    last
}

/// The least length of a trace in a box.
pub fn length_of(instance: &Instance, bx: &PlanBox) -> u64
    requires instance { bx.now.frame ≡ frame_of instance.now }
    ensures value { result ≡ least_length_of instance.now bx.now.ranges }
    ensures small { result ≤ 810000000000000 }
{
    let _items = instance.items();
    let ranges = decided_ranges(instance, bx);
    let last = last_step(instance, ranges);
    length_by(instance, instance.area(), ranges.len(), &last)
}

/// The bound on the loss of the traces in a box, in mm². It takes no memory, and computes each step anew.
pub fn bound(instance: &Instance, bx: &PlanBox) -> u64
    requires instance { bx.now.frame ≡ frame_of instance.now }
    ensures { result ≡ bound_of instance.now bx.now.ranges }
{
    loss_of_length(instance, length_of(instance, bx))
}

/// `bound`, where the leasts are for the box.
#[tactic(auto, using(loss_area::proofs::Heights::height_times))]
pub fn bound_at(instance: &Instance, leasts: &Leasts, bx: &PlanBox) -> u64
    requires instance { bx.now.frame ≡ frame_of instance.now }
    requires leasts { IsFor instance.now bx.now leasts.now }
    ensures { result ≡ bound_of instance.now bx.now.ranges }
{
    let length = length_at(instance, leasts, bx);
    (u64::from(instance.params().height) * length).saturating_sub(leasts.total())
}
