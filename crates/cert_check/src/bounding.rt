//! The bound on the loss of the plans in a box.

ghost use Rattle.std.specs.Prelude.{◌≡◌, ◌+◌, ◌<◌, ◌≤◌, ◌^◌, All, List, length, map};
ghost use Rattle.plan_box.specs.Bounds.{bound as bound_of, ceil_div as ceil_div_of, end_of_items as end_of_items_of, end_of_strip as end_of_strip_of, least_length as least_length_of, reached as reached_of};
ghost use Rattle.plan_box.specs.Frames.{frame_of};
ghost use Rattle.plan_box.specs.Leasts.{known};
ghost use Rattle.plan_box.specs.Packed.{unpacked};
ghost use Rattle.plan_box.specs.Ranges.{Ranges};
ghost use Rattle.cert_check.specs.inner.Knowns.{fixed_of, known_in};
ghost use Rattle.cert_check.specs.inner.Paths.{AreStored};
ghost use Rattle.plan_box.specs.Within.{AreWithin};

use crate::filling::fill;
use crate::steps::Decided;
use glass_base::limits::{MOST_ITEMS, MOST_LENGTH};
use glass_base::{Instance, Run};
use loss_area::loss_of_length;
use plan_box::Packed;

/// The quotient, rounded up.
#[tactic(auto, using(plan_box::proofs::LeastLengths::ceil_small))]
fn ceil_div(n: u64, d: u64) -> u64
    requires divisor { 1 ≤ d }
    requires fits { n + d < 2 ^ 64 }
    ensures value { result ≡ ceil_div_of n d }
    ensures small { result ≤ n + d }
{
    (n + (d - 1)) / d
}

/// Where the strip of the last decided step ends at least, in mm from the left side of the first plate.
#[tactic(auto, using(glass_base::proofs::PlateLemmas::before_within))]
fn end_of_strip(instance: &Instance, last: &Decided) -> u64
    requires { AreWithin MOST_LENGTH (known_in last.now) }
    ensures value { result ≡ end_of_strip_of instance.now (known_in last.now) }
    ensures small { result ≤ 60000000 }
{
    instance.before(last.plate()) + u64::from(last.least_b)
}

/// Where all items, of this area together, can lie at least.
#[tactic(auto, using(plan_box::proofs::LeastLengths::product_small, glass_base::proofs::PlateLemmas::before_within))]
fn end_of_items(instance: &Instance, total: u64, last: &Decided) -> u64
    requires total { total ≤ 320000000000 }
    requires within { AreWithin MOST_LENGTH (known_in last.now) }
    ensures value { result ≡ end_of_items_of instance.now total (known_in last.now) }
    ensures small { result ≤ 810000000000000 }
{
    let params = instance.params();
    let widest = u64::from(params.min1.max(last.strip_w));
    let below = widest * u64::from(last.least_c);
    let elsewhere = total.saturating_sub(last.area.saturating_sub(last.band_area));
    let taken = ceil_div(below + elsewhere, u64::from(params.height));
    instance.before(last.plate()) + (u64::from(last.least_a) + taken)
}

/// The least length by the last of these decided steps, for items of this area together.
fn reached(instance: &Instance, total: u64, steps: &[Decided]) -> u64
    requires total { total ≤ 320000000000 }
    requires within { All (λ k. AreWithin MOST_LENGTH (known_in k)) steps.now }
    ensures value { result ≡ reached_of instance.now total (map fixed_of steps.now) }
    ensures small { result ≤ 810000000000000 }
{
    if steps.len() == 0 {
        return 0;
    }
    let last = steps[steps.len() - 1];
    end_of_strip(instance, &last).max(end_of_items(instance, total, &last))
}

/// The least length of a trace in the box of which these are the decided steps.
pub fn least_length(instance: &Instance, steps: &[Decided]) -> u64
    requires { All (λ k. AreWithin MOST_LENGTH (known_in k)) steps.now }
    ensures value { (rs : List Ranges) → map fixed_of steps.now ≡ known instance.now rs
        → result ≡ least_length_of instance.now rs }
    ensures small { result ≤ 810000000000000 }
{
    let total = instance.area();
    let glass = ceil_div(total, u64::from(instance.params().height));
    glass.max(reached(instance, total, steps))
}

/// The bound on the loss of the traces in the box of these ranges, in mm². The decided steps are written over `steps`, and the
/// counts of drawn items over `taken`.
pub fn bound(
    instance: &Instance,
    ranges: &[Packed],
    steps: &mut Run<Decided>,
    taken: &mut Run<u32>,
) -> u64
    requires stored { AreStored (frame_of instance.now) ranges.now }
    requires room { length ranges.now ≤ length steps.old.items }
    requires taken { length taken.old.items ≡ MOST_ITEMS }
    ensures value { result ≡ bound_of instance.now (map unpacked ranges.now) }
    ensures room { length steps.new.items ≡ length steps.old.items }
    ensures taken { length taken.new.items ≡ MOST_ITEMS }
{
    let count = fill(instance, ranges, steps, taken);
    let length = least_length(instance, &steps.as_slice()[..count]);
    loss_of_length(instance, length)
}
