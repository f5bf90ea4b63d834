//! The decided steps of a box take the places of those of the box before.

ghost use Rattle.std.specs.Prelude.{◌≡◌, ◌-◌, ◌<◌, ◌≤◌, ◌⊎◌, ◌↔◌, All, IsTrue, [], drop, length, slice_index_or, take};
ghost use Rattle.std.specs.Prelude.{map as mapped};
ghost use Rattle.plan_box.specs.Decisions.{decided as decided_of};
ghost use Rattle.plan_box.specs.Frames.{frame_of};
ghost use Rattle.plan_box.specs.Leasts.{last_known, no_known, settle as settle_of, settle_at};
ghost use Rattle.plan_box.specs.Packed.{unpacked};
ghost use Rattle.box_bound.specs.Kept.{blank, early, early_fixed, known_of, late_fixed};
ghost use Rattle.plan_box.specs.Follows.{follow};
ghost use Rattle.box_bound.specs.Leastings.{ranges_in};
ghost use Rattle.box_bound.specs.inner.Drawn.{IsFollowed};
ghost use Rattle.box_bound.specs.Seen.{AreShared, StartsStrip};
ghost use Rattle.plan_box.specs.Within.{AreRangesWithin};

use crate::ends::Ends;
use crate::kept::{Kept, drawn};
use crate::placed::Placed;
use glass_base::limits::MOST_ITEMS;
use glass_base::{Instance, Run};
use plan_box::{Packed, PlanBox, Var};
use plan_trace::level::Level;

/// How many of the first steps have these ranges.
fn same(steps: &[Kept], ranges: &[Packed]) -> usize
    ensures steps { result ≤ length steps.now }
    ensures ranges { result ≤ length ranges.now }
    ensures same { mapped (λ k. k.ranges) (take result steps.now) ≡ take result ranges.now }
{
    let count = steps.len().min(ranges.len());
    for i in 0..count {
        if steps[i].ranges != ranges[i] {
            return i;
        }
    }
    count
}

/// The ends of a step with those of the next one, if there is one.
fn ends_before(place: &Placed, so_far: Ends, later: &[Kept]) -> Ends
    ensures { known_of place.now result ≡ settle_at (known_of place.now so_far)
        (mapped late_fixed later.now) }
{
    let _place = place;
    match later.first() {
        None => so_far,
        Some(next) => so_far.settled(next.level, &next.ends),
    }
}

/// Gives each step from one up to `count` the least values of the last one of its strip and of its band.
fn settle(steps: &mut Run<Kept>, start: usize, count: usize)
    requires start { start ≤ count }
    requires inside { count ≤ length steps.old.items }
    ensures many { length steps.new.items ≡ length steps.old.items }
    ensures kept { take start steps.new.items ≡ take start steps.old.items }
    ensures early { mapped early_fixed steps.new.items ≡ mapped early_fixed steps.old.items }
    ensures ranges { mapped (λ k. k.ranges) steps.new.items
        ≡ mapped (λ k. k.ranges) steps.old.items }
    ensures late { mapped late_fixed (take (count - start) (drop start steps.new.items))
        ≡ settle_of (mapped early_fixed (take (count - start) (drop start steps.new.items))) }
{
    let mut i = count;
    while i > start {
        i -= 1;
        let here = steps.as_slice()[i];
        let ends = ends_before(&here.place, here.so_far, &steps.as_slice()[i + 1..count]);
        steps.set(i, Kept { ends, ..here });
    }
}

/// Whether a strip begins at this level.
fn starts_strip(level: Level) -> bool
    ensures { IsTrue result ↔ StartsStrip level }
{
    matches!(level, Level::NewPlate | Level::NewStrip)
}

/// Where the last strip of these steps begins.
fn strip_start(steps: &[Kept]) -> usize
    ensures inside { result ≤ length steps.now }
    ensures strip { (result ≡ 0) ⊎ ((result < length steps.now)
        × StartsStrip (slice_index_or steps.now result blank).level) }
{
    let mut at = steps.len();
    while at > 0 {
        at -= 1;
        if starts_strip(steps[at].level) {
            return at;
        }
    }
    0
}

/// The step before this place, or what stands before the first one.
fn last_before(instance: &Instance, steps: &[Kept], from: usize) -> Kept
    requires { from ≤ length steps.now }
    ensures { early result ≡ last_known no_known (mapped early_fixed (take from steps.now)) }
{
    if from == 0 {
        Kept::before_all(instance)
    } else {
        steps[from - 1]
    }
}

/// Puts the decided steps of these ranges, from one on.
fn extend(instance: &Instance, steps: &mut Run<Kept>, from: usize, ranges: &[Packed])
    requires more { from ≤ length ranges.now }
    requires room { length ranges.now ≤ length steps.old.items }
    requires few { length ranges.now ≤ MOST_ITEMS }
    requires within { All (λ x. AreRangesWithin (unpacked x)) ranges.now }
    requires start { IsFollowed instance.now steps.old.items ranges.now from }
    ensures many { length steps.new.items ≡ length steps.old.items }
    ensures kept { take from steps.new.items ≡ take from steps.old.items }
    ensures followed { IsFollowed instance.now steps.new.items ranges.now (length ranges.now) }
{
    let _items = instance.items();
    let mut last = last_before(instance, steps.as_slice(), from);
    for i in from..ranges.len() {
        let stack = ranges[i].range(Var::Stack).0;
        let taken = drawn(&ranges[..i], stack);
        let next = last.next(instance, &ranges[..i], taken, &ranges[i]);
        steps.set(i, next);
        last = next;
    }
}

/// The stored ranges of the decided steps of a box.
pub fn decided_ranges<'a>(instance: &Instance, bx: &'a PlanBox) -> &'a [Packed]
    requires { bx.now.frame ≡ frame_of instance.now }
    ensures ranges { mapped unpacked result.now ≡ take
        (length (decided_of bx.now.ranges)) bx.now.ranges }
    ensures count { length result.now ≡ length (decided_of bx.now.ranges) }
    ensures within { All (λ x. AreRangesWithin (unpacked x)) result.now }
    ensures few { length result.now ≤ length instance.now.items }
{
    let _items = instance.items();
    let _frame = bx.frame();
    let decided = bx.decided() as usize;
    let stored = bx.stored();
    &stored[..decided]
}

/// Keeps the decided steps of these ranges in place of the first `count` steps, from the first one on that differs. Tells from
/// which step on anything is new: the strips of the steps before it have no others.
pub fn refill(instance: &Instance, steps: &mut Run<Kept>, count: usize, ranges: &[Packed]) -> usize
    requires inside { count ≤ length steps.old.items }
    requires room { length ranges.now ≤ length steps.old.items }
    requires few { length ranges.now ≤ MOST_ITEMS }
    requires within { All (λ x. AreRangesWithin (unpacked x)) ranges.now }
    requires kept { mapped early_fixed (take count steps.old.items)
        ≡ follow instance.now [] no_known (ranges_in (take count steps.old.items)) }
    requires settled { mapped late_fixed (take count steps.old.items)
        ≡ settle_of (mapped early_fixed (take count steps.old.items)) }
    ensures many { length steps.new.items ≡ length steps.old.items }
    ensures shared { AreShared result count (length ranges.now) steps.old.items steps.new.items }
    ensures followed { IsFollowed instance.now steps.new.items ranges.now (length ranges.now) }
    ensures late { mapped late_fixed (take (length ranges.now) steps.new.items)
        ≡ settle_of (mapped early_fixed (take (length ranges.now) steps.new.items)) }
{
    let from = same(&steps.as_slice()[..count], ranges);
    let start = strip_start(&steps.as_slice()[..from]);
    extend(instance, steps, from, ranges);
    settle(steps, start, ranges.len());
    start
}
