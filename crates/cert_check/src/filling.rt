//! The decided steps of a box, with what is known of each.

ghost use Rattle.std.specs.Prelude.{◌≡◌, ◌<◌, ◌≤◌, All, [], length, map, take};
ghost use Rattle.plan_trace.specs.Marks.{begins, drawn as drawn_of};
ghost use Rattle.plan_box.specs.Decisions.{decided};
ghost use Rattle.plan_box.specs.Frames.{frame_of};
ghost use Rattle.plan_box.specs.Leasts.{fixed, no_known, settle as settle_of, settle_at};
ghost use Rattle.plan_box.specs.Packed.{unpacked};
ghost use Rattle.plan_box.specs.Follows.{draws_of, follow as follow_of, next_fixed};
ghost use Rattle.cert_check.specs.inner.Knowns.{AreKnown, fixed_of, known_in};
ghost use Rattle.cert_check.specs.inner.Paths.{AreStored};
ghost use Rattle.plan_box.specs.Within.{AreRangesWithin, AreWithin, limit};

use crate::ends::{settled, with_cuts};
use crate::free::count_decided;
use crate::placed::next_place;
use crate::steps::Decided;
use crate::taken::{clear, draw};
use glass_base::limits::MOST_ITEMS;
use glass_base::{Instance, Run};
use plan_box::{Packed, Var};
use plan_trace::laid::level_of;
use plan_trace::level::Level;

/// What a step begins behind these steps: the first one begins everything.
#[tactic(auto, using(plan_box::proofs::Draws::draws_none, plan_box::proofs::Draws::draws_some))]
fn level_behind(before: &[Packed], kind: u32) -> Level
    ensures { result ≡ begins (draws_of before.now) kind }
{
    if before.is_empty() {
        Level::NewPlate
    } else {
        level_of(kind)
    }
}

/// The step of these ranges behind `last`, as it and the earlier ones give it; `before` has the ranges of all steps before it, of which
/// `taken` draw from its stack.
fn next(
    instance: &Instance,
    before: &[Packed],
    last: &Decided,
    taken: u32,
    ranges: &Packed,
) -> Decided
    requires taken { taken ≡ drawn_of (draws_of before.now) (unpacked ranges.now).stack.low }
    requires few { length before.now < MOST_ITEMS }
    requires ranges { AreRangesWithin (unpacked ranges.now) }
    requires within { AreWithin (limit (length before.now)) (known_in last.now) }
    ensures { fixed_of result ≡ next_fixed instance.now (draws_of before.now) (known_in last.now)
        (unpacked ranges.now) }
{
    let level = level_behind(before, ranges.range(Var::Kind).0);
    let step = next_place(instance, taken, last, level, ranges);
    with_cuts(instance, last, step, ranges)
}

/// Writes the decided steps of these ranges, each as it and the earlier ones give it.
fn follow(instance: &Instance, ranges: &[Packed], steps: &mut Run<Decided>, taken: &mut Run<u32>)
    requires room { length ranges.now ≤ length steps.old.items }
    requires few { length ranges.now ≤ MOST_ITEMS }
    requires within { All (λ x. AreRangesWithin (unpacked x)) ranges.now }
    requires taken { length taken.old.items ≡ MOST_ITEMS }
    ensures many { length steps.new.items ≡ length steps.old.items }
    ensures taken { length taken.new.items ≡ MOST_ITEMS }
    ensures steps { map fixed_of (take (length ranges.now) steps.new.items)
        ≡ follow_of instance.now [] no_known (map unpacked ranges.now) }
{
    let _items = instance.items();
    clear(taken, ranges);
    let mut last = Decided::none();
    for (i, here) in ranges.iter().enumerate() {
        let count = draw(taken, here);
        last = next(instance, &ranges[..i], &last, count, here);
        steps.set(i, last);
    }
}

/// A step with the least values of the next one, if there is one, for the same strip and band.
fn settled_by(step: Decided, later: &[Decided]) -> Decided
    ensures { fixed_of result ≡ fixed step.level
        (settle_at (known_in step) (map fixed_of later.now)) }
{
    match later.first() {
        None => step,
        Some(next) => settled(step, next),
    }
}

/// Gives each of the first `count` steps the least values of the last one of its strip and of its band.
fn settle(steps: &mut Run<Decided>, count: usize)
    requires { count ≤ length steps.old.items }
    ensures many { length steps.new.items ≡ length steps.old.items }
    ensures steps { map fixed_of (take count steps.new.items)
        ≡ settle_of (map fixed_of (take count steps.old.items)) }
{
    for i in (0..count).rev() {
        let here = steps.as_slice()[i];
        let step = settled_by(here, &steps.as_slice()[i + 1..count]);
        steps.set(i, step);
    }
}

/// Writes the decided steps of a box, with what is known of each, and tells how many there are. The counts of drawn items are written
/// over `taken`.
pub fn fill(
    instance: &Instance,
    ranges: &[Packed],
    steps: &mut Run<Decided>,
    taken: &mut Run<u32>,
) -> usize
    requires stored { AreStored (frame_of instance.now) ranges.now }
    requires room { length ranges.now ≤ length steps.old.items }
    requires taken { length taken.old.items ≡ MOST_ITEMS }
    ensures many { length steps.new.items ≡ length steps.old.items }
    ensures taken { length taken.new.items ≡ MOST_ITEMS }
    ensures count { result ≡ length (decided (map unpacked ranges.now)) }
    ensures inside { result ≤ length ranges.now }
    ensures known { AreKnown instance.now (map unpacked ranges.now) (take result steps.new.items) }
{
    let _items = instance.items();
    let count = count_decided(ranges);
    follow(instance, &ranges[..count], steps, taken);
    settle(steps, count);
    count
}
