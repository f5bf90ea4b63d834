//! The decided steps of a box without memory: a recursion that has each step's least values while it stands at it.

ghost use Rattle.std.specs.Prelude.{◌≡◌, ◌+◌, ◌<◌, ◌≤◌, ◌++◌, All, IfSome, List, [], drop, length, take};
ghost use Rattle.std.specs.Prelude.{map as mapped};
ghost use Rattle.plan_trace.specs.declared.level.Level.TheVariants.{NewPlate};
ghost use Rattle.plan_box.specs.Leasts.{Fixed, least_steps, no_known, settle, settle_at};
ghost use Rattle.plan_box.specs.Packed.{unpacked};
ghost use Rattle.plan_box.specs.Reasons.{SomeFixed};
ghost use Rattle.box_bound.specs.Kept.{early, late, with_ends};
ghost use Rattle.plan_box.specs.Follows.{follow};
ghost use Rattle.box_bound.specs.Seen.{IsFirstIfAny};
ghost use Rattle.plan_box.specs.Facts.{FactOf};
ghost use Rattle.box_bound.specs.inner.Walks.{AreLevels, IsHead, SomeBehind, steps_from};
ghost use Rattle.plan_box.specs.Within.{AreRangesWithin, AreWithin, limit};

use crate::kept::{Kept, drawn};
use crate::seen::{earlier, seen_at};
use cut_model::Step;
use glass_base::limits::{MOST_ITEMS, MOST_LENGTH};
use plan_box::{BoxGround, Packed, Reason, Var};

/// What a walk over the decided steps from one on hands back.
#[derive(Clone, Copy)]
struct WalkedBack {
    /// The first of them, with its least values.
    first: Option<Kept>,
    /// The first reason that is a fact at one of the others.
    seen: Option<Reason>,
}

/// A step with the least values of the last one of its strip and of its band, by the step behind it.
fn settled_before(step: &Kept, behind: &WalkedBack) -> Kept
    ensures ends { result ≡ with_ends result.ends step.now }
    ensures late { (ks : List Fixed) → IsHead behind.now.first ks
        → late result ≡ settle_at (early step.now) ks }
{
    match behind.first {
        None => Kept {
            ends: step.so_far,
            ..*step
        },
        Some(next) => Kept {
            ends: step.so_far.settled(next.level, &next.ends),
            ..*step
        },
    }
}

/// The first reason that is a fact at one of the steps behind this one, of which these are the ranges.
fn seen_behind(
    asked: BoxGround<'_>,
    step: &Kept,
    ranges: &[Packed],
    behind: &WalkedBack,
) -> Option<Reason>
    requires within { IfSome behind.now.first (λ k. AreWithin MOST_LENGTH (late k)) }
    ensures { let b = asked.entry.ground.instance.now in let whole = asked.entry.whole in
        (ks : List Fixed) → IsHead behind.now.first ks
        → AreLevels ks ranges.now → IsFirstIfAny
        (λ reason. SomeBehind (FactOf b whole reason) ks) behind.now.seen
        → IsFirstIfAny (λ reason. SomeFixed (FactOf b whole reason) step.now.level
        (late step.now) ks) result }
{
    let Some(next) = behind.first else {
        return None;
    };
    match ranges.split_first() {
        None => None,
        Some((_, later)) => earlier(seen_at(asked, step, &next, later), behind.seen),
    }
}

/// Goes over the decided steps of these ranges from one on, behind the step `last`, and writes the step that each stands for at
/// its least values.
fn walk(
    asked: BoxGround<'_>,
    ranges: &[Packed],
    at: usize,
    last: &Kept,
    steps: &mut [Step],
) -> WalkedBack
    requires few { length ranges.now ≤ MOST_ITEMS }
    requires room { length ranges.now ≤ length steps.old }
    requires inside { at ≤ length ranges.now }
    requires ranges { All (λ x. AreRangesWithin (unpacked x)) ranges.now }
    requires within { AreWithin (limit at) (early last.now) }
    ensures first { IsHead result.first (steps_from asked.entry.ground.instance.now ranges.now at
        (early last.now)) }
    ensures within { IfSome result.first (λ k. AreWithin MOST_LENGTH (late k)) }
    ensures seen { let b = asked.entry.ground.instance.now in
        IsFirstIfAny (λ reason. SomeBehind (FactOf b asked.entry.whole reason)
        (steps_from b ranges.now at (early last.now))) result.seen }
    ensures steps { steps.new ≡ take at steps.old
        ++ (least_steps (steps_from asked.entry.ground.instance.now ranges.now at
        (early last.now)) ++ drop (length ranges.now) steps.old) }
{
    let instance = asked.ground.instance;
    let _items = instance.items();
    if at == ranges.len() {
        return WalkedBack {
            first: None,
            seen: None,
        };
    }
    let taken = drawn(&ranges[..at], ranges[at].range(Var::Stack).0);
    let step = last.next(instance, &ranges[..at], taken, &ranges[at]);
    let behind = walk(asked, ranges, at + 1, &step, steps);
    let here = settled_before(&step, &behind);
    steps[at] = here.least_step();
    let seen = seen_behind(asked, &here, &ranges[at + 1..], &behind);
    WalkedBack {
        first: Some(here),
        seen,
    }
}

/// The first reason that is a fact at some decided step of these ranges, if one is; writes the step that each stands for at its
/// least values.
pub fn seen_in(asked: BoxGround<'_>, ranges: &[Packed], steps: &mut [Step]) -> Option<Reason>
    requires few { length ranges.now ≤ MOST_ITEMS }
    requires room { length ranges.now ≤ length steps.old }
    requires ranges { All (λ x. AreRangesWithin (unpacked x)) ranges.now }
    ensures seen { let b = asked.entry.ground.instance.now in
        IsFirstIfAny (λ reason. SomeFixed (FactOf b asked.entry.whole reason) NewPlate no_known
        (settle (follow b [] no_known (mapped unpacked ranges.now)))) result }
    ensures steps { take (length ranges.now) steps.new
        ≡ least_steps (settle (follow asked.entry.ground.instance.now [] no_known
        (mapped unpacked ranges.now))) }
{
    let before = Kept::before_all(asked.ground.instance);
    let behind = walk(asked, ranges, 0, &before, steps);
    seen_behind(asked, &before, ranges, &behind)
}
