//! The first reason that is a fact at a decided step.

ghost use Rattle.std.specs.Prelude.{◌≡◌, ◌-◌, ◌≤◌, ◌↔◌, IsTrue, All, None, [], length, slice_index_or};
ghost use Rattle.std.specs.Prelude.{map as mapped};
ghost use Rattle.plan_trace.specs.declared.level.Level.TheVariants.{NewPlate};
ghost use Rattle.plan_box.specs.Leasts.{fixed, no_known};
ghost use Rattle.plan_box.specs.Reasons.{StepR4};
ghost use Rattle.box_bound.specs.Kept.{late, late_fixed};
ghost use Rattle.box_bound.specs.inner.Drawn.{HaveLevels, levels_of};
ghost use Rattle.box_bound.specs.Seen.{AreSeen, IsFirstIfAny, before_fixed, earlier as earlier_of};
ghost use Rattle.plan_box.specs.Facts.{FactOf};
ghost use Rattle.plan_box.specs.Within.{AreWithin};

use crate::gaps::has_tight_gap;
use crate::kept::Kept;
use crate::meetings::{cut_met, item_met};
use crate::numbers::{breaks_a_rule, has_no_place, is_too_wide};
use defect_map::Ground;
use glass_base::limits::MOST_LENGTH;
use glass_base::{Instance, Run};
use plan_box::{BoxGround, Packed, Reason};

/// The one that comes first of two reasons, if there is one.
pub fn earlier(one: Option<Reason>, other: Option<Reason>) -> Option<Reason>
    ensures { result ≡ earlier_of one other }
{
    let Some(first) = one else {
        return other;
    };
    match other {
        None => one,
        Some(second) => {
            if second.number() < first.number() {
                other
            } else {
                one
            }
        }
    }
}

/// Whether a cut of a step runs through one defect at every place of its ranges.
fn is_cut_met(ground: Ground<'_>, last: &Kept, here: &Kept) -> bool
    requires within { AreWithin MOST_LENGTH (late here.now) }
    ensures { IsTrue result ↔ StepR4 ground.entry.instance.now last.now.level
        (late last.now) here.now.level (late here.now) [] }
{
    cut_met(ground, last, here)
}

/// The first reason that is a fact at a decided step, if one is. `last` is the step before.
pub fn seen_at(asked: BoxGround<'_>, last: &Kept, here: &Kept, later: &[Packed]) -> Option<Reason>
    requires within { AreWithin MOST_LENGTH (late here.now) }
    ensures { let b = asked.entry.ground.instance.now in
        IsFirstIfAny (λ reason. FactOf b asked.entry.whole reason last.now.level
        (late last.now) here.now.level (late here.now) (levels_of later.now)) result }
{
    let ground = asked.ground;
    let params = ground.instance.params();
    if has_no_place(last, here) {
        return Some(Reason::R1);
    }
    if has_tight_gap(ground.instance, asked.whole, last, here, later) {
        return Some(Reason::R2);
    }
    if item_met(ground.map, here) {
        return Some(Reason::R3);
    }
    if is_cut_met(ground, last, here) {
        return Some(Reason::R4);
    }
    if is_too_wide(params, last, here) {
        return Some(Reason::R5);
    }
    if breaks_a_rule(params, last, here) {
        return Some(Reason::R6);
    }
    None
}

/// The step before this place, or what stands before the first one.
fn step_before(instance: &Instance, steps: &[Kept], at: usize) -> Kept
    requires { at ≤ length steps.now }
    ensures { late_fixed result ≡ before_fixed (fixed NewPlate no_known)
        (mapped late_fixed steps.now) at }
{
    if at == 0 {
        Kept::before_all(instance)
    } else {
        steps[at - 1]
    }
}

/// What was seen up to the step before this place.
fn seen_before(seen: &[Option<Reason>], at: usize) -> Option<Reason>
    requires { at ≤ length seen.now }
    ensures none { at ≡ 0 → result ≡ None }
    ensures some { 1 ≤ at → result ≡ slice_index_or seen.now (at - 1) None }
{
    if at == 0 { None } else { seen[at - 1] }
}

/// Looks at these decided steps from one on, and puts for each the first reason that is a fact at it or at one before it.
pub fn look(
    asked: BoxGround<'_>,
    steps: &[Kept],
    ranges: &[Packed],
    start: usize,
    seen: &mut Run<Option<Reason>>,
)
    requires within { All (λ k. AreWithin MOST_LENGTH (late k)) steps.now }
    requires many { length ranges.now ≡ length steps.now }
    requires levels { HaveLevels steps.now ranges.now }
    requires room { length steps.now ≤ length seen.old.items }
    requires inside { start ≤ length steps.now }
    requires before { AreSeen asked.ground.instance.now asked.whole
        (mapped late_fixed steps.now) seen.old.items start }
    ensures many { length seen.new.items ≡ length seen.old.items }
    ensures seen { AreSeen asked.entry.ground.instance.now asked.entry.whole
        (mapped late_fixed steps.now) seen.new.items (length steps.now) }
{
    let mut last = step_before(asked.ground.instance, steps, start);
    let mut found = seen_before(seen.as_slice(), start);
    for i in start..steps.len() {
        let here = steps[i];
        let next = seen_at(asked, &last, &here, &ranges[i + 1..]);
        found = earlier(found, next);
        seen.set(i, found);
        last = here;
    }
}
