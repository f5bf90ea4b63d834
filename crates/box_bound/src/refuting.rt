//! The first reason for which no plan of a box is lawful.

ghost use Rattle.std.specs.Prelude.{◌≡◌, ◌<◌, ◌≤◌, ◌↔◌, IsNone, IsTrue, MatchBool, MatchOption, Some, length, take, true, false};
ghost use Rattle.std.specs.Prelude.{map as mapped};
ghost use Rattle.glass_base.specs.Plates.{Before};
ghost use Rattle.plan_trace.specs.TraceRules.{Meets};
ghost use Rattle.plan_box.specs.Decisions.{IsPoint, decided};
ghost use Rattle.plan_box.specs.Frames.{frame_of};
ghost use Rattle.plan_box.specs.Leasts.{known, least_step as least_step_of, least_steps};
ghost use Rattle.plan_box.specs.Reasons.{Applies, IsFirstReason, IsRefuted, R7};
ghost use Rattle.plan_box.specs.declared.reason.Reason.{Reason as ReasonOf};
ghost use Rattle.box_bound.specs.Kept.{late};
ghost use Rattle.box_bound.specs.Leastings.{IsFor};
ghost use Rattle.box_bound.specs.Seen.{AppliesEarly, IsFirstIfAny};

use crate::bounding::{length_at, length_of};
use crate::filling::decided_ranges;
use crate::kept::Kept;
use crate::leasts::Leasts;
use crate::walking::seen_in;
use cut_model::Step;
use defect_map::{DefectMap, Ground};
use glass_base::Instance;
use glass_base::limits::MOST_ITEMS;
use plan_box::{BoxGround, PlanBox, Reason};
use plan_trace::first_broken;

/// The first reason that was seen at the decided steps, or that more glass is needed than there is.
fn with_length(seen: Option<Reason>, too_long: bool) -> Option<Reason>
    ensures long { too_long ≡ true → result ≡ Some ReasonOf.R1 }
    ensures short { too_long ≡ false → result ≡ seen }
{
    if too_long { Some(Reason::R1) } else { seen }
}

/// Whether a length is more than there is glass.
fn is_too_long(instance: &Instance, length: u64) -> bool
    ensures { IsTrue result ↔ (Before instance.now instance.now.params.plates < length) }
{
    instance.before(instance.params().plates) < length
}

/// Whether these steps break a rule.
fn breaks(ground: Ground<'_>, steps: &[Step]) -> bool
    requires few { length steps.now ≤ MOST_ITEMS }
    ensures { let b = ground.entry.instance.now in
        MatchBool result (¬ Meets b steps.now) (Meets b steps.now) }
{
    first_broken(ground, steps).is_some()
}

/// Whether the least steps of these decided steps, of which there are at most 800, break a rule.
fn is_broken(ground: Ground<'_>, steps: &[Kept]) -> bool
    requires few { length steps.now ≤ MOST_ITEMS }
    ensures { let b = ground.entry.instance.now in
        let numbers = mapped (λ k. least_step_of (late k)) steps.now in
        MatchBool result (¬ Meets b numbers) (Meets b numbers) }
{
    let mut numbers = [Kept::before_all(ground.instance).least_step(); MOST_ITEMS];
    for (i, step) in steps.iter().enumerate() {
        numbers[i] = step.least_step();
    }
    breaks(ground, &numbers[..steps.len()])
}

/// Whether the box is a point whose numbers break a rule.
fn is_broken_point_at(ground: Ground<'_>, leasts: &Leasts, bx: &PlanBox) -> bool
    requires leasts { IsFor ground.instance.now bx.now leasts.now }
    requires possible { ¬ Applies ReasonOf.R1 ground.instance.now bx.now.ranges }
    ensures broken { IsTrue result ↔ R7 ground.entry.instance.now bx.now.ranges }
    ensures met { let b = ground.entry.instance.now in result ≡ false → IsPoint bx.now.ranges
        → Meets b (least_steps (known b bx.now.ranges)) }
{
    let _items = ground.instance.items();
    if !bx.is_point() {
        return false;
    }
    is_broken(ground, leasts.kept())
}

/// The first reason before R7 that applies to a box, if one does, where the leasts are for it.
fn refuted_early_at(instance: &Instance, leasts: &Leasts, bx: &PlanBox) -> Option<Reason>
    requires instance { bx.now.frame ≡ frame_of instance.now }
    requires leasts { IsFor instance.now bx.now leasts.now }
    ensures { IsFirstIfAny (AppliesEarly instance.now bx.now.ranges) result }
{
    let _items = instance.items();
    let _frame = bx.frame();
    with_length(
        leasts.seen(),
        is_too_long(instance, length_at(instance, leasts, bx)),
    )
}

/// `refuted`, where the leasts are for the box. A point for which it gives none meets the rules at its least values.
pub fn refuted_at(
    instance: &Instance,
    map: &DefectMap,
    leasts: &Leasts,
    bx: &PlanBox,
) -> Option<Reason>
    requires map { map.now ≡ instance.now.defects }
    requires instance { bx.now.frame ≡ frame_of instance.now }
    requires leasts { IsFor instance.now bx.now leasts.now }
    ensures first { MatchOption result (¬ IsRefuted instance.now bx.now.ranges)
        (λ reason. IsFirstReason instance.now bx.now.ranges reason) }
    ensures point { IsNone result → IsPoint bx.now.ranges
        → Meets instance.now (least_steps (known instance.now bx.now.ranges)) }
{
    if let Some(reason) = refuted_early_at(instance, leasts, bx) {
        return Some(reason);
    }
    if is_broken_point_at(Ground { instance, map }, leasts, bx) {
        return Some(Reason::R7);
    }
    None
}

/// The first reason before R7 that applies to a box, if one does; writes the step that each decided one stands for at its least
/// values.
fn refuted_early(ground: Ground<'_>, bx: &PlanBox, numbers: &mut [Step]) -> Option<Reason>
    requires instance { bx.now.frame ≡ frame_of ground.instance.now }
    requires room { length numbers.old ≡ MOST_ITEMS }
    ensures first { IsFirstIfAny (AppliesEarly ground.entry.instance.now bx.now.ranges) result }
    ensures numbers { take (length (decided bx.now.ranges)) numbers.new
        ≡ least_steps (known ground.entry.instance.now bx.now.ranges) }
    ensures room { length numbers.new ≡ MOST_ITEMS }
{
    let _frame = bx.frame();
    let ranges = decided_ranges(ground.instance, bx);
    let asked = BoxGround {
        ground,
        whole: ranges.len() == ground.instance.items().len(),
    };
    let seen = seen_in(asked, ranges, numbers);
    with_length(
        seen,
        is_too_long(ground.instance, length_of(ground.instance, bx)),
    )
}

/// Whether the box is a point whose numbers, which are these, break a rule.
fn is_broken_point(ground: Ground<'_>, bx: &PlanBox, numbers: &[Step]) -> bool
    requires numbers { numbers.now ≡ least_steps (known ground.instance.now bx.now.ranges) }
    requires few { length numbers.now ≤ MOST_ITEMS }
    requires possible { ¬ Applies ReasonOf.R1 ground.instance.now bx.now.ranges }
    ensures { IsTrue result ↔ R7 ground.entry.instance.now bx.now.ranges }
{
    if !bx.is_point() {
        return false;
    }
    breaks(ground, numbers)
}

/// The first reason that applies to a box, if one does. It takes no memory, and computes each step anew.
pub fn refuted(instance: &Instance, map: &DefectMap, bx: &PlanBox) -> Option<Reason>
    requires map { map.now ≡ instance.now.defects }
    requires instance { bx.now.frame ≡ frame_of instance.now }
    ensures { MatchOption result (¬ IsRefuted instance.now bx.now.ranges)
        (λ reason. IsFirstReason instance.now bx.now.ranges reason) }
{
    let _items = instance.items();
    let _frame = bx.frame();
    let ground = Ground { instance, map };
    let mut numbers = [Kept::before_all(instance).least_step(); MOST_ITEMS];
    if let Some(reason) = refuted_early(ground, bx, &mut numbers) {
        return Some(reason);
    }
    if is_broken_point(ground, bx, &numbers[..bx.decided() as usize]) {
        return Some(Reason::R7);
    }
    None
}
