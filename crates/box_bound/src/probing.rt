//! The trace at the least values of a box.

ghost use Rattle.std.specs.Prelude.{◌≡◌, ◌≤◌, ◌↔◌, IsTrue, MatchOption, length, slice_set};
ghost use Rattle.std.specs.Prelude.{map as mapped};
ghost use Rattle.plan_trace.specs.Broken.{IsFirstBroken};
ghost use Rattle.plan_trace.specs.TraceRules.{Meets};
ghost use Rattle.plan_box.specs.Decisions.{all_decided};
ghost use Rattle.plan_box.specs.Frames.{frame_of};
ghost use Rattle.plan_box.specs.Leasts.{known, least_step as least_step_of, least_steps};
ghost use Rattle.box_bound.specs.Kept.{late};
ghost use Rattle.box_bound.specs.Leastings.{IsFor};

use crate::filling::decided_ranges;
use crate::kept::Kept;
use crate::leasts::Leasts;
use crate::walking::seen_in;
use cut_model::{Step, Trace};
use defect_map::{DefectMap, Ground};
use glass_base::limits::MOST_ITEMS;
use glass_base::{Instance, Run};
use plan_box::{BoxGround, PlanBox};
use plan_trace::{TraceBroken, first_broken};

/// Writes the least steps of these over a list that has a step for each of them.
fn write(kept: &[Kept], steps: &mut Run<Step>)
    requires { length kept.now ≡ length steps.old.items }
    ensures { steps.new.items ≡ mapped (λ k. least_step_of (late k)) kept.now }
{
    for (i, k) in kept.iter().enumerate() {
        steps.set(i, k.least_step());
    }
}

/// Writes these steps over a list of as many.
fn overwrite(numbers: &[Step], steps: &mut Run<Step>)
    requires { length numbers.now ≡ length steps.old.items }
    ensures { steps.new.items ≡ numbers.now }
{
    for (i, step) in numbers.iter().enumerate() {
        steps.set(i, *step);
    }
}

/// Fills the trace with the discrete and the least values of a box whose steps are all decided, and tells whether it meets the
/// rules. The trace has a step for each item. It takes no memory, and computes each step anew.
pub fn probe(instance: &Instance, map: &DefectMap, bx: &PlanBox, trace: &mut Trace) -> bool
    requires map { map.now ≡ instance.now.defects }
    requires instance { bx.now.frame ≡ frame_of instance.now }
    requires whole { IsTrue (all_decided bx.now.ranges) }
    requires trace { length trace.old.steps.items ≡ length instance.now.items }
    ensures trace { trace.new.steps.items ≡ least_steps (known instance.now bx.now.ranges) }
    ensures meets { IsTrue result ↔ Meets instance.now trace.new.steps.items }
{
    let _items = instance.items();
    let _frame = bx.frame();
    let ground = Ground { instance, map };
    let mut numbers = [Kept::before_all(instance).least_step(); MOST_ITEMS];
    let ranges = decided_ranges(instance, bx);
    let asked = BoxGround {
        ground,
        whole: true,
    };
    let _seen = seen_in(asked, ranges, &mut numbers);
    overwrite(&numbers[..ranges.len()], &mut trace.steps);
    first_broken(ground, trace.steps.as_slice()).is_none()
}

/// Fills the trace as `probe` does, where the leasts are for the box, and tells the first rule that it breaks, if any.
pub fn broken_at(
    ground: Ground<'_>,
    leasts: &Leasts,
    bx: &PlanBox,
    trace: &mut Trace,
) -> Option<TraceBroken>
    requires instance { bx.now.frame ≡ frame_of ground.instance.now }
    requires leasts { IsFor ground.instance.now bx.now leasts.now }
    requires whole { IsTrue (all_decided bx.now.ranges) }
    requires trace { length trace.old.steps.items ≡ length ground.instance.now.items }
    ensures trace { trace.new.steps.items ≡ least_steps
        (known ground.entry.instance.now bx.now.ranges) }
    ensures broken { let b = ground.entry.instance.now in let steps = trace.new.steps.items in
        MatchOption result (Meets b steps)
        (λ broken. IsFirstBroken b steps broken.rule broken.step) }
{
    let _items = ground.instance.items();
    let _frame = bx.frame();
    write(leasts.kept(), &mut trace.steps);
    first_broken(ground, trace.steps.as_slice())
}

/// `probe`, where the leasts are for the box.
pub fn probe_at(
    instance: &Instance,
    map: &DefectMap,
    leasts: &Leasts,
    bx: &PlanBox,
    trace: &mut Trace,
) -> bool
    requires map { map.now ≡ instance.now.defects }
    requires instance { bx.now.frame ≡ frame_of instance.now }
    requires leasts { IsFor instance.now bx.now leasts.now }
    requires whole { IsTrue (all_decided bx.now.ranges) }
    requires trace { length trace.old.steps.items ≡ length instance.now.items }
    ensures trace { trace.new.steps.items ≡ least_steps (known instance.now bx.now.ranges) }
    ensures meets { IsTrue result ↔ Meets instance.now trace.new.steps.items }
{
    broken_at(Ground { instance, map }, leasts, bx, trace).is_none()
}
