//! The first reason for which no plan of a box is lawful.

ghost use Rattle.std.specs.Prelude.{◌≡◌, ◌<◌, ◌≤◌, ◌↔◌, ◌^◌, All, IsTrue, MatchBool, MatchOption, length, map, take};
ghost use Rattle.glass_base.specs.Plates.{Before};
ghost use Rattle.plan_trace.specs.declared.level.Level.TheVariants.{NewPlate};
ghost use Rattle.plan_box.specs.Decisions.{all_decided};
ghost use Rattle.plan_box.specs.Frames.{frame_of};
ghost use Rattle.plan_box.specs.Leasts.{least_step as least_step_of, no_known};
ghost use Rattle.plan_box.specs.Packed.{unpacked};
ghost use Rattle.plan_box.specs.Reasons.{AtSome, IsFirstReason, IsRefuted, R1, R7, SomeFixed};
ghost use Rattle.plan_box.specs.Facts.{FactOf};
ghost use Rattle.cert_check.specs.inner.Knowns.{AreKnown, fixed_of, known_in, levels_in};
ghost use Rattle.cert_check.specs.inner.Paths.{AreStored};
ghost use Rattle.plan_box.specs.Within.{AreWithin};

use crate::bounding::least_length;
use crate::filling::fill;
use crate::free::is_point;
use crate::gaps::has_narrow_gap;
use crate::meetings::{cut_met, item_met};
use crate::numbers::{breaks_a_rule, has_no_place, is_too_wide};
use crate::steps::Decided;
use cut_model::Step;
use defect_map::Ground;
use glass_base::limits::{MOST_ITEMS, MOST_LENGTH};
use glass_base::{Instance, Run};
use plan_box::{BoxGround, Packed, Reason};
use plan_trace::first_broken;

/// Whether a reason is a fact at a decided step; `last` is the step before it.
fn is_fact_at(
    asked: BoxGround<'_>,
    reason: Reason,
    last: &Decided,
    here: &Decided,
    later: &[Decided],
) -> bool
    requires within { AreWithin MOST_LENGTH (known_in here.now) }
    ensures { IsTrue result ↔ FactOf asked.entry.ground.instance.now asked.entry.whole reason
        last.now.level (known_in last.now) here.now.level (known_in here.now)
        (levels_in later.now) }
{
    let ground = asked.ground;
    let params = ground.instance.params();
    match reason {
        Reason::R1 => has_no_place(here),
        Reason::R2 => has_narrow_gap(ground.instance, asked.whole, last, here, later),
        Reason::R3 => item_met(ground.map, here),
        Reason::R4 => cut_met(ground, here),
        Reason::R5 => is_too_wide(params, here),
        Reason::R6 => breaks_a_rule(params, last, here),
        Reason::R7 => false,
    }
}

/// Whether a reason is a fact at one of these decided steps.
fn is_fact_at_some(asked: BoxGround<'_>, reason: Reason, steps: &[Decided]) -> bool
    requires within { All (λ k. AreWithin MOST_LENGTH (known_in k)) steps.now }
    ensures { let b = asked.entry.ground.instance.now in IsTrue result
        ↔ SomeFixed (FactOf b asked.entry.whole reason) NewPlate no_known
        (map fixed_of steps.now) }
{
    let mut last = Decided::none();
    for (i, here) in steps.iter().enumerate() {
        if is_fact_at(asked, reason, &last, here, &steps[i + 1..]) {
            return true;
        }
        last = *here;
    }
    false
}

/// The same of the box of these ranges, of which these are the decided steps.
fn is_fact(ground: Ground<'_>, ranges: &[Packed], steps: &[Decided], reason: Reason) -> bool
    requires known { AreKnown ground.instance.now (map unpacked ranges.now) steps.now }
    ensures { let b = ground.entry.instance.now in let rs = map unpacked ranges.now in IsTrue result
        ↔ AtSome (FactOf b (all_decided rs) reason) b rs }
{
    let asked = BoxGround {
        ground,
        whole: steps.len() == ranges.len(),
    };
    is_fact_at_some(asked, reason, steps)
}

/// Whether a cut can lie nowhere, or more glass is needed than there is.
fn is_impossible(ground: Ground<'_>, ranges: &[Packed], steps: &[Decided]) -> bool
    requires known { AreKnown ground.instance.now (map unpacked ranges.now) steps.now }
    ensures { IsTrue result ↔ R1 ground.entry.instance.now (map unpacked ranges.now) }
{
    is_fact(ground, ranges, steps, Reason::R1)
        || ground.instance.before(ground.instance.params().plates)
            < least_length(ground.instance, steps)
}

/// The step that a decided step stands for at its least values.
pub fn least_step(decided: &Decided) -> Step
    ensures { result ≡ least_step_of (known_in decided.now) }
{
    Step {
        stack: decided.stack,
        turn: decided.turn,
        kind: decided.kind,
        lift: decided.lift,
        a: decided.least_a,
        b: decided.least_b,
        c: decided.least_c,
        d: decided.least_d,
        e: decided.least_e,
    }
}

/// Writes the steps that these decided steps stand for at their least values.
fn write(steps: &[Decided], numbers: &mut Run<Step>)
    requires { length steps.now ≤ length numbers.old.items }
    ensures many { length numbers.new.items ≡ length numbers.old.items }
    ensures written { take (length steps.now) numbers.new.items
        ≡ map (λ k. least_step_of (known_in k)) steps.now }
{
    for (i, step) in steps.iter().enumerate() {
        numbers.set(i, least_step(step));
    }
}

/// Whether the box is a point whose numbers break a rule. They are its least values, where each cut has a place.
fn is_broken_point(
    ground: Ground<'_>,
    ranges: &[Packed],
    steps: &[Decided],
    numbers: &mut Run<Step>,
) -> bool
    requires known { AreKnown ground.instance.now (map unpacked ranges.now) steps.now }
    requires inside { length steps.now ≤ length ranges.now }
    requires room { length ranges.now ≤ length numbers.old.items }
    requires few { length ranges.now ≤ MOST_ITEMS }
    requires possible { ¬ R1 ground.instance.now (map unpacked ranges.now) }
    ensures broken { IsTrue result ↔ R7 ground.entry.instance.now (map unpacked ranges.now) }
    ensures room { length numbers.new.items ≡ length numbers.old.items }
{
    if !is_point(ranges) {
        return false;
    }
    write(steps, numbers);
    first_broken(ground, &numbers.as_slice()[..steps.len()]).is_some()
}

/// The first reason that applies to the box of these ranges, of which these are the decided steps, if one does.
fn first_of(
    ground: Ground<'_>,
    ranges: &[Packed],
    steps: &[Decided],
    numbers: &mut Run<Step>,
) -> Option<Reason>
    requires known { AreKnown ground.instance.now (map unpacked ranges.now) steps.now }
    requires inside { length steps.now ≤ length ranges.now }
    requires room { length ranges.now ≤ length numbers.old.items }
    requires few { length ranges.now ≤ MOST_ITEMS }
    ensures first { let b = ground.entry.instance.now in
        MatchOption result (¬ IsRefuted b (map unpacked ranges.now))
        (λ r. IsFirstReason b (map unpacked ranges.now) r) }
    ensures room { length numbers.new.items ≡ length numbers.old.items }
{
    if is_impossible(ground, ranges, steps) {
        return Some(Reason::R1);
    }
    if is_fact(ground, ranges, steps, Reason::R2) {
        return Some(Reason::R2);
    }
    if is_fact(ground, ranges, steps, Reason::R3) {
        return Some(Reason::R3);
    }
    if is_fact(ground, ranges, steps, Reason::R4) {
        return Some(Reason::R4);
    }
    if is_fact(ground, ranges, steps, Reason::R5) {
        return Some(Reason::R5);
    }
    if is_fact(ground, ranges, steps, Reason::R6) {
        return Some(Reason::R6);
    }
    if is_broken_point(ground, ranges, steps, numbers) {
        return Some(Reason::R7);
    }
    None
}

/// The first reason that applies to the box of these ranges, if one does. The decided steps are written over `steps`, and the numbers
/// of a point over `numbers`.
pub fn first_reason(
    ground: Ground<'_>,
    ranges: &[Packed],
    steps: &mut Run<Decided>,
    taken: &mut Run<u32>,
    numbers: &mut Run<Step>,
) -> Option<Reason>
    requires stored { AreStored (frame_of ground.instance.now) ranges.now }
    requires steps { length ranges.now ≤ length steps.old.items }
    requires taken { length taken.old.items ≡ MOST_ITEMS }
    requires numbers { length ranges.now ≤ length numbers.old.items }
    ensures first { let b = ground.entry.instance.now in
        MatchOption result (¬ IsRefuted b (map unpacked ranges.now))
        (λ r. IsFirstReason b (map unpacked ranges.now) r) }
    ensures steps { length steps.new.items ≡ length steps.old.items }
    ensures taken { length taken.new.items ≡ MOST_ITEMS }
    ensures numbers { length numbers.new.items ≡ length numbers.old.items }
{
    let count = fill(ground.instance, ranges, steps, taken);
    first_of(ground, ranges, &steps.as_slice()[..count], numbers)
}
