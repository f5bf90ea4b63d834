//! Decided steps, one after another.

ghost use Rattle.std.specs.Prelude.{◌≡◌, ◌+◌, ◌≤◌, length};
ghost use Rattle.plan_trace.specs.Marks.{begins, drawn as drawn_of};
ghost use Rattle.plan_box.specs.Decisions.{draw_at as draw_that};
ghost use Rattle.plan_box.specs.Packed.{unpacked};
ghost use Rattle.box_bound.specs.inner.Drawn.{draw_in};
ghost use Rattle.plan_box.specs.Follows.{draws_of};

use crate::ends::Ends;
use crate::placed::{Drawn, Placed};
use cut_model::Step;
use glass_base::Instance;
use glass_base::limits::MOST_ITEMS;
use plan_box::{Frame, Packed, Var};
use plan_trace::laid::level_of;
use plan_trace::level::Level;

/// A decided step with its ranges and what is known of it.
#[derive(Clone, Copy)]
pub struct Kept {
    pub ranges: Packed,
    pub level: Level,
    pub place: Placed,
    /// The ends of its cuts as this step and the earlier ones give them.
    pub so_far: Ends,
    /// The same with those of the last decided step of its strip and of its band.
    pub ends: Ends,
}

/// What a step begins behind these steps: the first one begins everything.
#[tactic(auto, using(plan_box::proofs::Draws::draws_none, plan_box::proofs::Draws::draws_some))]
fn level_behind(before: &[Packed], kind: u32) -> Level
    ensures { result ≡ begins (draws_of before.now) kind }
{
    if before.is_empty() {
        Level::NewPlate
    } else {
        level_of(kind)
    }
}

/// How many of these steps draw from a stack.
#[tactic(auto, using(plan_box::proofs::Draws::draws_more))]
pub fn drawn(before: &[Packed], stack: u32) -> u32
    requires { length before.now ≤ MOST_ITEMS }
    ensures { result ≡ drawn_of (draws_of before.now) stack }
{
    let mut count = 0;
    for ranges in before {
        if ranges.range(Var::Stack).0 == stack {
            count += 1;
        }
    }
    count
}

/// The discrete numbers of a decided step.
fn draw_at(ranges: &Packed) -> Drawn
    ensures { draw_in result ≡ draw_that (unpacked ranges.now) }
{
    Drawn {
        stack: ranges.range(Var::Stack).0,
        turn: ranges.range(Var::Turn).0,
        kind: ranges.range(Var::Kind).0,
        lift: ranges.range(Var::Lift).0,
    }
}

impl Kept {
    ghost use Rattle.std.specs.Prelude.{◌≡◌, ◌+◌, ◌<◌, ◌≤◌, length};
    ghost use Rattle.plan_trace.specs.Marks.{drawn as drawn_of};
    ghost use Rattle.plan_trace.specs.declared.level.Level.TheVariants.{NewPlate};
    ghost use Rattle.plan_box.specs.Leasts.{least_step as least_step_of, no_known};
    ghost use Rattle.plan_box.specs.Packed.{unpacked};
    ghost use Rattle.box_bound.specs.Kept.{early, early_fixed, late, no_ends, no_placed};
    ghost use Rattle.plan_box.specs.Follows.{draws_of, next_fixed};
    ghost use Rattle.plan_box.specs.Within.{AreRangesWithin, AreWithin, limit};

    /// What stands before the first step, of which nothing is known.
    pub fn before_all(instance: &Instance) -> Kept
        ensures place { result.place ≡ no_placed }
        ensures so_far { result.so_far ≡ no_ends }
        ensures ends { result.ends ≡ no_ends }
        ensures level { result.level ≡ NewPlate }
        ensures early { early result ≡ no_known }
        ensures late { late result ≡ no_known }
    {
        Kept {
            ranges: Packed::full(Frame::of(instance)),
            level: Level::NewPlate,
            place: Placed::none(),
            so_far: Ends::none(),
            ends: Ends::none(),
        }
    }

    /// The decided step of these ranges behind this one, where `before` has the ranges of all steps before it.
    pub fn next(&self, instance: &Instance, before: &[Packed], taken: u32, ranges: &Packed) -> Kept
        requires taken { taken ≡ drawn_of (draws_of before.now) (unpacked ranges.now).stack.low }
        requires few { length before.now < MOST_ITEMS }
        requires ranges { AreRangesWithin (unpacked ranges.now) }
        requires within { AreWithin (limit (length before.now)) (early self.now) }
        ensures value { early_fixed result ≡ next_fixed instance.now (draws_of before.now)
            (early self.now) (unpacked ranges.now) }
        ensures ranges { result.ranges ≡ ranges.now }
        ensures ends { result.ends ≡ result.so_far }
    {
        let draw = draw_at(ranges);
        let level = level_behind(before, draw.kind);
        let place = self.place.next(instance, before, taken, level, draw);
        let so_far = self
            .so_far
            .next(instance, level, &self.place, &place, ranges);
        Kept {
            ranges: *ranges,
            level,
            place,
            so_far,
            ends: so_far,
        }
    }

    /// The step that this decided step stands for at its least values.
    pub fn least_step(&self) -> Step
        ensures { result ≡ least_step_of (late self.now) }
    {
        let place = &self.place;
        let ends = &self.ends;
        Step {
            stack: place.stack,
            turn: place.turn,
            kind: place.kind,
            lift: place.lift,
            a: ends.least_a,
            b: ends.least_b,
            c: ends.least_c,
            d: ends.least_d,
            e: ends.least_e,
        }
    }
}
