//! The variable at which a box is split.

ghost use Rattle.std.specs.Prelude.{◌≡◌, ◌<◌, IsTrue, MatchOption, false, length, true};
ghost use Rattle.plan_box.specs.Decisions.{IsPoint, decided as decided_of, is_discrete, is_free};
ghost use Rattle.plan_box.specs.declared.var.Var.{Var as VarOf};
ghost use Rattle.box_bound.specs.Spans.{IsWidest};

use crate::cuts::{StepCut, cuts_read};
use crate::leasts::Leasts;
use plan_box::{PlanBox, Var};
use plan_trace::TraceBroken;

/// The first discrete number of a step that can be split.
fn first_discrete(bx: &PlanBox, step: u32) -> Option<Var>
    ensures { MatchOption result ((var : VarOf) → is_discrete var ≡ true
        → is_free bx.now.ranges step var ≡ false) (λ var. IsTrue (is_free bx.now.ranges step var)
        × (is_discrete var ≡ true)) }
{
    if bx.free(step, Var::Stack) {
        return Some(Var::Stack);
    }
    if bx.free(step, Var::Turn) {
        return Some(Var::Turn);
    }
    if bx.free(step, Var::Kind) {
        return Some(Var::Kind);
    }
    if bx.free(step, Var::Lift) {
        return Some(Var::Lift);
    }
    None
}

/// The first cut of a step that can be split.
fn first_cut(bx: &PlanBox, step: u32) -> Option<Var>
    ensures { MatchOption result ((var : VarOf) → is_discrete var ≡ false
        → is_free bx.now.ranges step var ≡ false) (λ var. IsTrue (is_free bx.now.ranges step var)) }
{
    if bx.free(step, Var::A) {
        return Some(Var::A);
    }
    if bx.free(step, Var::B) {
        return Some(Var::B);
    }
    if bx.free(step, Var::C) {
        return Some(Var::C);
    }
    if bx.free(step, Var::D) {
        return Some(Var::D);
    }
    if bx.free(step, Var::E) {
        return Some(Var::E);
    }
    None
}

/// A variable that can be split, or none exactly where the box is a point. A discrete number of the first undecided step is
/// taken before a cut of a decided one.
pub fn choose(bx: &PlanBox) -> Option<(u32, Var)>
    ensures { MatchOption result (IsPoint bx.now.ranges)
        (λ p. IsTrue (is_free bx.now.ranges p.0 p.1)
        × (is_discrete p.1 ≡ false → (var : VarOf) → is_discrete var ≡ true
        → is_free bx.now.ranges (length (decided_of bx.now.ranges)) var ≡ false)) }
{
    let decided = bx.decided();
    if let Some(var) = first_discrete(bx, decided) {
        return Some((decided, var));
    }
    for step in 0..decided {
        if let Some(var) = first_cut(bx, step) {
            return Some((step, var));
        }
    }
    None
}

/// Of these cuts the free one with the widest span from its least value to its high end, if one is free.
fn widest_free(leasts: &Leasts, bx: &PlanBox, cuts: &[StepCut]) -> Option<(u32, Var)>
    ensures { IsWidest leasts.now bx.now.ranges cuts.now result }
{
    let mut found = None;
    let mut widest = 0;
    for cut in cuts {
        let span = leasts.span(cut.step, cut.var);
        if bx.free(cut.step, cut.var) && (found.is_none() || widest < span) {
            found = Some((cut.step, cut.var));
            widest = span;
        }
    }
    found
}

/// The variable at which a box is split whose least values are kept: of the cuts that the rule reads which the least values break, the
/// free one with the widest span from least value to high end, if there is one; else what `choose` gives. None exactly where the box is
/// a point.
pub fn choose_at(leasts: &Leasts, bx: &PlanBox, broken: Option<TraceBroken>) -> Option<(u32, Var)>
    ensures { MatchOption result (IsPoint bx.now.ranges)
        (λ p. IsTrue (is_free bx.now.ranges p.0 p.1)) }
{
    if let Some(broken) = broken {
        let cuts = cuts_read(leasts.kept(), broken);
        let found = widest_free(leasts, bx, &cuts);
        if found.is_some() {
            return found;
        }
    }
    choose(bx)
}
