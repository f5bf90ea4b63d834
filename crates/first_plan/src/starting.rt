//! What a search begins with that asks what fronts show.

ghost use Rattle.std.specs.Prelude.{◌≡◌, ◌≤◌, ℕ, IfNone, IfOk, IfSome};
ghost use Rattle.cut_model.specs.Lawful.{IsLawful};
ghost use Rattle.cut_model.specs.Loss.{loss_of};
ghost use Rattle.cut_model.specs.Steps.{length_of};
ghost use Rattle.cut_model.specs.Tree.{Forest};
ghost use Rattle.first_plan.specs.FirstPlans.{IsFirstPlan, IsNoWorse};
ghost use Rattle.first_plan.specs.inner.Betters.{IsBetterOf};
ghost use Rattle.front_course.specs.Claims.{LosesAtLeast};
ghost use Rattle.glass_base.specs.Problem.{IsProblem};
ghost use Rattle.plan_draft.specs.Drafts.{HasNoDraft};
ghost use Rattle.plan_trace.specs.Claims.{IsComplete};

use crate::beaming::{by_first_beam, by_second_beam, loss_in, trace_in};
use crate::choosing::{effort, first_of};
use crate::comparing::{better_of, length_of_plan};
use cut_model::Trace;
use defect_map::Ground;
use front_bound::front_search::FrontSearch;
use front_bound::losses::LONGEST;
use front_plan::plans::{Shown, longest_with_plan};
use glass_base::{Instance, Listener, Memory};
use loss_area::loss_of_length;
use plan_beams::Beams;
use plan_draft::draft;
use std::alloc::Global;
use std::thread::Threads;

/// What a search begins with.
#[derive(Drop)]
pub struct Start {
    /// A plan, where one is known.
    pub first: Option<Trace>,
    /// No lawful plan loses less, in mm²; 0 says nothing.
    pub floor: u64,
}

/// The better of a first plan and another one, or the only one. Where both take the same glass it is the other one.
pub fn better_first(
    instance: &Instance,
    first: Option<Trace>,
    other: Option<Trace>,
) -> Option<Trace>
    requires problem { IsProblem instance.now }
    requires plan { IfSome first (λ trace. IsFirstPlan instance.now trace.steps.items) }
    requires none { IfNone first ((number : ℕ) × HasNoDraft instance.now number) }
    requires other { IfSome other (λ trace. IsComplete instance.now trace.steps.items) }
    ensures plan { IfSome result (λ trace. IsFirstPlan instance.now trace.steps.items) }
    ensures none { IfNone result ((number : ℕ) × HasNoDraft instance.now number) }
    ensures better { IsBetterOf instance.now first other result }
    ensures no_worse { IsNoWorse instance.now other result }
{
    better_of(instance, first, other)
}

/// How much glass a first plan takes, in mm, or `LONGEST` where there is none.
fn length_of_first(instance: &Instance, first: &Option<Trace>) -> u64
    requires problem { IsProblem instance.now }
    requires plan { IfSome first.now (λ trace. IsFirstPlan instance.now trace.steps.items) }
    ensures { result ≤ 5000000000 }
{
    match first {
        Some(trace) => length_of_plan(instance, trace).min(LONGEST),
        None => LONGEST,
    }
}

/// The floor that a length shows, in mm². Where it is `LONGEST`, there is no plan of which to say anything, and it is 0.
fn floor_of(instance: &Instance, length: u64) -> u64
    requires shown { LosesAtLeast instance.now length }
    requires most { length ≤ 5000000000 }
    ensures { (plan : Forest) → IsLawful instance.now plan → result ≤ loss_of instance.now plan }
{
    if length < LONGEST {
        loss_of_length(instance, length)
    } else {
        0
    }
}

/// What a search begins with: a first plan, as `first_plan` promises it, that is the best of the draft, of one that is
/// known, if there is one, of those that two beams find, and of one that is looked for along fronts; and the greatest
/// floor that fronts show. Where a plan reaches the floor, no other one is looked for, since none is better.
///
/// The effort is counted and not timed, so that the same instance has the same start on each machine. Where there are
/// many fronts it may take minutes and gigabytes; where there are too many, or where there is no way to cut the items
/// at all, the floor is 0. How far that is, is told to the search's listener. It fails only where memory runs out.
pub fn start_by_fronts<R: Threads + Sync, L: Listener>(
    alloc: Global,
    ground: Ground<'_>,
    known: Option<Trace>,
    search: &FrontSearch<'_, R, L>,
) -> Result<Start, Memory>
    requires known { IfSome known (λ trace. IsComplete ground.instance.now trace.steps.items) }
    ensures plan { IfOk result (λ start. IfSome start.first
        (λ trace. IsFirstPlan ground.entry.instance.now trace.steps.items)) }
    ensures none { IfOk result (λ start. IfNone start.first ((number : ℕ)
        × HasNoDraft ground.entry.instance.now number)) }
    ensures floor { let b = ground.entry.instance.now in
        IfOk result (λ start. (plan : Forest) → IsLawful b plan → start.floor ≤ loss_of b plan) }
    ensures no_worse { IfOk result (λ start. IsNoWorse ground.entry.instance.now known
        start.first) }
{
    let ticks = effort(ground.instance.items().len());
    let beams = Beams::new(alloc, ground.instance)?;
    let found = by_first_beam(alloc, ground, &beams, ticks)?;
    let lost = loss_in(&found);
    let drafted = draft(alloc, ground.instance, ground.map)?;
    let first = first_of(ground.instance, trace_in(found), drafted);
    let first = better_first(ground.instance, first, known);
    let most = length_of_first(ground.instance, &first);
    let Shown { length, plan } = longest_with_plan(alloc, ground, most, search)?;
    let floor = floor_of(ground.instance, length);
    let best = better_first(ground.instance, first, plan);
    if length_of_first(ground.instance, &best) <= length {
        return Ok(Start { first: best, floor });
    }
    let other = by_second_beam(alloc, ground, &beams, lost, ticks)?;
    let first = better_first(ground.instance, best, other);
    Ok(Start { first, floor })
}
