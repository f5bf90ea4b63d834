//! The choice between the plan of the beams and the draft.

ghost use Rattle.std.specs.Prelude.{◌≡◌, ℕ, IfNone, IfOk, IfSome, MatchResult};
ghost use Rattle.std.specs.Result.{result_ok};
ghost use Rattle.glass_base.specs.Problem.{IsProblem};
ghost use Rattle.first_plan.specs.FirstPlans.{IsFirstPlan};
ghost use Rattle.first_plan.specs.inner.Betters.{IsBetterOf};
ghost use Rattle.plan_draft.specs.Drafts.{HasNoDraft, IsDraft};
ghost use Rattle.plan_trace.specs.Claims.{IsComplete};

use crate::beaming::beam_plan;
use crate::comparing::better_of;
use cut_model::Trace;
use defect_map::{DefectMap, Ground};
use glass_base::{Instance, Memory};
use plan_draft::draft;
use std::alloc::Global;

/// The effort of the beams for so many items, in ticks of about 30 ns: one second up to 100 items, eight for 800.
pub(crate) fn effort(items: usize) -> u64 {
    let many = items as u64;
    if many <= 100 {
        30_000_000
    } else if many <= 200 {
        many.saturating_mul(300_000)
    } else {
        many.saturating_sub(200)
            .saturating_mul(250_000)
            .saturating_add(60_000_000)
    }
}

/// The plan of the beams or the draft: the one that takes less glass, or the only one.
fn shorter(instance: &Instance, found: Option<Trace>, drafted: Result<Trace, u32>) -> Option<Trace>
    requires problem { IsProblem instance.now }
    requires found { IfSome found (λ trace. IsComplete instance.now trace.steps.items) }
    requires drafted { IfOk drafted (λ trace. IsComplete instance.now trace.steps.items) }
    ensures complete { IfSome result (λ trace. IsComplete instance.now trace.steps.items) }
    ensures better { IsBetterOf instance.now (result_ok drafted) found result }
{
    match drafted {
        Ok(drafted) => better_of(instance, Some(drafted), found),
        Err(_) => found,
    }
}

/// The first plan: that of the beams or the draft.
pub(crate) fn first_of(
    instance: &Instance,
    found: Option<Trace>,
    drafted: Result<Trace, u32>,
) -> Option<Trace>
    requires problem { IsProblem instance.now }
    requires found { IfSome found (λ trace. IsComplete instance.now trace.steps.items) }
    requires drafted { MatchResult drafted (λ trace. IsDraft instance.now trace.steps.items)
        (HasNoDraft instance.now) }
    requires complete { IfOk drafted (λ trace. IsComplete instance.now trace.steps.items) }
    ensures plan { IfSome result (λ trace. IsFirstPlan instance.now trace.steps.items) }
    ensures none { IfNone result ((number : ℕ) × HasNoDraft instance.now number) }
    ensures better { IsBetterOf instance.now (result_ok drafted) found result }
{
    shorter(instance, found, drafted)
}

/// A first plan: a trace with a step for each item that meets the rules and takes no more glass than the draft. There is none
/// only where there is no draft; a draft that is missing does not mean that there is no first plan.
///
/// Two beams over partial traces look for it, with an effort that is counted and not timed, so that the same instance has the
/// same first plan on each machine. How much it loses is not promised. It fails only where memory runs out.
pub fn first_plan(
    alloc: Global,
    instance: &Instance,
    map: &DefectMap,
) -> Result<Option<Trace>, Memory>
    requires map { map.now ≡ instance.now.defects }
    ensures plan { IfOk result (λ found. IfSome found
        (λ trace. IsFirstPlan instance.now trace.steps.items)) }
    ensures none { IfOk result (λ found. IfNone found ((number : ℕ)
        × HasNoDraft instance.now number)) }
{
    let ticks = effort(instance.items().len());
    let found = beam_plan(alloc, Ground { instance, map }, ticks)?;
    let drafted = draft(alloc, instance, map)?;
    Ok(first_of(instance, found, drafted))
}
