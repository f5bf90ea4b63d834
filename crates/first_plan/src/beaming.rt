//! The better plan of two beams.

ghost use Rattle.std.specs.Option.{option_map};
ghost use Rattle.std.specs.Prelude.{◌≡◌, IfOk, IfSome};
ghost use Rattle.first_plan.specs.inner.Betters.{IsBetterOf};
ghost use Rattle.glass_base.specs.Problem.{IsProblem};
ghost use Rattle.plan_trace.specs.Claims.{IsComplete};

use crate::comparing::better_of;
use cut_model::Trace;
use defect_map::Ground;
use glass_base::{Instance, Memory};
use plan_beams::{BeamPlan, Beams};
use plan_trace::meets;
use std::alloc::Global;

/// What a beam found, where its trace has a step for each item and meets the rules.
pub(crate) fn checked(ground: Ground<'_>, found: Option<BeamPlan>) -> Option<BeamPlan>
    ensures { IfSome result (λ found. IsComplete ground.entry.instance.now
        found.trace.steps.items) }
{
    let found = found?;
    if found.trace.steps.len() != ground.instance.items().len() {
        return None;
    }
    match meets(ground.instance, ground.map, &found.trace) {
        Ok(()) => Some(found),
        Err(_) => None,
    }
}

/// The trace that was found, if one was.
pub(crate) fn trace_in(found: Option<BeamPlan>) -> Option<Trace>
    ensures { result ≡ option_map (λ found. found.trace) found }
{
    Some(found?.trace)
}

/// The loss in mm² of what was found, if something was.
pub(crate) fn loss_in(found: &Option<BeamPlan>) -> Option<u64>
    ensures { result ≡ option_map (λ found. found.loss) found.now }
{
    match found {
        Some(found) => Some(found.loss),
        None => None,
    }
}

/// How many ticks of all the first beam has.
fn first_part(ticks: u64) -> u64 {
    ticks / 16
}

/// What the first beam finds, where its trace has a step for each item and meets the rules. It takes a sixteenth of the
/// ticks.
pub(crate) fn by_first_beam(
    alloc: Global,
    ground: Ground<'_>,
    beams: &Beams,
    ticks: u64,
) -> Result<Option<BeamPlan>, Memory>
    ensures { IfOk result (λ found. IfSome found
        (λ found. IsComplete ground.entry.instance.now found.trace.steps.items)) }
{
    let found = beams.first(alloc, ground.instance, first_part(ticks))?;
    Ok(checked(ground, found))
}

/// What the second beam finds with the other ticks, where the first one lost so much, if its trace has a step for each
/// item and meets the rules.
pub(crate) fn by_second_beam(
    alloc: Global,
    ground: Ground<'_>,
    beams: &Beams,
    lost: Option<u64>,
    ticks: u64,
) -> Result<Option<Trace>, Memory>
    ensures { IfOk result (λ found. IfSome found
        (λ trace. IsComplete ground.entry.instance.now trace.steps.items)) }
{
    let left = ticks.saturating_sub(first_part(ticks));
    let found = beams.second(alloc, ground.instance, lost, left)?;
    Ok(trace_in(checked(ground, found)))
}

/// The better of what the first beam and the second one found, or the only one.
fn better_plan(instance: &Instance, first: Option<BeamPlan>, second: Option<Trace>) -> Option<Trace>
    requires problem { IsProblem instance.now }
    requires first { IfSome first
        (λ found. IsComplete instance.now found.trace.steps.items) }
    requires second { IfSome second (λ trace. IsComplete instance.now trace.steps.items) }
    ensures complete { IfSome result (λ trace. IsComplete instance.now trace.steps.items) }
    ensures better { IsBetterOf instance.now (option_map (λ found. found.trace) first) second
        result }
{
    better_of(instance, trace_in(first), second)
}

/// The better trace of two beams that has a step for each item and meets the rules, if they find one.
pub(crate) fn beam_plan(
    alloc: Global,
    ground: Ground<'_>,
    ticks: u64,
) -> Result<Option<Trace>, Memory>
    requires problem { IsProblem ground.instance.now }
    ensures { IfOk result (λ found. IfSome found
        (λ trace. IsComplete ground.entry.instance.now trace.steps.items)) }
{
    let beams = Beams::new(alloc, ground.instance)?;
    let first = by_first_beam(alloc, ground, &beams, ticks)?;
    let lost = loss_in(&first);
    let second = by_second_beam(alloc, ground, &beams, lost, ticks)?;
    Ok(better_plan(ground.instance, first, second))
}
