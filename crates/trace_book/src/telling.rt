//! What is found of a trace.

ghost use Rattle.std.specs.Prelude.{◌≤◌, length as length_of_list};
ghost use Rattle.glass_base.specs.Problem.{IsProblem};
ghost use Rattle.cut_model.specs.Fits.{Fits};
ghost use Rattle.cut_model.specs.Tree.{tree};
ghost use Rattle.plan_trace.specs.Claims.{IsComplete};
ghost use Rattle.plan_trace.specs.TraceRules.{Meets};

use anyhow::{Context, ensure};
use cut_model::{Plan, Trace};
use defect_map::DefectMap;
use glass_base::Instance;
use loss_area::{length, loss};
use plan_csv::write_plan;
use plan_trace::laws::traces_keep_their_kinds;
use plan_trace::{meets, plan_of, trace_of};
use std::alloc::Global;
use std::str;

/// The length of a trace that has a step and meets the rules.
fn length_of(instance: &Instance, trace: &Trace) -> u64
    requires problem { IsProblem instance.now }
    requires some { 1 ≤ length_of_list trace.now.steps.items }
    requires meets { Meets instance.now trace.now.steps.items }
{
    traces_keep_their_kinds();
    length(instance, trace)
}

/// What a trace of this length loses.
fn loss_of(instance: &Instance, length: u64) -> Option<u64> {
    let glass = length.checked_mul(u64::from(instance.params().height))?;
    glass.checked_sub(instance.area())
}

/// Adds the rows of a plan, without the names of the columns.
fn tell_rows(found: &mut String, text: &str) -> anyhow::Result<()> {
    found.push_str("plan\n")?;
    for row in text.lines().skip(1) {
        writeln!(found, "row {row}")?;
    }
    Ok(())
}

/// Adds a line where the plan of a trace has another trace, and one where it has another loss.
fn tell_other(
    alloc: Global,
    found: &mut String,
    instance: &Instance,
    trace: &Trace,
    wasted: u64,
    plan: &Plan,
) -> anyhow::Result<()>
    requires { Fits (tree plan.now) }
{
    let again = trace_of(alloc, instance, plan)?;
    if again.steps.as_slice() != trace.steps.as_slice() {
        writeln!(found, "its plan has another trace")?;
    }
    if loss(instance, plan) != wasted {
        writeln!(found, "its plan has another loss")?;
    }
    Ok(())
}

/// Adds the text of a plan.
fn tell_text(
    alloc: Global,
    found: &mut String,
    instance: &Instance,
    plan: &Plan,
) -> anyhow::Result<()>
    requires { Fits (tree plan.now) }
{
    let text = write_plan(alloc, instance, plan)?;
    tell_rows(found, str::from_utf8(text.as_slice())?)
}

/// Adds what is found of a trace that has a step for each item and meets the rules.
fn tell_complete(
    alloc: Global,
    found: &mut String,
    instance: &Instance,
    trace: &Trace,
    length: u64,
) -> anyhow::Result<()>
    requires { IsComplete instance.now trace.now.steps.items }
{
    let wasted = loss_of(instance, length).context("the items are larger than the glass")?;
    writeln!(found, "loss {wasted}")?;
    let plan = plan_of(alloc, instance, trace)?;
    tell_other(alloc, found, instance, trace, wasted, &plan)?;
    tell_text(alloc, found, instance, &plan)
}

/// Adds what is found of a trace that meets the rules.
fn tell_kept(
    alloc: Global,
    found: &mut String,
    instance: &Instance,
    trace: &Trace,
) -> anyhow::Result<()>
    requires { Meets instance.now trace.now.steps.items }
{
    writeln!(found, "meets")?;
    if trace.steps.is_empty() {
        return Ok(());
    }
    let items = instance.items();
    let length = length_of(instance, trace);
    writeln!(found, "length {length}")?;
    if trace.steps.len() == items.len() {
        tell_complete(alloc, found, instance, trace, length)?;
    }
    Ok(())
}

/// Adds what is found of a trace.
pub fn tell_trace(
    alloc: Global,
    found: &mut String,
    instance: &Instance,
    trace: &Trace,
) -> anyhow::Result<()> {
    let map = DefectMap::new(alloc, instance)?;
    ensure!(u32::try_from(trace.steps.len()).is_ok(), "too many steps");
    match meets(instance, &map, trace) {
        Ok(()) => tell_kept(alloc, found, instance, trace),
        Err(broken) => Ok(writeln!(found, "breaks {} {}", broken.rule, broken.step)?),
    }
}
