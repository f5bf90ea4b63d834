//! What is found where a case is run.

ghost use Rattle.cut_model.specs.Fits.{Fits};
ghost use Rattle.cut_model.specs.Tree.{tree};

use crate::book::{Case, Draw, Subject};
use crate::boxes::tell_box;
use crate::steps::tell_steps;
use crate::telling::tell_trace;
use anyhow::ensure;
use batch_csv::read_batch;
use cut_model::{Plan, Trace};
use defect_map::DefectMap;
use first_plan::first_plan;
use glass_base::{Instance, Memory};
use glass_gen::generate;
use loss_area::loss;
use plan_csv::read_plan;
use plan_draft::draft;
use plan_trace::trace_of;
use std::alloc::Global;
use stock_csv::{read_defects, read_params, read_plates};

/// The instance that is drawn.
fn drawn_instance(alloc: Global, draw: Draw) -> anyhow::Result<Instance> {
    ensure!(
        1 <= draw.items && draw.items <= 800,
        "1 to 800 items are drawn"
    );
    ensure!(draw.defects <= 20_000, "at most 20,000 defects are drawn");
    Ok(generate(alloc, draw.start, draw.items, draw.defects)?)
}

/// The instance that a case gives.
fn instance_of(alloc: Global, case: &Case) -> anyhow::Result<Instance> {
    if let Some(draw) = case.drawn {
        return drawn_instance(alloc, draw);
    }
    let params = read_params(alloc, case.params.as_bytes())?;
    let widths = read_plates(alloc, &params, case.plates.as_bytes())?;
    let items = read_batch(alloc, case.items.as_bytes())?;
    let defects = read_defects(alloc, case.defects.as_bytes())?;
    Ok(Instance::on_plates(alloc, params, items, defects, widths)?)
}

/// Adds what is found of the trace of a plan.
fn tell_plan_trace(
    alloc: Global,
    found: &mut String,
    instance: &Instance,
    plan: &Plan,
) -> anyhow::Result<()>
    requires { Fits (tree plan.now) }
{
    let trace = trace_of(alloc, instance, plan)?;
    tell_steps(found, trace.steps.as_slice())?;
    tell_trace(alloc, found, instance, &trace)
}

/// Adds what is found of the plan that a case gives, and of its trace.
fn tell_plan(
    alloc: Global,
    found: &mut String,
    instance: &Instance,
    text: &[u8],
) -> anyhow::Result<()> {
    let plan = read_plan(alloc, instance, text)?;
    writeln!(found, "lost {}", loss(instance, &plan))?;
    tell_plan_trace(alloc, found, instance, &plan)
}

/// The draft, or the number of the item at which there is none.
fn draft_of(alloc: Global, instance: &Instance) -> Result<Result<Trace, u32>, Memory> {
    let map = DefectMap::new(alloc, instance)?;
    draft(alloc, instance, &map)
}

/// Adds the draft.
fn tell_draft(alloc: Global, found: &mut String, instance: &Instance) -> anyhow::Result<()> {
    writeln!(found, "draft")?;
    match draft_of(alloc, instance)? {
        Ok(trace) => tell_steps(found, trace.steps.as_slice())?,
        Err(number) => writeln!(found, "none {number}")?,
    }
    Ok(())
}

/// The first plan's trace, if there is one.
fn first_of(alloc: Global, instance: &Instance) -> Result<Option<Trace>, Memory> {
    let map = DefectMap::new(alloc, instance)?;
    first_plan(alloc, instance, &map)
}

/// Adds the first plan.
fn tell_first(alloc: Global, found: &mut String, instance: &Instance) -> anyhow::Result<()> {
    writeln!(found, "first")?;
    match first_of(alloc, instance)? {
        Some(trace) => {
            tell_steps(found, trace.steps.as_slice())?;
            tell_trace(alloc, found, instance, &trace)
        }
        None => Ok(writeln!(found, "none")?),
    }
}

/// Adds what is found of a case.
fn tell(alloc: Global, found: &mut String, instance: &Instance, case: &Case) -> anyhow::Result<()> {
    match case.subject {
        Subject::Trace => tell_trace(alloc, found, instance, &case.trace),
        Subject::Plan => tell_plan(alloc, found, instance, case.plan.as_bytes()),
        Subject::Draft => tell_draft(alloc, found, instance),
        Subject::FirstPlan => tell_first(alloc, found, instance),
        Subject::Box => tell_box(alloc, found, instance, case.halves.as_slice()),
    }
}

/// All that is found of a case, in the book's words.
pub fn answer(alloc: Global, case: &Case) -> anyhow::Result<String> {
    let instance = instance_of(alloc, case)?;
    let mut found = String::new(alloc);
    tell(alloc, &mut found, &instance, case)?;
    Ok(found)
}
