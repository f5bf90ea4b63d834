//! What is found of a box by its least values.

ghost use Rattle.std.specs.Prelude.{◌≡◌, IfOk, IsTrue, length as length_of_list};
ghost use Rattle.box_bound.specs.Leastings.{IsFor, IsOf};
ghost use Rattle.plan_box.specs.Decisions.{all_decided};
ghost use Rattle.plan_box.specs.Frames.{frame_of};

use crate::steps::tell_steps;
use box_bound::{Leasts, bound, bound_at, choose, probe, probe_at, refuted, refuted_at};
use cut_model::{Step, Trace};
use defect_map::{DefectMap, Ground};
use glass_base::{Instance, Memory, Run, append};
use plan_box::{PlanBox, Var};
use std::alloc::{AllocError, Global};

/// Adds the least values of the steps that are kept, each line with this word.
fn tell_leasts(found: &mut String, word: &str, leasts: &Leasts) -> Result<(), AllocError> {
    for step in 0..800 {
        if step as usize >= leasts.len() {
            return Ok(());
        }
        let (a, b) = (leasts.least(step, Var::A), leasts.least(step, Var::B));
        let (c, d) = (leasts.least(step, Var::C), leasts.least(step, Var::D));
        let e = leasts.least(step, Var::E);
        writeln!(found, "{word} {step} {a} {b} {c} {d} {e}")?;
    }
    Ok(())
}

/// Adds the bound of a box and the first reason that applies to it, and where the calls without leasts answer otherwise.
fn tell_bounds(
    found: &mut String,
    ground: Ground<'_>,
    leasts: &Leasts,
    bx: &PlanBox,
) -> Result<(), AllocError>
    requires instance { bx.now.frame ≡ frame_of ground.instance.now }
    requires leasts { IsFor ground.instance.now bx.now leasts.now }
{
    let Ground { instance, map } = ground;
    let least = bound_at(instance, leasts, bx);
    writeln!(found, "bound {least}")?;
    if bound(instance, bx) != least {
        writeln!(found, "another bound without leasts")?;
    }
    let reason = refuted_at(instance, map, leasts, bx);
    match reason {
        Some(reason) => writeln!(found, "refuted {reason:?}")?,
        None => writeln!(found, "open")?,
    }
    if refuted(instance, map, bx) != reason {
        writeln!(found, "another reason without leasts")?;
    }
    Ok(())
}

/// A trace with a step for each item, to be filled.
fn blank(alloc: Global, instance: &Instance) -> Result<Trace, Memory>
    ensures { IfOk result (λ trace. length_of_list trace.steps.items
        ≡ length_of_list instance.now.items) }
{
    let mut steps = Run::new(alloc);
    for _number in 0..instance.items().len() {
        append(&mut steps, Step::NONE)?;
    }
    Ok(Trace { steps })
}

/// Whether a box has another trace at its least values, or another answer, where it is asked without leasts.
fn is_probed_otherwise(
    alloc: Global,
    ground: Ground<'_>,
    bx: &PlanBox,
    steps: &[Step],
    meets: bool,
) -> Result<bool, Memory>
    requires instance { bx.now.frame ≡ frame_of ground.instance.now }
    requires whole { IsTrue (all_decided bx.now.ranges) }
{
    let mut other = blank(alloc, ground.instance)?;
    let meets_again = probe(ground.instance, ground.map, bx, &mut other);
    Ok(meets_again != meets || other.steps.as_slice() != steps)
}

/// Adds the trace at the least values of a box, and whether it meets the rules.
fn tell_probed(found: &mut String, steps: &[Step], meets: bool) -> Result<(), AllocError> {
    tell_steps(found, steps)?;
    writeln!(found, "probe {meets}")
}

/// Adds what the probe of a box gives whose steps are all decided.
fn tell_probe(
    alloc: Global,
    found: &mut String,
    ground: Ground<'_>,
    leasts: &Leasts,
    bx: &PlanBox,
) -> anyhow::Result<()>
    requires instance { bx.now.frame ≡ frame_of ground.instance.now }
    requires leasts { IsFor ground.instance.now bx.now leasts.now }
    requires whole { IsTrue (all_decided bx.now.ranges) }
{
    let mut trace = blank(alloc, ground.instance)?;
    let meets = probe_at(ground.instance, ground.map, leasts, bx, &mut trace);
    let steps = trace.steps.as_slice();
    tell_probed(found, steps, meets)?;
    if is_probed_otherwise(alloc, ground, bx, steps, meets)? {
        writeln!(found, "another probe without leasts")?;
    }
    Ok(())
}

/// The least values of a box. They are filled for it, for the whole box, and for it again, and told each time.
fn leasts_of(
    alloc: Global,
    found: &mut String,
    instance: &Instance,
    bx: &PlanBox,
) -> anyhow::Result<Leasts>
    requires { bx.now.frame ≡ frame_of instance.now }
    ensures { IfOk result (λ leasts. IsFor instance.now bx.now leasts) }
{
    let mut leasts = Leasts::new(alloc, instance)?;
    leasts.fill(instance, bx);
    tell_leasts(found, "least", &leasts)?;
    fill_anew(alloc, instance, &mut leasts)?;
    leasts.fill(instance, bx);
    tell_leasts(found, "again", &leasts)?;
    Ok(leasts)
}

/// Fills least values for the whole box.
fn fill_anew(alloc: Global, instance: &Instance, leasts: &mut Leasts) -> Result<(), Memory>
    requires { IsOf instance.now leasts.old }
    ensures { IfOk result (λ _. IsOf instance.now leasts.new) }
{
    let root = PlanBox::root(alloc, instance, 0)?;
    leasts.fill(instance, &root);
    Ok(())
}

/// Adds what is found of a box by its least values, with which they are filled.
fn tell_filled(
    alloc: Global,
    found: &mut String,
    ground: Ground<'_>,
    leasts: &Leasts,
    bx: &PlanBox,
) -> anyhow::Result<()>
    requires instance { bx.now.frame ≡ frame_of ground.instance.now }
    requires leasts { IsFor ground.instance.now bx.now leasts.now }
{
    tell_bounds(found, ground, leasts, bx)?;
    if bx.is_decided() {
        tell_probe(alloc, found, ground, leasts, bx)?;
    }
    if choose(bx).is_none() != bx.is_point() {
        writeln!(found, "another choice")?;
    }
    Ok(())
}

/// Adds what is found of a box by its least values.
pub fn tell_found(
    alloc: Global,
    found: &mut String,
    instance: &Instance,
    bx: &PlanBox,
) -> anyhow::Result<()>
    requires instance { bx.now.frame ≡ frame_of instance.now }
{
    let map = DefectMap::new(alloc, instance)?;
    let leasts = leasts_of(alloc, found, instance, bx)?;
    let ground = Ground {
        instance,
        map: &map,
    };
    tell_filled(alloc, found, ground, &leasts, bx)
}
