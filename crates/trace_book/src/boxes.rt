//! What is found of a box.

ghost use Rattle.std.specs.Prelude.{◌≡◌, IfOk};
ghost use Rattle.plan_box.specs.Frames.{frame_of};

use crate::book::Half;
use crate::bounds::tell_found;
use crate::vars::VARS;
use anyhow::{bail, ensure};
use glass_base::Instance;
use plan_box::PlanBox;
use std::alloc::{AllocError, Global};

/// The identities of the halves of the box with this one.
fn halves_of(id: u64) -> (u64, u64) {
    let lower = id.wrapping_mul(2).wrapping_add(1);
    (lower, lower.wrapping_add(1))
}

/// A half of a box: a lower one by `split`, an upper one by `room` and `split_in`.
fn half_of(alloc: Global, instance: &Instance, bx: PlanBox, half: &Half) -> anyhow::Result<PlanBox>
    requires { bx.frame ≡ frame_of instance.now }
    ensures { IfOk result (λ bx. bx.frame ≡ frame_of instance.now) }
{
    ensure!(bx.free(half.step, half.var), "what is halved is not free");
    let ids = halves_of(bx.id());
    if half.is_upper {
        let room = bx.room(alloc)?;
        let (_, upper) = bx.split_in(instance, half.step, half.var, ids, room);
        return Ok(upper);
    }
    match bx.split(alloc, instance, half.step, half.var, ids) {
        Ok((lower, _)) => Ok(lower),
        Err((_, _)) => bail!("out of memory"),
    }
}

/// The box that is left of the whole one when these halves are taken.
fn box_of(alloc: Global, instance: &Instance, halves: &[Half]) -> anyhow::Result<PlanBox>
    ensures { IfOk result (λ bx. bx.frame ≡ frame_of instance.now) }
{
    let mut bx = PlanBox::root(alloc, instance, 0)?;
    for half in halves {
        bx = half_of(alloc, instance, bx, half)?;
    }
    Ok(bx)
}

/// Adds the ranges of a step.
fn tell_ranges(found: &mut String, bx: &PlanBox, step: u32) -> Result<(), AllocError> {
    write!(found, "ranges {step}")?;
    for (var, _) in VARS {
        let (low, high) = bx.range(step, var);
        write!(found, " {low}..{high}")?;
    }
    found.push('\n')?;
    Ok(())
}

/// Adds the free variables of a step.
fn tell_free(found: &mut String, bx: &PlanBox, step: u32) -> Result<(), AllocError> {
    for (var, name) in VARS {
        if bx.free(step, var) {
            writeln!(found, "free {step} {name}")?;
        }
    }
    Ok(())
}

/// Adds the identity of a box, how many of its steps are decided, its ranges and what is free.
fn tell_frame(found: &mut String, bx: &PlanBox) -> Result<(), AllocError> {
    let items = bx.frame().items;
    writeln!(found, "box {}", bx.id())?;
    writeln!(found, "decided {}", bx.decided())?;
    for step in 0..items {
        tell_ranges(found, bx, step)?;
    }
    for step in 0..items {
        tell_free(found, bx, step)?;
    }
    if bx.is_point() {
        writeln!(found, "point")?;
    }
    Ok(())
}

/// Adds what is found of the box that is left when these halves are taken.
pub fn tell_box(
    alloc: Global,
    found: &mut String,
    instance: &Instance,
    halves: &[Half],
) -> anyhow::Result<()> {
    let bx = box_of(alloc, instance, halves)?;
    tell_frame(found, &bx)?;
    tell_found(alloc, found, instance, &bx)
}
