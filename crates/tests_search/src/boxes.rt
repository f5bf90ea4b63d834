//! Two boxes of an instance of one item, one for each way in which the item can lie.
ghost use Rattle.std.specs.Prelude.{◌≡◌, All, length, IfOk};
ghost use Rattle.plan_box.specs.Frames.{frame_of};
ghost use Rattle.plan_box.specs.Ranges.{PlainBox};
ghost use Rattle.cert_log.specs.Lawful.{numbered};

use glass_base::{Instance, Run, append};
use plan_box::{PlanBox, Var};
use std::alloc::Global;
use std::test::Fail;

/// The halves of a box at a variable of the first step, which is free.
fn halves(
    alloc: Global,
    instance: &Instance,
    bx: PlanBox,
    var: Var,
    ids: (u64, u64),
) -> Result<(PlanBox, PlanBox), Fail>
    requires { bx.frame ≡ frame_of instance.now }
    ensures lower { IfOk result (λ r. (r.0.frame ≡ frame_of instance.now) × (r.0.id ≡ ids.0)) }
    ensures upper { IfOk result (λ r. (r.1.frame ≡ frame_of instance.now) × (r.1.id ≡ ids.1)) }
{
    if !bx.free(0, var) {
        return Err(Fail::new("this variable is not free"));
    }
    match bx.split(alloc, instance, 0, var, ids) {
        Ok(halves) => Ok(halves),
        Err((_, memory)) => Err(memory.into()),
    }
}

/// The lower half of a box at a variable of the first step. It has the identity of the box.
fn lower_half(alloc: Global, instance: &Instance, bx: PlanBox, var: Var) -> Result<PlanBox, Fail>
    requires { bx.frame ≡ frame_of instance.now }
    ensures { IfOk result (λ r. (r.frame ≡ frame_of instance.now) × (r.id ≡ bx.id)) }
{
    let id = bx.id();
    let (lower, _) = halves(alloc, instance, bx, var, (id, id))?;
    Ok(lower)
}

/// What of a box has kind 0 and lift 0. A kind is a number from 0 to 4, so three halvings lead to 0.
fn lowest(alloc: Global, instance: &Instance, bx: PlanBox) -> Result<PlanBox, Fail>
    requires { bx.frame ≡ frame_of instance.now }
    ensures { IfOk result (λ r. (r.frame ≡ frame_of instance.now) × (r.id ≡ bx.id)) }
{
    let bx = lower_half(alloc, instance, bx, Var::Kind)?;
    let bx = lower_half(alloc, instance, bx, Var::Kind)?;
    let bx = lower_half(alloc, instance, bx, Var::Kind)?;
    lower_half(alloc, instance, bx, Var::Lift)
}

/// The box of kind 0 and lift 0 in which the item lies as it is, and the one in which it is turned.
pub(crate) fn two_boxes(alloc: Global, instance: &Instance) -> Result<Run<PlanBox>, Fail>
    ensures frames { IfOk result (λ start. All (λ (x : PlainBox). x.frame
        ≡ frame_of instance.now) start.items) }
    ensures ids { IfOk result (λ start. numbered 0 start.items) }
    ensures two { IfOk result (λ start. length start.items ≡ 2) }
{
    let root = PlanBox::root(alloc, instance, 0)?;
    let (unturned, turned) = halves(alloc, instance, root, Var::Turn, (0, 1))?;
    let mut start = Run::new(alloc);
    append(&mut start, lowest(alloc, instance, unturned)?)?;
    append(&mut start, lowest(alloc, instance, turned)?)?;
    Ok(start)
}

/// The same two boxes, the one in which the item is turned first.
pub(crate) fn two_boxes_turned_first(
    alloc: Global,
    instance: &Instance,
) -> Result<Run<PlanBox>, Fail>
    ensures frames { IfOk result (λ start. All (λ (x : PlainBox). x.frame
        ≡ frame_of instance.now) start.items) }
    ensures ids { IfOk result (λ start. numbered 0 start.items) }
    ensures two { IfOk result (λ start. length start.items ≡ 2) }
{
    let root = PlanBox::root(alloc, instance, 0)?;
    let (unturned, turned) = halves(alloc, instance, root, Var::Turn, (1, 0))?;
    let mut start = Run::new(alloc);
    append(&mut start, lowest(alloc, instance, turned)?)?;
    append(&mut start, lowest(alloc, instance, unturned)?)?;
    Ok(start)
}
