//! The start boxes are dealt out to the workers.
ghost use Rattle.std.specs.Prelude.{◌≡◌, ◌<◌, All, length, IfOk, OnOk};
ghost use Rattle.plan_box.specs.Ranges.{PlainBox};
ghost use Rattle.box_ring.specs.Arms.{frame};
ghost use Rattle.box_workers.specs.declared.member.Member.{Member as MemberOf};
ghost use Rattle.box_workers.specs.inner.Dealing.{Gets, Deals};

use crate::member::Member;
use glass_base::{Memory, Run};
use plan_box::PlanBox;

/// Pushes a box to the arm of one of the workers.
fn deal_one(members: &mut [Member], at: usize, bx: PlanBox) -> Result<(), Memory>
    requires at { at < length members.old }
    requires frame { All (λ (m : MemberOf). bx.frame ≡ frame m.arm) members.old }
    ensures { OnOk result (Gets at bx members.old members.new) }
{
    let Ok(()) = members[at].arm.push(bx) else {
        return Err(Memory);
    };
    Ok(())
}

/// Pushes each box to the arm whose number is that of the box, from 0 on, modulo the number of workers. The worker of the last arm
/// stands first.
fn deal_slice(members: &mut [Member], boxes: Run<PlanBox>) -> Result<(), Memory>
    requires some { 0 < length members.old }
    requires frames { All (λ (x : PlainBox). All (λ (m : MemberOf). x.frame
        ≡ frame m.arm) members.old) boxes.items }
    ensures { OnOk result (Deals boxes.items members.old members.new) }
{
    let mut boxes = boxes;
    while let Some(bx) = boxes.pop() {
        let arm = boxes.len() % members.len();
        deal_one(members, members.len() - 1 - arm, bx)?;
    }
    Ok(())
}

/// The workers of a list, once each box is pushed to the arm whose number is that of the box, from 0 on, modulo the number of workers.
/// The worker of the last arm stands first.
pub(crate) fn deal(members: Vec<Member>, boxes: Run<PlanBox>) -> Result<Vec<Member>, Memory>
    requires some { 0 < length members.items }
    requires frames { All (λ (x : PlainBox). All (λ (m : MemberOf). x.frame
        ≡ frame m.arm) members.items) boxes.items }
    ensures { IfOk result (λ ms. Deals boxes.items members.items ms.items) }
{
    let mut members = members;
    deal_slice(members.as_mut_slice(), boxes)?;
    Ok(members)
}
